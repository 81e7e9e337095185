ghost use Rattle.std.specs.Prelude.{◌≡◌, ◌<◌, ◌-◌, ◌≤◌, ℕ, [], map, length, count_by, is_some};
ghost use Rattle.std.specs.Prelude.{None, false, IfOk, OnErr, MatchOption};
ghost use Rattle.std.specs.Map.Iter.{ShowsInOrder, deref};
ghost use Rattle.ov_sessions.specs.Sessions.{OpensSession, most_sessions, has_serial, has_no_room};
ghost use Rattle.ov_sessions.specs.Sessions.{serial_left, without_serial, serial_at};

use crate::session::Session;
use std::alloc::{AllocError, Global};
use std::collections::BTreeMap;
use std::collections::btree_map::Keys;
use std::marker::Model;

/// The most sessions that may be open.
const MOST_SESSIONS: usize = 64;

/// The open sessions, each with a key below 64 that is its own while it is open. Serials only rise, so sessions ordered by
/// serial are in order of opening.
#[derive(Drop)]
pub struct Sessions {
    /// The serial of each open session, at its key, and `None` at each of the 64 keys that no session has.
    serials: Vec<Option<u64>>,
    /// The key of each open session, by its serial.
    keys: BTreeMap<u64, usize>,
    /// The serial of the next session.
    next: u64,
}

impl Model for Sessions {
    ghost use Rattle.std.specs.Prelude.{map};
    ghost use Rattle.std.specs.Coded.{codes};
    ghost use Rattle.ov_sessions.specs.Sessions.{OpenSessions, AreTied, session_at};
    ghost use Rattle.ov_sessions.specs.Sessions.{open_sessions_code};

    ghost Value = { OpenSessions };

    ghost coded = { Prim.hlevel (codes, open_sessions_code) };

    ghost view = { λ s. record { open_sessions = map session_at s.keys.entries; next = s.next } };

    ghost invariant = { λ s. AreTied s.serials.items s.keys.entries s.next };
}

impl Sessions {
    /// No session is open, and the next serial is 1. Allocates the room for all serials.
    pub fn new(alloc: Global) -> Result<Sessions, AllocError>
        ensures { IfOk result (λ s. s ≡ record { open_sessions = []; next = 1 }) }
    {
        let mut serials = Vec::new(alloc);
        serials.resize(MOST_SESSIONS, None)?;
        Ok(Sessions {
            serials,
            keys: BTreeMap::new(alloc),
            next: 1,
        })
    }

    /// How many more sessions may be open.
    pub fn free_places(&self) -> usize
        ensures { result ≡ most_sessions - length self.now.open_sessions }
    {
        MOST_SESSIONS - self.keys.len()
    }

    /// States for contracts that no more sessions are open than may be. It is compiled away.
    pub fn shows_few(&self)
        ensures { length self.now.open_sessions ≤ most_sessions }
    {
        let _ = &self.keys;
    }

    /// The next serial; `None` if none is left.
    pub fn next_serial(&self) -> Option<u64>
        ensures { result ≡ serial_left self.now.next }
    {
        if self.next == u64::MAX {
            None
        } else {
            Some(self.next)
        }
    }

    /// Whether no place or no serial is left.
    pub fn is_full(&self) -> bool
        ensures { result ≡ has_no_room (length self.now.open_sessions) self.now.next }
    {
        self.keys.len() == MOST_SESSIONS || self.next == u64::MAX
    }

    /// Whether the session of this serial is open.
    pub fn is_open(&self, serial: u64) -> bool
        ensures { result ≡ has_serial serial self.now.open_sessions }
    {
        self.keys.contains_key(&serial)
    }

    /// The serials of the open sessions, in order of opening.
    #[tactic(auto, using(crate::proofs::Keying::serials_by_keys))]
    pub fn serials(&self) -> Keys<'_, u64, usize>
        ensures serials { result ≡ map (λ n. n.serial) self.now.open_sessions }
        ensures runs { ShowsInOrder (deref {X = ℕ}) }
    {
        self.keys.keys()
    }

    /// Opens a session, with the next serial. If an allocation fails, nothing changes.
    pub fn open(&mut self) -> Result<Session, AllocError>
        requires { has_no_room (length self.old.open_sessions) self.old.next ≡ false }
        ensures opened { IfOk result (λ session. OpensSession self.old session self.new) }
        ensures refused { OnErr result (self.new ≡ self.old) }
    {
        let serial = self.next;
        let Some(key) = free_key(self.serials.as_slice()) else {
            unreachable!();
        };
        self.keys.insert(serial, key)?;
        self.serials[key] = Some(serial);
        self.next = serial + 1;
        Ok(Session { key, serial })
    }

    /// Closes the session of this serial, if it is open. Allocates nothing.
    pub fn close(&mut self, serial: u64)
        ensures { self.new
            ≡ record self.old { open_sessions = without_serial serial self.old.open_sessions } }
    {
        if let Some(key) = self.keys.remove(&serial) {
            self.serials[key] = None;
        }
    }
}

/// The first key that no session has, or `None` if each has a session.
fn free_key(serials: &[Option<u64>]) -> Option<usize>
    ensures { MatchOption result
        (count_by is_some serials.now ≡ length serials.now)
        (λ key. (key < length serials.now) × (serial_at serials.now key ≡ None)) }
{
    for (key, serial) in serials.iter().enumerate() {
        if serial.is_none() {
            return Some(key);
        }
    }
    None
}
