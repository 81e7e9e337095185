//! The open sessions and their monitors, call by call.

use crate::databases::{Database, new_database};
use crate::rows::{key_of, put_switch};
use crate::texts::{
    fact_text, initial_text, number_of, number_text, owned, parts_of, push_made_item, two_parts,
    updates_text,
};
use ov_db::Delta;
use ov_sessions::{Session, Sessions};
use ov_watch::{WatchFault, Watchers};
use std::alloc::Global;
use std::test::Fail;
use test_basics::{Scripted, agrees, tree, value};

/// Sessions, driven by a script. The commands are `open`, `close SERIAL`, `is_open SERIAL`, `free`, `full`, `next` and
/// `serials`.
#[derive(Drop)]
struct Opening {
    sessions: Sessions,
}

/// The key and the serial of a session.
fn session_text(alloc: Global, session: Session) -> Result<String, Fail> {
    let Session { key, serial } = session;
    Ok(format!(in alloc; "{key} {serial}")?)
}

/// A serial, or that there is none.
fn serial_text(alloc: Global, serial: Option<u64>) -> Result<String, Fail> {
    match serial {
        Some(serial) => number_text(alloc, serial),
        None => owned(alloc, "none"),
    }
}

impl Opening {
    /// Opens a session, if there is room for it.
    fn open(&mut self, alloc: Global) -> Result<String, Fail> {
        if self.sessions.is_full() {
            return owned(alloc, "full");
        }
        session_text(alloc, self.sessions.open()?)
    }

    fn close(&mut self, alloc: Global, serial: &str) -> Result<String, Fail> {
        self.sessions.close(number_of(serial)?);
        Ok(String::new(alloc))
    }

    fn is_open(&self, alloc: Global, serial: &str) -> Result<String, Fail> {
        let serial = number_of(serial)?;
        fact_text(alloc, self.sessions.is_open(serial))
    }

    /// The serials of the open sessions.
    fn serials(&self, alloc: Global) -> Result<String, Fail> {
        let mut text = String::new(alloc);
        for serial in self.sessions.serials() {
            push_made_item(&mut text, number_text(alloc, *serial))?;
        }
        Ok(text)
    }
}

impl Scripted for Opening {
    fn answer(&mut self, alloc: Global, command: &str) -> Result<String, Fail> {
        let (word, serial) = parts_of(command);
        match word {
            "open" => self.open(alloc),
            "close" => self.close(alloc, serial),
            "is_open" => self.is_open(alloc, serial),
            "free" => number_text(alloc, self.sessions.free_places() as u64),
            "full" => fact_text(alloc, self.sessions.is_full()),
            "next" => serial_text(alloc, self.sessions.next_serial()),
            _ => self.serials(alloc),
        }
    }
}

/// A key is reused; a serial is not. Sessions are in order of opening.
const OPENED: &str = "free -> 64
full -> false
next -> 1
open -> 0 1
open -> 1 2
open -> 2 3
close 2
close 9
is_open 1 -> true
is_open 2 -> false
free -> 62
open -> 1 4
next -> 5
serials -> 1;3;4;";

#[test]
fn sessions_are_opened_and_closed(rt: HostRuntime) -> Result<(), Fail> {
    let sessions = Sessions::new(rt.alloc())?;
    agrees(rt.alloc(), Opening { sessions }, OPENED)
}

/// The monitors of sessions, driven by a script, with a change that puts a switch into a new database.
///
/// The commands are `add SESSION ID REQUESTS` and `cancel SESSION ID`, answered with why they are refused,
/// `initial SESSION ID`, `updates SESSION`, `leave SESSION` and `empty 0`.
struct Watching {
    database: Database,
    watchers: Watchers,
}

impl Drop for Watching {
    // Has its own drop, like a database.
    fn drop(self) {
        let Watching { database, watchers } = self;
        drop(database);
        drop(watchers);
    }
}

/// Nothing, or why a call of the monitors is refused.
fn done_text(alloc: Global, done: Result<(), WatchFault>) -> Result<String, Fail> {
    match done {
        Ok(()) => Ok(String::new(alloc)),
        Err(fault) => owned(alloc, fault.text()),
    }
}

impl Watching {
    /// Adds a monitor.
    fn add(&mut self, alloc: Global, session: u64, asked: &str) -> Result<String, Fail> {
        let (id, requests) = two_parts(asked)?;
        let requests = value(alloc, requests)?;
        let id = tree(alloc, id)?;
        let schema = self.database.db.schema();
        let added = self.watchers.add(alloc, schema, session, id, &requests);
        done_text(alloc, added)
    }

    /// Cancels a monitor.
    fn cancel(&mut self, alloc: Global, session: u64, id: &str) -> Result<String, Fail> {
        let id = tree(alloc, id)?;
        done_text(alloc, self.watchers.cancel(alloc, session, &id))
    }

    /// A monitor's initial rows.
    fn initial(&self, alloc: Global, session: u64, id: &str) -> Result<String, Fail> {
        let id = tree(alloc, id)?;
        let told = self
            .watchers
            .initial(alloc, &self.database.db, session, &id)?;
        initial_text(alloc, told)
    }

    /// The updates with which a session's monitors report the change.
    fn updates(&self, alloc: Global, session: u64) -> Result<String, Fail> {
        let delta = one_switch(alloc)?;
        let updates = self
            .watchers
            .updates(alloc, &self.database.db, &delta, session)?;
        updates_text(alloc, updates)
    }

    fn leave(&mut self, alloc: Global, session: u64) -> Result<String, Fail> {
        self.watchers.leave(session);
        Ok(String::new(alloc))
    }
}

impl Scripted for Watching {
    fn answer(&mut self, alloc: Global, command: &str) -> Result<String, Fail> {
        let (word, rest) = two_parts(command)?;
        let (session, text) = parts_of(rest);
        let session = number_of(session)?;
        match word {
            "add" => self.add(alloc, session, text),
            "cancel" => self.cancel(alloc, session, text),
            "initial" => self.initial(alloc, session, text),
            "updates" => self.updates(alloc, session),
            "empty" => fact_text(alloc, self.watchers.is_empty()),
            "leave" => self.leave(alloc, session),
            _ => Err(Fail::new("no command")),
        }
    }
}

/// Each session has its own monitors.
const WATCHED: &str = r#"empty 0 -> true
add 1 "m" {"Switch":{"columns":["name"]}}
add 1 "m" {} -> duplicate monitor id
add 1 "n" {"Swich":{}} -> unknown table
add 2 "m" {"Switch":{"columns":["load"]}}
empty 0 -> false
initial 1 "m" -> {}
initial 1 "n" -> none
initial 3 "m" -> none
updates 1 -> ["m",{"Switch":{"00000000-0000-0000-0000-000000000001":{"new":{"name":"s1"}}}}]
updates 2 -> ["m",{"Switch":{"00000000-0000-0000-0000-000000000001":{"new":{"load":4}}}}]
updates 3
add 1 "n" {}
cancel 1 "n"
cancel 1 "n" -> unknown monitor
cancel 1 "m"
updates 1
cancel 3 "m" -> unknown monitor
leave 2
updates 2
leave 1
empty 0 -> true"#;

/// The change that puts switch 1.
fn one_switch(alloc: Global) -> Result<Delta, Fail> {
    let key = key_of(alloc, "Switch 1")?;
    let mut delta = Delta::new(alloc);
    put_switch(alloc, &mut delta, key)?;
    Ok(delta)
}

#[test]
fn sessions_have_monitors_of_their_own(rt: HostRuntime) -> Result<(), Fail> {
    let watching = Watching {
        database: new_database(rt.alloc())?,
        watchers: Watchers::new(rt.alloc()),
    };
    agrees(rt.alloc(), watching, WATCHED)
}
