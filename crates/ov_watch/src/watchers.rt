ghost use Rattle.std.specs.Prelude.{◌≡◌, ◌↔◌, [], IfOk, IsTrue, option_map};
ghost use Rattle.std.specs.List.{find};
ghost use Rattle.serde_json.specs.View.{view};
ghost use Rattle.ov_stored.specs.Changing.{applied};
ghost use Rattle.ov_specs.specs.monitors.Monitors as spec;
ghost use Rattle.ov_specs.specs.monitors.Updates.{initial, all_updates};
ghost use Rattle.ov_watch.specs.Watching.{monitors_at, WatchesWith, WatchesAsGiven};

use crate::fault::WatchFault;
use crate::monitors::Monitors;
use ov_base::{Tree, Trees};
use ov_db::{Db, Delta};
use ov_keeper::Keeper;
use ov_schema::Schema;
use serde_json::Value;
use std::alloc::{AllocError, Global};
use std::collections::BTreeMap;
use std::marker::Model;

/// The monitors of the sessions (RFC 7047, 4.1.5 to 4.1.7).
#[derive(Drop)]
pub struct Watchers {
    /// The monitors of each session that has any, by its serial. A session that canceled its last monitor may still be listed.
    monitors: BTreeMap<u64, Monitors>,
}

impl Model for Watchers {
    ghost use Rattle.ov_watch.specs.Watching.{Watching, watching_code};

    ghost Value = { Watching };

    ghost coded = { watching_code };

    ghost view = { λ w. w.monitors.entries };
}

impl Watchers {
    /// Starts with no monitors.
    pub fn new(alloc: Global) -> Watchers
        ensures { result ≡ [] }
    {
        Watchers {
            monitors: BTreeMap::new(alloc),
        }
    }

    /// Whether no session has had a monitor since it was opened. Then there is nothing to report to any.
    pub fn is_empty(&self) -> bool
        ensures { IsTrue result ↔ (self.now ≡ []) }
    {
        self.monitors.is_empty()
    }

    /// Adds a monitor to the session, after its others, or returns why not (RFC 7047, 4.1.5). `Memory` may be returned in any
    /// case. A refusal changes nothing.
    pub fn add(
        &mut self,
        alloc: Global,
        schema: &Schema,
        session: u64,
        id: Tree,
        requests: &Value,
    ) -> Result<(), WatchFault>
        ensures { WatchesAsGiven session
            (spec.added schema.now (monitors_at session self.old) id (view requests.now)) self.old
            result self.new }
    {
        if let Some(monitors) = self.monitors.get_mut(&session) {
            return monitors.add(alloc, schema, id, requests);
        }
        let mut monitors = Monitors::new(alloc);
        // A `match` instead of `?`, so that the proof sees which fault is returned.
        if let Err(fault) = monitors.add(alloc, schema, id, requests) {
            return Err(fault);
        }
        match self.monitors.insert(session, monitors) {
            Ok(_) => Ok(()),
            Err(_) => Err(WatchFault::Memory),
        }
    }

    /// Removes the session's monitor of this name. Returns `Unknown` if there is none, and may return `Memory`; then nothing
    /// changes (RFC 7047, 4.1.7).
    pub fn cancel(&mut self, alloc: Global, session: u64, id: &Tree) -> Result<(), WatchFault>
        ensures { WatchesAsGiven session (spec.canceled (monitors_at session self.old) id.now)
            self.old result self.new }
    {
        if let Some(monitors) = self.monitors.get_mut(&session) {
            return monitors.cancel(alloc, id);
        }
        Err(WatchFault::Unknown)
    }

    /// What the session's monitor of this name reports initially, the result of `monitor`; `None` if there is no such monitor
    /// (RFC 7047, 4.1.5).
    pub fn initial<K: Keeper + Drop>(
        &self,
        alloc: Global,
        db: &Db<K>,
        session: u64,
        id: &Tree,
    ) -> Result<Option<Tree>, AllocError>
        ensures { IfOk result (λ o. o
            ≡ option_map (initial db.now.committed)
            (find (spec.is_named id.now) (monitors_at session self.now))) }
    {
        match self.monitors.get(&session) {
            Some(monitors) => monitors.initial(alloc, db, id),
            None => Ok(None),
        }
    }

    /// The params of each `update` that reports these changes to the session, in order of creation of its monitors. The
    /// database is as it was before the changes (RFC 7047, 4.1.6).
    pub fn updates<K: Keeper + Drop>(
        &self,
        alloc: Global,
        db: &Db<K>,
        delta: &Delta,
        session: u64,
    ) -> Result<Vec<Trees>, AllocError>
        ensures { IfOk result (λ v. v.items
            ≡ all_updates db.now.committed (applied delta.now db.now.committed)
            (monitors_at session self.now)) }
    {
        match self.monitors.get(&session) {
            Some(monitors) => monitors.updates(alloc, db, delta),
            None => Ok(Vec::new(alloc)),
        }
    }

    /// Removes all monitors of the session. Allocates nothing.
    pub fn leave(&mut self, session: u64)
        ensures { WatchesWith session [] self.old self.new }
    {
        self.monitors.remove(&session);
    }
}
