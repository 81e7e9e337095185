ghost use Rattle.std.specs.Prelude.{◌≡◌, [], IfOk, OnErr, map, option_map};
ghost use Rattle.std.specs.List.{find};
ghost use Rattle.serde_json.specs.View.{view};
ghost use Rattle.ov_stored.specs.Changing.{applied};
ghost use Rattle.ov_specs.specs.monitors.Monitors as spec;
ghost use Rattle.ov_specs.specs.monitors.Updates.{initial, all_updates};
ghost use Rattle.ov_watch.specs.Views.{IsWatchResult};

use crate::fault::WatchFault;
use crate::monitor::{Monitor, name_of};
use crate::requests::read_requests;
use crate::table::monitored_tables;
use indexmap::IndexMap;
use ov_base::{Tree, Trees};
use ov_db::{Db, Delta};
use ov_keeper::Keeper;
use ov_schema::Schema;
use serde_json::Value;
use std::alloc::{AllocError, Global};
use std::marker::Model;

/// The most monitors that a session may have.
const MAX_MONITORS: usize = 64;

/// The monitors of a session, in order of creation (RFC 7047, 4.1.5).
#[derive(Drop)]
pub struct Monitors {
    /// Each under the text that its name is sent as.
    monitors: IndexMap<String, Monitor>,
}

impl Model for Monitors {
    ghost use Rattle.std.specs.Prelude.{◌≡◌, List, map, string_bytes};
    ghost use Rattle.std.specs.Coded.{coded_list};
    ghost use Rattle.std.specs.List.{AllByRecursion};
    ghost use Rattle.ov_specs.specs.monitors.Monitors as spec;
    ghost use Rattle.ov_specs.specs.codes.MonitorCode.{monitor_code};
    ghost use Rattle.ov_specs.specs.wire.Frame.{frame};

    ghost Value = { List spec.Monitor };

    ghost coded = { coded_list monitor_code };

    ghost view = { λ m. map (λ e. e.1) m.monitors.entries };

    ghost invariant = { λ m.
        AllByRecursion (λ e. string_bytes e.0 ≡ frame e.1.id) m.monitors.entries };
}

impl Monitors {
    /// Creates an empty list of monitors.
    pub fn new(alloc: Global) -> Monitors
        ensures { result ≡ [] }
    {
        Monitors {
            monitors: IndexMap::new(alloc),
        }
    }

    /// Adds a monitor after the others. Its name may be any value; two names are equal if they are sent as the same text.
    ///
    /// Returns the first fault that applies: the requests are malformed, or name a column of a table twice (`Syntax`); there
    /// is a monitor of this name (`Duplicate`); there are 64 monitors (`Limit`); table by table, in ascending order, the
    /// schema lacks the table, or the table a column (`UnknownTable`, `UnknownColumn`). `Memory` may be returned in any case.
    /// A refusal changes nothing (RFC 7047, 4.1.5, which sets no order).
    pub fn add(
        &mut self,
        alloc: Global,
        schema: &Schema,
        id: Tree,
        requests: &Value,
    ) -> Result<(), WatchFault>
        ensures added { IsWatchResult (λ _. self.new)
            (spec.added schema.now self.old id (view requests.now)) result }
        ensures err { OnErr result (self.new ≡ self.old) }
    {
        let Some(asked) = read_requests(alloc, requests)? else {
            return Err(WatchFault::Syntax);
        };
        let name = name_of(alloc, &id)?;
        if self.monitors.contains_key(name.as_str()) {
            return Err(WatchFault::Duplicate);
        }
        if self.monitors.len() >= MAX_MONITORS {
            return Err(WatchFault::Limit);
        }
        // A `match` instead of `?`, so that the proof sees which fault is returned.
        let tables = match monitored_tables(alloc, schema, asked.as_slice()) {
            Ok(tables) => tables,
            Err(fault) => return Err(fault),
        };
        match self.monitors.insert(name, Monitor { id, tables }) {
            Ok(_) => Ok(()),
            Err(_) => Err(WatchFault::Memory),
        }
    }

    /// Removes the monitor of this name. Returns `Unknown` if there is none, and may return `Memory`; then nothing changes
    /// (RFC 7047, 4.1.7).
    pub fn cancel(&mut self, alloc: Global, id: &Tree) -> Result<(), WatchFault>
        ensures canceled { IsWatchResult (λ _. self.new) (spec.canceled self.old id.now) result }
        ensures err { OnErr result (self.new ≡ self.old) }
    {
        let name = name_of(alloc, id)?;
        match self.monitors.shift_remove(name.as_str()) {
            Some(_) => Ok(()),
            None => Err(WatchFault::Unknown),
        }
    }

    /// What the monitor of this name reports initially, the result of `monitor`; `None` if there is no such monitor (RFC
    /// 7047, 4.1.5).
    pub fn initial<K: Keeper + Drop>(
        &self,
        alloc: Global,
        db: &Db<K>,
        id: &Tree,
    ) -> Result<Option<Tree>, AllocError>
        ensures { IfOk result (λ o. o
            ≡ option_map (initial db.now.committed) (find (spec.is_named id.now) self.now)) }
    {
        let name = name_of(alloc, id)?;
        match self.monitors.get(name.as_str()) {
            Some(monitor) => Ok(Some(monitor.initial(alloc, db.rows())?)),
            None => Ok(None),
        }
    }

    /// The params of the `update` of each monitor that reports any of these changes, in order of creation of the monitors.
    /// The database is as it was before the changes. Looks only at the changes, not at the rows (RFC 7047, 4.1.6).
    pub fn updates<K: Keeper + Drop>(
        &self,
        alloc: Global,
        db: &Db<K>,
        delta: &Delta,
    ) -> Result<Vec<Trees>, AllocError>
        ensures { IfOk result (λ v. v.items
            ≡ all_updates db.now.committed (applied delta.now db.now.committed) self.now) }
    {
        let rows = db.rows();
        let mut updates = Vec::new(alloc);
        for monitor in self.monitors.values() {
            if let Some(params) = monitor.update_params(alloc, rows, delta)? {
                updates.push(params)?;
            }
        }
        Ok(updates)
    }
}
