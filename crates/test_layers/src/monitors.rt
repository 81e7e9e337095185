use crate::databases::{Database, line_of_switch, new_database};
use crate::texts::{initial_text, number_text, owned, parts_of, two_parts, updates_text};
use ov_db::{Db, Delta, row_of};
use ov_keeper::Line;
use ov_rows::{Row, RowKey};
use ov_schema::Schema;
use ov_stage::Stage;
use ov_watch::{Monitors, WatchFault};
use std::alloc::{AllocError, Global};
use std::mem;
use std::test::Fail;
use test_basics::{NetKeeper, Scripted, agrees, net, number, tree, value};
use test_commits::{put_line, remove_row};
use uuid::Uuid;

/// An insert, a change of the name and a delete are reported; a change of the load alone is not. Then the monitor is
/// requested again, and canceled twice.
const ONE_COLUMN: &str = r#"monitor "m" {"Switch":[{"columns":["name"]}]} -> {}
put 2 1 s1 0
commit -> ["m",{"Switch":{"00000000-0000-0000-0000-000000000002":{"new":{"name":"s1"}}}}]
put 2 3 s1 5
commit
put 2 4 s2 5
commit -> ["m",{"Switch":{"00000000-0000-0000-0000-000000000002":{"new":{"name":"s2"},"old":{"name":"s1"}}}}]
remove 2
commit -> ["m",{"Switch":{"00000000-0000-0000-0000-000000000002":{"old":{"name":"s2"}}}}]
monitor "m" {"Switch":[{"columns":["name"]}]} -> duplicate monitor id
cancel "m" -> canceled
cancel "m" -> unknown monitor
put 2 5 s1 0
commit"#;

/// Of two requests for one table, each reports its columns for the kinds that it selects. A modified row is reported with all
/// columns, and with the old values of those that changed.
const TWO_REQUESTS: &str = r#"put 2 1 s1 0
commit
monitor "m" {"Switch":[{"columns":["name"],"select":{"initial":false}},{"columns":["load"],"select":{"insert":false}}]} -> {"Switch":{"00000000-0000-0000-0000-000000000002":{"new":{"load":0}}}}
put 4 3 s2 0
commit -> ["m",{"Switch":{"00000000-0000-0000-0000-000000000004":{"new":{"name":"s2"}}}}]
put 4 5 s2 5
commit -> ["m",{"Switch":{"00000000-0000-0000-0000-000000000004":{"new":{"load":5,"name":"s2"},"old":{"load":0}}}}]
put 2 6 s3 1
remove 4
commit -> ["m",{"Switch":{"00000000-0000-0000-0000-000000000002":{"new":{"load":1,"name":"s3"},"old":{"load":0,"name":"s1"}},"00000000-0000-0000-0000-000000000004":{"old":{"load":5,"name":"s2"}}}}]"#;

/// What no kind selects is not reported. A request without `columns` covers all columns but the identifier; one with an empty
/// list reports that a row is there.
const SELECTED: &str = r#"put 2 1 s1 0
commit
monitor 1 {"Switch":{"columns":["name"],"select":{"initial":false}}} -> {}
monitor 2 {"Switch":{"select":{"insert":false,"delete":false,"modify":false}}} -> {"Switch":{"00000000-0000-0000-0000-000000000002":{"new":{"_version":["uuid","00000000-0000-0000-0000-000000000001"],"load":0,"main":["set",[]],"name":"s1","ports":["set",[]]}}}}
monitor 3 {"Switch":{"columns":[]}} -> {"Switch":{"00000000-0000-0000-0000-000000000002":{"new":{}}}}
monitor 4 {"Switch":[]} -> {}
put 2 3 s2 0
commit -> [1,{"Switch":{"00000000-0000-0000-0000-000000000002":{"new":{"name":"s2"},"old":{"name":"s1"}}}}]
remove 2
commit -> [1,{"Switch":{"00000000-0000-0000-0000-000000000002":{"old":{"name":"s2"}}}}] [3,{"Switch":{"00000000-0000-0000-0000-000000000002":{"old":{}}}}]"#;

/// A row that is inserted and deleted in one transaction, one that is deleted and inserted again unchanged, and rows of
/// tables that were not requested.
const UNTOLD: &str = r#"put 2 1 s1 0
commit
monitor 1 {"Switch":{"columns":["name"]},"Port":{}} -> {"Switch":{"00000000-0000-0000-0000-000000000002":{"new":{"name":"s1"}}}}
monitor 2 {"Port":{}} -> {}
monitor 3 {} -> {}
put 5 4 s5 0
remove 5
commit
remove 2
put 2 6 s1 0
commit
commit
put 3 7 s3 0
commit -> [1,{"Switch":{"00000000-0000-0000-0000-000000000003":{"new":{"name":"s3"}}}}]"#;

/// Any value names a monitor; two values are the same name if they are sent as the same text. Monitors report in order of
/// creation.
const IDS: &str = r#"monitor null {"Switch":{"columns":["name"]}} -> {}
monitor ["a",{"b":1,"a":2}] {"Switch":{"columns":["load"]}} -> {}
monitor ["a",{"a":2,"b":1}] {} -> duplicate monitor id
monitor "null" {} -> {}
monitor null {} -> duplicate monitor id
put 2 1 s1 0
commit -> [null,{"Switch":{"00000000-0000-0000-0000-000000000002":{"new":{"name":"s1"}}}}] [["a",{"a":2,"b":1}],{"Switch":{"00000000-0000-0000-0000-000000000002":{"new":{"load":0}}}}]
cancel null -> canceled
monitor null {"Switch":{"columns":["name"],"select":{"initial":false}}} -> {}
remove 2
commit -> [["a",{"a":2,"b":1}],{"Switch":{"00000000-0000-0000-0000-000000000002":{"old":{"load":0}}}}] [null,{"Switch":{"00000000-0000-0000-0000-000000000002":{"old":{"name":"s1"}}}}]
cancel ["a",{"a":2,"b":1}] -> canceled
cancel "null" -> canceled
cancel [null] -> unknown monitor"#;

/// Malformed requests are refused before a name that is in use, and that before tables and columns, which are checked table
/// by table.
const REFUSED: &str = r#"monitor "m" {} -> {}
monitor "m" {"Switch":{"columns":["name","name"]}} -> syntax error
monitor "m" {"Switch":[{"columns":["name"]},{"columns":["load","name"]}]} -> syntax error
monitor "m" {"Swich":[],"Switch":{"select":{"insert":1}}} -> syntax error
monitor "m" {"Switch":{"columns":null}} -> syntax error
monitor "m" [] -> syntax error
monitor "m" {"Swich":[]} -> duplicate monitor id
monitor "n" {"Swich":[],"Switch":{"columns":["nam"]}} -> unknown table
monitor "n" {"Switch":{"columns":["nam"]},"Twitch":[]} -> unknown column
cancel "n" -> unknown monitor"#;

/// A change of a switch.
#[derive(Drop)]
enum Change {
    /// Puts the switch of a line.
    Put(Line),
    /// Removes the switch with this identifier.
    Remove(Uuid),
}

/// A database Net and the monitors of a session, driven by a script.
///
/// The commands are `monitor ID REQUESTS`, answered with the monitor's initial rows or why it is refused; `cancel ID`; the
/// changes `put NUMBER VERSION NAME LOAD` and `remove NUMBER` of switches; and `commit`, answered with the params of each
/// update that reports them.
struct Watching {
    database: Database,
    monitors: Monitors,
    changes: Vec<Change>,
}

impl Drop for Watching {
    // Has its own drop, like a database.
    fn drop(self) {
        let Watching {
            database,
            monitors,
            changes,
        } = self;
        drop(database);
        drop(monitors);
        drop(changes);
    }
}

/// The line of a switch: its number, version, name and load.
fn line_to_put(alloc: Global, put: &str) -> Result<Line, Fail> {
    let (number, rest) = two_parts(put)?;
    let (version, rest) = two_parts(rest)?;
    let (name, load) = two_parts(rest)?;
    line_of_switch(alloc, number, version, name, load)
}

/// Puts the row of a line within a transaction.
fn stage_columns(
    alloc: Global,
    stage: &mut Stage<'_>,
    line: &Line,
    row: &Row,
) -> Result<(), AllocError> {
    let key = RowKey::new(alloc, line.table.as_str(), line.id)?;
    stage.put(key, line.version, row.columns.copy(alloc)?)
}

/// Puts a row within a transaction.
fn stage_row(
    alloc: Global,
    db: &Db<NetKeeper>,
    stage: &mut Stage<'_>,
    line: &Line,
) -> Result<(), Fail> {
    let row = row_of(alloc, db.schema(), line)?;
    stage_columns(alloc, stage, line, &row)?;
    Ok(())
}

/// Removes a switch within a transaction.
fn stage_removal(alloc: Global, stage: &mut Stage<'_>, id: Uuid) -> Result<(), AllocError> {
    stage.remove(RowKey::new(alloc, "Switch", id)?)
}

/// Makes a change within a transaction.
fn stage_change(
    alloc: Global,
    db: &Db<NetKeeper>,
    stage: &mut Stage<'_>,
    change: &Change,
) -> Result<(), Fail> {
    match change {
        Change::Put(line) => stage_row(alloc, db, stage, line),
        Change::Remove(id) => Ok(stage_removal(alloc, stage, *id)?),
    }
}

/// Commits a change.
fn commit_change(alloc: Global, db: &mut Db<NetKeeper>, change: &Change) -> Result<(), Fail> {
    match change {
        Change::Put(line) => put_line(alloc, db, line)?,
        Change::Remove(id) => remove_row(alloc, db, "Switch", *id)?,
    };
    Ok(())
}

/// Commits the changes, one after another.
fn commit_each(alloc: Global, db: &mut Db<NetKeeper>, changes: &[Change]) -> Result<(), Fail> {
    for change in changes {
        commit_change(alloc, db, change)?;
    }
    Ok(())
}

/// That a monitor was canceled, or why not.
fn canceled_text(alloc: Global, canceled: Result<(), WatchFault>) -> Result<String, Fail> {
    match canceled {
        Ok(()) => owned(alloc, "canceled"),
        Err(fault) => owned(alloc, fault.text()),
    }
}

impl Watching {
    /// Adds a monitor, or returns why it is refused.
    fn add(&mut self, alloc: Global, id: &str, requests: &str) -> Result<Option<WatchFault>, Fail> {
        let requests = value(alloc, requests)?;
        let id = tree(alloc, id)?;
        let schema = self.database.db.schema();
        Ok(self.monitors.add(alloc, schema, id, &requests).err())
    }

    /// A monitor's initial rows.
    fn first(&self, alloc: Global, id: &str) -> Result<String, Fail> {
        let id = tree(alloc, id)?;
        let told = self.monitors.initial(alloc, &self.database.db, &id)?;
        initial_text(alloc, told)
    }

    /// Adds a monitor and returns its initial rows.
    fn monitor(&mut self, alloc: Global, asked: &str) -> Result<String, Fail> {
        let (id, requests) = two_parts(asked)?;
        match self.add(alloc, id, requests)? {
            None => self.first(alloc, id),
            Some(fault) => owned(alloc, fault.text()),
        }
    }

    fn cancel(&mut self, alloc: Global, id: &str) -> Result<String, Fail> {
        let id = tree(alloc, id)?;
        canceled_text(alloc, self.monitors.cancel(alloc, &id))
    }

    /// Keeps a change for the next commit.
    fn change(&mut self, alloc: Global, change: Change) -> Result<String, Fail> {
        self.changes.push(change)?;
        Ok(String::new(alloc))
    }

    fn put(&mut self, alloc: Global, row: &str) -> Result<String, Fail> {
        let line = line_to_put(alloc, row)?;
        self.change(alloc, Change::Put(line))
    }

    fn remove(&mut self, alloc: Global, id: &str) -> Result<String, Fail> {
        let id = number(id)?;
        self.change(alloc, Change::Remove(id))
    }

    /// The delta of a transaction that makes the changes.
    fn delta(&self, alloc: Global) -> Result<Delta, Fail> {
        let db = &self.database.db;
        let mut stage = Stage::new(alloc, db.rows());
        for change in &self.changes {
            stage_change(alloc, db, &mut stage, change)?;
        }
        Ok(stage.into_delta())
    }

    /// The updates that report the changes.
    fn told(&self, alloc: Global) -> Result<String, Fail> {
        let delta = self.delta(alloc)?;
        let updates = self.monitors.updates(alloc, &self.database.db, &delta)?;
        updates_text(alloc, updates)
    }

    /// Commits the changes.
    fn commit_changes(&mut self, alloc: Global) -> Result<(), Fail> {
        let changes = mem::replace(&mut self.changes, Vec::new(alloc));
        commit_each(alloc, &mut self.database.db, changes.as_slice())
    }

    /// Commits the changes and returns the updates that report them.
    fn commit(&mut self, alloc: Global) -> Result<String, Fail> {
        let told = self.told(alloc)?;
        self.commit_changes(alloc)?;
        Ok(told)
    }
}

impl Scripted for Watching {
    fn answer(&mut self, alloc: Global, command: &str) -> Result<String, Fail> {
        let (word, rest) = parts_of(command);
        match word {
            "monitor" => self.monitor(alloc, rest),
            "cancel" => self.cancel(alloc, rest),
            "put" => self.put(alloc, rest),
            "remove" => self.remove(alloc, rest),
            _ => self.commit(alloc),
        }
    }
}

/// Runs a script over a new database with these monitors.
fn watches_with(alloc: Global, monitors: Monitors, script: &str) -> Result<(), Fail> {
    let watching = Watching {
        database: new_database(alloc)?,
        monitors,
        changes: Vec::new(alloc),
    };
    agrees(alloc, watching, script)
}

/// Runs a script over a new database without monitors.
fn watches(alloc: Global, script: &str) -> Result<(), Fail> {
    watches_with(alloc, Monitors::new(alloc), script)
}

#[test]
fn a_monitor_tells_of_each_change(rt: HostRuntime) -> Result<(), Fail> {
    watches(rt.alloc(), ONE_COLUMN)
}

#[test]
fn each_request_tells_of_its_columns(rt: HostRuntime) -> Result<(), Fail> {
    watches(rt.alloc(), TWO_REQUESTS)
}

#[test]
fn what_is_not_selected_is_not_told(rt: HostRuntime) -> Result<(), Fail> {
    watches(rt.alloc(), SELECTED)
}

#[test]
fn what_is_undone_in_one_transaction_is_not_told(rt: HostRuntime) -> Result<(), Fail> {
    watches(rt.alloc(), UNTOLD)
}

#[test]
fn monitor_ids(rt: HostRuntime) -> Result<(), Fail> {
    watches(rt.alloc(), IDS)
}

#[test]
fn monitors_are_refused_in_order(rt: HostRuntime) -> Result<(), Fail> {
    watches(rt.alloc(), REFUSED)
}

/// One monitor more than a session may have.
const TOO_MANY: &str = r#"monitor 64 {"Switch":1} -> syntax error
monitor 63 {} -> duplicate monitor id
monitor 64 {"Swich":[]} -> resources exhausted
cancel 7 -> canceled
monitor 64 {"Swich":[]} -> unknown table
monitor 64 {} -> {}
monitor 7 {} -> resources exhausted"#;

/// Adds a monitor of no table with this name.
fn add_named(
    alloc: Global,
    schema: &Schema,
    monitors: &mut Monitors,
    id: &str,
) -> Result<(), Fail> {
    let nothing = value(alloc, "{}")?;
    monitors.add(alloc, schema, tree(alloc, id)?, &nothing)?;
    Ok(())
}

/// Adds a monitor of no table, named by a number.
fn add_one(
    alloc: Global,
    schema: &Schema,
    monitors: &mut Monitors,
    number: u64,
) -> Result<(), Fail> {
    let id = number_text(alloc, number)?;
    add_named(alloc, schema, monitors, id.as_str())
}

/// Adds as many monitors as a session may have.
fn add_many(alloc: Global, schema: &Schema, monitors: &mut Monitors) -> Result<(), Fail> {
    for number in 0..64 {
        add_one(alloc, schema, monitors, number)?;
    }
    Ok(())
}

/// As many monitors as a session may have.
fn many(alloc: Global) -> Result<Monitors, Fail> {
    let schema = net(alloc)?;
    let mut monitors = Monitors::new(alloc);
    add_many(alloc, &schema, &mut monitors)?;
    Ok(monitors)
}

#[test]
fn a_session_has_64_monitors(rt: HostRuntime) -> Result<(), Fail> {
    let monitors = many(rt.alloc())?;
    watches_with(rt.alloc(), monitors, TOO_MANY)
}
