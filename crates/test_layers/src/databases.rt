use crate::rows::{key_of, text_of_columns};
use crate::texts::{fact_text, number_text, owned, push, two_parts};
use ov_db::{Db, StoreAnswer};
use ov_keeper::Line;
use ov_rows::{Row, TableRows};
use std::alloc::Global;
use std::test::Fail;
use test_basics::{Faults, NetKeeper, Scripted, agrees, follows, line_of, net, net_keeper, number};
use test_commits::{commit_nothing, put_line, remove_row};
use uuid::Uuid;

/// A database Net, driven by a script.
///
/// The commands are commits of one switch, `put NUMBER NAME` and `remove NUMBER`, and one of `nothing`; `row KEY`, whether
/// the key has a row; `rows`, the switches; `sealed` and `failures`.
pub(crate) struct Database {
    pub(crate) db: Db<NetKeeper>,
}

impl Drop for Database {
    // Has its own drop, so that code that drops a database need not prove the drops of its parts again.
    fn drop(self) {
        let Database { db } = self;
        drop(db);
    }
}

/// The database that a keeper holds.
fn opened(alloc: Global, keeper: NetKeeper) -> Result<Database, Fail> {
    let schema = net(alloc)?;
    let db = Db::open(alloc, keeper, schema)?;
    Ok(Database { db })
}

/// A new database over a keeper without faults.
pub(crate) fn new_database(alloc: Global) -> Result<Database, Fail> {
    opened(alloc, net_keeper(alloc, Faults::NONE)?)
}

/// The line of a switch with this number, version, name and load.
pub(crate) fn line_of_switch(
    alloc: Global,
    number: &str,
    version: &str,
    name: &str,
    load: &str,
) -> Result<Line, Fail> {
    let text = format!(in alloc;
        "Switch {number} {version} {{\"load\":{load},\"main\":[\"set\",[]],\"name\":\"{name}\",\"ports\":[\"set\",[]]}}"
    )?;
    line_of(alloc, text.as_str())
}

/// The word of a store's answer.
fn word_of(alloc: Global, answer: StoreAnswer) -> Result<String, Fail> {
    let word = match answer {
        StoreAnswer::Kept => "kept",
        StoreAnswer::Exhausted => "exhausted",
        StoreAnswer::Failed => "failed",
    };
    owned(alloc, word)
}

/// The text of a switch: its number and its body.
fn text_of(alloc: Global, id: &Uuid, row: &Row) -> Result<String, Fail> {
    let body = text_of_columns(alloc, &row.columns)?;
    let id = id.as_u128();
    Ok(format!(in alloc; "{id} {body};")?)
}

/// The text of switches.
fn text_of_rows(alloc: Global, rows: &TableRows) -> Result<String, Fail> {
    let mut text = String::new(alloc);
    for (id, row) in rows.map() {
        push(&mut text, text_of(alloc, id.as_uuid(), row))?;
    }
    Ok(text)
}

impl Database {
    /// Puts a switch.
    fn put(&mut self, alloc: Global, row: &str) -> Result<String, Fail> {
        let (number, name) = two_parts(row)?;
        let line = line_of_switch(alloc, number, "1", name, "4")?;
        word_of(alloc, put_line(alloc, &mut self.db, &line)?)
    }

    /// Removes a switch.
    fn remove(&mut self, alloc: Global, id: &str) -> Result<String, Fail> {
        let id = number(id)?;
        word_of(alloc, remove_row(alloc, &mut self.db, "Switch", id)?)
    }

    /// Commits no change.
    fn commit_nothing(&mut self, alloc: Global) -> Result<String, Fail> {
        word_of(alloc, commit_nothing(alloc, &mut self.db)?)
    }

    /// Whether there is a row of a key.
    fn has_row(&self, alloc: Global, key: &str) -> Result<String, Fail> {
        let key = key_of(alloc, key)?;
        fact_text(alloc, self.db.row(key.table(), key.id()).is_some())
    }

    /// The answer to a command for one row.
    fn act(&mut self, alloc: Global, command: &str) -> Result<String, Fail> {
        let (word, row) = two_parts(command)?;
        match word {
            "put" => self.put(alloc, row),
            "remove" => self.remove(alloc, row),
            _ => self.has_row(alloc, row),
        }
    }

    /// Consumes the database and returns its keeper.
    fn into_keeper(self) -> NetKeeper {
        let Database { db } = self;
        db.into_keeper()
    }

    /// The switches.
    fn switches(&self, alloc: Global) -> Result<String, Fail> {
        match self.db.rows_of("Switch") {
            Some(rows) => text_of_rows(alloc, rows),
            None => Ok(String::new(alloc)),
        }
    }
}

impl Scripted for Database {
    fn answer(&mut self, alloc: Global, command: &str) -> Result<String, Fail> {
        match command {
            "nothing" => self.commit_nothing(alloc),
            "rows" => self.switches(alloc),
            "sealed" => fact_text(alloc, self.db.sealed()),
            "failures" => number_text(alloc, self.db.failures()),
            _ => self.act(alloc, command),
        }
    }
}

/// Runs a script over a new database whose keeper has these faults, and returns the keeper.
fn followed(alloc: Global, faults: Faults, script: &str) -> Result<NetKeeper, Fail> {
    let mut database = opened(alloc, net_keeper(alloc, faults)?)?;
    follows(alloc, &mut database, script)?;
    Ok(database.into_keeper())
}

/// The same; then runs another script over what the keeper holds afterwards.
fn commits(alloc: Global, faults: Faults, script: &str, again: &str) -> Result<(), Fail> {
    let keeper = followed(alloc, faults, script)?;
    agrees(alloc, opened(alloc, keeper)?, again)
}

/// All changes are made.
const CHANGED: &str = r#"put 2 s2 -> kept
put 1 s1 -> kept
put 3 s3 -> kept
put 2 s4 -> kept
remove 3 -> kept
remove 9 -> kept
sealed -> false
failures -> 0
rows -> 1 {"load":4,"main":["set",[]],"name":"s1","ports":["set",[]]};2 {"load":4,"main":["set",[]],"name":"s4","ports":["set",[]]};"#;

const TWO_ROWS: &str =
    r#"rows -> 1 {"load":4,"main":["set",[]],"name":"s1","ports":["set",[]]};2 {"load":4,"main":["set",[]],"name":"s4","ports":["set",[]]};"#;

const ONE_ROW: &str = r#"rows -> 1 {"load":4,"main":["set",[]],"name":"s1","ports":["set",[]]};"#;

#[test]
fn a_commit_makes_all_changes(rt: HostRuntime) -> Result<(), Fail> {
    commits(rt.alloc(), Faults::NONE, CHANGED, TWO_ROWS)
}

#[test]
fn a_row_is_found_by_its_key(rt: HostRuntime) -> Result<(), Fail> {
    let script = "put 1 s1 -> kept
row Switch 1 -> true
row Switch 2 -> false
row Port 1 -> false";
    commits(rt.alloc(), Faults::NONE, script, ONE_ROW)
}

/// After the device fails at a commit, the rows are as before it and nothing more is committed.
const FAILED: &str = r#"put 1 s1 -> kept
put 1 s9 -> failed
put 3 s3 -> failed
remove 1 -> failed
sealed -> true
failures -> 1
rows -> 1 {"load":4,"main":["set",[]],"name":"s1","ports":["set",[]]};"#;

#[test]
fn device_fails_at_commit(rt: HostRuntime) -> Result<(), Fail> {
    let faults = Faults {
        is_too_large: false,
        good: 1,
        bad: 1,
    };
    commits(rt.alloc(), faults, FAILED, ONE_ROW)
}

/// A commit without a change does not use the device, which would fail.
#[test]
fn nothing_to_commit(rt: HostRuntime) -> Result<(), Fail> {
    let faults = Faults {
        is_too_large: false,
        good: 0,
        bad: 1,
    };
    let script = "nothing -> kept
sealed -> false
failures -> 0
rows";
    commits(rt.alloc(), faults, script, "rows")
}

#[test]
fn a_commit_that_is_too_large_leaves_the_committed_rows(rt: HostRuntime) -> Result<(), Fail> {
    let faults = Faults {
        is_too_large: true,
        good: 0,
        bad: 0,
    };
    let script = r#"put 1 s2 -> exhausted
put 1 s1 -> kept
sealed -> false
failures -> 0
rows -> 1 {"load":4,"main":["set",[]],"name":"s1","ports":["set",[]]};"#;
    commits(rt.alloc(), faults, script, ONE_ROW)
}
