ghost use Rattle.std.specs.Prelude.{◌≡◌, false, IfOk};

use crate::trials::{Trial, found_in_files, found_in_memory};
use ov_base::Text;
use ov_files::{MemoryDisk, Store, Unopened, close_files, store_in_memory};
use ov_keeper::Keeper;
use sqlite::{Alter, Connection, FileStore, Files, Options};
use sqlite_disk::Disk;
use std::alloc::Global;
use std::test::Fail;
use test_basics::{Faults, Keeping, NET, agrees, failing, follows};

/// What making a store with this schema text returns.
pub(crate) fn create<S: Alter + Drop>(
    alloc: Global,
    connection: Connection<S>,
    schema: &str,
) -> Result<Result<Store<S>, Unopened<S>>, Fail> {
    if !connection.is_autocommit() {
        return Err(Fail::new("in a transaction"));
    }
    let schema = Text::from_str(alloc, schema)?;
    Ok(Store::create(connection, schema))
}

/// What opening a store returns.
pub(crate) fn open<S: Alter + Drop>(
    alloc: Global,
    connection: Connection<S>,
) -> Result<Result<Store<S>, Unopened<S>>, Fail> {
    if !connection.is_autocommit() {
        return Err(Fail::new("in a transaction"));
    }
    Ok(Store::open(alloc, connection))
}

/// The store. Fails if there is none.
fn taken<S: Alter + Drop>(made: Result<Store<S>, Unopened<S>>) -> Result<Store<S>, Fail> {
    Ok(made?)
}

/// A new store over a database that has none.
pub(crate) fn created<S: Alter + Drop>(
    alloc: Global,
    connection: Connection<S>,
) -> Result<Store<S>, Fail> {
    taken(create(alloc, connection, NET)?)
}

/// The store of a database that has one.
pub(crate) fn opened<S: Alter + Drop>(
    alloc: Global,
    connection: Connection<S>,
) -> Result<Store<S>, Fail> {
    taken(open(alloc, connection)?)
}

/// Rows that are put, put again with other cells, and removed.
pub(crate) const TWO_COMMITS: &str = r#"schema -> new
format -> 2
lines
put Switch 1 0 {"load":4,"name":"one"}
put Switch 2 0 {"name":"two"}
put Port 1 7 {"name":"port","tag":7}
commit -> made
put Switch 1 1 {"name":"one again","ports":["set",[]]}
remove Switch 2
remove Switch 3
commit -> made
lines -> Port 1 7 {"name":"port","tag":7};Switch 1 1 {"name":"one again","ports":["set",[]]};
failures -> 0"#;

/// What the next open finds.
pub(crate) const FOUND: &str = r#"format -> 2
lines -> Port 1 7 {"name":"port","tag":7};Switch 1 1 {"name":"one again","ports":["set",[]]};
commit -> made
remove Port 1
commit -> made
lines -> Switch 1 1 {"name":"one again","ports":["set",[]]};"#;

/// Rows and text that are replaced, and replaced again by none.
pub(crate) const TWO_REWRITES: &str = r#"put Switch 1 0 {"name":"one"}
put Port 1 7 {"name":"port"}
commit -> made
put Port 2 8 {"name":"other"}
put Port 2 9 {"tag":9}
remove Switch 3
rewrite newer -> made
schema -> newer
format -> 2
lines -> Port 2 9 {"tag":9};
put Switch 1 0 {"name":"one"}
commit -> made
rewrite newest -> made
schema -> newest
lines
failures -> 0"#;

/// Runs a script over a keeper and returns the keeper.
pub(crate) fn kept<K: Keeper + Drop>(alloc: Global, keeper: K, script: &str) -> Result<K, Fail> {
    let mut keeping = Keeping::new(alloc, keeper);
    follows(alloc, &mut keeping, script)?;
    Ok(keeping.into_keeper())
}

/// Runs a script over a store and returns its connection.
pub(crate) fn closed_after<S: Alter + Drop>(
    alloc: Global,
    store: Store<S>,
    script: &str,
) -> Result<Connection<S>, Fail>
    ensures { IfOk result (λ connection. connection.in_transaction ≡ false) }
{
    Ok(kept(alloc, store, script)?.close())
}

/// A script over the store of a database. Nothing is found beside its answers.
#[derive(Clone, Copy)]
struct Next<'a> {
    script: &'a str,
}

impl<'a> Trial for Next<'a> {
    fn found<S: Alter + Drop>(
        &self,
        alloc: Global,
        connection: Connection<S>,
    ) -> Result<String, Fail> {
        closed_after(alloc, opened(alloc, connection)?, self.script)?;
        Ok(String::new(alloc))
    }
}

/// Runs a script over a store in files and returns the store. It is generic over the files, since the proof that the store of
/// a kind of file is a keeper is longer.
pub(crate) fn kept_in_files<D: Disk + Drop>(
    alloc: Global,
    store: Store<FileStore<D>>,
    script: &str,
) -> Result<Store<FileStore<D>>, Fail> {
    kept(alloc, store, script)
}

/// Runs a script over a store in files, closes it, and makes a trial over what its file then holds, with this log.
fn found_with<D: Disk + Drop>(
    alloc: Global,
    store: Store<FileStore<D>>,
    log: D,
    script: &str,
    next: &Next<'_>,
) -> Result<String, Fail> {
    let Files { log: _, db } = close_files(kept_in_files(alloc, store, script)?)?;
    let files = Files { log, db };
    if !files.may_be_used() {
        return Err(Fail::new("not usable"));
    }
    match Connection::open_files(alloc, files, Options::new(2)) {
        Ok(again) => found_in_files(alloc, again, next),
        Err(_) => Err(Fail::new("not opened again")),
    }
}

/// The same for a new database in memory, and no log.
fn found_after_a_close(alloc: Global, script: &str, next: &str) -> Result<(), Fail> {
    let store = store_in_memory(alloc, Text::from_str(alloc, "new")?)?;
    let next = Next { script: next };
    found_with(alloc, store, MemoryDisk::new(alloc), script, &next)?;
    Ok(())
}

#[test]
fn a_commit_is_found_after_a_close(rt: HostRuntime) -> Result<(), Fail> {
    found_after_a_close(rt.alloc(), TWO_COMMITS, FOUND)
}

#[test]
fn a_rewrite_is_found_after_a_close(rt: HostRuntime) -> Result<(), Fail> {
    found_after_a_close(rt.alloc(), TWO_REWRITES, "schema -> newest\nlines")
}

/// Runs a script over a keeper with these faults, over another.
fn kept_by_failing<K: Keeper + Drop>(
    alloc: Global,
    keeper: K,
    faults: Faults,
    script: &str,
) -> Result<(), Fail> {
    agrees(alloc, Keeping::new(alloc, failing(keeper, faults)), script)
}

/// The same over a new store. Nothing is found beside the answers.
#[derive(Clone, Copy)]
struct Faulty<'a> {
    faults: Faults,
    script: &'a str,
}

impl<'a> Trial for Faulty<'a> {
    fn found<S: Alter + Drop>(
        &self,
        alloc: Global,
        connection: Connection<S>,
    ) -> Result<String, Fail> {
        let store = created(alloc, connection)?;
        kept_by_failing(alloc, store, self.faults, self.script)?;
        Ok(String::new(alloc))
    }
}

/// The same over a new database in memory.
fn kept_in_memory(alloc: Global, faults: Faults, script: &str) -> Result<(), Fail> {
    found_in_memory(alloc, &Faulty { faults, script })?;
    Ok(())
}

#[test]
fn a_device_that_fails_leaves_the_former_rows(rt: HostRuntime) -> Result<(), Fail> {
    let script = r#"put Switch 1 0 {"name":"one"}
commit -> made
put Switch 1 0 {"load":2}
commit -> the device failed
failures -> 1
lines -> Switch 1 0 {"name":"one"};
commit -> made
lines -> Switch 1 0 {"load":2};"#;
    let faults = Faults {
        is_too_large: false,
        good: 1,
        bad: 1,
    };
    kept_in_memory(rt.alloc(), faults, script)
}

#[test]
fn rows_of_long_names_are_put_and_removed(rt: HostRuntime) -> Result<(), Fail> {
    let script = r#"put Logical_Switch_Port_Group_Address 1 0 {"name":"one"}
put Logical_Switch_Port_Group_Address 2 0 {"bidirectional_forwarding_detection_status_map":7}
commit -> made
remove Logical_Switch_Port_Group_Address 1
commit -> made
lines -> Logical_Switch_Port_Group_Address 2 0 {"bidirectional_forwarding_detection_status_map":7};
remove Logical_Switch_Port_Group_Address 2
commit -> made
failures -> 0
lines"#;
    kept_in_memory(rt.alloc(), Faults::NONE, script)
}

#[test]
fn changes_that_are_too_large_are_not_made(rt: HostRuntime) -> Result<(), Fail> {
    let script = r#"put Switch 1 0 {"name":"one"}
commit -> too large to be stored
failures -> 0
lines
commit -> made
lines -> Switch 1 0 {"name":"one"};"#;
    let faults = Faults {
        is_too_large: true,
        good: 9,
        bad: 1,
    };
    kept_in_memory(rt.alloc(), faults, script)
}

/// A row without cells, one whose cells are put in several changes of a commit, and cells of the same column in rows of the
/// same identifier and of the same table.
const CELLS: &str = r#"put Switch 1 0 {}
put Switch 2 0 {"name":"two"}
put Switch 2 1 {"load":2}
put Switch 3 0 {"load":3,"name":"three"}
put Port 3 0 {"load":4,"name":"port"}
commit -> made
lines -> Port 3 0 {"load":4,"name":"port"};Switch 1 0 {};Switch 2 1 {"load":2};Switch 3 0 {"load":3,"name":"three"};
put Switch 1 2 {"name":"one"}
put Switch 3 2 {}
remove Switch 2
put Switch 2 3 {"main":5}
commit -> made
lines -> Port 3 0 {"load":4,"name":"port"};Switch 1 2 {"name":"one"};Switch 2 3 {"main":5};Switch 3 2 {};
remove Port 3
commit -> made
lines -> Switch 1 2 {"name":"one"};Switch 2 3 {"main":5};Switch 3 2 {};"#;

#[test]
fn a_row_has_the_cells_that_were_put_last(rt: HostRuntime) -> Result<(), Fail> {
    kept_in_memory(rt.alloc(), Faults::NONE, CELLS)
}
