//! Stores over files of the system, in their own folder below the one that the tests run in.

use crate::stores::{FOUND, TWO_COMMITS, kept_in_files};
use ov_base::Text;
use ov_files::{close_in_file, store_in_file};
use ov_keeper::KeepFault;
use sqlite::{Alter, Connection, FileStore, Unknown};
use sqlite_disk::Disk;
use std::fs;
use std::test::Fail;
use test_basics::{holds, is_text, whole_file};

const FOLDER: &str = "test_storage_files";

const PATH: &str = "test_storage_files/net.db";

const LOG: &str = "test_storage_files/net.db-wal";

/// Makes the folder again, empty.
fn clear(rt: &HostRuntime) -> Result<(), Fail> {
    let _ = fs::remove_dir_all(rt, FOLDER);
    fs::create_dir(rt, FOLDER)?;
    Ok(())
}

/// Runs a script over the store of the file, and closes it.
fn served(rt: &HostRuntime, script: &str) -> Result<(), Fail> {
    let text = Text::from_str(rt.alloc(), "new")?;
    let store = store_in_file(rt, PATH, text, Unknown)?;
    let store = kept_in_files(rt.alloc(), store, script)?;
    Ok(close_in_file(rt, PATH, store)?)
}

/// Why the file has no store, if it has none. A store is closed: the drop of one in files takes long to prove.
fn refused(rt: &HostRuntime) -> Result<Option<KeepFault>, Fail> {
    let text = Text::from_str(rt.alloc(), "new")?;
    match store_in_file(rt, PATH, text, Unknown) {
        Ok(store) => {
            close_in_file(rt, PATH, store)?;
            Ok(None)
        }
        Err(fault) => Ok(Some(fault)),
    }
}

/// Fails unless the file has no store because it is not ours.
fn is_not_ours(rt: &HostRuntime) -> Result<(), Fail> {
    let found = format!(in rt.alloc(); "{:?}", refused(rt)?)?;
    is_text(rt.alloc(), found.as_str(), "Some(NotOurs)")
}

/// Fails if there is a log.
fn has_no_log(rt: &HostRuntime) -> Result<(), Fail> {
    holds(
        rt.alloc(),
        fs::metadata(rt, LOG).is_err(),
        "there is no log",
    )
}

#[test]
fn a_closed_file_has_all(rt: HostRuntime) -> Result<(), Fail> {
    clear(&rt)?;
    served(&rt, TWO_COMMITS)?;
    has_no_log(&rt)?;
    served(&rt, FOUND)?;
    has_no_log(&rt)?;
    let _ = fs::remove_dir_all(&rt, FOLDER);
    Ok(())
}

/// Runs statements over a connection, and returns it.
fn executed<S: Alter + Drop>(
    connection: Connection<S>,
    statements: &str,
) -> Result<Connection<S>, Fail> {
    let mut connection = connection;
    connection.execute_batch(statements)?;
    Ok(connection)
}

/// Runs statements over a connection to files, and closes it. It is generic over the files, like `kept_in_files`, and drops
/// no connection itself.
fn execute<D: Disk + Drop>(
    connection: Connection<FileStore<D>>,
    statements: &str,
) -> Result<(), Fail> {
    Ok(executed(connection, statements)?.close()?)
}

/// Makes a file by these statements, as SQLite leaves it without a log.
fn make(rt: &HostRuntime, statements: &str) -> Result<(), Fail> {
    execute(Connection::open(rt, PATH)?, statements)?;
    Ok(fs::remove_file(rt, LOG)?)
}

/// What an open finds in the file of format 1, and a rewrite of it.
const FIRST: &str = r#"format -> 1
schema -> old
lines -> Port 1 7 port;Switch 1 0 {"name": "one"};
put Switch 1 1 {"load":1,"name":"one"}
put Port 1 8 {"tag":8}
rewrite newer -> made
format -> 2
lines -> Port 1 8 {"tag":8};Switch 1 1 {"load":1,"name":"one"};
failures -> 0"#;

/// What the next open finds.
const SECOND: &str = r#"format -> 2
schema -> newer
lines -> Port 1 8 {"tag":8};Switch 1 1 {"load":1,"name":"one"};
put Switch 1 2 {"load":2}
commit -> made"#;

/// What the last open finds.
const THIRD: &str = r#"format -> 2
lines -> Port 1 8 {"tag":8};Switch 1 2 {"load":2};"#;

#[test]
fn a_file_of_format_1_is_rewritten(rt: HostRuntime) -> Result<(), Fail> {
    clear(&rt)?;
    let lines = "Port 1 7 port\nSwitch 1 0 {\"name\": \"one\"}";
    make(&rt, whole_file(rt.alloc(), "old", lines)?.as_str())?;
    served(&rt, FIRST)?;
    has_no_log(&rt)?;
    served(&rt, SECOND)?;
    served(&rt, THIRD)?;
    let _ = fs::remove_dir_all(&rt, FOLDER);
    Ok(())
}

/// Flips bits of a byte of the file, and returns the file's new bytes.
fn turned(rt: &HostRuntime, at: usize, by: u8) -> Result<Vec<u8>, Fail> {
    let mut bytes = fs::read(rt, PATH)?;
    if at < bytes.len() {
        bytes[at] ^= by;
    }
    fs::write(rt, PATH, bytes.as_slice())?;
    Ok(bytes)
}

/// Whether the file has these bytes.
fn has_bytes(rt: &HostRuntime, bytes: &[u8]) -> Result<bool, Fail> {
    Ok(fs::read(rt, PATH)?.as_slice() == bytes)
}

/// Fails unless the file is refused and left with these bytes and without a log.
fn is_left(rt: &HostRuntime, bytes: &[u8]) -> Result<(), Fail> {
    is_not_ours(rt)?;
    holds(rt.alloc(), has_bytes(rt, bytes)?, "the file is as before")?;
    has_no_log(rt)
}

/// The same after bits of a byte of the file are flipped.
fn is_left_turned(rt: &HostRuntime, at: usize) -> Result<(), Fail> {
    let bytes = turned(rt, at, 3)?;
    is_left(rt, &bytes)
}

#[test]
fn a_foreign_file_is_left_as_it_is(rt: HostRuntime) -> Result<(), Fail> {
    clear(&rt)?;
    make(&rt, "CREATE TABLE other(a);")?;
    // The two bytes that name the mode: with a log, and without.
    is_left_turned(&rt, 18)?;
    is_left_turned(&rt, 19)?;
    let _ = fs::remove_dir_all(&rt, FOLDER);
    Ok(())
}

/// Fails unless the file is refused while a bit of a byte is flipped; flips it back.
fn is_found_turned(rt: &HostRuntime, at: usize) -> Result<(), Fail> {
    turned(rt, at, 1)?;
    is_not_ours(rt)?;
    turned(rt, at, 1)?;
    Ok(())
}

#[test]
fn a_turned_bit_is_found(rt: HostRuntime) -> Result<(), Fail> {
    clear(&rt)?;
    served(&rt, TWO_COMMITS)?;
    is_found_turned(&rt, 200)?;
    is_found_turned(&rt, 5000)?;
    is_found_turned(&rt, 9000)?;
    served(&rt, FOUND)?;
    let _ = fs::remove_dir_all(&rt, FOLDER);
    Ok(())
}
