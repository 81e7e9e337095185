use crate::stores::{create, open};
use ov_files::{Store, Unopened, reopen_after_crash};
use ov_keeper::Keeper;
use sqlite::{Alter, Connection, Files, Options};
use sqlite_disk::{Crash, Fuse, Memory};
use sqlite_trees::store::Reopen;
use std::alloc::Global;
use std::test::Fail;
use test_basics::{Keeping, NET, Scripted, whole_file};

/// Two commits of several changes each, and a rewrite.
const SCRIPT: &str = r#"put Switch 1 0 {"name":"one"}
put Switch 2 0 {"load":2,"name":"two"}
commit
remove Switch 1
put Switch 2 1 {"main":2}
put Port 1 1 {"name":"port"}
commit
put Switch 3 0 {"name":"three"}
put Port 1 2 {"tag":2}
rewrite newer"#;

/// What may be found before all is made: the number of commits and rewrites made, then the rows of exactly these, or of the one
/// that failed too, and the text of the schema if it is the newer one. After a refused create there is nothing, or the whole
/// new store.
const ALLOWED: &str = r#"no database
refused: nothing
refused: a store
made 0 of 2:
made 0 of 2:Switch 1 0 {"name":"one"};Switch 2 0 {"load":2,"name":"two"};
made 1 of 2:Switch 1 0 {"name":"one"};Switch 2 0 {"load":2,"name":"two"};
made 1 of 2:Port 1 1 {"name":"port"};Switch 2 1 {"main":2};
made 2 of 2:Port 1 1 {"name":"port"};Switch 2 1 {"main":2};
made 2 of 2:Port 1 2 {"tag":2};Switch 3 0 {"name":"three"}; newer"#;

/// A rewrite of a store of format 1, and a commit.
const OLD_SCRIPT: &str = r#"put Switch 1 1 {"load":1,"name":"one"}
put Switch 3 0 {"name":"three"}
rewrite newer
remove Switch 3
put Switch 1 2 {"name":"one"}
commit"#;

/// The lines of the store of format 1.
const OLD_LINES: &str = "Port 1 7 port\nSwitch 1 0 {}";

/// What may be found in the store of format 1 before all is made: its lines as they were; or all that the rewrite puts, in
/// format 2; or that with all of the commit. A file may also fail before there is such a store.
const OLD_ALLOWED: &str = r#"no database
not prepared
refused: lines
made 0 of 1:Port 1 7 port;Switch 1 0 {};
made 0 of 2:Switch 1 1 {"load":1,"name":"one"};Switch 3 0 {"name":"three"}; newer
made 1 of 2:Switch 1 1 {"load":1,"name":"one"};Switch 3 0 {"name":"three"}; newer
made 1 of 2:Switch 1 2 {"name":"one"}; newer"#;

/// Whether what was refused holds rows.
fn found_in_refused<K: Keeper + Drop>(alloc: Global, keeper: K) -> Result<&'static str, Fail> {
    let lines = Keeping::new(alloc, keeper).answer(alloc, "lines")?;
    if lines.as_str().is_empty() {
        Ok("refused: a store")
    } else {
        Ok("refused: lines")
    }
}

/// What a database has that is not a store.
fn found_beside<S: Alter + Drop>(connection: &Connection<S>) -> &'static str {
    if connection.schema().tables.is_empty() {
        "refused: nothing"
    } else {
        "refused: a part"
    }
}

/// What is found in a reopened database on which no store was made.
fn found_again<S: Alter + Drop>(alloc: Global, again: Connection<S>) -> Result<&'static str, Fail> {
    match open(alloc, again)? {
        Ok(store) => found_in_refused(alloc, store),
        Err(refused) => Ok(found_beside(&refused.connection)),
    }
}

/// What is found after a crash of a connection on which no store was made.
fn found_of_refused<S: Alter + Reopen + Drop>(
    alloc: Global,
    connection: Connection<S>,
) -> Result<&'static str, Fail> {
    let mut left = connection.into_store();
    if left.crash_and_reopen().is_err() {
        return Ok("refused: not opened again");
    }
    match Connection::over(alloc, left) {
        Ok(again) => found_again(alloc, again),
        Err(_) => Ok("refused: no database"),
    }
}

/// The same, as a text.
fn text_of_refused<S: Alter + Reopen + Drop>(
    alloc: Global,
    connection: Connection<S>,
) -> Result<String, Fail> {
    let found = found_of_refused(alloc, connection)?;
    Ok(String::from_str(alloc, found)?)
}

/// The number of commits and rewrites of a script that are made before the first that is not.
fn number_made<S: Scripted>(alloc: Global, keeping: &mut S, script: &str) -> Result<u64, Fail> {
    let mut made: u64 = 0;
    for line in script.lines() {
        let answer = keeping.answer(alloc, line)?;
        if answer.as_str() == "made" {
            made = made.saturating_add(1);
        } else if !answer.as_str().is_empty() {
            return Ok(made);
        }
    }
    Ok(made)
}

/// That number over a keeper, which is returned too.
fn made_by<K: Keeper + Drop>(alloc: Global, keeper: K, script: &str) -> Result<(u64, K), Fail> {
    let mut keeping = Keeping::new(alloc, keeper);
    let made = number_made(alloc, &mut keeping, script)?;
    Ok((made, keeping.into_keeper()))
}

/// Adds the answer to a command.
fn push_answer<S: Scripted>(
    alloc: Global,
    text: &mut String,
    keeping: &mut S,
    command: &str,
) -> Result<(), Fail> {
    let answer = keeping.answer(alloc, command)?;
    Ok(text.push_str(answer.as_str())?)
}

/// Whether the text of the schema is the newer one.
fn is_newer<S: Scripted>(alloc: Global, keeping: &mut S) -> Result<bool, Fail> {
    let schema = keeping.answer(alloc, "schema")?;
    Ok(schema.as_str() == "newer")
}

/// Adds what a store holds: its format, its rows, and whether the text of its schema is the newer one.
fn push_found<S: Scripted>(alloc: Global, text: &mut String, keeping: &mut S) -> Result<(), Fail> {
    push_answer(alloc, text, keeping, "format")?;
    text.push_str(":")?;
    push_answer(alloc, text, keeping, "lines")?;
    if is_newer(alloc, keeping)? {
        text.push_str(" newer")?;
    }
    Ok(())
}

/// What is found after `made` commits and rewrites.
fn found_by<K: Keeper + Drop>(alloc: Global, made: u64, keeper: K) -> Result<String, Fail> {
    let mut text = format!(in alloc; "made {made} of ")?;
    push_found(alloc, &mut text, &mut Keeping::new(alloc, keeper))?;
    Ok(text)
}

/// The same in what was opened again, if that is a store.
fn found_in_store<S: Alter + Drop>(
    alloc: Global,
    made: u64,
    again: Result<Store<S>, Unopened<S>>,
) -> Result<String, Fail> {
    match again {
        Ok(again) => found_by(alloc, made, again),
        Err(_) => Ok(String::from_str(alloc, "opened again, and no store")?),
    }
}

/// What is found after `made` commits and rewrites, and a crash.
fn found_after<S: Alter + Reopen + Drop>(
    alloc: Global,
    made: u64,
    store: Store<S>,
) -> Result<String, Fail> {
    match reopen_after_crash(alloc, store) {
        Ok(again) => found_in_store(alloc, made, again),
        Err(_) => Ok(String::from_str(alloc, "not opened again")?),
    }
}

/// What is found after a script and a crash.
fn found_of_made<S: Alter + Reopen + Drop>(
    alloc: Global,
    store: Store<S>,
    script: &str,
) -> Result<String, Fail> {
    let (made, store) = made_by(alloc, store, script)?;
    found_after(alloc, made, store)
}

/// Runs the script over a store, if there is one, until a commit or the rewrite fails, and returns what is found after a crash.
fn found_of<S: Alter + Reopen + Drop>(
    alloc: Global,
    store: Result<Store<S>, Unopened<S>>,
    script: &str,
) -> Result<String, Fail> {
    match store {
        Ok(store) => found_of_made(alloc, store, script),
        Err(refused) => text_of_refused(alloc, refused.connection),
    }
}

/// The same for a new store, and its script.
fn found<S: Alter + Reopen + Drop>(
    alloc: Global,
    connection: Connection<S>,
) -> Result<String, Fail> {
    found_of(alloc, create(alloc, connection, NET)?, SCRIPT)
}

/// The statements that make a store of format 1, in one transaction.
fn old_statements(alloc: Global) -> Result<String, Fail> {
    let statements = whole_file(alloc, NET, OLD_LINES)?;
    Ok(format!(in alloc; "BEGIN;{statements}COMMIT;")?)
}

/// Makes a store of format 1, and returns whether it is made.
fn is_prepared<S: Alter + Drop>(
    alloc: Global,
    connection: &mut Connection<S>,
) -> Result<bool, Fail> {
    let statements = old_statements(alloc)?;
    Ok(connection.execute_batch(statements.as_str()).is_ok())
}

/// The same for a store of format 1 that is made first, and its script.
fn found_in_old<S: Alter + Reopen + Drop>(
    alloc: Global,
    connection: Connection<S>,
) -> Result<String, Fail> {
    let mut connection = connection;
    if !is_prepared(alloc, &mut connection)? {
        return Ok(String::from_str(alloc, "not prepared")?);
    }
    found_of(alloc, open(alloc, connection)?, OLD_SCRIPT)
}

/// What is found over a connection, from the making of a store on.
fn found_from<S: Alter + Reopen + Drop>(
    alloc: Global,
    connection: Connection<S>,
    is_old: bool,
) -> Result<String, Fail> {
    if is_old {
        return found_in_old(alloc, connection);
    }
    found(alloc, connection)
}

/// The same over two files. It is generic over them, since the proof for a kind of file is longer.
fn found_in_files<D: Crash + Drop>(
    alloc: Global,
    files: Files<D>,
    is_old: bool,
) -> Result<String, Fail> {
    if !files.may_be_used() {
        return Err(Fail::new("not usable"));
    }
    match Connection::open_files(alloc, files, Options::new(3)) {
        Ok(connection) => found_from(alloc, connection, is_old),
        Err(_) => Ok(String::from_str(alloc, "no database")?),
    }
}

/// The same over two files in memory, each of which fails after a number of calls.
fn found_over_fuses(
    alloc: Global,
    is_old: bool,
    log_calls: u64,
    file_calls: u64,
) -> Result<String, Fail> {
    let files = Files {
        log: Fuse::new(Memory::new(alloc), log_calls),
        db: Fuse::new(Memory::new(alloc), file_calls),
    };
    found_in_files(alloc, files, is_old)
}

/// Whether this may be found.
fn is_allowed(found: &str, is_old: bool) -> bool {
    for line in (if is_old { OLD_ALLOWED } else { ALLOWED }).lines() {
        if line == found {
            return true;
        }
    }
    false
}

/// What is found if the log, or else the file, fails after this number of calls.
fn found_over_fuse(alloc: Global, is_old: bool, is_log: bool, calls: u64) -> Result<String, Fail> {
    if is_log {
        found_over_fuses(alloc, is_old, calls, u64::MAX)
    } else {
        found_over_fuses(alloc, is_old, u64::MAX, calls)
    }
}

/// Whether all is found that the script makes. Fails unless that or something else that is allowed is found.
fn leaves_all(
    alloc: Global,
    is_old: bool,
    is_log: bool,
    calls: u64,
    whole: &str,
) -> Result<bool, Fail> {
    let found = found_over_fuse(alloc, is_old, is_log, calls)?;
    if found.as_str() == whole {
        return Ok(true);
    }
    if is_allowed(found.as_str(), is_old) {
        return Ok(false);
    }
    Err(Fail::new(format!(in alloc; "{calls} {found}")?))
}

/// The largest number of runs over one file.
const RUNS: u64 = 400;

/// Fails unless what is found is allowed when the log, or else the file, fails after each number of calls in turn, up to the
/// first after which the whole script is made.
fn leave_no_part(alloc: Global, is_old: bool, is_log: bool, whole: &str) -> Result<(), Fail> {
    for calls in 0..RUNS {
        if leaves_all(alloc, is_old, is_log, calls, whole)? {
            return Ok(());
        }
    }
    Err(Fail::new("each run fails"))
}

/// What is found if nothing fails.
const WHOLE: &str = r#"made 3 of 2:Port 1 2 {"tag":2};Switch 3 0 {"name":"three"}; newer"#;

#[test]
fn a_crash_leaves_no_part_of_a_commit(rt: HostRuntime) -> Result<(), Fail> {
    leave_no_part(rt.alloc(), false, true, WHOLE)?;
    leave_no_part(rt.alloc(), false, false, WHOLE)
}

/// The same for the store of format 1.
const OLD_WHOLE: &str = r#"made 2 of 2:Switch 1 2 {"name":"one"}; newer"#;

#[test]
fn a_crash_leaves_no_part_of_a_rewrite_of_format_1(rt: HostRuntime) -> Result<(), Fail> {
    leave_no_part(rt.alloc(), true, true, OLD_WHOLE)?;
    leave_no_part(rt.alloc(), true, false, OLD_WHOLE)
}
