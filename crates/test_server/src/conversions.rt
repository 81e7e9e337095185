//! Machines that are opened with a newer schema than the stored one, or over an older stored format.

use crate::made::made;
use crate::runs::replies_of;
use crate::stops::{Before, Case, fails_once, stops};
use ov_core::Core;
use ov_db::OpenFault;
use ov_keeper::Keeper;
use std::alloc::{AllocError, Global};
use std::test::Fail;
use test_basics::{
    Counter, Keeping, NET, Scripted, is_text, keeper_of, schema_of_text, whole_keeper_of,
};

/// The schema Net in version 1.1.0, whose switches have a note.
pub(crate) const NOTES: &str =
    r#"{"name":"Net","tables":{"Port":{"columns":{"name":{"type":"string"},"peer":{"type":{"key":{"refTable":"Port","type":"uuid"},"max":1,"min":0}},"tag":{"type":{"key":{"maxInteger":4095,"minInteger":0,"type":"integer"},"max":1,"min":0}}}},"Switch":{"columns":{"load":{"type":"integer"},"main":{"type":{"key":{"refTable":"Port","refType":"weak","type":"uuid"},"max":1,"min":0}},"name":{"type":"string"},"note":{"type":"string"},"ports":{"type":{"key":{"refTable":"Port","type":"uuid"},"max":"unlimited","min":0}}},"indexes":[["name"]],"isRoot":true}},"version":"1.1.0"}"#;

/// The same in a version before the stored one.
const OLDER: &str =
    r#"{"name":"Net","tables":{"Port":{"columns":{"name":{"type":"string"},"peer":{"type":{"key":{"refTable":"Port","type":"uuid"},"max":1,"min":0}},"tag":{"type":{"key":{"maxInteger":4095,"minInteger":0,"type":"integer"},"max":1,"min":0}}}},"Switch":{"columns":{"load":{"type":"integer"},"main":{"type":{"key":{"refTable":"Port","refType":"weak","type":"uuid"},"max":1,"min":0}},"name":{"type":"string"},"note":{"type":"string"},"ports":{"type":{"key":{"refTable":"Port","type":"uuid"},"max":"unlimited","min":0}}},"indexes":[["name"]],"isRoot":true}},"version":"0.9.0"}"#;

/// Net in version 1.1.0, whose load is a text.
const TEXTS: &str =
    r#"{"name":"Net","tables":{"Port":{"columns":{"name":{"type":"string"},"peer":{"type":{"key":{"refTable":"Port","type":"uuid"},"max":1,"min":0}},"tag":{"type":{"key":{"maxInteger":4095,"minInteger":0,"type":"integer"},"max":1,"min":0}}}},"Switch":{"columns":{"load":{"type":"string"},"main":{"type":{"key":{"refTable":"Port","refType":"weak","type":"uuid"},"max":1,"min":0}},"name":{"type":"string"},"ports":{"type":{"key":{"refTable":"Port","type":"uuid"},"max":"unlimited","min":0}}},"indexes":[["name"]],"isRoot":true}},"version":"1.1.0"}"#;

/// Net in version 1.1.0, in which no two switches have the same load.
const LOADS: &str =
    r#"{"name":"Net","tables":{"Port":{"columns":{"name":{"type":"string"},"peer":{"type":{"key":{"refTable":"Port","type":"uuid"},"max":1,"min":0}},"tag":{"type":{"key":{"maxInteger":4095,"minInteger":0,"type":"integer"},"max":1,"min":0}}}},"Switch":{"columns":{"load":{"type":"integer"},"main":{"type":{"key":{"refTable":"Port","refType":"weak","type":"uuid"},"max":1,"min":0}},"name":{"type":"string"},"ports":{"type":{"key":{"refTable":"Port","type":"uuid"},"max":"unlimited","min":0}}},"indexes":[["name"],["load"]],"isRoot":true}},"version":"1.1.0"}"#;

/// A switch.
pub(crate) const ONE: &str =
    r#"Switch 2 1 {"load":0,"main":["set",[]],"name":"s1","ports":["set",[]]}"#;

/// Two switches with the same load.
const TWO: &str = r#"Switch 2 1 {"load":0,"main":["set",[]],"name":"s1","ports":["set",[]]}
Switch 4 3 {"load":0,"main":["set",[]],"name":"s2","ports":["set",[]]}"#;

/// Both, as the rows of a keeper are told.
const TWO_ROWS: &str =
    r#"Switch 2 1 {"load":0,"main":["set",[]],"name":"s1","ports":["set",[]]};Switch 4 3 {"load":0,"main":["set",[]],"name":"s2","ports":["set",[]]}"#;

/// The reply of a machine over this keeper and under this schema to a message, or why the machine can't be opened. The next
/// identifier that it draws is the hundredth.
fn reply_over<K: Keeper + Drop>(
    alloc: Global,
    keeper: K,
    schema: &str,
    message: &str,
) -> Result<String, Fail> {
    let schema = schema_of_text(alloc, schema)?;
    match Core::open(alloc, keeper, schema, Counter::after(99)) {
        Ok(mut core) => replies_of(alloc, &mut core, message),
        Err(refused) => made(fault_text(alloc, refused.fault)),
    }
}

/// The sentence of a fault.
fn fault_text(alloc: Global, fault: OpenFault) -> Result<String, AllocError> {
    format!(in alloc; "{fault}")
}

/// Fails unless a machine over this keeper gives the wanted reply. A case is the stored lines, the schema that the machine is
/// opened with, a message, and the wanted reply or refusal.
fn is_reply<K: Keeper + Drop>(alloc: Global, keeper: K, case: [&str; 4]) -> Result<(), Fail> {
    let [_, schema, message, wanted] = case;
    let found = reply_over(alloc, keeper, schema, message)?;
    is_text(alloc, found.as_str(), wanted)
}

/// The same for keepers of both formats that hold the lines of the case, of Net.
fn replies(alloc: Global, case: [&str; 4]) -> Result<(), Fail> {
    let [lines, _, _, _] = case;
    is_reply(alloc, keeper_of(alloc, NET, lines)?, case)?;
    is_reply(alloc, whole_keeper_of(alloc, NET, lines)?, case)
}

/// What a keeper holds after such an opening: the format, its rows, and the text of its schema.
fn stored_after<K: Keeper + Drop>(alloc: Global, keeper: K, schema: &str) -> Result<String, Fail> {
    let schema = schema_of_text(alloc, schema)?;
    let keeper = match Core::open(alloc, keeper, schema, Counter::after(99)) {
        Ok(core) => core.into_keeper(),
        Err(refused) => refused.keeper,
    };
    told(alloc, &mut Keeping::new(alloc, keeper))
}

/// Adds the answer to a command.
fn push_answer<S: Scripted>(
    alloc: Global,
    text: &mut String,
    keeping: &mut S,
    command: &str,
) -> Result<(), Fail> {
    let answer = keeping.answer(alloc, command)?;
    Ok(text.push_str(answer.as_str())?)
}

/// The format of a keeper, its rows, and the text of its schema.
fn told<S: Scripted>(alloc: Global, keeping: &mut S) -> Result<String, Fail> {
    let mut text = String::new(alloc);
    push_answer(alloc, &mut text, keeping, "format")?;
    text.push_str(": ")?;
    push_answer(alloc, &mut text, keeping, "lines")?;
    push_answer(alloc, &mut text, keeping, "schema")?;
    Ok(text)
}

/// The same after an opening with this schema, for a keeper that held these lines of Net: in format 1 if `is_whole`, otherwise
/// in format 2.
fn stored(alloc: Global, is_whole: bool, lines: &str, schema: &str) -> Result<String, Fail> {
    if is_whole {
        stored_after(alloc, whole_keeper_of(alloc, NET, lines)?, schema)
    } else {
        stored_after(alloc, keeper_of(alloc, NET, lines)?, schema)
    }
}

/// Fails unless a keeper that held one switch holds this after such an opening.
fn is_stored(
    alloc: Global,
    is_whole: bool,
    schema: &str,
    wanted: Result<String, AllocError>,
) -> Result<(), Fail> {
    let wanted = made(wanted)?;
    let found = stored(alloc, is_whole, ONE, schema)?;
    is_text(alloc, found.as_str(), wanted.as_str())
}

/// Selects all columns of all switches.
pub(crate) const SELECT: &str =
    r#"{"id":1,"method":"transact","params":["Net",{"op":"select","table":"Switch","where":[]}]}"#;

/// The switch with a note, in the version of the conversion.
pub(crate) const NOTED: &str =
    r#"{"error":null,"id":1,"result":[{"rows":[{"_uuid":["uuid","00000000-0000-0000-0000-000000000002"],"_version":["uuid","00000000-0000-4000-8000-000000000064"],"load":0,"main":["set",[]],"name":"s1","note":"","ports":["set",[]]}]}]}
"#;

/// The switch as it was, in its own version.
pub(crate) const SAME: &str =
    r#"{"error":null,"id":1,"result":[{"rows":[{"_uuid":["uuid","00000000-0000-0000-0000-000000000002"],"_version":["uuid","00000000-0000-0000-0000-000000000001"],"load":0,"main":["set",[]],"name":"s1","ports":["set",[]]}]}]}
"#;

/// The row of the switch with a note.
const NOTED_LINE: &str =
    r#"Switch 2 302240678275694148452452 {"load":0,"main":["set",[]],"name":"s1","note":"","ports":["set",[]]};"#;

#[test]
fn a_newer_schema_converts_the_rows(rt: HostRuntime) -> Result<(), Fail> {
    replies(rt.alloc(), [ONE, NOTES, SELECT, NOTED])
}

#[test]
fn a_converted_database_is_stored(rt: HostRuntime) -> Result<(), Fail> {
    for is_whole in [false, true] {
        let wanted = format!(in rt.alloc(); "2: {NOTED_LINE}{NOTES}");
        is_stored(rt.alloc(), is_whole, NOTES, wanted)?;
    }
    Ok(())
}

/// The rows keep their versions.
#[test]
fn the_same_schema_stores_format_2(rt: HostRuntime) -> Result<(), Fail> {
    for is_whole in [false, true] {
        let wanted = format!(in rt.alloc(); "2: {ONE};{NET}");
        is_stored(rt.alloc(), is_whole, NET, wanted)?;
    }
    Ok(())
}

#[test]
fn the_same_schema_leaves_the_versions_of_rows(rt: HostRuntime) -> Result<(), Fail> {
    replies(rt.alloc(), [ONE, NET, SELECT, SAME])
}

#[test]
fn an_older_schema_is_refused(rt: HostRuntime) -> Result<(), Fail> {
    replies(
        rt.alloc(),
        [ONE, OLDER, SELECT, "the stored schema is another one"],
    )
}

#[test]
fn another_type_of_a_column_is_refused(rt: HostRuntime) -> Result<(), Fail> {
    replies(
        rt.alloc(),
        [
            ONE,
            TEXTS,
            SELECT,
            "a column has another type in the new schema",
        ],
    )
}

#[test]
fn rows_that_do_not_fit_the_newer_schema_are_refused(rt: HostRuntime) -> Result<(), Fail> {
    replies(
        rt.alloc(),
        [
            TWO,
            LOADS,
            SELECT,
            "the stored rows do not fit the new schema",
        ],
    )
}

/// Fails unless a keeper that held these lines of Net holds the same rows after an opening with this schema, in the same format:
/// in format 1 if `is_whole`, otherwise in format 2.
fn is_left(
    alloc: Global,
    is_whole: bool,
    lines: &str,
    rows: &str,
    schema: &str,
) -> Result<(), Fail> {
    let number = if is_whole { "1" } else { "2" };
    let wanted = format!(in alloc; "{number}: {rows};{NET}")?;
    let found = stored(alloc, is_whole, lines, schema)?;
    is_text(alloc, found.as_str(), wanted.as_str())
}

/// The same for each schema to which nothing is converted.
fn are_left(alloc: Global, is_whole: bool) -> Result<(), Fail> {
    is_left(alloc, is_whole, ONE, ONE, TEXTS)?;
    is_left(alloc, is_whole, ONE, ONE, OLDER)?;
    is_left(alloc, is_whole, TWO, TWO_ROWS, LOADS)
}

#[test]
fn a_refused_conversion_changes_nothing(rt: HostRuntime) -> Result<(), Fail> {
    are_left(rt.alloc(), false)?;
    are_left(rt.alloc(), true)
}

/// A conversion over files that fail. The look opens the files under the stored schema.
const CONVERSION: Case<'static> = Case {
    before: Before::Messages(
        r#"{"id":1,"method":"transact","params":["Net",{"op":"insert","table":"Switch","row":{"name":"s1"}}]}"#,
    ),
    schema: NOTES,
    messages: r#"{"id":2,"method":"transact","params":["Net",{"op":"select","table":"Switch","where":[],"columns":["name","note"]}]}"#,
    look: r#"{"id":9,"method":"transact","params":["Net",{"op":"select","table":"Switch","where":[],"columns":["name"]}]}"#,
    answers: "",
    is_in_full: true,
    is_opened: false,
};

/// The machine is not opened, and the database is the stored one, which is opened under its schema, or the converted one, which
/// is opened under the newer one; or the machine is opened, and the database is the converted one.
const CONVERTED: &str = r#"{"error":null,"id":9,"result":[{"rows":[{"name":"s1"}]}]}

{"error":null,"id":2,"result":[{"rows":[{"name":"s1","note":""}]}]}

{"error":null,"id":2,"result":[{"rows":[{"name":"s1","note":""}]}]}
{"error":null,"id":2,"result":[{"rows":[{"name":"s1","note":""}]}]}

"#;

#[test]
fn a_stopped_conversion_leaves_the_stored_or_the_converted_database(
    rt: HostRuntime,
) -> Result<(), Fail> {
    stops(rt.alloc(), &CONVERSION, CONVERTED)
}

#[test]
fn a_conversion_that_fails_once_leaves_the_stored_or_the_converted_database(
    rt: HostRuntime,
) -> Result<(), Fail> {
    fails_once(rt.alloc(), &CONVERSION, CONVERTED)
}
