//! Stored rows that are opened, or refused, in both formats.

use ov_db::Db;
use ov_keeper::{Keeper, Line};
use ov_rows::{Row, Rows, TableRows};
use std::alloc::Global;
use std::test::Fail;
use test_basics::{
    NET, Scripted, agrees, is_text, keeper_of, line_of, net, schema_of_text, whole_keeper_of,
};
use test_commits::put_line;
use uuid::Uuid;

/// The schema Net in its version 0.
const NET_0: &str =
    r#"{"name":"Net","tables":{"Switch":{"columns":{"name":{"type":"string"}}}},"version":"0.0.0"}"#;

/// Lines of both tables, in order.
const STORED: &str = r#"Port 3 4 {"name":"p1","peer":["set",[]],"tag":4095}
Port 5 4 {"name":"","peer":["uuid","00000000-0000-0000-0000-000000000003"],"tag":["set",[]]}
Switch 2 1 {"load":0,"main":["set",[]],"name":"s1","ports":["set",[]]}
Switch 6 1 {"load":-9223372036854775808,"main":["uuid","00000000-0000-0000-0000-000000000003"],"name":"\"\u0001é","ports":["set",[["uuid","00000000-0000-0000-0000-000000000003"],["uuid","00000000-0000-0000-0000-000000000005"]]]}
"#;

/// Bodies of lines of Port in format 1 that are or are not rows: not JSON, not an object, a column missing, added or repeated,
/// another order, a space; values of another kind, out of range, too many, out of order, not as they are written; a real.
const BODIES: &str = r#"x -> a stored row does not fit the schema
[] -> a stored row does not fit the schema
{"name":"p1","peer":["set",[]]} -> a stored row does not fit the schema
{"name":"p1","other":1,"peer":["set",[]],"tag":7} -> a stored row does not fit the schema
{"_uuid":["uuid","00000000-0000-0000-0000-000000000002"],"name":"p1","peer":["set",[]],"tag":7} -> a stored row does not fit the schema
{"name":"p0","name":"p1","peer":["set",[]],"tag":7} -> a stored row does not fit the schema
{"peer":["set",[]],"name":"p1","tag":7} -> a stored row does not fit the schema
{"name":"p1","peer":["set",[]],"tag": 7} -> a stored row does not fit the schema
{"name":"p1","peer":["set",[]],"tag":7}x -> a stored row does not fit the schema
{"name":1,"peer":["set",[]],"tag":7} -> a stored row does not fit the schema
{"name":"p1","peer":["set",[]],"tag":4096} -> a stored row does not fit the schema
{"name":"p1","peer":["set",[]],"tag":["set",[7,8]]} -> a stored row does not fit the schema
{"name":"p1","peer":["set",[]],"tag":["set",[7]]} -> a stored row does not fit the schema
{"name":"p1","peer":["uuid","00000000-0000-0000-0000-00000000000A"],"tag":7} -> a stored row does not fit the schema
{"name":"p1","peer":["named-uuid","a"],"tag":7} -> a stored row does not fit the schema
{"name":"p1","peer":["set",[]],"tag":7.0} -> a stored row does not fit the schema
{"name":"\u0070","peer":["set",[]],"tag":7} -> a stored row does not fit the schema
{"name":"p1","peer":["set",[]],"tag":7} -> Port 2 1 {"name":"p1","peer":["set",[]],"tag":7}"#;

/// A table with a column for each kind of value.
pub(crate) const EVERY: &str =
    r#"{"name":"Every","tables":{"All":{"columns":{"flag":{"type":"boolean"},"id":{"type":"uuid"},"ids":{"type":{"key":"uuid","max":"unlimited","min":0}},"name":{"type":"string"},"number":{"type":"integer"},"numbers":{"type":{"key":"integer","max":"unlimited","min":0}},"truths":{"type":{"key":"uuid","max":"unlimited","min":0,"value":"boolean"}},"words":{"type":{"key":"string","max":"unlimited","min":0,"value":"string"}}}}},"version":"1.0.0"}"#;

/// Bodies of lines of All in format 1 that are or are not rows: each kind of value, with no elements and with some, and texts
/// with escapes; then other names, words and brackets, elements out of order or repeated, a repeated key, values of another
/// kind, a U+0000, other numbers.
const EVERY_BODIES: &str =
    r#"{"flag":true,"id":["uuid","01234567-89ab-cdef-0123-456789abcdef"],"ids":["set",[["uuid","00000000-0000-0000-0000-000000000003"],["uuid","00000000-0000-0000-0000-000000000005"]]],"name":"a\"\\n\u0001é😀","number":-9223372036854775808,"numbers":["set",[-3,0,7]],"truths":["map",[[["uuid","00000000-0000-0000-0000-000000000003"],false],[["uuid","00000000-0000-0000-0000-000000000005"],true]]],"words":["map",[["","x"],["map","set"],["set","uuid"]]]} -> kept
{"flag":false,"id":["uuid","00000000-0000-0000-0000-000000000000"],"ids":["set",[]],"name":"","number":9223372036854775807,"numbers":["set",[]],"truths":["map",[]],"words":["map",[]]} -> kept
{"flag":false,"id":["uuid","00000000-0000-0000-0000-000000000000"],"ids":["uuid","00000000-0000-0000-0000-000000000003"],"name":"set","number":0,"numbers":7,"truths":["map",[]],"words":["map",[["a","b"]]]} -> kept
{"flag":false,"id":["uuid","00000000-0000-0000-0000-000000000000"],"ids":["set",[]],"nane":"","number":0,"numbers":["set",[]],"truths":["map",[]],"words":["map",[]]} -> refused
{"flag":false,"id":["uuid","00000000-0000-0000-0000-000000000000"],"ids":["sets",[]],"name":"","number":0,"numbers":["set",[]],"truths":["map",[]],"words":["map",[]]} -> refused
{"flag":false,"id":["uuid","00000000-0000-0000-0000-000000000000","x"],"ids":["set",[]],"name":"","number":0,"numbers":["set",[]],"truths":["map",[]],"words":["map",[]]} -> refused
{"flag":false,"id":["uuid","00000000-0000-0000-0000-000000000000"],"ids":["set",[]],"name":"","number":0,"numbers":["set",[7,-3]],"truths":["map",[]],"words":["map",[]]} -> refused
{"flag":false,"id":["uuid","00000000-0000-0000-0000-000000000000"],"ids":["set",[]],"name":"","number":0,"numbers":["set",[7,7]],"truths":["map",[]],"words":["map",[]]} -> refused
{"flag":false,"id":["uuid","00000000-0000-0000-0000-000000000000"],"ids":["set",[]],"name":"","number":0,"numbers":["set",[]],"truths":["map",[]],"words":["map",[["a","b"],["a","c"]]]} -> refused
{"flag":false,"id":["uuid","00000000-0000-0000-0000-000000000000"],"ids":["set",[]],"name":"","number":0,"numbers":["set",["x"]],"truths":["map",[]],"words":["map",[]]} -> refused
{"flag":false,"id":["uuid","00000000-0000-0000-0000-000000000000"],"ids":["set",[]],"name":"\u0000","number":0,"numbers":["set",[]],"truths":["map",[]],"words":["map",[]]} -> refused
{"flag":false,"id":["uuid","00000000-0000-0000-0000-000000000000"],"ids":["set",[]],"name":"","number":-0,"numbers":["set",[]],"truths":["map",[]],"words":["map",[]]} -> refused
{"flag":false,"id":["uuid","00000000-0000-0000-0000-000000000000"],"ids":["set",[]],"name":"","number":9223372036854775808,"numbers":["set",[]],"truths":["map",[]],"words":["map",[]]} -> refused
{"flag":null,"id":["uuid","00000000-0000-0000-0000-000000000000"],"ids":["set",[]],"name":"","number":0,"numbers":["set",[]],"truths":["map",[]],"words":["map",[]]} -> refused
{"flag":false,"id":["uuid","0000000000000000-0000-000000000000"],"ids":["set",[]],"name":"","number":0,"numbers":["set",[]],"truths":["map",[]],"words":["map",[]]} -> refused"#;

/// The text of a row, in the form of its line.
fn text_of_row(alloc: Global, table: &str, id: &Uuid, row: &Row) -> Result<String, Fail> {
    let body = row.columns.text(alloc)?;
    let id = id.as_u128();
    let version = row.version.as_u128();
    let body = str::from_utf8(body.as_slice())?;
    Ok(format!(in alloc; "{table} {id} {version} {body}")?)
}

/// Adds the text of a row and a line feed.
fn push_row(
    alloc: Global,
    text: &mut String,
    table: &str,
    id: &Uuid,
    row: &Row,
) -> Result<(), Fail> {
    let line = text_of_row(alloc, table, id, row)?;
    text.push_str(line.as_str())?;
    Ok(text.push_str("\n")?)
}

/// Adds the texts of a table's rows, each with a line feed.
fn push_rows(alloc: Global, text: &mut String, table: &str, rows: &TableRows) -> Result<(), Fail> {
    for (id, row) in rows.map() {
        push_row(alloc, text, table, id.as_uuid(), row)?;
    }
    Ok(())
}

/// The texts of rows, each with a line feed.
pub(crate) fn text_of_rows(alloc: Global, rows: &Rows) -> Result<String, Fail> {
    let mut text = String::new(alloc);
    for (table, rows) in rows.tables() {
        push_rows(alloc, &mut text, table.as_str(), rows)?;
    }
    Ok(text)
}

/// The rows that a keeper holds, each as the text of its line; or why they can't be opened under the schema.
pub(crate) fn rows_of<K: Keeper + Drop>(
    alloc: Global,
    keeper: K,
    schema: &str,
) -> Result<String, Fail> {
    let schema = schema_of_text(alloc, schema)?;
    match Db::open(alloc, keeper, schema) {
        Ok(db) => text_of_rows(alloc, db.rows()),
        Err(fault) => Ok(format!(in alloc; "{fault}")?),
    }
}

/// The same for these lines of format 1 and the schema text stored with them.
fn opened_whole(alloc: Global, stored: &str, lines: &str, schema: &str) -> Result<String, Fail> {
    rows_of(alloc, whole_keeper_of(alloc, stored, lines)?, schema)
}

/// The same for the rows of these lines in format 2.
fn opened_in_cells(alloc: Global, stored: &str, lines: &str, schema: &str) -> Result<String, Fail> {
    rows_of(alloc, keeper_of(alloc, stored, lines)?, schema)
}

/// Fails unless what was opened is this text.
fn is_opened(alloc: Global, opened: Result<String, Fail>, want: &str) -> Result<(), Fail> {
    is_text(alloc, opened?.as_str(), want)
}

/// Fails unless the result is this text in both formats.
fn opens_as(
    alloc: Global,
    stored: &str,
    lines: &str,
    schema: &str,
    want: &str,
) -> Result<(), Fail> {
    is_opened(alloc, opened_whole(alloc, stored, lines, schema), want)?;
    is_opened(alloc, opened_in_cells(alloc, stored, lines, schema), want)
}

#[test]
fn rows_are_opened_as_they_were_stored(rt: HostRuntime) -> Result<(), Fail> {
    opens_as(rt.alloc(), NET, STORED, NET, STORED)
}

/// The line of a switch that refers to the port 2.
pub(crate) const HOLDER: &str =
    r#"Switch 1 1 {"load":0,"main":["set",[]],"name":"s1","ports":["uuid","00000000-0000-0000-0000-000000000002"]}"#;

/// What a line of Port with this body opens as in format 1, next to the switch that refers to the port.
#[derive(Drop)]
struct Bodies;

/// The first line of a text.
pub(crate) fn first_line(alloc: Global, text: &str) -> Result<String, Fail> {
    let (first, _) = text.split_once("\n").unwrap_or((text, ""));
    Ok(String::from_str(alloc, first)?)
}

/// What the first of the lines opens as.
fn first_opened(alloc: Global, lines: &str) -> Result<String, Fail> {
    let text = opened_whole(alloc, NET, lines, NET)?;
    first_line(alloc, text.as_str())
}

impl Scripted for Bodies {
    fn answer(&mut self, alloc: Global, command: &str) -> Result<String, Fail> {
        let lines = format!(in alloc; "Port 2 1 {command}\n{HOLDER}")?;
        first_opened(alloc, lines.as_str())
    }
}

#[test]
fn bodies_that_are_no_row_are_refused(rt: HostRuntime) -> Result<(), Fail> {
    agrees(rt.alloc(), Bodies, BODIES)
}

/// Whether a line of All with this body opens unchanged in format 1.
#[derive(Drop)]
struct EveryBodies;

/// Whether a line opens unchanged.
fn is_kept(alloc: Global, line: &str) -> Result<bool, Fail> {
    let text = opened_whole(alloc, EVERY, line, EVERY)?;
    Ok(text.as_str().trim_end() == line)
}

impl Scripted for EveryBodies {
    fn answer(&mut self, alloc: Global, command: &str) -> Result<String, Fail> {
        let line = format!(in alloc; "All 2 1 {command}")?;
        let is_kept = is_kept(alloc, line.as_str())?;
        Ok(String::from_str(alloc, if is_kept { "kept" } else { "refused" })?)
    }
}

#[test]
fn values_of_every_kind_are_opened(rt: HostRuntime) -> Result<(), Fail> {
    agrees(rt.alloc(), EveryBodies, EVERY_BODIES)
}

#[test]
fn a_line_of_another_table_is_refused(rt: HostRuntime) -> Result<(), Fail> {
    let lines = r#"Port 2 1 {"name":"p1","peer":["set",[]],"tag":7}
ports 2 1 {}"#;
    let want = "a stored row does not fit the schema";
    opens_as(rt.alloc(), NET, lines, NET, want)
}

/// The schema is checked before the lines.
#[test]
fn another_schema_is_refused(rt: HostRuntime) -> Result<(), Fail> {
    let alloc = rt.alloc();
    let want = "the stored schema is another one";
    opens_as(alloc, NET, "ports 2 1 {}", NET_0, want)?;
    let spaced = format!(in alloc; "{NET} ")?;
    opens_as(alloc, spaced.as_str(), "", NET, want)
}

/// Why rows that a commit would refuse or change are not opened.
const BREAKS: &str = "the stored rows break a constraint";

/// Rows that a commit would refuse or change: two switches with the same name; a port to which no row refers, or only itself,
/// or only a weak reference; and a strong and a weak reference to a missing row.
const BROKEN: [&str; 6] = [
    r#"Switch 1 1 {"load":0,"main":["set",[]],"name":"s1","ports":["set",[]]}
Switch 2 1 {"load":7,"main":["set",[]],"name":"s1","ports":["set",[]]}"#,
    r#"Port 2 1 {"name":"p1","peer":["set",[]],"tag":7}"#,
    r#"Port 2 1 {"name":"p1","peer":["uuid","00000000-0000-0000-0000-000000000002"],"tag":7}"#,
    r#"Port 2 1 {"name":"p1","peer":["set",[]],"tag":7}
Switch 1 1 {"load":0,"main":["uuid","00000000-0000-0000-0000-000000000002"],"name":"s1","ports":["set",[]]}"#,
    r#"Switch 1 1 {"load":0,"main":["set",[]],"name":"s1","ports":["uuid","00000000-0000-0000-0000-000000000002"]}"#,
    r#"Switch 1 1 {"load":0,"main":["uuid","00000000-0000-0000-0000-000000000002"],"name":"s1","ports":["set",[]]}"#,
];

#[test]
fn rows_that_a_commit_would_not_leave_are_refused(rt: HostRuntime) -> Result<(), Fail> {
    for lines in BROKEN {
        opens_as(rt.alloc(), NET, lines, NET, BREAKS)?;
    }
    Ok(())
}

/// Two ports that refer to each other.
const PEERS: &str =
    r#"Port 3 4 {"name":"p1","peer":["uuid","00000000-0000-0000-0000-000000000005"],"tag":["set",[]]}
Port 5 4 {"name":"p2","peer":["uuid","00000000-0000-0000-0000-000000000003"],"tag":["set",[]]}
"#;

#[test]
fn rows_that_support_each_other_are_opened(rt: HostRuntime) -> Result<(), Fail> {
    opens_as(rt.alloc(), NET, PEERS, NET, PEERS)
}

/// A table of at most one row.
const ONE: &str =
    r#"{"name":"One","tables":{"T":{"columns":{"n":{"type":"integer"}},"maxRows":1}},"version":"1.0.0"}"#;

#[test]
fn a_table_with_too_many_rows_is_refused(rt: HostRuntime) -> Result<(), Fail> {
    let one = "T 1 1 {\"n\":7}\n";
    opens_as(rt.alloc(), ONE, one, ONE, one)?;
    let two = "T 1 1 {\"n\":7}\nT 2 1 {\"n\":8}";
    opens_as(rt.alloc(), ONE, two, ONE, BREAKS)
}

/// What the keeper holds after its rows are opened and the row of a line is committed.
fn committed<K: Keeper + Drop>(alloc: Global, keeper: K, line: &Line) -> Result<K, Fail> {
    let mut db = Db::open(alloc, keeper, net(alloc)?)?;
    put_line(alloc, &mut db, line)?;
    Ok(db.into_keeper())
}

/// What is opened after the row of a line is added to those of a keeper.
fn opened_after<K: Keeper + Drop>(alloc: Global, keeper: K, line: &str) -> Result<String, Fail> {
    let line = line_of(alloc, line)?;
    let keeper = committed(alloc, keeper, &line)?;
    rows_of(alloc, keeper, NET)
}

/// The same for these lines of format 1, which the first opening rewrites.
fn whole_opened_again(alloc: Global, lines: &str, line: &str) -> Result<String, Fail> {
    opened_after(alloc, whole_keeper_of(alloc, NET, lines)?, line)
}

/// The same for the rows of these lines in format 2.
fn opened_again(alloc: Global, lines: &str, line: &str) -> Result<String, Fail> {
    opened_after(alloc, keeper_of(alloc, NET, lines)?, line)
}

/// Two rows that are there before a commit.
const BEFORE: &str = r#"Port 3 1 {"name":"p1","peer":["set",[]],"tag":["set",[]]}
Switch 6 1 {"load":0,"main":["set",[]],"name":"s1","ports":["uuid","00000000-0000-0000-0000-000000000003"]}"#;

/// The row that is committed.
const COMMITTED: &str =
    r#"Switch 2 1 {"load":0,"main":["uuid","00000000-0000-0000-0000-000000000003"],"name":"s2","ports":["set",[]]}"#;

/// What is found after it.
const AFTER: &str = r#"Port 3 1 {"name":"p1","peer":["set",[]],"tag":["set",[]]}
Switch 2 1 {"load":0,"main":["uuid","00000000-0000-0000-0000-000000000003"],"name":"s2","ports":["set",[]]}
Switch 6 1 {"load":0,"main":["set",[]],"name":"s1","ports":["uuid","00000000-0000-0000-0000-000000000003"]}
"#;

/// What was committed is found again, with the table, the identifier, the version and the bytes of its line.
#[test]
fn committed_rows_are_opened_again(rt: HostRuntime) -> Result<(), Fail> {
    let found = opened_again(rt.alloc(), BEFORE, COMMITTED);
    is_opened(rt.alloc(), found, AFTER)
}

#[test]
fn rows_of_format_1_are_committed_to(rt: HostRuntime) -> Result<(), Fail> {
    let found = whole_opened_again(rt.alloc(), BEFORE, COMMITTED);
    is_opened(rt.alloc(), found, AFTER)
}
