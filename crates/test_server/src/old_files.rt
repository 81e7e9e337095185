//! Machines that are opened over a database of stored format 1.

use crate::conversions::{NOTED, NOTES, ONE, SAME, SELECT};
use crate::failing::NEVER;
use crate::made::made;
use crate::runs::{Run, Work, left_after};
use crate::stops::{Before, Case, fails_once, image_after_statements, stops};
use std::alloc::Global;
use std::test::Fail;
use test_basics::{NET, is_text, whole_file};

/// Opens a machine with this schema over a database of format 1 that holds one switch under Net. Returns its reply to a select
/// of all switches, and how many rows the tables have afterwards. The next identifier that it draws is the hundredth.
fn found(alloc: Global, schema: &str) -> Result<String, Fail> {
    let statements = whole_file(alloc, NET, ONE)?;
    let image = image_after_statements(alloc, statements.as_str())?;
    let run = Run {
        drawn: 99,
        schema,
        messages: SELECT,
    };
    let mut found = String::new(alloc);
    let left = left_after(alloc, &image, NEVER, 2, Work::Machine(run), &mut found)?;
    left_after(alloc, &left.image, NEVER, 3, Work::Counts, &mut found)?;
    Ok(found)
}

/// Fails unless that database replies this under the schema, and then has this many rows.
fn opens_as(alloc: Global, schema: &str, reply: &str, counts: &str) -> Result<(), Fail> {
    let wanted = made(format!(in alloc; "{reply}{counts}"))?;
    let found = found(alloc, schema)?;
    is_text(alloc, found.as_str(), wanted.as_str())
}

#[test]
fn the_same_schema_stores_a_cell_for_each_column(rt: HostRuntime) -> Result<(), Fail> {
    opens_as(rt.alloc(), NET, SAME, "0 1 4")
}

#[test]
fn a_newer_schema_stores_a_cell_for_the_new_column_too(rt: HostRuntime) -> Result<(), Fail> {
    opens_as(rt.alloc(), NOTES, NOTED, "0 1 5")
}

/// The first opening of a file of format 1 under a schema, over files that fail. The look is at the rows under Net.
fn first_opening<'a>(statements: &'a str, schema: &'a str, messages: &'a str) -> Case<'a> {
    Case {
        before: Before::Statements(statements),
        schema,
        messages,
        look: r#"{"id":9,"method":"transact","params":["Net",{"op":"select","table":"Switch","where":[],"columns":["_version","name"]}]}"#,
        answers: "",
        is_in_full: true,
        is_opened: false,
    }
}

/// The machine is not opened, or it is opened: the row is found in either format, in its own version.
const KEPT: &str =
    r#"{"error":null,"id":9,"result":[{"rows":[{"_version":["uuid","00000000-0000-0000-0000-000000000001"],"name":"s1"}]}]}

{"error":null,"id":2,"result":[{"rows":[{"name":"s1"}]}]}
{"error":null,"id":9,"result":[{"rows":[{"_version":["uuid","00000000-0000-0000-0000-000000000001"],"name":"s1"}]}]}

"#;

/// The message that is taken under the schema Net.
const NAMES: &str =
    r#"{"id":2,"method":"transact","params":["Net",{"op":"select","table":"Switch","where":[],"columns":["name"]}]}"#;

/// Fails unless these are the outcomes of the first opening: over files that fail once and go on if `is_once`, otherwise over
/// files that stop.
fn opens_first(
    alloc: Global,
    is_once: bool,
    schema: &str,
    messages: &str,
    wanted: &str,
) -> Result<(), Fail> {
    let statements = whole_file(alloc, NET, ONE)?;
    let case = first_opening(statements.as_str(), schema, messages);
    if is_once {
        fails_once(alloc, &case, wanted)
    } else {
        stops(alloc, &case, wanted)
    }
}

#[test]
fn a_stopped_first_opening_leaves_the_rows(rt: HostRuntime) -> Result<(), Fail> {
    opens_first(rt.alloc(), false, NET, NAMES, KEPT)
}

#[test]
fn a_first_opening_that_fails_once_leaves_the_rows(rt: HostRuntime) -> Result<(), Fail> {
    opens_first(rt.alloc(), true, NET, NAMES, KEPT)
}

/// The machine is not opened, and the database is the stored one, which is opened under Net, or the converted one, which is
/// opened under the newer schema; or the machine is opened, and the database is the converted one.
const CONVERTED: &str =
    r#"{"error":null,"id":9,"result":[{"rows":[{"_version":["uuid","00000000-0000-0000-0000-000000000001"],"name":"s1"}]}]}

{"error":null,"id":2,"result":[{"rows":[{"name":"s1","note":""}]}]}

{"error":null,"id":2,"result":[{"rows":[{"name":"s1","note":""}]}]}
{"error":null,"id":2,"result":[{"rows":[{"name":"s1","note":""}]}]}

"#;

/// The message that is taken under the newer schema.
const NAMES_AND_NOTES: &str =
    r#"{"id":2,"method":"transact","params":["Net",{"op":"select","table":"Switch","where":[],"columns":["name","note"]}]}"#;

#[test]
fn a_stopped_conversion_of_format_1_leaves_the_stored_or_the_converted_database(
    rt: HostRuntime,
) -> Result<(), Fail> {
    opens_first(rt.alloc(), false, NOTES, NAMES_AND_NOTES, CONVERTED)
}

#[test]
fn a_conversion_of_format_1_that_fails_once_leaves_the_stored_or_the_converted_database(
    rt: HostRuntime,
) -> Result<(), Fail> {
    opens_first(rt.alloc(), true, NOTES, NAMES_AND_NOTES, CONVERTED)
}
