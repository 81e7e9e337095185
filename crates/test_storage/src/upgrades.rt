//! Databases of stored format 1 that are opened as rows, and what is stored after it.

use crate::opens::text_of_rows;
use crate::stores::opened;
use crate::trials::{Trial, found_in_memory};
use ov_db::{Db, RefusedOpen};
use ov_keeper::Keeper;
use ov_rows::Rows;
use sqlite::{Alter, Connection};
use std::alloc::Global;
use std::test::Fail;
use test_basics::{Faults, NET, failing, is_text, net, whole_file, whole_keeper_of};

/// A switch and the port to which it refers.
const LINES: &str = r#"Port 3 4 {"name":"p1","peer":["set",[]],"tag":7}
Switch 6 1 {"load":0,"main":["set",[]],"name":"s1","ports":["uuid","00000000-0000-0000-0000-000000000003"]}
"#;

/// Fails unless rows are those of the lines.
fn are_those(alloc: Global, rows: &Rows) -> Result<(), Fail> {
    let found = text_of_rows(alloc, rows)?;
    is_text(alloc, found.as_str(), LINES)
}

/// Opens the rows of a keeper, and returns the keeper. Fails unless they are those of the lines.
fn with_rows<K: Keeper + Drop>(alloc: Global, keeper: K) -> Result<K, Fail> {
    let db = Db::open(alloc, keeper, net(alloc)?)?;
    are_those(alloc, db.rows())?;
    Ok(db.into_keeper())
}

/// The number of rows that a query gives.
fn count<S: Alter + Drop>(connection: &mut Connection<S>, query: &str) -> Result<usize, Fail> {
    if !connection.is_autocommit() {
        return Err(Fail::new("in a transaction"));
    }
    Ok(connection.transaction().query_all(query, &[])?.len())
}

/// Adds how many rows the tables `line`, `head` and `cell` have.
fn push_counts<S: Alter + Drop>(
    alloc: Global,
    text: &mut String,
    connection: &mut Connection<S>,
) -> Result<(), Fail> {
    let lines = count(connection, "SELECT tbl FROM line")?;
    let heads = count(connection, "SELECT tbl FROM head")?;
    let cells = count(connection, "SELECT tbl FROM cell")?;
    Ok(text.push_str(format!(in alloc; "{lines} {heads} {cells};")?.as_str())?)
}

/// Opens the rows of a database, and adds the counts of its tables then. Fails unless the rows are those of the lines.
fn push_upgraded<S: Alter + Drop>(
    alloc: Global,
    text: &mut String,
    connection: Connection<S>,
) -> Result<Connection<S>, Fail> {
    let store = with_rows(alloc, opened(alloc, connection)?)?;
    let mut connection = store.close();
    push_counts(alloc, text, &mut connection)?;
    Ok(connection)
}

/// Two openings of the database that these statements make: the counts of its tables after each.
#[derive(Clone, Copy)]
struct Openings<'a> {
    statements: &'a str,
}

impl<'a> Trial for Openings<'a> {
    fn found<S: Alter + Drop>(
        &self,
        alloc: Global,
        connection: Connection<S>,
    ) -> Result<String, Fail> {
        let mut connection = connection;
        connection.execute_batch(self.statements)?;
        let mut text = String::new(alloc);
        let connection = push_upgraded(alloc, &mut text, connection)?;
        push_upgraded(alloc, &mut text, connection)?;
        Ok(text)
    }
}

/// After an opening the table of lines is empty, each row has a head, and each of its columns a cell.
#[test]
fn a_database_of_format_1_has_format_2_after_an_opening(rt: HostRuntime) -> Result<(), Fail> {
    let statements = whole_file(rt.alloc(), NET, LINES)?;
    let openings = Openings {
        statements: statements.as_str(),
    };
    let found = found_in_memory(rt.alloc(), &openings)?;
    is_text(rt.alloc(), found.as_str(), "0 2 7;0 2 7;")
}

/// How many rows there are, in words.
fn number_of(alloc: Global, rows: &Rows) -> Result<String, Fail> {
    let lines = text_of_rows(alloc, rows)?;
    Ok(format!(in alloc; "{} rows", lines.as_str().lines().count())?)
}

/// What comes of an opening: how many rows it gives, or why it is refused.
fn outcome_of<K: Keeper + Drop>(
    alloc: Global,
    opened: &Result<Db<K>, RefusedOpen<K>>,
) -> Result<String, Fail> {
    match opened {
        Ok(db) => number_of(alloc, db.rows()),
        Err(refused) => Ok(format!(in alloc; "{}", refused.fault)?),
    }
}

/// The keeper of an opening.
fn keeper_of<K: Keeper + Drop>(opened: Result<Db<K>, RefusedOpen<K>>) -> K {
    match opened {
        Ok(db) => db.into_keeper(),
        Err(refused) => refused.keeper,
    }
}

/// Fails unless this is what came of an opening, with the format that is stored then, and how often the device has failed.
fn has_come<K: Keeper>(alloc: Global, came: &str, keeper: &K, wanted: &str) -> Result<(), Fail> {
    let format = keeper.format();
    let failures = keeper.failures();
    let found = format!(in alloc; "{came}, format {format}, {failures} failures")?;
    is_text(alloc, found.as_str(), wanted)
}

/// Opens the rows of a keeper, and returns the keeper. Fails unless this comes of it.
fn opens_as<K: Keeper + Drop>(alloc: Global, keeper: K, wanted: &str) -> Result<K, Fail> {
    let opened = Db::open(alloc, keeper, net(alloc)?);
    let came = outcome_of(alloc, &opened)?;
    let keeper = keeper_of(opened);
    has_come(alloc, came.as_str(), &keeper, wanted)?;
    Ok(keeper)
}

/// Opens the rows of a keeper twice. Fails unless this comes of the first opening and of the second.
fn open_twice_as<K: Keeper + Drop>(
    alloc: Global,
    keeper: K,
    first: &str,
    second: &str,
) -> Result<(), Fail> {
    let keeper = opens_as(alloc, keeper, first)?;
    opens_as(alloc, keeper, second)?;
    Ok(())
}

/// The same over lines of format 1 with these faults.
fn open_as(
    alloc: Global,
    lines: &str,
    faults: Faults,
    first: &str,
    second: &str,
) -> Result<(), Fail> {
    let keeper = failing(whole_keeper_of(alloc, NET, lines)?, faults);
    open_twice_as(alloc, keeper, first, second)
}

/// The second opening would meet the failure.
#[test]
fn only_the_first_opening_of_format_1_writes(rt: HostRuntime) -> Result<(), Fail> {
    let faults = Faults {
        is_too_large: false,
        good: 1,
        bad: 1,
    };
    let opened = "2 rows, format 2, 0 failures";
    open_as(rt.alloc(), LINES, faults, opened, opened)
}

#[test]
fn a_refused_write_leaves_format_1(rt: HostRuntime) -> Result<(), Fail> {
    let fails = Faults {
        is_too_large: false,
        good: 0,
        bad: 1,
    };
    let failed = "the device failed, format 1, 1 failures";
    let opened = "2 rows, format 2, 1 failures";
    open_as(rt.alloc(), LINES, fails, failed, opened)?;
    let is_large = Faults {
        is_too_large: true,
        good: 1,
        bad: 1,
    };
    let refused = "too large to be stored, format 1, 0 failures";
    let opened = "2 rows, format 2, 0 failures";
    open_as(rt.alloc(), LINES, is_large, refused, opened)
}

/// A port that no row refers to, and a body that is no row. A write would fail.
#[test]
fn rows_of_format_1_that_are_refused_are_not_written(rt: HostRuntime) -> Result<(), Fail> {
    let faults = Faults {
        is_too_large: false,
        good: 0,
        bad: 9,
    };
    let broken = "the stored rows break a constraint, format 1, 0 failures";
    let port = r#"Port 3 4 {"name":"p1","peer":["set",[]],"tag":7}"#;
    open_as(rt.alloc(), port, faults, broken, broken)?;
    let unfit = "a stored row does not fit the schema, format 1, 0 failures";
    open_as(rt.alloc(), "Port 3 4 {}", faults, unfit, unfit)
}
