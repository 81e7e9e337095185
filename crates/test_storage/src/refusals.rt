use crate::stores::{closed_after, create, created, open, opened};
use crate::tables::{statement, text_of_left, text_of_other_row};
use crate::trials::{Trial, found_in_memory};
use ov_base::Text;
use ov_files::{Store, Unopened, store_over};
use ov_keeper::Lines;
use sqlite::{Alter, Connection};
use std::alloc::Global;
use std::test::Fail;
use test_basics::{Scripted, agrees};

/// What an open of the database of format 1 that these statements make returns.
const OPENED_1: &str = "meta line schema one -> 1 old 0
meta line schema one row -> 1 old 1
line -> not a database of this program
meta schema one -> not a database of this program
line meta schema one -> 1 old 0
meta text_id schema one -> not a database of this program
meta line schema one foreign -> 1 old 0
meta line foreign schema one row -> 1 old 1
meta line schema one index -> 1 old 0
meta line schema one view -> 1 old 0
meta line schema one row foreign view -> 1 old 1
meta line schema one unique -> not a database of this program
meta line schema one key -> not a database of this program
foreign meta line schema one -> 1 old 0
meta foreign line schema one -> 1 old 0
meta line -> another format
meta line schema one third -> another format
meta line schema one seven -> another format
meta line schema one row short -> another format
meta line schema one row no_version -> another format
meta line schema one row no_text -> another format";

/// The same for a database of format 2.
const OPENED_2: &str = "meta head cell schema two -> 2 old 0
meta head cell schema two head_row -> 2 old 1
meta head cell schema two head_row cell_row -> 2 old 1
cell meta head schema two cell_row head_row -> 2 old 1
head cell -> not a database of this program
meta head schema two -> not a database of this program
meta cell schema two -> not a database of this program
meta text_head cell schema two -> not a database of this program
meta head keyless schema two -> not a database of this program
foreign meta head view cell schema two head_row -> 2 old 1
meta head cell schema two cell_index -> 2 old 0
meta head cell schema two cell_unique -> not a database of this program
meta head cell schema two key -> not a database of this program
meta head cell schema two head_key -> not a database of this program
meta head cell -> another format
meta head cell schema two third -> another format
meta head cell schema two seven -> another format
meta head cell schema two cell_row -> another format
meta head cell schema two head_row cell_row other_cell -> another format
meta head cell schema two head_row cell_row short_cell -> another format
meta head cell schema two head_row cell_row no_column -> another format
meta head cell schema two head_row cell_row no_body -> another format
meta head cell schema two head_row short_head -> another format
meta head cell schema two head_row no_head_text -> another format";

/// The same where there are tables of both formats, or `meta` names the one whose tables are not there. Format 1 has room for
/// the tables of format 2, for which a table `line` is another one.
const OPENED_MIXED: &str = "meta line schema two -> not a database of this program
meta line schema two row -> not a database of this program
meta head cell schema one -> not a database of this program
meta head cell schema one head_row cell_row -> not a database of this program
meta line head schema one -> not a database of this program
meta line cell schema one -> not a database of this program
meta line head schema two -> not a database of this program
meta line head cell schema one -> not a database of this program
meta line head cell schema one row -> not a database of this program
meta line schema one head_view -> not a database of this program
meta line schema one foreign index_cell -> not a database of this program
meta line schema one head_key -> not a database of this program
meta line head cell schema two -> 2 old 0
meta line head cell schema two row head_row cell_row -> 2 old 1
meta foreign_line head cell schema two -> 2 old 0
meta head cell schema two line_view -> 2 old 0";

/// What making or opening a store there returns; a new one has the text `new`.
const MADE_OR_OPENED: &str = " -> 2 new 0
meta line one schema row -> 1 old 1
meta head cell two schema head_row -> 2 old 1
meta line one -> another format
meta head cell two -> another format
meta line schema two -> not a database of this program
meta line schema one foreign -> 1 old 0
foreign line meta schema one row -> 1 old 1
foreign cell head meta schema two -> 2 old 0
foreign -> not a database of this program
view -> not a database of this program";

/// What making a store there returns.
const MADE: &str = " -> 2 new 0
foreign -> 2 new 0
foreign seven_there view -> 2 new 0
counted -> 2 new 0
foreign_line -> 2 new 0
line_view -> 2 new 0
meta line schema one -> not a database of this program
meta head cell schema two -> not a database of this program
upper -> not a database of this program
head -> not a database of this program
head_view -> not a database of this program
foreign index_cell -> not a database of this program
key -> not a database of this program
head_key -> not a database of this program";

/// What making a store returns if one was made there before.
const MADE_AGAIN: &str = " -> not a database of this program";

/// Whether the other table, made after those of the store, has its row after a commit.
const KEPT_BEHIND: &str = "meta head cell schema two foreign seven_there -> true";

/// The same if it was made before them.
const KEPT_BEFORE: &str = "foreign seven_there cell meta head two schema -> true";

/// The same for a new store.
const KEPT_BY_NEW: &str = "foreign seven_there view -> true";

/// The same after a rewrite of either format.
const KEPT_BY_REWRITE: &str =
    "meta head cell schema two head_row cell_row foreign seven_there -> true
foreign seven_there cell meta head two schema -> true
meta line schema one row foreign seven_there -> true
foreign seven_there line meta one schema -> true
meta foreign line schema one row seven_there view -> true";

/// How many rows the table `line` has after a rewrite of either format. In one of format 2 it is another table.
const LEFT_BY_REWRITE: &str = "meta line schema one -> 0
meta line schema one row -> 0
line index meta schema one row -> 0
meta line head cell schema two row -> 1";

/// The stored format, the schema text of a store and its number of rows.
fn contents<S: Alter + Drop>(alloc: Global, store: &mut Store<S>) -> Result<String, Fail> {
    let format = store.format();
    let loaded = store.load_all(alloc)?;
    let rows = number_of(&loaded.lines);
    Ok(format!(in alloc; "{format} {} {rows}", loaded.schema.as_str())?)
}

/// The number of rows that were loaded.
fn number_of(lines: &Lines) -> usize {
    match lines {
        Lines::Whole(lines) => lines.len(),
        Lines::InCells(lines) => lines.len(),
    }
}

/// The same for a store that is not used again.
fn text_of_store<S: Alter + Drop>(alloc: Global, store: Store<S>) -> Result<String, Fail> {
    let mut store = store;
    contents(alloc, &mut store)
}

/// The same, or why there is no store.
fn text_of<S: Alter + Drop>(
    alloc: Global,
    made: Result<Store<S>, Unopened<S>>,
) -> Result<String, Fail> {
    match made {
        Ok(store) => text_of_store(alloc, store),
        Err(refusal) => Ok(format!(in alloc; "{}", refusal.fault)?),
    }
}

/// What opening the database of a connection returns.
fn text_of_opened<S: Alter + Drop>(
    alloc: Global,
    connection: Connection<S>,
) -> Result<String, Fail> {
    text_of(alloc, open(alloc, connection)?)
}

/// What making or opening a store there returns.
fn text_of_made_or_opened<S: Alter + Drop>(
    alloc: Global,
    connection: Connection<S>,
) -> Result<String, Fail> {
    if !connection.is_autocommit() {
        return Err(Fail::new("in a transaction"));
    }
    let schema = Text::from_str(alloc, "new")?;
    text_of(alloc, store_over(alloc, connection, schema))
}

/// What making a store there returns.
fn text_of_made<S: Alter + Drop>(alloc: Global, connection: Connection<S>) -> Result<String, Fail> {
    text_of(alloc, create(alloc, connection, "new")?)
}

/// What making a store returns if one was made there before.
fn text_of_made_again<S: Alter + Drop>(
    alloc: Global,
    connection: Connection<S>,
) -> Result<String, Fail> {
    let store = created(alloc, connection)?;
    text_of_made(alloc, store.close())
}

/// A commit of a row.
const COMMIT: &str = r#"put Switch 1 0 {"name":"one"}
commit -> made
lines -> Switch 1 0 {"name":"one"};"#;

/// A rewrite with a row, and a commit of another.
const REWRITE: &str = r#"put Switch 1 0 {"name":"one"}
rewrite newer -> made
format -> 2
put Switch 2 0 {"name":"two"}
commit -> made
schema -> newer
lines -> Switch 1 0 {"name":"one"};Switch 2 0 {"name":"two"};"#;

/// Whether the other table has its row after a script over the store.
fn text_of_kept<S: Alter + Drop>(
    alloc: Global,
    store: Store<S>,
    script: &str,
) -> Result<String, Fail> {
    let mut connection = closed_after(alloc, store, script)?;
    text_of_other_row(alloc, &mut connection)
}

/// The same for a script over the store of the database.
fn text_of_kept_by_opened<S: Alter + Drop>(
    alloc: Global,
    connection: Connection<S>,
    script: &str,
) -> Result<String, Fail> {
    text_of_kept(alloc, opened(alloc, connection)?, script)
}

/// The same for a commit to a new store.
fn text_of_kept_by_new<S: Alter + Drop>(
    alloc: Global,
    connection: Connection<S>,
) -> Result<String, Fail> {
    text_of_kept(alloc, created(alloc, connection)?, COMMIT)
}

/// The number of rows of the table `line` after a rewrite of the store of the database.
fn text_of_left_by_rewrite<S: Alter + Drop>(
    alloc: Global,
    connection: Connection<S>,
) -> Result<String, Fail> {
    let store = opened(alloc, connection)?;
    let mut connection = closed_after(alloc, store, REWRITE)?;
    text_of_left(alloc, &mut connection)
}

/// What is done with a database.
#[derive(Clone, Copy)]
enum Way {
    Open,
    MakeOrOpen,
    Make,
    MakeAgain,
    CommitToOpened,
    CommitToNew,
    Rewrite,
    LookAtLine,
}

/// The answer for the database of a connection.
fn text_by<S: Alter + Drop>(
    alloc: Global,
    connection: Connection<S>,
    way: Way,
) -> Result<String, Fail> {
    match way {
        Way::Open => text_of_opened(alloc, connection),
        Way::MakeOrOpen => text_of_made_or_opened(alloc, connection),
        Way::Make => text_of_made(alloc, connection),
        Way::MakeAgain => text_of_made_again(alloc, connection),
        Way::CommitToOpened => text_of_kept_by_opened(alloc, connection, COMMIT),
        Way::CommitToNew => text_of_kept_by_new(alloc, connection),
        Way::Rewrite => text_of_kept_by_opened(alloc, connection, REWRITE),
        Way::LookAtLine => text_of_left_by_rewrite(alloc, connection),
    }
}

/// Runs the statements of these words.
fn execute<S: Alter + Drop>(connection: &mut Connection<S>, words: &str) -> Result<(), Fail> {
    for word in words.split_whitespace() {
        connection.execute_batch(statement(word))?;
    }
    Ok(())
}

/// A way, after the statements of these words.
#[derive(Clone, Copy)]
struct Found<'a> {
    way: Way,
    words: &'a str,
}

impl<'a> Trial for Found<'a> {
    fn found<S: Alter + Drop>(
        &self,
        alloc: Global,
        connection: Connection<S>,
    ) -> Result<String, Fail> {
        let mut connection = connection;
        execute(&mut connection, self.words)?;
        text_by(alloc, connection, self.way)
    }
}

/// The commands are the words of statements.
#[derive(Drop)]
struct Databases {
    way: Way,
}

impl Scripted for Databases {
    fn answer(&mut self, alloc: Global, command: &str) -> Result<String, Fail> {
        let found = Found {
            way: self.way,
            words: command,
        };
        found_in_memory(alloc, &found)
    }
}

/// Runs a script over databases.
fn are_found(alloc: Global, way: Way, script: &str) -> Result<(), Fail> {
    agrees(alloc, Databases { way }, script)
}

#[test]
fn an_open_tells_what_is_no_store_of_format_1(rt: HostRuntime) -> Result<(), Fail> {
    are_found(rt.alloc(), Way::Open, OPENED_1)
}

#[test]
fn an_open_tells_what_is_no_store_of_format_2(rt: HostRuntime) -> Result<(), Fail> {
    are_found(rt.alloc(), Way::Open, OPENED_2)
}

#[test]
fn an_open_tells_the_formats_apart(rt: HostRuntime) -> Result<(), Fail> {
    are_found(rt.alloc(), Way::Open, OPENED_MIXED)
}

#[test]
fn a_database_is_new_or_ours_or_foreign(rt: HostRuntime) -> Result<(), Fail> {
    are_found(rt.alloc(), Way::MakeOrOpen, MADE_OR_OPENED)
}

#[test]
fn tables_are_made_beside_others(rt: HostRuntime) -> Result<(), Fail> {
    are_found(rt.alloc(), Way::Make, MADE)
}

#[test]
fn tables_are_made_once(rt: HostRuntime) -> Result<(), Fail> {
    are_found(rt.alloc(), Way::MakeAgain, MADE_AGAIN)
}

#[test]
fn a_commit_keeps_the_tables_after(rt: HostRuntime) -> Result<(), Fail> {
    are_found(rt.alloc(), Way::CommitToOpened, KEPT_BEHIND)
}

#[test]
fn a_commit_keeps_the_tables_before(rt: HostRuntime) -> Result<(), Fail> {
    are_found(rt.alloc(), Way::CommitToOpened, KEPT_BEFORE)
}

#[test]
fn a_new_store_keeps_the_tables_before(rt: HostRuntime) -> Result<(), Fail> {
    are_found(rt.alloc(), Way::CommitToNew, KEPT_BY_NEW)
}

#[test]
fn a_rewrite_keeps_the_other_tables(rt: HostRuntime) -> Result<(), Fail> {
    are_found(rt.alloc(), Way::Rewrite, KEPT_BY_REWRITE)
}

#[test]
fn a_rewrite_of_format_1_leaves_an_empty_table_of_lines(rt: HostRuntime) -> Result<(), Fail> {
    are_found(rt.alloc(), Way::LookAtLine, LEFT_BY_REWRITE)
}
