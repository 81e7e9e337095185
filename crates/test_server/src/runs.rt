//! What machines and statements do over files in memory, one of which may fail.

use crate::failing::{Image, Left, Stop, files_of, left_of};
use crate::texts::{received, session_of};
use ov_base::{Bytes, Text};
use ov_core::{Core, Event};
use ov_files::store_over;
use ov_keeper::Keeper;
use ov_schema::Schema;
use sqlite::{Alter, Connection, Files, Options};
use sqlite_disk::Disk;
use std::alloc::{AllocError, Global};
use std::test::Fail;
use test_basics::{Counter, schema_of_text};

/// Adds a reply, followed by how often the device has failed if the reply has an error.
fn push_line(
    alloc: Global,
    replies: &mut String,
    reply: &str,
    failures: u64,
) -> Result<(), AllocError> {
    replies.push_str(reply)?;
    if has_error(reply) {
        replies.push_str(format!(in alloc; " {failures}")?.as_str())?;
    }
    replies.push_str("\n")
}

/// Adds the line of a reply in bytes.
fn push_bytes(
    alloc: Global,
    replies: &mut String,
    reply: &Bytes,
    failures: u64,
) -> Result<(), Fail> {
    let reply = str::from_utf8(reply.as_slice())?;
    Ok(push_line(alloc, replies, reply, failures)?)
}

/// Adds the line of the reply to a message.
fn push_reply<K: Keeper + Drop>(
    alloc: Global,
    core: &mut Core<K, Counter>,
    message: &str,
    replies: &mut String,
) -> Result<(), Fail> {
    let received = received(alloc, message)?;
    core.step(alloc, 0, Event::Take(session_of(1), received));
    let output = core.take_output(alloc, session_of(1))?;
    push_bytes(alloc, replies, &output, core.failures())
}

/// Whether a reply has an error, of its own or of one of its operations.
pub(crate) fn has_error(reply: &str) -> bool {
    reply.contains("\"error\":\"")
}

/// Adds the replies of a machine to messages of its first session, each in a line.
fn push_replies<K: Keeper + Drop>(
    alloc: Global,
    core: &mut Core<K, Counter>,
    messages: &str,
    replies: &mut String,
) -> Result<(), Fail> {
    core.step(alloc, 0, Event::Open);
    for message in messages.lines() {
        push_reply(alloc, core, message, replies)?;
    }
    Ok(())
}

/// Those replies.
pub(crate) fn replies_of<K: Keeper + Drop>(
    alloc: Global,
    core: &mut Core<K, Counter>,
    messages: &str,
) -> Result<String, Fail> {
    let mut replies = String::new(alloc);
    push_replies(alloc, core, messages, &mut replies)?;
    Ok(replies)
}

/// What a machine does over a database.
#[derive(Clone, Copy)]
pub(crate) struct Run<'a> {
    /// How many identifiers were drawn before.
    pub drawn: u64,
    /// The schema that the machine is opened with, and the text of a new store: the compact text of its tree.
    pub schema: &'a str,
    /// The messages that it takes, one in a line. It adds its replies.
    pub messages: &'a str,
}

/// A run whose schema has been read, with the text for a new store.
#[derive(Drop)]
struct Ready<'a> {
    drawn: u64,
    text: Text,
    schema: Schema,
    messages: &'a str,
}

impl<'a> Run<'a> {
    /// Makes the run ready.
    fn ready(self, alloc: Global) -> Result<Ready<'a>, Fail> {
        let schema = schema_of_text(alloc, self.schema)?;
        Ok(Ready {
            drawn: self.drawn,
            text: Text::from_str(alloc, self.schema)?,
            schema,
            messages: self.messages,
        })
    }
}

/// Adds the replies of a machine, and gives its keeper back.
fn run_machine<K: Keeper + Drop>(
    alloc: Global,
    core: Core<K, Counter>,
    messages: &str,
    replies: &mut String,
) -> Result<K, Fail> {
    let mut core = core;
    push_replies(alloc, &mut core, messages, replies)?;
    Ok(core.into_keeper())
}

/// Adds the replies of a machine over a keeper, which is given back. Adds none if the machine is not opened.
fn run_over<K: Keeper + Drop>(
    alloc: Global,
    keeper: K,
    schema: Schema,
    draws: Counter,
    messages: &str,
    replies: &mut String,
) -> Result<K, Fail> {
    match Core::open(alloc, keeper, schema, draws) {
        Ok(core) => run_machine(alloc, core, messages, replies),
        Err(refused) => Ok(refused.keeper),
    }
}

/// Adds the replies of a machine over the store of a connection, which is made if there is none.
fn run_at<S: Alter + Drop>(
    alloc: Global,
    connection: Connection<S>,
    run: Ready<'_>,
    replies: &mut String,
) -> Result<S, Fail> {
    if !connection.is_autocommit() {
        return Err(Fail::new("in a transaction"));
    }
    match store_over(alloc, connection, run.text) {
        Ok(store) => {
            let draws = Counter::after(run.drawn);
            let store = run_over(alloc, store, run.schema, draws, run.messages, replies)?;
            Ok(store.close().into_store())
        }
        Err(refused) => Ok(refused.connection.into_store()),
    }
}

/// Runs statements over a connection, and adds that they are made.
fn execute<S: Alter + Drop>(
    connection: &mut Connection<S>,
    statements: &str,
    answers: &mut String,
) -> Result<(), Fail> {
    connection.execute_batch(statements)?;
    Ok(answers.push_str("made")?)
}

/// The number of rows that a query gives.
fn count<S: Alter + Drop>(connection: &mut Connection<S>, query: &str) -> Result<usize, Fail> {
    if !connection.is_autocommit() {
        return Err(Fail::new("in a transaction"));
    }
    Ok(connection.transaction().query_all(query, &[])?.len())
}

/// Adds how many rows the tables `line`, `head` and `cell` have.
fn push_counts<S: Alter + Drop>(
    alloc: Global,
    connection: &mut Connection<S>,
    answers: &mut String,
) -> Result<(), Fail> {
    let lines = count(connection, "SELECT tbl FROM line")?;
    let heads = count(connection, "SELECT tbl FROM head")?;
    let cells = count(connection, "SELECT tbl FROM cell")?;
    Ok(answers.push_str(format!(in alloc; "{lines} {heads} {cells}")?.as_str())?)
}

/// What is done over a database.
#[derive(Clone, Copy)]
pub(crate) enum Work<'a> {
    /// A machine is opened, and takes messages.
    Machine(Run<'a>),
    /// Statements of SQL are run. It adds `made`.
    Statements(&'a str),
    /// It adds how many rows the tables `line`, `head` and `cell` have.
    Counts,
}

/// Does this over a connection, adds the answers, and gives back what is below the connection.
fn done_at<S: Alter + Drop>(
    alloc: Global,
    connection: Connection<S>,
    work: Work<'_>,
    answers: &mut String,
) -> Result<S, Fail> {
    let mut connection = connection;
    match work {
        Work::Machine(run) => return run_at(alloc, connection, run.ready(alloc)?, answers),
        Work::Statements(statements) => execute(&mut connection, statements, answers)?,
        Work::Counts => push_counts(alloc, &mut connection, answers)?,
    }
    Ok(connection.into_store())
}

/// Does this over files, which are given back. Does nothing if they are not opened. The number goes into their log, and differs
/// for each opening of the same files.
///
/// It is generic over the files, because the proof for one kind of file is longer.
fn done_in<D: Disk + Drop>(
    alloc: Global,
    files: Files<D>,
    number: u64,
    work: Work<'_>,
    answers: &mut String,
) -> Result<Files<D>, Fail> {
    if !files.may_be_used() {
        return Err(Fail::new("not usable"));
    }
    match Connection::open_files(alloc, files, Options::new(number)) {
        Ok(connection) => Ok(done_at(alloc, connection, work, answers)?.close()),
        Err((_, left)) => Ok(left.into_files()),
    }
}

/// Does this over files that hold an image, one of which fails; adds the answers, and returns what is left.
pub(crate) fn left_after(
    alloc: Global,
    image: &Image,
    stop: Stop,
    number: u64,
    work: Work<'_>,
    answers: &mut String,
) -> Result<Left, Fail> {
    let files = files_of(alloc, image, stop)?;
    let mut files = done_in(alloc, files, number, work, answers)?;
    left_of(alloc, &mut files, stop)
}
