use crate::holding::{HoldingGate, Mark};
use crate::told::push;
use ov_core::Cause;
use ov_ends::Watched;
use ov_hall::End;
use ov_workers::Link;
use std::alloc::{AllocError, Global};
use std::collections::VecDeque;
use std::io;
use std::io::{ErrorKind, Read};
use std::rt::Clock;
use test_basics::SlowWriter;

/// No limit.
pub(crate) const ALL: usize = 1_000_000;

/// A client: what it sends, and how its writer takes what it is sent.
///
/// A line of the script is sent at once. A line `after MARK` before it says what to wait for first, and a line `fail` is a
/// read that fails. The input ends after the last line.
#[derive(Clone, Copy)]
pub(crate) struct Client<'a> {
    /// What it sends.
    pub script: &'a str,
    /// The most bytes that its writer takes at once.
    pub most: usize,
    /// How many bytes its writer takes before it takes none.
    pub left: usize,
}

/// A client whose writer takes all.
pub(crate) fn client_of(script: &str) -> Client<'_> {
    Client {
        script,
        most: ALL,
        left: ALL,
    }
}

/// A reader that follows a script.
#[derive(Drop)]
pub(crate) struct ScriptedReader<'g, 'r, 's, R: Clock> {
    gate: &'g HoldingGate<'r, R>,
    line: &'s [u8],
    script: &'s str,
}

/// The mark of a line `after MARK`.
fn mark_of(line: &str) -> Option<Mark> {
    match line.split_once(" ")? {
        ("after", mark) => Mark::read(mark),
        _ => None,
    }
}

impl<'g, 'r, 's, R: Clock> ScriptedReader<'g, 'r, 's, R> {
    /// Takes the next line of the script; after the last one they are empty.
    fn take_line(&mut self) -> &'s str {
        let (line, rest) = self.script.split_once("\n").unwrap_or((self.script, ""));
        self.script = rest;
        line
    }

    /// Goes on to the next line that is sent.
    fn go_on(&mut self) -> io::Result<()> {
        let mut line = self.take_line();
        if let Some(mark) = mark_of(line) {
            self.gate.wait(mark);
            line = self.take_line();
        }
        if line == "fail" {
            return Err(io::Error::from(ErrorKind::Other));
        }
        self.line = line.as_bytes();
        Ok(())
    }
}

impl<R: Clock> Read for ScriptedReader<'_, '_, '_, R> {
    fn read(&mut self, buf: &mut [u8]) -> io::Result<usize> {
        if self.line.is_empty() {
            self.go_on()?;
        }
        self.line.read(buf)
    }
}

/// The reader of a client.
pub(crate) type ClientReader<'g, 'r, 's, R> = Watched<ScriptedReader<'g, 'r, 's, R>>;

/// The writer of a client.
pub(crate) type ClientWriter = Watched<SlowWriter>;

/// The links of clients.
pub(crate) fn links_of<'g, 'r, 's, R: Clock>(
    alloc: Global,
    gate: &'g HoldingGate<'r, R>,
    clients: &[Client<'s>],
) -> Result<VecDeque<Link<ClientReader<'g, 'r, 's, R>, ClientWriter>>, AllocError> {
    let mut links = VecDeque::new(alloc);
    for client in clients {
        let reader = Watched::new(ScriptedReader {
            gate,
            line: b"",
            script: client.script,
        });
        let writer = Watched::new(SlowWriter {
            taken: Vec::new(alloc),
            most: client.most,
            left: client.left,
            fails: false,
            flushes: true,
        });
        links.push_back(Link { reader, writer })?;
    }
    Ok(links)
}

/// A client's serial, why its session was closed, and what it was written.
type Told = (u64, Cause, Vec<u8>);

/// The same, taken from what remains of a client.
fn told_of<S: Drop>(end: End<S, ClientWriter>) -> Told {
    (end.serial, end.cause, end.writer.into_inner().taken)
}

/// The line of a client.
fn line_of(alloc: Global, told: Told) -> Result<String, AllocError> {
    let (serial, cause, taken) = told;
    let taken = str::from_utf8(taken.as_slice()).unwrap_or("no text");
    format!(in alloc; "{serial} {cause:?} {taken}\n")
}

/// The lines of what remains of clients, and a last one that says so if one of them has waited too long. What remains is
/// taken out, and belongs to the caller, which makes this proof smaller.
pub(crate) fn lines_of<S: Drop>(
    alloc: Global,
    ends: &mut VecDeque<End<S, ClientWriter>>,
    is_late: bool,
) -> Result<String, AllocError> {
    let mut lines = String::new(alloc);
    for _ in 0..ends.len() {
        if let Some(end) = ends.pop_front() {
            push(&mut lines, line_of(alloc, told_of(end)))?;
        }
    }
    lines.push_str(if is_late { "too late\n" } else { "" })?;
    Ok(lines)
}
