//! A lobby over the loopback interface: for two clients at a time, and for many that come one after another.

use crate::machines::net_desk;
use crate::talks::{client_at, meets_end, talk};
use ov_ends::Watched;
use ov_keeper::Keeper;
use ov_lanes::Desk;
use ov_listen::MonotonicClock;
use ov_lobby::serve_lobby;
use ov_requests::Draws;
use ov_sockets::{ClientReader, ClientWriter, listen};
use ov_workers::{FreeGate, Link, Listen};
use std::alloc::Global;
use std::fs::{Files, read_dir, read_to_string};
use std::io::BufWriter;
use std::net::{Net, Shutdown, TcpListener, TcpStream};
use std::rt::Clock;
use std::sync::Wait;
use std::test::Fail;
use std::thread;
use std::thread::Threads;
use test_basics::is_text;

/// The first connections of a listener, and no others.
#[derive(Drop)]
struct Few<'l> {
    alloc: Global,
    listener: &'l TcpListener,
    left: usize,
}

impl Listen<ClientReader, ClientWriter> for Few<'_> {
    ghost gives = { λ _ _ _. Unit {0} };

    fn accept(&mut self) -> Option<Link<ClientReader, ClientWriter>> {
        self.left = self.left.checked_sub(1)?;
        let (stream, _) = self.listener.accept().ok()?;
        let output = BufWriter::new(self.alloc, stream.try_clone().ok()?).ok()?;
        Some(Link {
            reader: Watched::new(stream),
            writer: Watched::new(output),
        })
    }
}

/// Serves connections in a lobby, and returns how many entries the history then has. None if the lobby is refused.
fn serve_few<R: Threads + Wait + Clock + Sync, K: Keeper + Drop, D: Draws + Drop>(
    rt: &R,
    alloc: Global,
    desk: Desk<K, D>,
    few: Few<'_>,
) -> Option<usize> {
    let clock = &mut MonotonicClock::new(rt);
    match serve_lobby(rt, alloc, desk, few, &FreeGate, clock) {
        Ok(desk) => Some(desk.core().history().len()),
        Err(_refused) => None,
    }
}

/// The same with the first connections of a listener, over a new in-memory database Net.
fn serve_first<R: Threads + Wait + Clock + Sync>(
    rt: &R,
    alloc: Global,
    listener: &TcpListener,
    left: usize,
) -> Result<Option<usize>, Fail> {
    let desk = net_desk(alloc)?;
    let few = Few {
        alloc,
        listener,
        left,
    };
    Ok(serve_few(rt, alloc, desk, few))
}

/// After the first client was answered, the second sends a request and a stray bracket. It does not end, but its connection
/// is closed after the reply. The first is answered again.
const DAMAGED: &str = r#"1 sends {"id":0,"method":"list_dbs","params":[]}
1 reads {"error":null,"id":0,"result":["Net"]}
2 sends {"id":0,"method":"list_dbs","params":[]}]
2 reads {"error":null,"id":0,"result":["Net"]}
2 meets end
1 sends {"id":1,"method":"list_dbs","params":[]}
1 reads {"error":null,"id":1,"result":["Net"]}"#;

/// Follows this script, and then ends the first client. Both have ended afterwards, however the talk went, because serving
/// waits for that.
fn talk_and_end(alloc: Global, first: &TcpStream, second: &TcpStream) -> Option<()> {
    let talked = talk(alloc, first, second, DAMAGED);
    let ended = first.shutdown(Shutdown::Write).ok();
    let _ = second.shutdown(Shutdown::Both);
    talked?;
    ended?;
    meets_end(first)
}

/// Fails unless both have talked, the first asked twice and the second once, and each was opened and closed.
fn is_served(
    alloc: Global,
    entries: Result<Option<usize>, Fail>,
    talked: Option<()>,
) -> Result<(), Fail> {
    let entries = entries?;
    let told = format!(in alloc; "{entries:?} {}", talked.is_some())?;
    is_text(alloc, told.as_str(), "Some(7) true")
}

/// The same with clients that talk while they are served.
fn are_served<R: Threads + Wait + Clock + Sync>(
    rt: &R,
    alloc: Global,
    listener: &TcpListener,
    first: &TcpStream,
    second: &TcpStream,
) -> Result<(), Fail> {
    let (entries, talked) = thread::join(
        rt,
        move || serve_first(rt, alloc, listener, 2),
        move || talk_and_end(alloc, first, second),
    );
    is_served(alloc, entries, talked)
}

/// The same with new clients.
fn two_are_served<R>(rt: &R, alloc: Global, listener: &TcpListener) -> Result<(), Fail>
where
    R: Net<Listener = TcpListener, Stream = TcpStream> + Threads + Wait + Clock + Sync,
{
    let first = client_at(rt, listener)?;
    let second = client_at(rt, listener)?;
    are_served(rt, alloc, listener, &first, &second)
}

#[test]
fn one_is_closed_for_damage_while_another_stays(rt: HostRuntime) -> Result<(), Fail> {
    let listener = listen(&rt, "127.0.0.1:0")?;
    two_are_served(&rt, rt.alloc(), &listener)
}

/// How many connections come one after another.
const MANY: usize = 10_000;

/// How many have come at the first look at what the process has. The machine keeps the last 4,096 entries of its history, of
/// which each connection makes three, so by then it has as many as it keeps.
const EARLY: usize = 2_000;

/// How many more threads or descriptors there may be: those of the connection before may be there for a moment.
const SLACK: usize = 8;

/// How many more pages of memory there may be, of 4,096 bytes: half a page for each of the connections after the first look.
const SLACK_PAGES: usize = 4_000;

/// The number of names in a folder.
fn count_names<R: Files + Alloc + Clone + Drop>(rt: &R, path: &str) -> Option<usize> {
    let mut count: usize = 0;
    for entry in read_dir(rt, path).ok()? {
        let _entry = entry.ok()?;
        count = count.saturating_add(1);
    }
    Some(count)
}

/// How many pages of memory the process has.
fn count_pages<R: Files + Alloc + Clone + Drop>(rt: &R) -> Option<usize> {
    let text = read_to_string(rt, "/proc/self/statm").ok()?;
    text.as_str().split(" ").nth(1)?.parse::<usize>().ok()
}

/// How many threads, descriptors and pages of memory the process has.
#[derive(Clone, Copy, Drop)]
struct Held {
    threads: usize,
    descriptors: usize,
    pages: usize,
}

impl Held {
    /// What it has now.
    fn now<R: Files + Alloc + Clone + Drop>(rt: &R) -> Option<Held> {
        Some(Held {
            threads: count_names(rt, "/proc/self/task")?,
            descriptors: count_names(rt, "/proc/self/fd")?,
            pages: count_pages(rt)?,
        })
    }
}

/// By how much a number has grown, apart from this.
fn growth(before: usize, after: usize, slack: usize) -> usize {
    after.saturating_sub(before.saturating_add(slack))
}

/// An echo.
const ECHO: &str = r#"1 sends {"id":1,"method":"echo","params":["x"]}
1 reads {"error":null,"id":1,"result":["x"]}"#;

/// Connects, and has an echo answered.
fn visit<R>(rt: &R, alloc: Global, listener: &TcpListener) -> Option<()>
where
    R: Net<Listener = TcpListener, Stream = TcpStream>,
{
    let client = client_at(rt, listener).ok()?;
    talk(alloc, &client, &client, ECHO)
}

/// What many clients found that came one after another.
#[derive(Drop)]
struct Visits {
    answered: usize,
    early: Option<Held>,
    late: Option<Held>,
}

/// Has many clients come. All come, however they are answered, since serving waits for them.
fn visit_often<R>(rt: &R, alloc: Global, listener: &TcpListener) -> Visits
where
    R: Net<Listener = TcpListener, Stream = TcpStream> + Files + Alloc + Clone + Drop,
{
    let mut answered: usize = 0;
    let mut early = None;
    for number in 1..MANY + 1 {
        if visit(rt, alloc, listener).is_some() {
            answered = answered.saturating_add(1);
        }
        if number == EARLY {
            early = Held::now(rt);
        }
    }
    Visits {
        answered,
        early,
        late: Held::now(rt),
    }
}

/// Fails unless each client was answered, the history is full, and the process has no more threads, descriptors and memory
/// than at the first look, apart from the slack.
fn nothing_grows(
    alloc: Global,
    entries: Result<Option<usize>, Fail>,
    visits: Visits,
) -> Result<(), Fail> {
    let entries = entries?;
    let (Some(early), Some(late)) = (visits.early, visits.late) else {
        return Err("no look at the process")?;
    };
    let threads = growth(early.threads, late.threads, SLACK);
    let descriptors = growth(early.descriptors, late.descriptors, SLACK);
    let pages = growth(early.pages, late.pages, SLACK_PAGES);
    let told = format!(in alloc;
        "{entries:?} {} {threads} {descriptors} {pages}",
        visits.answered
    )?;
    is_text(alloc, told.as_str(), "Some(4096) 10000 0 0 0")
}

/// The same with clients that come while a lobby serves a listener.
fn many_are_served<R>(rt: &R, alloc: Global, listener: &TcpListener) -> Result<(), Fail>
where
    R: Net<Listener = TcpListener, Stream = TcpStream>
        + Threads
        + Wait
        + Clock
        + Files
        + Alloc
        + Clone
        + Drop
        + Sync,
{
    let (entries, visits) = thread::join(
        rt,
        move || serve_first(rt, alloc, listener, MANY),
        move || visit_often(rt, alloc, listener),
    );
    nothing_grows(alloc, entries, visits)
}

#[test]
fn many_come_one_after_another(rt: HostRuntime) -> Result<(), Fail> {
    let listener = listen(&rt, "127.0.0.1:0")?;
    many_are_served(&rt, rt.alloc(), &listener)
}
