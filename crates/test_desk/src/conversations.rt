//! Clients of a desk, with a line for each: its serial, why its session was closed, and what it was written.

use crate::clients::{ALL, Client, client_of};
use crate::desks::{converse, conversed};
use crate::holding::{Holds, Mark, NO_HOLDS};
use crate::told::push;
use ov_workers::Point;
use std::alloc::{AllocError, Global};
use std::rt::Clock;
use std::sync::Wait;
use std::test::Fail;
use std::thread::Threads;
use test_basics::holds;

const LIST: &str = r#"{"id":0,"method":"list_dbs","params":[]}"#;

/// The first time that the first client's reader brings an item.
const FIRST_BRINGS: Mark = Mark {
    serial: 1,
    point: Point::BeforePush,
    times: 1,
};

/// The first time that the first client's writer writes a frame.
const FIRST_WRITES: Mark = Mark {
    serial: 1,
    point: Point::BeforeWrite,
    times: 1,
};

/// The first time that the second client's reader brings an item.
const SECOND_BRINGS: Mark = Mark {
    serial: 2,
    point: Point::BeforePush,
    times: 1,
};

/// The first time that the second client's writer writes a frame.
const SECOND_WRITES: Mark = Mark {
    serial: 2,
    point: Point::BeforeWrite,
    times: 1,
};

/// Each reader is held up before its message until the other has reached its own, and each writer before its frame.
const MEETING: Holds = [
    Some((FIRST_BRINGS, SECOND_BRINGS)),
    Some((SECOND_BRINGS, FIRST_BRINGS)),
    Some((FIRST_WRITES, SECOND_WRITES)),
    Some((SECOND_WRITES, FIRST_WRITES)),
];

const MET: &str = r#"1 InputEnded {"error":null,"id":0,"result":["Net"]}
2 InputEnded {"error":null,"id":0,"result":["Net"]}
"#;

#[test]
fn sessions_at_the_same_time(rt: HostRuntime) -> Result<(), Fail> {
    let clients = [client_of(LIST), client_of(LIST)];
    conversed(&rt, rt.alloc(), MEETING, &clients, MET)
}

/// Waits for a row that never comes, and ends after the reply.
const WAITING: &str =
    r#"{"id":1,"method":"transact","params":["Net",{"op":"wait","table":"Switch","timeout":50,"where":[["name","==","s9"]],"columns":["name"],"until":"==","rows":[{"name":"s9"}]}]}
after 1 frame 1"#;

const TIMED_OUT: &str = r#"1 InputEnded {"error":null,"id":1,"result":[{"error":"timed out"}]}
"#;

#[test]
fn ticks_are_given(rt: HostRuntime) -> Result<(), Fail> {
    conversed(&rt, rt.alloc(), NO_HOLDS, &[client_of(WAITING)], TIMED_OUT)
}

/// Owns the lock, and gives it up once the other client has been told to wait.
const OWNER: &str = r#"{"id":1,"method":"lock","params":["L"]}
after 2 frame 1
{"id":2,"method":"unlock","params":["L"]}"#;

/// Asks for the lock once it has an owner, and ends at its second frame.
const WAITER: &str = r#"after 1 frame 1
{"id":1,"method":"lock","params":["L"]}
after 2 frame 2"#;

const GIVEN_ON: &str =
    r#"1 InputEnded {"error":null,"id":1,"result":{"locked":true}}{"error":null,"id":2,"result":{}}
2 InputEnded {"error":null,"id":1,"result":{"locked":false}}{"id":null,"method":"locked","params":["L"]}
"#;

#[test]
fn a_lock_is_given_on(rt: HostRuntime) -> Result<(), Fail> {
    let clients = [client_of(OWNER), client_of(WAITER)];
    conversed(&rt, rt.alloc(), NO_HOLDS, &clients, GIVEN_ON)
}

/// The third read fails.
const FAILING: &str = r#"{"id":1,"method":"echo","params":["a"]}
{"id":2,"method":"echo","params":[]}{"id":3,"method":
fail"#;

/// What follows the first message is no message.
const DAMAGED: &str =
    r#"{"id":0,"method":"list_dbs","params":[]}] {"id":1,"method":"list_dbs","params":[]}"#;

const ENDED_BADLY: &str =
    r#"1 ReadFault {"error":null,"id":1,"result":["a"]}{"error":null,"id":2,"result":[]}
2 Damaged {"error":null,"id":0,"result":["Net"]}
3 InputEnded {"error":null,"id":0,"result":["Net"]}
"#;

#[test]
fn what_came_before_a_bad_end_is_answered(rt: HostRuntime) -> Result<(), Fail> {
    let clients = [client_of(FAILING), client_of(DAMAGED), client_of(LIST)];
    conversed(&rt, rt.alloc(), NO_HOLDS, &clients, ENDED_BADLY)
}

/// The first writer takes everything, byte by byte, and the second takes twenty bytes.
const CUT: &str = r#"1 InputEnded {"error":null,"id":0,"result":["Net"]}
2 WriteFault {"error":null,"id":0
"#;

/// A client that asks for the list, and whose writer takes one byte at a time, `left` bytes in all.
fn slow_client(left: usize) -> Client<'static> {
    Client {
        script: LIST,
        most: 1,
        left,
    }
}

#[test]
fn writers_take_byte_by_byte(rt: HostRuntime) -> Result<(), Fail> {
    let clients = [slow_client(ALL), slow_client(20)];
    conversed(&rt, rt.alloc(), NO_HOLDS, &clients, CUT)
}

/// `count` texts with a number in the middle, counted from 0.
fn numbered(alloc: Global, count: u64, before: &str, after: &str) -> Result<String, AllocError> {
    let mut text = String::new(alloc);
    for number in 0..count {
        push(&mut text, format!(in alloc; "{before}{number}{after}"))?;
    }
    Ok(text)
}

/// `count` calls of `echo`, with ids from 0 on.
fn echoes(alloc: Global, count: u64) -> Result<String, AllocError> {
    let after = ",\"method\":\"echo\",\"params\":[]}";
    numbered(alloc, count, "{\"id\":", after)
}

/// What two clients are written if the first is overrun after `count` replies.
fn overrun(alloc: Global, count: u64) -> Result<String, AllocError> {
    let replies = numbered(alloc, count, "{\"error\":null,\"id\":", ",\"result\":[]}")?;
    let beside = r#"{"error":null,"id":0,"result":["Net"]}"#;
    format!(in alloc; "1 Overrun {replies}\n2 InputEnded {beside}\n")
}

/// Whether the two clients were written this.
fn is_overrun(alloc: Global, told: &str, count: u64) -> Result<bool, AllocError> {
    let wanted = overrun(alloc, count)?;
    Ok(told == wanted.as_str())
}

/// Fails unless the two clients were written this for 1,024 replies, or for one more.
fn tells_overrun(alloc: Global, told: &str) -> Result<(), Fail> {
    let is_so = is_overrun(alloc, told, 1_024)? || is_overrun(alloc, told, 1_025)?;
    let what = format!(in alloc; "overrun, in {} bytes", told.len())?;
    holds(alloc, is_so, what.as_str())
}

/// The reader of 1,100 echoes has reached their end.
const ALL_BROUGHT: Mark = Mark {
    serial: 1,
    point: Point::BeforePush,
    times: 1_101,
};

/// The first client's writer is held up until its reader has reached the end.
const SLOW: Holds = [Some((FIRST_WRITES, ALL_BROUGHT)), None, None, None];

/// Holds up the writer of a client until its reader has reached the end of 1,100 echoes. Another client is served meanwhile.
fn is_overrun_by<R: Threads + Wait + Clock + Sync>(
    rt: &R,
    alloc: Global,
    script: &str,
) -> Result<(), Fail> {
    let clients = [client_of(script), client_of(LIST)];
    let told = converse(rt, alloc, SLOW, &clients)?;
    tells_overrun(alloc, told.as_str())
}

/// When the reader reaches the end, all but 64 echoes have been taken. The writer's ring has room for 1,024 frames, and the
/// writer may have taken one more before it was held up.
#[test]
fn a_writer_that_is_slow_is_overrun(rt: HostRuntime) -> Result<(), Fail> {
    let script = echoes(rt.alloc(), 1_100)?;
    is_overrun_by(&rt, rt.alloc(), script.as_str())
}

#[test]
fn no_links_and_too_many(rt: HostRuntime) -> Result<(), Fail> {
    conversed(&rt, rt.alloc(), NO_HOLDS, &[], "")?;
    conversed(
        &rt,
        rt.alloc(),
        NO_HOLDS,
        &[client_of(LIST); 65],
        "TooMany 65 0",
    )
}
