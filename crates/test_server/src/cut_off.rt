//! Sessions whose input ends or fails after any number of bytes, whose writer stops after any number of bytes, and whose
//! requests are deeply nested.

use crate::made::made;
use crate::serve::{ALL, reader_of, tells, writer_of};
use std::alloc::{AllocError, Global};
use std::io::ErrorKind;
use std::sync::Wait;
use std::test::Fail;
use test_basics::{SlowReader, SlowWriter};

/// Requests, each with its reply.
const ASKED: [(&str, &str); 4] = [
    (
        r#"{"id":0,"method":"list_dbs","params":[]}"#,
        r#"{"error":null,"id":0,"result":["Net"]}"#,
    ),
    (
        r#"{"id":"x","method":"echo","params":["a\"}",{}]}"#,
        r#"{"error":null,"id":"x","result":["a\"}",{}]}"#,
    ),
    (
        r#"{"id":1,"method":"transact","params":["Net",{"op":"insert","table":"Switch","row":{"name":"s1"}}]}"#,
        r#"{"error":null,"id":1,"result":[{"uuid":["uuid","00000000-0000-4000-8000-000000000002"]}]}"#,
    ),
    (
        r#"{"id":2,"method":"transact","params":["Net",{"op":"select","table":"Switch","where":[]}]}"#,
        r#"{"error":null,"id":2,"result":[{"rows":[{"_uuid":["uuid","00000000-0000-4000-8000-000000000002"],"_version":["uuid","00000000-0000-4000-8000-000000000001"],"load":0,"main":["set",[]],"name":"s1","ports":["set",[]]}]}]}"#,
    ),
];

/// The requests, joined.
fn requests(alloc: Global) -> Result<String, AllocError> {
    let mut text = String::new(alloc);
    for (request, _) in ASKED {
        text.push_str(request)?;
    }
    Ok(text)
}

/// A cause, and the replies to the requests that end within the first `bytes` bytes.
fn told_of(alloc: Global, cause: &str, bytes: usize) -> Result<String, AllocError> {
    let mut told = format!(in alloc; "{cause} ")?;
    let mut end: usize = 0;
    for (request, reply) in ASKED {
        end = end.saturating_add(request.len());
        if end <= bytes {
            told.push_str(reply)?;
        }
    }
    Ok(told)
}

/// Fails unless a session that is given these first bytes of the requests is sent the replies to what is whole.
fn ends_after<H: Wait>(rt: &H, alloc: Global, first: &[u8]) -> Result<(), Fail> {
    let wanted = made(told_of(alloc, "InputEnded", first.len()))?;
    tells(
        rt,
        alloc,
        reader_of(first),
        writer_of(alloc),
        wanted.as_str(),
    )
}

#[test]
fn an_input_may_end_after_any_byte(rt: HostRuntime) -> Result<(), Fail> {
    let text = requests(rt.alloc())?;
    for place in 0..text.len() + 1 {
        ends_after(&rt, rt.alloc(), &text.as_bytes()[..place])?;
    }
    Ok(())
}

/// Fails unless a session whose reader gives one byte per call, and fails after `calls` calls, is sent the replies to what is
/// whole.
fn fails_after<H: Wait>(rt: &H, alloc: Global, rest: &[u8], calls: usize) -> Result<(), Fail> {
    let wanted = made(told_of(alloc, "ReadFault", calls))?;
    let reader = SlowReader {
        rest,
        most: 1,
        calls,
        error: ErrorKind::Other,
    };
    tells(rt, alloc, reader, writer_of(alloc), wanted.as_str())
}

#[test]
fn a_reader_may_fail_at_any_read(rt: HostRuntime) -> Result<(), Fail> {
    let text = requests(rt.alloc())?;
    for calls in 0..text.len() + 1 {
        fails_after(&rt, rt.alloc(), text.as_bytes(), calls)?;
    }
    Ok(())
}

/// A writer that takes one byte per call, and `left` bytes in all. Then it takes none, or fails.
fn short_writer(alloc: Global, left: usize, fails: bool) -> SlowWriter {
    SlowWriter {
        taken: Vec::new(alloc),
        most: 1,
        left,
        fails,
        flushes: true,
    }
}

/// Fails unless a session over that writer ends as this.
fn writes<H: Wait>(
    rt: &H,
    alloc: Global,
    left: usize,
    fails: bool,
    wanted: &str,
) -> Result<(), Fail> {
    let text = made(requests(alloc))?;
    tells(
        rt,
        alloc,
        reader_of(text.as_bytes()),
        short_writer(alloc, left, fails),
        wanted,
    )
}

/// All replies.
fn replies(alloc: Global) -> Result<String, AllocError> {
    let mut text = String::new(alloc);
    for (_, reply) in ASKED {
        text.push_str(reply)?;
    }
    Ok(text)
}

#[test]
fn a_writer_may_take_a_byte_at_a_time(rt: HostRuntime) -> Result<(), Fail> {
    let wanted = told_of(rt.alloc(), "InputEnded", ALL)?;
    writes(&rt, rt.alloc(), ALL, true, wanted.as_str())
}

/// What a session tells whose writer takes this number of bytes of all replies.
fn told_before(alloc: Global, left: usize) -> Result<String, AllocError> {
    let replies = replies(alloc)?;
    match replies.as_str().split_at_checked(left) {
        Some((first, _)) => format!(in alloc; "WriteFault {first}"),
        None => String::from_str(alloc, "no place"),
    }
}

/// Fails unless a writer that takes `left` bytes, and then none or fails, has taken the first bytes of all replies.
fn stops_after<H: Wait>(rt: &H, alloc: Global, left: usize, fails: bool) -> Result<(), Fail> {
    let wanted = made(told_before(alloc, left))?;
    writes(rt, alloc, left, fails, wanted.as_str())
}

#[test]
fn a_writer_may_stop_after_any_byte(rt: HostRuntime) -> Result<(), Fail> {
    let replies = replies(rt.alloc())?;
    for left in 0..replies.len() {
        stops_after(&rt, rt.alloc(), left, left % 2 == 0)?;
    }
    Ok(())
}

/// Arrays nested this many levels deep.
fn nest(alloc: Global, levels: usize) -> Result<String, AllocError> {
    let mut text = String::new(alloc);
    for bracket in ["[", "]"] {
        for _ in 0..levels {
            text.push_str(bracket)?;
        }
    }
    Ok(text)
}

/// A request, an echo of that, and another request.
fn echo_of(alloc: Global, levels: usize) -> Result<String, AllocError> {
    let nest = nest(alloc, levels)?;
    let (request, _) = ASKED[0];
    format!(in alloc; "{request}{{\"id\":1,\"method\":\"echo\",\"params\":{nest}}}{request}")
}

/// A cause, the reply to the request, and more.
fn told_with(alloc: Global, cause: &str, more: &str) -> Result<String, AllocError> {
    let (_, reply) = ASKED[0];
    format!(in alloc; "{cause} {reply}{more}")
}

/// Fails unless a session whose echo nests this deep is sent the reply to the first request, then `more`, and ends by `cause`.
fn echoes<H: Wait>(
    rt: &H,
    alloc: Global,
    levels: usize,
    cause: &str,
    more: &str,
) -> Result<(), Fail> {
    let text = made(echo_of(alloc, levels))?;
    let wanted = made(told_with(alloc, cause, more))?;
    tells(
        rt,
        alloc,
        reader_of(text.as_bytes()),
        writer_of(alloc),
        wanted.as_str(),
    )
}

/// The replies to an echo of this many arrays, and to the request after it.
fn deep_replies(alloc: Global, levels: usize) -> Result<String, AllocError> {
    let nest = nest(alloc, levels)?;
    let (_, reply) = ASKED[0];
    format!(in alloc;
        "{{\"error\":null,\"id\":1,\"result\":{nest}}}{reply}",
        nest = nest.as_str()
    )
}

#[test]
fn an_echo_may_nest_100_deep_and_not_200(rt: HostRuntime) -> Result<(), Fail> {
    let replies = deep_replies(rt.alloc(), 100)?;
    echoes(&rt, rt.alloc(), 100, "InputEnded", replies.as_str())?;
    echoes(&rt, rt.alloc(), 200, "Damaged", "")
}

/// With the message's own object these are 127 levels and 128.
#[test]
fn an_echo_may_nest_126_deep_and_not_127(rt: HostRuntime) -> Result<(), Fail> {
    let replies = deep_replies(rt.alloc(), 126)?;
    echoes(&rt, rt.alloc(), 126, "InputEnded", replies.as_str())?;
    echoes(&rt, rt.alloc(), 127, "Damaged", "")
}
