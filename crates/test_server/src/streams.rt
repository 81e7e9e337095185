use crate::made::{converses_as, tells_as};
use crate::server::converses;
use std::alloc::{AllocError, Global};
use std::test::Fail;

const LISTED: &str = r#">{"id":0,"method":"list_dbs","params":[]}
<{"error":null,"id":0,"result":["Net"]}"#;

const ECHOED: &str = r#">{"id":[1],"method":"echo","params":["a\"b}", {"c": -5}]}
<{"error":null,"id":[1],"result":["a\"b}",{"c":-5}]}"#;

#[test]
fn list_dbs_is_answered(rt: HostRuntime) -> Result<(), Fail> {
    converses(rt.alloc(), LISTED)
}

#[test]
fn echo_keeps_quotes(rt: HostRuntime) -> Result<(), Fail> {
    converses(rt.alloc(), ECHOED)
}

const CONVERSATION: &str =
    r#"{"id":0,"method":"list_dbs","params":[]}{"id":"x","method":"echo","params":["a\"}",{}]}{"id":1,"method":"transact","params":["Net",{"op":"insert","table":"Switch","row":{"name":"s1"}}]}{"id":2,"method":"transact","params":["Net",{"op":"select","table":"Switch","where":[]}]}"#;

const ANSWERED: &str =
    r#"{"error":null,"id":0,"result":["Net"]}{"error":null,"id":"x","result":["a\"}",{}]}{"error":null,"id":1,"result":[{"uuid":["uuid","00000000-0000-4000-8000-000000000002"]}]}{"error":null,"id":2,"result":[{"rows":[{"_uuid":["uuid","00000000-0000-4000-8000-000000000002"],"_version":["uuid","00000000-0000-4000-8000-000000000001"],"load":0,"main":["set",[]],"name":"s1","ports":["set",[]]}]}]}"#;

/// A conversation whose input comes in two pieces, cut at this place.
fn cut_at(alloc: Global, place: usize) -> Result<String, AllocError> {
    let (first, second) = CONVERSATION
        .split_at_checked(place)
        .unwrap_or(("no place", ""));
    format!(in alloc; ">{first}\n>{second}\n<{ANSWERED}")
}

/// Holds that conversation.
fn converses_cut_at(alloc: Global, place: usize) -> Result<(), Fail> {
    converses_as(alloc, cut_at(alloc, place))
}

#[test]
fn cut_at_every_place(rt: HostRuntime) -> Result<(), Fail> {
    for place in 0..CONVERSATION.len() + 1 {
        converses_cut_at(rt.alloc(), place)?;
    }
    Ok(())
}

/// Lines that send the input byte by byte.
fn bytes_of_input(alloc: Global) -> Result<String, AllocError> {
    let mut lines = String::new(alloc);
    for byte in CONVERSATION.chars() {
        lines.push_str(format!(in alloc; ">{byte}\n")?.as_str())?;
    }
    Ok(lines)
}

/// A conversation of these lines, in which nothing is sent after the replies.
fn cut_everywhere(alloc: Global) -> Result<String, AllocError> {
    let lines = bytes_of_input(alloc)?;
    format!(in alloc; "{lines}<{ANSWERED}\n<")
}

#[test]
fn answered_byte_by_byte(rt: HostRuntime) -> Result<(), Fail> {
    converses_as(rt.alloc(), cut_everywhere(rt.alloc()))
}

/// What is sent for an input, and how many entries the history then has: for damage, an unfinished message, a real in an id,
/// a request after one, an unknown method, a notification, malformed requests, a request, and nothing.
const SMALL: [&str; 9] = [
    r#">{"id":0,"method":"list_dbs","params":[]}] {"id":0,"method":"list_dbs","params":[]}
<{"error":null,"id":0,"result":["Net"]}
entries -> 3"#,
    r#">{"id":0,"method":"echo","params":[
<
entries -> 1"#,
    r#">{"id":1.5,"method":"echo","params":[]}
<
entries -> 2"#,
    r#">{"id":1.5}{"id":0,"method":"list_dbs","params":[]}
<
entries -> 2"#,
    r#">{"id":1,"method":"get_server_id","params":[]}
<{"error":"unknown method","id":1,"result":null}
entries -> 2"#,
    r#">{"id":null,"method":"list_dbs","params":[]}
<
entries -> 2"#,
    r#">{"id":1,"method":"echo"}{"id":2,"method":"echo","params":[0.5]}{"id":3,"result":true}
<{"error":"syntax error","id":1,"result":null}{"error":"reals not supported","id":2,"result":null}
entries -> 4"#,
    r#">{"id":0,"method":"list_dbs","params":[]}
<{"error":null,"id":0,"result":["Net"]}
entries -> 2"#,
    r#">
<
entries -> 1"#,
];

#[test]
fn small_inputs(rt: HostRuntime) -> Result<(), Fail> {
    for conversation in SMALL {
        converses(rt.alloc(), conversation)?;
    }
    Ok(())
}

/// A text of `count` letters.
fn letters(alloc: Global, count: usize) -> Result<String, AllocError> {
    match String::from_utf8(vec![in alloc; b'a'; count]?) {
        Ok(text) => Ok(text),
        Err(_) => String::from_str(alloc, "no text"),
    }
}

/// An echo of a text of `count` letters.
fn echo_of(alloc: Global, count: usize) -> Result<String, AllocError> {
    let text = letters(alloc, count)?;
    format!(in alloc; "{{\"id\":0,\"method\":\"echo\",\"params\":[\"{text}\"]}}")
}

/// The reply to that echo.
fn reply_of(alloc: Global, count: usize) -> Result<String, AllocError> {
    let text = letters(alloc, count)?;
    format!(in alloc; "{{\"error\":null,\"id\":0,\"result\":[\"{text}\"]}}")
}

/// The lengths of both in bytes.
fn lengths(alloc: Global, count: usize) -> Result<(usize, usize), AllocError> {
    let echo = echo_of(alloc, count)?.len();
    let reply = reply_of(alloc, count)?.len();
    Ok((echo, reply))
}

/// Both as a text.
fn lengths_text(alloc: Global, count: usize) -> Result<String, AllocError> {
    let lengths = lengths(alloc, count)?;
    format!(in alloc; "{lengths:?}")
}

/// A conversation in which an echo is answered.
fn answered(alloc: Global, count: usize) -> Result<String, AllocError> {
    let echo = echo_of(alloc, count)?;
    let reply = reply_of(alloc, count)?;
    format!(in alloc; ">{echo}\n<{reply}")
}

/// A conversation in which an echo is not answered, and closes the session.
fn unanswered(alloc: Global, count: usize) -> Result<String, AllocError> {
    let echo = echo_of(alloc, count)?;
    format!(in alloc; "entries -> 1\n>{echo}\n<\nentries -> 2")
}

/// A message of 1,048,576 bytes is answered, and one that is a byte longer closes the session.
#[test]
fn longest_message(rt: HostRuntime) -> Result<(), Fail> {
    let lengths = lengths_text(rt.alloc(), 1_048_538);
    tells_as(rt.alloc(), lengths, "(1048576, 1048573)")?;
    converses_as(rt.alloc(), answered(rt.alloc(), 1_048_538))?;
    converses_as(rt.alloc(), unanswered(rt.alloc(), 1_048_539))
}

/// What a closed session sends has no effect.
const OPENED_AGAIN: &str = r#"entries -> 1
tick -> true
entries -> 2
>{"id":0,
entries -> 2
finish -> true
entries -> 3
>"method":"list_dbs","params":[]}
entries -> 3
open -> true
entries -> 4
<"#;

#[test]
fn ended_and_opened_again(rt: HostRuntime) -> Result<(), Fail> {
    converses(rt.alloc(), OPENED_AGAIN)
}

/// What one of two sessions sends between the pieces of the other, even damage, does not affect the other.
const TWO_STREAMS: &str = r#"open -> true
>{"id":1,"method":
2>{"id":2,"meth
>"list_dbs","params":[]}
2>od":"list_dbs","params":[]}]
<{"error":null,"id":1,"result":["Net"]}
2<{"error":null,"id":2,"result":["Net"]}
entries -> 5
2>{"id":3,"method":"list_dbs","params":[]}
>{"id":4,"method":"list_dbs","params":[]}
2<
<{"error":null,"id":4,"result":["Net"]}
entries -> 6"#;

#[test]
fn two_streams_are_cut_apart(rt: HostRuntime) -> Result<(), Fail> {
    converses(rt.alloc(), TWO_STREAMS)
}
