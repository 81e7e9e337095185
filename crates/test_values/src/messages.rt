use ov_base::{Bytes, Text, Tree, Trees};
use ov_rpc::{BadKind, Incoming, Message, MessageText, Received, RpcFault, reply};
use std::alloc::{AllocError, Global};
use std::test::Fail;
use test_basics::{Scripted, agrees, compact, is_text};

/// An id of any kind but null makes a call.
const IDS: &str = r#"0 -> call 0 m []
-7 -> call -7 m []
9223372036854775807 -> call 9223372036854775807 m []
-9223372036854775808 -> call -9223372036854775808 m []
"a" -> call "a" m []
"" -> call "" m []
true -> call true m []
false -> call false m []
[1, "b"] -> call [1,"b"] m []
{"b": 2, "a": [null]} -> call {"a":[null],"b":2} m []
null -> notification m []"#;

/// A number in an id is an integer of 64 bits.
const NUMBERS_OF_IDS: &str = r#"1.5 -> unreadable
1.0 -> unreadable
1e3 -> unreadable
-0 -> unreadable
9223372036854775808 -> unreadable
-9223372036854775809 -> unreadable
[0, 0.5] -> unreadable
{"a": {"b": 1e0}} -> unreadable"#;

/// An escaped quote; no id; an escaped name and a pair of surrogates; the greatest number; a result beside a method.
const MEMBERS: &str = r#"{"id":0,"method":"echo","params":["a\"b}"]} -> call 0 echo ["a\"b}"]
{"method":"m","params":[1]} -> notification m [1]
{"\u0069d":1,"method":"\ud83d\ude00","params":[]} -> call 1 😀 []
{"id":1,"method":"m","params":[9223372036854775807]} -> call 1 m [9223372036854775807]
{"id":1,"method":"m","params":[],"result":1} -> call 1 m []"#;

/// Of several members with the same name, the last counts.
const REPEATED: &str =
    r#"{"id":1.5,"method":7,"params":{},"id":2,"method":"m","params":[]} -> call 2 m []
{"id":2,"method":"m","params":[],"id":null} -> notification m []"#;

/// A malformed request is reported to the client that asked. A method that is not a text is still a method, so a result
/// beside it makes no answer. In the last six, nobody asked.
const BUILT_WRONG: &str = r#"{"id":1,"params":[]} -> bad 1 syntax
{"id":1,"method":"m"} -> bad 1 syntax
{"id":1,"method":7,"params":[]} -> bad 1 syntax
{"id":["a"],"method":"m","params":{}} -> bad ["a"] syntax
{"id":1,"method":null,"params":[],"result":0} -> bad 1 syntax
{"id":1,"method":2,"result":1} -> bad 1 syntax
{"method":7,"params":[]} -> answer
{"id":null,"method":"m","params":null} -> answer
{"id":null,"params":[]} -> answer
{"method":"m"} -> answer
{} -> answer
[] -> answer"#;

/// A result or an error without a method is an answer.
const ANSWERS: &str = r#"{"id":1,"result":[],"error":null} -> answer
{"id":1,"result":[]} -> answer
{"id":1,"error":null} -> answer
{"error":"x"} -> answer
{"id":1,"result":null,"params":[]} -> answer"#;

/// A real outside the id is reported to the client that asked, even if the text is malformed or is an answer; a real in the
/// id comes first. A later member of the same name replaces it.
const REALS: &str = r#"{"id":1,"method":"m","params":[0.5]} -> bad 1 reals
{"id":1,"method":"m","params":[{"a":[-0]}]} -> bad 1 reals
{"id":1,"method":"m","params":[9223372036854775808]} -> bad 1 reals
{"id":"a","method":"m","params":[],"x":1e0} -> bad "a" reals
{"id":1,"params":0.5} -> bad 1 reals
{"id":1,"result":0.5} -> bad 1 reals
{"id":1.5,"method":"m","params":[1.5]} -> unreadable
{"error":1.5} -> answer
{"method":"m","params":[0.5]} -> answer
{"id":null,"method":"m","params":[0.5]} -> answer
[0.5] -> answer
{"id":1,"method":"m","params":[0.5],"params":[]} -> call 1 m []"#;

/// Texts that are not JSON: nothing, a name without a value, a number that can't be read, trailing text, an extra comma,
/// unpaired surrogates.
const NO_JSON: &str = r#" -> unreadable
{"id"} -> unreadable
{"id":1,"method":"m","params":[1e999]} -> unreadable
{"id":1,"method":"m","params":[]}{} -> unreadable
{"id":1,"method":"m","params":[],} -> unreadable
{"id":1,"method":"m","params":["\ud800"]} -> unreadable
{"id":1,"method":"m","params":["\udc00\ud800"]} -> unreadable"#;

/// An echo is taken in as the frame of its reply, every other message as the message.
const TAKEN_IN: &str =
    r#"{"id":1,"method":"echo","params":[1,2,3,10]} -> echo {"error":null,"id":1,"result":[1,2,3,10]}
{"params": [{"b":[],"a":null}], "method": "echo", "id": "x"} -> echo {"error":null,"id":"x","result":[{"a":null,"b":[]}]}
{"id":1,"method":"echo","params":[]} -> echo {"error":null,"id":1,"result":[]}
{"id":1,"method":"echo2","params":[1]} -> call 1 echo2 [1]
{"id":1,"method":"lock","params":["l"]} -> call 1 lock ["l"]
{"method":"echo","params":[1]} -> notification echo [1]
{"id":1,"method":"echo"} -> bad 1 syntax
{"id":1,"method":"echo","params":[0.5]} -> bad 1 reals
{"id":1,"result":[],"error":null} -> answer"#;

/// The message of a text in words: `call ID METHOD PARAMS`, `notification METHOD PARAMS`, `answer`, `bad ID KIND` or
/// `unreadable`.
fn words(alloc: Global, text: &[u8]) -> Result<String, Fail> {
    match Message::read(alloc, text) {
        Ok(message) => words_of(alloc, &message),
        Err(RpcFault::Unreadable) => Ok(String::from_str(alloc, "unreadable")?),
        Err(RpcFault::Memory) => Err(Fail::new("out of memory")),
    }
}

fn words_of(alloc: Global, message: &Message) -> Result<String, Fail> {
    match message {
        Message::Call { id, method, params } => words_of_call(alloc, id, method, params),
        Message::Notification { method, params } => words_of_notification(alloc, method, params),
        Message::Answer => Ok(String::from_str(alloc, "answer")?),
        Message::Bad { id, kind } => words_of_bad(alloc, id, kind),
    }
}

fn words_of_call(alloc: Global, id: &Tree, method: &Text, params: &Trees) -> Result<String, Fail> {
    let id = compact(alloc, id)?;
    let request = request(alloc, method, params)?;
    Ok(format!(in alloc; "call {id} {request}")?)
}

fn words_of_notification(alloc: Global, method: &Text, params: &Trees) -> Result<String, Fail> {
    let request = request(alloc, method, params)?;
    Ok(format!(in alloc; "notification {request}")?)
}

fn words_of_bad(alloc: Global, id: &Tree, kind: &BadKind) -> Result<String, Fail> {
    let id = compact(alloc, id)?;
    let kind = match kind {
        BadKind::Syntax => "syntax",
        BadKind::Reals => "reals",
    };
    Ok(format!(in alloc; "bad {id} {kind}")?)
}

/// The compact text of parameters.
fn text_of_params(alloc: Global, params: &Trees) -> Result<String, Fail> {
    let tree = params.copy_as_tree(alloc)?;
    compact(alloc, &tree)
}

fn request(alloc: Global, method: &Text, params: &Trees) -> Result<String, Fail> {
    let params = text_of_params(alloc, params)?;
    Ok(format!(in alloc; "{} {params}", method.as_str())?)
}

/// The commands are texts of messages, or ids of calls.
#[derive(Drop)]
struct Messages {
    are_ids: bool,
}

impl Scripted for Messages {
    fn answer(&mut self, alloc: Global, command: &str) -> Result<String, Fail> {
        if !self.are_ids {
            return words(alloc, command.as_bytes());
        }
        let text = format!(in alloc; "{{\"id\":{command},\"method\":\"m\",\"params\":[]}}")?;
        words(alloc, text.as_bytes())
    }
}

/// The commands are texts of messages.
#[derive(Drop)]
struct Incomings;

/// What the bytes of a reply are in words.
fn words_of_echo(alloc: Global, frame: &Bytes) -> Result<String, Fail> {
    let frame = str::from_utf8(frame.as_slice())?;
    Ok(format!(in alloc; "echo {frame}")?)
}

/// What was taken in, in words. Fails unless the text that was kept is the one that came.
fn words_of_taken(
    alloc: Global,
    incoming: &Incoming,
    kept: &MessageText,
    text: &str,
) -> Result<String, Fail> {
    is_text(alloc, str::from_utf8(kept.as_slice())?, text)?;
    match incoming {
        Incoming::Echo(frame) => words_of_echo(alloc, frame),
        Incoming::Message(message) => words_of(alloc, message),
    }
}

impl Scripted for Incomings {
    fn answer(&mut self, alloc: Global, command: &str) -> Result<String, Fail> {
        let text = Bytes::from_slice(alloc, command.as_bytes())?;
        let (incoming, text) = Received::read(alloc, text)?.into_parts();
        words_of_taken(alloc, &incoming, &text, command)
    }
}

#[test]
fn an_echo_is_taken_in_as_its_reply(rt: HostRuntime) -> Result<(), Fail> {
    agrees(rt.alloc(), Incomings, TAKEN_IN)
}

/// Runs a script of texts of messages.
fn are_read(rt: &HostRuntime, script: &str) -> Result<(), Fail> {
    agrees(rt.alloc(), Messages { are_ids: false }, script)
}

#[test]
fn an_id_of_any_kind_but_null_makes_a_call(rt: HostRuntime) -> Result<(), Fail> {
    agrees(rt.alloc(), Messages { are_ids: true }, IDS)
}

#[test]
fn a_number_in_an_id_is_an_integer_of_64_bits(rt: HostRuntime) -> Result<(), Fail> {
    agrees(rt.alloc(), Messages { are_ids: true }, NUMBERS_OF_IDS)
}

#[test]
fn a_text_is_read_as_its_members_say(rt: HostRuntime) -> Result<(), Fail> {
    are_read(&rt, MEMBERS)
}

#[test]
fn white_space_and_order_and_unknown_members_mean_nothing(rt: HostRuntime) -> Result<(), Fail> {
    let text =
        b" {\n\t\"params\" : [ ] ,\r \"x\" : {} , \"method\" : \"m\" , \"id\" : 1 } ".as_slice();
    let found = words(rt.alloc(), text)?;
    is_text(rt.alloc(), found.as_str(), "call 1 m []")
}

#[test]
fn the_last_of_several_members_of_one_name_counts(rt: HostRuntime) -> Result<(), Fail> {
    are_read(&rt, REPEATED)
}

#[test]
fn a_request_that_is_built_wrong_is_told_to_who_asked(rt: HostRuntime) -> Result<(), Fail> {
    are_read(&rt, BUILT_WRONG)
}

#[test]
fn a_result_or_an_error_without_a_method_is_an_answer(rt: HostRuntime) -> Result<(), Fail> {
    are_read(&rt, ANSWERS)
}

#[test]
fn a_real_outside_the_id_is_told_to_who_asked(rt: HostRuntime) -> Result<(), Fail> {
    are_read(&rt, REALS)
}

#[test]
fn a_text_that_is_no_json_is_unreadable(rt: HostRuntime) -> Result<(), Fail> {
    are_read(&rt, NO_JSON)
}

/// Bytes in a literal that are not UTF-8.
const NOT_UTF8: &str = "a byte of none -> unreadable
a zero in two bytes -> unreadable
a surrogate -> unreadable
beyond the last -> unreadable
a part -> unreadable";

/// The bytes for these words.
fn bytes_of(words: &str) -> &'static [u8] {
    match words {
        "a byte of none" => b"\xff",
        "a zero in two bytes" => b"\xc0\x80",
        "a surrogate" => b"\xed\xa0\x80",
        "beyond the last" => b"\xf4\x90\x80\x80",
        _ => b"\xe2\x82",
    }
}

/// A text with these bytes in a literal.
fn text_with(alloc: Global, inside: &[u8]) -> Result<Vec<u8>, AllocError> {
    let mut text = Vec::from_slice(alloc, b"{\"id\":1,\"method\":\"m\",\"params\":[\"")?;
    text.extend_from_slice(inside)?;
    text.extend_from_slice(b"\"]}")?;
    Ok(text)
}

/// The commands are words for bytes in a literal.
#[derive(Drop)]
struct Literals;

impl Scripted for Literals {
    fn answer(&mut self, alloc: Global, command: &str) -> Result<String, Fail> {
        let text = text_with(alloc, bytes_of(command))?;
        words(alloc, &text)
    }
}

#[test]
fn a_text_that_is_not_utf8_is_unreadable(rt: HostRuntime) -> Result<(), Fail> {
    agrees(rt.alloc(), Literals, NOT_UTF8)
}

/// How many levels of arrays or objects the first parameter of a call has, and whether the call is read.
const NESTED: &str = "array 1 -> true
array 125 -> true
array 126 -> false
array 5000 -> false
object 1 -> true
object 125 -> true
object 126 -> false
object 5000 -> false";

/// Appends `times` copies of a piece to a text.
fn put_times(text: &mut Vec<u8>, times: u32, piece: &[u8]) -> Result<(), AllocError> {
    for _ in 0..times {
        text.extend_from_slice(piece)?;
    }
    Ok(())
}

/// Appends a value of `levels` levels to a text: an `open` for each, then as many of `close`.
fn put_nest(text: &mut Vec<u8>, levels: u32, open: &[u8], close: &[u8]) -> Result<(), AllocError> {
    put_times(text, levels, open)?;
    text.extend_from_slice(b"1")?;
    put_times(text, levels, close)?;
    text.extend_from_slice(b"]}")?;
    Ok(())
}

/// A call whose first parameter has `levels` levels.
fn deep_call(alloc: Global, levels: u32, open: &[u8], close: &[u8]) -> Result<Vec<u8>, AllocError> {
    let mut text = Vec::from_slice(alloc, b"{\"id\":1,\"method\":\"m\",\"params\":[")?;
    put_nest(&mut text, levels, open, close)?;
    Ok(text)
}

/// Whether such a call is read.
fn is_deep_call_read(alloc: Global, levels: u32, open: &[u8], close: &[u8]) -> Result<bool, Fail> {
    let text = deep_call(alloc, levels, open, close)?;
    let words = words(alloc, &text)?;
    Ok(words.as_str() != "unreadable")
}

/// The same for arrays or objects.
fn is_nest_read(alloc: Global, kind: &str, levels: u32) -> Result<bool, Fail> {
    match kind {
        "array" => is_deep_call_read(alloc, levels, b"[", b"]"),
        _ => is_deep_call_read(alloc, levels, b"{\"a\":", b"}"),
    }
}

/// The same, as a text.
fn text_of_nest(alloc: Global, kind: &str, levels: u32) -> Result<String, Fail> {
    let is_read = is_nest_read(alloc, kind, levels)?;
    Ok(format!(in alloc; "{is_read}")?)
}

/// The commands are a kind followed by a number of levels.
#[derive(Drop)]
struct Nests;

impl Scripted for Nests {
    fn answer(&mut self, alloc: Global, command: &str) -> Result<String, Fail> {
        let (kind, levels) = command.split_once(" ").ok_or("no levels")?;
        text_of_nest(alloc, kind, levels.parse::<u32>()?)
    }
}

#[test]
fn nesting_ends_at_127_levels_with_the_message_and_its_params(rt: HostRuntime) -> Result<(), Fail> {
    agrees(rt.alloc(), Nests, NESTED)
}

/// A call of one mebibyte.
fn long_call(alloc: Global) -> Result<Vec<u8>, AllocError> {
    let mut text = Vec::from_slice(alloc, b"{\"id\":1,\"method\":\"echo\",\"params\":[0")?;
    put_times(&mut text, 349_513, b",12")?;
    text.extend_from_slice(b"]}")?;
    Ok(text)
}

/// How many bytes a reply has.
fn length_of_reply(alloc: Global, id: Tree, params: Trees) -> Result<usize, Fail> {
    let frame = reply(alloc, id, params.into_tree())?;
    Ok(frame.as_slice().len())
}

/// How many bytes the echo of a call has.
fn length_of_echo(alloc: Global, text: &[u8]) -> Result<usize, Fail> {
    match Message::read(alloc, text)? {
        Message::Call { id, params, .. } => length_of_reply(alloc, id, params),
        _ => Err(Fail::new("no call")),
    }
}

/// How many bytes a call and its echo have.
fn lengths_of(alloc: Global, text: &[u8]) -> Result<String, Fail> {
    let echo = length_of_echo(alloc, text)?;
    Ok(format!(in alloc; "{} {echo}", text.len())?)
}

/// The same for the call of one mebibyte.
fn lengths(alloc: Global) -> Result<String, Fail> {
    let text = long_call(alloc)?;
    lengths_of(alloc, &text)
}

#[test]
fn a_call_of_a_mebibyte_is_echoed(rt: HostRuntime) -> Result<(), Fail> {
    let found = lengths(rt.alloc())?;
    is_text(rt.alloc(), found.as_str(), "1048576 1048573")
}

/// Fails unless a fault has this sentence.
fn has_sentence(alloc: Global, fault: RpcFault, sentence: &str) -> Result<(), Fail> {
    let found = format!(in alloc; "{fault}")?;
    is_text(alloc, found.as_str(), sentence)
}

#[test]
fn a_fault_is_told_in_words(rt: HostRuntime) -> Result<(), Fail> {
    has_sentence(rt.alloc(), RpcFault::Unreadable, "the text is no message")?;
    has_sentence(rt.alloc(), RpcFault::Memory, "out of memory")
}
