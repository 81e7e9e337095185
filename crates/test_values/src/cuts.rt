ghost use Rattle.std.specs.Prelude.{◌+◌, ◌≤◌, length};

use ov_base::Bytes;
use ov_cut::{CutFault, Cutter, Fed};
use std::alloc::{AllocError, Global};
use std::test::Fail;
use test_basics::{Scripted, agrees, holds, is_text};

/// Three inputs in a row: of one message, of one with a brace in a literal, and of two.
const JOINED: &str =
    r#"{"id":0,"method":"list_dbs","params":[]}{"id":"x","method":"echo","params":["a\"}",{}]}{"id":1,"method":"transact","params":["Net",{"op":"insert","table":"Switch","row":{"name":"s1"}}]}{"id":2,"method":"transact","params":["Net",{"op":"select","table":"Switch","where":[]}]}"#;

/// The same, with a bar after each message.
const CUT: &str =
    r#"{"id":0,"method":"list_dbs","params":[]}|{"id":"x","method":"echo","params":["a\"}",{}]}|{"id":1,"method":"transact","params":["Net",{"op":"insert","table":"Switch","row":{"name":"s1"}}]}|{"id":2,"method":"transact","params":["Net",{"op":"select","table":"Switch","where":[]}]}|"#;

/// A brace in a literal, after an escaped quote, after an escaped backslash; white space before, between and after.
const BRACES: &str = r#"{"a":"}"} -> {"a":"}"}|None
{"a\"}":1} -> {"a\"}":1}|None
{"a\\":{}} -> {"a\\":{}}|None
 {} {"a":{}}  -> {}|{"a":{}}|None
rest"#;

/// A stray bracket is reported by its offset, whatever follows.
const STRAY: &str =
    r#"{"id":0,"method":"list_dbs","params":[]} -> {"id":0,"method":"list_dbs","params":[]}|None
] -> Some(Damaged(40))
{"id":1,"method":"list_dbs","params":[]} -> Some(Damaged(40))
 -> Some(Damaged(40))"#;

/// What does not end remains, even if nothing follows.
const UNFINISHED: &str = r#"{"id":0,"method":"echo","params":[ -> None
rest -> {"id":0,"method":"echo","params":[
 -> None
rest -> {"id":0,"method":"echo","params":["#;

/// A cutter and the messages that it returned, with a bar after each.
#[derive(Drop)]
struct Cut {
    cutter: Cutter,
    messages: String,
}

impl Cut {
    fn new(alloc: Global) -> Cut {
        Cut {
            cutter: Cutter::new(alloc),
            messages: String::new(alloc),
        }
    }

    /// Appends messages.
    fn put(&mut self, messages: &[Bytes]) -> Result<(), Fail> {
        for message in messages {
            self.messages.push_str(str::from_utf8(message.as_slice())?)?;
            self.messages.push_str("|")?;
        }
        Ok(())
    }

    /// Appends the messages of a piece and returns its fault.
    fn take(&mut self, fed: &Fed) -> Result<Option<CutFault>, Fail> {
        self.put(fed.messages.as_slice())?;
        Ok(fed.fault)
    }

    /// Feeds a piece.
    fn feed(&mut self, alloc: Global, piece: &[u8]) -> Result<Option<CutFault>, Fail> {
        let fed = self.cutter.feed(alloc, piece);
        self.take(&fed)
    }

    /// Whether the messages of all inputs were cut, and nothing is left.
    fn is_whole(&self) -> bool {
        self.messages.as_str() == CUT && self.cutter.rest().is_empty()
    }
}

/// The commands are pieces, answered with their messages and the fault. `rest` is answered with what is left.
impl Scripted for Cut {
    fn answer(&mut self, alloc: Global, command: &str) -> Result<String, Fail> {
        if command == "rest" {
            let rest = str::from_utf8(self.cutter.rest())?;
            return Ok(String::from_str(alloc, rest)?);
        }
        self.messages.clear();
        let fault = self.feed(alloc, command.as_bytes())?;
        Ok(format!(in alloc; "{}{fault:?}", self.messages.as_str())?)
    }
}

/// Whether all messages are cut when their bytes come in these two pieces.
fn is_cut_in_two(alloc: Global, cut: &mut Cut, first: &str, second: &str) -> Result<bool, Fail> {
    let is_good = cut.feed(alloc, first.as_bytes())?.is_none();
    let is_good_still = cut.feed(alloc, second.as_bytes())?.is_none();
    Ok(is_good && is_good_still && cut.is_whole())
}

/// Whether all messages are cut when their bytes come in two pieces.
fn is_cut_at(alloc: Global, place: usize) -> Result<bool, Fail> {
    let (first, second) = JOINED.split_at_checked(place).ok_or("no place")?;
    is_cut_in_two(alloc, &mut Cut::new(alloc), first, second)
}

/// The first place at which a split of the bytes in two does not give all messages.
fn first_uncut(alloc: Global) -> Result<Option<usize>, Fail> {
    for place in 0..=JOINED.len() {
        if !is_cut_at(alloc, place)? {
            return Ok(Some(place));
        }
    }
    Ok(None)
}

#[test]
fn joined_inputs_may_be_cut_at_any_place(rt: HostRuntime) -> Result<(), Fail> {
    let found = format!(in rt.alloc(); "{:?}", first_uncut(rt.alloc())?)?;
    is_text(rt.alloc(), found.as_str(), "None")
}

/// Whether all messages are cut when their bytes come one by one.
fn is_cut_by_bytes(alloc: Global, cut: &mut Cut) -> Result<bool, Fail> {
    for byte in JOINED.as_bytes() {
        if cut.feed(alloc, &[*byte])?.is_some() {
            return Ok(false);
        }
    }
    Ok(cut.is_whole())
}

#[test]
fn joined_inputs_may_come_byte_by_byte(rt: HostRuntime) -> Result<(), Fail> {
    let alloc = rt.alloc();
    let is_cut = is_cut_by_bytes(alloc, &mut Cut::new(alloc))?;
    holds(alloc, is_cut, "all messages are cut")
}

#[test]
fn a_message_ends_with_its_own_brace(rt: HostRuntime) -> Result<(), Fail> {
    agrees(rt.alloc(), Cut::new(rt.alloc()), BRACES)
}

#[test]
fn a_stray_bracket_is_told_by_its_offset_from_then_on(rt: HostRuntime) -> Result<(), Fail> {
    agrees(rt.alloc(), Cut::new(rt.alloc()), STRAY)
}

#[test]
fn an_unfinished_message_stays_the_rest(rt: HostRuntime) -> Result<(), Fail> {
    agrees(rt.alloc(), Cut::new(rt.alloc()), UNFINISHED)
}

/// An echo of a text of `letters` letters; it has 38 bytes more.
fn long_echo(alloc: Global, letters: usize) -> Result<Vec<u8>, AllocError> {
    let mut text = Vec::from_slice(alloc, b"{\"id\":0,\"method\":\"echo\",\"params\":[\"")?;
    text.extend_from_slice(&vec![in alloc; b'a'; letters]?)?;
    text.extend_from_slice(b"\"]}")?;
    Ok(text)
}

/// The number of messages of a text, whether the text is the only one, and the fault.
fn brought(alloc: Global, fed: &Fed, text: &[u8]) -> Result<String, Fail> {
    let count = fed.messages.len();
    let is_given = match fed.messages.as_slice() {
        [message] => message.as_slice() == text,
        _ => false,
    };
    Ok(format!(in alloc; "{count} {is_given} {:?}", fed.fault)?)
}

/// The same when the whole text comes at once.
fn brought_at_once(alloc: Global, text: &[u8]) -> Result<String, Fail> {
    let fed = Cutter::new(alloc).feed(alloc, text);
    brought(alloc, &fed, text)
}

/// The same for an echo of a text of `letters` letters.
fn brought_by_echo(alloc: Global, letters: usize) -> Result<String, Fail> {
    let text = long_echo(alloc, letters)?;
    brought_at_once(alloc, &text)
}

#[test]
fn the_longest_message_is_given(rt: HostRuntime) -> Result<(), Fail> {
    let found = brought_by_echo(rt.alloc(), 1_048_538)?;
    is_text(rt.alloc(), found.as_str(), "1 true None")
}

/// The last message that ends when the text comes byte by byte. Each byte is examined at most once, however many came before.
fn last_by_bytes(alloc: Global, cutter: &mut Cutter, text: &[u8]) -> Option<Bytes>
    ensures { cutter.new.looked ≤ cutter.old.looked + length text.now }
{
    let mut last = None;
    for byte in text {
        let mut fed = cutter.feed(alloc, &[*byte]);
        if let Some(message) = fed.messages.pop() {
            last = Some(message);
        }
    }
    last
}

/// Whether a text that comes byte by byte is returned, and nothing is left.
fn is_given_by_bytes(alloc: Global, cutter: &mut Cutter, text: &[u8]) -> bool {
    match last_by_bytes(alloc, cutter, text) {
        Some(message) => message.as_slice() == text && cutter.rest().is_empty(),
        None => false,
    }
}

/// The same for the longest message.
fn is_longest_given(alloc: Global) -> Result<bool, AllocError> {
    let text = long_echo(alloc, 1_048_538)?;
    Ok(is_given_by_bytes(alloc, &mut Cutter::new(alloc), &text))
}

#[test]
fn the_longest_message_may_come_byte_by_byte(rt: HostRuntime) -> Result<(), Fail> {
    let is_given = is_longest_given(rt.alloc())?;
    holds(
        rt.alloc(),
        is_given,
        "the longest message is given, and nothing is left",
    )
}

#[test]
fn a_byte_more_is_too_long(rt: HostRuntime) -> Result<(), Fail> {
    let found = brought_by_echo(rt.alloc(), 1_048_539)?;
    is_text(rt.alloc(), found.as_str(), "0 false Some(TooLong)")
}

/// The first 1,048,576 bytes of an echo.
fn long_beginning(alloc: Global) -> Result<Vec<u8>, AllocError> {
    let mut text = Vec::from_slice(alloc, b"{\"id\":0,\"method\":\"echo\",\"params\":[\"")?;
    text.extend_from_slice(&vec![in alloc; b'a'; 1_048_541]?)?;
    Ok(text)
}

/// The fault of a piece, and the number of bytes left.
fn fault_and_rest(alloc: Global, cutter: &mut Cutter, piece: &[u8]) -> Result<String, Fail> {
    let fault = cutter.feed(alloc, piece).fault;
    Ok(format!(in alloc; "{fault:?} {}", cutter.rest().len())?)
}

/// Fails unless the beginning is left and one more byte is too long.
fn is_full(alloc: Global, cutter: &mut Cutter, beginning: &[u8]) -> Result<(), Fail> {
    let found = fault_and_rest(alloc, cutter, beginning)?;
    is_text(alloc, found.as_str(), "None 1048576")?;
    let found = fault_and_rest(alloc, cutter, b"a")?;
    is_text(alloc, found.as_str(), "Some(TooLong) 0")
}

#[test]
fn an_unfinished_message_may_be_too_long(rt: HostRuntime) -> Result<(), Fail> {
    let alloc = rt.alloc();
    let text = long_beginning(alloc)?;
    is_full(alloc, &mut Cutter::new(alloc), &text)
}

/// Fails unless a text yields no message and is damaged at its first byte.
fn is_damage(alloc: Global, text: &[u8]) -> Result<(), Fail> {
    let found = brought_at_once(alloc, text)?;
    is_text(alloc, found.as_str(), "0 false Some(Damaged(0))")
}

#[test]
fn a_byte_order_mark_is_damage_and_so_is_a_closing_brace(rt: HostRuntime) -> Result<(), Fail> {
    is_damage(rt.alloc(), b"\xEF\xBB\xBF{}")?;
    is_damage(rt.alloc(), b"}{")
}

/// Fails unless a fault has this sentence.
fn has_sentence(alloc: Global, fault: CutFault, sentence: &str) -> Result<(), Fail> {
    let found = fault.to_string(alloc)?;
    is_text(alloc, found.as_str(), sentence)
}

#[test]
fn each_fault_has_a_sentence(rt: HostRuntime) -> Result<(), Fail> {
    let alloc = rt.alloc();
    has_sentence(
        alloc,
        CutFault::Damaged(40),
        "byte 40 of the stream begins no message",
    )?;
    has_sentence(
        alloc,
        CutFault::TooLong,
        "a message has more than 1048576 bytes",
    )?;
    has_sentence(
        alloc,
        CutFault::Memory,
        "no memory is left for the next message",
    )
}
