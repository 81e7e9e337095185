use ov_base::Bytes;
use ov_core::{Session, Stepped};
use ov_rpc::Received;
use std::alloc::Global;
use std::test::Fail;

/// The session of a serial. Its key is not known here, and the machine goes by serials.
pub(crate) fn session_of(serial: u64) -> Session {
    Session { key: 0, serial }
}

/// The text of a number.
pub(crate) fn number_text(alloc: Global, number: u64) -> Result<String, Fail> {
    Ok(format!(in alloc; "{number}")?)
}

/// The text of a number, or `none`.
pub(crate) fn number_or_none(alloc: Global, number: Option<u64>) -> Result<String, Fail> {
    match number {
        Some(number) => number_text(alloc, number),
        None => Ok(String::from_str(alloc, "none")?),
    }
}

/// The parts of a text before and after its first space; the second is empty if it has none.
pub(crate) fn parts_of(text: &str) -> (&str, &str) {
    text.split_once(" ").unwrap_or((text, ""))
}

/// The text of a frame, or of several.
pub(crate) fn text_of_frame(frame: Bytes) -> Result<String, Fail> {
    Ok(String::from_utf8(frame.into_vec())?)
}

/// The message of a text.
pub(crate) fn received(alloc: Global, text: &str) -> Result<Received, Fail> {
    Ok(Received::read(alloc, Bytes::from_slice(alloc, text.as_bytes())?)?)
}

/// Adds a text. No caller keeps it, which makes their proofs smaller.
pub(crate) fn push(text: &mut String, more: Result<String, Fail>) -> Result<(), Fail> {
    Ok(text.push_str(more?.as_str())?)
}

/// Adds a number and a semicolon.
pub(crate) fn push_number(alloc: Global, text: &mut String, number: u64) -> Result<(), Fail> {
    push(text, number_text(alloc, number))?;
    Ok(text.push_str(";")?)
}

/// The text of a fact: `true` or `false`.
pub(crate) fn fact_text(alloc: Global, is_so: bool) -> Result<String, Fail> {
    Ok(format!(in alloc; "{is_so}")?)
}

/// The outcome of an event, in the words of the code.
pub(crate) fn step_word(alloc: Global, stepped: Stepped) -> Result<String, Fail> {
    Ok(format!(in alloc; "{stepped:?}")?)
}

/// The outcome of an event: the serial of the session that was opened, nothing if the event is done, and otherwise a word.
pub(crate) fn step_text(alloc: Global, stepped: Stepped) -> Result<String, Fail> {
    match stepped {
        Stepped::Opened(session) => number_text(alloc, session.serial),
        Stepped::Done => Ok(String::new(alloc)),
        stepped => step_word(alloc, stepped),
    }
}
