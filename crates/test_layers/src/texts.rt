use ov_base::{Bytes, Tree, Trees};
use std::alloc::Global;
use std::test::Fail;
use test_basics::compact;

/// An owned text.
pub(crate) fn owned(alloc: Global, text: &str) -> Result<String, Fail> {
    Ok(String::from_str(alloc, text)?)
}

/// The text of a fact: `true` or `false`.
pub(crate) fn fact_text(alloc: Global, is_so: bool) -> Result<String, Fail> {
    Ok(format!(in alloc; "{is_so}")?)
}

/// The text of a number.
pub(crate) fn number_text(alloc: Global, number: u64) -> Result<String, Fail> {
    Ok(format!(in alloc; "{number}")?)
}

/// The number of a text.
pub(crate) fn number_of(text: &str) -> Result<u64, Fail> {
    Ok(text.parse::<u64>()?)
}

/// The parts of a text before and after its first space; the second is empty if it has none.
pub(crate) fn parts_of(text: &str) -> (&str, &str) {
    text.split_once(" ").unwrap_or((text, ""))
}

/// The parts of a text before and after its first space. Fails if it has none.
pub(crate) fn two_parts(text: &str) -> Result<(&str, &str), Fail> {
    match text.split_once(" ") {
        Some(parts) => Ok(parts),
        None => Err(Fail::new("one part")),
    }
}

/// The text of bytes.
pub(crate) fn text_of_bytes(bytes: Bytes) -> Result<String, Fail> {
    Ok(String::from_utf8(bytes.into_vec())?)
}

/// Adds a text that was made. No caller keeps it, which makes their proofs smaller.
pub(crate) fn push(text: &mut String, made: Result<String, Fail>) -> Result<(), Fail> {
    Ok(text.push_str(made?.as_str())?)
}

/// Adds a text, followed by a semicolon.
pub(crate) fn push_item(text: &mut String, item: &str) -> Result<(), Fail> {
    text.push_str(item)?;
    text.push_str(";")?;
    Ok(())
}

/// The same for a text that was made.
pub(crate) fn push_made_item(text: &mut String, made: Result<String, Fail>) -> Result<(), Fail> {
    push_item(text, made?.as_str())
}

/// Adds the params of an update, with a space before all but the first.
fn push_update(alloc: Global, text: &mut String, params: Trees) -> Result<(), Fail> {
    if !text.is_empty() {
        text.push_str(" ")?;
    }
    push(text, compact(alloc, &params.into_tree()))
}

/// The params of updates, with a space between them.
pub(crate) fn updates_text(alloc: Global, updates: Vec<Trees>) -> Result<String, Fail> {
    let mut text = String::new(alloc);
    for params in updates {
        push_update(alloc, &mut text, params)?;
    }
    Ok(text)
}

/// The text of a monitor's initial rows, or that there is no such monitor.
pub(crate) fn initial_text(alloc: Global, told: Option<Tree>) -> Result<String, Fail> {
    match told {
        Some(told) => compact(alloc, &told),
        None => owned(alloc, "none"),
    }
}
