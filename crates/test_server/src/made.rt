//! Scripts and conversations that a test has made.

use crate::callers::calls;
use crate::server::converses;
use std::alloc::{AllocError, Global};
use std::test::Fail;
use test_basics::is_text;

/// A text that was made. Its error is converted here, so that callers need not prove that again.
pub(crate) fn made(text: Result<String, AllocError>) -> Result<String, Fail> {
    Ok(text?)
}

/// Runs a script of calls that was made.
pub(crate) fn calls_as(alloc: Global, script: Result<String, AllocError>) -> Result<(), Fail> {
    calls(alloc, script?.as_str())
}

/// Holds a conversation that was made.
pub(crate) fn converses_as(alloc: Global, made: Result<String, AllocError>) -> Result<(), Fail> {
    converses(alloc, made?.as_str())
}

/// Fails unless a text was made and is the wanted one.
pub(crate) fn tells_as(
    alloc: Global,
    told: Result<String, AllocError>,
    wanted: &str,
) -> Result<(), Fail> {
    is_text(alloc, told?.as_str(), wanted)
}
