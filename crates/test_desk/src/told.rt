//! What several tests do: with an order of notes, and with a text that was made.

ghost use Rattle.std.specs.Prelude.{◌≡◌};

use ov_order::{Leave, Noter, Order, Taken};
use std::alloc::{AllocError, Global};
use std::sync::Wait;
use std::sync::ledger::{Ledger, Share};
use std::test::Fail;
use test_basics::is_text;

/// Fails unless a text was made and is the wanted one.
pub(crate) fn tells(
    alloc: Global,
    told: Result<String, AllocError>,
    wanted: &str,
) -> Result<(), Fail> {
    is_text(alloc, told?.as_str(), wanted)
}

/// Adds a text that was made. No caller keeps it, which makes their proofs smaller.
pub(crate) fn push(text: &mut String, more: Result<String, AllocError>) -> Result<(), AllocError> {
    text.push_str(more?.as_str())
}

/// Says whether the workers may begin.
pub(crate) fn begin<R: Wait, L: Ledger>(rt: &R, order: &Order<L>, go: bool) -> Leave<L>
    ensures { result ≡ go }
{
    order.begin(rt, go)
}

/// Makes a note, and returns whether there was room for it.
pub(crate) fn note<R: Wait, L: Ledger>(rt: &R, order: &Order<L>, noter: &mut Noter<L>) -> bool
    ensures { noter.new.share.parts ≡ noter.old.share.parts }
{
    order.lock(rt).note(noter)
}

/// The oldest note that was not taken.
pub(crate) fn next<R: Wait, L: Ledger>(rt: &R, order: &Order<L>) -> Option<u64> {
    order.lock(rt).next(&mut Taken::new())
}

/// How many notes were made. The share has all parts.
pub(crate) fn noted<R: Wait, L: Ledger>(rt: &R, order: &Order<L>, all: Share<L>) -> u64
    requires { all.parts ≡ L.parts }
    ensures { result ≡ all.amount }
{
    let mut all = all;
    order.lock(rt).noted(&mut all)
}
