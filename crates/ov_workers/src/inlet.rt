ghost use Rattle.std.specs.Prelude.{◌≡◌, [], length};
ghost use Rattle.rtrb.specs.Ring.{sent};

use crate::cause::ReadCause;
use ov_order::{Brought, Noter};
use ov_rpc::Received;
use rtrb::Producer;
use std::sync::ledger::Ledger;

/// A reader's side of its session: the ring into which it puts what it reads, and who notes each item. As many notes were
/// made as items were put.
#[derive(Drop)]
pub struct Inlet<L: Ledger> {
    /// The ring into which it puts what it reads.
    pub ring: Producer<Brought<Received, ReadCause>>,
    /// Who notes each item: the serial of the session, and the worker's share of the notes.
    pub noter: Noter<L>,
    ghost counted: { noter.share.amount ≡ length (sent ring) },
}

impl<L: Ledger> Inlet<L> {
    /// The inlet of a session from whose link nothing has been read yet.
    pub fn new(ring: Producer<Brought<Received, ReadCause>>, noter: Noter<L>) -> Inlet<L>
        requires { (sent ring ≡ []) × (noter.share.amount ≡ 0) }
        ensures { (result.ring ≡ ring) × (result.noter ≡ noter) }
    {
        Inlet { ring, noter }
    }
}
