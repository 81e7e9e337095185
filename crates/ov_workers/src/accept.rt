ghost use Rattle.std.specs.Prelude.{◌≡◌, []};
ghost use Rattle.rtrb.specs.Ring.{sent, SameProducer};
ghost use Rattle.ov_workers.specs.Accepting.{GivesAll, links_in};
ghost use Rattle.ov_workers.specs.LinkStates.{ends_of};

use crate::common::Common;
use crate::link::Link;
use crate::listen::Listen;
use ov_ends::{Sink, Source};
use ov_order::{Brought, Noter};
use rtrb::Producer;
use std::sync::Wait;
use std::sync::ledger::Ledger;

/// What the accepting worker brings the desk: the links of connections, and last that there are no more.
pub type Accepted<S, W> = Brought<Link<S, W>, ()>;

/// Brings the desk what the listener gives until it gives no more, drops the listener, and brings last that there is nothing
/// more. Returns its end of the ring. It waits while the ring or the order of notes is full.
///
/// A listener that gives no more is dropped at once: a client that connects while the open sessions are still served should
/// be refused, not wait for an answer that never comes.
pub fn accept_worker<R, L, G, S, W, T>(
    common: Common<'_, R, L, G>,
    listener: T,
    ring: Producer<Accepted<S, W>>,
    noter: Noter<L>,
) -> Producer<Accepted<S, W>>
where
    R: Wait,
    L: Ledger,
    S: Source + Drop,
    W: Sink + Drop,
    T: Listen<S, W> + Drop,
    requires fresh { sent ring ≡ [] }
    ensures ring { SameProducer ring result }
    ensures gives { (last : T) × GivesAll (ends_of S.Source W.Sink) T.gives listener
        (links_in (sent result)) last }
{
    let mut listener = listener;
    let mut ring = ring;
    let mut noter = noter;
    for _ in common.rt.forever() {
        let Some(link) = listener.accept() else {
            drop(listener);
            common
                .order
                .bring(common.rt, &mut ring, &mut noter, Brought::End(()));
            return ring;
        };
        common
            .order
            .bring(common.rt, &mut ring, &mut noter, Brought::Message(link));
    }
    unreachable!()
}
