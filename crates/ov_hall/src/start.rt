ghost use Rattle.std.specs.Prelude.{◌≡◌, ◌≢◌, ◌<◌, ◌≤◌, ◌+◌, ◌^◌, ℕ, true, false, vec_len, IfOk, IfErr};
ghost use Rattle.std.specs.VecDeque.{deque_len};
ghost use Rattle.ov_hall.specs.Seats.{AreStarted, IsStarted};
ghost use Rattle.ov_lanes.specs.declared.fault.ServeFault.TheVariants as fault;

use crate::parts::Parts;
use ov_ends::{Sink, Source};
use ov_lanes::ServeFault;
use ov_order::{Bell, Brought, Leave, Noter, Sent, inbound_ring, outbound_ring};
use ov_rpc::Received;
use ov_threads::{Hands, Workers, start_workers};
use ov_workers::{Common, Gate, Inlet, ReadCause};
use rtrb::{Consumer, Producer};
use std::collections::VecDeque;
use std::sync::Wait;
use std::sync::ledger::{Ledger, Share};
use std::thread::{Scope, Threads};

/// The workers of a session in their threads, with the desk's ends of its rings. Nothing was handed to them yet.
#[derive(Drop)]
pub struct Started<S: Source, W: Sink, L: Ledger> {
    /// What the reader will bring.
    pub inbound: Consumer<Brought<Received, ReadCause>>,
    /// What the writer will be sent.
    pub outbound: Producer<Sent>,
    /// The workers.
    pub workers: Workers<S, W, L>,
}

/// Starts the workers of a session of this serial. They give back the ends of their link if it `keeps`, and drop them
/// otherwise. Refused as `Memory` or as `Threads`; then no thread is left.
pub(crate) fn start<'s, E, R, L, G, S, W>(
    common: Common<'s, R, L, G>,
    scope: &Scope<'s, E>,
    bell: &'s Bell,
    keeps: bool,
    serial: u64,
    share: Share<L>,
) -> Result<Started<S, W, L>, ServeFault>
where
    R: Threads + Wait + Sync,
    L: Ledger + Send + Sync + 's,
    G: Gate + Sync,
    S: Source + Send + Drop + 's,
    W: Sink + Send + Drop + 's,
    requires share { (share.parts ≡ 1) × (share.amount ≡ 0) }
    ensures started { IfOk result (λ s. IsStarted keeps serial s) }
    ensures kinds { IfErr result (λ f. f ≢ fault.TooMany) }
{
    bell.renew();
    let (to_desk, inbound) = inbound_ring(common.alloc)?;
    let (outbound, to_writer) = outbound_ring(common.alloc)?;
    let hands = Hands::new(common.alloc)?;
    let inlet = Inlet::new(to_desk, Noter::new(serial, share));
    match start_workers(common, scope, bell, keeps, inlet, to_writer, hands) {
        Some(workers) => Ok(Started {
            inbound,
            outbound,
            workers,
        }),
        None => Err(ServeFault::Threads),
    }
}

/// Tells the waiting workers that none may begin, joins them, and returns what was said.
pub fn dismiss_all<R, L, G, S, W>(
    common: Common<'_, R, L, G>,
    started: VecDeque<Started<S, W, L>>,
) -> Leave<L>
where
    R: Threads + Wait,
    L: Ledger,
    S: Source + Drop,
    W: Sink + Drop,
    requires { (serial : ℕ) × AreStarted true serial started.items }
    ensures { result ≡ false }
{
    let said = common.order.begin(common.rt, false);
    let mut started = started;
    while let Some(one) = started.pop_front() {
        let Started { workers, .. } = one;
        workers.dismiss(common.rt);
    }
    said
}

/// Starts the workers of one session for each bell, with the serials from `first` on. If that is refused, none is left.
pub fn start_all<'s, E, R, L, G, S, W>(
    common: Common<'s, R, L, G>,
    scope: &Scope<'s, E>,
    bells: &'s Vec<Bell>,
    parts: &mut Parts<L>,
    first: u64,
) -> Result<VecDeque<Started<S, W, L>>, ServeFault>
where
    R: Threads + Wait + Sync,
    L: Ledger + Send + Sync + 's,
    G: Gate + Sync,
    S: Source + Send + Drop + 's,
    W: Sink + Send + Drop + 's,
    requires serials { first + vec_len bells.now < 2 ^ 64 }
    requires parts { vec_len bells.now ≤ parts.old.left }
    ensures started { IfOk result (λ s. AreStarted true first s.items
        × (deque_len s ≡ vec_len bells.now)) }
    ensures kinds { IfErr result (λ f. f ≢ fault.TooMany) }
{
    let mut started = VecDeque::with_capacity(common.alloc, bells.len())?;
    let mut serial = first;
    for bell in bells {
        let Some(share) = parts.take() else {
            unreachable!()
        };
        match start(common, scope, bell, true, serial, share) {
            Ok(one) => started.push_back_reserved(one),
            Err(fault) => {
                let _said = dismiss_all(common, started);
                return Err(fault);
            }
        }
        serial += 1;
    }
    Ok(started)
}
