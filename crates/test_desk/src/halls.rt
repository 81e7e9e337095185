//! The workers of two sessions, which are started and dismissed before any session is opened.

ghost use Rattle.std.specs.Prelude.{◌≡◌, ◌≤◌, ◌<◌, ◌+◌, ◌^◌, vec_len};

use crate::told::tells;
use ov_ends::Watched;
use ov_hall::{Parts, Started, all_bells, dismiss_all, start_all};
use ov_lanes::ServeFault;
use ov_order::{Bell, Order};
use ov_workers::{Common, FreeGate};
use std::alloc::{AllocError, Global};
use std::collections::VecDeque;
use std::marker::Brand;
use std::sync::Wait;
use std::sync::ledger::{Blank, Ledger};
use std::test::Fail;
use std::thread;
use std::thread::{Scope, Threads};
use test_basics::SlowReader;

/// The workers of sessions whose ends of a link are of these types. None is made.
type Waiting<L> = VecDeque<Started<Watched<SlowReader<'static>>, Watched<Vec<u8>>, L>>;

/// Starts the workers of a session for each bell, and dismisses them. Returns the number of these sessions, or 0 if their
/// workers can't be started.
fn dismiss_in<'s, E, R: Threads + Wait + Sync, L: Ledger + Send + Sync + 's>(
    common: Common<'s, R, L, FreeGate>,
    scope: &Scope<'s, E>,
    bells: &'s Vec<Bell>,
    parts: Parts<L>,
) -> usize
    requires serials { 1 + vec_len bells.now < 2 ^ 64 }
    requires parts { vec_len bells.now ≤ parts.left }
{
    let mut parts = parts;
    let started: Result<Waiting<L>, ServeFault> = start_all(common, scope, bells, &mut parts, 1);
    let Ok(started) = started else {
        return 0;
    };
    let sessions = started.len();
    let _said = dismiss_all(common, started);
    sessions
}

/// The same, in a scope of its own.
fn dismiss<'a, R: Threads + Wait + Sync, L: Ledger + Send + Sync>(
    common: Common<'a, R, L, FreeGate>,
    bells: &'a Vec<Bell>,
    parts: Parts<L>,
) -> usize
    requires serials { 1 + vec_len bells.now < 2 ^ 64 }
    requires parts { vec_len bells.now ≤ parts.left }
{
    thread::scope(
        thread::scope_env(),
        common.rt,
        move |scope| -> usize
            requires serials { 1 + vec_len bells.now < 2 ^ 64 }
            requires parts { vec_len bells.now ≤ parts.left }
        { dismiss_in(common, scope, bells, parts) },
    )
}

/// The number of sessions whose workers were dismissed, and of those whose writer has said that it is over.
fn dismissed<R: Threads + Wait + Sync, L: Ledger + Send + Sync>(
    rt: &R,
    alloc: Global,
    blank: Blank,
) -> Result<String, AllocError>
    requires name { blank.name ≡ L.name }
    requires parts { (blank.parts ≡ L.parts) × (blank.parts ≡ 3) }
{
    let (book, all) = blank.open::<L>();
    let order = Order::new(alloc, book)?;
    let bells = all_bells(alloc, 2)?;
    let common = Common {
        rt,
        alloc,
        order: &order,
        gate: &FreeGate,
    };
    let sessions = dismiss(common, &bells, Parts::of(all, 2));
    let over = bells.iter().filter(|bell| bell.is_over()).count();
    format!(in alloc; "{sessions} {over}")
}

#[test]
fn workers_that_are_dismissed_end(rt: HostRuntime) -> Result<(), Fail> {
    let told = dismissed::<HostRuntime, Brand>(&rt, rt.alloc(), Blank::new(3));
    tells(rt.alloc(), told, "2 2")
}
