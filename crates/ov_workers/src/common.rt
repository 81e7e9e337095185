use ov_order::Order;
use std::alloc::Global;
use std::sync::ledger::Ledger;

/// What all workers have in common.
#[derive_where(Clone, Copy)]
pub struct Common<'s, R, L: Ledger, G> {
    /// The runtime, by which they wait and start threads.
    pub rt: &'s R,
    /// Where messages are allocated.
    pub alloc: Global,
    /// The order of notes, which they share with the desk.
    pub order: &'s Order<L>,
    /// The gate that they pass.
    pub gate: &'s G,
}
