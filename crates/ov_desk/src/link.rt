use ov_hall::End;
use ov_keeper::Keeper;
use ov_lanes::{Desk, ServeFault};
use ov_requests::Draws;
use ov_workers::Link;
use std::collections::VecDeque;

/// What remains after all links have been served.
#[derive(Drop)]
pub struct Served<K: Keeper, D: Draws, S, W> {
    /// The desk.
    pub desk: Desk<K, D>,
    /// What remains of each link, in their order.
    pub ends: VecDeque<End<S, W>>,
}

/// What comes back if links are not served. Nothing was read from them or written to them.
#[derive(Drop)]
pub struct Unserved<K: Keeper, D: Draws, S, W> {
    /// Why.
    pub fault: ServeFault,
    /// The desk. Its machine is as it was, unless `Memory` came after sessions were opened.
    pub desk: Desk<K, D>,
    /// The links, as they were.
    pub links: VecDeque<Link<S, W>>,
}
