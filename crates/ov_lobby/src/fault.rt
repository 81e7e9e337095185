use ov_keeper::Keeper;
use ov_lanes::{Desk, ServeFault};
use ov_requests::Draws;

/// What comes back if no connection is served. None was accepted.
#[derive(Drop)]
pub struct RefusedLobby<K: Keeper, D: Draws, T> {
    /// Why.
    pub fault: ServeFault,
    /// The desk, with its machine as it was.
    pub desk: Desk<K, D>,
    /// The listener, as it was.
    pub listener: T,
}
