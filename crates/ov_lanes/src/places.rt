ghost use Rattle.std.specs.Prelude.{◌≡◌};
ghost use Rattle.ov_lanes.specs.Places.{has_places};

use ov_core::Core;
use ov_keeper::Keeper;
use ov_requests::Draws;

/// Whether the machine has places and serials left for this many more sessions. Allocates nothing.
pub fn has_places<K: Keeper + Drop, D: Draws + Drop>(core: &Core<K, D>, count: usize) -> bool
    ensures { result ≡ has_places count core.now.state }
{
    let serials = match core.next_serial() {
        Some(next) => u64::MAX - next,
        None => 0,
    };
    count <= core.free_places() && count as u64 <= serials
}
