ghost use Rattle.std.specs.Prelude.{◌≡◌, ◌≢◌, ◌<◌, ℕ, None, vec_len, slice_index_or};
ghost use Rattle.std.specs.Prelude.{MatchBool, MatchOption};
ghost use Rattle.ov_lanes.specs.Lanes.{AreOver, AreTaken, IsAt};
ghost use Rattle.ov_lanes.specs.declared.lane.Lane.{Lane as SpecLane};

use crate::lane::Lane;

/// The place of the session of this serial, if it has one.
pub fn place_of(lanes: &Vec<Option<Lane>>, serial: u64) -> Option<usize>
    ensures { MatchOption result
        ((at : ℕ) (l : SpecLane) → IsAt lanes.now.items at l → l.session.serial ≢ serial)
        (λ at. (at < vec_len lanes.now)
        × ((l : SpecLane) × IsAt lanes.now.items at l × (l.session.serial ≡ serial))) }
{
    for at in 0..lanes.len() {
        if let Some(lane) = &lanes[at] {
            if lane.session.serial == serial {
                return Some(at);
            }
        }
    }
    None
}

/// A place where no session is served, or None if all are taken.
pub fn free_place(lanes: &Vec<Option<Lane>>) -> Option<usize>
    ensures { MatchOption result (AreTaken lanes.now.items) (λ at. (at < vec_len lanes.now)
        × (slice_index_or lanes.now.items at None ≡ None)) }
{
    for at in 0..lanes.len() {
        if lanes[at].is_none() {
            return Some(at);
        }
    }
    None
}

/// Whether, for every served session, the reader's end was taken and the end mark was put after its last frame.
pub fn are_over(lanes: &Vec<Option<Lane>>) -> bool
    ensures { MatchBool result (AreOver lanes.now.items) (AreOver lanes.now.items → ⊥) }
{
    for place in lanes {
        if let Some(lane) = place {
            if !lane.ended || !lane.marked {
                return false;
            }
        }
    }
    true
}
