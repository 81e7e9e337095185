ghost use Rattle.std.specs.Prelude.{◌≡◌, List, map, option_to_list};
ghost use Rattle.serde_json.specs.Data.{Data};
ghost use Rattle.ov_specs.specs.wire.Frame.{frame as spec_frame};
ghost use Rattle.ov_specs.specs.machine.Machine.{to_session};
ghost use Rattle.ov_live.specs.Handling.{PostsIfRoom, IsUnasked};

use ov_base::Bytes;
use ov_history::Outcome;
use ov_outbox::Outbox;
use std::alloc::Global;

/// Queues the frame, if there is one. If an allocation fails, returns `NoMemory` and queues nothing.
pub(crate) fn send(
    alloc: Global,
    outbox: &mut Outbox,
    session: u64,
    frame: Option<Bytes>,
) -> Option<Outcome>
    // For any trees that the frame encodes.
    ensures posts { (trees : List Data) → map spec_frame trees ≡ option_to_list frame
        → PostsIfRoom (to_session session trees) outbox.old.frames result outbox.new.frames }
    ensures queues { outbox.new.queues ≡ outbox.old.queues }
    ensures unasked { IsUnasked result }
{
    let Some(frame) = frame else {
        return None;
    };
    if outbox.push(alloc, session, frame) {
        None
    } else {
        Some(Outcome::NoMemory)
    }
}
