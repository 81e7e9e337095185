//! After which endings a database's file is closed.

ghost use Rattle.std.specs.Prelude.{◌≡◌};
ghost use Rattle.ov_service.specs.Closing.{closes_file};

use ov_words::Ending;

/// Whether a database's file is closed after its sessions ended so: after `InputEnded` and `Streams` alone.
pub fn closes_file(ending: Ending) -> bool
    ensures { result ≡ closes_file ending }
{
    matches!(ending, Ending::InputEnded | Ending::Streams)
}
