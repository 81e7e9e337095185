use std::alloc::AllocError;
use thiserror::Error;

/// Why links are not served.
#[derive(Clone, Copy, Debug, PartialEq, Eq, Error)]
pub enum ServeFault {
    /// An allocation failed.
    #[error("out of memory")]
    Memory,
    /// A thread could not be started.
    #[error("no thread could be started")]
    Threads,
    /// The machine has fewer places or serials left for sessions than there are links.
    #[error("too many links")]
    TooMany,
}

impl From<AllocError> for ServeFault {
    ghost use Rattle.ov_lanes.specs.declared.fault.ServeFault.TheVariants.{Memory};
    ghost use Rattle.std.specs.Prelude.{◌≡◌};

    ghost from_gives = { λ _ fault. fault ≡ Memory };

    fn from(_refused: AllocError) -> ServeFault {
        ServeFault::Memory
    }
}
