use std::alloc::AllocError;
use std::io;
use std::io::ErrorKind;
use thiserror::Error;

/// Why there are no connections.
#[derive(Clone, Copy, Debug, PartialEq, Eq, Error)]
pub enum ListenFault {
    /// The text is not an address, or the address is not one of this machine's or is in use; or the system doesn't report
    /// which port it chose; or a connection was not accepted, or the system has no descriptor for its second end.
    #[error("no connection")]
    Refused,
    /// An allocation failed, or the system is out of memory.
    #[error("out of memory")]
    Memory,
}

impl From<AllocError> for ListenFault {
    ghost use Rattle.ov_sockets.specs.declared.fault.ListenFault.TheVariants.{Memory};
    ghost use Rattle.std.specs.Prelude.{◌≡◌};

    ghost from_gives = { λ _ fault. fault ≡ Memory };

    fn from(_refused: AllocError) -> ListenFault {
        ListenFault::Memory
    }
}

impl From<io::Error> for ListenFault {
    ghost use Rattle.ov_sockets.specs.Faults.{fault_by};
    ghost use Rattle.std.specs.IoError.{error_kind};
    ghost use Rattle.std.specs.Prelude.{◌≡◌};

    ghost from_gives = { λ error fault. fault ≡ fault_by (error_kind error) };

    fn from(error: io::Error) -> ListenFault {
        match error.kind() {
            ErrorKind::OutOfMemory => ListenFault::Memory,
            _ => ListenFault::Refused,
        }
    }
}
