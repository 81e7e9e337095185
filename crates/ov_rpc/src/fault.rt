use std::alloc::AllocError;
use thiserror::Error;

/// Why a text gave no message.
#[derive(Clone, Copy, Debug, PartialEq, Eq, Error)]
pub enum RpcFault {
    /// The text is not UTF-8 or not JSON, nests more than 127 levels deep, or has a number that rounds to no finite double; or
    /// its id has a number that is not a 64-bit integer.
    #[error("the text is no message")]
    Unreadable,
    /// An allocation failed.
    #[error("out of memory")]
    Memory,
}

impl From<AllocError> for RpcFault {
    ghost use Rattle.std.specs.Prelude.{◌≡◌};
    ghost use Rattle.ov_rpc.specs.declared.fault.RpcFault.TheVariants.{Memory};

    ghost from_gives = { λ _ e. e ≡ Memory };

    fn from(_refused: AllocError) -> RpcFault {
        RpcFault::Memory
    }
}
