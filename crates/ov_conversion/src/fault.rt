use std::alloc::AllocError;
use thiserror::Error;

/// Why a database is not converted. It is unchanged.
#[derive(Clone, Copy, Debug, PartialEq, Eq, Error)]
pub enum ConversionFault {
    /// A row would get a column whose default does not fit it, or a commit under the new schema refuses the rows.
    #[error("the rows cannot be converted to the new schema")]
    NotConvertible,
    /// An allocation failed.
    #[error("out of memory")]
    Memory,
}

impl From<AllocError> for ConversionFault {
    ghost use Rattle.ov_conversion.specs.declared.fault.ConversionFault.TheVariants.{Memory};
    ghost use Rattle.std.specs.Prelude.{◌≡◌};

    ghost from_gives = { λ _ e. e ≡ Memory };

    fn from(_refused: AllocError) -> ConversionFault {
        ConversionFault::Memory
    }
}
