use ov_atoms::AtomFault;
use std::alloc::AllocError;
use thiserror::Error;

/// Why no condition could be read. The tree, which is borrowed, is unchanged.
#[derive(Clone, Copy, Debug, PartialEq, Eq, Error)]
pub enum ConditionFault {
    /// The tree is malformed, its function does not apply to the column, or its value is not one that the column can be
    /// compared with (RFC 7047, 5.1, `<condition>`).
    #[error("not a condition on this column")]
    Syntax,
    /// The table has no column of this name.
    #[error("no such column")]
    UnknownColumn,
    /// An allocation failed.
    #[error("out of memory")]
    Memory,
    /// One key of the value has two values.
    #[error("one key has two values")]
    Clash,
}

impl From<AtomFault> for ConditionFault {
    ghost use Rattle.ov_conds.specs.Views.{fault_of};
    ghost use Rattle.std.specs.Prelude.{◌≡◌};

    ghost from_gives = { λ fault e. e ≡ fault_of fault };

    fn from(fault: AtomFault) -> ConditionFault {
        match fault {
            AtomFault::Syntax => ConditionFault::Syntax,
            AtomFault::Clash => ConditionFault::Clash,
            AtomFault::Memory => ConditionFault::Memory,
        }
    }
}

impl From<AllocError> for ConditionFault {
    ghost use Rattle.ov_conds.specs.declared.fault.ConditionFault.TheVariants.{Memory};
    ghost use Rattle.std.specs.Prelude.{◌≡◌};

    ghost from_gives = { λ _ e. e ≡ Memory };

    fn from(_refused: AllocError) -> ConditionFault {
        ConditionFault::Memory
    }
}
