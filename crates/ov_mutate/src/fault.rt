use ov_atoms::AtomFault;
use std::alloc::AllocError;
use thiserror::Error;

/// Why no mutation could be read. The tree, which is borrowed, is unchanged.
#[derive(Clone, Copy, Debug, PartialEq, Eq, Error)]
pub enum MutationFault {
    /// The tree is malformed, its mutator does not apply to the column, or its value is not one that the mutator takes (RFC
    /// 7047, 5.1, `<mutation>`).
    #[error("not a mutation of this column")]
    Syntax,
    /// The table has no column of this name.
    #[error("no such column")]
    UnknownColumn,
    /// One key of the value has two values.
    #[error("one key has two values")]
    Clash,
    /// Clients may not change the column (RFC 7047, 3.2, `<column-schema>`, mutable).
    #[error("not a column that may change")]
    NotMutable,
    /// An allocation failed.
    #[error("out of memory")]
    Memory,
}

impl From<AtomFault> for MutationFault {
    ghost use Rattle.ov_mutate.specs.Faults.{fault_of};
    ghost use Rattle.std.specs.Prelude.{◌≡◌};

    ghost from_gives = { λ fault e. e ≡ fault_of fault };

    fn from(fault: AtomFault) -> MutationFault {
        match fault {
            AtomFault::Syntax => MutationFault::Syntax,
            AtomFault::Clash => MutationFault::Clash,
            AtomFault::Memory => MutationFault::Memory,
        }
    }
}

impl From<AllocError> for MutationFault {
    ghost use Rattle.ov_mutate.specs.declared.fault.MutationFault.TheVariants.{Memory};
    ghost use Rattle.std.specs.Prelude.{◌≡◌};

    ghost from_gives = { λ _ e. e ≡ Memory };

    fn from(_refused: AllocError) -> MutationFault {
        MutationFault::Memory
    }
}

/// Why a value is not mutated (RFC 7047, 5.2.4). It stays as it was.
#[derive(Clone, Copy, Debug, PartialEq, Eq, Error)]
pub enum MutateFault {
    /// A number would be divided by zero.
    #[error("division by zero")]
    Domain,
    /// A result is not a 64-bit number.
    #[error("result out of range")]
    Range,
    /// Two results are equal, or the new value does not fit its column.
    #[error("result does not fit the column")]
    Constraint,
    /// An allocation failed.
    #[error("out of memory")]
    Memory,
}

impl From<AllocError> for MutateFault {
    ghost use Rattle.ov_mutate.specs.declared.fault.MutateFault.TheVariants.{Memory};
    ghost use Rattle.std.specs.Prelude.{◌≡◌};

    ghost from_gives = { λ _ e. e ≡ Memory };

    fn from(_refused: AllocError) -> MutateFault {
        MutateFault::Memory
    }
}
