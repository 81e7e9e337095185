ghost use Rattle.std.specs.Prelude.{◌≡◌};
ghost use Rattle.ov_specs.specs.operations.Errors.{error_text};
ghost use Rattle.ov_projection.specs.Errors.{error_view};

use ov_conds::ConditionFault;
use std::alloc::AllocError;

/// Why an operation, or the commit, fails (RFC 7047, 3.1, `<error>`, and 5.2).
#[derive(Clone, Copy, Debug, PartialEq, Eq)]
pub enum OpError {
    Syntax,
    UnknownTable,
    UnknownColumn,
    UnknownOperation,
    DuplicateName,
    DuplicateUuid,
    Constraint,
    Domain,
    Range,
    TimedOut,
    Aborted,
    NotOwner,
    ReferentialIntegrity,
    ResourcesExhausted,
    InputOutput,
}

impl OpError {
    /// The error text sent to the client. Not derived, so that the contract can state it.
    pub fn text(self) -> &'static str
        ensures { result.now ≡ error_text (error_view self) }
    {
        match self {
            OpError::Syntax => "syntax error",
            OpError::UnknownTable => "unknown table",
            OpError::UnknownColumn => "unknown column",
            OpError::UnknownOperation => "unknown operation",
            OpError::DuplicateName => "duplicate uuid-name",
            OpError::DuplicateUuid => "duplicate uuid",
            OpError::Constraint => "constraint violation",
            OpError::Domain => "domain error",
            OpError::Range => "range error",
            OpError::TimedOut => "timed out",
            OpError::Aborted => "aborted",
            OpError::NotOwner => "not owner",
            OpError::ReferentialIntegrity => "referential integrity violation",
            OpError::ResourcesExhausted => "resources exhausted",
            OpError::InputOutput => "I/O error",
        }
    }
}

/// Why an operation has no result.
#[derive(Clone, Copy, Debug, PartialEq, Eq)]
pub enum OpFault {
    /// It is refused, and the client receives this error.
    Refused(OpError),
    /// An allocation failed.
    Memory,
}

impl From<AllocError> for OpFault {
    ghost use Rattle.ov_projection.specs.declared.fault.OpFault.TheVariants.{Memory};
    ghost use Rattle.std.specs.Prelude.{◌≡◌};

    ghost from_gives = { λ _ e. e ≡ Memory };

    fn from(_refused: AllocError) -> OpFault {
        OpFault::Memory
    }
}

impl From<ConditionFault> for OpFault {
    ghost use Rattle.ov_projection.specs.Errors.{fault_of_condition};
    ghost use Rattle.std.specs.Prelude.{◌≡◌};

    ghost from_gives = { λ fault e. e ≡ fault_of_condition fault };

    fn from(fault: ConditionFault) -> OpFault {
        match fault {
            ConditionFault::Syntax => OpFault::Refused(OpError::Syntax),
            ConditionFault::UnknownColumn => OpFault::Refused(OpError::UnknownColumn),
            ConditionFault::Memory => OpFault::Memory,
            ConditionFault::Clash => OpFault::Refused(OpError::Constraint),
        }
    }
}
