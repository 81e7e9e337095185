use ov_keeper::KeepFault;
use std::alloc::AllocError;
use thiserror::Error;

/// Why a database is not opened or converted.
#[derive(Clone, Copy, Debug, PartialEq, Eq, Error)]
pub enum OpenFault {
    /// The stored schema has another text. If it can be converted: it has another name, or is not older.
    #[error("the stored schema is another one")]
    SchemaDiffers,
    /// What is stored of a row is no row of the stored schema, or the stored text is no schema.
    #[error("a stored row does not fit the schema")]
    BadBody,
    /// The stored rows break a rule of commits.
    #[error("the stored rows break a constraint")]
    Broken,
    /// A column of both schemas has another type in the new one. Only a conversion returns this.
    #[error("a column has another type in the new schema")]
    TypeChanged,
    /// A commit of the stored rows under the new schema fails. Only a conversion returns this.
    #[error("the stored rows do not fit the new schema")]
    NotConvertible,
    /// The keeper refused.
    #[error("{0}")]
    Keeping(KeepFault),
}

impl From<AllocError> for OpenFault {
    ghost use Rattle.std.specs.Prelude.{◌≡◌};
    ghost use Rattle.ov_keeper.specs.declared.fault.KeepFault.TheVariants.{Memory};
    ghost use Rattle.ov_stored.specs.declared.fault.OpenFault.TheVariants.{Keeping};

    ghost from_gives = { λ _ e. e ≡ Keeping Memory };

    fn from(_refused: AllocError) -> OpenFault {
        OpenFault::Keeping(KeepFault::Memory)
    }
}

impl From<KeepFault> for OpenFault {
    ghost use Rattle.std.specs.Prelude.{◌≡◌};
    ghost use Rattle.ov_stored.specs.declared.fault.OpenFault.TheVariants.{Keeping};

    ghost from_gives = { λ fault e. e ≡ Keeping fault };

    fn from(fault: KeepFault) -> OpenFault {
        OpenFault::Keeping(fault)
    }
}
