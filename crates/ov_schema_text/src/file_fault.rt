use ov_schema::SchemaFault;
use std::alloc::AllocError;
use thiserror::Error;

/// Why a file gives no schema.
#[derive(Clone, Copy, Debug, PartialEq, Eq, Error)]
pub enum SchemaFileFault {
    /// The file does not exist, or could not be read to its end.
    #[error("the file of the schema can't be read")]
    Unread,
    /// The text is not UTF-8 or not JSON, nests more than 127 levels deep, or has a number that rounds to no finite double.
    #[error("the schema is no JSON")]
    NotJson,
    /// The tree is not a schema.
    #[error("{0}")]
    Refused(SchemaFault),
    /// An allocation failed.
    #[error("out of memory")]
    Memory,
}

impl From<AllocError> for SchemaFileFault {
    ghost use Rattle.ov_schema_text.specs.declared.file_fault.SchemaFileFault.TheVariants.{Memory};
    ghost use Rattle.std.specs.Prelude.{◌≡◌};

    ghost from_gives = { λ _ e. e ≡ Memory };

    fn from(_refused: AllocError) -> SchemaFileFault {
        SchemaFileFault::Memory
    }
}
