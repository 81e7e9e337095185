use std::alloc::AllocError;
use thiserror::Error;

/// Why a tree is not a schema (RFC 7047, 3.2). The first fault in this order that applies anywhere in the tree is returned.
/// Only a number that is not a 64-bit integer comes before all of them, and a tree with one cannot be given.
#[derive(Clone, Copy, Debug, PartialEq, Eq, Error)]
pub enum SchemaFault {
    /// A member is missing or of a wrong kind, an atomic type is unknown, or a range is given for a type other than its own.
    #[error("the schema is built wrong")]
    Syntax,
    /// The name of the schema, of a table or of a column is not an `<id>`, or begins with an underscore.
    #[error("a name of the schema is no identifier, or begins with an underscore")]
    BadName,
    /// The version is not three numbers separated by dots.
    #[error("the version of the schema is not three numbers with dots between")]
    BadVersion,
    /// A table has no columns.
    #[error("a table of the schema has no columns")]
    NoColumns,
    /// `min`, `max` or `maxRows` is out of range, a length is negative, or a minimum is above its maximum.
    #[error("a limit of the schema is out of range")]
    BadRange,
    /// A column has the type "real", which this server does not support.
    #[error("the schema has reals, which are not supported")]
    RealNotSupported,
    /// A `refTable` names no table.
    #[error("a column refers to a table that the schema does not have")]
    UnknownRefTable,
    /// A `refType` is neither "strong" nor "weak" or has no `refTable`, or a `refTable` is given for a type other than
    /// "uuid".
    #[error("a reference of the schema is built wrong")]
    BadRefType,
    /// An `enum` is not a set of one or more atoms of its type.
    #[error("a list of choices is no set of one atom or more of its type")]
    BadEnum,
    /// An index is empty, names something that is not a column, a column twice, or an ephemeral column.
    #[error("an index is empty, or names a column that it can't have")]
    BadIndex,
    /// A map has strong references on one side and weak ones on the other.
    #[error("a map has strong references on one side and weak ones on the other")]
    StrongWeakMap,
    /// An allocation failed. This may be returned for any tree.
    #[error("out of memory")]
    Memory,
}

impl From<AllocError> for SchemaFault {
    ghost use Rattle.ov_schema.specs.declared.fault.SchemaFault.TheVariants.{Memory};
    ghost use Rattle.std.specs.Prelude.{◌≡◌};

    ghost from_gives = { λ _ e. e ≡ Memory };

    fn from(_refused: AllocError) -> SchemaFault {
        SchemaFault::Memory
    }
}
