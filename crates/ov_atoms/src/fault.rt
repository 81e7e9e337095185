use std::alloc::AllocError;
use thiserror::Error;

/// Why an atom or a value is not read. The tree, which is borrowed, is unchanged.
#[derive(Clone, Copy, Debug, PartialEq, Eq, Error)]
pub enum AtomFault {
    /// The tree is not a value of the requested kinds, or names a row that no insert names (RFC 7047, 5.1).
    #[error("not a value of this type")]
    Syntax,
    /// All parts were read, and a key has two values.
    #[error("one key has two values")]
    Clash,
    /// An allocation failed.
    #[error("out of memory")]
    Memory,
}

impl From<AllocError> for AtomFault {
    ghost use Rattle.ov_atoms.specs.declared.fault.AtomFault.TheVariants.{Memory};
    ghost use Rattle.std.specs.Prelude.{◌≡◌};

    ghost from_gives = { λ _ e. e ≡ Memory };

    fn from(_refused: AllocError) -> AtomFault {
        AtomFault::Memory
    }
}
