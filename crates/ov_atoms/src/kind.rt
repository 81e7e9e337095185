ghost use Rattle.std.specs.Prelude.{◌≡◌};
ghost use Rattle.ov_specs.specs.values.Value.{kind_rank};
ghost use Rattle.ov_atoms.specs.Views.{kind_view};

/// An atomic type (RFC 7047, 3.2, `<atomic-type>`). "real" is left out.
#[derive(Clone, Copy, Debug, PartialEq, Eq)]
pub enum AtomKind {
    /// A number from -2^63 to 2^63-1.
    Integer,
    /// A truth value.
    Boolean,
    /// A text without U+0000.
    Text,
    /// A UUID.
    Uuid,
}

impl AtomKind {
    /// The place of the kind among the four.
    pub(crate) fn rank(self) -> u8
        ensures { result ≡ kind_rank (kind_view self) }
    {
        match self {
            AtomKind::Integer => 0,
            AtomKind::Boolean => 1,
            AtomKind::Text => 2,
            AtomKind::Uuid => 3,
        }
    }
}

/// What a column holds: atoms of one kind, or pairs of two kinds (RFC 7047, 3.2, `<type>`).
#[derive(Clone, Copy, Debug, PartialEq, Eq)]
pub enum Kinds {
    /// A set of atoms of the kind. A scalar is a set of one.
    Single(AtomKind),
    /// A map from keys of the first kind to values of the second.
    Pair(AtomKind, AtomKind),
}
