ghost use Rattle.std.specs.Prelude.{◌≡◌};
ghost use Rattle.ov_conds.specs.Compared as compared;
ghost use Rattle.ov_conds.specs.ElementViews.{elements_view};

use ov_atoms::{Atom, Datum};
use uuid::Uuid;

/// The contents of a value, borrowed (RFC 7047, 5.1, `<value>`). An identifier that has no value of its own can be compared
/// too, so that no comparison allocates.
#[derive(Clone, Copy)]
pub enum Elements<'a> {
    /// The atoms of a set, ascending.
    Atoms(&'a [Atom]),
    /// The pairs of a map, ascending by their keys.
    Pairs(&'a [(Atom, Atom)]),
}

impl<'a> Elements<'a> {
    /// The contents of this value.
    pub fn of(datum: &'a Datum) -> Elements<'a>
        ensures { elements_view result ≡ compared.elements_of datum.now }
    {
        match (datum.atoms(), datum.pairs()) {
            (Some(atoms), _) => Elements::Atoms(atoms),
            (None, Some(pairs)) => Elements::Pairs(pairs),
            (None, None) => Elements::Atoms(&[]),
        }
    }

    /// The integer, if there is one and nothing else.
    pub fn number(self) -> Option<i64>
        ensures { result ≡ compared.number_of (elements_view self.entry) }
    {
        match self {
            Elements::Atoms([Atom::Integer(number)]) => Some(*number),
            _ => None,
        }
    }

    /// The identifier, if there is one and nothing else.
    pub(crate) fn uuid(self) -> Option<Uuid>
        ensures { result ≡ compared.uuid_of (elements_view self.entry) }
    {
        match self {
            Elements::Atoms([Atom::Uuid(id)]) => Some(*id),
            _ => None,
        }
    }
}
