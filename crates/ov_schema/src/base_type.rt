ghost use Rattle.std.specs.Prelude.{◌≡◌, None, option_map};
ghost use Rattle.std.specs.List.{list_any};
ghost use Rattle.std.specs.Option.{option_copied};
ghost use Rattle.std.specs.FinMap.{contains_key};
ghost use Rattle.std.specs.Ordering.{eq_by_cmp};
ghost use Rattle.ov_specs.specs.values.Value.{atom_cmp};
ghost use Rattle.ov_specs.specs.schema.Fitting.{in_range, atom_fits};
ghost use Rattle.ov_atoms.specs.Views.{kind_view, atom_view, atoms_view};
ghost use Rattle.ov_schema.specs.Sets.{set_in};

use crate::limits::{char_count, is_between};
use ov_atoms::{Atom, AtomKind, Datum};
use ov_base::Text;
use std::marker::Model;

/// The table that an identifier refers to, and how (RFC 7047, 3.2, `<base-type>`).
#[derive(Drop)]
pub struct Reference {
    table: Text,
    is_strong: bool,
}

impl Model for Reference {
    ghost use Rattle.ov_specs.specs.schema.SchemaTypes as types;
    ghost use Rattle.ov_specs.specs.codes.SchemaCode.{reference_code};

    ghost Value = { types.Reference };

    ghost coded = { reference_code };

    ghost view = { λ r. record { table = r.table; is_strong = r.is_strong } };
}

/// An atomic type with its constraints (RFC 7047, 3.2, `<base-type>`).
#[derive(Drop)]
pub struct BaseType {
    kind: AtomKind,
    pub(crate) choices: Option<Datum>,
    pub(crate) least: Option<i64>,
    pub(crate) greatest: Option<i64>,
    pub(crate) shortest: Option<i64>,
    pub(crate) longest: Option<i64>,
    refers: Option<Reference>,
}

impl Model for BaseType {
    ghost use Rattle.std.specs.Prelude.{option_map};
    ghost use Rattle.ov_specs.specs.schema.SchemaTypes as types;
    ghost use Rattle.ov_specs.specs.codes.SchemaCode.{base_type_code};
    ghost use Rattle.ov_atoms.specs.Views.{kind_view};
    ghost use Rattle.ov_schema.specs.Sets.{set_in};

    ghost Value = { types.BaseType };

    ghost coded = { base_type_code };

    ghost view = { λ b. record {
      kind = kind_view b.kind;
      choices = option_map set_in b.choices;
      least = b.least;
      greatest = b.greatest;
      shortest = b.shortest;
      longest = b.longest;
      refers = b.refers;
    } };
}

impl Reference {
    /// The reference to the table of this name.
    pub fn new(table: Text, is_strong: bool) -> Reference
        ensures { result ≡ record { table = table; is_strong = is_strong } }
    {
        Reference { table, is_strong }
    }

    /// The name of the table.
    pub fn table(&self) -> &str
        ensures { result.now ≡ self.now.table }
    {
        self.table.as_str()
    }

    /// Whether a row that is referred to stays (RFC 7047, 3.2, `<base-type>`, refType).
    pub fn is_strong(&self) -> bool
        ensures { result ≡ self.now.is_strong }
    {
        self.is_strong
    }
}

impl BaseType {
    /// The base type of these parts. The choices are a set: a map allows no atom.
    pub fn new(
        kind: AtomKind,
        choices: Option<Datum>,
        least: Option<i64>,
        greatest: Option<i64>,
        shortest: Option<i64>,
        longest: Option<i64>,
        refers: Option<Reference>,
    ) -> BaseType
        ensures { result ≡ record {
          kind = kind_view kind;
          choices = option_map set_in choices;
          least = least;
          greatest = greatest;
          shortest = shortest;
          longest = longest;
          refers = refers;
        } }
    {
        BaseType {
            kind,
            choices,
            least,
            greatest,
            shortest,
            longest,
            refers,
        }
    }

    /// The base type of a kind, without constraints.
    pub(crate) fn plain(kind: AtomKind) -> BaseType
        ensures { result ≡ record {
          kind = kind_view kind;
          choices = None;
          least = None;
          greatest = None;
          shortest = None;
          longest = None;
          refers = None;
        } }
    {
        BaseType::new(kind, None, None, None, None, None, None)
    }

    /// The table that its identifiers refer to, if any.
    pub(crate) fn refers(&self) -> Option<&Reference>
        ensures { option_copied result ≡ self.now.refers }
    {
        self.refers.as_ref()
    }

    /// The kind of its atoms.
    pub(crate) fn kind(&self) -> AtomKind
        ensures { kind_view result ≡ self.now.kind }
    {
        self.kind
    }

    /// Whether an atom is one of the choices and in its range.
    pub(crate) fn atom_fits(&self, atom: &Atom) -> bool
        ensures { result ≡ atom_fits self.now (atom_view atom.now) }
    {
        let is_chosen = match &self.choices {
            Some(choices) => is_in(choices, atom),
            None => true,
        };
        is_chosen && self.has_in_range(atom)
    }

    /// Whether a number, or the length of a text in characters, is in its range.
    fn has_in_range(&self, atom: &Atom) -> bool
        ensures { result ≡ in_range self.now (atom_view atom.now) }
    {
        match atom {
            Atom::Integer(number) => is_between(self.least, self.greatest, i128::from(*number)),
            Atom::Text(text) => {
                is_between(
                    self.shortest,
                    self.longest,
                    char_count(text.as_str()) as i128,
                )
            }
            Atom::Boolean(_) => true,
            Atom::Uuid(_) => true,
        }
    }
}

/// Whether a set has the atom. Lists of choices are short, so the search is linear.
fn is_in(set: &Datum, atom: &Atom) -> bool
    ensures { result ≡ contains_key (set_in set.now) (atom_view atom.now) }
{
    match set.atoms() {
        Some(atoms) => has_atom(atoms, atom),
        None => false,
    }
}

fn has_atom(atoms: &[Atom], atom: &Atom) -> bool
    ensures { result ≡ list_any (eq_by_cmp atom_cmp (atom_view atom.now)) (atoms_view atoms.now) }
{
    for other in atoms {
        if atom == other {
            return true;
        }
    }
    false
}
