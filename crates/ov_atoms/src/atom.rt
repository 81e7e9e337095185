ghost use Rattle.std.specs.Prelude.{◌≡◌, IfOk};
ghost use Rattle.ov_atoms.specs.Views.{atom_view, kind_view};
ghost use Rattle.ov_specs.specs.values.Value.{kind_of, default_atom};

use crate::kind::AtomKind;
use ov_base::Text;
use std::alloc::{AllocError, Global};
use std::cmp::Ordering;
use uuid::Uuid;

/// One part of a value (RFC 7047, 5.1, `<atom>`).
#[derive(Drop)]
pub enum Atom {
    /// A number.
    Integer(i64),
    /// A truth value.
    Boolean(bool),
    /// A text. One that was read has no U+0000.
    Text(Text),
    /// A UUID.
    Uuid(Uuid),
}

impl Atom {
    /// The default of the kind: 0, false, the empty text, the zero UUID (RFC 7047, 5.2.1).
    pub fn default_of(alloc: Global, kind: AtomKind) -> Atom
        ensures { atom_view result ≡ default_atom (kind_view kind) }
    {
        match kind {
            AtomKind::Integer => Atom::Integer(0),
            AtomKind::Boolean => Atom::Boolean(false),
            AtomKind::Text => Atom::Text(Text::from_string(String::new(alloc))),
            AtomKind::Uuid => Atom::Uuid(Uuid::nil()),
        }
    }

    /// The kind of the atom.
    pub fn kind(&self) -> AtomKind
        ensures { kind_view result ≡ kind_of (atom_view self.now) }
    {
        match self {
            Atom::Integer(_) => AtomKind::Integer,
            Atom::Boolean(_) => AtomKind::Boolean,
            Atom::Text(_) => AtomKind::Text,
            Atom::Uuid(_) => AtomKind::Uuid,
        }
    }

    /// A copy of the atom.
    pub fn copy(&self, alloc: Global) -> Result<Atom, AllocError>
        ensures { IfOk result (λ a. atom_view a ≡ atom_view self.now) }
    {
        Ok(match self {
            Atom::Integer(n) => Atom::Integer(*n),
            Atom::Boolean(b) => Atom::Boolean(*b),
            Atom::Text(text) => Atom::Text(Text::from_str(alloc, text.as_str())?),
            Atom::Uuid(uuid) => Atom::Uuid(*uuid),
        })
    }
}

impl PartialEq for Atom {
    ghost use Rattle.std.specs.Ordering.{eq_by_cmp, on};
    ghost use Rattle.ov_specs.specs.values.Value.{atom_cmp};
    ghost use Rattle.ov_specs.proofs.laws.Order.{atom_cmp_total};
    ghost use Rattle.ov_atoms.specs.Views.{atom_view};
    ghost use Rattle.std.specs.Cmp.{partial_equiv_from_equiv, eq_by_cmp_equiv, on_total};

    ghost eq = { eq_by_cmp (on atom_view atom_cmp) };

    ghost laws = { partial_equiv_from_equiv (eq_by_cmp_equiv (on_total atom_view atom_cmp_total)) };

    fn eq(&self, other: &Atom) -> bool {
        self.cmp(other) == Ordering::Equal
    }
}

impl Eq for Atom {
    ghost use Rattle.ov_specs.proofs.laws.Order.{atom_cmp_total};
    ghost use Rattle.ov_atoms.specs.Views.{atom_view};
    ghost use Rattle.std.specs.Cmp.{eq_by_cmp_equiv, on_total};

    ghost laws = { eq_by_cmp_equiv (on_total atom_view atom_cmp_total) };
}

impl PartialOrd for Atom {
    ghost use Rattle.std.specs.Prelude.{Some, refl};
    ghost use Rattle.std.specs.Ordering.{on};
    ghost use Rattle.ov_specs.specs.values.Value.{atom_cmp};
    ghost use Rattle.ov_specs.proofs.laws.Order.{atom_cmp_total};
    ghost use Rattle.ov_atoms.specs.Views.{atom_view};
    ghost use Rattle.std.specs.Cmp.{partial_order_from_agreeing_total, on_total};

    ghost partial_cmp = { λ a b. Some (on atom_view atom_cmp a b) };

    ghost laws = { partial_order_from_agreeing_total (on atom_view atom_cmp)
        (on_total atom_view atom_cmp_total) (λ a b. refl) (λ a b. refl) };

    fn partial_cmp(&self, other: &Atom) -> Option<Ordering> {
        Some(self.cmp(other))
    }
}

impl Ord for Atom {
    ghost use Rattle.std.specs.Prelude.{refl};
    ghost use Rattle.std.specs.Ordering.{on};
    ghost use Rattle.ov_specs.specs.values.Value.{atom_cmp};
    ghost use Rattle.ov_specs.proofs.laws.Order.{atom_cmp_total};
    ghost use Rattle.ov_atoms.specs.Views.{atom_view};
    ghost use Rattle.std.specs.Cmp.{on_total};

    ghost cmp = { on atom_view atom_cmp };

    ghost total = { on_total atom_view atom_cmp_total };

    ghost matches_partial_cmp = { λ a b. refl };

    ghost matches_eq = { λ a b. refl };

    /// Numbers by value; false before true; texts by bytes; UUIDs by number; atoms of two kinds by kind.
    fn cmp(&self, other: &Atom) -> Ordering {
        match (self, other) {
            (Atom::Integer(a), Atom::Integer(b)) => a.cmp(b),
            (Atom::Boolean(a), Atom::Boolean(b)) => a.cmp(b),
            (Atom::Text(a), Atom::Text(b)) => a.as_str().cmp(b.as_str()),
            (Atom::Uuid(a), Atom::Uuid(b)) => a.cmp(b),
            _ => self.kind().rank().cmp(&other.kind().rank()),
        }
    }
}
