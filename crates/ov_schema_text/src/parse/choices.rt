ghost use Rattle.std.specs.Prelude.{◌≡◌, not, option_map, IfOk};
ghost use Rattle.std.specs.FinMap.{keys};
ghost use Rattle.serde_json.specs.View.{view};
ghost use Rattle.ov_specs.specs.values.Value.{set_of};
ghost use Rattle.ov_specs.specs.values.Reading.{atoms_read};
ghost use Rattle.ov_specs.specs.values.Uuid.{no_names};
ghost use Rattle.ov_specs.specs.schema.Schema.{is_empty, choices_of};
ghost use Rattle.ov_atoms.specs.Views.{kind_view};
ghost use Rattle.ov_schema_text.specs.ShapeViews.{name_view};
ghost use Rattle.ov_schema.specs.Sets.{set_in};

use crate::parse::base_shape::TypeName;
use ov_atoms::{AtomFault, AtomKind, Datum, Kinds, NoNames, read_datum};
use serde_json::Value;
use std::alloc::{AllocError, Global};

/// The set of an `enum`, or `None` if there is no such member or it does not read as a set of the type.
pub fn read_choices(
    alloc: Global,
    of: TypeName,
    choices: Option<&Value>,
) -> Result<Option<Datum>, AllocError>
    ensures { IfOk result (λ o. option_map set_in o
        ≡ choices_of (name_view of) (option_map (λ v. view v.now) choices.entry)) }
{
    match of {
        TypeName::Kind(kind) => match choices {
            Some(tree) => read_set(alloc, kind, tree),
            None => Ok(None),
        },
        TypeName::Real => Ok(None),
    }
}

fn read_set(alloc: Global, kind: AtomKind, tree: &Value) -> Result<Option<Datum>, AllocError>
    ensures { IfOk result (λ o. option_map set_in o
        ≡ option_map set_of (atoms_read no_names (kind_view kind) (view tree.now))) }
{
    match read_datum(alloc, tree, Kinds::Single(kind), &NoNames) {
        Ok(datum) => Ok(Some(datum)),
        Err(AtomFault::Syntax) => Ok(None),
        Err(AtomFault::Clash) => Ok(None),
        Err(AtomFault::Memory) => Err(AllocError),
    }
}

/// Whether a set has at least one atom.
pub(crate) fn has_atoms(set: &Datum) -> bool
    ensures { result ≡ not (is_empty (keys (set_in set.now))) }
{
    match set.atoms() {
        Some(atoms) => !atoms.is_empty(),
        None => false,
    }
}
