ghost use Rattle.std.specs.Prelude.{◌≡◌, is_some, codes, ok_or, option_map};
ghost use Rattle.serde_json.specs.View.{view};
ghost use Rattle.ov_specs.specs.operations.Mutators.{BadMutation, integer_of, deleted_kinds};
ghost use Rattle.ov_specs.specs.operations.Mutators.{change_read};
ghost use Rattle.ov_specs.specs.values.Reading.{reads, as_two, tagged};
ghost use Rattle.ov_specs.specs.values.Value as value;
ghost use Rattle.ov_atoms.specs.Views.{kinds_view};
ghost use Rattle.ov_mutate.specs.Views.{value_change_view, mutator_view};
ghost use Rattle.ov_mutate.specs.Faults.{IsMutationRead};

use crate::fault::MutationFault;
use crate::mutator::{Mutator, Operator};
use ov_atoms::{AtomFault, AtomKind, Datum, Kinds, Names, read_datum};
use ov_conds::Elements;
use ov_schema::Column;
use serde_json::Value;
use std::alloc::Global;

/// What is done to a value: its numbers are computed, elements are inserted, or elements are deleted. A set of atoms that is
/// deleted from a map is a set of keys.
#[derive(Drop)]
pub(crate) enum ValueChange {
    Compute(Operator, i64),
    Insert(Datum),
    Delete(Datum),
}

/// Reads a number from a tree, as for a scalar.
fn read_integer<N: Names>(alloc: Global, tree: &Value, names: &N) -> Result<i64, MutationFault>
    ensures { IsMutationRead (λ n. n)
        (ok_or
        (integer_of (reads (N.names names.now) (value.Single value.Integers) (view tree.now)))
        BadMutation)
        result }
{
    match read_datum(alloc, tree, Kinds::Single(AtomKind::Integer), names) {
        Ok(datum) => Elements::of(&datum).number().ok_or(MutationFault::Syntax),
        Err(AtomFault::Memory) => Err(MutationFault::Memory),
        Err(AtomFault::Syntax) | Err(AtomFault::Clash) => Err(MutationFault::Syntax),
    }
}

/// The items of an array of two.
fn as_two(tree: &Value) -> Option<(&Value, &Value)>
    ensures { option_map (λ p. (view p.0.now, view p.1.now)) result ≡ as_two (view tree.now) }
{
    let items = tree.as_array()?.as_slice();
    if items.len() != 2 {
        return None;
    }
    Some((&items[0], &items[1]))
}

/// Whether a tree begins with "map".
fn is_map(tree: &Value) -> bool
    ensures { result ≡ is_some (tagged (codes "map") (view tree.now)) }
{
    let Some((first, _list)) = as_two(tree) else {
        return false;
    };
    match first.as_str() {
        Some(word) => word == "map",
        None => false,
    }
}

/// How the tree of a "delete" is read: for a map, a tree that begins with "map" is a map, and any other a set of keys.
fn deleted_kinds(kinds: Kinds, tree: &Value) -> Kinds
    ensures { kinds_view result ≡ deleted_kinds (kinds_view kinds) (view tree.now) }
{
    match kinds {
        Kinds::Pair(key, _) if !is_map(tree) => Kinds::Single(key),
        _ => kinds,
    }
}

impl ValueChange {
    /// What a mutator does with the value that a tree stands for: one integer, or elements.
    pub(crate) fn read<N: Names>(
        alloc: Global,
        column: &Column,
        mutator: Mutator,
        tree: &Value,
        names: &N,
    ) -> Result<ValueChange, MutationFault>
        ensures { IsMutationRead value_change_view
            (change_read (N.names names.now) column.now.type_of (mutator_view mutator)
            (view tree.now))
            result }
    {
        match mutator {
            Mutator::Computes(operator) => {
                let by = read_integer(alloc, tree, names)?;
                Ok(ValueChange::Compute(operator, by))
            }
            Mutator::Inserts => {
                let elements = read_datum(alloc, tree, column.kinds(), names)?;
                Ok(ValueChange::Insert(elements))
            }
            Mutator::Deletes => {
                let kinds = deleted_kinds(column.kinds(), tree);
                let elements = read_datum(alloc, tree, kinds, names)?;
                Ok(ValueChange::Delete(elements))
            }
        }
    }
}
