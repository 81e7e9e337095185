ghost use Rattle.std.specs.Prelude.{◌≡◌, true, IfOk};
ghost use Rattle.serde_json.specs.View.{view};
ghost use Rattle.ov_specs.specs.operations.Mutators.{mutation_read, mutated, suits_mutation};
ghost use Rattle.ov_specs.specs.schema.SchemaTypes.{kinds_of};
ghost use Rattle.ov_specs.specs.values.Uuid.{AreUuids};
ghost use Rattle.ov_specs.specs.values.Value.{is_of};
ghost use Rattle.ov_mutate.specs.Faults.{IsMutationRead, IsMutated};

use crate::change::ValueChange;
use crate::fault::{MutateFault, MutationFault};
use crate::mutator::Mutator;
use ov_atoms::{Datum, Names};
use ov_base::Text;
use ov_conds::Triple;
use ov_schema::{Column, Table};
use serde_json::Value;
use std::alloc::Global;
use std::marker::Model;

/// A mutation of the rows of a table: a column, borrowed from the table, and what is done to it (RFC 7047, 5.1, `<mutation>`).
#[derive(Drop)]
pub struct Mutation<'a> {
    name: Text,
    column: &'a Column,
    change: ValueChange,
}

impl<'a> Model for Mutation<'a> {
    ghost use Rattle.ov_specs.specs.operations.Mutators as mutators;
    ghost use Rattle.ov_specs.specs.codes.MutationCode.{mutation_code};
    ghost use Rattle.ov_mutate.specs.Views.{value_change_view};

    ghost Value = { mutators.Mutation };

    ghost coded = { mutation_code };

    ghost view = { λ m. record {
      column = m.name;
      type_of = m.column.now.type_of;
      change = value_change_view m.change;
    } };
}

impl<'a> Mutation<'a> {
    /// Reads a mutation of a row of the table from a tree. Reports the first of its faults: in its shape, its column, whether
    /// clients may change that, the mutator on it, and its value. A number is read as for a scalar; what is inserted, by the
    /// kinds of the column alone; what is deleted from a map is a map, or a set of keys (RFC 7047, 5.1, `<mutation>`, which
    /// does not say which fault). If names stand for identifiers alone, it is of these kinds within their bounds.
    pub fn read<N: Names>(
        alloc: Global,
        table: &'a Table,
        tree: &Value,
        names: &N,
    ) -> Result<Mutation<'a>, MutationFault>
        ensures value { IsMutationRead (λ m. m)
            (mutation_read (N.names names.now) table.now (view tree.now)) result }
        ensures suits { AreUuids (N.names names.now) → IfOk result (λ m. suits_mutation m ≡ true) }
    {
        let Some(parts) = Triple::read(tree) else {
            return Err(MutationFault::Syntax);
        };
        let Some(column) = table.column(parts.column) else {
            return Err(MutationFault::UnknownColumn);
        };
        if !column.is_mutable() {
            return Err(MutationFault::NotMutable);
        }
        let Some(mutator) = Mutator::on(column, parts.word) else {
            return Err(MutationFault::Syntax);
        };
        let change = ValueChange::read(alloc, column, mutator, parts.value, names)?;
        Ok(Mutation {
            name: Text::from_str(alloc, parts.column)?,
            column,
            change,
        })
    }

    /// The name of the column.
    pub fn column(&self) -> &str
        ensures { result.now ≡ self.now.column }
    {
        self.name.as_str()
    }

    /// What the mutation makes of a value of its column. Reports the first of these faults: a domain, a range, a
    /// constraint error (RFC 7047, 5.2.4, which sets no order). The original value stays. A value of the column's kinds stays
    /// one if the mutation was read with names that stand for identifiers alone.
    pub fn mutate(&self, alloc: Global, datum: &Datum) -> Result<Datum, MutateFault>
        ensures value { IsMutated (λ d. d) (mutated self.now.type_of self.now.change datum.now)
            result }
        ensures kinds { suits_mutation self.now ≡ true
            → is_of (kinds_of self.now.type_of) datum.now ≡ true
            → IfOk result (λ d. is_of (kinds_of self.now.type_of) d ≡ true) }
    {
        self.change.apply(alloc, self.column, datum)
    }
}
