ghost use Rattle.std.specs.Prelude.{◌≡◌, true, IfOk, IfSome, option_copied};
ghost use Rattle.serde_json.specs.View.{view};
ghost use Rattle.ov_specs.specs.operations.Conditions.{column_value, holds, compares, value_read};
ghost use Rattle.ov_specs.specs.operations.Conditions.{condition_read, suits_condition};
ghost use Rattle.ov_specs.specs.rows.Database.{one_uuid};
ghost use Rattle.ov_specs.specs.values.Reading.{reads};
ghost use Rattle.ov_specs.specs.values.Uuid.{AreUuids};
ghost use Rattle.ov_specs.specs.schema.SchemaTypes.{kinds_of};
ghost use Rattle.ov_conds.specs.EqualTo.{IsValueIn, equal_value, equals};
ghost use Rattle.ov_conds.specs.OnlyId.{IsOnlyOf, equal_uuid, only_id};
ghost use Rattle.ov_conds.specs.Views.{function_view, IsConditionRead};

use crate::elements::Elements;
use crate::fault::ConditionFault;
use crate::function::Function;
use crate::triple::Triple;
use ov_atoms::{Atom, Datum, Names, read_datum};
use ov_base::Text;
use ov_rows::RowView;
use ov_schema::{Column, Table};
use serde_json::Value;
use std::alloc::Global;
use std::marker::Model;
use uuid::Uuid;

/// A condition on the rows of a table: a column, and what it is compared with (RFC 7047, 5.1, `<condition>`).
#[derive(Drop)]
pub struct Condition {
    column: Text,
    function: Function,
    value: Datum,
}

impl Model for Condition {
    ghost use Rattle.ov_specs.specs.operations.Conditions as conditions;
    ghost use Rattle.ov_specs.specs.codes.ConditionCode.{condition_code};
    ghost use Rattle.ov_conds.specs.Views.{function_view};

    ghost Value = { conditions.Condition };

    ghost coded = { condition_code };

    ghost view = { λ c. record {
      column = c.column;
      function = function_view c.function;
      value = c.value;
    } };
}

impl Condition {
    /// Reads a condition on a row of the table from a tree. Reports the first of its faults: in its shape, its column, the
    /// function on that column, and its value. The value is read by the kinds of the column alone; for a scalar column, and
    /// for `<` and the like, it has one atom (RFC 7047, 5.1, `<condition>`, which does not say which fault). If names stand
    /// for identifiers alone, it is a value of these kinds within their bounds.
    pub fn read<N: Names>(
        alloc: Global,
        table: &Table,
        tree: &Value,
        names: &N,
    ) -> Result<Condition, ConditionFault>
        ensures value { IsConditionRead
            (condition_read (N.names names.now) table.now (view tree.now)) result }
        ensures suits { AreUuids (N.names names.now)
            → IfOk result (λ c. suits_condition table.now c ≡ true) }
    {
        let Some(parts) = Triple::read(tree) else {
            return Err(ConditionFault::Syntax);
        };
        let Some(column) = table.column(parts.column) else {
            return Err(ConditionFault::UnknownColumn);
        };
        let Some(function) = Function::on(column, parts.word) else {
            return Err(ConditionFault::Syntax);
        };
        let value = read_value(alloc, column, function, parts.value, names)?;
        Ok(Condition {
            column: Text::from_str(alloc, parts.column)?,
            function,
            value,
        })
    }

    /// Whether a row meets the condition. A row that lacks the column meets none (RFC 7047, 5.1, `<condition>`).
    pub fn holds(&self, row: &RowView<'_>) -> bool
        ensures { result
            ≡ holds (column_value row.now.id.now row.now.row.now.version row.now.row.now.columns)
            self.now }
    {
        let name = self.column.as_str();
        let stored = row.row;
        if name == "_uuid" {
            return self.holds_of_uuid(*row.id);
        }
        if name == "_version" {
            return self.holds_of_uuid(stored.version);
        }
        match stored.columns.get(name) {
            Some(datum) => self.holds_of(datum),
            None => false,
        }
    }

    /// The identifier of each row that meets the condition, if `_uuid` is to be equal to one.
    pub fn only_id(&self) -> Option<Uuid>
        ensures value { result ≡ only_id self.now }
        ensures only { IfSome result (λ id. IsOnlyOf id self.now) }
    {
        if self.column.as_str() == "_uuid" {
            self.equal_uuid()
        } else {
            None
        }
    }

    fn equal_uuid(&self) -> Option<Uuid>
        ensures { result ≡ equal_uuid self.now.function self.now.value }
    {
        match self.function {
            Function::Equal => Elements::of(&self.value).uuid(),
            _ => None,
        }
    }

    /// The value of each row that meets the condition in the column of this name, if the column is to be equal to it.
    pub fn equals(&self, column: &str) -> Option<&Datum>
        ensures value { option_copied result ≡ equals column.now self.now }
        ensures only { IfSome result (λ value. IsValueIn column.now value.now self.now) }
    {
        if self.column.as_str() == column {
            self.equal_value()
        } else {
            None
        }
    }

    fn equal_value(&self) -> Option<&Datum>
        ensures { option_copied result ≡ equal_value self.now.function self.now.value }
    {
        match self.function {
            Function::Equal => Some(&self.value),
            _ => None,
        }
    }

    fn holds_of(&self, datum: &Datum) -> bool
        ensures { result ≡ compares self.now.function datum.now self.now.value }
    {
        let value = Elements::of(&self.value);
        self.function.compares(Elements::of(datum), value)
    }

    fn holds_of_uuid(&self, id: Uuid) -> bool
        ensures { result ≡ compares self.now.function (one_uuid id) self.now.value }
    {
        let atoms = [Atom::Uuid(id)];
        let value = Elements::of(&self.value);
        self.function.compares(Elements::Atoms(&atoms), value)
    }
}

/// The value that the column is compared with.
fn read_value<N: Names>(
    alloc: Global,
    column: &Column,
    function: Function,
    tree: &Value,
    names: &N,
) -> Result<Datum, ConditionFault>
    ensures { IsConditionRead
        (value_read column.now.type_of (function_view function)
        (reads (N.names names.now) (kinds_of column.now.type_of) (view tree.now)))
        result }
{
    let value = read_datum(alloc, tree, column.kinds(), names)?;
    if (column.is_scalar() || function.is_relation()) && value.count() != 1 {
        return Err(ConditionFault::Syntax);
    }
    Ok(value)
}
