ghost use Rattle.std.specs.Prelude.{◌≡◌, List, [], ℕ, map, IfOk, OnOk, false};
ghost use Rattle.serde_json.specs.Data.{put};
ghost use Rattle.serde_json.specs.View.{members_view};
ghost use Rattle.ov_rows.specs.Lending.{lent_row_of};
ghost use Rattle.ov_rows.specs.Named.{named};
ghost use Rattle.ov_specs.specs.rows.Database.{one_uuid, placed, written_column};
ghost use Rattle.ov_specs.specs.operations.Conditions.{column_value};
ghost use Rattle.ov_specs.specs.operations.Select as spec;
ghost use Rattle.ov_specs.specs.wire.Tree.{has_real, members_have_real};
ghost use Rattle.ov_specs.specs.values.Writing.{tree};
ghost use Rattle.ov_projection.specs.Shown.{shown_column};

use ov_atoms::{Atom, Datum, write_datum};
use ov_base::{Text, Tree};
use ov_rows::RowView;
use serde_json::{Map, Value};
use std::alloc::{AllocError, Global};
use std::cmp::Ordering;
use std::marker::Model;
use uuid::Uuid;

/// What is shown of a row: the chosen columns that it has, in ascending order of their names.
#[derive(Drop)]
pub struct ShownRow {
    columns: Vec<(String, Datum)>,
}

impl Model for ShownRow {
    ghost use Rattle.std.specs.Prelude.{List, ℕ};
    ghost use Rattle.std.specs.Coded.{coded×, coded_ℕ, coded_list};
    ghost use Rattle.ov_specs.specs.values.Value as value;
    ghost use Rattle.ov_specs.specs.codes.ValueCode.{datum_code};
    ghost use Rattle.ov_rows.specs.Named.{named};

    ghost Value = { List (List ℕ × value.Datum) };

    ghost coded = { coded_list (coded× (coded_list coded_ℕ) datum_code) };

    ghost view = { λ r. named r.columns.items };
}

/// A set of one identifier (RFC 7047, 5.1, `<uuid>`).
fn one_uuid(id: Uuid) -> Datum
    ensures { result ≡ one_uuid id }
{
    Datum::of_atom(Atom::Uuid(id))
}

/// The value of a row's column, including `_uuid` and `_version` (RFC 7047, 3.2).
fn column_of(alloc: Global, row: &RowView<'_>, name: &str) -> Result<Option<Datum>, AllocError>
    ensures { IfOk result (λ o. o
        ≡ column_value row.now.id.now row.now.row.now.version row.now.row.now.columns name.now) }
{
    let stored = row.row;
    if name == "_uuid" {
        return Ok(Some(one_uuid(*row.id)));
    }
    if name == "_version" {
        return Ok(Some(one_uuid(stored.version)));
    }
    match stored.columns.get(name) {
        Some(datum) => Ok(Some(datum.copy(alloc)?)),
        None => Ok(None),
    }
}

impl ShownRow {
    /// These columns of a row, with their names (RFC 7047, 5.2.2).
    pub fn of(alloc: Global, names: &[Text], row: &RowView<'_>) -> Result<ShownRow, AllocError>
        ensures { (table : List ℕ)
            → IfOk result (λ r. r ≡ spec.projection names.now (lent_row_of table row.now)) }
    {
        let mut columns = Vec::with_capacity(alloc, names.len())?;
        for name in names {
            if let Some(datum) = column_of(alloc, row, name.as_str())? {
                columns.push((String::from_str(alloc, name.as_str())?, datum))?;
            }
        }
        Ok(ShownRow { columns })
    }

    /// These values with their names, in this order.
    pub fn new(columns: Vec<(String, Datum)>) -> ShownRow
        ensures { result ≡ named columns.items }
    {
        ShownRow { columns }
    }

    /// The row as it is shown (RFC 7047, 5.1, `<row>`).
    pub fn tree(&self, alloc: Global) -> Result<Tree, AllocError>
        ensures { IfOk result (λ t. t ≡ spec.written_row self.now) }
    {
        let mut members = Map::new(alloc);
        for (name, datum) in &self.columns {
            put_column(alloc, &mut members, name.as_str(), datum)?;
        }
        Ok(Tree::new(Value::Object(members)))
    }
}

/// These columns of a row as they are shown (RFC 7047, 5.1, `<row>`, and 5.2.2). No value of the row is copied first.
pub fn shown_tree(alloc: Global, names: &[Text], row: &RowView<'_>) -> Result<Tree, AllocError>
    ensures { (table : List ℕ)
        → IfOk result (λ t. t
        ≡ spec.written_row (spec.projection names.now (lent_row_of table row.now))) }
{
    let mut members = Map::new(alloc);
    for name in names {
        put_shown(alloc, &mut members, name.as_str(), row)?;
    }
    Ok(Tree::new(Value::Object(members)))
}

/// Puts the written value of the row's column of this name among the members, if the row has one.
fn put_shown(
    alloc: Global,
    members: &mut Map<String, Value>,
    name: &str,
    row: &RowView<'_>,
) -> Result<(), AllocError>
    ensures put { OnOk result (members_view members.new.entries
        ≡ placed (members_view members.old.entries)
        (map written_column (shown_column (lent_row_of [] row.now) name.now))) }
    ensures plain { members_have_real (members_view members.old.entries) ≡ false
        → OnOk result (members_have_real (members_view members.new.entries) ≡ false) }
{
    let stored = row.row;
    if name == "_uuid" {
        return put_column(alloc, members, name, &one_uuid(*row.id));
    }
    if name == "_version" {
        return put_column(alloc, members, name, &one_uuid(stored.version));
    }
    match stored.columns.get(name) {
        Some(datum) => put_column(alloc, members, name, datum),
        None => Ok(()),
    }
}

/// Puts the written value of a column among the members.
fn put_column(
    alloc: Global,
    members: &mut Map<String, Value>,
    name: &str,
    datum: &Datum,
) -> Result<(), AllocError>
    ensures put { OnOk result (members_view members.new.entries
        ≡ put name.now (tree datum.now) (members_view members.old.entries)) }
    ensures plain { OnOk result (has_real (tree datum.now) ≡ false) }
{
    members.insert(String::from_str(alloc, name)?, write_datum(alloc, datum)?)?;
    Ok(())
}

impl PartialEq for ShownRow {
    ghost use Rattle.std.specs.Ordering.{eq_by_cmp};
    ghost use Rattle.std.specs.Cmp.{partial_equiv_from_equiv, eq_by_cmp_equiv};
    ghost use Rattle.std.specs.Cmp.Lexicographic.{slice_cmp, lists_total};
    ghost use Rattle.ov_specs.proofs.laws.Sameness.{column_cmp, column_cmp_total};

    ghost eq = { eq_by_cmp (slice_cmp column_cmp) };

    ghost laws = { partial_equiv_from_equiv (eq_by_cmp_equiv (lists_total column_cmp_total)) };

    /// The same values in the same columns.
    fn eq(&self, other: &ShownRow) -> bool {
        self.cmp(other) == Ordering::Equal
    }
}

impl Eq for ShownRow {
    ghost use Rattle.std.specs.Cmp.{eq_by_cmp_equiv};
    ghost use Rattle.std.specs.Cmp.Lexicographic.{lists_total};
    ghost use Rattle.ov_specs.proofs.laws.Sameness.{column_cmp_total};

    ghost laws = { eq_by_cmp_equiv (lists_total column_cmp_total) };
}

impl PartialOrd for ShownRow {
    ghost use Rattle.std.specs.Prelude.{Some, refl};
    ghost use Rattle.std.specs.Cmp.{partial_order_from_agreeing_total};
    ghost use Rattle.std.specs.Cmp.Lexicographic.{slice_cmp, lists_total};
    ghost use Rattle.ov_specs.proofs.laws.Sameness.{column_cmp, column_cmp_total};

    ghost partial_cmp = { λ a b. Some (slice_cmp column_cmp a b) };

    ghost laws = { partial_order_from_agreeing_total (slice_cmp column_cmp)
        (lists_total column_cmp_total) (λ a b. refl) (λ a b. refl) };

    fn partial_cmp(&self, other: &ShownRow) -> Option<Ordering> {
        Some(self.cmp(other))
    }
}

impl Ord for ShownRow {
    ghost use Rattle.std.specs.Prelude.{refl};
    ghost use Rattle.std.specs.Cmp.Lexicographic.{slice_cmp, lists_total};
    ghost use Rattle.ov_specs.proofs.laws.Sameness.{column_cmp, column_cmp_total};

    ghost cmp = { slice_cmp column_cmp };

    ghost total = { lists_total column_cmp_total };

    ghost matches_partial_cmp = { λ a b. refl };

    ghost matches_eq = { λ a b. refl };

    /// Compares column by column: the name, then the value.
    fn cmp(&self, other: &ShownRow) -> Ordering {
        self.columns.as_slice().cmp(other.columns.as_slice())
    }
}
