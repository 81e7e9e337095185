ghost use Rattle.std.specs.Prelude.{◌≡◌, true, length, List, ℕ, Bool, IfOk};
ghost use Rattle.std.specs.FinMap.{entries};
ghost use Rattle.std.specs.List.{list_any};
ghost use Rattle.ov_index.specs.Indexing.{AreIndexesOf};
ghost use Rattle.ov_support.specs.Counting.{IsAtMost, is_overfull};
ghost use Rattle.ov_specs.specs.integrity.Committed.{is_whole};
ghost use Rattle.ov_specs.specs.integrity.Limits.{has_too_many, is_over_limits, rows_of};
ghost use Rattle.ov_specs.specs.rows.Suits.{Suits};

use ov_base::Text;
use ov_index::{Indexes, are_made_alike};
use ov_projection::is_among;
use ov_rows::Rows;
use ov_schema::Schema;
use ov_stage::Stage;
use ov_stored::Delta;
use std::alloc::{AllocError, Global};

/// How many rows the table of this name has.
fn count_of(rows: &Rows, name: &str) -> usize
    ensures { result ≡ length (rows_of name.now rows.now) }
{
    match rows.of_table(name) {
        Some(table) => table.map().len(),
        None => 0,
    }
}

/// The most rows that the table of this name can have: no change adds more than one.
fn most_rows(stage: &Stage<'_>, name: &str) -> i128
    ensures { IsAtMost (length (rows_of name.now stage.now.now)) result }
{
    count_of(stage.before(), name) as i128 + stage.changes().map().len() as i128
}

/// Whether the table of this name has more rows than its `maxRows` (RFC 7047, 3.2, `<table-schema>`, maxRows). Counts rows
/// only if it has a `maxRows`, and lists them only if the changes may have exceeded it.
fn is_overfull(
    alloc: Global,
    schema: &Schema,
    stage: &Stage<'_>,
    name: &str,
) -> Result<bool, AllocError>
    ensures { IfOk result (λ overfull. overfull ≡ is_overfull schema.now stage.now.now name.now) }
{
    let Some(table) = schema.table(name) else {
        return Ok(false);
    };
    let Some(most) = table.max_rows() else {
        return Ok(false);
    };
    if most_rows(stage, name) <= i128::from(most) {
        return Ok(false);
    }
    let rows = stage.rows_of(alloc, name)?;
    Ok(i128::from(most) < (rows.len() as i128))
}

/// The names of the tables with a changed row, each once.
fn touched(alloc: Global, changes: &Delta) -> Result<Vec<Text>, AllocError>
    ensures { IfOk result (λ names. (test : List ℕ → Bool) → list_any test names.items
        ≡ list_any (λ c. test c.0.0) (entries changes.now)) }
{
    let mut names = Vec::new(alloc);
    for (key, _change) in changes.map() {
        if !is_among(names.as_slice(), key.table()) {
            names.push(Text::from_str(alloc, key.table())?)?;
        }
    }
    Ok(names)
}

/// Whether a table has too many rows. None had before the transaction, so it is a table with a changed row.
fn are_too_many(alloc: Global, schema: &Schema, stage: &Stage<'_>) -> Result<bool, AllocError>
    requires whole { is_whole schema.now stage.now.before ≡ true }
    ensures { IfOk result (λ many. many
        ≡ list_any (has_too_many stage.now.now) (entries schema.now.tables)) }
{
    for name in touched(alloc, stage.changes())? {
        if is_overfull(alloc, schema, stage, name.as_str())? {
            return Ok(true);
        }
    }
    Ok(false)
}

/// Whether a table has too many rows, or two rows that are equal in an index (RFC 7047, 3.2, `<table-schema>`, maxRows and
/// indexes). Equal rows are found by the indexes of the rows before the transaction: only the rows that it has changed are
/// looked at. The rows before are whole, and the indexes are theirs. Refused only if an allocation fails.
pub fn breaks_a_limit(
    alloc: Global,
    schema: &Schema,
    indexes: &Indexes,
    stage: &Stage<'_>,
) -> Result<bool, AllocError>
    requires whole { is_whole schema.now stage.now.before ≡ true }
    requires indexed { AreIndexesOf schema.now stage.now.before indexes.now }
    requires suits { Suits schema.now stage.now.now }
    ensures { IfOk result (λ over. over ≡ is_over_limits schema.now stage.now.now) }
{
    let changes = stage.changes().map();
    Ok(are_too_many(alloc, schema, stage)? || are_made_alike(alloc, schema, indexes, changes)?)
}
