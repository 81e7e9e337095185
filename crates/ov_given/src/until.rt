ghost use Rattle.std.specs.Prelude.{◌≡◌, IfOk, List, ℕ, option_map};
ghost use Rattle.std.specs.List.{list_any, list_all};
ghost use Rattle.ov_specs.specs.operations.Wait as wait;
ghost use Rattle.ov_specs.specs.rows.Database.{same_columns};
ghost use Rattle.ov_specs.specs.values.Value as value;
ghost use Rattle.ov_given.specs.Waiting.{until_view};
ghost use Rattle.ov_projection.proofs.Showing.{any_at};

use ov_projection::ShownRow;
use std::alloc::{AllocError, Global};
use std::collections::BTreeSet;

/// What is waited for (RFC 7047, 5.2.6).
#[derive(Clone, Copy, Debug, PartialEq, Eq)]
pub enum Until {
    /// That the rows are the stated ones.
    Equal,
    /// That they are not.
    NotEqual,
}

/// What a word, `==` or `!=`, waits for (RFC 7047, 5.2.6).
pub fn until_of(word: &str) -> Option<Until>
    ensures { option_map until_view result ≡ wait.until_of word.now }
{
    if word == "==" {
        Some(Until::Equal)
    } else if word == "!=" {
        Some(Until::NotEqual)
    } else {
        None
    }
}

/// All these rows, as a set to look them up in.
fn rows_known(alloc: Global, rows: &[ShownRow]) -> Result<BTreeSet<&ShownRow>, AllocError>
    ensures { IfOk result (λ known. (row : List (List ℕ × value.Datum)) → any_at row known.keys
        ≡ list_any (λ other. same_columns other row) rows.now) }
{
    let mut known = BTreeSet::new(alloc);
    for row in rows {
        known.insert(row)?;
    }
    Ok(known)
}

/// Whether each of the rows is among the known ones.
fn are_known<'a>(known: &BTreeSet<&'a ShownRow>, rows: &'a [ShownRow]) -> bool
    ensures { result ≡ list_all (λ row. any_at row known.now.keys) rows.now }
{
    for row in rows {
        if !known.contains(&row) {
            return false;
        }
    }
    true
}

/// Whether each of the rows is among the others.
fn are_among<'a>(
    alloc: Global,
    others: &'a [ShownRow],
    rows: &'a [ShownRow],
) -> Result<bool, AllocError>
    ensures { IfOk result (λ b. b ≡ wait.are_among others.now rows.now) }
{
    let known = rows_known(alloc, others)?;
    Ok(are_known(&known, rows))
}

/// Whether these are the same rows, regardless of order and repeats.
fn same_rows<'a>(
    alloc: Global,
    one: &'a [ShownRow],
    other: &'a [ShownRow],
) -> Result<bool, AllocError>
    ensures { IfOk result (λ b. b ≡ wait.same_rows one.now other.now) }
{
    if are_among(alloc, other, one)? {
        are_among(alloc, one, other)
    } else {
        Ok(false)
    }
}

/// Whether what was waited for has come, given the rows that are seen and those that are stated. Order and repeats of rows do
/// not count (RFC 7047, 5.2.6, which does not say so).
pub fn is_met(
    alloc: Global,
    until: Until,
    seen: &[ShownRow],
    told: &[ShownRow],
) -> Result<bool, AllocError>
    ensures { IfOk result (λ b. b ≡ wait.is_met (until_view until) seen.now told.now) }
{
    let are_same = same_rows(alloc, seen, told)?;
    match until {
        Until::Equal => Ok(are_same),
        Until::NotEqual => Ok(!are_same),
    }
}
