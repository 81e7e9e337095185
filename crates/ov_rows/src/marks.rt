ghost use Rattle.std.specs.Prelude.{◌≡◌, ◌∷◌, ◌/◌, IfOk, List, reverse};
ghost use Rattle.ov_specs.specs.values.Value as value;
ghost use Rattle.ov_rows.specs.Spread.{before, own_among, spread};

use ov_atoms::Datum;
use std::alloc::{AllocError, Global};

/// How many columns of a row can have a mark: the bits of a `u64`.
const MARKED: usize = 64;

/// The marks of these values: a bit for each of the first 64, the lowest for the first, set if the value is the default at its
/// place.
pub(crate) fn marks_of(defaults: &[Datum], values: &[Datum]) -> u64
    ensures { spread result defaults.now (own_among result values.now) ≡ values.now }
{
    let mut marks: u64 = 0;
    for place in (0..values.len().min(defaults.len()).min(MARKED)).rev() {
        marks *= 2;
        if values[place] == defaults[place] {
            marks += 1;
        }
    }
    marks
}

/// The values that have no mark. Nothing is allocated if no value has one.
pub(crate) fn own_among(
    alloc: Global,
    marks: u64,
    values: Vec<Datum>,
) -> Result<Vec<Datum>, AllocError>
    ensures { IfOk result (λ own. own.items ≡ own_among marks values.items) }
{
    if marks == 0 {
        return Ok(values);
    }
    let room = values.len().saturating_sub(marks.count_ones() as usize);
    let mut own = Vec::with_capacity(alloc, room)?;
    let mut left = marks;
    for datum in values {
        if left % 2 == 0 {
            own.push(datum)?;
        }
        left /= 2;
    }
    Ok(own)
}

/// The value of the first column, or none: a copy of its default if it has a mark, or the last of the row's own values, which
/// are here in reverse order.
fn take_first(
    alloc: Global,
    marks: u64,
    default: &Datum,
    own: &mut Vec<Datum>,
) -> Result<Option<Datum>, AllocError>
    ensures { IfOk result (λ first. (defaults : List value.Datum)
        → spread marks (default.now ∷ defaults) (reverse own.old.items)
        ≡ before first (spread (marks / 2) defaults (reverse own.new.items))) }
{
    if marks % 2 == 1 {
        return Ok(Some(default.copy(alloc)?));
    }
    Ok(own.pop())
}

/// All values of a row: a copy of its default for each column that has a mark, and the row's own for the others.
pub(crate) fn spread_out(
    alloc: Global,
    marks: u64,
    defaults: &[Datum],
    own: Vec<Datum>,
) -> Result<Vec<Datum>, AllocError>
    ensures { IfOk result (λ values. values.items ≡ spread marks defaults.now own.items) }
{
    let mut rest = own;
    rest.reverse();
    let mut left = marks;
    let room = rest.len().saturating_add(marks.count_ones() as usize);
    let mut values = Vec::with_capacity(alloc, room)?;
    for default in defaults {
        match take_first(alloc, left, default, &mut rest)? {
            Some(datum) => values.push(datum)?,
            None => return Ok(values),
        }
        left /= 2;
    }
    rest.reverse();
    values.append(&mut rest)?;
    Ok(values)
}

/// Copies of these values.
pub(crate) fn copied(alloc: Global, values: &[Datum]) -> Result<Vec<Datum>, AllocError>
    ensures { IfOk result (λ copies. copies.items ≡ values.now) }
{
    let mut copies = Vec::with_capacity(alloc, values.len())?;
    for datum in values {
        copies.push(datum.copy(alloc)?)?;
    }
    Ok(copies)
}
