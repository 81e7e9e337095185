ghost use Rattle.std.specs.Prelude.{◌≡◌};
ghost use Rattle.std.specs.Cmp.Lexicographic.{pointwise};
ghost use Rattle.std.specs.Iterator.{YieldsFirstRef, item_count};
ghost use Rattle.std.specs.Ordering.{eq_by_cmp};
ghost use Rattle.ov_specs.specs.values.Value.{datum_cmp};
ghost use Rattle.ov_rows.specs.Spread.{spread};

use ov_atoms::Datum;
use std::marker::Model;

/// An iterator over the values of a row, in ascending order of the names of their columns. Contracts see it as the list of
/// the remaining values.
#[derive(Drop)]
pub struct ValueIter<'a> {
    marks: u64,
    defaults: &'a [Datum],
    own: &'a [Datum],
}

impl<'a> Model for ValueIter<'a> {
    ghost use Rattle.std.specs.Prelude.{List};
    ghost use Rattle.std.specs.Coded.{coded_list};
    ghost use Rattle.ov_specs.specs.codes.ValueCode.{datum_code};
    ghost use Rattle.ov_specs.specs.values.Value as value;
    ghost use Rattle.ov_rows.specs.Spread.{spread};

    ghost Value = { List value.Datum };

    ghost coded = { coded_list datum_code };

    ghost view = { λ i. spread i.marks i.defaults.now i.own.now };
}

impl<'a> ValueIter<'a> {
    /// The default of each column that has a mark, and the row's own values for the others.
    pub(crate) fn new(marks: u64, defaults: &'a [Datum], own: &'a [Datum]) -> ValueIter<'a>
        ensures { result ≡ spread marks defaults.now own.now }
    {
        ValueIter {
            marks,
            defaults,
            own,
        }
    }
}

impl<'a> Iterator for ValueIter<'a> {
    type Item = &'a Datum;

    ghost next_gives = { YieldsFirstRef (λ s. s) };

    ghost remaining = { item_count (λ s. s) };

    fn next(&mut self) -> Option<&'a Datum> {
        let Some((default, defaults)) = self.defaults.split_first() else {
            let (first, own) = self.own.split_first()?;
            self.own = own;
            return Some(first);
        };
        if self.marks % 2 == 1 {
            self.marks /= 2;
            self.defaults = defaults;
            return Some(default);
        }
        let (first, own) = self.own.split_first()?;
        self.marks /= 2;
        self.defaults = defaults;
        self.own = own;
        Some(first)
    }
}

/// Whether these are the same values.
pub(crate) fn are_same(mine: ValueIter<'_>, others: ValueIter<'_>) -> bool
    ensures { result ≡ pointwise (eq_by_cmp datum_cmp) mine.entry others.entry }
{
    let mut rest = others;
    for datum in mine {
        let Some(other) = rest.next() else {
            return false;
        };
        if *datum != *other {
            return false;
        }
    }
    rest.next().is_none()
}
