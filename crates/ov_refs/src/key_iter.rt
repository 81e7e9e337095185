ghost use Rattle.std.specs.Prelude.{◌≡◌, length};
ghost use Rattle.std.specs.Iterator.{at_most};
ghost use Rattle.std.specs.Map.Iter.{TakesFirst, deref};
ghost use Rattle.std.specs.Option.{option_copied, option_to_list};

use Left::*;
use ov_rows::RowKey;
use std::collections::BTreeSet;
use std::collections::btree_set::Iter;
use std::marker::Model;

/// The remaining keys.
#[derive(Drop)]
enum Left<'a> {
    OfFew(Option<&'a RowKey>),
    OfMany(Iter<'a, RowKey>),
}

/// An iterator over the keys of a set, ascending. Contracts see it as the list of the remaining keys.
#[derive(Drop)]
pub struct KeyIter<'a> {
    left: Left<'a>,
}

impl<'a> Model for KeyIter<'a> {
    ghost use Rattle.std.specs.Prelude.{List};
    ghost use Rattle.std.specs.Coded.{coded×, coded_ℕ, coded_list};
    ghost use Rattle.ov_specs.specs.rows.Lines.{LineKey};
    ghost use Rattle.ov_refs.specs.KeysLeft.{keys_left};

    ghost Value = { List LineKey };

    ghost coded = { coded_list (coded× (coded_list coded_ℕ) (coded_list coded_ℕ)) };

    ghost view = { λ i. keys_left i.left };
}

impl<'a> KeyIter<'a> {
    /// The one key, or none.
    pub(crate) fn of_few(key: Option<&'a RowKey>) -> KeyIter<'a>
        ensures { result ≡ option_to_list (option_copied key.entry) }
    {
        KeyIter { left: OfFew(key) }
    }

    /// The keys of the set.
    pub(crate) fn of_many(keys: &'a BTreeSet<RowKey>) -> KeyIter<'a>
        ensures { result ≡ keys.now.keys }
    {
        KeyIter {
            left: OfMany(keys.iter()),
        }
    }
}

impl<'a> Iterator for KeyIter<'a> {
    type Item = &'a RowKey;

    ghost next_gives = { TakesFirst deref };

    ghost remaining = { λ s. at_most (length s) };

    fn next(&mut self) -> Option<&'a RowKey> {
        match &mut self.left {
            OfFew(key) => key.take(),
            OfMany(keys) => keys.next(),
        }
    }
}
