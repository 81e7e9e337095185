ghost use Rattle.std.specs.Prelude.{◌≡◌};
ghost use Rattle.ov_specs.specs.rows.Database.{same_key};

use ov_rows::RowKey;
use std::marker::Model;
use uuid::Uuid;

/// The key of a row, with the table's name borrowed, so that a call with it copies no name.
#[derive(Drop)]
pub(crate) struct BorrowedKey<'a> {
    table: &'a str,
    id: Uuid,
}

impl<'a> Model for BorrowedKey<'a> {
    ghost use Rattle.std.specs.Coded.{coded×, coded_ℕ, coded_list};
    ghost use Rattle.ov_specs.specs.rows.Lines.{LineKey};

    ghost Value = { LineKey };

    ghost coded = { coded× (coded_list coded_ℕ) (coded_list coded_ℕ) };

    ghost view = { λ k. (k.table.now, k.id) };
}

impl<'a> BorrowedKey<'a> {
    /// The key of the row of this identifier in the table of this name.
    pub(crate) fn new(table: &'a str, id: Uuid) -> BorrowedKey<'a>
        ensures { result ≡ (table.now, id) }
    {
        BorrowedKey { table, id }
    }

    /// The table's name.
    pub(crate) fn table(&self) -> &str
        ensures { result.now ≡ self.now.0 }
    {
        self.table
    }

    /// The row's identifier.
    pub(crate) fn id(&self) -> Uuid
        ensures { result ≡ self.now.1 }
    {
        self.id
    }

    /// Whether it is this key.
    pub(crate) fn is(&self, key: &RowKey) -> bool
        ensures { result ≡ same_key key.now self.now }
    {
        key.table() == self.table && key.id() == self.id
    }
}
