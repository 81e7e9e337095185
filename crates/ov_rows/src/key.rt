ghost use Rattle.std.specs.Prelude.{◌≡◌, IfOk};

use crate::id::RowId;
use ov_base::Text;
use std::alloc::{AllocError, Global};
use std::cmp::Ordering;
use std::marker::Model;
use uuid::Uuid;

/// The key of a row: its table and its identifier (RFC 7047, 3.2).
#[derive(Drop)]
pub struct RowKey {
    table: Text,
    id: RowId,
}

impl Model for RowKey {
    ghost use Rattle.std.specs.Coded.{coded×, coded_ℕ, coded_list};
    ghost use Rattle.ov_specs.specs.rows.Lines.{LineKey};

    ghost Value = { LineKey };

    ghost coded = { coded× (coded_list coded_ℕ) (coded_list coded_ℕ) };

    ghost view = { λ k. (k.table, k.id) };
}

impl RowKey {
    /// The key of the row of this identifier in the table of this name.
    pub fn new(alloc: Global, table: &str, id: Uuid) -> Result<RowKey, AllocError>
        ensures { IfOk result (λ key. key ≡ (table.now, id)) }
    {
        Ok(RowKey {
            table: Text::from_str(alloc, table)?,
            id: RowId::new(id),
        })
    }

    /// The table's name.
    pub fn table(&self) -> &str
        ensures { result.now ≡ self.now.0 }
    {
        self.table.as_str()
    }

    /// The row's identifier.
    pub fn id(&self) -> Uuid
        ensures { result ≡ self.now.1 }
    {
        *self.id.as_uuid()
    }

    /// The row's identifier, borrowed.
    pub fn as_id(&self) -> &Uuid
        ensures { result.now ≡ self.now.1 }
    {
        self.id.as_uuid()
    }
}

impl PartialEq for RowKey {
    ghost use Rattle.std.specs.Ordering.{eq_by_cmp};
    ghost use Rattle.std.specs.Cmp.{partial_equiv_from_equiv, eq_by_cmp_equiv};
    ghost use Rattle.ov_specs.specs.rows.Lines.{line_cmp};
    ghost use Rattle.ov_specs.proofs.laws.LineKeys.{key_total};

    ghost eq = { eq_by_cmp line_cmp };

    ghost laws = { partial_equiv_from_equiv (eq_by_cmp_equiv key_total) };

    fn eq(&self, other: &RowKey) -> bool {
        self.cmp(other) == Ordering::Equal
    }
}

impl Eq for RowKey {
    ghost use Rattle.std.specs.Cmp.{eq_by_cmp_equiv};
    ghost use Rattle.ov_specs.proofs.laws.LineKeys.{key_total};

    ghost laws = { eq_by_cmp_equiv key_total };
}

impl PartialOrd for RowKey {
    ghost use Rattle.std.specs.Prelude.{Some, refl};
    ghost use Rattle.std.specs.Cmp.{partial_order_from_agreeing_total};
    ghost use Rattle.ov_specs.specs.rows.Lines.{line_cmp};
    ghost use Rattle.ov_specs.proofs.laws.LineKeys.{key_total};

    ghost partial_cmp = { λ a b. Some (line_cmp a b) };

    ghost laws = { partial_order_from_agreeing_total line_cmp key_total
        (λ a b. refl) (λ a b. refl) };

    fn partial_cmp(&self, other: &RowKey) -> Option<Ordering> {
        Some(self.cmp(other))
    }
}

impl Ord for RowKey {
    ghost use Rattle.std.specs.Prelude.{refl};
    ghost use Rattle.ov_specs.specs.rows.Lines.{line_cmp};
    ghost use Rattle.ov_specs.proofs.laws.LineKeys.{key_total};

    ghost cmp = { line_cmp };

    ghost total = { key_total };

    ghost matches_partial_cmp = { λ a b. refl };

    ghost matches_eq = { λ a b. refl };

    /// Compares the bytes of the table's name, then those of the identifier, so that rows of one table are adjacent.
    fn cmp(&self, other: &RowKey) -> Ordering {
        let by_table = self.table.as_str().cmp(other.table.as_str());
        by_table.then(self.id.cmp(&other.id))
    }
}
