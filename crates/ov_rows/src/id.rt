ghost use Rattle.std.specs.Prelude.{◌≡◌};
ghost use Rattle.std.specs.Ordering.{nat_cmp};
ghost use Rattle.std.specs.Cmp.Lexicographic.{slice_cmp};

use std::cmp::Ordering;
use std::marker::Model;
use uuid::Uuid;

/// A row's identifier (RFC 7047, 3.2), as the key that rows are stored by.
#[derive(Clone, Copy)]
pub struct RowId {
    id: Uuid,
}

impl Model for RowId {
    ghost use Rattle.std.specs.Coded.{coded_ℕ, coded_list};
    ghost use Rattle.ov_specs.specs.values.Uuid as uuids;

    ghost Value = { uuids.Uuid };

    ghost coded = { coded_list coded_ℕ };

    ghost view = { λ r. r.id };

    ghost inverse = { λ id. record { id = id } };
}

impl RowId {
    /// The key of this identifier.
    pub fn new(id: Uuid) -> RowId
        ensures { result ≡ id }
    {
        RowId { id }
    }

    /// The identifier, borrowed.
    pub fn as_uuid(&self) -> &Uuid
        ensures { result.now ≡ self.now }
    {
        &self.id
    }
}

impl PartialEq for RowId {
    ghost use Rattle.std.specs.Ordering.{eq_by_cmp};
    ghost use Rattle.std.specs.Cmp.{partial_equiv_from_equiv, eq_by_cmp_equiv};
    ghost use Rattle.std.specs.Cmp.Lexicographic.{nat_list_cmp_total};
    ghost use Rattle.ov_rows.specs.Nested.{id_cmp};

    ghost eq = { eq_by_cmp id_cmp };

    ghost laws = { partial_equiv_from_equiv (eq_by_cmp_equiv nat_list_cmp_total) };

    fn eq(&self, other: &RowId) -> bool {
        self.cmp(other) == Ordering::Equal
    }
}

impl Eq for RowId {
    ghost use Rattle.std.specs.Cmp.{eq_by_cmp_equiv};
    ghost use Rattle.std.specs.Cmp.Lexicographic.{nat_list_cmp_total};

    ghost laws = { eq_by_cmp_equiv nat_list_cmp_total };
}

impl PartialOrd for RowId {
    ghost use Rattle.std.specs.Prelude.{Some, refl};
    ghost use Rattle.std.specs.Cmp.{partial_order_from_agreeing_total};
    ghost use Rattle.std.specs.Cmp.Lexicographic.{nat_list_cmp_total};
    ghost use Rattle.ov_rows.specs.Nested.{id_cmp};

    ghost partial_cmp = { λ a b. Some (id_cmp a b) };

    ghost laws = { partial_order_from_agreeing_total id_cmp nat_list_cmp_total
        (λ a b. refl) (λ a b. refl) };

    fn partial_cmp(&self, other: &RowId) -> Option<Ordering> {
        Some(self.cmp(other))
    }
}

impl Ord for RowId {
    ghost use Rattle.std.specs.Prelude.{refl};
    ghost use Rattle.std.specs.Cmp.Lexicographic.{nat_list_cmp_total};
    ghost use Rattle.ov_rows.specs.Nested.{id_cmp};

    ghost cmp = { id_cmp };

    ghost total = { nat_list_cmp_total };

    ghost matches_partial_cmp = { λ a b. refl };

    ghost matches_eq = { λ a b. refl };

    /// Compares the bytes, starting with the first.
    fn cmp(&self, other: &RowId) -> Ordering {
        order_of_bytes(self.id.as_bytes(), other.id.as_bytes())
    }
}

/// Compares sixteen bytes, starting with the first. Random identifiers nearly always differ in the first, so a loop that
/// ends there is faster than a comparison of the numbers that the bytes spell.
fn order_of_bytes(a: &[u8; 16], b: &[u8; 16]) -> Ordering
    ensures { result ≡ slice_cmp nat_cmp a.now b.now }
{
    for at in 0..16 {
        if a[at] != b[at] {
            return a[at].cmp(&b[at]);
        }
    }
    Ordering::Equal
}
