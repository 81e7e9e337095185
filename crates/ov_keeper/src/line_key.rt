use ov_base::Text;
use std::hash::{Hash, Hasher};
use std::marker::Model;
use uuid::Uuid;

/// The key of a line: its table and its identifier.
#[derive(Drop)]
pub(crate) struct LineKey {
    pub(crate) table: Text,
    pub(crate) id: Uuid,
}

impl Model for LineKey {
    ghost use Rattle.std.specs.Coded.{coded×, coded_ℕ, coded_list};
    ghost use Rattle.ov_specs.specs.rows.Lines as lines;

    ghost Value = { lines.LineKey };

    ghost coded = { coded× (coded_list coded_ℕ) (coded_list coded_ℕ) };

    ghost view = { λ k. (k.table, k.id) };
}

impl PartialEq for LineKey {
    ghost use Rattle.std.specs.Ordering.{eq_by_cmp};
    ghost use Rattle.std.specs.Cmp.{partial_equiv_from_equiv, eq_by_cmp_equiv};
    ghost use Rattle.ov_specs.specs.rows.Lines.{line_cmp};
    ghost use Rattle.ov_specs.proofs.laws.LineKeys.{key_total};

    ghost eq = { eq_by_cmp line_cmp };

    ghost laws = { partial_equiv_from_equiv (eq_by_cmp_equiv key_total) };

    fn eq(&self, other: &LineKey) -> bool {
        self.id == other.id && self.table.as_str() == other.table.as_str()
    }
}

impl Eq for LineKey {
    ghost use Rattle.std.specs.Cmp.{eq_by_cmp_equiv};
    ghost use Rattle.ov_specs.proofs.laws.LineKeys.{key_total};

    ghost laws = { eq_by_cmp_equiv key_total };
}

impl Hash for LineKey {
    ghost use Rattle.std.specs.Prelude.{[], ◌∷◌};
    ghost use Rattle.std.proofs.Common.{ap};
    ghost use Rattle.ov_specs.proofs.laws.LineKeys.{tied_same};

    ghost hash_input = { λ k. k.1 ∷ k.0 ∷ [] };

    ghost respects_eq = { λ a b same. ap (λ k. k.1 ∷ k.0 ∷ []) (tied_same a b same) };

    fn hash<H: Hasher>(&self, state: &mut H) {
        state.write(self.id.as_bytes());
        state.write(self.table.as_str().as_bytes());
    }
}
