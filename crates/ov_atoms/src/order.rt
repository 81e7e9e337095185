use crate::datum::{Datum, SortedElements};
use std::cmp::Ordering;

impl PartialEq for Datum {
    ghost use Rattle.std.specs.Ordering.{eq_by_cmp};
    ghost use Rattle.std.specs.Cmp.{partial_equiv_from_equiv, eq_by_cmp_equiv};
    ghost use Rattle.ov_specs.specs.values.Value.{datum_cmp};
    ghost use Rattle.ov_specs.proofs.laws.DatumOrder.{datum_cmp_total};

    ghost eq = { eq_by_cmp datum_cmp };

    ghost laws = { partial_equiv_from_equiv (eq_by_cmp_equiv datum_cmp_total) };

    /// Whether both are the same set or the same map.
    fn eq(&self, other: &Datum) -> bool {
        self.cmp(other) == Ordering::Equal
    }
}

impl Eq for Datum {
    ghost use Rattle.std.specs.Cmp.{eq_by_cmp_equiv};
    ghost use Rattle.ov_specs.proofs.laws.DatumOrder.{datum_cmp_total};

    ghost laws = { eq_by_cmp_equiv datum_cmp_total };
}

impl PartialOrd for Datum {
    ghost use Rattle.std.specs.Prelude.{Some, refl};
    ghost use Rattle.std.specs.Cmp.{partial_order_from_agreeing_total};
    ghost use Rattle.ov_specs.specs.values.Value.{datum_cmp};
    ghost use Rattle.ov_specs.proofs.laws.DatumOrder.{datum_cmp_total};

    ghost partial_cmp = { λ a b. Some (datum_cmp a b) };

    ghost laws = { partial_order_from_agreeing_total datum_cmp datum_cmp_total (λ a b. refl)
        (λ a b. refl) };

    fn partial_cmp(&self, other: &Datum) -> Option<Ordering> {
        Some(self.cmp(other))
    }
}

impl Ord for Datum {
    ghost use Rattle.std.specs.Prelude.{refl};
    ghost use Rattle.ov_specs.specs.values.Value.{datum_cmp};
    ghost use Rattle.ov_specs.proofs.laws.DatumOrder.{datum_cmp_total};

    ghost cmp = { datum_cmp };

    ghost total = { datum_cmp_total };

    ghost matches_partial_cmp = { λ a b. refl };

    ghost matches_eq = { λ a b. refl };

    /// Compares element by element in ascending order, a prefix first; sets before maps.
    fn cmp(&self, other: &Datum) -> Ordering {
        match (&self.parts, &other.parts) {
            (SortedElements::Atoms(a), SortedElements::Atoms(b)) => a.as_slice().cmp(b.as_slice()),
            (SortedElements::Pairs(a), SortedElements::Pairs(b)) => a.as_slice().cmp(b.as_slice()),
            (SortedElements::Atoms(_), SortedElements::Pairs(_)) => Ordering::Less,
            (SortedElements::Pairs(_), SortedElements::Atoms(_)) => Ordering::Greater,
        }
    }
}
