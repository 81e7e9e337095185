ghost use Rattle.std.specs.Prelude.{◌≡◌, true, false, Ok, Err, IfOk, IfErr};
ghost use Rattle.ov_conversion.specs.declared.fault.ConversionFault.TheVariants as faults;
ghost use Rattle.ov_specs.specs.conversion.Converted as spec;
ghost use Rattle.ov_specs.specs.conversion.Converted.{has_changed_type};
ghost use Rattle.ov_specs.specs.integrity.Committed.{is_whole};
ghost use Rattle.ov_specs.specs.rows.Suits.{Suits};

use crate::committed::committed;
use crate::defaults::gets_unfit_default;
use crate::fault::ConversionFault;
use ov_atoms::has_sixteen_bytes;
use ov_carried::carried_rows;
use ov_rows::Rows;
use ov_schema::Schema;
use std::alloc::Global;
use uuid::Uuid;

/// The rows of the old schema as rows of the new one. Rows of tables that both schemas have are carried over: each column of
/// both keeps its value, a new column gets its default (RFC 7047, 5.2.1), and other columns are dropped. A row whose columns
/// change gets this version, others keep theirs. Then the rules of a commit are applied (RFC 7047, 3.2): rows that nothing
/// keeps are removed, and weak references to missing rows.
///
/// Looks at all rows a few times, and once more for each turn in which rows lose their last support. The rows before are
/// unchanged.
pub fn converted_rows(
    alloc: Global,
    old: &Schema,
    new: &Schema,
    version: Uuid,
    before: &Rows,
) -> Result<Rows, ConversionFault>
    requires suits { Suits old.now before.now }
    requires same_types { has_changed_type old.now new.now ≡ false }
    ensures ok { IfOk result (λ rows. spec.converted_rows old.now new.now version before.now
        ≡ Ok rows) }
    ensures suits { IfOk result (Suits new.now) }
    ensures whole { IfOk result (λ rows. is_whole new.now rows ≡ true) }
    ensures err { IfErr result (λ why. why ≡ faults.NotConvertible
        → spec.converted_rows old.now new.now version before.now ≡ Err spec.NotConvertible) }
{
    new.shows_accepted();
    has_sixteen_bytes(&version);
    if gets_unfit_default(alloc, old, new, before)? {
        return Err(ConversionFault::NotConvertible);
    }
    let rows = carried_rows(alloc, old, new, version, before)?;
    committed(alloc, new, before, version, rows)
}
