ghost use Rattle.std.specs.Prelude.{◌≡◌, Some, true, Ok, IfOk, IfErr};
ghost use Rattle.std.specs.FinMap.{get};
ghost use Rattle.ov_conversion.specs.Committing.{IsConversionRefused};
ghost use Rattle.ov_specs.specs.integrity.Committed as spec;
ghost use Rattle.ov_specs.specs.rows.Database as database;
ghost use Rattle.ov_specs.specs.rows.Lines.{LineKey};
ghost use Rattle.ov_specs.specs.rows.Suits.{Suits};
ghost use Rattle.ov_specs.specs.values.Uuid.{is_uuid};

use crate::fault::ConversionFault;
use crate::limits::breaks_a_limit;
use crate::missing::misses;
use crate::pruned::prune;
use crate::support::drop_unsupported;
use ov_atoms::has_sixteen_bytes;
use ov_rows::Rows;
use ov_schema::Schema;
use std::alloc::Global;
use uuid::Uuid;

/// Commits these rows at this version (RFC 7047, 3.2 and 5.2). A strong reference to a missing row is refused. Rows that
/// nothing keeps are removed, and then weak references to missing rows. Then a value that is too short, a table with too many
/// rows, and two rows that are equal in an index are refused.
pub(crate) fn committed(
    alloc: Global,
    schema: &Schema,
    before: &Rows,
    version: Uuid,
    rows: Rows,
) -> Result<Rows, ConversionFault>
    requires former { (key : LineKey) (row : database.Row) → get before.now key ≡ Some row
        → is_uuid row.version ≡ true }
    requires suits { Suits schema.now rows }
    ensures ok { IfOk result (λ left. spec.committed schema.now before.now version rows ≡ Ok left) }
    ensures suits { IfOk result (Suits schema.now) }
    ensures err { IfErr result
        (IsConversionRefused (spec.committed schema.now before.now version rows)) }
{
    has_sixteen_bytes(&version);
    if misses(alloc, schema, &rows)? {
        return Err(ConversionFault::NotConvertible);
    }
    let mut left = rows;
    drop_unsupported(alloc, schema, &mut left)?;
    prune(alloc, schema, before, version, &mut left)?;
    if breaks_a_limit(alloc, schema, &left)? {
        return Err(ConversionFault::NotConvertible);
    }
    Ok(left)
}
