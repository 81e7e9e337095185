ghost use Rattle.std.specs.Prelude.{◌≡◌, OnOk};
ghost use Rattle.ov_specs.specs.operations.MatchingRows as spec;
ghost use Rattle.ov_ops.specs.Outcomes.{context_of};

use crate::context::OpCtx;
use crate::owns::Owns;
use ov_rows::{Columns, RowKey};
use ov_stage::Stage;
use std::alloc::AllocError;

/// Puts rows of these columns at these keys. The version of each follows from the rows before the transaction (RFC 7047, 3.2).
pub(crate) fn put_rows<O: Owns>(
    stage: &mut Stage<'_>,
    ctx: &OpCtx<'_, '_, '_, '_, O>,
    changed: Vec<(RowKey, Columns)>,
) -> Result<(), AllocError>
    ensures rows { OnOk result (stage.new
        ≡ record stage.old {
          now = spec.put_rows (context_of O.owned ctx.now stage.old.before) changed.items
              stage.old.now;
        }) }
    ensures frame { stage.new.before ≡ stage.old.before }
{
    for (key, columns) in changed {
        stage.put(key, ctx.version, columns)?;
    }
    Ok(())
}
