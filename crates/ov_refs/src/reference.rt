ghost use Rattle.std.specs.Prelude.{◌≡◌, IfOk};

use crate::target::Target;
use ov_rows::RowKey;
use std::alloc::{AllocError, Global};
use std::marker::Model;

/// A reference, and the row that has it (RFC 7047, 3.2, `<base-type>`).
#[derive(Drop)]
pub struct RowReference {
    pub from: RowKey,
    pub to: Target,
}

impl Model for RowReference {
    ghost use Rattle.ov_specs.specs.integrity.References as references;
    ghost use Rattle.ov_refs.specs.Targets.{row_reference_code};

    ghost Value = { references.RowReference };

    ghost coded = { row_reference_code };

    ghost view = { λ r. record { from = r.from; to = r.to } };
}

impl RowReference {
    /// The reference from the row of this key to the target.
    pub(crate) fn new(alloc: Global, from: &RowKey, to: Target) -> Result<RowReference, AllocError>
        ensures { IfOk result (λ reference. reference ≡ record { from = from.now; to = to }) }
    {
        Ok(RowReference {
            from: RowKey::new(alloc, from.table(), from.id())?,
            to,
        })
    }
}
