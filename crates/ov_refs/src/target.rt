ghost use Rattle.std.specs.Prelude.{◌≡◌, IfOk};

use ov_rows::RowKey;
use std::alloc::{AllocError, Global};
use std::marker::Model;

/// The row that a reference points to (RFC 7047, 3.2, `<base-type>`).
#[derive(Drop)]
pub struct Target {
    pub key: RowKey,
    /// Whether the row stays as long as it is referred to (RFC 7047, 3.2, `<base-type>`, refType).
    pub is_strong: bool,
}

impl Model for Target {
    ghost use Rattle.ov_specs.specs.integrity.References as references;
    ghost use Rattle.ov_refs.specs.Targets.{target_code};

    ghost Value = { references.Target };

    ghost coded = { target_code };

    ghost view = { λ t. record { key = t.key; is_strong = t.is_strong } };
}

impl Target {
    /// A copy of the target.
    pub(crate) fn copied(&self, alloc: Global) -> Result<Target, AllocError>
        ensures { IfOk result (λ target. target ≡ self.now) }
    {
        Ok(Target {
            key: RowKey::new(alloc, self.key.table(), self.key.id())?,
            is_strong: self.is_strong,
        })
    }
}
