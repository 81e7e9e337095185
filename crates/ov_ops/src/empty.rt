ghost use Rattle.std.specs.Prelude.{◌≡◌};
ghost use Rattle.ov_specs.specs.operations.OpOutcome as spec;

use ov_base::Tree;
use ov_results::OpResult;
use serde_json::{Map, Value};
use std::alloc::Global;

/// The result `{}` (RFC 7047, 5.2.6, 5.2.7 and 5.2.9).
pub(crate) fn empty_result(alloc: Global) -> OpResult
    ensures { result ≡ spec.empty_result }
{
    Tree::new(Value::Object(Map::new(alloc))).into()
}
