ghost use Rattle.std.specs.Prelude.{◌≡◌, ◌<◌, ◌^◌, IfOk};
ghost use Rattle.serde_json.specs.View.{view};
ghost use Rattle.ov_specs.specs.operations.MatchingRows as spec;

use ov_base::Tree;
use ov_results::OpResult;
use serde_json::{Value, json};
use std::alloc::{AllocError, Global};

fn count_value(alloc: Global, count: u64) -> Result<Value, AllocError>
    ensures { IfOk result (λ v. view v ≡ spec.count_result count) }
{
    json!(in alloc; {"count": count})
}

/// The result of an operation that counts the matching rows, changed or not (RFC 7047, 5.2.3 to 5.2.5). OVSDB would read a
/// count above 2^63-1 as a real; no list has that many rows.
pub(crate) fn count_result(alloc: Global, count: usize) -> Result<OpResult, AllocError>
    requires { count < 2 ^ 63 }
    ensures { IfOk result (λ r. r ≡ spec.count_result count) }
{
    let value = count_value(alloc, count as u64)?;
    Ok(Tree::new(value).into())
}
