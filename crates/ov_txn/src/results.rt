ghost use Rattle.std.specs.Prelude.{◌≡◌, IfOk, OnOk};
ghost use Rattle.serde_json.specs.View.{view, items_view};
ghost use Rattle.ov_specs.specs.operations.Errors as spec;
ghost use Rattle.ov_projection.specs.Errors.{error_view};
ghost use Rattle.ov_txn.specs.Results.{nulls_after};

use ov_base::Tree;
use ov_projection::OpError;
use ov_results::ArrayText;
use serde_json::{Value, json};
use std::alloc::{AllocError, Global};

/// Appends null to the results for each operation that was not tried (RFC 7047, 4.1.3).
pub(crate) fn push_nulls(
    alloc: Global,
    results: &mut ArrayText,
    operations: &[Value],
) -> Result<(), AllocError>
    ensures { OnOk result (results.new ≡ nulls_after results.old (items_view operations.now)) }
{
    for _operation in operations {
        results.push(alloc, Tree::new(Value::Null).into())?;
    }
    Ok(())
}

fn error_value(alloc: Global, error: OpError) -> Result<Value, AllocError>
    ensures { IfOk result (λ v. view v ≡ spec.error_tree (error_view error)) }
{
    let text = error.text();
    json!(in alloc; {"error": text})
}

/// The result of a failed operation or commit (RFC 7047, 4.1.3).
pub(crate) fn error_tree(alloc: Global, error: OpError) -> Result<Tree, AllocError>
    ensures { IfOk result (λ t. t ≡ spec.error_tree (error_view error)) }
{
    Ok(Tree::new(error_value(alloc, error)?))
}
