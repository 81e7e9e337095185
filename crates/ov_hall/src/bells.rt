ghost use Rattle.std.specs.Prelude.{◌≡◌, IfOk, vec_len};

use ov_order::Bell;
use std::alloc::{AllocError, Global};

/// A bell for each of this many writers.
pub fn all_bells(alloc: Global, count: usize) -> Result<Vec<Bell>, AllocError>
    ensures { IfOk result (λ bells. vec_len bells ≡ count) }
{
    let mut bells = Vec::with_capacity(alloc, count)?;
    while bells.len() < count {
        bells.push_reserved(Bell::new());
    }
    Ok(bells)
}
