ghost use Rattle.std.specs.Prelude.{◌≡◌, ◌<◌, ◌^◌, length, true, IfOk, OnErr};
ghost use Rattle.std.specs.List.{list_all};
ghost use Rattle.serde_json.specs.View.{items_view};
ghost use Rattle.ov_specs.specs.operations.Draws.{insert_count, draws_wanted};
ghost use Rattle.ov_specs.specs.values.Uuid.{Uuid as Bytes16, is_uuid};
ghost use Rattle.ov_requests.specs.Drawing.{DrawsFrom};

use ov_atoms::has_sixteen_bytes;
use ov_base::Trees;
use ov_projection::is_insert;
use serde_json::Value;
use std::alloc::{AllocError, Global};
use uuid::Uuid;

/// A source of identifiers for rows and versions (RFC 7047, 3.2).
pub trait Draws {
    /// The source before, the identifier, and the source after.
    ghost draws: { Self → Bytes16 → Self → Type 0 };

    /// The next identifier.
    fn draw(&mut self) -> Uuid
        ensures { draws self.old result self.new };
}

fn count_inserts(operations: &[Value]) -> usize
    ensures count { result ≡ insert_count (items_view operations.now) }
    ensures few { result < 2 ^ 63 }
{
    let mut count: usize = 0;
    for operation in operations {
        if is_insert(operation) {
            count += 1;
        }
    }
    count
}

/// Draws what a transaction uses: the version of the rows that it changes, and then an identifier for each insert. If an
/// allocation fails, nothing has been drawn.
pub(crate) fn draws_for<D: Draws>(
    alloc: Global,
    operations: &Trees,
    source: &mut D,
) -> Result<Vec<Uuid>, AllocError>
    ensures count { IfOk result (λ draws. length draws.items ≡ draws_wanted operations.now) }
    ensures drawn { IfOk result (λ draws. DrawsFrom D.draws source.old draws.items source.new) }
    ensures err { OnErr result (source.new ≡ source.old) }
{
    let wanted = count_inserts(operations.as_slice()) + 1;
    let mut draws = Vec::with_capacity(alloc, wanted)?;
    for _made in 0..wanted {
        draws.push_reserved(source.draw());
    }
    Ok(draws)
}

/// States for contracts that each of the draws has sixteen bytes (RFC 4122, 4.1.2). It is compiled away.
pub fn are_uuids(draws: &[Uuid])
    ensures { list_all is_uuid draws.now ≡ true }
{
    for draw in draws {
        has_sixteen_bytes(draw);
    }
}
