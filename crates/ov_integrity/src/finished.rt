ghost use Rattle.std.specs.Prelude.{◌≡◌, true, IfOk};
ghost use Rattle.ov_index.specs.Indexing.{AreIndexesOf};
ghost use Rattle.ov_refs.specs.Linking.{AreLinksOf};
ghost use Rattle.ov_specs.specs.integrity.Committed.{committed, is_whole};
ghost use Rattle.ov_specs.specs.rows.Suits.{Suits};
ghost use Rattle.ov_integrity.specs.Finishing.{IsFinished};

use crate::missing::misses;
use crate::prune::prune;
use ov_index::Indexes;
use ov_projection::OpError;
use ov_refs::Links;
use ov_schema::Schema;
use ov_stage::Stage;
use ov_stored::Delta;
use ov_support::{breaks_a_limit, drop_unsupported};
use std::alloc::{AllocError, Global};
use uuid::Uuid;

/// What the end of a transaction results in.
#[derive(Drop)]
pub enum Finished {
    /// These changes are to be made.
    Changed(Delta),
    /// The commit fails: `ReferentialIntegrity` or `Constraint`.
    Refused(OpError),
    /// An allocation failed.
    NoMemory,
}

/// The changes to make, or the error of the commit; `Err` if an allocation fails.
fn finish_stage(
    alloc: Global,
    schema: &Schema,
    version: Uuid,
    links: &Links,
    indexes: &Indexes,
    stage: Stage<'_>,
) -> Result<Finished, AllocError>
    requires whole { is_whole schema.now stage.before ≡ true }
    requires linked { AreLinksOf schema.now stage.before links.now }
    requires indexed { AreIndexesOf schema.now stage.before indexes.now }
    requires suits { Suits schema.now stage.now }
    ensures { IfOk result
        (IsFinished (committed schema.now stage.entry.before version stage.entry.now)
        stage.entry.before) }
{
    if misses(alloc, schema, links, &stage)? {
        return Ok(Finished::Refused(OpError::ReferentialIntegrity));
    }
    let mut stage = stage;
    drop_unsupported(alloc, schema, links, &mut stage)?;
    if prune(alloc, schema, version, links, &mut stage)? {
        return Ok(Finished::Refused(OpError::Constraint));
    }
    if breaks_a_limit(alloc, schema, indexes, &stage)? {
        return Ok(Finished::Refused(OpError::Constraint));
    }
    Ok(Finished::Changed(stage.into_delta()))
}

/// Commits, at this version, the rows that the operations left on a stage (RFC 7047, 3.2 and 5.2). A strong reference to a
/// missing row is refused. Rows that nothing keeps are removed, and then weak references to missing rows. Then a value that
/// is too short, a table with too many rows, and two rows that are equal in an index are refused.
///
/// The rows before the transaction are whole, and the links and the indexes are theirs. Follows only what the transaction
/// changed.
pub fn finish(
    alloc: Global,
    schema: &Schema,
    version: Uuid,
    links: &Links,
    indexes: &Indexes,
    stage: Stage<'_>,
) -> Finished
    requires whole { is_whole schema.now stage.before ≡ true }
    requires linked { AreLinksOf schema.now stage.before links.now }
    requires indexed { AreIndexesOf schema.now stage.before indexes.now }
    requires suits { Suits schema.now stage.now }
    ensures { IsFinished (committed schema.now stage.entry.before version stage.entry.now)
        stage.entry.before result }
{
    match finish_stage(alloc, schema, version, links, indexes, stage) {
        Ok(finished) => finished,
        Err(_) => Finished::NoMemory,
    }
}
