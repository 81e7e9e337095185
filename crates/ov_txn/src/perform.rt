ghost use Rattle.std.specs.Prelude.{◌≡◌, true, drop, IfOk};
ghost use Rattle.std.specs.FinMap.{empty};
ghost use Rattle.std.specs.List.{list_all};
ghost use Rattle.serde_json.specs.View.{items_view};
ghost use Rattle.ov_index.specs.Indexing.{AreIndexesOf};
ghost use Rattle.ov_refs.specs.Linking.{AreLinksOf};
ghost use Rattle.ov_specs.specs.integrity.Committed.{committed, is_whole};
ghost use Rattle.ov_specs.specs.rows.Suits.{Suits};
ghost use Rattle.ov_specs.specs.operations.Errors as spec;
ghost use Rattle.ov_specs.specs.operations.Transaction.{and_error, and_item, ended, transaction};
ghost use Rattle.ov_specs.specs.values.Uuid.{is_uuid, uuid_at};
ghost use Rattle.ov_projection.specs.Errors.{error_view};
ghost use Rattle.ov_txn.specs.Performing.{IsPerformed, SuitsPerformed, WholePerformed};
ghost use Rattle.ov_txn.specs.Results.{nulls_after, prefixed};
ghost use Rattle.ov_txn.specs.declared.perform.Performed.TheVariants.{Completed};

use crate::results::{error_tree, push_nulls};
use ov_db::{Db, Delta};
use ov_given::NamedRows;
use ov_index::Indexes;
use ov_integrity::{Finished, finish};
use ov_keeper::Keeper;
use ov_ops::{OpCtx, OpOutcome, Owns, run_op};
use ov_projection::OpError;
use ov_refs::Links;
use ov_requests::{Txn, are_uuids};
use ov_results::ArrayText;
use ov_schema::Schema;
use ov_stage::Stage;
use serde_json::Value;
use std::alloc::{AllocError, Global};
use uuid::Uuid;

/// What performing a transaction results in.
#[derive(Drop)]
pub(crate) enum Performed {
    /// The results, one for each operation, plus the error of the commit if it fails; and the changes to make.
    Completed(ArrayText, Delta),
    /// A wait is not met. The transaction times out at this age in milliseconds, if ever.
    Blocked(Option<u64>),
}

/// If an operation fails, the results of those after it are null, and nothing is changed (RFC 7047, 4.1.3).
fn failed(
    alloc: Global,
    results: ArrayText,
    error: OpError,
    others: &[Value],
) -> Result<ArrayText, AllocError>
    ensures { IfOk result (λ r. r
        ≡ nulls_after (and_item results (spec.error_tree (error_view error)))
        (items_view others.now)) }
{
    let mut results = results;
    results.push(alloc, error_tree(alloc, error)?.into())?;
    push_nulls(alloc, &mut results, others)?;
    Ok(results)
}

/// If the commit fails, one more result reports its error, and nothing is changed (RFC 7047, 4.1.3).
fn refused(alloc: Global, results: ArrayText, error: OpError) -> Result<Performed, AllocError>
    ensures { IfOk result (λ p. p ≡ Completed (and_error results (error_view error)) empty) }
{
    let mut results = results;
    results.push(alloc, error_tree(alloc, error)?.into())?;
    Ok(Performed::Completed(results, Delta::new(alloc)))
}

/// Ends the operations, which have these results: commits the rows that they left (RFC 7047, 3.2).
fn end(
    alloc: Global,
    schema: &Schema,
    version: Uuid,
    links: &Links,
    indexes: &Indexes,
    results: ArrayText,
    stage: Stage<'_>,
) -> Result<Performed, AllocError>
    requires whole { is_whole schema.now stage.before ≡ true }
    requires linked { AreLinksOf schema.now stage.before links.now }
    requires indexed { AreIndexesOf schema.now stage.before indexes.now }
    requires suits { Suits schema.now stage.now }
    ensures { IfOk result
        (IsPerformed
        (prefixed results
        (ended stage.entry.before
        (committed schema.now stage.entry.before version stage.entry.now)))
        stage.entry.before) }
{
    match finish(alloc, schema, version, links, indexes, stage) {
        Finished::Changed(delta) => Ok(Performed::Completed(results, delta)),
        Finished::Refused(error) => refused(alloc, results, error),
        Finished::NoMemory => Err(AllocError),
    }
}

/// The version of the rows that a transaction with these draws changes: the first of them.
fn version_of(draws: &[Uuid]) -> Uuid
    ensures { result ≡ uuid_at draws.now 0 }
{
    draws.first().copied().unwrap_or(Uuid::nil())
}

/// The draws for the inserts: all but the first.
fn insert_draws(draws: &[Uuid]) -> &[Uuid]
    ensures { result.now ≡ drop 1 draws.now }
{
    match draws.split_first() {
        Some((_, others)) => others,
        None => draws,
    }
}

/// Performs the operations of a transaction in order, on a stage over the rows of the database, and their commit.
fn perform_operations<K: Keeper + Drop, O: Owns>(
    alloc: Global,
    db: &Db<K>,
    txn: &Txn,
    owns: &O,
    age: u64,
) -> Result<Performed, AllocError>
    requires { list_all is_uuid txn.now.draws ≡ true }
    ensures { IfOk result
        (IsPerformed
        (transaction db.now.schema db.now.committed (O.owned owns.now) txn.now.draws age
        txn.now.operations)
        db.now.committed) }
{
    let mut results = ArrayText::new(alloc);
    db.shows_kept();
    let schema = db.schema();
    let rows = db.rows();
    let indexes = db.indexes();
    let mut stage = Stage::with_indexes(alloc, schema, rows, indexes);
    let version = version_of(txn.draws());
    let inserts = NamedRows::new(alloc, insert_draws(txn.draws()), txn.operations())?;
    let ctx = OpCtx {
        schema,
        inserts: &inserts,
        owns,
        version,
        age,
    };
    let operations = txn.operations().as_slice();
    for place in 0..operations.len() {
        match run_op(alloc, &mut stage, &ctx, place, &operations[place]) {
            OpOutcome::Done(result) => results.push(alloc, result)?,
            OpOutcome::Fault(error) => {
                let (_tried, others) = operations.split_at(place + 1);
                let results = failed(alloc, results, error, others)?;
                return Ok(Performed::Completed(results, Delta::new(alloc)));
            }
            OpOutcome::Blocked(timeout) => return Ok(Performed::Blocked(timeout)),
            OpOutcome::NoMemory => return Err(AllocError),
        }
    }
    end(alloc, schema, version, db.links(), indexes, results, stage)
}

/// Performs the operations of a transaction of this age in milliseconds, whose session owns these locks, in order, each on
/// the rows that those before it left (RFC 7047, 4.1.3), and then the commit. The commit refuses strong references to missing
/// rows, removes the rows that nothing keeps and the weak references to rows that are gone, and refuses what then breaks a
/// limit (3.2). If it refuses, one more result reports the error (4.1.3).
///
/// The database is not changed. The changes are empty exactly if nothing is to be changed, and the rows after them are whole
/// rows of the schema.
pub(crate) fn perform<K: Keeper + Drop, O: Owns>(
    alloc: Global,
    db: &Db<K>,
    txn: &Txn,
    owns: &O,
    age: u64,
) -> Result<Performed, AllocError>
    ensures performed { IfOk result
        (IsPerformed
        (transaction db.now.schema db.now.committed (O.owned owns.now) txn.now.draws age
        txn.now.operations)
        db.now.committed) }
    ensures suits { IfOk result (SuitsPerformed db.now.schema) }
    ensures whole { IfOk result (WholePerformed db.now.schema db.now.committed) }
{
    db.shows_kept();
    db.schema().shows_accepted();
    are_uuids(txn.draws());
    perform_operations(alloc, db, txn, owns, age)
}
