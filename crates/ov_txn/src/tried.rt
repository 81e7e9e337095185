ghost use Rattle.std.specs.Prelude.{◌≡◌, ◌≤◌, ◌+◌, true, None, IfOk};
ghost use Rattle.ov_specs.specs.integrity.Committed.{is_whole};
ghost use Rattle.ov_specs.specs.operations.Transaction.{failed_results, transaction};
ghost use Rattle.ov_stored.specs.Changing.{SuitsChanges, applied};
ghost use Rattle.ov_txn.specs.Attempting.{IsTried, IsTriedInStore, IsSealedAnswer, HasCause};

use crate::perform::{Performed, perform};
use crate::ready::{Ready, Replies};
use crate::results::error_tree;
use crate::tries::Tries;
use ov_db::{Db, Delta, StoreAnswer};
use ov_keeper::Keeper;
use ov_ops::Owns;
use ov_projection::OpError;
use ov_requests::Txn;
use ov_results::ArrayText;
use std::alloc::{AllocError, Global};

/// The result of an attempt of a transaction (RFC 7047, 4.1.3).
#[derive(Drop)]
pub enum Tried {
    /// The transaction is answered with these results, and nothing is stored.
    Answer(ArrayText),
    /// The store was asked to keep the changes, and gave this answer.
    Stored(StoreAnswer),
    /// A wait is not met, so nothing is changed. The transaction times out at this age in milliseconds, if ever (RFC 7047,
    /// 5.2.6).
    Blocked(Option<u64>),
    /// An allocation failed, and nothing is changed.
    NoMemory,
}

/// Tries a transaction of this age in milliseconds, whose session owns these locks, and counts the attempt.
///
/// Performs the operations in order and commits by the rules for references, unreferenced rows and limits (RFC 7047, 3.2). If
/// that changes the database, prepares all that follows the commit, and asks the store last of all. For a sealed database the
/// store is not asked: the transaction is answered as if the store had failed. Nor is it asked if nothing is changed, or if an
/// operation or the commit fails (4.1.3).
pub fn attempt<K: Keeper + Drop, O: Owns, R: Ready<K>>(
    alloc: Global,
    db: &mut Db<K>,
    txn: &Txn,
    owns: &O,
    age: u64,
    tries: &mut Tries,
    ready: &mut R,
) -> Tried
    ensures tried { IsTried R.readies
        (transaction db.old.schema db.old.committed (O.owned owns.now) txn.now.draws age
        txn.now.operations)
        (record { database = db.old; ready = ready.old }) result
        (record { database = db.new; ready = ready.new }) }
    ensures cause { HasCause K.failed result db.old db.new }
    ensures counts { K.failed db.old.keeper ≤ K.failed db.new.keeper }
    ensures honest { K.is_honest db.new.keeper → K.is_honest db.old.keeper }
    ensures counted { tries.new ≡ tries.old + 1 }
{
    tries.add();
    match perform(alloc, db, txn, owns, age) {
        Err(_) => Tried::NoMemory,
        Ok(Performed::Blocked(timeout)) => Tried::Blocked(timeout),
        Ok(Performed::Completed(results, delta)) => {
            if delta.is_empty() {
                return Tried::Answer(results);
            }
            if db.sealed() {
                return answer_sealed(alloc, results);
            }
            store(alloc, db, results, delta, ready)
        }
    }
}

/// The results, followed by the error of a failed commit.
fn with_failure(alloc: Global, results: ArrayText) -> Result<ArrayText, AllocError>
    ensures { IfOk result (λ all. all ≡ failed_results results) }
{
    let mut results = results;
    results.push(alloc, error_tree(alloc, OpError::InputOutput)?.into())?;
    Ok(results)
}

/// The answer of a sealed database; `NoMemory` if an allocation fails.
fn answer_sealed(alloc: Global, results: ArrayText) -> Tried
    ensures { IsSealedAnswer results result }
{
    match with_failure(alloc, results) {
        Ok(results) => Tried::Answer(results),
        Err(_) => Tried::NoMemory,
    }
}

/// Makes everything ready, then asks the store.
fn store<K: Keeper + Drop, R: Ready<K>>(
    alloc: Global,
    db: &mut Db<K>,
    results: ArrayText,
    delta: Delta,
    ready: &mut R,
) -> Tried
    requires unsealed { db.old.sealed ≡ None }
    requires suits { SuitsChanges db.old.schema delta }
    requires whole { is_whole db.old.schema (applied delta db.old.committed) ≡ true }
    ensures asked { IsTriedInStore R.readies results delta
        (record { database = db.old; ready = ready.old }) result
        (record { database = db.new; ready = ready.new }) }
    ensures cause { HasCause K.failed result db.old db.new }
    ensures counts { K.failed db.old.keeper ≤ K.failed db.new.keeper }
    ensures honest { K.is_honest db.new.keeper → K.is_honest db.old.keeper }
{
    let Ok(replies) = Replies::new(alloc, results) else {
        return Tried::NoMemory;
    };
    if !ready.ready(db, &delta, replies) {
        return Tried::NoMemory;
    }
    Tried::Stored(db.commit(alloc, delta))
}
