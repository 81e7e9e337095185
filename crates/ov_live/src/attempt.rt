ghost use Rattle.std.specs.Prelude.{◌≡◌, ◌≤◌, ◌+◌, ℕ};
ghost use Rattle.ov_outbox.specs.Frames.{TakesPlaces, places_for, count_for};
ghost use Rattle.ov_specs.specs.locks.Queues.{owns};
ghost use Rattle.ov_specs.specs.machine.Machine.{results_to};
ghost use Rattle.ov_specs.specs.operations.Transaction.{transaction};
ghost use Rattle.ov_live.specs.Asking.{AsksStore};
ghost use Rattle.ov_live.specs.Handling.{IsTrial, PostsIfRoom, outcome_in};
ghost use Rattle.ov_live.specs.Preparing.{SendsPrepared, outcome_after};
ghost use Rattle.ov_live.specs.States.{machine_sessions};

use crate::owner::Owner;
use crate::replying::{Audience, Replying};
use crate::send::send;
use ov_base::Tree;
use ov_db::{Db, StoreAnswer};
use ov_history::Outcome;
use ov_keeper::Keeper;
use ov_outbox::{FrameQueues, Outbox};
use ov_requests::Txn;
use ov_results::ArrayText;
use ov_rpc::reply_with;
use ov_txn::{Tried, Tries, attempt};
use std::alloc::Global;
use std::mem;

/// The result of trying a transaction.
#[derive(Clone, Copy, Debug, PartialEq, Eq)]
pub(crate) enum Trial {
    /// The transaction is answered, or an allocation failed; holds what is listed of the try.
    Done(Option<Outcome>),
    /// A wait with this timeout blocks it, and nothing is changed (RFC 7047, 5.2.6).
    Blocked(Option<u64>),
}

/// A transaction to try: its session, the id to reply under, and its age in milliseconds.
#[derive(Clone, Copy)]
pub(crate) struct Asked<'a> {
    pub session: u64,
    pub id: &'a Tree,
    pub txn: &'a Txn,
    pub age: u64,
}

/// Tries a transaction with the locks that its session owns now. If its changes are kept, first the updates for the audience's
/// monitors are queued, then the reply. If an allocation outside the store fails, nothing is changed but `tries`, which counts
/// every try.
pub(crate) fn try_once<K: Keeper + Drop>(
    alloc: Global,
    db: &mut Db<K>,
    outbox: &mut Outbox,
    tries: &mut Tries,
    audience: Audience<'_>,
    asked: Asked<'_>,
) -> Trial
    ensures tried { IsTrial
        (record {
          sessions = machine_sessions audience.entry.watchers.now
              audience.entry.sessions.now.open_sessions;
          session = asked.entry.session;
          id = asked.entry.id.now;
          outcome = transaction db.old.schema db.old.committed
              (owns outbox.old.queues asked.entry.session) asked.entry.txn.now.draws
              asked.entry.age asked.entry.txn.now.operations;
        })
        (record { database = db.old; frames = outbox.old.frames }) result
        (record { database = db.new; frames = outbox.new.frames }) }
    ensures queues { outbox.new.queues ≡ outbox.old.queues }
    ensures asks { AsksStore K.failed (outcome_in result) db.old db.new }
    ensures counts { K.failed db.old.keeper ≤ K.failed db.new.keeper }
    ensures honest { K.is_honest db.new.keeper → K.is_honest db.old.keeper }
    ensures counted { tries.new ≡ tries.old + 1 }
{
    let (queues, locks) = mem::replace(outbox, Outbox::new(alloc)).into_parts();
    let owner = Owner {
        locks: &locks,
        session: asked.session,
    };
    let mut replying = Replying::new(alloc, audience, asked.session, asked.id, queues);
    let tried = attempt(
        alloc,
        db,
        asked.txn,
        &owner,
        asked.age,
        tries,
        &mut replying,
    );
    let queues = send_prepared(replying, &tried);
    *outbox = Outbox::from_parts(queues, locks);
    match tried {
        Tried::Answer(results) => {
            Trial::Done(answer(alloc, outbox, asked.session, asked.id, results))
        }
        Tried::Stored(answer) => Trial::Done(Some(outcome_of(answer))),
        Tried::Blocked(timeout) => Trial::Blocked(timeout),
        Tried::NoMemory => Trial::Done(Some(Outcome::NoMemory)),
    }
}

/// Sends what was prepared according to the store's answer, or gives it up if the store was not asked. Allocates nothing.
fn send_prepared(replying: Replying<'_>, tried: &Tried) -> FrameQueues
    requires room { (other : ℕ) → count_for other replying.prepared
        ≤ places_for other replying.queues }
    ensures places { TakesPlaces replying.entry.prepared replying.entry.queues result }
    ensures sent { SendsPrepared tried.now replying.entry.prepared replying.entry.exhausted
        replying.entry.failed replying.entry.queues result }
{
    let Replying {
        alloc: _,
        audience: _,
        session: _,
        id: _,
        queues,
        prepared,
        exhausted,
        failed,
    } = replying;
    let mut queues = queues;
    match tried {
        Tried::Stored(StoreAnswer::Kept) => prepared.release(&mut queues),
        Tried::Stored(StoreAnswer::Exhausted) => prepared.release_instead(&mut queues, exhausted),
        Tried::Stored(StoreAnswer::Failed) => prepared.release_instead(&mut queues, failed),
        Tried::Answer(_) | Tried::Blocked(_) | Tried::NoMemory => prepared.give_up(&mut queues),
    }
    queues
}

/// The outcome to list for this answer of the store.
fn outcome_of(answer: StoreAnswer) -> Outcome
    ensures { result ≡ outcome_after answer }
{
    match answer {
        StoreAnswer::Kept => Outcome::Committed,
        StoreAnswer::Exhausted => Outcome::Exhausted,
        StoreAnswer::Failed => Outcome::Failed,
    }
}

/// Queues the reply with these results; `NoMemory` if an allocation fails.
fn answer(
    alloc: Global,
    outbox: &mut Outbox,
    session: u64,
    id: &Tree,
    results: ArrayText,
) -> Option<Outcome>
    ensures posts { PostsIfRoom (results_to session id.now results) outbox.old.frames result
        outbox.new.frames }
    ensures queues { outbox.new.queues ≡ outbox.old.queues }
{
    match reply_with(alloc, id, &results) {
        Ok(frame) => send(alloc, outbox, session, Some(frame)),
        Err(_) => Some(Outcome::NoMemory),
    }
}
