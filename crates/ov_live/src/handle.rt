ghost use Rattle.std.specs.Prelude.{◌≡◌, ◌≤◌, ◌<◌, ◌+◌, ℕ, [], length, Some, IfOk, true, codes};
ghost use Rattle.std.specs.Prelude.{vec_capacity};
ghost use Rattle.std.specs.List.{list_all};
ghost use Rattle.ov_rpc.specs.Incoming.{StandsFor};
ghost use Rattle.ov_specs.specs.machine.Machine as spec;
ghost use Rattle.ov_specs.specs.values.Uuid.{is_uuid};
ghost use Rattle.ov_specs.specs.wire.Frame.{frame, failure_tree};
ghost use Rattle.ov_specs.specs.wire.Message.{Message};
ghost use Rattle.ov_requests.specs.Asked.{IsWork, IsWithoutDraws};
ghost use Rattle.ov_requests.specs.Drawing.{DrawsFrom};
ghost use Rattle.ov_requests.specs.Waiting.{many, most_outstanding};
ghost use Rattle.ov_sessions.specs.Sessions.{has_serial};
ghost use Rattle.ov_history.specs.Entries.{listed_of};
ghost use Rattle.ov_laws.specs.Attempts.{own_attempts};
ghost use Rattle.ov_live.specs.Counting.{RisesBy};
ghost use Rattle.ov_live.specs.Asking.{AsksStore};
ghost use Rattle.ov_live.specs.Handling.{HasRoomToWait, Works, WorksWith, HasSameRest};
ghost use Rattle.ov_live.specs.Handling.{WaitsIfRoom, CancelsIfRoom, work_at};
ghost use Rattle.ov_live.specs.Settling.{ComesTo, choice_of};
ghost use Rattle.ov_live.specs.States.{machine_state};

use crate::attempt::{Asked, Trial, try_once};
use crate::live::Live;
use crate::replying::Audience;
use crate::send::send;
use ov_base::{Bytes, Tree, Trees};
use ov_history::{Attempt, Outcome, is_closing, is_kept, list_attempt};
use ov_keeper::Keeper;
use ov_requests::{Draws, Outstanding, Txn, Work, work_of};
use ov_rpc::{Incoming, failure};
use std::alloc::{AllocError, Global};
use uuid::Uuid;

/// The result of the work on a message: the identifiers drawn for it, and what is listed of its attempt.
#[derive(Drop)]
pub(crate) struct Handled {
    pub draws: Vec<Uuid>,
    pub outcome: Option<Outcome>,
}

/// An allocation failed.
fn out_of_memory(draws: Vec<Uuid>) -> Handled
    ensures { result ≡ record { draws = draws; outcome = Some Outcome.NoMemory } }
{
    Handled {
        draws,
        outcome: Some(Outcome::NoMemory),
    }
}

/// Nothing has been drawn.
fn without_draws(alloc: Global, outcome: Option<Outcome>) -> Handled
    ensures outcome { result.outcome ≡ outcome }
    ensures none { result.draws.items ≡ [] }
{
    Handled {
        draws: Vec::new(alloc),
        outcome,
    }
}

/// The reply to a canceled transaction (RFC 7047, 4.1.4).
fn cancellation(alloc: Global, id: Tree) -> Result<Bytes, AllocError>
    ensures { IfOk result (λ b. b ≡ frame (failure_tree id (codes "canceled"))) }
{
    failure(alloc, id, "canceled")
}

impl<K: Keeper + Drop> Live<K> {
    /// Takes a message of an open session and does its work. Then settles the waiting transactions if the work changed the
    /// database, or closes the session if an allocation outside the store failed. Adds what is listed of the attempts to
    /// `attempts`. Returns the identifiers that were drawn.
    pub fn take<D: Draws>(
        &mut self,
        alloc: Global,
        moment: u64,
        session: u64,
        incoming: Incoming,
        source: &mut D,
        attempts: &mut Vec<Attempt>,
    ) -> Vec<Uuid>
        requires untried { self.old.waiting.untried ≡ [] }
        requires open { spec.is_open (machine_state self.old moment) session ≡ true }
        requires none { attempts.old.items ≡ [] }
        requires room { length self.old.waiting.outstanding < vec_capacity attempts.old }
        requires waits { (message : Message) × StandsFor incoming message
            × HasRoomToWait moment session message self.old }
        ensures comes_to { (message : Message) → StandsFor incoming message
            → ComesTo K.failed (choice_of moment result.items attempts.new.items)
            (spec.Take session message) self.old self.new }
        ensures honest { K.is_honest self.new.database.keeper
            → K.is_honest self.old.database.keeper }
        ensures drawn { DrawsFrom D.draws source.old result.items source.new }
        ensures uuids { list_all is_uuid result.items ≡ true }
    {
        let Handled { draws, outcome } = self.handle(alloc, moment, session, incoming, source);
        list_attempt(attempts, 1, outcome);
        if is_closing(outcome) {
            self.close(session);
            return draws;
        }
        if !is_kept(outcome) {
            return draws;
        }
        self.settle(alloc, moment, 2, attempts);
        draws
    }

    /// Does the work on a message of an open session, which is attempt 1 of its event. If an allocation outside the store
    /// fails, at most the session's monitors and the count of attempts are changed; identifiers may have been drawn.
    fn handle<D: Draws>(
        &mut self,
        alloc: Global,
        moment: u64,
        session: u64,
        incoming: Incoming,
        source: &mut D,
    ) -> Handled
        requires open { spec.is_open (machine_state self.old moment) session ≡ true }
        requires waits { (message : Message) × StandsFor incoming message
            × HasRoomToWait moment session message self.old }
        ensures works { (message : Message) → StandsFor incoming message
            → Works moment session (spec.work_of (machine_state self.old moment) session message)
            self.old result self.new }
        ensures asks { AsksStore K.failed result.outcome self.old.database self.new.database }
        ensures counts { K.failed self.old.database.keeper ≤ K.failed self.new.database.keeper }
        ensures honest { K.is_honest self.new.database.keeper
            → K.is_honest self.old.database.keeper }
        ensures drawn { DrawsFrom D.draws source.old result.draws.items source.new }
        ensures uuids { list_all is_uuid result.draws.items ≡ true }
        ensures tries { (message : Message) → StandsFor incoming message
            → RisesBy (listed_of result.outcome)
            (own_attempts (spec.work_of (machine_state self.old moment) session message))
            self.old.tries self.new.tries }
    {
        let schema = self.database.schema();
        let Ok(work) = work_of(alloc, schema, &self.waiting, session, incoming) else {
            return out_of_memory(Vec::new(alloc));
        };
        match work {
            Work::Transact(id, operations) => {
                self.transact(alloc, moment, session, id, operations, source)
            }
            work => without_draws(alloc, self.at_once(alloc, session, work)),
        }
    }

    /// Does work of an open session that draws nothing and does not ask the store.
    fn at_once(&mut self, alloc: Global, session: u64, work: Work) -> Option<Outcome>
        requires open { has_serial session self.old.sessions.open_sessions ≡ true }
        requires undrawn { IsWithoutDraws work }
        ensures works { (moment : ℕ) (asked : spec.Work)
            → IsWork (machine_state self.old moment) session asked work
            → WorksWith (work_at moment session asked []) self.old result self.new }
        ensures rest { HasSameRest self.old result self.new }
    {
        match work {
            Work::Answer(frame) => send(alloc, &mut self.outbox, session, frame),
            Work::Transact(_, _) => None,
            Work::Cancel(id, text) => self.cancel(alloc, session, id, text),
            Work::Lock(call, id, name) => self.ask_lock(alloc, session, call, id, name.as_str()),
            Work::Monitor(id, name, requests) => {
                self.monitor(alloc, session, id, &name, &requests)
            }
            Work::CancelMonitor(id, name) => self.cancel_monitor(alloc, session, id, &name),
        }
    }

    /// Does the work of a transaction, with the identifiers drawn for it.
    fn transact<D: Draws>(
        &mut self,
        alloc: Global,
        moment: u64,
        session: u64,
        id: Tree,
        operations: Trees,
        source: &mut D,
    ) -> Handled
        requires { many self.old.waiting < most_outstanding }
        ensures works { Works moment session (spec.Transact id operations) self.old result
            self.new }
        ensures asks { AsksStore K.failed result.outcome self.old.database self.new.database }
        ensures counts { K.failed self.old.database.keeper ≤ K.failed self.new.database.keeper }
        ensures honest { K.is_honest self.new.database.keeper
            → K.is_honest self.old.database.keeper }
        ensures drawn { DrawsFrom D.draws source.old result.draws.items source.new }
        ensures uuids { list_all is_uuid result.draws.items ≡ true }
        ensures tries { RisesBy (listed_of result.outcome) 1 self.old.tries self.new.tries }
    {
        let Ok(txn) = Txn::read(alloc, operations, source) else {
            return out_of_memory(Vec::new(alloc));
        };
        let audience = Audience {
            sessions: &self.sessions,
            watchers: &self.watchers,
        };
        let asked = Asked {
            session,
            id: &id,
            txn: &txn,
            age: 0,
        };
        match try_once(
            alloc,
            &mut self.database,
            &mut self.outbox,
            &mut self.tries,
            audience,
            asked,
        ) {
            Trial::Done(outcome) => Handled {
                draws: txn.into_draws(),
                outcome,
            },
            Trial::Blocked(timeout) => self.wait(alloc, moment, session, id, txn, timeout),
        }
    }

    /// Makes a transaction that is blocked on arrival wait after the others; `NoMemory` if the text of its id or a copy of its
    /// identifiers cannot be allocated.
    fn wait(
        &mut self,
        alloc: Global,
        moment: u64,
        session: u64,
        id: Tree,
        txn: Txn,
        timeout: Option<u64>,
    ) -> Handled
        requires { many self.old.waiting < most_outstanding }
        ensures waits { WaitsIfRoom
            (spec.arrived (machine_state self.old moment) session id txn.draws txn.operations)
            timeout self.old result.outcome self.new }
        ensures database { self.new.database ≡ self.old.database }
        ensures draws { result.draws.items ≡ txn.draws }
    {
        let Ok(draws) = Vec::from_slice(alloc, txn.draws()) else {
            return out_of_memory(txn.into_draws());
        };
        let Ok(waits) = Outstanding::new(alloc, session, id, txn, moment, timeout) else {
            return out_of_memory(draws);
        };
        self.waiting.push(waits);
        Handled {
            draws,
            outcome: None,
        }
    }

    /// Cancels the session's waiting transaction whose id has this text; `NoMemory` if the reply cannot be allocated.
    fn cancel(&mut self, alloc: Global, session: u64, id: Tree, text: Bytes) -> Option<Outcome>
        ensures { CancelsIfRoom session id text self.old result self.new }
    {
        let Ok(frame) = cancellation(alloc, id) else {
            return Some(Outcome::NoMemory);
        };
        let outcome = send(alloc, &mut self.outbox, session, Some(frame));
        if outcome.is_some() {
            return outcome;
        }
        self.waiting.remove(session, text.as_slice());
        None
    }
}
