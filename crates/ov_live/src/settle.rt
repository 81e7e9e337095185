ghost use Rattle.std.specs.Prelude.{◌≡◌, ℕ, ◌+◌, ◌-◌, ◌<◌, ◌≤◌, ◌^◌, [], length, vec_len};
ghost use Rattle.std.specs.Prelude.{vec_capacity};
ghost use Rattle.ov_specs.specs.locks.Queues.{owns};
ghost use Rattle.ov_specs.specs.operations.Transaction.{transaction};
ghost use Rattle.ov_requests.specs.Waiting.{many};
ghost use Rattle.ov_live.specs.Asking.{AsksStore};
ghost use Rattle.ov_live.specs.Handling.{IsTrial, outcome_in};
ghost use Rattle.ov_live.specs.Settling.{AfterTry, to_do, SettlingState, SettlesSoFar, SettlesAll};
ghost use Rattle.ov_live.specs.States.{machine_sessions};

use crate::attempt::{Asked, Trial, try_once};
use crate::live::Live;
use crate::replying::Audience;
use ov_db::Db;
use ov_history::{Attempt, Outcome, is_closing, is_kept, list_attempt};
use ov_keeper::Keeper;
use ov_outbox::Outbox;
use ov_requests::Outstanding;
use ov_txn::Tries;
use std::alloc::Global;

impl<K: Keeper + Drop> Live<K> {
    /// Settles the waiting transactions: tries them in order of arrival, and again from the first after each that changed the
    /// database, until a whole pass changes nothing (RFC 7047, 4.1.3). The first try is attempt number `first` of its event.
    /// A transaction stops waiting once it is answered; if an allocation for it fails, its session is closed. Does nothing if
    /// none waits.
    pub fn settle(&mut self, alloc: Global, moment: u64, first: u64, attempts: &mut Vec<Attempt>)
        requires untried { self.old.waiting.untried ≡ [] }
        requires room { vec_len attempts.old + length self.old.waiting.outstanding
            ≤ vec_capacity attempts.old }
        requires first { first ≤ 2 }
        ensures settles { SettlesAll K.failed moment first
            (record { live = self.old; listed = attempts.old.items })
            (record { live = self.new; listed = attempts.new.items }) }
        ensures honest { K.is_honest self.new.database.keeper
            → K.is_honest self.old.database.keeper }
    {
        self.waiting.begin();
        let mut number = first;
        'tries: while self.waiting.is_any_untried() {
            number = self.try_next(alloc, moment, number, attempts);
        }
    }

    /// Tries the next transaction of this pass, or drops it if its session was closed meanwhile. Returns the number of the
    /// next attempt.
    fn try_next(
        &mut self,
        alloc: Global,
        moment: u64,
        number: u64,
        attempts: &mut Vec<Attempt>,
    ) -> u64
        requires some { 0 < length self.old.waiting.untried }
        requires room { vec_len attempts.old + many self.old.waiting ≤ vec_capacity attempts.old }
        requires number { number < 2 ^ 63 }
        ensures goes_on { (first : ℕ) (from : SettlingState K)
            → SettlesSoFar K.failed moment first from
            (record { live = self.old; listed = attempts.old.items }) number
            → SettlesSoFar K.failed moment first from
            (record { live = self.new; listed = attempts.new.items }) result }
        ensures room { vec_len attempts.new + many self.new.waiting ≤ vec_capacity attempts.new }
        ensures falls { to_do self.new.waiting < to_do self.old.waiting }
        ensures honest { K.is_honest self.new.database.keeper
            → K.is_honest self.old.database.keeper }
    {
        let Some(next) = self.waiting.next() else {
            return number;
        };
        let session = next.session();
        if !self.sessions.is_open(session) {
            self.waiting.drop_next();
            return number;
        }
        let audience = Audience {
            sessions: &self.sessions,
            watchers: &self.watchers,
        };
        match try_again(
            alloc,
            &mut self.database,
            &mut self.outbox,
            &mut self.tries,
            audience,
            moment,
            next,
        ) {
            Trial::Blocked(timeout) => {
                self.waiting.wait_again(timeout);
                number + 1
            }
            Trial::Done(outcome) => {
                list_attempt(attempts, number, outcome);
                self.waiting.drop_next();
                self.after_try(session, outcome);
                number + 1
            }
        }
    }

    /// Closes the session if an allocation outside the store failed in its finished try. Begins the next pass, from the first
    /// waiting transaction, if the try changed the database.
    fn after_try(&mut self, session: u64, outcome: Option<Outcome>)
        ensures after { AfterTry session outcome self.old self.new }
        ensures database { self.new.database ≡ self.old.database }
    {
        if is_closing(outcome) {
            self.close(session);
        } else if is_kept(outcome) {
            self.waiting.begin_again(&self.sessions);
        }
    }
}

/// Tries a waiting transaction, at its current age and with the locks that its session owns now.
fn try_again<K: Keeper + Drop>(
    alloc: Global,
    database: &mut Db<K>,
    outbox: &mut Outbox,
    tries: &mut Tries,
    audience: Audience<'_>,
    moment: u64,
    waits: &Outstanding,
) -> Trial
    ensures tried { IsTrial
        (record {
          sessions = machine_sessions audience.entry.watchers.now
              audience.entry.sessions.now.open_sessions;
          session = waits.now.session;
          id = waits.now.id;
          outcome = transaction database.old.schema database.old.committed
              (owns outbox.old.queues waits.now.session) waits.now.draws
              (moment - waits.now.arrival) waits.now.operations;
        })
        (record { database = database.old; frames = outbox.old.frames }) result
        (record { database = database.new; frames = outbox.new.frames }) }
    ensures queues { outbox.new.queues ≡ outbox.old.queues }
    ensures asks { AsksStore K.failed (outcome_in result) database.old database.new }
    ensures counts { K.failed database.old.keeper ≤ K.failed database.new.keeper }
    ensures honest { K.is_honest database.new.keeper → K.is_honest database.old.keeper }
    ensures counted { tries.new ≡ tries.old + 1 }
{
    let asked = Asked {
        session: waits.session(),
        id: waits.id(),
        txn: waits.txn(),
        age: waits.age(moment),
    };
    try_once(alloc, database, outbox, tries, audience, asked)
}
