ghost use Rattle.std.specs.Prelude.{◌≡◌, ◌≢◌, ◌≤◌, ◌-◌, ◌++◌, ℕ, List, [], length, max, true};
ghost use Rattle.std.specs.Prelude.{false, MatchBool, IfOk, IfErr, IfNone, OnOk, OnErr};
ghost use Rattle.std.specs.Prelude.{Some, None, IsTrue, option_to_list};
ghost use Rattle.ov_specs.specs.rows.Cells.{Stored};
ghost use Rattle.ov_specs.specs.machine.History.{joined};
ghost use Rattle.ov_specs.specs.machine.Machine.{State, is_open, due, Open as SpecOpen};
ghost use Rattle.ov_specs.specs.machine.Machine.{Tick as SpecTick, Take as SpecTake};
ghost use Rattle.ov_specs.specs.machine.Machine.{Entry as SpecEntry};
ghost use Rattle.ov_history.specs.Entries.{event_view, cause_view, session_in};
ghost use Rattle.ov_outbox.specs.Frames.{waiting_for, has_queue};
ghost use Rattle.ov_history.specs.History.{HasHistory};
ghost use Rattle.ov_core.specs.Following.{Follows, and_handed, and_all_handed};
ghost use Rattle.ov_sessions.specs.Sessions.{most_sessions, serial_left};
ghost use Rattle.ov_history.specs.declared.event.Stepped.TheVariants.{Opened, Done};
ghost use Rattle.ov_core.specs.Stepping.{StepIs, IsEntered, RefusesStep, Closes};
ghost use Rattle.ov_core.specs.Stepping.{AppendsEntry, StepAppends};
ghost use Rattle.ov_core.specs.Passing.{is_due, TicksIf};
ghost use Rattle.ov_core.specs.Leaving.{LeavesItsOwn};
ghost use Rattle.ov_db.specs.Committing.{AreKept, MayFindRows};

use ov_base::Bytes;
use ov_history::{
    Cause, Entry, Event, History, StepFault, Stepped, entry_with_choice, entry_without_choice,
};
use ov_keeper::Keeper;
use ov_live::{Live, moment_of};
use ov_requests::Draws;
use ov_rpc::Received;
use ov_sessions::Session;
use std::alloc::{AllocError, Global};
use std::collections::VecDeque;
use std::marker::Model;

/// The machine over a keeper, with the newest 4,096 entries of its history (RFC 7047, 4). Up to 64 sessions may be open at a
/// time. Calls identify a session by its serial, whatever its key.
pub struct Core<K: Keeper, D> {
    pub(crate) live: Live<K>,
    pub(crate) source: D,
    pub(crate) moment: u64,
    pub(crate) history: History,
    pub(crate) alloc: Global,
}

impl<K: Keeper, D> Model for Core<K, D> {
    ghost use Rattle.std.specs.Prelude.{◌≡◌, []};
    ghost use Rattle.std.specs.Coded.{codes};
    ghost use Rattle.ov_specs.specs.codes.TreeCode.{tree_code, items_code};
    ghost use Rattle.ov_specs.specs.codes.SchemaCode.{schema_code};
    ghost use Rattle.ov_specs.specs.codes.MonitorCode.{monitor_code};
    ghost use Rattle.ov_rows.specs.Resident.{database_code};
    ghost use Rattle.ov_core.specs.Following.{CoreState};
    ghost use Rattle.ov_history.specs.History.{HasHistory};
    ghost use Rattle.ov_live.specs.States.{machine_state};

    ghost Value = { CoreState K D };

    ghost coded = { Prim.hlevel (
      codes,
      schema_code,
      database_code,
      tree_code,
      items_code,
      monitor_code,
      K.code,
      D.code,
    ) };

    ghost view = { λ c. record {
      state = machine_state c.live c.moment;
      open_sessions = c.live.sessions.open_sessions;
      kept = c.history;
      outbox = c.live.outbox.frames;
      keeper = c.live.database.keeper;
      failures = K.Keeper.failed c.live.database.keeper;
      source = c.source;
      tries = c.live.tries;
    } };

    ghost invariant = { λ c. HasHistory (machine_state c.live c.moment) c.history
        × (c.live.waiting.untried ≡ []) };
}

impl<K: Keeper + Drop, D: Drop> Drop for Core<K, D> {
    // Its own `Drop`, so that code that drops a machine need not prove the drops of all its parts again.
    fn drop(self) {
        let Core {
            live,
            source,
            moment: _,
            history,
            alloc: _,
        } = self;
        drop(live);
        drop(source);
        drop(history);
    }
}

impl<K: Keeper + Drop, D: Draws + Drop> Core<K, D> {
    /// Enters an event at a moment in milliseconds, or at the last moment if that is later.
    ///
    /// A blocked transaction waits, after those that already wait, until it can be answered (RFC 7047, 4.1.3, 5.2.6). At most
    /// 64 transactions of a session wait, each with its own id; one more is answered `resources exhausted`, one with the id
    /// of a waiting one `duplicate request id`, and neither is tried. After an attempt that changed the database, and at a
    /// `Tick`, the waiting transactions are tried in order of arrival, from the first again after each that changed it, until
    /// a whole pass changes nothing. If an allocation for one of them fails, its session is closed. The notification `cancel`
    /// answers the canceled one with `canceled` (4.1.4). With n waiting, a `Tick` makes at most n(n+1)/2 attempts, a `Take`
    /// one more, and no other event makes any.
    ///
    /// An `Open` is refused as `TooMany` while 64 sessions are open or if no serial is left, otherwise only as `Memory`; a
    /// `Take` or a `Close` as `NotOpen` if its session is not open; a `Tick` only as `Memory`, and only while transactions
    /// wait. If an allocation for a `Take` fails, its session is closed. A refused step changes nothing. The history has room
    /// for the entry, and keeps the message's text as received.
    pub fn step(&mut self, alloc: Global, moment: u64, event: Event<Received>) -> Stepped
        ensures steps { StepIs D.draws (max moment self.old.state.moment) (event_view event)
            self.old result self.new }
        // The history keeps the event's own session, key and serial, and its other entries as they were.
        ensures keeps { StepAppends (session_in event) self.old result self.new }
        ensures honest { K.is_honest self.new.keeper → K.is_honest self.old.keeper }
    {
        let moment = moment_of(moment, self.moment);
        match event {
            Event::Open => match self.open_at(moment) {
                Ok(opened) => Stepped::Opened(opened),
                Err(fault) => Stepped::Refused(fault),
            },
            Event::Take(session, received) => self.take(alloc, moment, session, received),
            Event::Close(session, cause) => {
                if self.close_at(moment, session, cause) {
                    Stepped::Done
                } else {
                    Stepped::Refused(StepFault::NotOpen)
                }
            }
            Event::Tick => match self.tick_at(alloc, moment) {
                Ok(()) => Stepped::Done,
                Err(fault) => Stepped::Refused(fault),
            },
        }
    }

    /// Opens a session at the last moment, with the next serial: an `Open` by itself. Refused as `TooMany` while 64 sessions
    /// are open or if no serial is left, otherwise only as `Memory`; a refusal changes nothing.
    pub fn open_session(&mut self) -> Result<Session, StepFault>
        ensures opened { IfOk result
            (λ session. IsEntered D.draws self.old.state.moment SpecOpen self.old (Opened session)
            self.new) }
        ensures keeps { OnOk result (AppendsEntry None self.old self.new) }
        ensures refused { IfErr result (λ fault. (self.new ≡ self.old)
            × RefusesStep SpecOpen self.old.state fault) }
        ensures honest { K.is_honest self.new.keeper → K.is_honest self.old.keeper }
    {
        let moment = self.moment;
        self.open_at(moment)
    }

    /// Advances time to a moment in milliseconds, or to the last moment if that is later: a `Tick` by itself. Refused only as
    /// `Memory`, and only while transactions wait; a refusal changes nothing.
    pub fn tick(&mut self, alloc: Global, moment: u64) -> Result<(), StepFault>
        ensures ticked { OnOk result
            (IsEntered D.draws (max moment self.old.state.moment) SpecTick self.old Done self.new) }
        ensures keeps { OnOk result (AppendsEntry None self.old self.new) }
        ensures refused { IfErr result (λ fault. (self.new ≡ self.old)
            × RefusesStep SpecTick self.old.state fault) }
        ensures honest { K.is_honest self.new.keeper → K.is_honest self.old.keeper }
    {
        let at = moment.max(self.moment);
        self.tick_at(alloc, at)
    }

    /// Advances time as `tick` does if a waiting transaction is due by the moment, in milliseconds; returns whether it did.
    /// Refused as `tick` is, and only if one is due; a refusal changes nothing.
    pub fn pass_where_due(&mut self, alloc: Global, moment: u64) -> Result<bool, StepFault>
        ensures passes { IfOk result (λ ticks. TicksIf D.draws ticks moment self.old self.new) }
        ensures due { IfOk result (λ ticks. ticks ≡ is_due moment self.old.state) }
        ensures keeps { IfOk result
            (λ ticks. IsTrue ticks → AppendsEntry None self.old self.new) }
        ensures refused { IfErr result (λ fault. (self.new ≡ self.old)
            × (is_due moment self.old.state ≡ true) × RefusesStep SpecTick self.old.state fault) }
        ensures honest { K.is_honest self.new.keeper → K.is_honest self.old.keeper }
    {
        match self.due() {
            Some(due) if due <= moment => {
                self.tick(alloc, moment)?;
                Ok(true)
            }
            _ => Ok(false),
        }
    }

    /// Closes the session at the last moment, and drops its monitors, its waiting transactions and its requests for locks;
    /// the next owners of these locks are notified. Returns false, and changes nothing, if the session is not open. The
    /// frames that wait for it still wait. Allocates nothing.
    pub fn close(&mut self, session: Session, cause: Cause) -> bool
        ensures closes { MatchBool result
            (Closes self.old.state.moment session.serial (cause_view cause) self.old self.new)
            ((self.new ≡ self.old) × (is_open self.old.state session.serial ≡ false)) }
        // The history keeps the session, key and serial.
        ensures keeps { IsTrue result → AppendsEntry (Some session) self.old self.new }
        ensures honest { K.is_honest self.new.keeper → K.is_honest self.old.keeper }
    {
        let moment = self.moment;
        self.close_at(moment, session, cause)
    }

    /// How often the keeper's device has failed; stays at 2^64-1 once there.
    pub fn failures(&self) -> u64
        ensures count { result ≡ K.failed self.now.keeper }
        ensures state { result ≡ self.now.failures }
    {
        self.live.database.failures()
    }

    /// Whether the session is open.
    pub fn is_open(&self, session: Session) -> bool
        ensures { result ≡ is_open self.now.state session.serial }
    {
        self.live.sessions.is_open(session.serial)
    }

    /// How many more sessions may be open: 64 minus those that are.
    pub fn free_places(&self) -> usize
        ensures { result ≡ most_sessions - length self.now.state.sessions }
    {
        self.live.sessions.free_places()
    }

    /// The serial of the next session, or `None` if no serial is left: the last is 2^64-2.
    pub fn next_serial(&self) -> Option<u64>
        ensures { result ≡ serial_left self.now.state.next }
    {
        self.live.sessions.next_serial()
    }

    /// When the first waiting transaction times out, in milliseconds: the least sum of a moment of arrival and the timeout of
    /// the wait that blocked the last try (RFC 7047, 5.2.6). `None` if none times out; a sum beyond 2^64-1 is left out. A
    /// `Tick` at this moment answers that transaction unless an allocation fails. Allocates nothing.
    pub fn due(&self) -> Option<u64>
        ensures { result ≡ due self.now.state }
    {
        self.live.waiting.due()
    }

    /// The last 4,096 entries of the history since the core was opened, oldest first.
    pub fn history(&self) -> &VecDeque<Entry>
        ensures kept { result.now.items ≡ self.now.kept }
        // Every core keeps the invariant that there is such a history.
        ensures legal { HasHistory self.now.state self.now.kept }
    {
        self.history.entries()
    }

    /// Hands out the oldest frame that waits for the session, even if it is closed; `None` if no frame waits for it.
    pub fn next_frame(&mut self, session: Session) -> Option<Bytes>
        ensures handed { (before : State) (history : List SpecEntry) (given : ℕ → List (List ℕ))
            → Follows before history given self.old
            → Follows before history (and_handed given session.serial result) self.new }
        ensures oldest { waiting_for session.serial self.old.outbox
            ≡ option_to_list result ++ waiting_for session.serial self.new.outbox }
        ensures none { IfNone result (waiting_for session.serial self.old.outbox ≡ []) }
        ensures others { (other : ℕ) → other ≢ session.serial
            → waiting_for other self.new.outbox ≡ waiting_for other self.old.outbox }
        ensures same { self.new ≡ record self.old { outbox = self.new.outbox } }
        // A closed session for which no more frames wait has no queue.
        ensures forgotten { is_open self.old.state session.serial ≡ false
            → waiting_for session.serial self.new.outbox ≡ []
            → has_queue session.serial self.new.outbox ≡ false }
    {
        let frame = self.live.outbox.pop(session.serial);
        if !self.is_open(session) {
            self.live.outbox.forget(session.serial);
        }
        frame
    }

    /// Hands out all frames that wait for the session, even if it is closed: oldest first, joined with nothing in between,
    /// empty if none waits. A closed session then has no queue. If an allocation fails, nothing is changed.
    pub fn take_output(&mut self, alloc: Global, session: Session) -> Result<Bytes, AllocError>
        ensures all { IfOk result (λ b. b ≡ joined (waiting_for session.serial self.old.outbox)) }
        ensures none_left { OnOk result (waiting_for session.serial self.new.outbox ≡ []) }
        ensures others { OnOk result ((other : ℕ) → other ≢ session.serial
            → waiting_for other self.new.outbox ≡ waiting_for other self.old.outbox) }
        ensures handed { OnOk result
            ((before : State) (history : List SpecEntry) (given : ℕ → List (List ℕ))
            → Follows before history given self.old
            → Follows before history
            (and_all_handed given session.serial (waiting_for session.serial self.old.outbox))
            self.new) }
        ensures same { OnOk result (self.new ≡ record self.old { outbox = self.new.outbox }) }
        ensures forgotten { OnOk result (is_open self.old.state session.serial ≡ false
            → has_queue session.serial self.new.outbox ≡ false) }
        // If an allocation fails, nothing was handed out.
        ensures refused { OnErr result (self.new ≡ self.old) }
    {
        let output = self.live.outbox.joined_for(alloc, session.serial)?;
        self.live.outbox.clear(session.serial);
        Ok(output)
    }

    /// Drops the frames that wait for a closed session; does nothing if the session is open. Allocates nothing.
    pub fn discard(&mut self, session: Session)
        ensures open { is_open self.old.state session.serial ≡ true → self.new ≡ self.old }
        // Afterwards no frame waits for a closed session, and it has no queue.
        ensures none_left { is_open self.old.state session.serial ≡ false
            → waiting_for session.serial self.new.outbox ≡ [] }
        ensures forgotten { is_open self.old.state session.serial ≡ false
            → has_queue session.serial self.new.outbox ≡ false }
        ensures others { (other : ℕ) → other ≢ session.serial
            → waiting_for other self.new.outbox ≡ waiting_for other self.old.outbox }
        // Frames that waited for a closed session count as handed out.
        ensures handed { is_open self.old.state session.serial ≡ false
            → (before : State) (history : List SpecEntry) (given : ℕ → List (List ℕ))
            → Follows before history given self.old
            → Follows before history
            (and_all_handed given session.serial (waiting_for session.serial self.old.outbox))
            self.new }
        ensures same { self.new ≡ record self.old { outbox = self.new.outbox } }
    {
        if self.is_open(session) {
            return;
        }
        self.live.outbox.clear(session.serial);
    }

    /// States what a crash now leaves in an honest keeper, an invariant of every core: the machine's database as stored in
    /// format 2, or after a failed commit possibly the database that the commit would have made, stored likewise. An open finds
    /// one of them. Does nothing.
    pub fn shows_left(&self)
        ensures own { K.is_honest self.now.keeper → (held : Stored) → K.leaves self.now.keeper held
            → LeavesItsOwn self.now.state held }
        // An open finds something.
        ensures some { K.is_honest self.now.keeper
            → ∥ ((held : Stored) × K.leaves self.now.keeper held) ∥₁ }
        ensures format { K.format self.now.keeper ≡ 2 }
    {
        self.live.database.shows_left();
    }

    /// Gives up the core, and returns its keeper, which is of format 2.
    pub fn into_keeper(self) -> K
        ensures same { result ≡ self.keeper }
        ensures format { K.format result ≡ 2 }
    {
        let Core {
            live,
            source: _,
            moment: _,
            history: _,
            alloc: _,
        } = self;
        live.into_keeper()
    }

    /// States what an open after a crash now would find if the keeper is honest, an invariant of every core: the machine's
    /// database, or after a failed commit possibly the one that the commit would have made. Does nothing.
    pub fn shows_would_open(&self)
        ensures { K.is_honest self.now.keeper
            → MayFindRows (K.leaves self.now.keeper) self.now.state.schema self.now.state.database
            self.now.state.sealed }
    {
        self.live.database.shows_left();
    }

    /// States an invariant of every core: each row of the machine's database is a row of the schema and what its cells read
    /// back as, and the rows are whole, so that a commit leaves them as they are. The same holds for the rows that a failed
    /// commit would have made. Does nothing.
    pub fn shows_kept(&self)
        ensures { AreKept self.now.state.schema self.now.state.database self.now.state.sealed }
    {
        self.live.database.shows_kept();
    }

    fn open_at(&mut self, moment: u64) -> Result<Session, StepFault>
        requires { self.old.state.moment ≤ moment }
        ensures opened { IfOk result
            (λ session. IsEntered D.draws moment SpecOpen self.old (Opened session) self.new) }
        ensures keeps { OnOk result (AppendsEntry None self.old self.new) }
        ensures refused { IfErr result (λ fault. (self.new ≡ self.old)
            × RefusesStep SpecOpen self.old.state fault) }
        ensures honest { K.is_honest self.new.keeper → K.is_honest self.old.keeper }
    {
        if self.live.sessions.is_full() {
            return Err(StepFault::TooMany);
        }
        let Ok(session) = self.live.open() else {
            return Err(StepFault::Memory);
        };
        self.history
            .push(entry_without_choice(self.alloc, moment, Event::Open));
        self.moment = moment;
        Ok(session)
    }

    fn tick_at(&mut self, alloc: Global, moment: u64) -> Result<(), StepFault>
        requires { self.old.state.moment ≤ moment }
        ensures ticked { OnOk result (IsEntered D.draws moment SpecTick self.old Done self.new) }
        ensures keeps { OnOk result (AppendsEntry None self.old self.new) }
        ensures refused { IfErr result (λ fault. (self.new ≡ self.old)
            × RefusesStep SpecTick self.old.state fault) }
        ensures honest { K.is_honest self.new.keeper → K.is_honest self.old.keeper }
    {
        let Ok(mut attempts) = Vec::with_capacity(alloc, self.live.waiting.len()) else {
            return Err(StepFault::Memory);
        };
        self.live.tick(alloc, moment, &mut attempts);
        self.history.push(entry_with_choice(
            self.alloc,
            moment,
            Event::Tick,
            Vec::new(self.alloc),
            attempts,
        ));
        self.moment = moment;
        Ok(())
    }

    fn close_at(&mut self, moment: u64, session: Session, cause: Cause) -> bool
        requires { self.old.state.moment ≤ moment }
        ensures closes { MatchBool result
            (Closes moment session.serial (cause_view cause) self.old self.new)
            ((self.new ≡ self.old) × (is_open self.old.state session.serial ≡ false)) }
        ensures keeps { IsTrue result → AppendsEntry (Some session) self.old self.new }
        ensures honest { K.is_honest self.new.keeper → K.is_honest self.old.keeper }
    {
        if !self.is_open(session) {
            return false;
        }
        self.close_open(moment, session, cause);
        true
    }

    fn close_open(&mut self, moment: u64, session: Session, cause: Cause)
        requires moment { self.old.state.moment ≤ moment }
        requires open { is_open self.old.state session.serial ≡ true }
        ensures closes { Closes moment session.serial (cause_view cause) self.old self.new }
        ensures keeps { AppendsEntry (Some session) self.old self.new }
        ensures honest { K.is_honest self.new.keeper → K.is_honest self.old.keeper }
    {
        self.history.push(entry_without_choice(self.alloc, moment, Event::Close(session, cause)));
        self.live.close(session.serial);
        self.moment = moment;
    }

    /// Takes a message. If the list of its attempts cannot be allocated, closes its session instead.
    fn take(&mut self, alloc: Global, moment: u64, session: Session, received: Received) -> Stepped
        requires { self.old.state.moment ≤ moment }
        ensures steps { StepIs D.draws moment (SpecTake session.serial received) self.old result
            self.new }
        ensures keeps { StepAppends (Some session) self.old result self.new }
        ensures honest { K.is_honest self.new.keeper → K.is_honest self.old.keeper }
    {
        if !self.is_open(session) {
            return Stepped::Refused(StepFault::NotOpen);
        }
        let Ok(mut attempts) = Vec::with_capacity(alloc, self.live.waiting.len() + 1) else {
            self.close_open(moment, session, Cause::Memory);
            return Stepped::Closed;
        };
        self.live.sessions.shows_few();
        let (incoming, text) = received.into_parts();
        let draws = self.live.take(
            alloc,
            moment,
            session.serial,
            incoming,
            &mut self.source,
            &mut attempts,
        );
        let event = Event::Take(session, text);
        self.history.push(entry_with_choice(self.alloc, moment, event, draws, attempts));
        self.moment = moment;
        if self.live.sessions.is_open(session.serial) {
            Stepped::Done
        } else {
            Stepped::Closed
        }
    }
}
