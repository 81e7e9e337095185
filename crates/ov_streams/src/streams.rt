ghost use Rattle.std.specs.Prelude.{◌≡◌, ◌≢◌, ◌≤◌, ℕ, List, [], ◌∷◌, MatchResult, IfOk, OnOk};
ghost use Rattle.std.specs.Prelude.{OnErr, IfSome, IfNone, IsSomeAnd, length, take, slice_get};
ghost use Rattle.std.specs.Prelude.{Some, false};
ghost use Rattle.ov_specs.specs.machine.Machine.{Entry, opening, Open as SpecOpen};
ghost use Rattle.ov_specs.specs.machine.Machine.{Tick as SpecTick, is_open};
ghost use Rattle.ov_specs.specs.schema.SchemaTypes.{Schema};
ghost use Rattle.ov_specs.specs.rows.Database.{Database};
ghost use Rattle.ov_specs.specs.machine.History.{joined};
ghost use Rattle.ov_specs.specs.machine.Streams.{StreamEvent as SpecEvent};
ghost use Rattle.ov_core.specs.Following.{Follows, HasNoHistory, none_given, and_all_handed};
ghost use Rattle.ov_outbox.specs.Frames.{waiting_for, has_queue};
ghost use Rattle.ov_core.specs.Stepping.{RefusesStep};
ghost use Rattle.ov_streams.specs.Running.{FollowsEvents, RunsEvents, RefusesEvent};
ghost use Rattle.ov_streams.specs.Running.{stream_event_view, stream_events_view};

use crate::event::{Ran, StreamEvent};
use crate::feed::feed_session;
use ov_base::Bytes;
use ov_core::{Cause, Core, Session, StepFault};
use ov_cut::Cutter;
use ov_keeper::Keeper;
use ov_requests::Draws;
use std::alloc::{AllocError, Global};
use std::collections::BTreeMap;
use std::marker::Model;

/// A core with the streams of its sessions, each with a cutter of its own.
#[derive(Drop)]
pub struct Streams<K: Keeper, D> {
    core: Core<K, D>,
    /// The cutter of each open session, by its serial. The next session may already have its own.
    cutters: BTreeMap<u64, Cutter>,
}

impl<K: Keeper, D> Model for Streams<K, D> {
    ghost use Rattle.std.specs.Coded.{codes};
    ghost use Rattle.ov_specs.specs.codes.SchemaCode.{schema_code};
    ghost use Rattle.ov_rows.specs.Resident.{database_code};
    ghost use Rattle.ov_specs.specs.codes.TreeCode.{tree_code, items_code};
    ghost use Rattle.ov_streams.specs.Running.{StreamsState};

    ghost Value = { StreamsState K D };

    ghost coded = { Prim.hlevel (
      codes,
      schema_code,
      database_code,
      tree_code,
      items_code,
      K.code,
      D.code,
    ) };

    ghost view = { λ s. record { core = s.core; cutters = s.cutters.entries } };
}

impl<K: Keeper + Drop, D: Draws + Drop> Streams<K, D> {
    /// Streams over a core without history.
    pub fn new(alloc: Global, core: Core<K, D>) -> Streams<K, D>
        requires { HasNoHistory core }
        ensures same { result.core ≡ core }
        // The empty list of events suits it.
        ensures none { (schema : Schema) (database : Database)
            → Follows (opening schema database) [] none_given core
            → FollowsEvents schema database [] [] none_given result }
    {
        Streams {
            core,
            cutters: BTreeMap::new(alloc),
        }
    }

    /// The core.
    pub fn core(&self) -> &Core<K, D>
        ensures { result.now ≡ self.now.core }
    {
        &self.core
    }

    /// Serves the events in order, up to one that is refused; those after it are dropped. Only an opening, as `TooMany` or as
    /// `Memory`, and a passing of time, as `Memory`, may be refused.
    pub fn run(&mut self, alloc: Global, events: Vec<StreamEvent>) -> Ran
        ensures served { result.served ≤ length events.items }
        // Whatever list suited before, it now suits with the served events appended.
        ensures suits { RunsEvents (stream_events_view (take result.served events.items)) self.old
            self.new }
        ensures whole { IfNone result.refused (result.served ≡ length events.items) }
        // An event follows those that were served, and its step from where they led is refused for this fault.
        ensures refused { IfSome result.refused
            (λ fault. IsSomeAnd (slice_get events.items result.served)
            (λ event. RefusesEvent event self.new.core.state fault)) }
        ensures honest { K.is_honest self.new.core.keeper → K.is_honest self.old.core.keeper }
    {
        let mut served = 0;
        for event in &events {
            if let Err(fault) = self.serve(alloc, event) {
                return Ran {
                    served,
                    refused: Some(fault),
                };
            }
            served += 1;
        }
        Ran {
            served,
            refused: None,
        }
    }

    /// Hands out all frames that wait for the session of this serial, joined with nothing in between; empty if none waits. If
    /// an allocation fails, they all still wait.
    pub fn output(&mut self, alloc: Global, session: u64) -> Result<Bytes, AllocError>
        ensures all { IfOk result (λ b. b ≡ joined (waiting_for session self.old.core.outbox)) }
        ensures handed { IfOk result
            (λ b. (schema : Schema) (database : Database) (list : List SpecEvent)
            (history : List Entry) (given : ℕ → List (List ℕ))
            → FollowsEvents schema database list history given self.old
            → FollowsEvents schema database list history
            (and_all_handed given session (waiting_for session self.old.core.outbox))
            self.new) }
        // Nothing else is changed, but for what waits for this session.
        ensures none_left { OnOk result (waiting_for session self.new.core.outbox ≡ []) }
        ensures others { OnOk result ((other : ℕ) → other ≢ session
            → waiting_for other self.new.core.outbox ≡ waiting_for other self.old.core.outbox) }
        ensures same { OnOk result (self.new
            ≡ record self.old { core = record self.old.core { outbox = self.new.core.outbox } }) }
        // A closed session then has no queue.
        ensures forgotten { OnOk result (is_open self.old.core.state session ≡ false
            → has_queue session self.new.core.outbox ≡ false) }
        // If an allocation fails, nothing was handed out.
        ensures refused { OnErr result (self.new ≡ self.old) }
    {
        self.core.take_output(
            alloc,
            Session {
                key: 0,
                serial: session,
            },
        )
    }

    /// Serves one event.
    fn serve(&mut self, alloc: Global, event: &StreamEvent) -> Result<(), StepFault>
        ensures serves { MatchResult result
            (λ _. RunsEvents (stream_event_view event.now ∷ []) self.old self.new)
            (λ fault. RunsEvents [] self.old self.new
            × RefusesEvent event.now self.new.core.state fault) }
        ensures honest { K.is_honest self.new.core.keeper → K.is_honest self.old.core.keeper }
    {
        match event {
            StreamEvent::Open => self.open(alloc),
            StreamEvent::Feed(session, bytes) => {
                self.feed(alloc, *session, bytes.as_slice());
                self.forget(*session);
                Ok(())
            }
            StreamEvent::Finish(session) => {
                self.finish(*session);
                self.forget(*session);
                Ok(())
            }
            StreamEvent::Tick(moment) => {
                self.tick(alloc, *moment)?;
                self.forget_closed();
                Ok(())
            }
        }
    }

    /// Opens a session, whose cutter is made first.
    fn open(&mut self, alloc: Global) -> Result<(), StepFault>
        ensures serves { MatchResult result
            (λ _. RunsEvents (stream_event_view StreamEvent.Open ∷ []) self.old self.new)
            (λ fault. RunsEvents [] self.old self.new
            × RefusesStep SpecOpen self.new.core.state fault) }
        ensures honest { K.is_honest self.new.core.keeper → K.is_honest self.old.core.keeper }
    {
        let Some(serial) = self.core.next_serial() else {
            return Err(StepFault::TooMany);
        };
        if self.core.free_places() == 0 {
            return Err(StepFault::TooMany);
        }
        let Ok(_) = self.cutters.insert(serial, Cutter::new(alloc)) else {
            return Err(StepFault::Memory);
        };
        self.core.open_session()?;
        Ok(())
    }

    /// Lets time pass.
    fn tick(&mut self, alloc: Global, moment: u64) -> Result<(), StepFault>
        ensures serves { MatchResult result
            (λ _. RunsEvents (stream_event_view (StreamEvent.Tick moment) ∷ []) self.old self.new)
            (λ fault. RunsEvents [] self.old self.new
            × RefusesStep SpecTick self.new.core.state fault) }
        ensures honest { K.is_honest self.new.core.keeper → K.is_honest self.old.core.keeper }
    {
        self.core.tick(alloc, moment)?;
        Ok(())
    }

    /// Closes the session, whose bytes ended, if it is open.
    fn finish(&mut self, session: u64)
        ensures serves { RunsEvents (stream_event_view (StreamEvent.Finish session) ∷ []) self.old
            self.new }
        ensures honest { K.is_honest self.new.core.keeper → K.is_honest self.old.core.keeper }
    {
        let session = session_of(session);
        if self.core.is_open(session) {
            let _ = self.core.close(session, Cause::InputEnded);
        }
    }

    /// Feeds the session, if it is open.
    fn feed(&mut self, alloc: Global, session: u64, bytes: &[u8])
        ensures serves { RunsEvents (stream_event_view (StreamEvent.Feed session bytes.now) ∷ [])
            self.old self.new }
        ensures honest { K.is_honest self.new.core.keeper → K.is_honest self.old.core.keeper }
    {
        let owner = session_of(session);
        if !self.core.is_open(owner) {
            return;
        }
        let Some(cutter) = self.cutters.get_mut(&session) else {
            return;
        };
        feed_session(&mut self.core, alloc, 0, owner, cutter, bytes);
    }

    /// Drops the cutter of the session, if it is closed.
    fn forget(&mut self, session: u64)
        ensures serves { RunsEvents [] self.old self.new }
        ensures core { self.new.core ≡ self.old.core }
    {
        if !self.core.is_open(session_of(session)) {
            self.cutters.remove(&session);
        }
    }

    /// Drops the cutters of all closed sessions: a step of one session may close others, for which nothing comes afterwards.
    fn forget_closed(&mut self)
        ensures serves { RunsEvents [] self.old self.new }
        ensures core { self.new.core ≡ self.old.core }
    {
        let core = &self.core;
        self.cutters
            .retain(|serial, _| core.is_open(session_of(*serial)));
    }
}

/// The session of a serial. Its key is not known here, and the core goes by serials.
fn session_of(serial: u64) -> Session
    ensures { result.serial ≡ serial }
{
    Session { key: 0, serial }
}
