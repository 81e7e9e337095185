ghost use Rattle.std.specs.Prelude.{◌≡◌, ◌++◌, ◌+◌, ◌<◌, [], map, length, vec_len};
ghost use Rattle.std.specs.Prelude.{vec_capacity};
ghost use Rattle.ov_specs.specs.machine.Machine.{is_kept};
ghost use Rattle.ov_history.specs.Entries.{attempt_view, event_view, entry_view};
ghost use Rattle.ov_history.specs.Entries.{is_closing, listed_by, listed_of};

use crate::event::{Attempt, Choice, Entry, Event, Outcome};
use ov_rpc::MessageText;
use std::alloc::Global;
use uuid::Uuid;

/// An entry for which only its moment was chosen. Allocates nothing.
pub fn entry_without_choice(alloc: Global, moment: u64, event: Event<MessageText>) -> Entry
    ensures view { entry_view result
        ≡ record {
          event = event_view event;
          choice = record
              { moment = moment; draws = []; outcomes = [] };
        } }
    ensures event { result.event ≡ event }
{
    entry_with_choice(alloc, moment, event, Vec::new(alloc), Vec::new(alloc))
}

/// An entry with the identifiers drawn for it, and with the outcomes of its attempts. If none is listed, it keeps no room for
/// them.
pub fn entry_with_choice(
    alloc: Global,
    moment: u64,
    event: Event<MessageText>,
    draws: Vec<Uuid>,
    attempts: Vec<Attempt>,
) -> Entry
    ensures view { entry_view result
        ≡ record {
          event = event_view event;
          choice = record
              { moment = moment; draws = draws.items; outcomes = map attempt_view attempts.items };
        } }
    ensures event { result.event ≡ event }
{
    Entry {
        event,
        choice: Choice {
            moment,
            draws,
            outcomes: without_room_if_empty(alloc, attempts),
        },
    }
}

fn without_room_if_empty(alloc: Global, attempts: Vec<Attempt>) -> Vec<Attempt>
    ensures { result.items ≡ attempts.items }
{
    if attempts.is_empty() {
        Vec::new(alloc)
    } else {
        attempts
    }
}

/// Lists the attempt, if there is anything to list of it. Allocates nothing.
pub fn list_attempt(attempts: &mut Vec<Attempt>, number: u64, outcome: Option<Outcome>)
    requires { vec_len attempts.old < vec_capacity attempts.old }
    ensures items { attempts.new.items ≡ attempts.old.items ++ listed_by number outcome }
    ensures len { vec_len attempts.new ≡ vec_len attempts.old + length (listed_by number outcome) }
    ensures capacity { vec_capacity attempts.new ≡ vec_capacity attempts.old }
{
    if let Some(outcome) = outcome {
        attempts.push_reserved(Attempt { number, outcome });
    }
}

/// Whether the session of the attempt's transaction is closed when out of memory.
pub fn is_closing(outcome: Option<Outcome>) -> bool
    ensures { result ≡ is_closing outcome }
{
    matches!(outcome, Some(Outcome::NoMemory))
}

/// Whether the store kept the changes.
pub fn is_kept(outcome: Option<Outcome>) -> bool
    ensures { result ≡ is_kept (listed_of outcome) }
{
    matches!(outcome, Some(Outcome::Committed))
}
