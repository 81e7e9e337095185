ghost use Rattle.std.specs.Prelude.{◌≡◌, ◌++◌, ◌+◌, ◌<◌, ◌≤◌, ◌==◌, not, List, [], ◌∷◌, filter};
ghost use Rattle.std.specs.Prelude.{length, IfOk, MatchBool, MatchOption};
ghost use Rattle.std.specs.List.{list_any, filter_map};
ghost use Rattle.std.specs.VecDeque.{deque_len, deque_capacity};
ghost use Rattle.ov_specs.specs.machine.Machine as machine;
ghost use Rattle.ov_specs.specs.machine.Machine.{of_others, least, timeout_of};
ghost use Rattle.ov_sessions.specs.Sessions.{has_serial};
ghost use Rattle.ov_requests.specs.Waiting.{has_text, earlier, many, most_outstanding};

use crate::outstanding::Outstanding;
use ov_sessions::Sessions;
use std::alloc::{AllocError, Global};
use std::collections::VecDeque;
use std::marker::Model;
use std::mem;

/// The most transactions that may wait: 64 of each of 64 sessions.
const MOST_OUTSTANDING: usize = 4096;

/// The waiting transactions, in order of arrival. While they are settled, those that the pass has not tried yet stand before
/// the others, in a queue of their own. Each queue has room for as many as may wait, so nothing is allocated for them later.
#[derive(Drop)]
pub struct Waiting {
    untried: VecDeque<Outstanding>,
    outstanding: VecDeque<Outstanding>,
}

impl Model for Waiting {
    ghost use Rattle.std.specs.Coded.{codes};
    ghost use Rattle.std.specs.VecDeque.{deque_len, deque_capacity};
    ghost use Rattle.ov_specs.specs.codes.TreeCode.{tree_code, items_code};
    ghost use Rattle.ov_requests.specs.Waiting.{WaitingList, HasWaitingRoom};

    ghost Value = { WaitingList };

    ghost coded = { Prim.hlevel (codes, tree_code, items_code) };

    ghost view = { λ w. record { untried = w.untried.items; outstanding = w.outstanding.items } };

    ghost invariant = { λ w. HasWaitingRoom (deque_len w.untried) (deque_len w.outstanding)
        (deque_capacity w.untried) (deque_capacity w.outstanding) };
}

impl Waiting {
    /// No transaction waits. Allocates the room for all that may wait.
    pub fn new(alloc: Global) -> Result<Waiting, AllocError>
        ensures { IfOk result (λ w. w ≡ record { untried = []; outstanding = [] }) }
    {
        Ok(Waiting {
            untried: VecDeque::with_capacity(alloc, MOST_OUTSTANDING)?,
            outstanding: VecDeque::with_capacity(alloc, MOST_OUTSTANDING)?,
        })
    }

    /// How many transactions wait.
    pub fn len(&self) -> usize
        ensures len { result ≡ length self.now.outstanding }
        ensures few { result ≤ most_outstanding }
    {
        self.outstanding.len()
    }

    /// Whether a transaction of the session waits whose id has this text.
    pub fn has_text(&self, session: u64, text: &[u8]) -> bool
        ensures { result ≡ list_any (has_text session text.now) self.now.outstanding }
    {
        let (older, newer) = self.outstanding.as_slices();
        any_has_text(older, session, text) || any_has_text(newer, session, text)
    }

    /// How many transactions of the session wait.
    pub fn count_of(&self, session: u64) -> usize
        ensures { result ≡ length (filter (λ o. o.session == session) self.now.outstanding) }
    {
        let (older, newer) = self.outstanding.as_slices();
        count_of(older, session) + count_of(newer, session)
    }

    /// When the first of them times out.
    pub fn due(&self) -> Option<u64>
        ensures { result ≡ least (filter_map timeout_of self.now.outstanding) }
    {
        let (older, newer) = self.outstanding.as_slices();
        let due = due_among(older, None);
        due_among(newer, due)
    }

    /// Appends a transaction. Allocates nothing.
    pub fn push(&mut self, outstanding: Outstanding)
        requires { many self.old < most_outstanding }
        ensures { self.new
            ≡ record self.old { outstanding = self.old.outstanding ++ outstanding ∷ [] } }
    {
        self.outstanding.push_back_reserved(outstanding);
    }

    /// Removes the session's transaction whose id has this text.
    pub fn remove(&mut self, session: u64, text: &[u8])
        ensures { self.new
            ≡ record self.old {
              outstanding = filter (λ o. not (has_text session text.now o)) self.old.outstanding;
            } }
    {
        keep_without(&mut self.outstanding, session, text);
    }

    /// Removes the session's transactions that are not still to be tried.
    pub fn leave(&mut self, session: u64)
        ensures { self.new
            ≡ record self.old { outstanding = of_others session self.old.outstanding } }
    {
        keep_others(&mut self.outstanding, session);
    }

    /// Begins a pass: all waiting transactions are to be tried.
    pub fn begin(&mut self)
        ensures begins { self.new
            ≡ record { untried = self.old.outstanding; outstanding = self.old.untried } }
        ensures few { many self.new ≤ most_outstanding }
    {
        mem::swap(&mut self.untried, &mut self.outstanding);
    }

    /// Ends the pass where it is, and begins the next one: the transactions that it has not tried wait after the others, if
    /// their sessions are open, and then all are to be tried.
    pub fn begin_again(&mut self, sessions: &Sessions)
        ensures { self.new ≡ record {
          untried = self.old.outstanding ++ filter
              (λ o. has_serial o.session sessions.now.open_sessions) self.old.untried;
          outstanding = [];
        } }
    {
        keep_open(&mut self.untried, sessions);
        append_reserved(&mut self.outstanding, &mut self.untried);
        mem::swap(&mut self.untried, &mut self.outstanding);
    }

    /// Whether the pass still has transactions to try.
    pub fn is_any_untried(&self) -> bool
        ensures { MatchBool result (0 < length self.now.untried) (self.now.untried ≡ []) }
    {
        !self.untried.is_empty()
    }

    /// The next transaction to be tried.
    pub fn next(&self) -> Option<&Outstanding>
        ensures { MatchOption result (self.now.untried
            ≡ []) (λ first. (rest : List machine.Outstanding)
            × (self.now.untried ≡ first.now ∷ rest)) }
    {
        self.untried.front()
    }

    /// Removes the transaction that was to be tried next; does nothing if there is none.
    pub fn drop_next(&mut self)
        ensures none { self.old.untried ≡ [] → self.new ≡ self.old }
        ensures next { (first : machine.Outstanding) (rest : List machine.Outstanding) → self.old.untried
            ≡ first ∷ rest
            → self.new ≡ record self.old { untried = rest } }
    {
        let _first = self.untried.pop_front();
    }

    /// Puts the transaction that was to be tried next after the others, for a wait with this timeout; does nothing if there is
    /// none.
    pub fn wait_again(&mut self, timeout: Option<u64>)
        ensures none { self.old.untried ≡ [] → self.new ≡ self.old }
        ensures next { (first : machine.Outstanding) (rest : List machine.Outstanding) → self.old.untried
            ≡ first ∷ rest
            → self.new
            ≡ record {
              untried = rest;
              outstanding = self.old.outstanding ++ record first
                  { timeout = timeout } ∷ [];
            } }
    {
        let Some(mut first) = self.untried.pop_front() else {
            return;
        };
        first.wait_on(timeout);
        self.outstanding.push_back_reserved(first);
    }
}

fn any_has_text(these: &[Outstanding], session: u64, text: &[u8]) -> bool
    ensures { result ≡ list_any (has_text session text.now) these.now }
{
    these.iter().any(|o| o.has_text(session, text))
}

fn count_of(these: &[Outstanding], session: u64) -> usize
    ensures count { result ≡ length (filter (λ o. o.session == session) these.now) }
    ensures few { result ≤ length these.now }
{
    these.iter().filter(|o| o.session() == session).count()
}

/// The earlier of two moments, if there is one.
fn earlier(one: Option<u64>, other: Option<u64>) -> Option<u64>
    ensures { result ≡ earlier one other }
{
    match (one, other) {
        (Some(one), Some(other)) => Some(one.min(other)),
        (Some(one), None) => Some(one),
        (None, other) => other,
    }
}

/// The earliest of this moment and those at which these time out.
fn due_among(these: &[Outstanding], due: Option<u64>) -> Option<u64>
    ensures { result ≡ earlier due (least (filter_map timeout_of these.now)) }
{
    let mut due = due;
    for one in these {
        due = earlier(due, one.times_out());
    }
    due
}

fn keep_without(these: &mut VecDeque<Outstanding>, session: u64, text: &[u8])
    ensures items { these.new.items
        ≡ filter (λ o. not (has_text session text.now o)) these.old.items }
    ensures len { deque_len these.new ≤ deque_len these.old }
    ensures capacity { deque_capacity these.new ≡ deque_capacity these.old }
{
    these.retain(|o| !o.has_text(session, text));
}

fn keep_others(these: &mut VecDeque<Outstanding>, session: u64)
    ensures items { these.new.items ≡ of_others session these.old.items }
    ensures len { deque_len these.new ≤ deque_len these.old }
    ensures capacity { deque_capacity these.new ≡ deque_capacity these.old }
{
    these.retain(|o| o.session() != session);
}

fn keep_open(these: &mut VecDeque<Outstanding>, sessions: &Sessions)
    ensures items { these.new.items
        ≡ filter (λ o. has_serial o.session sessions.now.open_sessions) these.old.items }
    ensures len { deque_len these.new ≤ deque_len these.old }
    ensures capacity { deque_capacity these.new ≡ deque_capacity these.old }
{
    these.retain(|o| sessions.is_open(o.session()));
}

/// Appends all of these to the others, which have room for them.
fn append_reserved(others: &mut VecDeque<Outstanding>, these: &mut VecDeque<Outstanding>)
    requires { deque_len others.old + deque_len these.old ≤ deque_capacity others.old }
    ensures others { others.new.items ≡ others.old.items ++ these.old.items }
    ensures these { these.new.items ≡ [] }
    ensures capacity { deque_capacity others.old ≤ deque_capacity others.new }
    ensures same { deque_capacity these.new ≡ deque_capacity these.old }
{
    let _all = others.append(these);
}
