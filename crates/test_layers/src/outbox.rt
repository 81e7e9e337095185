//! The frames that wait for sessions, the prepared frames, and the locks that sessions are notified of, call by call.

ghost use Rattle.std.specs.Prelude.{◌≡◌, ◌≤◌, ◌+◌, ℕ, IfOk};
ghost use Rattle.ov_outbox.specs.Frames.{count_for, places_for};

use crate::texts::{fact_text, number_of, owned, parts_of, text_of_bytes, two_parts};
use ov_base::Bytes;
use ov_locks::{LockCall, LockFault};
use ov_outbox::{FrameQueues, Outbox, Prepared};
use std::alloc::{AllocError, Global};
use std::mem;
use std::test::Fail;
use test_basics::{Scripted, agrees, tree};

/// The text of a frame, if there is one.
fn text_of(alloc: Global, frame: Option<Bytes>) -> Result<String, Fail> {
    match frame {
        Some(frame) => text_of_bytes(frame),
        None => owned(alloc, "none"),
    }
}

/// The frame of a text.
fn frame_of(alloc: Global, text: &str) -> Result<Bytes, AllocError> {
    Bytes::from_slice(alloc, text.as_bytes())
}

/// Frames, driven by a script.
///
/// The commands are `push SESSION FRAME`, `keep SESSION`, `kept SESSION FRAME` for a frame in a place kept for it,
/// `give_up SESSION` and `give_up_all SESSION` for places, `pop SESSION`, `joined SESSION`, `empty SESSION`, `clear SESSION`
/// and `drop SESSION`. The others prepare the frames x for session 1, y for session 2 and z for session 1: `release` sends
/// them, `instead 1 FRAME` sends this frame in place of z, and `withdraw` sends none.
#[derive(Drop)]
struct Frames {
    queues: FrameQueues,
}

/// Prepares a frame.
fn prepare(
    alloc: Global,
    queues: &mut FrameQueues,
    prepared: &mut Prepared,
    session: u64,
    text: &str,
) -> Result<(), Fail>
    ensures { (other base : ℕ)
        → places_for other queues.old ≡ base + count_for other prepared.old
        → places_for other queues.new ≡ base + count_for other prepared.new }
{
    let frame = frame_of(alloc, text)?;
    if prepared.prepare(alloc, queues, session, frame) {
        Ok(())
    } else {
        Err(AllocError.into())
    }
}

/// Prepares the three frames.
fn prepare_three(alloc: Global, queues: &mut FrameQueues) -> Result<Prepared, Fail>
    ensures { IfOk result (λ p. (other : ℕ) → count_for other p ≤ places_for other queues.new) }
{
    let mut prepared = Prepared::new(alloc);
    prepare(alloc, queues, &mut prepared, 1, "x")?;
    prepare(alloc, queues, &mut prepared, 2, "y")?;
    prepare(alloc, queues, &mut prepared, 1, "z")?;
    Ok(prepared)
}

impl Frames {
    /// Puts a frame in a place kept for it; false if the place can't be allocated.
    fn push_kept(&mut self, alloc: Global, session: u64, frame: Bytes) -> bool {
        if !self.queues.keep_place(alloc, session) {
            return false;
        }
        self.queues.push_kept(session, frame);
        true
    }

    /// Whether a frame could be put in a kept place.
    fn kept(&mut self, alloc: Global, session: u64, text: &str) -> Result<String, Fail> {
        let frame = frame_of(alloc, text)?;
        fact_text(alloc, self.push_kept(alloc, session, frame))
    }

    /// Sends the prepared frames.
    fn release(&mut self, alloc: Global) -> Result<String, Fail> {
        let prepared = prepare_three(alloc, &mut self.queues)?;
        prepared.release(&mut self.queues);
        Ok(String::new(alloc))
    }

    /// Sends a frame in place of the last prepared one.
    fn release_instead(&mut self, alloc: Global, text: &str) -> Result<String, Fail> {
        let frame = frame_of(alloc, text)?;
        let prepared = prepare_three(alloc, &mut self.queues)?;
        prepared.release_instead(&mut self.queues, frame);
        Ok(String::new(alloc))
    }

    /// Sends none of the prepared frames.
    fn withdraw(&mut self, alloc: Global) -> Result<String, Fail> {
        let prepared = prepare_three(alloc, &mut self.queues)?;
        prepared.give_up(&mut self.queues);
        Ok(String::new(alloc))
    }

    /// Sends a frame, unless an allocation fails.
    fn push(&mut self, alloc: Global, session: u64, text: &str) -> Result<String, Fail> {
        let frame = frame_of(alloc, text)?;
        fact_text(alloc, self.queues.push(alloc, session, frame))
    }

    /// All frames that wait for a session.
    fn joined(&self, alloc: Global, session: u64) -> Result<String, Fail> {
        text_of_bytes(self.queues.joined_for(alloc, session)?)
    }

    /// The answer to a session's command that has one.
    fn tell(
        &mut self,
        alloc: Global,
        word: &str,
        session: u64,
        text: &str,
    ) -> Result<String, Fail> {
        match word {
            "push" => self.push(alloc, session, text),
            "keep" => fact_text(alloc, self.queues.keep_place(alloc, session)),
            "kept" => self.kept(alloc, session, text),
            "pop" => text_of(alloc, self.queues.pop(session)),
            "joined" => self.joined(alloc, session),
            "empty" => fact_text(alloc, self.queues.is_empty(session)),
            _ => Err(Fail::new("no command")),
        }
    }

    /// Carries out a session's command that has no answer. False if it is none of these.
    fn does(&mut self, word: &str, session: u64) -> bool {
        match word {
            "give_up" => self.queues.give_up_place(session),
            "give_up_all" => self.queues.give_up_places(session),
            "clear" => self.queues.clear(session),
            "drop" => self.queues.drop_queue(session),
            _ => return false,
        }
        true
    }

    /// The answer to a session's command.
    fn act(&mut self, alloc: Global, word: &str, session: u64, text: &str) -> Result<String, Fail> {
        if self.does(word, session) {
            return Ok(String::new(alloc));
        }
        self.tell(alloc, word, session, text)
    }
}

impl Scripted for Frames {
    fn answer(&mut self, alloc: Global, command: &str) -> Result<String, Fail> {
        let (word, rest) = command.split_once(" ").unwrap_or((command, "0"));
        let (session, text) = parts_of(rest);
        let session = number_of(session)?;
        match word {
            "release" => self.release(alloc),
            "instead" => self.release_instead(alloc, text),
            "withdraw" => self.withdraw(alloc),
            _ => self.act(alloc, word, session, text),
        }
    }
}

/// Each frame waits for its session, oldest first, including frames put in places kept for them.
const WAITING: &str = "push 1 a -> true
push 2 b -> true
kept 1 c -> true
empty 1 -> false
empty 3 -> true
joined 1 -> ac
pop 1 -> a
pop 1 -> c
pop 1 -> none
keep 3 -> true
keep 3 -> true
give_up 3
give_up 9
empty 3 -> true
push 3 d -> true
clear 3
joined 3
give_up_all 3
kept 3 e -> true
joined 3 -> e
drop 3
pop 3 -> none
joined 2 -> b";

/// Prepared frames are sent in order; or the last is replaced and the others are not sent; or none is sent.
const PREPARED: &str = "push 1 a -> true
release
joined 1 -> axz
joined 2 -> y
instead 1 w
joined 1 -> axzw
joined 2 -> y
withdraw
joined 1 -> axzw
pop 2 -> y
pop 2 -> none";

/// Runs a script over new queues.
fn wait(alloc: Global, script: &str) -> Result<(), Fail> {
    let queues = FrameQueues::new(alloc);
    agrees(alloc, Frames { queues }, script)
}

#[test]
fn frames_wait_for_their_sessions(rt: HostRuntime) -> Result<(), Fail> {
    wait(rt.alloc(), WAITING)?;
    wait(rt.alloc(), PREPARED)
}

/// An outbox, driven by a script.
///
/// The commands are `lock SESSION ID NAME`, `steal SESSION ID NAME` and `unlock SESSION ID NAME`, answered with why they are
/// refused, `owns SESSION NAME` and `leave SESSION`; `push SESSION FRAME`, `pop SESSION`, `joined SESSION`, `clear SESSION`
/// and `forget SESSION`; and `apart SESSION`, which takes the frames and the locks apart and puts them back together,
/// whatever the session.
#[derive(Drop)]
struct Sending {
    outbox: Outbox,
}

/// Takes an outbox apart and puts it back together.
fn taken_apart(outbox: Outbox) -> Outbox {
    outbox.shows_order();
    let (frames, locks) = outbox.into_parts();
    Outbox::from_parts(frames, locks)
}

/// Nothing, or why a call is refused.
fn asked_text(alloc: Global, asked: Result<(), LockFault>) -> Result<String, Fail> {
    match asked {
        Ok(()) => Ok(String::new(alloc)),
        Err(fault) => owned(alloc, fault.text()),
    }
}

impl Sending {
    /// A session's request for a lock, with this id.
    fn ask(
        &mut self,
        alloc: Global,
        call: LockCall,
        session: u64,
        text: &str,
    ) -> Result<String, Fail> {
        let (id, name) = two_parts(text)?;
        let id = tree(alloc, id)?;
        asked_text(alloc, self.outbox.ask(alloc, call, session, &id, name))
    }

    /// Sends a frame, unless an allocation fails.
    fn push(&mut self, alloc: Global, session: u64, text: &str) -> Result<String, Fail> {
        let frame = frame_of(alloc, text)?;
        fact_text(alloc, self.outbox.push(alloc, session, frame))
    }

    /// All frames that wait for a session.
    fn joined(&self, alloc: Global, session: u64) -> Result<String, Fail> {
        text_of_bytes(self.outbox.joined_for(alloc, session)?)
    }

    /// The answer to a session's command that has one.
    fn tell(
        &mut self,
        alloc: Global,
        word: &str,
        session: u64,
        text: &str,
    ) -> Result<String, Fail> {
        match word {
            "lock" => self.ask(alloc, LockCall::Lock, session, text),
            "steal" => self.ask(alloc, LockCall::Steal, session, text),
            "unlock" => self.ask(alloc, LockCall::Unlock, session, text),
            "owns" => fact_text(alloc, self.outbox.owns(session, text)),
            "push" => self.push(alloc, session, text),
            "pop" => text_of(alloc, self.outbox.pop(session)),
            "joined" => self.joined(alloc, session),
            _ => Err(Fail::new("no command")),
        }
    }

    /// Takes the outbox apart and puts it back together.
    fn take_apart(&mut self, alloc: Global) {
        let outbox = mem::replace(&mut self.outbox, Outbox::new(alloc));
        self.outbox = taken_apart(outbox);
    }

    /// Carries out a session's command that has no answer. False if it is none of these.
    fn does(&mut self, alloc: Global, word: &str, session: u64) -> bool {
        match word {
            "leave" => self.outbox.leave(session),
            "clear" => self.outbox.clear(session),
            "forget" => self.outbox.forget(session),
            "apart" => self.take_apart(alloc),
            _ => return false,
        }
        true
    }
}

impl Scripted for Sending {
    fn answer(&mut self, alloc: Global, command: &str) -> Result<String, Fail> {
        let (word, rest) = two_parts(command)?;
        let (session, text) = parts_of(rest);
        let session = number_of(session)?;
        if self.does(alloc, word, session) {
            return Ok(String::new(alloc));
        }
        self.tell(alloc, word, session, text)
    }
}

/// Calls are answered, and a session that loses a lock or becomes its owner is notified, even after its frames were cleared.
const TOLD: &str = r#"lock 1 1 L
lock 2 1 L
joined 2 -> {"error":null,"id":1,"result":{"locked":false}}
owns 1 L -> true
owns 2 L -> false
owns 1 M -> false
steal 2 2 L -> lock already requested
steal 3 "x" L
pop 1 -> {"error":null,"id":1,"result":{"locked":true}}
pop 1 -> {"id":null,"method":"stolen","params":["L"]}
pop 1 -> none
joined 3 -> {"error":null,"id":"x","result":{"locked":true}}
clear 2
apart 0
owns 3 L -> true
forget 1
leave 3
owns 1 L -> true
pop 1 -> {"id":null,"method":"locked","params":["L"]}
unlock 1 2 L
pop 1 -> {"error":null,"id":2,"result":{}}
pop 2 -> {"id":null,"method":"locked","params":["L"]}
unlock 1 3 L -> lock not held
pop 1 -> none"#;

/// Frames wait in the order in which they are put, and a forgotten queue has none.
const PUT: &str = "push 1 a -> true
push 1 b -> true
push 2 c -> true
forget 1
joined 1 -> ab
pop 1 -> a
clear 1
joined 1
pop 2 -> c
forget 2
pop 2 -> none
apart 0
push 2 d -> true
joined 2 -> d";

/// Runs a script over a new outbox.
fn tells(alloc: Global, script: &str) -> Result<(), Fail> {
    let outbox = Outbox::new(alloc);
    agrees(alloc, Sending { outbox }, script)
}

#[test]
fn sessions_are_told_of_locks(rt: HostRuntime) -> Result<(), Fail> {
    tells(rt.alloc(), TOLD)?;
    tells(rt.alloc(), PUT)
}
