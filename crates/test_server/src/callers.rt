use crate::steps::{NetCore, net_core};
use crate::texts::{fact_text, parts_of, push, received, session_of, step_text, text_of_frame};
use ov_core::{Cause, Event, Session};
use ov_rpc::Received;
use std::alloc::Global;
use std::test::Fail;
use test_basics::{Faults, Scripted, agrees};

/// A machine driven by a script, for calls of several sessions.
///
/// `call SERIAL ID METHOD PARAMS` takes a call, a notification if ID is `null`, and returns all that the session was sent since
/// the last `call` or `got`. `got SERIAL` returns the same without a call. `open COUNT` opens COUNT sessions and returns their
/// serials, `end SERIAL` ends the input of a session, and `tick MOMENT` advances time. `close SERIAL` closes a session as
/// overrun, and returns whether it was open.
#[derive(Drop)]
struct Callers {
    core: NetCore,
}

/// The message of a call: its id, its method and its params.
fn message_of(alloc: Global, call: &str) -> Result<Received, Fail> {
    let (id, rest) = call.split_once(" ").ok_or("no method")?;
    let (method, params) = rest.split_once(" ").ok_or("no params")?;
    let text = format!(in alloc; "{{\"id\":{id},\"method\":\"{method}\",\"params\":{params}}}")?;
    received(alloc, text.as_str())
}

impl Callers {
    /// Enters an event.
    fn step(&mut self, alloc: Global, moment: u64, event: Event<Received>) -> Result<String, Fail> {
        step_text(alloc, self.core.step(alloc, moment, event))
    }

    /// Opens a session, and adds its serial.
    fn push_opened(&mut self, alloc: Global, serials: &mut String) -> Result<(), Fail> {
        push(serials, self.step(alloc, 0, Event::Open))?;
        Ok(serials.push_str(";")?)
    }

    /// Opens `count` sessions, and returns their serials.
    fn open(&mut self, alloc: Global, count: u64) -> Result<String, Fail> {
        let mut serials = String::new(alloc);
        for _ in 0..count {
            self.push_opened(alloc, &mut serials)?;
        }
        Ok(serials)
    }

    /// What a session was sent.
    fn got(&mut self, alloc: Global, session: Session) -> Result<String, Fail> {
        text_of_frame(self.core.take_output(alloc, session)?)
    }

    /// Takes a call of a session.
    fn call(&mut self, alloc: Global, session: Session, call: &str) -> Result<String, Fail> {
        let message = message_of(alloc, call)?;
        let stepped = self.step(alloc, 0, Event::Take(session, message))?;
        if stepped.is_empty() {
            self.got(alloc, session)
        } else {
            Ok(stepped)
        }
    }

    /// The answer to a command for a session.
    fn act(
        &mut self,
        alloc: Global,
        word: &str,
        session: Session,
        rest: &str,
    ) -> Result<String, Fail> {
        match word {
            "call" => self.call(alloc, session, rest),
            "got" => self.got(alloc, session),
            "end" => self.step(alloc, 0, Event::Close(session, Cause::InputEnded)),
            "close" => fact_text(alloc, self.core.close(session, Cause::Overrun)),
            _ => Err(Fail::new("no command")),
        }
    }
}

impl Scripted for Callers {
    fn answer(&mut self, alloc: Global, command: &str) -> Result<String, Fail> {
        let (word, rest) = parts_of(command);
        let (number, rest) = parts_of(rest);
        let number = number.parse::<u64>()?;
        match word {
            "open" => self.open(alloc, number),
            "tick" => self.step(alloc, number, Event::Tick),
            _ => self.act(alloc, word, session_of(number), rest),
        }
    }
}

/// Runs a script of commands on a new machine, whose keeper fails as `faults` says.
pub(crate) fn calls_over(alloc: Global, faults: Faults, script: &str) -> Result<(), Fail> {
    let core = net_core(alloc, faults)?;
    agrees(alloc, Callers { core }, script)
}

/// The same with a keeper that keeps everything.
pub(crate) fn calls(alloc: Global, script: &str) -> Result<(), Fail> {
    calls_over(alloc, Faults::NONE, script)
}
