use crate::made::made;
use crate::steps::{NetCore, net_core};
use crate::texts::{number_or_none, received, session_of, step_text};
use ov_core::{Attempt, Cause, Event};
use ov_rpc::Received;
use std::alloc::{AllocError, Global};
use std::test::Fail;
use test_basics::{Faults, Scripted, agrees};

/// A machine driven by a script, for transactions that wait.
///
/// `wait SERIAL ID NAME` is a transaction that waits for a switch of this name, optionally followed by a timeout in
/// milliseconds; `insert SERIAL ID NAME` is one that inserts it, and `chain SERIAL ID NAME OTHER` one that waits for the
/// first and inserts the other. `waits SERIAL FIRST BEYOND` takes waits for s9 with the ids from FIRST up to but not
/// including BEYOND, and `cancel SERIAL ID` the notification that cancels one. `open`, `tick MOMENT` and `finish SERIAL` are
/// the other events; `pass MOMENT` is a tick if a transaction is due, and returns whether one was. `got SERIAL` returns what a
/// session was sent since the last `got`, `outcomes` the attempts that the last entry lists, and `due` when the first
/// transaction times out.
#[derive(Drop)]
struct Waits {
    core: NetCore,
}

/// The operation that waits for a switch of a name.
fn wait_for(alloc: Global, name: &str, timeout: &str) -> Result<String, AllocError> {
    format!(in alloc;
        "{{\"op\":\"wait\",\"table\":\"Switch\",{timeout}\"where\":[[\"name\",\"==\",\"{name}\"]],\"columns\":[\"name\"],\"until\":\"==\",\"rows\":[{{\"name\":\"{name}\"}}]}}"
    )
}

/// The operation that inserts a switch of a name.
fn insert_of(alloc: Global, name: &str) -> Result<String, AllocError> {
    format!(in alloc; "{{\"op\":\"insert\",\"table\":\"Switch\",\"row\":{{\"name\":\"{name}\"}}}}")
}

/// The operation of a `wait` command: a name, optionally followed by a timeout.
fn wait_of(alloc: Global, rest: &str) -> Result<String, AllocError> {
    match rest.split_once(" ") {
        Some((name, timeout)) => wait_within(alloc, name, timeout),
        None => wait_for(alloc, rest, ""),
    }
}

/// The operation that waits for a switch of a name, with a timeout.
fn wait_within(alloc: Global, name: &str, timeout: &str) -> Result<String, AllocError> {
    let timeout = format!(in alloc; "\"timeout\":{timeout},")?;
    wait_for(alloc, name, timeout.as_str())
}

/// The operations that wait for one switch and insert another.
fn chain_of(alloc: Global, names: &str) -> Result<String, AllocError> {
    let (name, other) = parts_of(names);
    let wait = wait_for(alloc, name, "")?;
    let insert = insert_of(alloc, other)?;
    format!(in alloc; "{wait},{insert}")
}

/// The parts of a text before and after its first space; the second is empty if it has none.
fn parts_of(text: &str) -> (&str, &str) {
    text.split_once(" ").unwrap_or((text, ""))
}

/// Adds an attempt.
fn push_attempt(alloc: Global, text: &mut String, attempt: &Attempt) -> Result<(), AllocError> {
    let item = format!(in alloc; "{} {:?};", attempt.number, attempt.outcome)?;
    text.push_str(item.as_str())
}

impl Waits {
    /// Enters an event at a moment.
    fn step(&mut self, alloc: Global, moment: u64, event: Event<Received>) -> Result<String, Fail> {
        step_text(alloc, self.core.step(alloc, moment, event))
    }

    /// Takes a message of a session.
    fn take(&mut self, alloc: Global, serial: u64, text: &str) -> Result<String, Fail> {
        let message = received(alloc, text)?;
        self.step(alloc, 0, Event::Take(session_of(serial), message))
    }

    /// Takes a transaction of a session, if its operations were made.
    fn transact(
        &mut self,
        alloc: Global,
        serial: u64,
        id: &str,
        operations: Result<String, AllocError>,
    ) -> Result<String, Fail> {
        let operations = made(operations)?;
        let text = made(format!(in alloc;
            "{{\"id\":{id},\"method\":\"transact\",\"params\":[\"Net\",{operations}]}}"
        ))?;
        self.take(alloc, serial, text.as_str())
    }

    /// Takes the notification that cancels a transaction.
    fn cancel(&mut self, alloc: Global, serial: u64, id: &str) -> Result<String, Fail> {
        let text = made(format!(in alloc;
            "{{\"id\":null,\"method\":\"cancel\",\"params\":[{id}]}}"
        ))?;
        self.take(alloc, serial, text.as_str())
    }

    /// Takes the wait of a session for s9, with this id.
    fn wait(&mut self, alloc: Global, serial: u64, id: u64) -> Result<(), Fail> {
        let id = number_or_none(alloc, Some(id))?;
        self.transact(alloc, serial, id.as_str(), wait_of(alloc, "s9"))?;
        Ok(())
    }

    /// Takes waits of a session for s9, with these ids.
    fn waits(
        &mut self,
        alloc: Global,
        serial: u64,
        first: &str,
        beyond: &str,
    ) -> Result<String, Fail> {
        for id in first.parse::<u64>().unwrap_or(0)..beyond.parse::<u64>().unwrap_or(0) {
            self.wait(alloc, serial, id)?;
        }
        Ok(String::new(alloc))
    }

    /// What a session was sent.
    fn got(&mut self, alloc: Global, serial: u64) -> Result<String, AllocError> {
        let output = self.core.take_output(alloc, session_of(serial))?;
        match String::from_utf8(output.into_vec()) {
            Ok(text) => Ok(text),
            Err(_) => String::from_str(alloc, "no text"),
        }
    }

    /// The attempts that the last entry lists.
    fn outcomes(&self, alloc: Global) -> Result<String, AllocError> {
        let Some(entry) = self.core.history().back() else {
            return String::from_str(alloc, "no entry");
        };
        let mut text = String::new(alloc);
        for attempt in &entry.choice.outcomes {
            push_attempt(alloc, &mut text, attempt)?;
        }
        Ok(text)
    }

    /// Opens a session, and returns its serial.
    fn open(&mut self, alloc: Global) -> Result<String, AllocError> {
        match self.core.open_session() {
            Ok(session) => format!(in alloc; "{}", session.serial),
            Err(fault) => format!(in alloc; "{fault:?}"),
        }
    }

    /// Advances time to a moment.
    fn tick(&mut self, alloc: Global, moment: u64) -> Result<String, AllocError> {
        match self.core.tick(alloc, moment) {
            Ok(()) => Ok(String::new(alloc)),
            Err(fault) => format!(in alloc; "{fault:?}"),
        }
    }

    /// Advances time to a moment if a transaction is due by it, and returns whether one was.
    fn pass(&mut self, alloc: Global, moment: u64) -> Result<String, AllocError> {
        match self.core.pass_where_due(alloc, moment) {
            Ok(ticks) => format!(in alloc; "{ticks}"),
            Err(fault) => format!(in alloc; "{fault:?}"),
        }
    }

    /// Ends the input of a session.
    fn finish(&mut self, alloc: Global, serial: u64) -> Result<String, Fail> {
        self.step(
            alloc,
            0,
            Event::Close(session_of(serial), Cause::InputEnded),
        )
    }

    /// The answer to a command about a transaction of a session.
    fn act(&mut self, alloc: Global, word: &str, serial: u64, rest: &str) -> Result<String, Fail> {
        let (id, rest) = parts_of(rest);
        match word {
            "wait" => self.transact(alloc, serial, id, wait_of(alloc, rest)),
            "waits" => self.waits(alloc, serial, id, rest),
            "chain" => self.transact(alloc, serial, id, chain_of(alloc, rest)),
            "cancel" => self.cancel(alloc, serial, id),
            "insert" => self.transact(alloc, serial, id, insert_of(alloc, rest)),
            _ => Err(Fail::new("no command")),
        }
    }

    /// The answer to a command about time or a session, with its number.
    fn answer_at(
        &mut self,
        alloc: Global,
        word: &str,
        number: u64,
        rest: &str,
    ) -> Result<String, Fail> {
        match word {
            "tick" => made(self.tick(alloc, number)),
            "pass" => made(self.pass(alloc, number)),
            "finish" => self.finish(alloc, number),
            "got" => made(self.got(alloc, number)),
            _ => self.act(alloc, word, number, rest),
        }
    }
}

impl Scripted for Waits {
    fn answer(&mut self, alloc: Global, command: &str) -> Result<String, Fail> {
        let (word, rest) = parts_of(command);
        let (number, others) = parts_of(rest);
        match (word, number.parse::<u64>()) {
            ("open", _) => made(self.open(alloc)),
            ("outcomes", _) => made(self.outcomes(alloc)),
            ("due", _) => number_or_none(alloc, self.core.due()),
            (_, Ok(number)) => self.answer_at(alloc, word, number, others),
            (_, Err(_)) => Err(Fail::new("no number")),
        }
    }
}

/// Runs a script that was made on a new machine.
fn waits_as(alloc: Global, script: Result<String, AllocError>) -> Result<(), Fail> {
    waits_over(alloc, Faults::NONE, script?.as_str())
}

/// Runs a script of commands on a new machine, whose keeper fails as `faults` says.
fn waits_over(alloc: Global, faults: Faults, script: &str) -> Result<(), Fail> {
    let core = net_core(alloc, faults)?;
    agrees(alloc, Waits { core }, script)
}

/// An insert by another session meets a wait. A second transaction with the id of a waiting one is refused, and draws
/// nothing.
const MET: &str = r#"open -> 1
open -> 2
wait 1 1 s9
got 1
outcomes
wait 1 1 s9
got 1 -> {"error":"duplicate request id","id":1,"result":null}
insert 2 1 s9
got 2 -> {"error":null,"id":1,"result":[{"uuid":["uuid","00000000-0000-4000-8000-000000000003"]}]}
got 1 -> {"error":null,"id":1,"result":[{}]}
outcomes -> 1 Committed;
insert 2 2 s8
got 1"#;

#[test]
fn wait_is_met_by_another(rt: HostRuntime) -> Result<(), Fail> {
    waits_over(rt.alloc(), Faults::NONE, MET)
}

/// A wait times out once its timeout has passed since it arrived, regardless of tries in between; or it is canceled.
const TIMED_OUT: &str = r#"open -> 1
wait 1 1 s9 0
got 1 -> {"error":null,"id":1,"result":[{"error":"timed out"}]}
tick 1000
wait 1 1 s9 50
wait 1 2 s9 70
due -> 1050
tick 1049
pass 1049 -> false
got 1
insert 1 3 s1
got 1 -> {"error":null,"id":3,"result":[{"uuid":["uuid","00000000-0000-4000-8000-000000000005"]}]}
tick 1050
got 1 -> {"error":null,"id":1,"result":[{"error":"timed out"}]}
due -> 1070
pass 1069 -> false
pass 1070 -> true
got 1 -> {"error":null,"id":2,"result":[{"error":"timed out"}]}
due -> none
wait 1 4 s9
due -> none
cancel 1 4
got 1 -> {"error":"canceled","id":4,"result":null}
outcomes"#;

#[test]
fn wait_times_out(rt: HostRuntime) -> Result<(), Fail> {
    waits_over(rt.alloc(), Faults::NONE, TIMED_OUT)
}

/// A try that changes the database restarts the tries with the first: attempt 2 leaves 1 waiting, 3 answers 2, and 4 answers
/// 1.
const AGAIN: &str = r#"open -> 1
open -> 2
wait 1 1 s10
chain 1 2 s9 s10
got 1
insert 2 1 s9
got 2 -> {"error":null,"id":1,"result":[{"uuid":["uuid","00000000-0000-4000-8000-000000000005"]}]}
got 1 -> {"error":null,"id":2,"result":[{},{"uuid":["uuid","00000000-0000-4000-8000-000000000003"]}]}{"error":null,"id":1,"result":[{}]}
outcomes -> 1 Committed;3 Committed;"#;

#[test]
fn settling_starts_again(rt: HostRuntime) -> Result<(), Fail> {
    waits_over(rt.alloc(), Faults::NONE, AGAIN)
}

/// Up to 64 transactions of a session wait. The rest of what session 1 is sent follows these lines.
const SIXTY_FOUR: &str = r#"open -> 1
open -> 2
waits 1 1 65
got 1
insert 1 65 s9
got 1 -> {"error":"resources exhausted","id":65,"result":null}
wait 2 65 s8
got 2
cancel 1 1
got 1 -> {"error":"canceled","id":1,"result":null}
insert 1 65 s9
got 2
got 1 -> {"error":null,"id":65,"result":[{"uuid":["uuid","00000000-0000-4000-8000-000000000043"]}]}"#;

/// The replies to the transactions that wait with the ids from 2 to 64.
fn replies(alloc: Global) -> Result<String, AllocError> {
    let mut text = String::new(alloc);
    for id in 2..65 {
        let reply = format!(in alloc; "{{\"error\":null,\"id\":{id},\"result\":[{{}}]}}")?;
        text.push_str(reply.as_str())?;
    }
    Ok(text)
}

/// The script with these replies.
fn sixty_four(alloc: Global) -> Result<String, AllocError> {
    let replies = replies(alloc)?;
    format!(in alloc; "{SIXTY_FOUR}{replies}")
}

#[test]
fn sixty_four_wait_at_most(rt: HostRuntime) -> Result<(), Fail> {
    waits_as(rt.alloc(), sixty_four(rt.alloc()))
}

/// Adds a session with 64 transactions that wait.
fn push_waiter(alloc: Global, script: &mut String, serial: u64) -> Result<(), AllocError> {
    let commands = format!(in alloc; "open -> {serial}\nwaits {serial} 1 65\ngot {serial}\n")?;
    script.push_str(commands.as_str())
}

/// Adds the replies that sessions 2 to 63 then have.
fn push_others(alloc: Global, script: &mut String, replies: &str) -> Result<(), AllocError> {
    for serial in 2..64 {
        let got = format!(in alloc;
            "\ngot {serial} -> {{\"error\":null,\"id\":1,\"result\":[{{}}]}}{replies}"
        )?;
        script.push_str(got.as_str())?;
    }
    Ok(())
}

/// As many transactions wait as may: 64 of each of 64 sessions. Session 64 cancels one and inserts what the others wait for.
/// All sessions then have all their replies, session 64 first the one to its insert.
fn all_that_may(alloc: Global) -> Result<String, AllocError> {
    let mut script = String::new(alloc);
    for serial in 1..65 {
        push_waiter(alloc, &mut script, serial)?;
    }
    let replies = replies(alloc)?;
    let rest = format!(in alloc;
        r#"cancel 64 1
got 64 -> {{"error":"canceled","id":1,"result":null}}
got 1
insert 64 65 s9
got 1 -> {{"error":null,"id":1,"result":[{{}}]}}{replies}
got 64 -> {{"error":null,"id":65,"result":[{{"uuid":["uuid","00000000-0000-4000-8000-000000001002"]}}]}}{replies}"#
    )?;
    script.push_str(rest.as_str())?;
    push_others(alloc, &mut script, replies.as_str())?;
    Ok(script)
}

#[test]
fn all_that_may_wait_are_answered(rt: HostRuntime) -> Result<(), Fail> {
    waits_as(rt.alloc(), all_that_may(rt.alloc()))
}

/// What a closed session asked for is dropped. Canceling an id that does not wait, or that waits for another session, does
/// nothing.
const DROPPED: &str = r#"open -> 1
open -> 2
wait 1 1 s9 50
wait 2 1 s9 60
cancel 2 2
cancel 1 "1"
got 1
got 2
due -> 50
finish 1
due -> 60
cancel 2 1
got 2 -> {"error":"canceled","id":1,"result":null}
due -> none
cancel 2 1
got 2
insert 2 1 s9
got 1
got 2 -> {"error":null,"id":1,"result":[{"uuid":["uuid","00000000-0000-4000-8000-000000000004"]}]}"#;

#[test]
fn a_closed_session_waits_for_nothing(rt: HostRuntime) -> Result<(), Fail> {
    waits_over(rt.alloc(), Faults::NONE, DROPPED)
}

/// The last moment is 2^64-1. What would time out after it never does.
const LATE: &str = r#"open -> 1
tick 9223372036854775808
wait 1 1 s9 9223372036854775807
due -> 18446744073709551615
cancel 1 1
got 1 -> {"error":"canceled","id":1,"result":null}
tick 9223372036854775809
wait 1 2 s9 9223372036854775807
due -> none
tick 18446744073709551615
got 1
insert 1 3 s9
got 1 -> {"error":null,"id":3,"result":[{"uuid":["uuid","00000000-0000-4000-8000-000000000004"]}]}{"error":null,"id":2,"result":[{}]}"#;

#[test]
fn what_is_due_after_the_last_moment_never_is(rt: HostRuntime) -> Result<(), Fail> {
    waits_over(rt.alloc(), Faults::NONE, LATE)
}

/// The device fails at the second commit, which is that of a later try: its session receives the error, and the database is
/// sealed. Transactions that wait still wait, and time out.
const SEALED: &str = r#"open -> 1
open -> 2
chain 1 1 s9 s10
wait 1 2 s10 50
insert 2 1 s9
got 2 -> {"error":null,"id":1,"result":[{"uuid":["uuid","00000000-0000-4000-8000-000000000005"]}]}
got 1 -> {"error":null,"id":1,"result":[{},{"uuid":["uuid","00000000-0000-4000-8000-000000000002"]},{"error":"I/O error"}]}
outcomes -> 1 Committed;2 Failed;
insert 2 2 s10
got 2 -> {"error":null,"id":2,"result":[{"uuid":["uuid","00000000-0000-4000-8000-000000000007"]},{"error":"I/O error"}]}
got 1
tick 50
got 1 -> {"error":null,"id":2,"result":[{"error":"timed out"}]}"#;

#[test]
fn a_later_try_may_fail(rt: HostRuntime) -> Result<(), Fail> {
    let faults = Faults {
        is_too_large: false,
        good: 1,
        bad: 1,
    };
    waits_over(rt.alloc(), faults, SEALED)
}
