//! A desk that takes one item at a time: from which ring, and what it then puts into the rings of all sessions.

use crate::machines::net_desk;
use ov_base::Bytes;
use ov_core::{Cause, Session};
use ov_keeper::Keeper;
use ov_lanes::{Desk, Lane};
use ov_order::{Brought, Sent, inbound_ring, outbound_ring};
use ov_requests::Draws;
use ov_rpc::Received;
use ov_workers::ReadCause;
use rtrb::{Consumer, Producer};
use std::alloc::{AllocError, Global};
use std::test::Fail;
use test_basics::{Scripted, agrees};

/// The workers' ends of a session's rings.
#[derive(Drop)]
struct Side {
    to_desk: Producer<Brought<Received, ReadCause>>,
    to_writer: Consumer<Sent>,
}

/// The two sides of a session's new rings: the desk's and the workers'.
fn sides_of(alloc: Global, session: Session) -> Result<(Lane, Side), AllocError> {
    let (to_desk, inbound) = inbound_ring(alloc)?;
    let (outbound, to_writer) = outbound_ring(alloc)?;
    let lane = Lane::new(session, inbound, outbound);
    Ok((lane, Side { to_desk, to_writer }))
}

/// Puts a message into a ring to the desk, and returns nothing, or why not.
fn bring(alloc: Global, side: &mut Side, text: &str) -> Result<&'static str, AllocError> {
    let bytes = Bytes::from_slice(alloc, text.as_bytes())?;
    Ok(match Received::read(alloc, bytes) {
        Ok(received) => push(side, received),
        Err(_) => "no message",
    })
}

/// The same for a message that was read.
fn push(side: &mut Side, received: Received) -> &'static str {
    match side.to_desk.push(Brought::Message(received)) {
        Ok(()) => "",
        Err(_) => "a full ring",
    }
}

/// What was taken out of a ring to a writer: the number of frames, the last of them, and `end` after the end mark. Empty if
/// nothing was there.
fn taken_text(alloc: Global, frames: u64, last: &[u8], ended: bool) -> Result<String, AllocError> {
    if frames == 0 && !ended {
        return Ok(String::new(alloc));
    }
    let last = str::from_utf8(last).unwrap_or("no text");
    let mark = if ended { " end" } else { "" };
    format!(in alloc; "{frames} {last}{mark}")
}

/// Takes all out of a ring to a writer.
fn take_all(alloc: Global, side: &mut Side) -> Result<String, AllocError> {
    let mut frames: u64 = 0;
    let mut last = Vec::new(alloc);
    let mut ended = false;
    for _ in 0..1_025 {
        match side.to_writer.pop() {
            Ok(Sent::Frame(frame)) => {
                frames = frames.saturating_add(1);
                last = frame.into_vec();
            }
            Ok(Sent::End) => ended = true,
            Err(_) => break,
        }
    }
    taken_text(alloc, frames, last.as_slice(), ended)
}

/// A desk, and the workers' sides of the sessions that it serves.
#[derive(Drop)]
struct Bench<K: Keeper, D: Draws> {
    desk: Desk<K, D>,
    sides: Vec<Side>,
}

/// The side of the session of a serial, which counts from 1.
fn side_of(sides: &mut Vec<Side>, serial: u64) -> Option<&mut Side> {
    let at = (serial as usize).checked_sub(1)?;
    sides.get_mut(at)
}

impl<K: Keeper + Drop, D: Draws + Drop> Bench<K, D> {
    /// Gives a session a place.
    fn place(&mut self, alloc: Global, session: Session) -> Result<(), AllocError> {
        let (lane, side) = sides_of(alloc, session)?;
        let has_room = self.desk.lanes.push(Some(lane)).is_ok();
        self.sides.push(side)?;
        if has_room { Ok(()) } else { Err(AllocError) }
    }

    /// Opens a session, gives it a place, and returns its serial.
    fn open(&mut self, alloc: Global) -> Result<String, AllocError> {
        let Ok(session) = self.desk.core.open_session() else {
            return String::from_str(alloc, "not opened");
        };
        self.place(alloc, session)?;
        format!(in alloc; "{}", session.serial)
    }

    /// Brings an echo and has it taken, `count` times. Returns how many turns took one.
    fn fill(&mut self, alloc: Global, serial: u64, count: u64) -> Result<u64, AllocError> {
        let mut turns: u64 = 0;
        for _ in 0..count {
            if let Some(side) = side_of(&mut self.sides, serial) {
                bring(alloc, side, "{\"id\":9,\"method\":\"echo\",\"params\":[]}")?;
            }
            turns = turns.saturating_add(u64::from(self.desk.turn(alloc, 0, serial)));
        }
        Ok(turns)
    }

    /// Why the session of a serial was closed, if it was. None if there is no such session.
    fn cause(&self, serial: u64) -> Option<Option<Cause>> {
        match self.desk.lanes.get((serial as usize).checked_sub(1)?) {
            Some(Some(lane)) => Some(lane.cause),
            _ => None,
        }
    }

    /// The answer to a command that names a session. `text` is what follows.
    fn answer_of(
        &mut self,
        alloc: Global,
        command: &str,
        serial: u64,
        text: &str,
    ) -> Result<String, AllocError> {
        match command {
            "turns" => format!(in alloc; "{}", self.desk.turn(alloc, 0, serial)),
            "fills" => {
                let turns = self.fill(alloc, serial, text.parse::<u64>().unwrap_or(0))?;
                format!(in alloc; "{turns}")
            }
            "cause" => match self.cause(serial) {
                Some(cause) => format!(in alloc; "{cause:?}"),
                None => String::from_str(alloc, "no session"),
            },
            _ => match side_of(&mut self.sides, serial) {
                Some(side) => side_answer(alloc, side, command, text),
                None => String::from_str(alloc, "no session"),
            },
        }
    }
}

/// The answer to a command that its workers' side alone answers.
fn side_answer(
    alloc: Global,
    side: &mut Side,
    command: &str,
    text: &str,
) -> Result<String, AllocError> {
    match command {
        "brings" => String::from_str(alloc, bring(alloc, side, text)?),
        "takes" => take_all(alloc, side),
        _ => String::from_str(alloc, "no command"),
    }
}

impl<K: Keeper + Drop, D: Draws + Drop> Scripted for Bench<K, D> {
    /// The commands: `opens` a session; `brings SERIAL MESSAGE` to the desk; `turns SERIAL`, whether the desk took an item;
    /// `fills SERIAL COUNT`, brings an echo and has it taken, COUNT times; `takes SERIAL`, what is in the ring to the writer;
    /// `cause SERIAL`, why the session was closed.
    fn answer(&mut self, alloc: Global, command: &str) -> Result<String, Fail> {
        let Some((word, rest)) = command.split_once(" ") else {
            return Ok(self.open(alloc)?);
        };
        let (serial, text) = rest.split_once(" ").unwrap_or((rest, ""));
        match serial.parse::<u64>() {
            Ok(serial) => Ok(self.answer_of(alloc, word, serial, text)?),
            Err(_) => Err(Fail::new("no serial")),
        }
    }
}

/// Fails unless this desk answers this script.
fn answers_over<K: Keeper + Drop, D: Draws + Drop>(
    alloc: Global,
    desk: Desk<K, D>,
    script: &str,
) -> Result<(), Fail> {
    let sides = Vec::new(alloc);
    agrees(alloc, Bench { desk, sides }, script)
}

/// Fails unless a new desk answers this script.
fn answers(alloc: Global, script: &str) -> Result<(), Fail> {
    answers_over(alloc, net_desk(alloc)?, script)
}

/// Both sessions have a message, and the second gets a turn first. No session has the serial 3.
const ONE_RING_ALONE: &str = r#"opens -> 1
opens -> 2
turns 1 -> false
brings 1 {"id":1,"method":"echo","params":["a"]}
brings 2 {"id":2,"method":"echo","params":["b"]}
turns 3 -> false
turns 2 -> true
takes 1
takes 2 -> 1 {"error":null,"id":2,"result":["b"]}
turns 2 -> false
takes 1
takes 2
turns 1 -> true
takes 1 -> 1 {"error":null,"id":1,"result":["a"]}
takes 2
turns 1 -> false"#;

#[test]
fn a_turn_takes_from_one_ring_alone(rt: HostRuntime) -> Result<(), Fail> {
    answers(rt.alloc(), ONE_RING_ALONE)
}

/// The second session owns the lock, and its ring has no room for the reply to its last echo. The first session waits for the
/// lock, and is notified in the same turn although its ring is filled first.
const OVERRUN: &str = r#"opens -> 1
opens -> 2
brings 2 {"id":1,"method":"lock","params":["L"]}
turns 2 -> true
brings 1 {"id":1,"method":"lock","params":["L"]}
turns 1 -> true
takes 1 -> 1 {"error":null,"id":1,"result":{"locked":false}}
fills 2 1023 -> 1023
takes 1
cause 2 -> None
brings 2 {"id":2,"method":"echo","params":[]}
turns 2 -> true
takes 1 -> 1 {"id":null,"method":"locked","params":["L"]}
takes 2 -> 1024 {"error":null,"id":9,"result":[]} end
cause 1 -> None
cause 2 -> Some(Overrun)"#;

#[test]
fn a_lock_is_given_on_in_the_turn_of_an_overrun(rt: HostRuntime) -> Result<(), Fail> {
    answers(rt.alloc(), OVERRUN)
}
