//! 64 clients at once, each with an echo, a monitor, an insert and an echo, compared with the history that their desk kept.

use crate::clients::{Client, ClientWriter, client_of, lines_of, links_of};
use crate::desks::{converse_at, refusal, serve};
use crate::holding::{HoldingGate, NO_HOLDS};
use crate::machines::net_desk;
use crate::told::{push, tells};
use ov_core::{Entry, Event};
use ov_desk::Served;
use ov_ends::Source;
use ov_hall::End;
use ov_keeper::Keeper;
use ov_lanes::Desk;
use ov_requests::Draws;
use ov_workers::Link;
use std::alloc::{AllocError, Global};
use std::collections::VecDeque;
use std::rt::Clock;
use std::sync::Wait;
use std::test::Fail;
use std::thread::Threads;

/// The number of clients.
const CLIENTS: u64 = 64;

/// The place of the insert among a client's messages. The monitor comes before it.
const INSERT: u64 = 2;

/// The method and the params of a monitor that reports each new switch.
const MONITOR: &str =
    r#""monitor","params":["Net","m",{"Switch":{"columns":["name"],"select":{"initial":false}}}]"#;

/// A client's message at a place. Each has an id of its own.
fn message_of(alloc: Global, serial: u64, place: u64) -> Result<String, AllocError> {
    match place {
        1 => format!(in alloc; "{{\"id\":[{serial},{place}],\"method\":{MONITOR}}}"),
        INSERT => format!(in alloc;
            "{{\"id\":[{serial},{place}],\"method\":\"transact\",\"params\":[\"Net\",{{\"op\":\"insert\",\"table\":\"Switch\",\"row\":{{\"name\":\"s{serial}\"}}}}]}}"
        ),
        _ => format!(in alloc;
            "{{\"id\":[{serial},{place}],\"method\":\"echo\",\"params\":[{serial}]}}"
        ),
    }
}

/// Whether a client's message at a place is this.
fn is_message(alloc: Global, message: &[u8], serial: u64, place: u64) -> Result<bool, AllocError> {
    Ok(message == message_of(alloc, serial, place)?.as_bytes())
}

/// The number in the identifier of the row of an insert, which draws its version first.
fn drawn_by(insert: u64) -> u64 {
    insert.saturating_mul(2)
}

/// The reply to that message. If it is an insert, it is number `inserts`.
fn reply_of(alloc: Global, serial: u64, place: u64, inserts: u64) -> Result<String, AllocError> {
    let drawn = drawn_by(inserts);
    match place {
        1 => format!(in alloc; "{{\"error\":null,\"id\":[{serial},{place}],\"result\":{{}}}}"),
        INSERT => format!(in alloc;
            "{{\"error\":null,\"id\":[{serial},{place}],\"result\":[{{\"uuid\":[\"uuid\",\"00000000-0000-4000-8000-{drawn:012x}\"]}}]}}"
        ),
        _ => format!(in alloc;
            "{{\"error\":null,\"id\":[{serial},{place}],\"result\":[{serial}]}}"
        ),
    }
}

/// The update that a monitor receives for a client's insert.
fn update_of(alloc: Global, serial: u64, insert: u64) -> Result<String, AllocError> {
    let drawn = drawn_by(insert);
    format!(in alloc;
        "{{\"id\":null,\"method\":\"update\",\"params\":[\"m\",{{\"Switch\":{{\"00000000-0000-4000-8000-{drawn:012x}\":{{\"new\":{{\"name\":\"s{serial}\"}}}}}}}}]}}"
    )
}

/// The script of a client. It ends after all clients have reached their last message, and so have brought the others.
fn script_of(alloc: Global, serial: u64) -> Result<String, AllocError> {
    let mut script = String::new(alloc);
    for place in 0..4 {
        push(&mut script, message_of(alloc, serial, place))?;
    }
    script.push_str("\nafter 0 push 256")?;
    Ok(script)
}

/// The lines that clients should be written. The last one is that of the client with this serial, for the messages taken so far.
#[derive(Drop)]
struct Wanted {
    serial: u64,
    taken: u64,
    inserts: u64,
    lines: String,
}

impl Wanted {
    /// Takes a message of a client. If it is an insert, a client that has asked for a monitor receives the update first.
    fn take(&mut self, alloc: Global, from: u64, message: &[u8]) -> Result<(), AllocError> {
        if is_message(alloc, message, from, INSERT)? {
            self.inserts = self.inserts.saturating_add(1);
            if self.taken >= INSERT {
                push(&mut self.lines, update_of(alloc, from, self.inserts))?;
            }
        }
        if from == self.serial {
            return self.answer(alloc, message);
        }
        Ok(())
    }

    /// Answers the client's own message, which must be the next one of its script.
    fn answer(&mut self, alloc: Global, message: &[u8]) -> Result<(), AllocError> {
        if !is_message(alloc, message, self.serial, self.taken)? {
            return self.lines.push_str("another message");
        }
        let reply = reply_of(alloc, self.serial, self.taken, self.inserts);
        self.taken = self.taken.saturating_add(1);
        push(&mut self.lines, reply)
    }

    /// Adds the line of a client, according to the history.
    fn push_line(
        &mut self,
        alloc: Global,
        history: &VecDeque<Entry>,
        serial: u64,
    ) -> Result<(), AllocError> {
        (self.serial, self.taken, self.inserts) = (serial, 0, 0);
        push(&mut self.lines, format!(in alloc; "{serial} InputEnded "))?;
        for entry in history {
            if let Event::Take(session, message) = &entry.event {
                self.take(alloc, session.serial, message.as_slice())?;
            }
        }
        self.lines.push_str("\n")
    }
}

/// The lines of all clients, according to the history.
fn wanted_lines(alloc: Global, history: &VecDeque<Entry>) -> Result<String, AllocError> {
    let mut wanted = Wanted {
        serial: 0,
        taken: 0,
        inserts: 0,
        lines: String::new(alloc),
    };
    for serial in 1..CLIENTS + 1 {
        wanted.push_line(alloc, history, serial)?;
    }
    Ok(wanted.lines)
}

/// A client that counts the rows.
const COUNTING: &str =
    r#"{"id":0,"method":"transact","params":["Net",{"op":"mutate","table":"Switch","where":[],"mutations":[["load","+=",1]]}]}"#;

/// Fails unless what remains of clients is what the history says.
fn fits_history<S: Drop>(
    alloc: Global,
    history: &VecDeque<Entry>,
    ends: &mut VecDeque<End<S, ClientWriter>>,
    is_late: bool,
) -> Result<(), Fail> {
    let wanted = wanted_lines(alloc, history)?;
    tells(alloc, lines_of(alloc, ends, is_late), wanted.as_str())
}

const COUNTED: &str = "65 InputEnded {\"error\":null,\"id\":0,\"result\":[{\"count\":64}]}\n";

/// Fails unless clients fitted the history, and one more counted 64 rows.
fn is_counted(
    alloc: Global,
    fitted: Result<(), Fail>,
    told: Result<String, AllocError>,
) -> Result<(), Fail> {
    fitted?;
    tells(alloc, told, COUNTED)
}

/// Fails unless what remains of clients is what the history says, and one more counts 64 rows at their desk.
fn counts<R, K, D, S>(
    rt: &R,
    alloc: Global,
    gate: &HoldingGate<'_, R>,
    served: Served<K, D, S, ClientWriter>,
) -> Result<(), Fail>
where
    R: Threads + Wait + Clock + Sync,
    K: Keeper + Drop,
    D: Draws + Drop,
    S: Drop,
{
    let Served { desk, mut ends } = served;
    let fitted = fits_history(alloc, desk.core().history(), &mut ends, gate.is_late());
    let told = converse_at(rt, alloc, desk, &[client_of(COUNTING)], gate);
    is_counted(alloc, fitted, told)
}

/// Fails unless these links are served at a desk with that outcome.
fn counts_after<R, K, D, S>(
    rt: &R,
    alloc: Global,
    desk: Desk<K, D>,
    links: VecDeque<Link<S, ClientWriter>>,
    gate: &HoldingGate<'_, R>,
) -> Result<(), Fail>
where
    R: Threads + Wait + Clock + Sync,
    K: Keeper + Drop,
    D: Draws + Drop,
    S: Source + Send + Drop,
{
    match serve(rt, alloc, desk, links, gate) {
        Ok(served) => counts(rt, alloc, gate, served),
        Err(unserved) => tells(alloc, refusal(alloc, unserved), COUNTED),
    }
}

/// The same of clients at a new desk.
fn are_served_at<R: Threads + Wait + Clock + Sync>(
    rt: &R,
    alloc: Global,
    clients: &[Client<'_>],
    gate: &HoldingGate<'_, R>,
) -> Result<(), Fail> {
    let links = links_of(alloc, gate, clients)?;
    counts_after(rt, alloc, net_desk(alloc)?, links, gate)
}

/// The same with a new gate.
fn are_served<R: Threads + Wait + Clock + Sync>(
    rt: &R,
    alloc: Global,
    clients: &[Client<'_>],
) -> Result<(), Fail> {
    let gate = HoldingGate::new(rt, alloc, NO_HOLDS)?;
    are_served_at(rt, alloc, clients, &gate)
}

/// The scripts of all clients.
fn scripts_of_all(alloc: Global) -> Result<Vec<String>, AllocError> {
    let mut scripts = Vec::new(alloc);
    for serial in 1..CLIENTS + 1 {
        scripts.push(script_of(alloc, serial)?)?;
    }
    Ok(scripts)
}

/// Clients with these scripts.
fn clients_of(alloc: Global, scripts: &Vec<String>) -> Result<Vec<Client<'_>>, AllocError> {
    let mut clients = Vec::new(alloc);
    for script in scripts {
        clients.push(client_of(script.as_str()))?;
    }
    Ok(clients)
}

/// The same for clients with these scripts.
fn are_followed<R: Threads + Wait + Clock + Sync>(
    rt: &R,
    alloc: Global,
    scripts: &Vec<String>,
) -> Result<(), Fail> {
    let clients = clients_of(alloc, scripts)?;
    are_served(rt, alloc, clients.as_slice())
}

#[test]
fn sixty_four_clients_at_once(rt: HostRuntime) -> Result<(), Fail> {
    let scripts = scripts_of_all(rt.alloc())?;
    are_followed(&rt, rt.alloc(), &scripts)
}
