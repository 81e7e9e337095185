use crate::texts::{number_of, number_text, owned, parts_of, text_of_bytes, two_parts};
use ov_base::Bytes;
use ov_locks::{LockFault, LockTable};
use std::alloc::Global;
use std::test::Fail;
use test_basics::{Scripted, agrees};

/// The first session to ask owns the lock. A session that waits can't steal; when it gives up waiting, nobody is notified.
const ONE_OWNER: &str = r#"owner L -> nobody
lock 1 L -> locked
lock 2 L -> waits
lock 1 L -> lock already requested
lock 2 L -> lock already requested
owner L -> 1
steal 2 L -> lock already requested
unlock 2 L -> unlocked
unlock 2 L -> lock not held
unlock 3 L -> lock not held
owner L -> 1
unlock 1 L -> unlocked
owner L -> nobody
steal 2 L -> locked
owner L -> 2"#;

/// The former owner is notified that it has lost the lock, and waits before all others; it is notified again when it gets the
/// lock back. If the lock is stolen twice, the last session that stole it gives it back to the one before.
const STOLEN: &str = r#"lock 1 L -> locked
lock 2 L -> waits
steal 3 L -> 1 {"id":null,"method":"stolen","params":["L"]}
owner L -> 3
steal 3 L -> lock already requested
steal 1 L -> lock already requested
leave 3
freed -> 1 {"id":null,"method":"locked","params":["L"]}
freed
owner L -> 1
steal 4 L -> 1 {"id":null,"method":"stolen","params":["L"]}
steal 3 L -> 4 {"id":null,"method":"stolen","params":["L"]}
unlock 3 L -> 4 {"id":null,"method":"locked","params":["L"]}
unlock 4 L -> 1 {"id":null,"method":"locked","params":["L"]}
unlock 1 L -> 2 {"id":null,"method":"locked","params":["L"]}
unlock 2 L -> unlocked
owner L -> nobody"#;

/// A session that leaves passes on all its locks, in ascending order of name, and no longer waits for any.
const LEFT: &str = r#"lock 1 B -> locked
lock 1 A -> locked
lock 2 B -> waits
lock 2 A -> waits
lock 3 C -> locked
lock 1 C -> waits
leave 1
leave 1
freed -> 2 {"id":null,"method":"locked","params":["A"]}
owner A -> 2
owner B -> 2
freed -> 2 {"id":null,"method":"locked","params":["B"]}
freed
unlock 3 C -> unlocked
unlock 1 C -> lock not held
leave 2
freed
owner A -> nobody"#;

/// Locks, driven by a script. The commands are `lock SESSION NAME`, `steal SESSION NAME` and `unlock SESSION NAME`, answered
/// with the session that a frame is for, and the frame; `leave SESSION`; `freed`, the next session notified because another
/// left; and `owner NAME`.
#[derive(Drop)]
struct Locks {
    table: LockTable,
}

/// A session and the frame sent to it.
fn sent(alloc: Global, session: u64, frame: Bytes) -> Result<String, Fail> {
    let text = text_of_bytes(frame)?;
    Ok(format!(in alloc; "{session} {text}")?)
}

/// Why a request is refused.
fn fault_text(alloc: Global, fault: LockFault) -> Result<String, Fail> {
    Ok(format!(in alloc; "{fault}")?)
}

/// The session that a frame is for and the frame, if there is one, or why the request is refused.
fn answered(
    alloc: Global,
    told: Result<Option<(u64, Bytes)>, LockFault>,
    done: &str,
) -> Result<String, Fail> {
    match told {
        Ok(Some((session, frame))) => sent(alloc, session, frame),
        Ok(None) => owned(alloc, done),
        Err(fault) => fault_text(alloc, fault),
    }
}

/// Whether a session owns a lock that it asked for.
fn locked(alloc: Global, is_owner: Result<bool, LockFault>) -> Result<String, Fail> {
    match is_owner {
        Ok(true) => owned(alloc, "locked"),
        Ok(false) => owned(alloc, "waits"),
        Err(fault) => fault_text(alloc, fault),
    }
}

/// The session that a frame is for and the frame, if there is one.
fn freed(alloc: Global, told: Option<(u64, Bytes)>) -> Result<String, Fail> {
    match told {
        Some((session, frame)) => sent(alloc, session, frame),
        None => Ok(String::new(alloc)),
    }
}

/// A session, or that there is none.
fn owner_text(alloc: Global, owner: Option<u64>) -> Result<String, Fail> {
    match owner {
        Some(session) => number_text(alloc, session),
        None => owned(alloc, "nobody"),
    }
}

impl Locks {
    fn steal(&mut self, alloc: Global, session: u64, name: &str) -> Result<String, Fail> {
        answered(alloc, self.table.steal(alloc, session, name), "locked")
    }

    fn leave(&mut self, alloc: Global, session: &str) -> Result<String, Fail> {
        self.table.leave_all(number_of(session)?);
        Ok(String::new(alloc))
    }

    /// Answers a session's request for the lock of a name.
    fn asked(&mut self, alloc: Global, word: &str, rest: &str) -> Result<String, Fail> {
        let (session, name) = two_parts(rest)?;
        let session = number_of(session)?;
        match word {
            "lock" => locked(alloc, self.table.lock(alloc, session, name)),
            "steal" => self.steal(alloc, session, name),
            _ => answered(alloc, self.table.unlock(session, name), "unlocked"),
        }
    }
}

impl Scripted for Locks {
    fn answer(&mut self, alloc: Global, command: &str) -> Result<String, Fail> {
        let (word, rest) = parts_of(command);
        match word {
            "freed" => freed(alloc, self.table.next_freed()),
            "owner" => owner_text(alloc, self.table.owner(rest)),
            "leave" => self.leave(alloc, rest),
            _ => self.asked(alloc, word, rest),
        }
    }
}

/// Runs a script over locks that nobody has asked for.
fn ask(alloc: Global, script: &str) -> Result<(), Fail> {
    let table = LockTable::new(alloc);
    agrees(alloc, Locks { table }, script)
}

#[test]
fn lock_has_one_owner(rt: HostRuntime) -> Result<(), Fail> {
    ask(rt.alloc(), ONE_OWNER)
}

#[test]
fn stolen_and_given_back(rt: HostRuntime) -> Result<(), Fail> {
    ask(rt.alloc(), STOLEN)
}

#[test]
fn locks_are_given_on_by_name(rt: HostRuntime) -> Result<(), Fail> {
    ask(rt.alloc(), LEFT)
}

/// 256 requests and one more. For every second lock, the session waits for the other session, which owns it.
const TOO_MANY: &str = r#"lock 1 M -> resources exhausted
steal 1 M -> resources exhausted
lock 1 L7 -> lock already requested
owner M -> nobody
owner L254 -> 2
owner L255 -> 1
lock 2 M -> locked
unlock 1 L254 -> unlocked
lock 1 M -> waits
lock 1 N -> resources exhausted
leave 1
lock 1 N -> locked"#;

/// Session 1 asks for a lock, which session 2 owns if it is taken.
fn ask_for(alloc: Global, table: &mut LockTable, is_taken: bool, name: &str) -> Result<(), Fail> {
    if is_taken {
        table.lock(alloc, 2, name)?;
    }
    table.lock(alloc, 1, name)?;
    Ok(())
}

/// Session 1 asks for a lock, which it does not own if the lock's number is even.
fn ask_for_one(alloc: Global, table: &mut LockTable, number: u64) -> Result<(), Fail> {
    let name = format!(in alloc; "L{number}")?;
    ask_for(alloc, table, number % 2 == 0, name.as_str())
}

/// Session 1 asks for 256 locks.
fn ask_for_many(alloc: Global, table: &mut LockTable) -> Result<(), Fail> {
    for number in 0..256 {
        ask_for_one(alloc, table, number)?;
    }
    Ok(())
}

#[test]
fn a_session_asks_for_256_locks(rt: HostRuntime) -> Result<(), Fail> {
    let mut table = LockTable::new(rt.alloc());
    ask_for_many(rt.alloc(), &mut table)?;
    agrees(rt.alloc(), Locks { table }, TOO_MANY)
}
