use ov_files::once::FailsOnce;
use sqlite_disk::{Crash, Disk, Memory};
use std::alloc::Global;
use std::io;
use std::test::Fail;
use test_basics::{Scripted, agrees};

/// A disk that fails once, driven by a script.
///
/// The calls are `write` (the bytes `ab`, to the start), `cut` (to one byte), `sync`, `length` and `read` (the first byte).
/// They are answered with a number, or with `failed`, as is each call of a disk that may not be used. `left` returns the number
/// of calls before the one that fails; `crash` is a crash.
#[derive(Drop)]
struct Once {
    disk: FailsOnce<Memory>,
}

impl Once {
    /// Makes a call.
    fn call(&mut self, word: &str) -> io::Result<usize> {
        let mut byte = [0u8; 1];
        if !self.disk.may_be_used() {
            return Err(io::Error::other("may not be used"));
        }
        match word {
            "write" => self.disk.write_at(0, b"ab")?,
            "cut" => self.disk.set_len(1)?,
            "sync" => self.disk.sync()?,
            "read" => self.disk.read_at(0, &mut byte)?,
            _ => return self.disk.len(),
        }
        Ok(byte[0] as usize)
    }

    /// Makes a call, and returns its answer in a text.
    fn told(&mut self, alloc: Global, word: &str) -> Result<String, Fail> {
        match self.call(word) {
            Ok(number) => Ok(format!(in alloc; "{number}")?),
            Err(_) => Ok(String::from_str(alloc, "failed")?),
        }
    }
}

impl Scripted for Once {
    fn answer(&mut self, alloc: Global, command: &str) -> Result<String, Fail> {
        match command {
            "left" => Ok(format!(in alloc; "{:?}", self.disk.calls_left())?),
            "crash" => {
                self.disk.crash();
                Ok(String::new(alloc))
            }
            call => self.told(alloc, call),
        }
    }
}

/// Runs a script over an empty disk that fails after this number of calls.
fn fails_after(alloc: Global, calls: u64, script: &str) -> Result<(), Fail> {
    let disk = FailsOnce::new(Memory::new(alloc), calls);
    agrees(alloc, Once { disk }, script)
}

/// The call that fails changes nothing.
const CUT_FAILS: &str = "left -> Some(2)
write -> 0
length -> 2
left -> Some(0)
cut -> failed
left -> None
length -> 2
read -> 97
cut -> 0
length -> 1
sync -> 0
length -> 1";

/// After a sync that failed the disk cannot be used until it crashes, which loses what was not synced.
const SYNC_FAILS: &str = "write -> 0
sync -> failed
length -> failed
write -> failed
crash
length -> 0
write -> 0
sync -> 0
length -> 2
left -> None";

#[test]
fn a_disk_that_fails_once_goes_on(rt: HostRuntime) -> Result<(), Fail> {
    fails_after(rt.alloc(), 2, CUT_FAILS)?;
    fails_after(rt.alloc(), 1, SYNC_FAILS)
}
