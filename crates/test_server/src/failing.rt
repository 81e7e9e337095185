//! A database file and its log in memory, whose calls fail, and what is left of them.

use ov_files::once::FailsOnce;
use sqlite::Files;
use sqlite_disk::{Crash, Disk, Fuse, Memory};
use std::alloc::Global;
use std::test::Fail;

/// A disk in memory that fails. Both kinds of failure share this type, because code over files is proved and built again for
/// each type of file.
type FailingDisk = FailsOnce<Fuse<Memory>>;

/// A database file and its log, one of which fails.
pub(crate) type FailingFiles = Files<FailingDisk>;

/// How a file fails.
#[derive(Clone, Copy)]
pub(crate) enum Failure {
    /// It stops: each later call fails too.
    Stops,
    /// It fails once, and goes on.
    Once,
}

/// Which file fails, how, and after how many calls.
#[derive(Clone, Copy)]
pub(crate) struct Stop {
    pub failure: Failure,
    pub is_log: bool,
    pub calls: u64,
}

/// No file fails.
pub(crate) const NEVER: Stop = Stop {
    failure: Failure::Once,
    is_log: true,
    calls: u64::MAX,
};

impl Stop {
    /// The number of calls that the log, or else the file, passes on.
    fn calls_of(self, is_log: bool) -> u64 {
        if self.is_log == is_log {
            self.calls
        } else {
            u64::MAX
        }
    }

    /// The log, or else the file, over this memory.
    fn disk_over(self, memory: Memory, is_log: bool) -> FailingDisk {
        let calls = self.calls_of(is_log);
        match self.failure {
            Failure::Stops => FailsOnce::new(Fuse::new(memory, calls), u64::MAX),
            Failure::Once => FailsOnce::new(Fuse::new(memory, u64::MAX), calls),
        }
    }

    /// Whether a call of a disk has failed, or the next one of a disk that stops would.
    fn has_failed(self, disk: &mut FailingDisk) -> bool {
        match self.failure {
            Failure::Stops => !disk.may_be_used() || disk.len().is_err(),
            Failure::Once => disk.calls_left().is_none(),
        }
    }
}

/// The bytes of a database file and of its log.
#[derive(Drop)]
pub(crate) struct Image {
    pub log: Vec<u8>,
    pub db: Vec<u8>,
}

/// A file that does not exist yet, and no log.
pub(crate) fn no_files(alloc: Global) -> Image {
    Image {
        log: Vec::new(alloc),
        db: Vec::new(alloc),
    }
}

/// A disk in memory that holds these bytes, which a crash leaves.
fn memory_of(alloc: Global, bytes: &[u8]) -> Result<Memory, Fail> {
    let mut memory = Memory::new(alloc);
    memory.write_at(0, bytes)?;
    memory.sync()?;
    Ok(memory)
}

/// Files that hold an image, one of which fails.
pub(crate) fn files_of(alloc: Global, image: &Image, stop: Stop) -> Result<FailingFiles, Fail> {
    let log = memory_of(alloc, image.log.as_slice())?;
    let db = memory_of(alloc, image.db.as_slice())?;
    Ok(Files {
        log: stop.disk_over(log, true),
        db: stop.disk_over(db, false),
    })
}

/// A number of calls of each file.
#[derive(Clone, Copy)]
pub(crate) struct Calls {
    pub log: u64,
    pub db: u64,
}

/// The number of calls of a disk that was not to fail.
fn calls_made(disk: &FailingDisk) -> u64 {
    u64::MAX - disk.calls_left().unwrap_or(0)
}

/// What is left of files.
#[derive(Drop)]
pub(crate) struct Left {
    /// What reads of the files give.
    pub image: Image,
    /// What a crash leaves, which loses what was written and not synced.
    pub after_crash: Image,
    /// Whether a call has failed, or the next one of files that stop would.
    pub has_failed: bool,
    /// The calls of files that were not to fail.
    pub calls: Calls,
}

/// What reads of the files give.
fn image_of(alloc: Global, files: &FailingFiles) -> Result<Image, Fail> {
    let log = Vec::from_slice(alloc, files.log.inner().inner().bytes())?;
    let db = Vec::from_slice(alloc, files.db.inner().inner().bytes())?;
    Ok(Image { log, db })
}

/// Makes a crash, and returns the image that it leaves.
fn image_of_crash(alloc: Global, files: &mut FailingFiles) -> Result<Image, Fail> {
    files.log.crash();
    files.db.crash();
    image_of(alloc, files)
}

/// What is left of files of which one was to fail like this.
pub(crate) fn left_of(alloc: Global, files: &mut FailingFiles, stop: Stop) -> Result<Left, Fail> {
    let calls = Calls {
        log: calls_made(&files.log),
        db: calls_made(&files.db),
    };
    let has_failed = stop.has_failed(&mut files.log) || stop.has_failed(&mut files.db);
    let image = image_of(alloc, files)?;
    Ok(Left {
        image,
        after_crash: image_of_crash(alloc, files)?,
        has_failed,
        calls,
    })
}
