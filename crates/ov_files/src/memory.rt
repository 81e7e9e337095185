ghost use Rattle.std.specs.Prelude.{◌≡◌, [], IfOk, IfErr};
ghost use Rattle.sqlite.specs.Files.{file_state, image_of, Finds, IsOpened};
ghost use Rattle.sqlite.specs.Held.{IsNew};
ghost use Rattle.sqlite.specs.State.{HasCleanDisk};
ghost use Rattle.sqlite.specs.Steps.{IsEmpty};
ghost use Rattle.ov_files.specs.Causes.{error_in_memory, FailsInMemory, FailsToBegin};
ghost use Rattle.ov_files.specs.Causes.{IsErrorInMemory};

use crate::memory_disk::MemoryDisk;
use sqlite::{Connection, Error, ErrorCode, FileStore, Files, Options};
use sqlite_disk::Disk;
use std::alloc::Global;

/// The error for refused files in memory: SQLite reports the device if one cannot grow.
fn error_in_memory(error: Error) -> Error
    ensures { result ≡ error_in_memory error }
{
    match error {
        Error::SqliteFailure(ErrorCode::SystemIoFailure) => {
            Error::SqliteFailure(ErrorCode::OutOfMemory)
        }
        other => other,
    }
}

/// Opens a connection to files in memory. Refuses them when out of memory, if they hold no database, and with `DiskFull` if
/// they are at a limit of SQLite.
pub(crate) fn open_memory_files(
    alloc: Global,
    files: Files<MemoryDisk>,
) -> Result<Connection<FileStore<MemoryDisk>>, Error>
    ensures new { IfOk result IsNew }
    ensures opened { IfOk result (λ c. HasCleanDisk (file_state c) → IsOpened c) }
    ensures found { IfOk result (λ c. HasCleanDisk (file_state c) → Finds files c) }
    ensures told { IfErr result (IsErrorInMemory (image_of ⟦<MemoryDisk as Disk>⟧ files)) }
    ensures cause { IfErr result
        (FailsInMemory ⟦<MemoryDisk as Disk>⟧ (image_of ⟦<MemoryDisk as Disk>⟧ files)) }
{
    match Connection::open_files(alloc, files, Options::new(1)) {
        Ok(opened) => Ok(opened),
        Err((error, _)) => Err(error_in_memory(error)),
    }
}

/// A database in memory, with no table yet: its file and its log, each a file in memory. A change takes about as long in a
/// large database as in a small one. Refused when out of memory, or with `DiskFull` at a limit of SQLite.
pub fn open_in_memory(alloc: Global) -> Result<Connection<FileStore<MemoryDisk>>, Error>
    ensures new { IfOk result IsNew }
    ensures clean { IfOk result (λ c. HasCleanDisk (file_state c)) }
    ensures empty { IfOk result (λ c. IsEmpty (file_state c)) }
    ensures told { IfErr result (IsErrorInMemory (record { log = []; db = [] })) }
    ensures cause { IfErr result (FailsToBegin ⟦<MemoryDisk as Disk>⟧) }
{
    let files = Files {
        log: MemoryDisk::new(alloc),
        db: MemoryDisk::new(alloc),
    };
    match open_memory_files(alloc, files) {
        Ok(connection) => Ok(connection),
        Err(error) => Err(error),
    }
}
