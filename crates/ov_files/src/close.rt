//! Closing a store over files: everything is in the database file, and the log can be removed.

ghost use Rattle.std.specs.Prelude.{IfOk, OnOk, IfErr};
ghost use Rattle.sqlite_wal.specs.Reads.{AreClean};
ghost use Rattle.ov_keeper.specs.Keeping.{IsLoadFault};
ghost use Rattle.ov_files.specs.Whole.{IsWhole, WasWhole};

use crate::crash::fault_over;
use ov_keeper::KeepFault;
use ov_store::Store;
use sqlite::{FileFrom, FileStore, Files, Start};
use sqlite_disk::Disk;
use std::fs;
use std::io::{self, ErrorKind};

/// Copies everything in the log of a store into its database file, which then holds the whole database, and returns the two
/// files. Returns `Memory` or `Device` if the log could not be copied; both files are released then.
pub fn close_files<D: Disk + Drop>(store: Store<FileStore<D>>) -> Result<Files<D>, KeepFault>
    ensures whole { IfOk result (λ files. AreClean D.Disk files.log files.db
        → IsWhole store files) }
    ensures kinds { IfErr result IsLoadFault }
{
    match store.close().close_files() {
        Ok(files) => Ok(files),
        Err((error, left)) => {
            drop(left.close());
            Err(fault_over(&error))
        }
    }
}

/// Closes the store of the file at a path: the file then holds the whole database, and its log is removed. If the system
/// refuses the removal, returns `Device`, and the file still holds the whole database. No contract can say what a file holds
/// after it is released, or that a log is gone; so `whole` speaks of the two files as they are released.
pub fn close_in_file<S: Start>(
    rt: &HostRuntime,
    path: &str,
    store: Store<FileStore<FileFrom<S>>>,
) -> Result<(), KeepFault>
    ensures whole { OnOk result (WasWhole store) }
    ensures kinds { IfErr result IsLoadFault }
{
    let Files { log, db } = close_files(store)?;
    drop(log);
    let removed = remove_log(rt, path);
    // Until here its lock keeps every other process from the log.
    drop(db);
    match removed {
        Ok(()) => Ok(()),
        Err(error) if error.kind() == ErrorKind::OutOfMemory => Err(KeepFault::Memory),
        Err(_) => Err(KeepFault::Device),
    }
}

/// Removes the log of the file at a path. If the path is a link, the log is beside the link's target.
fn remove_log(rt: &HostRuntime, path: &str) -> io::Result<()> {
    let real = fs::canonicalize(rt, path)?;
    let log = format!(in rt.alloc(); "{}-wal", real.as_str())?;
    match fs::remove_file(rt, log.as_str()) {
        Err(error) if error.kind() == ErrorKind::NotFound => Ok(()),
        answer => answer,
    }
}
