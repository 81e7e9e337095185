//! Finds out what a file is without changing it.

ghost use Rattle.std.specs.Prelude.{◌≡◌, ◌≢◌, ◌⊎◌, IfErr, OnOk};
ghost use Rattle.ov_files.specs.Causes.{IsCopyRefused, IsNobodyElses};
ghost use Rattle.ov_files.specs.Looking.{IsLookRefused, IsRefusedAt, MayBeOpened, MayBeOpenedAt};
ghost use Rattle.ov_files.specs.Refusing.{IsSystemFault};
ghost use Rattle.ov_tables.specs.Tables.{no_schema, HasOurTables};

use crate::copies::{Copies, is_absent, read_to_test};
use crate::file::fault_of_open;
use crate::memory::open_memory_files;
use crate::memory_disk::MemoryDisk;
use ov_keeper::KeepFault;
use ov_tables::{is_blank, is_ours};
use sqlite::{Alter, Connection, FileStore, Files};
use sqlite_disk::Disk;
use sqlite_schema::schema::Schema;
use std::alloc::Global;
use std::fs;
use std::io::{self, ErrorKind};

/// Refuses the file at a path if an open would refuse it as foreign, or if it cannot be read. Passes a path with no file, a
/// file that has no table yet, and one that has the tables of a stored format. Rows are not looked at.
///
/// Opening an SQLite file for writing switches it to write-ahead mode and begins a log beside it, whatever it holds. So the
/// file is opened here as a copy in memory. If it lists its tables on its first page and has no log, it passes at once.
pub(crate) fn test_file(rt: &HostRuntime, path: &str) -> Result<(), KeepFault>
    ensures passes { OnOk result (MayBeOpened path.now) }
    ensures refused { IfErr result (IsLookRefused path.now) }
{
    match fs::canonicalize(rt, path) {
        Ok(real) => test_real(rt, real.as_str()),
        Err(error) => {
            if is_absent(&error) {
                Ok(())
            } else {
                Err(fault_of_system(&error))
            }
        }
    }
}

/// The fault for an error of the system.
pub(crate) fn fault_of_system(error: &io::Error) -> KeepFault
    ensures { IsSystemFault error.now result }
{
    if error.kind() == ErrorKind::OutOfMemory {
        KeepFault::Memory
    } else {
        KeepFault::Device
    }
}

/// Tests the file at a path with no link in it.
fn test_real(rt: &HostRuntime, db: &str) -> Result<(), KeepFault>
    ensures passes { OnOk result (MayBeOpenedAt db.now) }
    ensures refused { IfErr result (IsRefusedAt db.now) }
{
    match read_to_test(rt, db) {
        Ok(None) => Ok(()),
        Ok(Some(copies)) => test_copies(rt.alloc(), copies),
        Err(error) => Err(fault_of_system(&error)),
    }
}

/// Opens the copies as files are opened, and accepts them unless they are foreign.
fn test_copies(alloc: Global, copies: Copies) -> Result<(), KeepFault>
    ensures passes { OnOk result
        (IsNobodyElses (record { log = copies.log.items; db = copies.db.items })) }
    ensures refused { IfErr result
        (IsCopyRefused (record { log = copies.log.items; db = copies.db.items })) }
{
    let Copies { log, db } = copies;
    let files = Files {
        log: MemoryDisk::holding(log),
        db: MemoryDisk::holding(db),
    };
    match open_memory_files(alloc, files) {
        Ok(connection) => test_over_files(connection),
        Err(error) => Err(fault_of_open(&error)),
    }
}

/// Refuses a connection to a file and its log if they are neither blank nor ours, and closes it.
///
/// It is a function of its own for the same reason as `store_over_files`.
fn test_over_files<D: Disk + Drop>(connection: Connection<FileStore<D>>) -> Result<(), KeepFault>
    ensures passes { OnOk result ((connection.schema ≡ no_schema)
        ⊎ HasOurTables connection.schema) }
    ensures foreign { IfErr result (λ fault. (fault ≡ KeepFault.NotOurs)
        × (connection.schema ≢ no_schema) × (¬ HasOurTables connection.schema)) }
{
    test_over(connection)
}

/// The same over any store.
fn test_over<S: Alter + Drop>(connection: Connection<S>) -> Result<(), KeepFault>
    ensures passes { OnOk result ((connection.schema ≡ no_schema)
        ⊎ HasOurTables connection.schema) }
    ensures foreign { IfErr result (λ fault. (fault ≡ KeepFault.NotOurs)
        × (connection.schema ≢ no_schema) × (¬ HasOurTables connection.schema)) }
{
    test_schema(connection.schema())
}

/// Refuses a schema that is neither blank nor ours.
fn test_schema(schema: &Schema) -> Result<(), KeepFault>
    ensures passes { OnOk result ((schema.now ≡ no_schema) ⊎ HasOurTables schema.now) }
    ensures foreign { IfErr result (λ fault. (fault ≡ KeepFault.NotOurs) × (schema.now ≢ no_schema)
        × (¬ HasOurTables schema.now)) }
{
    if is_blank(schema) || is_ours(schema) {
        Ok(())
    } else {
        Err(KeepFault::NotOurs)
    }
}
