//! Opens the file at a path and its log.

ghost use Rattle.std.specs.Prelude.{◌≡◌, ◌↔◌, codes, true, false, Err, IfErr, IfOk, IsTrue};
ghost use Rattle.sqlite_std_file.specs.File.{file_is_usable, IsFresh};
ghost use Rattle.ov_files.specs.Causes.{IsReserved, IsPairRefused};
ghost use Rattle.ov_files.specs.Refusing.{IsPathFault};

use crate::look::fault_of_system;
use ov_keeper::KeepFault;
use sqlite::{FileFrom, Files, Start};
use sqlite_std_file::OpenError;

/// Opens the two files, makes those that are missing, and locks both until they are dropped. Refuses as `Device` the path
/// `:memory:` and one that begins with `file:`, which SQLite takes for something else than the name of a file.
pub(crate) fn open_pair<S: Start>(
    rt: &HostRuntime,
    path: &str,
    start: S,
) -> Result<Files<FileFrom<S>>, KeepFault>
    ensures usable { IfOk result (λ files. IsTrue (file_is_usable S.Start files.log)
        × IsTrue (file_is_usable S.Start files.db)) }
    ensures fresh { IfOk result (λ files. IsFresh true files.log × IsFresh false files.db) }
    ensures refused { IfErr result (IsPairRefused path.now) }
    ensures memory { path.now ≡ codes ":memory:" → result ≡ Err KeepFault.Device }
{
    if is_reserved(path) {
        return Err(KeepFault::Device);
    }
    match sqlite_std_file::open(rt, path, start) {
        Ok(files) => Ok(files),
        Err(error) => Err(fault_of_path(&error)),
    }
}

/// Whether SQLite takes the path for something else than the name of a file.
fn is_reserved(path: &str) -> bool
    ensures { IsTrue result ↔ IsReserved path.now }
{
    path == ":memory:" || path.starts_with("file:")
}

/// The fault for an error of the system at the opening of the two files.
fn fault_of_path(error: &OpenError) -> KeepFault
    ensures { IsPathFault error.now result }
{
    match error {
        OpenError::OutOfMemory => KeepFault::Memory,
        OpenError::Io(error) => fault_of_system(error),
        OpenError::Busy | OpenError::HotJournal => KeepFault::Device,
    }
}
