ghost use Rattle.std.specs.Prelude.{◌≡◌, ◌⊎◌, codes, true, IfOk, IfErr, IsTrue, Err};
ghost use Rattle.sqlite_wal.specs.Files.{image_at};
ghost use Rattle.sqlite.specs.Files.{file_state, image_of, over_files, Finds, IsOpened, IsBlankAs};
ghost use Rattle.sqlite_store.specs.FileStore.{view};
ghost use Rattle.sqlite.specs.Held.{IsNew};
ghost use Rattle.sqlite.specs.Start.{FindsIn};
ghost use Rattle.sqlite.specs.State.{HasCleanDisk};
ghost use Rattle.ov_store.specs.StoreState.{MayFind, IsOfItsFormat};
ghost use Rattle.ov_store.specs.Finding.{new_contents};
ghost use Rattle.ov_files.specs.Found.{HasNoTable, IsStoredIn};
ghost use Rattle.ov_files.specs.Found.{IsPathRefused, IsMemoryRefused};
ghost use Rattle.ov_files.specs.Looking.{MayBeOpened};
ghost use Rattle.ov_files.specs.Causes.{FailsToConnect, IsUnopened};
ghost use Rattle.ov_files.specs.Refusing.{fault_of_open};

use crate::look::test_file;
use crate::memory::open_in_memory;
use crate::memory_disk::MemoryDisk;
use crate::options::options_for;
use crate::over::store_over_files;
use crate::pair::open_pair;
use ov_base::Text;
use ov_keeper::{KeepFault, Keeper};
use ov_store::Store;
use sqlite::{Connection, Error, ErrorCode, FileFrom, FileStore, Files, Options, Start};
use sqlite_disk::Disk;
use std::alloc::Global;

/// The fault for an error of SQLite at an open.
pub(crate) fn fault_of_open(error: &Error) -> KeepFault
    ensures { result ≡ fault_of_open error.now }
{
    match error {
        Error::SqliteFailure(ErrorCode::OutOfMemory) => KeepFault::Memory,
        Error::SqliteFailure(ErrorCode::TooBig) => KeepFault::TooLarge,
        Error::SqliteFailure(ErrorCode::NotADatabase | ErrorCode::DatabaseCorrupt) => {
            KeepFault::NotOurs
        }
        _ => KeepFault::Device,
    }
}

/// Opens a connection to a file and its log. Each page of a new file ends in a checksum of its bytes, as SQLite's cksumvfs
/// writes it.
///
/// It is a function of its own for the same reason as `store_over_files`.
fn connect<D: Disk + Drop>(
    alloc: Global,
    files: Files<D>,
    options: Options,
) -> Result<Connection<FileStore<D>>, KeepFault>
    requires log { IsTrue (D.Disk.is_usable files.log) }
    requires db { IsTrue (D.Disk.is_usable files.db) }
    ensures new { IfOk result IsNew }
    ensures opened { IfOk result (λ c. HasCleanDisk (file_state c) → IsOpened c) }
    ensures found { IfOk result (λ c. HasCleanDisk (file_state c) → Finds files c) }
    ensures sums { IfOk result (λ c. HasCleanDisk (file_state c)
        → IsBlankAs true (image_of D.Disk files) → IsTrue (view c.store).has_sums) }
    ensures cause { IfErr result (FailsToConnect D.Disk files) }
{
    match Connection::open_files_with(alloc, files, options, true) {
        Ok(connection) => Ok(connection),
        Err((error, _)) => Err(fault_of_open(&error)),
    }
}

/// Opens a connection to the file at a path, and creates the file if there is none. Its log is beside it. `start` stands for
/// what the two held, as in the kit's `open_from`. Each page of a new file ends in a checksum of its bytes. A file with
/// checksums is `NotOurs` if one is wrong.
///
/// Returns `NotOurs` if the file holds no database, or if a read returned other bytes than an earlier one. Returns `Device`
/// for the path `:memory:`, a path that begins with `file:`, a folder, a file that another process has open, anything else
/// that the system refuses, and a file at a limit of SQLite. A fault is that of the error that the system or SQLite answered.
/// For files that were opened, the contract says under an honest device what explains it. It does not say why the system
/// refused a file.
///
/// The file was looked at before, since an open changes it, whatever it holds.
pub(crate) fn open_file<S: Start>(
    rt: &HostRuntime,
    path: &str,
    start: S,
) -> Result<Connection<FileStore<FileFrom<S>>>, KeepFault>
    requires { MayBeOpened path.now }
    ensures new { IfOk result IsNew }
    ensures opened { IfOk result (λ c. HasCleanDisk (file_state c) → IsOpened c) }
    ensures found { IfOk result (λ c. HasCleanDisk (file_state c)
        → FindsIn (image_at S.Start) (file_state c)) }
    ensures sums { IfOk result (λ c. HasCleanDisk (file_state c) → IsBlankAs true (image_at S.Start)
        → IsTrue (view c.store).has_sums) }
    ensures cause { IfErr result (IsUnopened ⟦<FileFrom<S> as Disk>⟧ path.now (image_at S.Start)) }
    ensures memory { path.now ≡ codes ":memory:" → result ≡ Err KeepFault.Device }
{
    let options = options_for(rt, path)?;
    let files = open_pair(rt, path, start)?;
    connect(rt.alloc(), files, options)
}

/// Opens the store of the file at a path: `store_over` on the connection of `open_file`. Makes a new store only if the files
/// have no table, index or view. A foreign file is recognized before anything is written, and left as it is.
///
/// It is recognized in a copy, and for such a refusal the contract speaks of the bytes of the copy: nothing ties a path to
/// what its file holds.
pub fn store_in_file<S: Start>(
    rt: &HostRuntime,
    path: &str,
    schema: Text,
    start: S,
) -> Result<Store<FileStore<FileFrom<S>>>, KeepFault>
    ensures found { IfOk result (λ s. HasCleanDisk (file_state s.connection)
        → (contents : _) → MayFind over_files s.connection contents
        → (HasNoTable (image_at S.Start) × (contents ≡ new_contents schema))
        ⊎ IsStoredIn (image_at S.Start) contents) }
    ensures of_format { IfOk result (IsOfItsFormat over_files) }
    ensures fresh { IfOk result (λ s. s.failures ≡ 0) }
    ensures cause { IfErr result
        (IsPathRefused ⟦<FileFrom<S> as Disk>⟧ path.now (image_at S.Start) schema) }
{
    test_file(rt, path)?;
    let connection = open_file(rt, path, start)?;
    store_over_files(rt.alloc(), connection, schema)
}

/// A new store in memory, with this schema text and no rows, in stored format 2. Refused when out of memory, at a limit of
/// SQLite, and by a device as `store_over` is. What is promised under an honest device needs no such premise here: in memory
/// every store is honest, at any later time too.
pub fn store_in_memory(
    alloc: Global,
    schema: Text,
) -> Result<Store<FileStore<MemoryDisk>>, KeepFault>
    ensures found { IfOk result (λ s. (contents : _) → MayFind over_files s.connection contents
        → contents ≡ new_contents schema) }
    ensures of_format { IfOk result (IsOfItsFormat over_files) }
    ensures fresh { IfOk result (λ s. s.failures ≡ 0) }
    ensures honest { (s : _) → ⟦<Store<FileStore<MemoryDisk>> as Keeper>⟧.is_honest s }
    ensures refused { IsMemoryRefused schema result }
{
    let connection = match open_in_memory(alloc) {
        Ok(connection) => connection,
        Err(error) => return Err(fault_of_open(&error)),
    };
    store_over_files(alloc, connection, schema)
}
