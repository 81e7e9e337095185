ghost use Rattle.std.specs.Prelude.{◌≡◌, ◌≢◌, false, IfOk, IfErr};
ghost use Rattle.sqlite_disk.specs.Disk.{MoreFaults};
ghost use Rattle.sqlite_trees.specs.View.{IsClean};
ghost use Rattle.sqlite_trees.specs.declared.error.StoreError.{StoreError as Below};
ghost use Rattle.sqlite.specs.declared.error.Error.TheVariants.{SqliteFailure};
ghost use Rattle.sqlite.specs.declared.error.ErrorCode.TheVariants.{OutOfMemory};
ghost use Rattle.sqlite.specs.State.{HasCleanDisk, Opens};
ghost use Rattle.sqlite.specs.Held.{state};
ghost use Rattle.ov_keeper.specs.Keeping.{IsLoadFault};
ghost use Rattle.ov_tables.specs.Format.{stored_in};
ghost use Rattle.ov_store.specs.StoreState.{MayFind, IsOfItsFormat};
ghost use Rattle.ov_files.specs.Found.{IsRefusedAgain};

use ov_keeper::KeepFault;
use ov_store::{Store, Unopened};
use sqlite::{Alter, Connection, Error, ErrorCode};
use sqlite_trees::error::StoreError;
use sqlite_trees::store::Reopen;
use std::alloc::Global;

/// The fault for a failure of the store below.
fn fault_below(error: StoreError) -> KeepFault
    ensures kind { IsLoadFault result }
    ensures device { result ≡ KeepFault.Device → error ≢ Below.OutOfMemory }
{
    match error {
        StoreError::OutOfMemory => KeepFault::Memory,
        _ => KeepFault::Device,
    }
}

/// The fault for an error of memory or of the device.
pub(crate) fn fault_over(error: &Error) -> KeepFault
    ensures kind { IsLoadFault result }
    ensures device { result ≡ KeepFault.Device → error.now ≢ SqliteFailure OutOfMemory }
{
    match error {
        Error::SqliteFailure(ErrorCode::OutOfMemory) => KeepFault::Memory,
        _ => KeepFault::Device,
    }
}

/// Crashes and opens the connection again. It then holds one of the contents that the store said an open may find. A refusal
/// gives back what is left, with `Memory`, or with `Device` if it failed in this call.
fn crash_and_reopen<S: Alter + Reopen + Drop>(
    alloc: Global,
    store: Store<S>,
) -> Result<Connection<S>, (KeepFault, S)>
    ensures found { IfOk result (λ c. HasCleanDisk (state S.Store c)
        → MayFind S.Store store.connection (stored_in (state S.Store c).now.trees)) }
    ensures opens { IfOk result (λ c. HasCleanDisk (state S.Store c) → Opens (state S.Store c)) }
    ensures mode { IfOk result (λ c. c.in_transaction ≡ false) }
    ensures kinds { IfErr result (λ e. IsLoadFault e.0) }
    ensures cause { IfErr result (λ e. IsClean (S.Store.view e.1) → e.0 ≡ KeepFault.Device
        → MoreFaults (S.Store.faults store.connection.store) (S.Store.faults e.1)) }
{
    let mut left = store.close().into_store();
    if let Err(error) = left.crash_and_reopen() {
        return Err((fault_below(error), left));
    }
    match Connection::over(alloc, left) {
        Ok(again) => Ok(again),
        Err((error, left)) => Err((fault_over(&error), left)),
    }
}

/// The store of what a crash at this moment leaves. It may hold only what the former store might have held: after a commit
/// that was answered, the former rows with all its changes, and never with a part of them.
///
/// Returns `Ok(Err(..))` if what the crash left was opened but is refused as by `Store::open`, and `Err(..)` if it was not
/// opened, when out of memory or because the device failed.
pub fn reopen_after_crash<S: Alter + Reopen + Drop>(
    alloc: Global,
    store: Store<S>,
) -> Result<Result<Store<S>, Unopened<S>>, (KeepFault, S)>
    ensures found { IfOk result
        (λ opened. IfOk opened (λ s. HasCleanDisk (state S.Store s.connection)
        → (contents : _) → MayFind S.Store s.connection contents
        → MayFind S.Store store.connection contents)) }
    ensures of_format { IfOk result (λ opened. IfOk opened (IsOfItsFormat S.Store)) }
    ensures refused { IfOk result
        (λ opened. IfErr opened (λ e. IsRefusedAgain S.Store store e.connection e.fault)) }
    ensures kinds { IfErr result (λ e. IsLoadFault e.0) }
    ensures cause { IfErr result (λ e. IsClean (S.Store.view e.1) → e.0 ≡ KeepFault.Device
        → MoreFaults (S.Store.faults store.connection.store) (S.Store.faults e.1)) }
{
    match crash_and_reopen(alloc, store) {
        Ok(connection) => match Store::open(alloc, connection) {
            Ok(again) => Ok(Ok(again)),
            Err(refused) => Ok(Err(refused)),
        },
        Err(lost) => Err(lost),
    }
}
