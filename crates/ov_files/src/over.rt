//! The store over a connection to files.

ghost use Rattle.std.specs.Prelude.{◌≡◌, false, IfOk, IfErr};
ghost use Rattle.sqlite.specs.Files.{over_files};
ghost use Rattle.ov_store.specs.Finding.{IsStoreOf, IsRefused};
ghost use Rattle.ov_store.specs.StoreState.{IsOfItsFormat};

use ov_base::Text;
use ov_keeper::KeepFault;
use ov_store::{Store, store_over};
use sqlite::{Alter, Connection, FileStore};
use sqlite_disk::Disk;
use std::alloc::Global;

/// `store_over`, but a refusal closes the connection and returns only the fault.
fn store_or_fault<S: Alter + Drop>(
    alloc: Global,
    connection: Connection<S>,
    schema: Text,
) -> Result<Store<S>, KeepFault>
    requires { connection.in_transaction ≡ false }
    ensures store { IfOk result (IsStoreOf S.Store schema connection) }
    ensures of_format { IfOk result (IsOfItsFormat S.Store) }
    ensures fresh { IfOk result (λ s. s.failures ≡ 0) }
    ensures refused { IfErr result (λ fault. (left : _)
        × IsRefused S.Store schema connection left fault) }
{
    match store_over(alloc, connection, schema) {
        Ok(store) => Ok(store),
        Err(refused) => Err(refused.fault),
    }
}

/// The store over a connection to a file and its log, or why there is none.
///
/// It is a function of its own because the proof that such a pair of files is an `Alter` is long: here it is needed once,
/// for any kind of file.
pub(crate) fn store_over_files<D: Disk + Drop>(
    alloc: Global,
    connection: Connection<FileStore<D>>,
    schema: Text,
) -> Result<Store<FileStore<D>>, KeepFault>
    requires { connection.in_transaction ≡ false }
    ensures store { IfOk result (IsStoreOf over_files schema connection) }
    ensures of_format { IfOk result (IsOfItsFormat over_files) }
    ensures fresh { IfOk result (λ s. s.failures ≡ 0) }
    ensures refused { IfErr result (λ fault. (left : _)
        × IsRefused over_files schema connection left fault) }
{
    store_or_fault(alloc, connection, schema)
}
