ghost use Rattle.std.specs.Prelude.{◌≡◌, ◌≢◌, false, IfOk, IfErr};
ghost use Rattle.ov_tables.specs.Tables.{no_schema};
ghost use Rattle.ov_store.specs.Finding.{IsNewStore, IsOldStore, IsStoreOf, IsRefused};
ghost use Rattle.ov_store.specs.StoreState.{IsOfItsFormat};

use crate::store::Store;
use crate::unopened::Unopened;
use ov_base::Text;
use ov_tables::is_blank;
use sqlite::{Alter, Connection};
use std::alloc::Global;

/// The store over a connection that was just opened. If there is no table, index or view yet, it is a new one with this
/// schema text and no rows, in stored format 2; otherwise it is the one that is there, of either format, whose text may differ.
///
/// Refuses as `NotOurs` if there is something but not the tables of a stored format, or if `meta` names the format whose tables
/// are not there, and as `Format` if a row is not as in the format. A refusal gives the connection back.
pub fn store_over<S: Alter + Drop>(
    alloc: Global,
    connection: Connection<S>,
    schema: Text,
) -> Result<Store<S>, Unopened<S>>
    requires { connection.in_transaction ≡ false }
    ensures store { IfOk result (IsStoreOf S.Store schema connection) }
    ensures of_format { IfOk result (IsOfItsFormat S.Store) }
    ensures fresh { IfOk result (λ s. s.failures ≡ 0) }
    ensures refused { IfErr result (λ e. IsRefused S.Store schema connection e.connection e.fault) }
{
    if is_blank(connection.schema()) {
        create(connection, schema)
    } else {
        open(alloc, connection)
    }
}

/// The new store of an empty connection.
fn create<S: Alter + Drop>(connection: Connection<S>, schema: Text) -> Result<Store<S>, Unopened<S>>
    requires autocommit { connection.in_transaction ≡ false }
    requires blank { connection.schema ≡ no_schema }
    ensures store { IfOk result (IsNewStore S.Store schema connection) }
    ensures of_format { IfOk result (IsOfItsFormat S.Store) }
    ensures fresh { IfOk result (λ s. s.failures ≡ 0) }
    ensures refused { IfErr result (λ e. IsRefused S.Store schema connection e.connection e.fault) }
{
    Store::create(connection, schema)
}

/// The store of a connection that is not empty.
fn open<S: Alter + Drop>(alloc: Global, connection: Connection<S>) -> Result<Store<S>, Unopened<S>>
    requires autocommit { connection.in_transaction ≡ false }
    requires some { connection.schema ≢ no_schema }
    ensures store { IfOk result (IsOldStore S.Store connection) }
    ensures of_format { IfOk result (IsOfItsFormat S.Store) }
    ensures fresh { IfOk result (λ s. s.failures ≡ 0) }
    ensures refused { IfErr result (λ e. (text : _)
        → IsRefused S.Store text connection e.connection e.fault) }
{
    Store::open(alloc, connection)
}
