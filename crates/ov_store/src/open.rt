ghost use Rattle.std.specs.Prelude.{◌≡◌, ◌≢◌, ◌⊎◌, ◌↔◌, false, IfOk, IfErr, OnOk, OnErr};
ghost use Rattle.sqlite.specs.State.{HasCleanDisk, Survives};
ghost use Rattle.sqlite.specs.Held.{state};
ghost use Rattle.ov_keeper.specs.Keeping.{IsCommitFault};
ghost use Rattle.ov_tables.specs.Tables.{with_ours, HasFreeNames, HasOurTables};
ghost use Rattle.ov_tables.specs.Format.{IsFormat};
ghost use Rattle.ov_tables.specs.Making.{MayMake, IsNew, IsNewBeside};
ghost use Rattle.ov_tables.specs.Querying.{IsAsBefore};
ghost use Rattle.ov_store.specs.Answers.{Making, Testing, WasAnswered};
ghost use Rattle.ov_store.specs.Finding.{new_contents, IsForeign};
ghost use Rattle.ov_store.specs.StoreState.{MayFind, IsOfItsFormat, LeavesTables, text_in};

use crate::load::{number_of, read_tables};
use crate::store::Store;
use crate::unopened::Unopened;
use ov_base::Text;
use ov_keeper::KeepFault;
use ov_sqlite::fault_at;
use ov_tables::{has_room, is_ours, make_tables};
use sqlite::{Alter, Connection};
use std::alloc::Global;

/// Makes the tables, or returns why there are none.
fn make_new<S: Alter>(conn: &mut Connection<S>, schema: &Text) -> Result<(), KeepFault>
    requires { conn.old.in_transaction ≡ false }
    ensures mode { conn.new.in_transaction ≡ false }
    ensures ok { HasCleanDisk (state S.Store conn.new) → MayMake (state S.Store conn.old)
        → OnOk result (IsNew schema.now (state S.Store conn.old) (state S.Store conn.new)) }
    ensures honest { HasCleanDisk (state S.Store conn.new) → HasCleanDisk (state S.Store conn.old) }
    ensures kinds { IfErr result IsCommitFault }
    ensures told { IfErr result (WasAnswered Making) }
    ensures same { HasCleanDisk (state S.Store conn.new)
        → OnErr result (IsAsBefore (state S.Store conn.old) (state S.Store conn.new)) }
    ensures left { MayMake (state S.Store conn.old)
        → IfErr result
        (λ fault. Survives (state S.Store conn.old) (state S.Store conn.new)
        (λ trees. (fault
        ≡ KeepFault.Device)
        × IsNewBeside schema.now (state S.Store conn.old) trees)) }
{
    let Err(failure) = make_tables(conn, schema) else {
        return Ok(());
    };
    let fault = fault_at(conn, &failure);
    // Its contract says that everything is committed.
    let _after = conn.is_autocommit();
    Err(fault)
}

impl<S: Alter + Drop> Store<S> {
    /// Makes the tables of stored format 2, with this schema text and no rows, after everything else that is there, which
    /// stays as it is. Refuses as `NotOurs` if a table, an index or a view has the name of one of the three, if a foreign key
    /// names one, or if rows are counted and SQLite's table of the counts is missing. A refusal leaves the connection with
    /// what it held. After `Device` a crash may leave all three tables, but never a part of them; after the other faults it
    /// leaves what it left before.
    pub fn create(mut connection: Connection<S>, schema: Text) -> Result<Store<S>, Unopened<S>>
        requires { connection.in_transaction ≡ false }
        ensures ok { IfOk result (λ s. HasCleanDisk (state S.Store s.connection)
            → (contents : _) → MayFind S.Store s.connection contents
            → contents ≡ new_contents schema) }
        ensures of_format { IfOk result (IsOfItsFormat S.Store) }
        ensures honest { IfOk result (λ s. HasCleanDisk (state S.Store s.connection)
            → HasCleanDisk (state S.Store connection)) }
        ensures fresh { IfOk result (λ s. s.failures ≡ 0) }
        ensures room { IfOk result (λ s. HasFreeNames connection.schema) }
        ensures beside { IfOk result (λ s. HasCleanDisk (state S.Store s.connection)
            → s.connection.schema ≡ with_ours connection.schema) }
        ensures others { IfOk result (λ s. HasCleanDisk (state S.Store s.connection)
            → LeavesTables S.Store connection s.connection) }
        ensures ours { IfErr result (λ e. (e.fault ≡ KeepFault.NotOurs)
            ↔ (¬ HasFreeNames connection.schema)) }
        ensures told { IfErr result (λ e. (e.fault ≡ KeepFault.NotOurs)
            ⊎ WasAnswered Making e.fault) }
        ensures format { IfErr result (λ e. e.fault ≢ KeepFault.Format) }
        ensures same { IfErr result (λ e. HasCleanDisk (state S.Store e.connection)
            → IsAsBefore (state S.Store connection) (state S.Store e.connection)) }
        ensures left { IfErr result
            (λ e. Survives (state S.Store connection) (state S.Store e.connection)
            (λ trees. (e.fault
            ≡ KeepFault.Device)
            × IsNewBeside schema (state S.Store connection) trees)) }
    {
        if !has_room(connection.schema()) {
            return Err(Unopened {
                fault: KeepFault::NotOurs,
                connection,
            });
        }
        match make_new(&mut connection, &schema) {
            Ok(()) => Ok(Store {
                connection,
                format: 2,
                failures: 0,
                read: None,
            }),
            Err(fault) => Err(Unopened { fault, connection }),
        }
    }

    /// Opens the store of a database in stored format 1 or 2. Refuses as `NotOurs` if a table of the format is missing or
    /// differs, if another table has a foreign key to them, if another index of theirs is unique, if `meta` names the other
    /// format, or if format 1 has no room for the tables of format 2; anything else beside them is ignored. Refuses as
    /// `Format` if a row of theirs is not as in the format. Reads each row once: the store keeps what was read until it is
    /// loaded or changed. A refusal leaves the connection with what it held, and a crash then leaves what it left before.
    pub fn open(alloc: Global, mut connection: Connection<S>) -> Result<Store<S>, Unopened<S>>
        requires { connection.in_transaction ≡ false }
        ensures ok { IfOk result (λ s. HasCleanDisk (state S.Store s.connection)
            → IsFormat (text_in (state S.Store connection).now) (state S.Store connection).now) }
        ensures same { IfOk result (λ s. HasCleanDisk (state S.Store s.connection)
            → IsAsBefore (state S.Store connection) (state S.Store s.connection)) }
        ensures survives { IfOk result
            (λ s. Survives (state S.Store connection) (state S.Store s.connection) (λ _. ⊥)) }
        ensures same_refused { IfErr result (λ e. HasCleanDisk (state S.Store e.connection)
            → IsAsBefore (state S.Store connection) (state S.Store e.connection)) }
        ensures survives_refused { IfErr result
            (λ e. Survives (state S.Store connection) (state S.Store e.connection) (λ _. ⊥)) }
        ensures of_format { IfOk result (IsOfItsFormat S.Store) }
        ensures fresh { IfOk result (λ s. s.failures ≡ 0) }
        ensures tables { IfOk result (λ s. HasOurTables connection.schema) }
        ensures ours { IfErr result (λ e. e.fault ≡ KeepFault.NotOurs
            → IsForeign S.Store connection e.connection) }
        ensures foreign { IfErr result (λ e. ¬ HasOurTables connection.schema
            → e.fault ≡ KeepFault.NotOurs) }
        ensures told { IfErr result (λ e.
            ((e.fault ≡ KeepFault.NotOurs) × (¬ HasOurTables connection.schema))
            ⊎ (HasOurTables connection.schema × WasAnswered Testing e.fault)) }
        ensures format_tables { IfErr result (λ e. e.fault ≡ KeepFault.Format
            → HasOurTables connection.schema) }
        ensures format { IfErr result (λ e. HasCleanDisk (state S.Store e.connection)
            → e.fault ≡ KeepFault.Format
            → (text : _) → ¬ IsFormat text (state S.Store connection).now) }
    {
        if !is_ours(connection.schema()) {
            return Err(Unopened {
                fault: KeepFault::NotOurs,
                connection,
            });
        }
        match read_tables(alloc, &mut connection) {
            Ok(loaded) => Ok(Store {
                connection,
                format: number_of(&loaded.lines),
                failures: 0,
                read: Some(loaded),
            }),
            Err(fault) => Err(Unopened { fault, connection }),
        }
    }
}
