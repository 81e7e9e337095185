ghost use Rattle.std.specs.Prelude.{◌≡◌, ◌⊎◌, ◌<◌, ◌≤◌, ◌-◌, ◌^◌, IfErr, OnOk, OnErr, Err};
ghost use Rattle.sqlite.specs.State.{HasCleanDisk};
ghost use Rattle.sqlite.specs.Held.{state};
ghost use Rattle.ov_specs.specs.rows.Cells.{rewritten};
ghost use Rattle.ov_keeper.specs.Views.{changes_view};
ghost use Rattle.ov_keeper.specs.Keeping.{HasFailed, LeavesMade, LeavesRefused, IsCommitFault};
ghost use Rattle.ov_keeper.specs.Keeping.{changed};
ghost use Rattle.ov_store.specs.StoreState.{MayFind, LeavesOthers, LeavesRest};

use crate::store::Store;
use ov_base::Text;
use ov_keeper::{Change, KeepFault};
use ov_sqlite::{fault_at, rewrite_all, write_all};
use sqlite::Alter;

impl<S: Alter> Store<S> {
    /// Makes all changes in order, in one transaction, or none of them. The stored format must be 2. After `Device` the
    /// file may hold all of them or none: open it again. An error of SQLite that is neither memory nor size counts as a
    /// failure of the device. The contents of other tables are kept.
    pub fn commit(&mut self, changes: &[Change]) -> Result<(), KeepFault>
        requires { self.old.format ≡ 2 }
        ensures ok { HasCleanDisk (state S.Store self.new.connection)
            → OnOk result (LeavesMade (changed (changes_view changes.now))
            (MayFind S.Store self.old.connection) (MayFind S.Store self.new.connection)) }
        ensures err { HasCleanDisk (state S.Store self.new.connection)
            → IfErr result (LeavesRefused (changed (changes_view changes.now))
            (MayFind S.Store self.old.connection) (MayFind S.Store self.new.connection)) }
        ensures same_format { self.new.format ≡ self.old.format }
        ensures kinds { IfErr result IsCommitFault }
        ensures cause { result ≡ Err KeepFault.Device
            → HasFailed self.old.failures self.new.failures }
        ensures counts { self.old.failures ≤ self.new.failures }
        ensures honest { HasCleanDisk (state S.Store self.new.connection)
            → HasCleanDisk (state S.Store self.old.connection) }
        ensures others { HasCleanDisk (state S.Store self.new.connection)
            → LeavesOthers S.Store self.old.connection self.new.connection }
    {
        // A commit without a change rests on the invariant too: what is found is in format 2.
        let _format = self.format;
        if changes.is_empty() {
            return Ok(());
        }
        self.read = None;
        let Err(failure) = write_all(&mut self.connection, changes) else {
            return Ok(());
        };
        let fault = fault_at(&mut self.connection, &failure);
        if fault == KeepFault::Device {
            return Err(self.count_failure());
        }
        Err(fault)
    }

    /// Replaces the schema's text and all rows by those that the changes put, starting from none, in stored format 2 and in
    /// one transaction; or changes nothing. The format may be 1 before: then a table `line` stays, without a row. After
    /// `Device` the file may hold the former contents or the new ones: open it again. An error of SQLite that is neither
    /// memory nor size counts as a failure of the device. The contents of other tables are kept.
    pub fn rewrite(&mut self, schema: &Text, changes: &[Change]) -> Result<(), KeepFault>
        ensures ok { HasCleanDisk (state S.Store self.new.connection)
            → OnOk result (LeavesMade (λ _. rewritten schema.now (changes_view changes.now))
            (MayFind S.Store self.old.connection) (MayFind S.Store self.new.connection)) }
        ensures err { HasCleanDisk (state S.Store self.new.connection)
            → IfErr result (LeavesRefused (λ _. rewritten schema.now (changes_view changes.now))
            (MayFind S.Store self.old.connection) (MayFind S.Store self.new.connection)) }
        ensures new_format { OnOk result (self.new.format ≡ 2) }
        ensures same_format { OnErr result (self.new.format ≡ self.old.format) }
        ensures kinds { IfErr result IsCommitFault }
        ensures cause { result ≡ Err KeepFault.Device
            → HasFailed self.old.failures self.new.failures }
        ensures counts { self.old.failures ≤ self.new.failures }
        ensures honest { HasCleanDisk (state S.Store self.new.connection)
            → HasCleanDisk (state S.Store self.old.connection) }
        ensures others { HasCleanDisk (state S.Store self.new.connection)
            → LeavesRest S.Store self.old.connection self.new.connection }
    {
        self.read = None;
        let Err(failure) = rewrite_all(&mut self.connection, schema, changes) else {
            self.format = 2;
            return Ok(());
        };
        let fault = fault_at(&mut self.connection, &failure);
        if fault == KeepFault::Device {
            return Err(self.count_failure());
        }
        Err(fault)
    }
}
