ghost use Rattle.std.specs.Prelude.{◌≡◌, ◌⊎◌, ◌<◌, ◌≤◌, ◌-◌, ◌^◌, false, IfOk, IfErr, Err};
ghost use Rattle.sqlite.specs.State.{HasCleanDisk, Survives};
ghost use Rattle.sqlite.specs.Held.{state};
ghost use Rattle.ov_specs.specs.rows.Cells.{format_of};
ghost use Rattle.ov_keeper.specs.Keeping.{HasFailed, LeavesNoMore, IsLoadFault, loaded_contents};
ghost use Rattle.ov_keeper.specs.Views.{lines_view};
ghost use Rattle.ov_tables.specs.Tables.{HasOurTables};
ghost use Rattle.ov_tables.specs.Format.{IsFormat, NamesOther};
ghost use Rattle.ov_tables.specs.Querying.{IsAsBefore};
ghost use Rattle.ov_sqlite.specs.Reading.{MayHaveTables};
ghost use Rattle.ov_store.specs.Answers.{Testing, WasAnswered};
ghost use Rattle.ov_store.specs.Loading.{HoldsLoaded};
ghost use Rattle.ov_store.specs.StoreState.{MayFind};

use crate::store::Store;
use ov_keeper::{KeepFault, Lines, Loaded};
use ov_sqlite::read_all;
use sqlite::{Alter, Connection};
use std::alloc::Global;

/// What the tables hold, and whether they are of a format, as `read_all` says it, with everything committed.
pub(crate) fn read_tables<S: Alter>(
    alloc: Global,
    conn: &mut Connection<S>,
) -> Result<Loaded, KeepFault>
    requires { conn.old.in_transaction ≡ false }
    ensures mode { conn.new.in_transaction ≡ false }
    ensures ok { HasCleanDisk (state S.Store conn.new) → MayHaveTables (state S.Store conn.old)
        → IfOk result (HoldsLoaded (state S.Store conn.old)) }
    ensures told { IfErr result (WasAnswered Testing) }
    ensures format { HasCleanDisk (state S.Store conn.new)
        → HasOurTables (state S.Store conn.old).now.schema
        → result ≡ Err KeepFault.Format → (text : _)
        → ¬ IsFormat text (state S.Store conn.old).now }
    ensures ours { HasCleanDisk (state S.Store conn.new)
        → HasOurTables (state S.Store conn.old).now.schema
        → result ≡ Err KeepFault.NotOurs → NamesOther (state S.Store conn.old).now }
    ensures same { HasCleanDisk (state S.Store conn.new)
        → IsAsBefore (state S.Store conn.old) (state S.Store conn.new) }
    ensures survives { Survives (state S.Store conn.old) (state S.Store conn.new) (λ _. ⊥) }
{
    // Its contract says that everything is committed.
    let _before = conn.is_autocommit();
    read_all(alloc, conn)
}

/// The number of the format that has such rows.
pub(crate) fn number_of(lines: &Lines) -> u8
    ensures number { result ≡ format_of (lines_view lines.now) }
    ensures known { (result ≡ 1) ⊎ (result ≡ 2) }
{
    match lines {
        Lines::Whole(_) => 1,
        Lines::InCells(_) => 2,
    }
}

impl<S: Alter> Store<S> {
    /// The schema's text and all rows, in the stored format. The first load of an open store takes what the opening read.
    pub fn load_all(&mut self, alloc: Global) -> Result<Loaded, KeepFault>
        ensures ok { HasCleanDisk (state S.Store self.new.connection)
            → IfOk result (λ loaded. (contents : _) → MayFind S.Store self.old.connection contents
            → contents ≡ loaded_contents loaded) }
        ensures same { HasCleanDisk (state S.Store self.new.connection)
            → LeavesNoMore (MayFind S.Store self.old.connection)
            (MayFind S.Store self.new.connection) }
        ensures same_format { self.new.format ≡ self.old.format }
        ensures of_format { HasCleanDisk (state S.Store self.new.connection)
            → IfOk result (λ loaded. format_of (lines_view loaded.lines) ≡ self.new.format) }
        ensures honest { HasCleanDisk (state S.Store self.new.connection)
            → HasCleanDisk (state S.Store self.old.connection) }
        // A failure of the device has a cause: the count rises, unless it is at its maximum.
        ensures cause { result ≡ Err KeepFault.Device
            → HasFailed self.old.failures self.new.failures }
        ensures counts { self.old.failures ≤ self.new.failures }
        ensures kinds { IfErr result IsLoadFault }
    {
        if let Some(loaded) = self.read.take() {
            return Ok(loaded);
        }
        match read_tables(alloc, &mut self.connection) {
            Ok(loaded) => Ok(loaded),
            Err(KeepFault::Memory) => Err(KeepFault::Memory),
            // Something else changed a row, or it was read wrongly. No row that was stored is too large to be read.
            Err(_) => Err(self.count_failure()),
        }
    }
}
