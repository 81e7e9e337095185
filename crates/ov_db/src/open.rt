ghost use Rattle.std.specs.Prelude.{◌≡◌, ◌≤◌, ◌↔◌, ◌==◌, ◌&&◌, IsTrue, true, IfOk, IfErr, OnOk};
ghost use Rattle.std.specs.Prelude.{OnErr, Ok, Err};
ghost use Rattle.serde_json.specs.Written.{compact_text};
ghost use Rattle.ov_specs.specs.conversion.Converted.{if_held, opened, stored_of};
ghost use Rattle.ov_specs.specs.integrity.Committed.{is_whole};
ghost use Rattle.ov_specs.specs.rows.Cells.{format_of};
ghost use Rattle.ov_specs.specs.rows.Held.{held};
ghost use Rattle.ov_specs.specs.rows.Suits.{Suits};
ghost use Rattle.ov_keeper.specs.Keeping.{HasFailed, IsCommitFault, LeavesMade, LeavesRefused};
ghost use Rattle.ov_keeper.specs.Keeping.{loaded_contents};
ghost use Rattle.ov_keeper.specs.Views.{lines_view};
ghost use Rattle.ov_keeper.specs.declared.fault.KeepFault.TheVariants.{Device};
ghost use Rattle.ov_db.specs.Opening.{IsOpeningRefused, opens_as};
ghost use Rattle.ov_db.specs.OpensFrom.{OpensFrom, RefusesFrom};
ghost use Rattle.ov_db.specs.Residing.{IsBeside};
ghost use Rattle.ov_stored.specs.Stored.{KeepsRows};

use crate::convert::loaded_converted;
use crate::resident::Resident;
use ov_keeper::{KeepFault, Keeper, Lines, Loaded};
use ov_rows::Rows;
use ov_schema::{Schema, text_of};
use ov_stored::{OpenFault, has_text, puts_of, rows_of};
use std::alloc::Global;
use uuid::Uuid;

/// Loads what a keeper holds, and returns its rows with their links and indexes: as they are if the text is the schema's, else
/// converted in a commit of the version, if there is one. The keeper then holds these rows in format 2; if it held them in
/// another, they are written anew.
pub(crate) fn open_whole<K: Keeper>(
    alloc: Global,
    keeper: &mut K,
    schema: &Schema,
    version: Option<Uuid>,
) -> Result<Resident, OpenFault>
    ensures opens { IfOk result
        (λ resident. OpensFrom K.Keeper schema.now version keeper.old keeper.new resident.rows) }
    ensures beside { IfOk result (λ resident. IsBeside schema.now resident.rows resident) }
    ensures refuses { IfErr result (RefusesFrom K.Keeper schema.now version keeper.old keeper.new) }
{
    let loaded = keeper.load(alloc)?;
    let has_text = has_text(alloc, schema, &loaded)?;
    let is_current = is_current(keeper, &loaded.lines, has_text);
    let resident = resident_of(alloc, schema, version, loaded, has_text)?;
    if is_current {
        return Ok(resident);
    }
    write_rows(alloc, keeper, schema, &resident.rows)?;
    Ok(resident)
}

/// Whether nothing has to be written anew: the text is the schema's, and the format is 2, as the rows that were loaded show.
fn is_current<K: Keeper>(keeper: &K, lines: &Lines, has_text: bool) -> bool
    ensures { result ≡ (has_text &&
        (format_of (lines_view lines.now) == 2 && K.format keeper.now == 2)) }
{
    has_text && (is_in_cells(lines) && keeper.format() == 2)
}

/// Whether the rows are in cells, as format 2 has them.
fn is_in_cells(lines: &Lines) -> bool
    ensures { result ≡ (format_of (lines_view lines.now) == 2) }
{
    match lines {
        Lines::Whole(_) => false,
        Lines::InCells(_) => true,
    }
}

/// The rows that were loaded, with their links and indexes, converted if their text is another one than the schema's.
fn resident_of(
    alloc: Global,
    schema: &Schema,
    version: Option<Uuid>,
    loaded: Loaded,
    has_text: bool,
) -> Result<Resident, OpenFault>
    requires { IsTrue has_text ↔ (loaded.schema ≡ compact_text schema.now.tree) }
    ensures ok { IfOk result (λ resident. opens_as schema.now version (loaded_contents loaded)
        ≡ Ok resident.rows) }
    ensures err { IfErr result (IsOpeningRefused (opens_as schema.now version
        (loaded_contents loaded))) }
    ensures kept { has_text ≡ true → format_of (lines_view loaded.lines) ≡ 2
        → IfOk result (λ resident. KeepsRows schema.now resident.rows) }
    ensures suits { IfOk result (λ resident. Suits schema.now resident.rows) }
    ensures whole { IfOk result (λ resident. is_whole schema.now resident.rows ≡ true) }
    ensures beside { IfOk result (λ resident. IsBeside schema.now resident.rows resident) }
{
    if has_text {
        let Loaded { schema: _, lines } = loaded;
        return own_resident(alloc, schema, lines);
    }
    match version {
        Some(version) => loaded_converted(alloc, schema, version, loaded),
        None => Err(OpenFault::SchemaDiffers),
    }
}

/// The rows that were loaded under the schema's own text, and their links and indexes, if a commit would leave the rows as they
/// are.
fn own_resident(alloc: Global, schema: &Schema, lines: Lines) -> Result<Resident, OpenFault>
    ensures ok { IfOk result (λ resident. if_held (held schema.now (lines_view lines))
        (opened schema.now) ≡ Ok resident.rows) }
    ensures err { IfErr result (IsOpeningRefused (if_held (held schema.now (lines_view lines))
        (opened schema.now))) }
    ensures kept { format_of (lines_view lines) ≡ 2 → IfOk result
        (λ resident. KeepsRows schema.now resident.rows) }
    ensures suits { IfOk result (λ resident. Suits schema.now resident.rows) }
    ensures whole { IfOk result (λ resident. is_whole schema.now resident.rows ≡ true) }
    ensures beside { IfOk result (λ resident. IsBeside schema.now resident.rows resident) }
{
    let rows = rows_of(alloc, schema, lines)?;
    Resident::of(alloc, schema, rows)
}

/// Replaces what the keeper holds by the schema's text and the cells of these rows. Each row reads back.
fn write_rows<K: Keeper>(
    alloc: Global,
    keeper: &mut K,
    schema: &Schema,
    rows: &Rows,
) -> Result<(), KeepFault>
    requires { Suits schema.now rows.now }
    ensures kept { OnOk result (KeepsRows schema.now rows.now) }
    ensures ok { K.is_honest keeper.new → OnOk result (LeavesMade
        (λ _. stored_of schema.now rows.now) (K.leaves keeper.old) (K.leaves keeper.new)) }
    ensures err { K.is_honest keeper.new → IfErr result (LeavesRefused
        (λ _. stored_of schema.now rows.now) (K.leaves keeper.old) (K.leaves keeper.new)) }
    ensures new_format { OnOk result (K.format keeper.new ≡ 2) }
    ensures same_format { OnErr result (K.format keeper.new ≡ K.format keeper.old) }
    ensures kinds { IfErr result IsCommitFault }
    ensures cause { result ≡ Err Device → HasFailed (K.failed keeper.old) (K.failed keeper.new) }
    ensures counts { K.failed keeper.old ≤ K.failed keeper.new }
    ensures honest { K.is_honest keeper.new → K.is_honest keeper.old }
{
    let Ok(text) = text_of(alloc, schema) else {
        return Err(KeepFault::Memory);
    };
    let Ok(changes) = puts_of(alloc, rows) else {
        return Err(KeepFault::Memory);
    };
    keeper.rewrite(alloc, &text, changes.as_slice())
}
