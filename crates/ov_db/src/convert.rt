ghost use Rattle.std.specs.Prelude.{◌≡◌, true, Ok, IfOk, IfErr};
ghost use Rattle.ov_specs.specs.conversion.Converted.{converted, converted_from, schema_stored};
ghost use Rattle.ov_specs.specs.integrity.Committed.{is_whole};
ghost use Rattle.ov_specs.specs.rows.Suits.{Suits};
ghost use Rattle.ov_keeper.specs.Views.{lines_view};
ghost use Rattle.ov_stored.specs.Loading.{IsLoaded};
ghost use Rattle.ov_db.specs.Opening.{IsNotWhole, IsOpeningRefused};
ghost use Rattle.ov_db.specs.Residing.{IsBeside};

use crate::fault::{by_conversion, by_text};
use crate::resident::Resident;
use ov_conversion::{converted_rows, has_changed_type, is_successor};
use ov_keeper::Loaded;
use ov_rows::Rows;
use ov_schema::Schema;
use ov_schema_text::schema_of;
use ov_stored::{OpenFault, rows_of};
use std::alloc::Global;
use uuid::Uuid;

/// The schema that a stored text is.
fn schema_stored(alloc: Global, text: &[u8]) -> Result<Schema, OpenFault>
    ensures { IsLoaded (λ schema. schema) (schema_stored text.now) result }
{
    match schema_of(alloc, text) {
        Ok(schema) => Ok(schema),
        Err(fault) => Err(by_text(fault)),
    }
}

/// The rows, if a commit would leave them as they are.
fn whole_rows(alloc: Global, schema: &Schema, rows: Rows) -> Result<Rows, OpenFault>
    requires { Suits schema.now rows }
    ensures same { IfOk result (λ whole. whole ≡ rows) }
    ensures whole { IfOk result (λ whole. is_whole schema.now rows ≡ true) }
    ensures err { IfErr result (IsNotWhole schema.now rows) }
{
    let resident = Resident::of(alloc, schema, rows)?;
    Ok(resident.rows)
}

/// The rows of the old schema as rows of the new one, with their links and indexes.
fn converted(
    alloc: Global,
    old: &Schema,
    new: &Schema,
    version: Uuid,
    rows: Rows,
) -> Result<Resident, OpenFault>
    requires { Suits old.now rows }
    ensures ok { IfOk result (λ resident. converted old.now new.now version rows
        ≡ Ok resident.rows) }
    ensures err { IfErr result (IsOpeningRefused (converted old.now new.now version rows)) }
    ensures suits { IfOk result (λ resident. Suits new.now resident.rows) }
    ensures whole { IfOk result (λ resident. is_whole new.now resident.rows ≡ true) }
    ensures beside { IfOk result (λ resident. IsBeside new.now resident.rows resident) }
{
    if !is_successor(old, new) {
        return Err(OpenFault::SchemaDiffers);
    }
    let before = whole_rows(alloc, old, rows)?;
    if has_changed_type(old, new) {
        return Err(OpenFault::TypeChanged);
    }
    match converted_rows(alloc, old, new, version, &before) {
        Ok(after) => Resident::of(alloc, new, after),
        Err(fault) => Err(by_conversion(fault)),
    }
}

/// What was loaded under another text than the schema's, converted.
pub(crate) fn loaded_converted(
    alloc: Global,
    schema: &Schema,
    version: Uuid,
    loaded: Loaded,
) -> Result<Resident, OpenFault>
    ensures ok { IfOk result (λ resident. converted_from
        (schema_stored loaded.schema) schema.now version (lines_view loaded.lines)
        ≡ Ok resident.rows) }
    ensures err { IfErr result (IsOpeningRefused (converted_from
        (schema_stored loaded.schema) schema.now version (lines_view loaded.lines))) }
    ensures suits { IfOk result (λ resident. Suits schema.now resident.rows) }
    ensures whole { IfOk result (λ resident. is_whole schema.now resident.rows ≡ true) }
    ensures beside { IfOk result (λ resident. IsBeside schema.now resident.rows resident) }
{
    let Loaded {
        schema: text,
        lines,
    } = loaded;
    let old = schema_stored(alloc, text.as_str().as_bytes())?;
    let rows = rows_of(alloc, &old, lines)?;
    converted(alloc, &old, schema, version, rows)
}
