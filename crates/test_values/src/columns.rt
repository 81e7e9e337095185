use ov_atoms::{Datum, NoNames, read_datum, write_datum};
use ov_schema::{Column, Schema};
use serde_json::Value;
use std::alloc::Global;
use std::test::Fail;
use test_basics::{Scripted, agrees, schema_of_text};

/// Types, each with its default.
const DEFAULTS: &str = r#""integer" -> 0
"boolean" -> false
"string" -> ""
"uuid" -> ["uuid","00000000-0000-0000-0000-000000000000"]
{"key":"integer","min":0} -> ["set",[]]
{"key":"string","value":"boolean"} -> ["map",[["",false]]]
{"key":"string","value":"boolean","min":0} -> ["map",[]]"#;

/// Values at the limits of their types.
const FITTING: &str = r#"-1 {"key":{"type":"integer","minInteger":-1,"maxInteger":2}} -> true
2 {"key":{"type":"integer","minInteger":-1,"maxInteger":2}} -> true
"éé" {"key":{"type":"string","minLength":1,"maxLength":2}} -> true
1 {"key":{"type":"integer","enum":["set",[1,5]],"maxInteger":4}} -> true
["set",[]] {"key":"integer","min":0,"max":2} -> true
["set",[1,2]] {"key":"integer","min":0,"max":2} -> true
["map",[["a",1],["b",0]]] {"key":"string","value":{"type":"integer","maxInteger":1},"max":"unlimited"} -> true"#;

/// Values just beyond the limits.
const UNFITTING: &str = r#"-2 {"key":{"type":"integer","minInteger":-1,"maxInteger":2}} -> false
3 {"key":{"type":"integer","minInteger":-1,"maxInteger":2}} -> false
["set",[]] "integer" -> false
"" {"key":{"type":"string","minLength":1,"maxLength":2}} -> false
"abc" {"key":{"type":"string","minLength":1,"maxLength":2}} -> false
2 {"key":{"type":"integer","enum":["set",[1,5]],"maxInteger":4}} -> false
5 {"key":{"type":"integer","enum":["set",[1,5]],"maxInteger":4}} -> false
["set",[1,2,3]] {"key":"integer","min":0,"max":2} -> false
["map",[["a",1],["b",2]]] {"key":"string","value":{"type":"integer","maxInteger":1},"max":"unlimited"} -> false"#;

/// Types, each with whether it is a scalar, is optional, or neither.
const COUNTS: &str = r#""integer" -> scalar
"string" -> scalar
{"key":"integer","min":1,"max":1} -> scalar
{"key":"integer","min":0,"max":1} -> optional
{"key":"integer","min":0} -> optional
{"key":"uuid","min":0} -> optional
{"key":"integer","min":0,"max":2} -> neither
{"key":"integer","max":2} -> neither
{"key":"integer","min":0,"max":"unlimited"} -> neither
{"key":"integer","min":1,"max":"unlimited"} -> neither
{"key":"string","value":"integer","min":0} -> neither
{"key":"string","value":"integer"} -> neither"#;

/// The schema of a table `T` with one column `c` of this type.
pub(crate) fn of_type(alloc: Global, type_text: &str) -> Result<Schema, Fail> {
    let text = format!(in alloc;
        "{{\"name\":\"A\",\"tables\":{{\"T\":{{\"columns\":{{\"c\":{{\"type\":{type_text}}}}}}}}}}}"
    )?;
    schema_of_text(alloc, text.as_str())
}

/// The column `c` of the table `T`.
pub(crate) fn column(schema: &Schema) -> Result<&Column, Fail> {
    let table = schema.table("T").ok_or("no table")?;
    Ok(table.column("c").ok_or("no column")?)
}

/// The text of a value.
fn written(alloc: Global, datum: &Datum) -> Result<String, Fail> {
    Ok(write_datum(alloc, datum)?.to_string(alloc)?)
}

/// The default of the column `c` of a schema.
fn default_of(alloc: Global, schema: &Schema) -> Result<String, Fail> {
    let datum = column(schema)?.default_of(alloc)?;
    written(alloc, &datum)
}

/// Whether the value of a tree fits a column.
fn fits(alloc: Global, column: &Column, tree: &Value) -> Result<bool, Fail> {
    let datum = read_datum(alloc, tree, column.kinds(), &NoNames)?;
    Ok(column.fits(&datum))
}

/// Whether the value of a text fits a column.
fn text_fits(alloc: Global, column: &Column, value: &str) -> Result<bool, Fail> {
    let tree = Value::from_str(alloc, value)?;
    fits(alloc, column, &tree)
}

/// Whether the value of a text fits the column `c` of a schema.
fn text_fits_schema(alloc: Global, schema: &Schema, value: &str) -> Result<String, Fail> {
    let fits = text_fits(alloc, column(schema)?, value)?;
    Ok(format!(in alloc; "{fits}")?)
}

/// Whether a column is a scalar, is optional, or neither.
fn counted(column: &Column) -> &'static str {
    if column.is_scalar() {
        "scalar"
    } else if column.is_optional() {
        "optional"
    } else {
        "neither"
    }
}

/// Whether a type is a scalar, is optional, or neither.
#[derive(Drop)]
struct Counts;

impl Scripted for Counts {
    fn answer(&mut self, alloc: Global, command: &str) -> Result<String, Fail> {
        let schema = of_type(alloc, command)?;
        Ok(String::from_str(alloc, counted(column(&schema)?))?)
    }
}

/// The default of a type.
#[derive(Drop)]
struct Defaults;

impl Scripted for Defaults {
    fn answer(&mut self, alloc: Global, command: &str) -> Result<String, Fail> {
        let schema = of_type(alloc, command)?;
        default_of(alloc, &schema)
    }
}

/// Whether a value fits the type after it.
#[derive(Drop)]
struct Fitting;

impl Scripted for Fitting {
    fn answer(&mut self, alloc: Global, command: &str) -> Result<String, Fail> {
        let (value, type_text) = command.split_once(" ").ok_or("no type")?;
        let schema = of_type(alloc, type_text)?;
        text_fits_schema(alloc, &schema, value)
    }
}

#[test]
fn a_default_is_one_atom_or_nothing(rt: HostRuntime) -> Result<(), Fail> {
    agrees(rt.alloc(), Defaults, DEFAULTS)
}

#[test]
fn a_scalar_has_one_atom_and_an_optional_at_most_one(rt: HostRuntime) -> Result<(), Fail> {
    agrees(rt.alloc(), Counts, COUNTS)
}

#[test]
fn ranges_take_their_ends_in(rt: HostRuntime) -> Result<(), Fail> {
    agrees(rt.alloc(), Fitting, FITTING)?;
    agrees(rt.alloc(), Fitting, UNFITTING)
}
