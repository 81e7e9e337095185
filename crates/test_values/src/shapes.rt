use ov_atoms::{Datum, NoNames, read_datum};
use ov_schema::{Schema, Table};
use serde_json::Value;
use std::alloc::Global;
use std::test::Fail;
use test_basics::schema_of_text;

/// A table with a column of each shape.
const SHAPES: &str = r#"{"name":"Net","version":"1.0.0","tables":{"Port":{"columns":{
"flag":{"type":"boolean"},"load":{"type":"integer"},"name":{"type":"string"},"peer":{"type":"uuid"},
"tag":{"type":{"key":"integer","min":0,"max":1}},
"mark":{"type":{"key":"string","min":0,"max":1}},
"pair":{"type":{"key":"integer","value":"integer","min":0,"max":1}},
"two":{"type":{"key":"integer","min":0,"max":2}},
"some":{"type":{"key":"integer","min":1,"max":"unlimited"}},
"flags":{"type":{"key":"boolean","min":0,"max":"unlimited"}},
"tags":{"type":{"key":"integer","min":0,"max":"unlimited"}},
"names":{"type":{"key":"string","min":0,"max":"unlimited"}},
"peers":{"type":{"key":"uuid","min":0,"max":"unlimited"}},
"counts":{"type":{"key":"string","value":"integer","min":0,"max":"unlimited"}},
"digit":{"type":{"key":{"type":"integer","minInteger":-9,"maxInteger":9}}},
"digits":{"type":{"key":{"type":"integer","minInteger":-9,"maxInteger":9},"min":1,"max":3}},
"few":{"type":{"key":"string","value":{"type":"integer","maxInteger":9},"min":1,"max":2}},
"fixed":{"type":"integer","mutable":false}}}}}"#;

/// The schema of that table, Port.
pub(crate) fn shapes(alloc: Global) -> Result<Schema, Fail> {
    schema_of_text(alloc, SHAPES)
}

/// The value that a tree gives to a column.
pub(crate) fn value_of(
    alloc: Global,
    table: &Table,
    name: &str,
    tree: &Value,
) -> Result<Datum, Fail> {
    let column = table.column(name).ok_or("no such column")?;
    Ok(read_datum(alloc, tree, column.kinds(), &NoNames)?)
}
