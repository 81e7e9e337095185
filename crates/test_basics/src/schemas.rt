use crate::tree_texts::tree;
use ov_schema::Schema;
use ov_schema_text::schema_of_tree;
use std::alloc::Global;
use std::test::Fail;

/// The schema Net: switches and their ports. It is the compact text of its tree.
pub const NET: &str =
    r#"{"name":"Net","tables":{"Port":{"columns":{"name":{"type":"string"},"peer":{"type":{"key":{"refTable":"Port","type":"uuid"},"max":1,"min":0}},"tag":{"type":{"key":{"maxInteger":4095,"minInteger":0,"type":"integer"},"max":1,"min":0}}}},"Switch":{"columns":{"load":{"type":"integer"},"main":{"type":{"key":{"refTable":"Port","refType":"weak","type":"uuid"},"max":1,"min":0}},"name":{"type":"string"},"ports":{"type":{"key":{"refTable":"Port","type":"uuid"},"max":"unlimited","min":0}}},"indexes":[["name"]],"isRoot":true}},"version":"1.0.0"}"#;

/// The schema of a text.
pub fn schema_of_text(alloc: Global, text: &str) -> Result<Schema, Fail> {
    Ok(schema_of_tree(alloc, tree(alloc, text)?)?)
}

/// The schema Net.
pub fn net(alloc: Global) -> Result<Schema, Fail> {
    schema_of_text(alloc, NET)
}
