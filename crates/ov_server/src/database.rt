ghost use Rattle.std.specs.Prelude.{IfOk};
ghost use Rattle.ov_server.specs.Schemas.{IsBuiltIn};

use ov_core::Schema;
use ov_schema_text::{SchemaFileFault, schema_of};
use std::alloc::Global;

/// The schema that is served if no other is named: switches and their ports.
const SCHEMA: &str =
    r#"{"name":"Net","tables":{"Port":{"columns":{"name":{"type":"string"},"peer":{"type":{"key":{"refTable":"Port","type":"uuid"},"max":1,"min":0}},"tag":{"type":{"key":{"maxInteger":4095,"minInteger":0,"type":"integer"},"max":1,"min":0}}}},"Switch":{"columns":{"load":{"type":"integer"},"main":{"type":{"key":{"refTable":"Port","refType":"weak","type":"uuid"},"max":1,"min":0}},"name":{"type":"string"},"ports":{"type":{"key":{"refTable":"Port","type":"uuid"},"max":"unlimited","min":0}}},"indexes":[["name"]],"isRoot":true}},"version":"1.0.0"}"#;

/// The schema that is served if no other is named.
pub fn built_in_schema(alloc: Global) -> Result<Schema, SchemaFileFault>
    ensures { IfOk result (λ schema. IsBuiltIn schema) }
{
    schema_of(alloc, SCHEMA.as_bytes())
}
