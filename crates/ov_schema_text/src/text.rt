ghost use Rattle.std.specs.Prelude.{IfOk, IfErr, IfSome};
ghost use Rattle.ov_schema_text.specs.Texts.{IsSchemaText, RefusesText, RefusesFile};

use crate::file_fault::SchemaFileFault;
use crate::schema::schema_of_tree;
use ov_base::{Tree, has_real};
use ov_schema::{Schema, SchemaFault};
use serde_json::Value;
use std::alloc::Global;
use std::fs;
use std::io::{ErrorKind, Read};
use std::rt::Files;

/// The schema of the JSON text in a file (RFC 7047, 3.2), which is read whole.
///
/// No contract says what a file holds; that of `schema_from` says what a reader's bytes give.
pub fn read_schema<R: Files>(rt: &R, alloc: Global, path: &str) -> Result<Schema, SchemaFileFault> {
    match fs::open(rt, path) {
        Ok(file) => schema_from(alloc, file),
        Err(error) if error.kind() == ErrorKind::OutOfMemory => Err(SchemaFileFault::Memory),
        Err(_) => Err(SchemaFileFault::Unread),
    }
}

/// The schema of the JSON text that remains in a reader (RFC 7047, 3.2).
pub fn schema_from<R: Read + Drop>(alloc: Global, reader: R) -> Result<Schema, SchemaFileFault>
    ensures schema { IfSome (R.remaining reader) (λ text. IfOk result (IsSchemaText text)) }
    ensures refused { IfSome (R.remaining reader) (λ text. IfErr result (RefusesFile text)) }
{
    let mut reader = reader;
    let mut bytes = Vec::new(alloc);
    match reader.read_to_end(&mut bytes) {
        Ok(_) => schema_of(alloc, bytes.as_slice()),
        Err(error) if error.kind() == ErrorKind::OutOfMemory => Err(SchemaFileFault::Memory),
        Err(_) => Err(SchemaFileFault::Unread),
    }
}

/// The schema that a text is (RFC 7047, 3.2): JSON in UTF-8 without a byte order mark, with nothing after it.
pub fn schema_of(alloc: Global, text: &[u8]) -> Result<Schema, SchemaFileFault>
    ensures schema { IfOk result (IsSchemaText text.now) }
    ensures refused { IfErr result (RefusesText text.now) }
{
    let value = match Value::from_slice(alloc, text) {
        Ok(value) => value,
        Err(error) if error.is_memory() => return Err(SchemaFileFault::Memory),
        Err(_) => return Err(SchemaFileFault::NotJson),
    };
    if has_real(&value) {
        return Err(SchemaFileFault::Refused(SchemaFault::RealNotSupported));
    }
    match schema_of_tree(alloc, Tree::new(value)) {
        Ok(schema) => Ok(schema),
        Err(SchemaFault::Memory) => Err(SchemaFileFault::Memory),
        Err(fault) => Err(SchemaFileFault::Refused(fault)),
    }
}
