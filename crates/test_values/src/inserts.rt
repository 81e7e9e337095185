use ov_projection::is_insert;
use serde_json::Value;
use std::alloc::Global;
use std::test::Fail;
use test_basics::{Scripted, agrees};

/// An operation is an insert because of its `op` alone.
const OPERATIONS: &str = r#"{"op":"insert"} -> true
{"op":"insert","table":1} -> true
{"op":"select"} -> false
{"op":"Insert"} -> false
{"op":["insert"]} -> false
{"uuid-name":"insert"} -> false
["insert"] -> false
"insert" -> false"#;

/// Answers whether an operation is an insert.
#[derive(Drop)]
struct Operations;

impl Scripted for Operations {
    fn answer(&mut self, alloc: Global, command: &str) -> Result<String, Fail> {
        let operation = Value::from_str(alloc, command)?;
        Ok(format!(in alloc; "{}", is_insert(&operation))?)
    }
}

#[test]
fn an_insert_is_told_by_its_op(rt: HostRuntime) -> Result<(), Fail> {
    agrees(rt.alloc(), Operations, OPERATIONS)
}
