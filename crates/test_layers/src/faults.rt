use crate::operations::run_without_rows;
use std::alloc::Global;
use std::test::Fail;
use test_basics::schema_of_text;

/// A table whose rows have a map, a number up to 9, a number that stays, a text of three characters at most, and a number.
const SCHEMA: &str = r#"{"name":"A","version":"1.0.0","tables":{"T":{"columns":{
"counts":{"type":{"key":"string","value":"integer","min":0,"max":"unlimited"}},
"digit":{"type":{"key":{"type":"integer","maxInteger":9}}},
"fixed":{"type":"integer","mutable":false},
"name":{"type":{"key":{"type":"string","maxLength":3}}},
"total":{"type":"integer"}}}}}"#;

/// Fails unless the operations of each line have the outcome that it lists, without rows in that table.
pub(crate) fn are_told(alloc: Global, script: &str) -> Result<(), Fail> {
    let schema = schema_of_text(alloc, SCHEMA)?;
    run_without_rows(alloc, &schema, script)
}

/// An insert with a missing or wrong member: `table`, `uuid`, `uuid-name` and `row`.
const INSERT: &str = r#"[{"op":"insert","row":{}}] -> syntax error
[{"op":"insert","table":7,"row":{}}] -> syntax error
[{"op":"insert","table":"U","row":{}}] -> unknown table
[{"op":"insert","table":"T","uuid":7,"row":{}}] -> syntax error
[{"op":"insert","table":"T","uuid":null,"row":{}}] -> syntax error
[{"op":"insert","table":"T","uuid":"p","row":{}}] -> syntax error
[{"op":"insert","table":"T","uuid":["uuid"],"row":{}}] -> syntax error
[{"op":"insert","table":"T","uuid":["named-uuid","a"],"row":{}}] -> syntax error
[{"op":"insert","table":"T","uuid":["uuid","p"],"row":{}}] -> syntax error
[{"op":"insert","table":"T","uuid":["set",["uuid","00000000-0000-4000-9000-000000000001"]],"row":{}}] -> syntax error
[{"op":"insert","table":"T","uuid":"00000000-0000-4000-9000-00000000000","row":{}}] -> syntax error
[{"op":"insert","table":"T","uuid":"00000000000040009000000000000001","row":{}}] -> syntax error
[{"op":"insert","table":"T","uuid":"{00000000-0000-4000-9000-000000000001}","row":{}}] -> syntax error
[{"op":"insert","table":"T","uuid":"00000000-0000-4000-9000-00000000000g","row":{}}] -> syntax error
[{"op":"insert","table":"T","uuid-name":null,"row":{}}] -> syntax error
[{"op":"insert","table":"T","uuid-name":7,"row":{}}] -> syntax error
[{"op":"insert","table":"T","uuid-name":"1","row":{}}] -> syntax error
[{"op":"insert","table":"T","uuid-name":"a","row":{}},{"op":"insert","table":"T","uuid-name":"a","row":{}}] -> {"uuid":["uuid","00000000-0000-4000-8000-000000000002"]} duplicate uuid-name
[{"op":"insert","table":"T"}] -> syntax error
[{"op":"insert","table":"T","row":7}] -> syntax error
[{"op":"insert","table":"T","row":{"colour":1}}] -> unknown column
[{"op":"insert","table":"T","row":{"_uuid":["uuid","00000000-0000-0000-0000-000000000001"]}}] -> constraint violation
[{"op":"insert","table":"T","row":{"_version":["uuid","00000000-0000-0000-0000-000000000001"]}}] -> constraint violation
[{"op":"insert","table":"T","row":{"digit":"a"}}] -> syntax error
[{"op":"insert","table":"T","row":{"digit":["set",[1,"a"]]}}] -> syntax error
[{"op":"insert","table":"T","row":{"counts":["map",[["a",1],["a",2]]]}}] -> constraint violation
[{"op":"insert","table":"T","row":{"digit":10}}] -> constraint violation
[{"op":"insert","table":"T","row":{"digit":["set",[1,2]]}}] -> constraint violation
[{"op":"insert","table":"T","row":{"digit":["set",[]]}}] -> constraint violation"#;

/// The same for a select: `table`, `where` and `columns`.
const SELECT: &str = r#"[{"op":"select","where":[]}] -> syntax error
[{"op":"select","table":7,"where":[]}] -> syntax error
[{"op":"select","table":"U","where":[]}] -> unknown table
[{"op":"select","table":"T"}] -> syntax error
[{"op":"select","table":"T","where":{}}] -> syntax error
[{"op":"select","table":"T","where":[7]}] -> syntax error
[{"op":"select","table":"T","where":[["digit","=="]]}] -> syntax error
[{"op":"select","table":"T","where":[["colour","==",1]]}] -> unknown column
[{"op":"select","table":"T","where":[["name","<","a"]]}] -> syntax error
[{"op":"select","table":"T","where":[["digit","==","a"]]}] -> syntax error
[{"op":"select","table":"T","where":[["counts","==",["map",[["a",1],["a",2]]]]]}] -> constraint violation
[{"op":"select","table":"T","where":[],"columns":7}] -> syntax error
[{"op":"select","table":"T","where":[],"columns":null}] -> syntax error
[{"op":"select","table":"T","where":[],"columns":[7]}] -> syntax error
[{"op":"select","table":"T","where":[],"columns":["colour"]}] -> unknown column"#;

/// For an update: `table`, `where` and `row`.
const UPDATE: &str = r#"[{"op":"update","where":[],"row":{}}] -> syntax error
[{"op":"update","table":7,"where":[],"row":{}}] -> syntax error
[{"op":"update","table":"U","where":[],"row":{}}] -> unknown table
[{"op":"update","table":"T","row":{}}] -> syntax error
[{"op":"update","table":"T","where":{},"row":{}}] -> syntax error
[{"op":"update","table":"T","where":[7],"row":{}}] -> syntax error
[{"op":"update","table":"T","where":[["digit","=="]],"row":{}}] -> syntax error
[{"op":"update","table":"T","where":[["colour","==",1]],"row":{}}] -> unknown column
[{"op":"update","table":"T","where":[["name","<","a"]],"row":{}}] -> syntax error
[{"op":"update","table":"T","where":[["digit","==","a"]],"row":{}}] -> syntax error
[{"op":"update","table":"T","where":[["counts","==",["map",[["a",1],["a",2]]]]],"row":{}}] -> constraint violation
[{"op":"update","table":"T","where":[]}] -> syntax error
[{"op":"update","table":"T","where":[],"row":7}] -> syntax error
[{"op":"update","table":"T","where":[],"row":{"colour":1}}] -> unknown column
[{"op":"update","table":"T","where":[],"row":{"_uuid":["uuid","00000000-0000-0000-0000-000000000001"]}}] -> constraint violation
[{"op":"update","table":"T","where":[],"row":{"_version":["uuid","00000000-0000-0000-0000-000000000001"]}}] -> constraint violation
[{"op":"update","table":"T","where":[],"row":{"digit":"a"}}] -> syntax error
[{"op":"update","table":"T","where":[],"row":{"digit":["set",[1,"a"]]}}] -> syntax error
[{"op":"update","table":"T","where":[],"row":{"counts":["map",[["a",1],["a",2]]]}}] -> constraint violation
[{"op":"update","table":"T","where":[],"row":{"digit":10}}] -> constraint violation
[{"op":"update","table":"T","where":[],"row":{"digit":["set",[1,2]]}}] -> constraint violation
[{"op":"update","table":"T","where":[],"row":{"digit":["set",[]]}}] -> constraint violation
[{"op":"update","table":"T","where":[],"row":{"fixed":1}}] -> constraint violation"#;

/// For a mutate: `table`, `where` and `mutations`, and the outcome of a mutation on a row.
const MUTATE: &str = r#"[{"op":"mutate","where":[],"mutations":[]}] -> syntax error
[{"op":"mutate","table":7,"where":[],"mutations":[]}] -> syntax error
[{"op":"mutate","table":"U","where":[],"mutations":[]}] -> unknown table
[{"op":"mutate","table":"T","mutations":[]}] -> syntax error
[{"op":"mutate","table":"T","where":{},"mutations":[]}] -> syntax error
[{"op":"mutate","table":"T","where":[7],"mutations":[]}] -> syntax error
[{"op":"mutate","table":"T","where":[["digit","=="]],"mutations":[]}] -> syntax error
[{"op":"mutate","table":"T","where":[["colour","==",1]],"mutations":[]}] -> unknown column
[{"op":"mutate","table":"T","where":[["name","<","a"]],"mutations":[]}] -> syntax error
[{"op":"mutate","table":"T","where":[["digit","==","a"]],"mutations":[]}] -> syntax error
[{"op":"mutate","table":"T","where":[["counts","==",["map",[["a",1],["a",2]]]]],"mutations":[]}] -> constraint violation
[{"op":"mutate","table":"T","where":[]}] -> syntax error
[{"op":"mutate","table":"T","where":[],"mutations":{}}] -> syntax error
[{"op":"mutate","table":"T","where":[],"mutations":[7]}] -> syntax error
[{"op":"mutate","table":"T","where":[],"mutations":[["digit","+="]]}] -> syntax error
[{"op":"mutate","table":"T","where":[],"mutations":[["colour","+=",1]]}] -> unknown column
[{"op":"mutate","table":"T","where":[],"mutations":[["_uuid","+=",1]]}] -> constraint violation
[{"op":"mutate","table":"T","where":[],"mutations":[["_version","+=",1]]}] -> constraint violation
[{"op":"mutate","table":"T","where":[],"mutations":[["fixed","+=",1]]}] -> constraint violation
[{"op":"mutate","table":"T","where":[],"mutations":[["name","+=",1]]}] -> syntax error
[{"op":"mutate","table":"T","where":[],"mutations":[["digit","=",1]]}] -> syntax error
[{"op":"mutate","table":"T","where":[],"mutations":[["digit","+=","a"]]}] -> syntax error
[{"op":"mutate","table":"T","where":[],"mutations":[["counts","insert",["map",[["a",1],["a",2]]]]]}] -> constraint violation
[{"op":"insert","table":"T","row":{"digit":9,"total":2}},{"op":"mutate","table":"T","where":[],"mutations":[["total","/=",0]]}] -> {"uuid":["uuid","00000000-0000-4000-8000-000000000002"]} domain error
[{"op":"insert","table":"T","row":{"digit":9,"total":2}},{"op":"mutate","table":"T","where":[],"mutations":[["total","*=",9223372036854775807]]}] -> {"uuid":["uuid","00000000-0000-4000-8000-000000000002"]} range error
[{"op":"insert","table":"T","row":{"digit":9,"total":2}},{"op":"mutate","table":"T","where":[],"mutations":[["digit","+=",1]]}] -> {"uuid":["uuid","00000000-0000-4000-8000-000000000002"]} constraint violation"#;

/// For a delete: `table` and `where`.
const DELETE: &str = r#"[{"op":"delete","where":[]}] -> syntax error
[{"op":"delete","table":7,"where":[]}] -> syntax error
[{"op":"delete","table":"U","where":[]}] -> unknown table
[{"op":"delete","table":"T"}] -> syntax error
[{"op":"delete","table":"T","where":{}}] -> syntax error
[{"op":"delete","table":"T","where":[7]}] -> syntax error
[{"op":"delete","table":"T","where":[["digit","=="]]}] -> syntax error
[{"op":"delete","table":"T","where":[["colour","==",1]]}] -> unknown column
[{"op":"delete","table":"T","where":[["name","<","a"]]}] -> syntax error
[{"op":"delete","table":"T","where":[["digit","==","a"]]}] -> syntax error
[{"op":"delete","table":"T","where":[["counts","==",["map",[["a",1],["a",2]]]]]}] -> constraint violation
[{"op":"delete","table":"T","where":[["digit","=",1]]}] -> syntax error
[{"op":"delete","table":"T","where":[["digit","==",["set",[1,2]]]]}] -> syntax error
[{"op":"delete","table":"T","where":[["digit","==",["set",[]]]]}] -> syntax error
[{"op":"delete","table":"T","where":[["_uuid","==",["named-uuid","b"]]]}] -> syntax error"#;

/// For a wait: `table`, `timeout`, `where`, `columns`, `until` and `rows`.
const WAIT: &str = r#"[{"op":"wait","where":[],"until":"==","rows":[]}] -> syntax error
[{"op":"wait","table":7,"where":[],"until":"==","rows":[]}] -> syntax error
[{"op":"wait","table":"U","where":[],"until":"==","rows":[]}] -> unknown table
[{"op":"wait","table":"T","timeout":null,"where":[],"until":"==","rows":[]}] -> syntax error
[{"op":"wait","table":"T","timeout":"5","where":[],"until":"==","rows":[]}] -> syntax error
[{"op":"wait","table":"T","timeout":-1,"where":[],"until":"==","rows":[]}] -> syntax error
[{"op":"wait","table":"T","until":"==","rows":[]}] -> syntax error
[{"op":"wait","table":"T","where":{},"until":"==","rows":[]}] -> syntax error
[{"op":"wait","table":"T","where":[7],"until":"==","rows":[]}] -> syntax error
[{"op":"wait","table":"T","where":[["digit","=="]],"until":"==","rows":[]}] -> syntax error
[{"op":"wait","table":"T","where":[["colour","==",1]],"until":"==","rows":[]}] -> unknown column
[{"op":"wait","table":"T","where":[["name","<","a"]],"until":"==","rows":[]}] -> syntax error
[{"op":"wait","table":"T","where":[["digit","==","a"]],"until":"==","rows":[]}] -> syntax error
[{"op":"wait","table":"T","where":[["counts","==",["map",[["a",1],["a",2]]]]],"until":"==","rows":[]}] -> constraint violation
[{"op":"wait","table":"T","where":[],"columns":7,"until":"==","rows":[]}] -> syntax error
[{"op":"wait","table":"T","where":[],"columns":null,"until":"==","rows":[]}] -> syntax error
[{"op":"wait","table":"T","where":[],"columns":[7],"until":"==","rows":[]}] -> syntax error
[{"op":"wait","table":"T","where":[],"columns":["colour"],"until":"==","rows":[]}] -> unknown column
[{"op":"wait","table":"T","where":[],"rows":[]}] -> syntax error
[{"op":"wait","table":"T","where":[],"until":7,"rows":[]}] -> syntax error
[{"op":"wait","table":"T","where":[],"until":"=","rows":[]}] -> syntax error
[{"op":"wait","table":"T","where":[],"until":"=="}] -> syntax error
[{"op":"wait","table":"T","where":[],"until":"==","rows":7}] -> syntax error
[{"op":"wait","table":"T","where":[],"until":"==","rows":[7]}] -> syntax error
[{"op":"wait","table":"T","where":[],"until":"==","rows":[{"colour":1}]}] -> syntax error
[{"op":"wait","table":"T","where":[],"until":"==","rows":[{"_uuid":["uuid","00000000-0000-0000-0000-000000000001"]}]}] -> syntax error
[{"op":"wait","table":"T","where":[],"until":"==","rows":[{"digit":"a"}]}] -> syntax error
[{"op":"wait","table":"T","where":[],"until":"==","rows":[{"counts":["map",[["a",1],["a",2]]]}]}] -> constraint violation"#;

/// For a commit and a comment, which have one member each.
const OTHERS: &str = r#"[{"op":"commit"}] -> syntax error
[{"op":"commit","durable":1}] -> syntax error
[{"op":"commit","durable":null}] -> syntax error
[{"op":"commit","durable":"true"}] -> syntax error
[{"op":"comment"}] -> syntax error
[{"op":"comment","comment":1}] -> syntax error
[{"op":"comment","comment":null}] -> syntax error
[{"op":"comment","comment":["a"]}] -> syntax error"#;

#[test]
fn each_fault_is_told(rt: HostRuntime) -> Result<(), Fail> {
    for script in [INSERT, SELECT, UPDATE, MUTATE, DELETE, WAIT, OTHERS] {
        are_told(rt.alloc(), script)?;
    }
    Ok(())
}
