use crate::columns::{column, of_type};
use ov_schema::Schema;
use std::alloc::Global;
use std::test::Fail;
use test_basics::{Scripted, agrees, schema_of_text};

/// Pairs of versions, each with whether the first is newer.
const VERSIONS: &str = r#"1.10.0 1.9.0 -> true
1.9.0 1.10.0 -> false
2.0.0 1.9.9 -> true
1.9.9 2.0.0 -> false
1.0.1 1.0.0 -> true
1.0.0 1.0.1 -> false
1.1.0 1.1.0 -> false
01.1.0 1.1.0 -> false
1.1.0 01.1.0 -> false
1.1.00 1.1.0 -> false
1.02.0 1.1.0 -> true
0.0.10 0.0.9 -> true
1.100000000000000000000.0 1.99999999999999999999.0 -> true
none 1.0.0 -> false
1.0.0 none -> false
none none -> false"#;

/// Pairs of types, each with whether they are the same.
const TYPES: &str = r#""integer" "integer" -> true
"integer" {"key":"integer"} -> true
"integer" {"key":{"type":"integer"},"min":1,"max":1} -> true
"integer" "string" -> false
"uuid" "string" -> false
"integer" {"key":"integer","min":0} -> false
{"key":"integer","min":0} {"key":"integer","min":0,"max":2} -> false
{"key":"integer","max":"unlimited"} {"key":"integer","max":2} -> false
{"key":"integer","max":"unlimited"} {"key":"integer","max":"unlimited"} -> true
{"key":"string","value":"integer"} {"key":"string","value":"integer"} -> true
{"key":"string","value":"integer"} {"key":"string","value":"string"} -> false
{"key":"string","value":"integer"} "string" -> false
"string" {"key":"string","value":"integer"} -> false
{"key":{"type":"integer","minInteger":1}} {"key":{"type":"integer","minInteger":1}} -> true
{"key":{"type":"integer","minInteger":1}} {"key":{"type":"integer","minInteger":2}} -> false
{"key":{"type":"integer","minInteger":1}} {"key":{"type":"integer","maxInteger":1}} -> false
{"key":{"type":"integer","maxInteger":1}} "integer" -> false
{"key":{"type":"string","minLength":1}} {"key":{"type":"string","minLength":2}} -> false
{"key":{"type":"string","maxLength":1}} {"key":{"type":"string","maxLength":1}} -> true
{"key":{"type":"string","maxLength":1}} "string" -> false
{"key":{"type":"integer","enum":["set",[1,2]]}} {"key":{"type":"integer","enum":["set",[2,1,2]]}} -> true
{"key":{"type":"integer","enum":["set",[1,2]]}} {"key":{"type":"integer","enum":["set",[1,3]]}} -> false
{"key":{"type":"integer","enum":["set",[1,2]]}} {"key":{"type":"integer","enum":1}} -> false
{"key":{"type":"integer","enum":1}} "integer" -> false
"integer" {"key":{"type":"integer","enum":1}} -> false
{"key":{"type":"uuid","refTable":"T"}} {"key":{"type":"uuid","refTable":"T","refType":"strong"}} -> true
{"key":{"type":"uuid","refTable":"T"}} {"key":{"type":"uuid","refTable":"T","refType":"weak"}} -> false
{"key":{"type":"uuid","refTable":"T"}} "uuid" -> false
"uuid" {"key":{"type":"uuid","refTable":"T"}} -> false"#;

/// A schema of this version, or without one.
fn of_version(alloc: Global, version: &str) -> Result<Schema, Fail> {
    if version == "none" {
        return schema_of_text(alloc, r#"{"name":"A","tables":{}}"#);
    }
    let text = format!(in alloc; "{{\"name\":\"A\",\"tables\":{{}},\"version\":\"{version}\"}}")?;
    schema_of_text(alloc, text.as_str())
}

/// Whether the schema of the first version is newer than that of the second.
#[derive(Drop)]
struct Versions;

impl Scripted for Versions {
    fn answer(&mut self, alloc: Global, command: &str) -> Result<String, Fail> {
        let (first, second) = command.split_once(" ").ok_or("one version")?;
        let schema = of_version(alloc, first)?;
        let other = of_version(alloc, second)?;
        let newer = schema.newer_than(&other);
        Ok(format!(in alloc; "{newer}")?)
    }
}

/// Whether two types are the same.
#[derive(Drop)]
struct Types;

impl Scripted for Types {
    fn answer(&mut self, alloc: Global, command: &str) -> Result<String, Fail> {
        let (first, second) = command.split_once(" ").ok_or("one type")?;
        let schema = of_type(alloc, first)?;
        let other = of_type(alloc, second)?;
        let same = column(&schema)?.same_type(column(&other)?);
        Ok(format!(in alloc; "{same}")?)
    }
}

#[test]
fn the_first_part_that_differs_tells_the_newer(rt: HostRuntime) -> Result<(), Fail> {
    agrees(rt.alloc(), Versions, VERSIONS)
}

#[test]
fn a_type_is_the_same_with_all_its_parts(rt: HostRuntime) -> Result<(), Fail> {
    agrees(rt.alloc(), Types, TYPES)
}
