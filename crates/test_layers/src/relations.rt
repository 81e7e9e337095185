use crate::operations::run_without_rows;
use std::alloc::Global;
use std::test::Fail;
use test_basics::net;

/// Inserts of port `a` with tag 5, port `b` without one, and a switch that holds both.
const PORTS: &str =
    r#"{"op":"insert","table":"Port","uuid-name":"a","row":{"name":"a","tag":5}},{"op":"insert","table":"Port","uuid-name":"b","row":{"name":"b"}},{"op":"insert","table":"Switch","row":{"name":"s1","ports":["set",[["named-uuid","a"],["named-uuid","b"]]]}}"#;

/// Their results.
const INSERTED: &str =
    r#"{"uuid":["uuid","00000000-0000-4000-8000-000000000002"]} {"uuid":["uuid","00000000-0000-4000-8000-000000000003"]} {"uuid":["uuid","00000000-0000-4000-8000-000000000004"]}"#;

/// Operations on the ports, each with its results, and how many rows they change, where it matches `a`, and where it matches
/// no port. `?` stands for the condition.
const OPERATIONS: &str =
    r#"{"op":"select","table":"Port","where":[?],"columns":["name"]} -> {"rows":[{"name":"a"}]} 3 -> {"rows":[]} 3
{"op":"update","table":"Port","where":[?],"row":{"name":"c"}},{"op":"select","table":"Port","where":[],"columns":["name"]} -> {"count":1} {"rows":[{"name":"c"},{"name":"b"}]} 3 -> {"count":0} {"rows":[{"name":"a"},{"name":"b"}]} 3
{"op":"mutate","table":"Port","where":[?],"mutations":[["tag","+=",2]]},{"op":"select","table":"Port","where":[],"columns":["tag"]} -> {"count":1} {"rows":[{"tag":7},{"tag":["set",[]]}]} 3 -> {"count":0} {"rows":[{"tag":5},{"tag":["set",[]]}]} 3
{"op":"delete","table":"Port","where":[?]},{"op":"select","table":"Port","where":[],"columns":["name"]} -> {"count":1} {"rows":[{"name":"b"}]} 2 -> {"count":0} {"rows":[{"name":"a"},{"name":"b"}]} 3
{"op":"wait","table":"Port","where":[?],"columns":["name"],"until":"==","rows":[{"name":"a"}]} -> {} 3 -> waits"#;

/// Conditions on the tag, each with what it matches.
const CONDITIONS: &str = r#"["tag","<",10] -> a
["tag","<",4] -> none
["tag","<",5] -> none
["tag","<",6] -> a
["tag","<=",4] -> none
["tag","<=",5] -> a
["tag","<=",6] -> a
["tag",">",4] -> a
["tag",">",5] -> none
["tag",">",6] -> none
["tag",">=",4] -> a
["tag",">=",5] -> a
["tag",">=",6] -> none
["tag","<",["set",[]]] -> refused
["tag","<",["set",[4,5]]] -> refused
["tag","<=",["set",[]]] -> refused
["tag","<=",["set",[4,5]]] -> refused
["tag",">",["set",[]]] -> refused
["tag",">",["set",[4,5]]] -> refused
["tag",">=",["set",[]]] -> refused
["tag",">=",["set",[4,5]]] -> refused
["tag","==",["set",[4,5]]] -> none
["tag","includes",5] -> a
["tag","excludes",["set",[4,6]]],["tag","!=",["set",[]]] -> a"#;

/// A line with these inserts before an operation, and what it results in.
fn line(alloc: Global, operation: &str, results: &str) -> Result<String, Fail> {
    Ok(format!(in alloc; "[{PORTS},{operation}] -> {INSERTED} {results}\n")?)
}

/// The result of an operation by what its condition matches.
fn result_of<'a>(matched: &str, found: &'a str, not_found: &'a str) -> &'a str {
    match matched {
        "a" => found,
        "none" => not_found,
        _ => "syntax error",
    }
}

/// The line of an operation with this condition.
fn asked(alloc: Global, operation: &str, condition: &str, matched: &str) -> Result<String, Fail> {
    let (operation, results) = operation.split_once(" -> ").ok_or("no results")?;
    let (found, not_found) = results.split_once(" -> ").ok_or("one result")?;
    let (before, after) = operation.split_once("?").ok_or("no condition")?;
    let operation = format!(in alloc; "{before}{condition}{after}")?;
    line(
        alloc,
        operation.as_str(),
        result_of(matched, found, not_found),
    )
}

/// Adds the line of each operation with this condition.
fn ask_all(alloc: Global, script: &mut String, condition: &str) -> Result<(), Fail> {
    let (condition, matched) = condition.split_once(" -> ").ok_or("no outcome")?;
    for operation in OPERATIONS.lines() {
        let line = asked(alloc, operation, condition, matched)?;
        script.push_str(line.as_str())?;
    }
    Ok(())
}

#[test]
fn relations_on_an_optional_integer(rt: HostRuntime) -> Result<(), Fail> {
    let alloc = rt.alloc();
    let mut script = String::new(alloc);
    for condition in CONDITIONS.lines() {
        ask_all(alloc, &mut script, condition)?;
    }
    let schema = net(alloc)?;
    run_without_rows(alloc, &schema, script.as_str())
}

/// A value without its one number is a fault of `where`, which comes before those of later members.
const FAULTS: &str =
    r#"[{"op":"select","table":"Port","where":[["tag","<",["set",[]]]],"columns":["colour"]}] -> syntax error
[{"op":"select","table":"Port","where":[["tag","<",10]],"columns":["colour"]}] -> unknown column
[{"op":"update","table":"Port","where":[["tag","<",["set",[4,5]]]],"row":{"colour":1}}] -> syntax error
[{"op":"mutate","table":"Port","where":[["tag",">",["set",[]]]],"mutations":[["colour","+=",1]]}] -> syntax error
[{"op":"wait","table":"Port","where":[["tag",">=",["set",[4,5]]]],"columns":["colour"]}] -> syntax error
[{"op":"delete","table":"Switch","where":[["ports","<",10]]}] -> syntax error
[{"op":"delete","table":"Port","where":[["peer","<",10]]}] -> syntax error
[{"op":"delete","table":"Port","where":[["colour","<",["set",[]]]]}] -> unknown column"#;

#[test]
fn a_relation_to_no_number_or_to_two_is_refused(rt: HostRuntime) -> Result<(), Fail> {
    let schema = net(rt.alloc())?;
    run_without_rows(rt.alloc(), &schema, FAULTS)
}
