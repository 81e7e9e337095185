use crate::shapes::{shapes, value_of};
use ov_atoms::NoNames;
use ov_conds::{Condition, ConditionFault};
use ov_rows::{Columns, NamedValues, Row, RowView};
use ov_schema::{Schema, Table};
use serde_json::Value;
use std::alloc::Global;
use std::test::Fail;
use test_basics::{Scripted, agrees};
use uuid::Uuid;

/// Numbers are compared in order, and a number is a set of one.
const NUMBERS: &str = r#"{"load":6} ["load","<",7] -> true
{"load":6} ["load","<",6] -> false
{"load":6} ["load","<=",6] -> true
{"load":6} ["load","<=",5] -> false
{"load":6} ["load",">",5] -> true
{"load":6} ["load",">",6] -> false
{"load":6} ["load",">=",6] -> true
{"load":6} ["load",">=",7] -> false
{"load":6} ["load","==",6] -> true
{"load":6} ["load","!=",6] -> false
{"load":6} ["load","!=",7] -> true
{"load":6} ["load","includes",6] -> true
{"load":6} ["load","excludes",6] -> false
{"load":6} ["load","excludes",7] -> true
{"load":6} ["load","==",["set",[6,6]]] -> true
{"load":4} ["load","<",["set",[5]]] -> true
{"load":-9223372036854775808} ["load","<",9223372036854775807] -> true
{"load":9223372036854775807} ["load",">",-9223372036854775808] -> true
{"load":-1} ["load","<",0] -> true"#;

/// A relation compares the number of an optional column, and never holds of an empty one. The value of a relation is one
/// number; that of another function is any set.
const OPTIONALS: &str = r#"{"tag":5} ["tag","<",4] -> false
{"tag":5} ["tag","<",5] -> false
{"tag":5} ["tag","<",6] -> true
{"tag":5} ["tag","<=",4] -> false
{"tag":5} ["tag","<=",5] -> true
{"tag":5} ["tag","<=",6] -> true
{"tag":5} ["tag",">",4] -> true
{"tag":5} ["tag",">",5] -> false
{"tag":5} ["tag",">",6] -> false
{"tag":5} ["tag",">=",4] -> true
{"tag":5} ["tag",">=",5] -> true
{"tag":5} ["tag",">=",6] -> false
{"tag":["set",[]]} ["tag","<",4] -> false
{"tag":["set",[]]} ["tag","<",5] -> false
{"tag":["set",[]]} ["tag","<",6] -> false
{"tag":["set",[]]} ["tag","<=",4] -> false
{"tag":["set",[]]} ["tag","<=",5] -> false
{"tag":["set",[]]} ["tag","<=",6] -> false
{"tag":["set",[]]} ["tag",">",4] -> false
{"tag":["set",[]]} ["tag",">",5] -> false
{"tag":["set",[]]} ["tag",">",6] -> false
{"tag":["set",[]]} ["tag",">=",4] -> false
{"tag":["set",[]]} ["tag",">=",5] -> false
{"tag":["set",[]]} ["tag",">=",6] -> false
{"tag":5} ["tag","<",["set",[6,6]]] -> true
{"tag":["set",[]]} ["tag","<",9223372036854775807] -> false
{"tag":["set",[]]} ["tag",">",-9223372036854775808] -> false
{"tag":5} ["tag","==",["set",[]]] -> false
{"tag":5} ["tag","==",["set",[5,6]]] -> false
{"tag":5} ["tag","!=",["set",[]]] -> true
{"tag":5} ["tag","!=",["set",[5,6]]] -> true
{"tag":5} ["tag","includes",["set",[]]] -> true
{"tag":5} ["tag","includes",["set",[5,6]]] -> false
{"tag":5} ["tag","excludes",["set",[]]] -> true
{"tag":5} ["tag","excludes",["set",[6,7]]] -> true"#;

/// Sets are equal as wholes, include what they have, and exclude what they lack.
const SETS: &str = r#"{"tags":["set",[1,2]]} ["tags","includes",1] -> true
{"tags":["set",[1,2]]} ["tags","includes",["set",[]]] -> true
{"tags":["set",[1,2]]} ["tags","includes",["set",[2,3]]] -> false
{"tags":["set",[1,2]]} ["tags","includes",["set",[2,1]]] -> true
{"tags":["set",[1,2]]} ["tags","excludes",["set",[2,3]]] -> false
{"tags":["set",[1,2]]} ["tags","excludes",["set",[0,3]]] -> true
{"tags":["set",[1,2]]} ["tags","excludes",["set",[]]] -> true
{"tags":["set",[1,2]]} ["tags","excludes",3] -> true
{"tags":["set",[]]} ["tags","excludes",1] -> true
{"tags":["set",[]]} ["tags","includes",["set",[]]] -> true
{"tags":["set",[]]} ["tags","includes",1] -> false
{"tags":["set",[1,2]]} ["tags","==",["set",[2,1,2]]] -> true
{"tags":["set",[1,2]]} ["tags","==",1] -> false
{"tags":["set",[1,2]]} ["tags","!=",["set",[1,2,3]]] -> true
{"tags":["set",[1,2]]} ["tags","!=",1] -> true
{"tag":["set",[]]} ["tag","==",["set",[]]] -> true
{"tag":7} ["tag","includes",["set",[7,8]]] -> false
{"names":["set",["a","b"]]} ["names","includes","b"] -> true
{"flags":["set",[true,false]]} ["flags","==",["set",[false,true]]] -> true
{"peers":["set",[]]} ["peers","!=",["set",[]]] -> false"#;

/// A pair is in a map only with its value.
const MAPS: &str =
    r#"{"counts":["map",[["a",1],["b",2]]]} ["counts","includes",["map",[["a",1]]]] -> true
{"counts":["map",[["a",1],["b",2]]]} ["counts","includes",["map",[["a",2]]]] -> false
{"counts":["map",[["a",1],["b",2]]]} ["counts","includes",["map",[["b",2],["a",1]]]] -> true
{"counts":["map",[["a",1],["b",2]]]} ["counts","includes",["map",[]]] -> true
{"counts":["map",[["a",1],["b",2]]]} ["counts","excludes",["map",[["a",1]]]] -> false
{"counts":["map",[["a",1],["b",2]]]} ["counts","excludes",["map",[["a",2]]]] -> true
{"counts":["map",[["a",1],["b",2]]]} ["counts","excludes",["map",[["a",2],["b",2]]]] -> false
{"counts":["map",[["a",1],["b",2]]]} ["counts","excludes",["map",[["c",1]]]] -> true
{"counts":["map",[["a",1]]]} ["counts","==",["map",[["a",1]]]] -> true
{"counts":["map",[["a",1]]]} ["counts","==",["map",[["a",2]]]] -> false
{"counts":["map",[["a",1]]]} ["counts","!=",["map",[]]] -> true"#;

/// Texts, truth values and identifiers, and the columns that each row has.
const OTHERS: &str = r#"{"name":"a"} ["name","==","a"] -> true
{"name":"a"} ["name","!=","a"] -> false
{"name":"a"} ["name","includes","a"] -> true
{"name":"a"} ["name","excludes","b"] -> true
{"flag":true} ["flag","==",true] -> true
{"flag":true} ["flag","!=",false] -> true
{"flag":true} ["flag","excludes",true] -> false
{"peer":["uuid","00000000-0000-4000-8000-0000000000ab"]} ["peer","==",["uuid","00000000-0000-4000-8000-0000000000AB"]] -> true
{"peers":["set",[["uuid","00000000-0000-4000-8000-0000000000ab"]]]} ["peers","includes",["uuid","00000000-0000-4000-8000-0000000000ab"]] -> true
{} ["_uuid","==",["uuid","00000000-0000-4000-8000-000000000001"]] -> true
{} ["_uuid","==",["uuid","00000000-0000-4000-8000-000000000002"]] -> false
{} ["_uuid","excludes",["uuid","00000000-0000-4000-8000-000000000002"]] -> true
{} ["_version","==",["uuid","00000000-0000-4000-8000-000000000002"]] -> true
{} ["_version","!=",["uuid","00000000-0000-4000-8000-000000000001"]] -> true
{} ["_version","includes",["uuid","00000000-0000-4000-8000-000000000001"]] -> false"#;

/// A condition is refused for its shape, its column, its function or its value, in this order.
const REFUSED: &str = r#"{} {} -> syntax
{} [] -> syntax
{} ["load","=="] -> syntax
{} ["load","==",1,1] -> syntax
{} [1,"==",1] -> syntax
{} ["nowhere",1,1] -> syntax
{} ["nowhere","===",1] -> column
{} ["load","===","a"] -> syntax
{} ["name","<","a"] -> syntax
{} ["flag",">=",true] -> syntax
{} ["tag","<",["set",[]]] -> syntax
{} ["tag","<",["set",[5,6]]] -> syntax
{} ["tag","<=",["set",[]]] -> syntax
{} ["tag","<=",["set",[5,6]]] -> syntax
{} ["tag",">",["set",[]]] -> syntax
{} ["tag",">",["set",[5,6]]] -> syntax
{} ["tag",">=",["set",[]]] -> syntax
{} ["tag",">=",["set",[5,6]]] -> syntax
{} ["tag","<","a"] -> syntax
{} ["tag","<",["map",[]]] -> syntax
{} ["tags","<",5] -> syntax
{} ["tags","<=",5] -> syntax
{} ["tags",">",5] -> syntax
{} ["tags",">=",5] -> syntax
{} ["pair","<",5] -> syntax
{} ["digits",">",5] -> syntax
{} ["two",">=",5] -> syntax
{} ["some","<",5] -> syntax
{} ["mark","<","a"] -> syntax
{} ["pair","<",["map",[[1,2]]]] -> syntax
{} ["counts","<=",["map",[]]] -> syntax
{} ["_uuid",">",["uuid","00000000-0000-4000-8000-000000000001"]] -> syntax
{} ["load","==","a"] -> syntax
{} ["load","==",["set",[5,6]]] -> syntax
{} ["load","==",["set",[]]] -> syntax
{} ["_uuid","==",["set",[]]] -> syntax
{} ["load","==",9223372036854775808] -> syntax
{} ["peer","==",["named-uuid","a"]] -> syntax
{} ["counts","==",["map",[["a",1],["a",2]]]] -> clash
{} ["counts","==",["map",[["a",1],["a",2],[1,1]]]] -> syntax
{} ["counts","<",["map",[["a",1],["a",2]]]] -> syntax
{"digits":1} ["digits","==",["set",[1,2,3,4,99]]] -> false
{"digit":1} ["digit","<",99] -> true"#;

/// Adds the value that a tree gives to a column to a row's values.
fn put(
    alloc: Global,
    table: &Table,
    values: &mut NamedValues,
    name: &str,
    tree: &Value,
) -> Result<(), Fail> {
    let datum = value_of(alloc, table, name, tree)?;
    Ok(values.insert(String::from_str(alloc, name)?, datum)?)
}

/// Adds the values that the members of a tree give.
fn put_all(
    alloc: Global,
    table: &Table,
    values: &mut NamedValues,
    tree: &Value,
) -> Result<(), Fail> {
    for (name, member) in tree.as_object().ok_or("no object")? {
        put(alloc, table, values, name.as_str(), member)?;
    }
    Ok(())
}

/// The values that the members of a tree give.
fn values_of(alloc: Global, table: &Table, tree: &Value) -> Result<NamedValues, Fail> {
    let mut values = NamedValues::new(alloc);
    put_all(alloc, table, &mut values, tree)?;
    Ok(values)
}

/// The same for a text.
fn values_of_text(alloc: Global, table: &Table, text: &str) -> Result<NamedValues, Fail> {
    let tree = Value::from_str(alloc, text)?;
    values_of(alloc, table, &tree)
}

/// A row with these values.
fn row_of(alloc: Global, table: &Table, text: &str) -> Result<Row, Fail> {
    let values = values_of_text(alloc, table, text)?;
    Ok(Row {
        version: Uuid::from_u128(0x4000_8000_0000_0000_0002),
        columns: Columns::with_own_names(alloc, values)?,
    })
}

/// Whether a row with these values meets the condition, or the word for its refusal.
fn judged(alloc: Global, table: &Table, row: &Row, tree: &Value) -> &'static str {
    let id = Uuid::from_u128(0x4000_8000_0000_0000_0001);
    let row = RowView { id: &id, row };
    match Condition::read(alloc, table, tree, &NoNames) {
        Ok(condition) => {
            if condition.holds(&row) {
                "true"
            } else {
                "false"
            }
        }
        Err(ConditionFault::Syntax) => "syntax",
        Err(ConditionFault::UnknownColumn) => "column",
        Err(ConditionFault::Clash) => "clash",
        Err(ConditionFault::Memory) => "memory",
    }
}

/// The same for the text of a condition.
fn judged_by_text(
    alloc: Global,
    table: &Table,
    row: &Row,
    condition: &str,
) -> Result<&'static str, Fail> {
    let tree = Value::from_str(alloc, condition)?;
    Ok(judged(alloc, table, row, &tree))
}

/// The same for the text of a row.
fn judged_text(
    alloc: Global,
    table: &Table,
    row: &str,
    condition: &str,
) -> Result<&'static str, Fail> {
    let row = row_of(alloc, table, row)?;
    judged_by_text(alloc, table, &row, condition)
}

/// The commands are a row followed by a condition.
#[derive(Drop)]
struct Conditions {
    schema: Schema,
}

impl Scripted for Conditions {
    fn answer(&mut self, alloc: Global, command: &str) -> Result<String, Fail> {
        let (row, condition) = command.split_once(" ").ok_or("no condition")?;
        let table = self.schema.table("Port").ok_or("no table")?;
        let word = judged_text(alloc, table, row, condition)?;
        Ok(String::from_str(alloc, word)?)
    }
}

/// Runs a script of conditions.
fn are_judged(alloc: Global, script: &str) -> Result<(), Fail> {
    let schema = shapes(alloc)?;
    agrees(alloc, Conditions { schema }, script)
}

#[test]
fn numbers_stand_in_their_order(rt: HostRuntime) -> Result<(), Fail> {
    are_judged(rt.alloc(), NUMBERS)
}

#[test]
fn optional_numbers_stand_in_their_order(rt: HostRuntime) -> Result<(), Fail> {
    are_judged(rt.alloc(), OPTIONALS)
}

#[test]
fn sets_are_compared(rt: HostRuntime) -> Result<(), Fail> {
    are_judged(rt.alloc(), SETS)
}

#[test]
fn maps_are_compared(rt: HostRuntime) -> Result<(), Fail> {
    are_judged(rt.alloc(), MAPS)
}

#[test]
fn other_columns_are_compared(rt: HostRuntime) -> Result<(), Fail> {
    are_judged(rt.alloc(), OTHERS)
}

#[test]
fn conditions_are_refused_in_order(rt: HostRuntime) -> Result<(), Fail> {
    are_judged(rt.alloc(), REFUSED)
}
