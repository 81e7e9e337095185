use crate::shapes::{shapes, value_of};
use ov_atoms::{Datum, NoNames, write_datum};
use ov_mutate::{MutateFault, Mutation, MutationFault};
use ov_schema::{Schema, Table};
use serde_json::Value;
use std::alloc::Global;
use std::test::Fail;
use test_basics::{Scripted, agrees};

/// A scalar is computed within 64 bits. Division truncates toward zero, and a remainder has the dividend's sign.
const NUMBERS: &str = r#"6 ["load","+=",2] -> 8
6 ["load","+=",["set",[2,2]]] -> 8
-1 ["load","+=",3] -> 2
6 ["load","-=",8] -> -2
4 ["load","*=",-3] -> -12
-4 ["load","*=",-3] -> 12
-7 ["load","/=",2] -> -3
7 ["load","/=",-2] -> -3
-7 ["load","%=",2] -> -1
7 ["load","%=",-2] -> 1
7 ["load","/=",0] -> domain
7 ["load","%=",0] -> domain
5 ["tag","+=",1] -> 6
8 ["digit","+=",1] -> 9
9 ["digit","+=",1] -> constraint
-9 ["digit","-=",1] -> constraint
9 ["digit","*=",9223372036854775807] -> range"#;

/// Both ends of the 64-bit range.
const BORDERS: &str = r#"9223372036854775806 ["load","+=",1] -> 9223372036854775807
9223372036854775807 ["load","+=",1] -> range
-9223372036854775807 ["load","+=",-1] -> -9223372036854775808
-9223372036854775808 ["load","+=",-1] -> range
-9223372036854775808 ["load","+=",9223372036854775807] -> -1
-9223372036854775807 ["load","-=",1] -> -9223372036854775808
-9223372036854775808 ["load","-=",1] -> range
9223372036854775807 ["load","-=",-1] -> range
-1 ["load","-=",-9223372036854775808] -> 9223372036854775807
0 ["load","-=",-9223372036854775808] -> range
4611686018427387904 ["load","*=",2] -> range
4611686018427387904 ["load","*=",-2] -> -9223372036854775808
9223372036854775807 ["load","*=",-1] -> -9223372036854775807
-9223372036854775808 ["load","*=",-1] -> range
-9223372036854775808 ["load","/=",-1] -> range
-9223372036854775808 ["load","/=",1] -> -9223372036854775808
9223372036854775807 ["load","/=",-1] -> -9223372036854775807
-9223372036854775808 ["load","%=",-1] -> 0
-9223372036854775808 ["load","%=",9223372036854775807] -> -1
9223372036854775807 ["load","%=",-9223372036854775808] -> 9223372036854775807"#;

/// Each number of a set is computed; results that coincide are refused, and an empty set may be divided by zero.
const COMPUTED_SETS: &str = r#"["set",[1,2]] ["tags","+=",10] -> ["set",[11,12]]
["set",[1,2]] ["tags","+=",["set",[10]]] -> ["set",[11,12]]
["set",[1,2]] ["tags","*=",-1] -> ["set",[-2,-1]]
["set",[1,2]] ["tags","*=",0] -> constraint
["set",[2,3]] ["tags","/=",2] -> constraint
["set",[2,3]] ["tags","%=",2] -> ["set",[0,1]]
["set",[1,3]] ["tags","%=",2] -> constraint
["set",[1,2]] ["tags","%=",0] -> domain
["set",[]] ["tags","/=",0] -> ["set",[]]
["set",[]] ["tags","%=",0] -> ["set",[]]
["set",[]] ["tag","+=",1] -> ["set",[]]
["set",[2,3]] ["tags","*=",9223372036854775807] -> range
["set",[0,9223372036854775807]] ["tags","+=",1] -> range
["set",[8,9]] ["digits","+=",1] -> constraint
["set",[1,9]] ["digits","*=",9223372036854775807] -> range
["set",[1,2,3]] ["digits","-=",4] -> ["set",[-3,-2,-1]]"#;

/// Unions and differences of sets, if they fit the column.
const SETS: &str = r#"["set",[1,2]] ["tags","insert",["set",[2,3]]] -> ["set",[1,2,3]]
["set",[]] ["tags","insert",7] -> 7
["set",[1,2]] ["tags","insert",["set",[]]] -> ["set",[1,2]]
5 ["tag","insert",5] -> 5
5 ["tag","insert",6] -> constraint
["set",[1,2,3]] ["digits","insert",["set",[3,1]]] -> ["set",[1,2,3]]
["set",[1,2,3]] ["digits","insert",4] -> constraint
["set",[1,2]] ["digits","insert",10] -> constraint
["set",[1,2]] ["tags","delete",["set",[2,3]]] -> 1
["set",[1,2]] ["tags","delete",["set",[]]] -> ["set",[1,2]]
["set",[1,2]] ["tags","delete",["set",[0,1,2]]] -> ["set",[]]
["set",[1,2]] ["digits","delete",["set",[1,2]]] -> constraint
5 ["tag","delete",5] -> ["set",[]]
["set",["a","b"]] ["names","insert","ab"] -> ["set",["a","ab","b"]]
["set",["a","b"]] ["names","delete","b"] -> "a"
true ["flags","insert",false] -> ["set",[false,true]]
["set",[]] ["peers","insert",["uuid","00000000-0000-4000-8000-0000000000ab"]] -> ["uuid","00000000-0000-4000-8000-0000000000ab"]"#;

/// An insert keeps the value of an existing key; a delete removes equal pairs, or the pairs with these keys.
const MAPS: &str =
    r#"["map",[["a",1]]] ["counts","insert",["map",[["a",5],["b",2]]]] -> ["map",[["a",1],["b",2]]]
["map",[["b",2]]] ["counts","insert",["map",[["c",3],["a",1]]]] -> ["map",[["a",1],["b",2],["c",3]]]
["map",[]] ["counts","insert",["map",[]]] -> ["map",[]]
["map",[["a",1],["b",2]]] ["counts","delete",["map",[["a",1]]]] -> ["map",[["b",2]]]
["map",[["a",1],["b",2]]] ["counts","delete",["map",[["a",5]]]] -> ["map",[["a",1],["b",2]]]
["map",[["a",1],["b",2]]] ["counts","delete",["set",["a"]]] -> ["map",[["b",2]]]
["map",[["a",1],["b",2]]] ["counts","delete","b"] -> ["map",[["a",1]]]
["map",[["a",1],["b",2]]] ["counts","delete",["set",[]]] -> ["map",[["a",1],["b",2]]]
["map",[["a",1],["b",2]]] ["counts","delete",["set",["a","b","c"]]] -> ["map",[]]
["map",[["a",1]]] ["few","insert",["map",[["a",10]]]] -> ["map",[["a",1]]]
["map",[["a",1]]] ["few","insert",["map",[["b",10]]]] -> constraint
["map",[["a",1],["b",2]]] ["few","insert",["map",[["c",3]]]] -> constraint
["map",[["a",1]]] ["few","delete","a"] -> constraint"#;

/// A mutation is refused for its shape, its column, a column that is not mutable, its mutator or its value, in this order.
const REFUSED: &str = r#"null {} -> syntax
null ["load","+="] -> syntax
null ["load","+=",2,2] -> syntax
null [1,"+=",2] -> syntax
null ["nowhere",1,2] -> syntax
null ["nowhere","++",2] -> column
null ["fixed","++",2] -> fixed
null ["_uuid","++",2] -> fixed
null ["_version","insert","a"] -> fixed
null ["load","++","a"] -> syntax
null ["load","insert",2] -> syntax
null ["load","delete",2] -> syntax
null ["name","insert","a"] -> syntax
null ["flag","delete",true] -> syntax
null ["name","+=",2] -> syntax
null ["names","+=",2] -> syntax
null ["flags","*=",2] -> syntax
null ["peers","-=",2] -> syntax
null ["counts","+=",2] -> syntax
null ["counts","%=",["map",[]]] -> syntax
null ["load","+=","a"] -> syntax
null ["load","+=",["set",[1,2]]] -> syntax
null ["tags","+=",["set",[1,2]]] -> syntax
null ["tags","+=",["set",[]]] -> syntax
null ["load","+=",9223372036854775808] -> syntax
null ["tags","insert","a"] -> syntax
null ["tags","delete",["map",[]]] -> syntax
null ["counts","insert",["set",["a"]]] -> syntax
null ["counts","insert",["map",[["a",1],["a",5]]]] -> clash
null ["counts","insert",["map",[["a",1],["a",5],[1,1]]]] -> syntax
null ["counts","delete",["map",[["a",1],["a",5]]]] -> clash
null ["counts","delete",["map",["a"]]] -> syntax
null ["counts","delete",1] -> syntax"#;

/// The text of a value.
fn written(alloc: Global, datum: &Datum) -> Result<String, Fail> {
    Ok(write_datum(alloc, datum)?.to_string(alloc)?)
}

/// The word for a fault of a value.
fn fault_of_value(fault: MutateFault) -> &'static str {
    match fault {
        MutateFault::Domain => "domain",
        MutateFault::Range => "range",
        MutateFault::Constraint => "constraint",
        MutateFault::Memory => "memory",
    }
}

/// The text of what a mutation makes of a value of its column, or the word for its fault.
fn changed(alloc: Global, mutation: &Mutation<'_>, before: &Datum) -> Result<String, Fail> {
    match mutation.mutate(alloc, before) {
        Ok(datum) => written(alloc, &datum),
        Err(fault) => Ok(String::from_str(alloc, fault_of_value(fault))?),
    }
}

/// The same for the tree of a value.
fn changed_tree(
    alloc: Global,
    table: &Table,
    mutation: &Mutation<'_>,
    tree: &Value,
) -> Result<String, Fail> {
    let before = value_of(alloc, table, mutation.column(), tree)?;
    changed(alloc, mutation, &before)
}

/// The same for the text of a value.
fn changed_text(
    alloc: Global,
    table: &Table,
    mutation: &Mutation<'_>,
    before: &str,
) -> Result<String, Fail> {
    let tree = Value::from_str(alloc, before)?;
    changed_tree(alloc, table, mutation, &tree)
}

/// The word for a fault of a mutation.
fn fault_of_mutation(fault: MutationFault) -> &'static str {
    match fault {
        MutationFault::Syntax => "syntax",
        MutationFault::UnknownColumn => "column",
        MutationFault::Clash => "clash",
        MutationFault::NotMutable => "fixed",
        MutationFault::Memory => "memory",
    }
}

/// The text of what the mutation of a tree makes of a value, or the word for its fault.
fn applied(alloc: Global, table: &Table, tree: &Value, before: &str) -> Result<String, Fail> {
    match Mutation::read(alloc, table, tree, &NoNames) {
        Ok(mutation) => changed_text(alloc, table, &mutation, before),
        Err(fault) => Ok(String::from_str(alloc, fault_of_mutation(fault))?),
    }
}

/// The commands are a value followed by a mutation.
#[derive(Drop)]
struct Mutations {
    schema: Schema,
}

impl Scripted for Mutations {
    fn answer(&mut self, alloc: Global, command: &str) -> Result<String, Fail> {
        let (before, mutation) = command.split_once(" ").ok_or("no mutation")?;
        let table = self.schema.table("Port").ok_or("no table")?;
        let tree = Value::from_str(alloc, mutation)?;
        applied(alloc, table, &tree, before)
    }
}

/// Runs a script of mutations.
fn are_applied(alloc: Global, script: &str) -> Result<(), Fail> {
    let schema = shapes(alloc)?;
    agrees(alloc, Mutations { schema }, script)
}

#[test]
fn numbers_are_computed(rt: HostRuntime) -> Result<(), Fail> {
    are_applied(rt.alloc(), NUMBERS)
}

#[test]
fn numbers_have_64_bits(rt: HostRuntime) -> Result<(), Fail> {
    are_applied(rt.alloc(), BORDERS)
}

#[test]
fn sets_are_computed(rt: HostRuntime) -> Result<(), Fail> {
    are_applied(rt.alloc(), COMPUTED_SETS)
}

#[test]
fn sets_gain_and_lose(rt: HostRuntime) -> Result<(), Fail> {
    are_applied(rt.alloc(), SETS)
}

#[test]
fn maps_gain_and_lose(rt: HostRuntime) -> Result<(), Fail> {
    are_applied(rt.alloc(), MAPS)
}

#[test]
fn mutations_are_refused_in_order(rt: HostRuntime) -> Result<(), Fail> {
    are_applied(rt.alloc(), REFUSED)
}
