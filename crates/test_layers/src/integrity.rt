//! What a commit makes of the rows that the operations left, and why it fails (RFC 7047, 3.2). A script has attempts as
//! `Attempts` shows them: if the store was asked, the outcome begins with `kept`. After each of them the database reports the
//! same references and indexes as one that is opened from its lines.

use crate::attempts::{Attempts, attempts_on};
use crate::looked::{Looked, looks};
use std::alloc::Global;
use std::test::Fail;
use test_basics::{Counter, NET, Scripted, agrees, follows, is_text};

/// Fails unless the attempts of a script have the outcomes that it lists, on a new database of this schema, and the database
/// reports the same references and indexes after them as when it is opened.
fn tries(alloc: Global, schema: &str, script: &str) -> Result<(), Fail> {
    agrees(alloc, attempts_on(alloc, schema)?, script)?;
    looks(alloc, schema, script)
}

/// A port goes if no other row refers to it strongly, in the transaction that inserts it or in a later one.
const UNREFERENCED: &str =
    r#"0 [{"op":"insert","table":"Port","row":{"name":"p1"}},{"op":"select","table":"Port","where":[],"columns":["name"]}] -> [{"uuid":["uuid","00000000-0000-4000-8000-000000000002"]},{"rows":[{"name":"p1"}]}]
0 [{"op":"insert","table":"Port","uuid-name":"p","row":{"peer":["named-uuid","p"]}}] -> [{"uuid":["uuid","00000000-0000-4000-8000-000000000004"]}]
0 [{"op":"insert","table":"Switch","row":{"main":["named-uuid","p"]}},{"op":"insert","table":"Port","uuid-name":"p","row":{"name":"p1"}}] -> kept [{"uuid":["uuid","00000000-0000-4000-8000-000000000006"]},{"uuid":["uuid","00000000-0000-4000-8000-000000000007"]}] 1
0 [{"op":"select","table":"Port","where":[],"columns":["name"]}] -> [{"rows":[]}]
0 [{"op":"update","table":"Switch","where":[],"row":{"ports":["set",[["named-uuid","p"],["named-uuid","q"]]]}},{"op":"insert","table":"Port","uuid-name":"p","row":{"name":"p1"}},{"op":"insert","table":"Port","uuid-name":"q","row":{"name":"p2"}}] -> kept [{"count":1},{"uuid":["uuid","00000000-0000-4000-8000-00000000000a"]},{"uuid":["uuid","00000000-0000-4000-8000-00000000000b"]}] 3
0 [{"op":"mutate","table":"Switch","where":[],"mutations":[["ports","delete",["uuid","00000000-0000-4000-8000-00000000000a"]]]}] -> kept [{"count":1}] 2
0 [{"op":"select","table":"Port","where":[],"columns":["name"]}] -> [{"rows":[{"name":"p2"}]}]
0 [{"op":"delete","table":"Switch","where":[]}] -> kept [{"count":1}] 2
0 [{"op":"select","table":"Port","where":[],"columns":["name"]}] -> [{"rows":[]}]"#;

#[test]
fn unreferenced_row_goes(rt: HostRuntime) -> Result<(), Fail> {
    tries(rt.alloc(), NET, UNREFERENCED)
}

/// A switch, its port, and the port that this one refers to.
const PEER_ATTEMPTS: &str =
    r#"0 [{"op":"insert","table":"Switch","row":{"name":"s1","ports":["named-uuid","p"]}},{"op":"insert","table":"Port","uuid-name":"p","row":{"name":"p1","peer":["named-uuid","q"]}},{"op":"insert","table":"Port","uuid-name":"q","row":{"name":"p2"}}] -> kept [{"uuid":["uuid","00000000-0000-4000-8000-000000000002"]},{"uuid":["uuid","00000000-0000-4000-8000-000000000003"]},{"uuid":["uuid","00000000-0000-4000-8000-000000000004"]}] 3
0 [{"op":"update","table":"Switch","where":[],"row":{"ports":["set",[]]}}] -> kept [{"count":1}] 3
0 [{"op":"select","table":"Port","where":[],"columns":["name"]}] -> [{"rows":[]}]"#;

#[test]
fn a_peer_goes_from_the_holders(rt: HostRuntime) -> Result<(), Fail> {
    tries(rt.alloc(), NET, PEER_ATTEMPTS)
}

/// Two ports that refer to each other stay until one of them no longer does.
const PEERS: &str =
    r#"0 [{"op":"insert","table":"Port","uuid-name":"p","row":{"name":"p1","peer":["named-uuid","q"]}},{"op":"insert","table":"Port","uuid-name":"q","row":{"name":"p2","peer":["named-uuid","p"]}}] -> kept [{"uuid":["uuid","00000000-0000-4000-8000-000000000002"]},{"uuid":["uuid","00000000-0000-4000-8000-000000000003"]}] 2
0 [{"op":"insert","table":"Switch","row":{"ports":["uuid","00000000-0000-4000-8000-000000000002"]}}] -> kept [{"uuid":["uuid","00000000-0000-4000-8000-000000000005"]}] 1
0 [{"op":"delete","table":"Switch","where":[]}] -> kept [{"count":1}] 1
0 [{"op":"select","table":"Port","where":[],"columns":["name"]}] -> [{"rows":[{"name":"p1"},{"name":"p2"}]}]
0 [{"op":"update","table":"Port","where":[["name","==","p2"]],"row":{"peer":["set",[]]}}] -> kept [{"count":1}] 2
0 [{"op":"select","table":"Port","where":[],"columns":["name"]}] -> [{"rows":[]}]"#;

#[test]
fn mutual_support_is_kept(rt: HostRuntime) -> Result<(), Fail> {
    tries(rt.alloc(), NET, PEERS)
}

/// No row may refer strongly to a missing row, not even a row that would go itself.
const STRONG: &str =
    r#"0 [{"op":"insert","table":"Switch","row":{"ports":["uuid","00000000-0000-4000-8000-000000000009"]}}] -> [{"uuid":["uuid","00000000-0000-4000-8000-000000000002"]},{"error":"referential integrity violation"}]
0 [{"op":"insert","table":"Port","row":{"peer":["uuid","00000000-0000-0000-0000-000000000000"]}}] -> [{"uuid":["uuid","00000000-0000-4000-8000-000000000004"]},{"error":"referential integrity violation"}]
0 [{"op":"insert","table":"Switch","row":{"name":"s1","ports":["named-uuid","p"]}},{"op":"insert","table":"Port","uuid-name":"p","row":{"name":"p1"}}] -> kept [{"uuid":["uuid","00000000-0000-4000-8000-000000000006"]},{"uuid":["uuid","00000000-0000-4000-8000-000000000007"]}] 2
0 [{"op":"delete","table":"Port","where":[]}] -> [{"count":1},{"error":"referential integrity violation"}]
0 [{"op":"update","table":"Switch","where":[],"row":{"ports":["uuid","00000000-0000-4000-8000-000000000006"]}}] -> [{"count":1},{"error":"referential integrity violation"}]
0 [{"op":"select","table":"Switch","where":[],"columns":["_version","ports"]},{"op":"select","table":"Port","where":[],"columns":["name"]}] -> [{"rows":[{"_version":["uuid","00000000-0000-4000-8000-000000000005"],"ports":["uuid","00000000-0000-4000-8000-000000000007"]}]},{"rows":[{"name":"p1"}]}]
0 [{"op":"delete","table":"Port","where":[]},{"op":"update","table":"Switch","where":[],"row":{"ports":["named-uuid","p"]}},{"op":"insert","table":"Port","uuid-name":"p","row":{"name":"p2"}}] -> kept [{"count":1},{"count":1},{"uuid":["uuid","00000000-0000-4000-8000-00000000000c"]}] 3"#;

#[test]
fn strong_reference_refused(rt: HostRuntime) -> Result<(), Fail> {
    tries(rt.alloc(), NET, STRONG)
}

/// Each switch loses the port that goes or is deleted, and has changed.
const WEAK: &str =
    r#"0 [{"op":"insert","table":"Switch","row":{"main":["named-uuid","p"],"name":"s1","ports":["named-uuid","p"]}},{"op":"insert","table":"Switch","row":{"main":["named-uuid","p"],"name":"s2"}},{"op":"insert","table":"Port","uuid-name":"p","row":{"name":"p1"}}] -> kept [{"uuid":["uuid","00000000-0000-4000-8000-000000000002"]},{"uuid":["uuid","00000000-0000-4000-8000-000000000003"]},{"uuid":["uuid","00000000-0000-4000-8000-000000000004"]}] 3
0 [{"op":"update","table":"Switch","where":[["name","==","s1"]],"row":{"ports":["set",[]]}}] -> kept [{"count":1}] 3
0 [{"op":"select","table":"Switch","where":[],"columns":["_version","main","name"]}] -> [{"rows":[{"_version":["uuid","00000000-0000-4000-8000-000000000005"],"main":["set",[]],"name":"s1"},{"_version":["uuid","00000000-0000-4000-8000-000000000005"],"main":["set",[]],"name":"s2"}]}]
0 [{"op":"insert","table":"Switch","row":{"main":["uuid","00000000-0000-0000-0000-000000000000"],"name":"s3"}}] -> kept [{"uuid":["uuid","00000000-0000-4000-8000-000000000008"]}] 1
0 [{"op":"select","table":"Switch","where":[["name","==","s3"]],"columns":["main"]}] -> [{"rows":[{"main":["set",[]]}]}]
0 [{"op":"insert","table":"Switch","row":{"main":["named-uuid","p"],"name":"s4","ports":["named-uuid","p"]}},{"op":"insert","table":"Port","uuid-name":"p","row":{"name":"p1"}}] -> kept [{"uuid":["uuid","00000000-0000-4000-8000-00000000000b"]},{"uuid":["uuid","00000000-0000-4000-8000-00000000000c"]}] 2
0 [{"op":"update","table":"Switch","where":[["name","==","s4"]],"row":{"ports":["set",[]]}},{"op":"delete","table":"Port","where":[]}] -> kept [{"count":1},{"count":1}] 2
0 [{"op":"select","table":"Switch","where":[["name","==","s4"]],"columns":["_version","main"]}] -> [{"rows":[{"_version":["uuid","00000000-0000-4000-8000-00000000000d"],"main":["set",[]]}]}]"#;

#[test]
fn weak_reference_removed(rt: HostRuntime) -> Result<(), Fail> {
    tries(rt.alloc(), NET, WEAK)
}

/// A weak reference to a missing row changes nothing, so the row keeps its version; beside another change it is no part of
/// it.
const UNDONE: &str =
    r#"0 [{"op":"insert","table":"Switch","row":{"name":"s1"}}] -> kept [{"uuid":["uuid","00000000-0000-4000-8000-000000000002"]}] 1
0 [{"op":"update","table":"Switch","where":[],"row":{"main":["uuid","00000000-0000-0000-0000-000000000000"]}}] -> [{"count":1}]
0 [{"op":"update","table":"Switch","where":[],"row":{"main":["named-uuid","p"]}},{"op":"insert","table":"Port","uuid-name":"p","row":{}}] -> [{"count":1},{"uuid":["uuid","00000000-0000-4000-8000-000000000005"]}]
0 [{"op":"select","table":"Switch","where":[],"columns":["_version","main"]}] -> [{"rows":[{"_version":["uuid","00000000-0000-4000-8000-000000000001"],"main":["set",[]]}]}]
0 [{"op":"update","table":"Switch","where":[],"row":{"load":5,"main":["uuid","00000000-0000-0000-0000-000000000000"]}}] -> kept [{"count":1}] 1
0 [{"op":"select","table":"Switch","where":[],"columns":["_version","load","main"]}] -> [{"rows":[{"_version":["uuid","00000000-0000-4000-8000-000000000007"],"load":5,"main":["set",[]]}]}]"#;

#[test]
fn a_change_that_a_rule_undoes_is_none(rt: HostRuntime) -> Result<(), Fail> {
    tries(rt.alloc(), NET, UNDONE)
}

/// A name that one switch has can't be given to another.
const UNIQUE: &str =
    r#"0 [{"op":"insert","table":"Switch","row":{"name":"s1"}},{"op":"insert","table":"Switch","row":{"name":"s2"}}] -> kept [{"uuid":["uuid","00000000-0000-4000-8000-000000000002"]},{"uuid":["uuid","00000000-0000-4000-8000-000000000003"]}] 2
0 [{"op":"insert","table":"Switch","row":{"name":"s1"}}] -> [{"uuid":["uuid","00000000-0000-4000-8000-000000000005"]},{"error":"constraint violation"}]
0 [{"op":"update","table":"Switch","where":[["name","==","s2"]],"row":{"name":"s1"}}] -> [{"count":1},{"error":"constraint violation"}]
0 [{"op":"update","table":"Switch","where":[],"row":{"name":"s3"}}] -> [{"count":2},{"error":"constraint violation"}]
0 [{"op":"select","table":"Switch","where":[],"columns":["_version","name"]}] -> [{"rows":[{"_version":["uuid","00000000-0000-4000-8000-000000000001"],"name":"s1"},{"_version":["uuid","00000000-0000-4000-8000-000000000001"],"name":"s2"}]}]
0 [{"op":"delete","table":"Switch","where":[["name","==","s1"]]}] -> kept [{"count":1}] 1
0 [{"op":"update","table":"Switch","where":[["name","==","s2"]],"row":{"name":"s1"}}] -> kept [{"count":1}] 1"#;

#[test]
fn index_is_unique(rt: HostRuntime) -> Result<(), Fail> {
    tries(rt.alloc(), NET, UNIQUE)
}

/// Nor can one name be given to two switches.
const EQUAL: &str =
    r#"0 [{"op":"insert","table":"Switch","row":{"name":"s1"}},{"op":"insert","table":"Switch","row":{"name":"s1"}}] -> [{"uuid":["uuid","00000000-0000-4000-8000-000000000002"]},{"uuid":["uuid","00000000-0000-4000-8000-000000000003"]},{"error":"constraint violation"}]
0 [{"op":"select","table":"Switch","where":[],"columns":["name"]}] -> [{"rows":[]}]"#;

#[test]
fn equal_names_in_one_transaction(rt: HostRuntime) -> Result<(), Fail> {
    tries(rt.alloc(), NET, EQUAL)
}

/// Names are compared at the commit, not before.
const SWAPPED: &str =
    r#"0 [{"op":"insert","table":"Switch","row":{"name":"s1"}},{"op":"insert","table":"Switch","row":{"name":"s2"}}] -> kept [{"uuid":["uuid","00000000-0000-4000-8000-000000000002"]},{"uuid":["uuid","00000000-0000-4000-8000-000000000003"]}] 2
0 [{"op":"update","table":"Switch","where":[["_uuid","==",["uuid","00000000-0000-4000-8000-000000000002"]]],"row":{"name":"s2"}},{"op":"update","table":"Switch","where":[["_uuid","==",["uuid","00000000-0000-4000-8000-000000000003"]]],"row":{"name":"s1"}}] -> kept [{"count":1},{"count":1}] 2
0 [{"op":"select","table":"Switch","where":[],"columns":["_uuid","name"]}] -> [{"rows":[{"_uuid":["uuid","00000000-0000-4000-8000-000000000002"],"name":"s2"},{"_uuid":["uuid","00000000-0000-4000-8000-000000000003"],"name":"s1"}]}]"#;

#[test]
fn names_swap_in_one_transaction(rt: HostRuntime) -> Result<(), Fail> {
    tries(rt.alloc(), NET, SWAPPED)
}

/// A name is free again in the transaction that deletes its switch.
const TAKEN_AGAIN: &str =
    r#"0 [{"op":"insert","table":"Switch","row":{"name":"s1"}}] -> kept [{"uuid":["uuid","00000000-0000-4000-8000-000000000002"]}] 1
0 [{"op":"delete","table":"Switch","where":[]},{"op":"insert","table":"Switch","row":{"name":"s1"}}] -> kept [{"count":1},{"uuid":["uuid","00000000-0000-4000-8000-000000000004"]}] 2
0 [{"op":"insert","table":"Switch","row":{"name":"s1"}},{"op":"delete","table":"Switch","where":[["_uuid","==",["uuid","00000000-0000-4000-8000-000000000004"]]]}] -> kept [{"uuid":["uuid","00000000-0000-4000-8000-000000000006"]},{"count":1}] 2
0 [{"op":"select","table":"Switch","where":[],"columns":["_uuid","name"]}] -> [{"rows":[{"_uuid":["uuid","00000000-0000-4000-8000-000000000006"],"name":"s1"}]}]"#;

#[test]
fn a_name_is_taken_again_in_one_transaction(rt: HostRuntime) -> Result<(), Fail> {
    tries(rt.alloc(), NET, TAKEN_AGAIN)
}

/// A missing row is reported before two equal names, and an operation's fault before both. A row that goes hides neither.
const FIRST: &str =
    r#"0 [{"op":"insert","table":"Switch","row":{"ports":["uuid","00000000-0000-0000-0000-000000000000"]}},{"op":"insert","table":"Switch","row":{}}] -> [{"uuid":["uuid","00000000-0000-4000-8000-000000000002"]},{"uuid":["uuid","00000000-0000-4000-8000-000000000003"]},{"error":"referential integrity violation"}]
0 [{"op":"insert","table":"Switch","row":{}},{"op":"insert","table":"Switch","row":{}},{"op":"insert","table":"Port","row":{"tag":4096}}] -> [{"uuid":["uuid","00000000-0000-4000-8000-000000000005"]},{"uuid":["uuid","00000000-0000-4000-8000-000000000006"]},{"error":"constraint violation"}]
0 [{"op":"insert","table":"Switch","row":{}},{"op":"insert","table":"Switch","row":{}},{"op":"insert","table":"Port","row":{}}] -> [{"uuid":["uuid","00000000-0000-4000-8000-000000000009"]},{"uuid":["uuid","00000000-0000-4000-8000-00000000000a"]},{"uuid":["uuid","00000000-0000-4000-8000-00000000000b"]},{"error":"constraint violation"}]"#;

#[test]
fn the_first_rule_that_is_broken_is_told(rt: HostRuntime) -> Result<(), Fail> {
    tries(rt.alloc(), NET, FIRST)
}

/// A table with an index over two columns, and one over a set.
const INDEXED: &str =
    r#"{"name":"Indexed","version":"1.0.0","tables":{"T":{"indexes":[["a","b"],["c"]],"columns":{
"a":{"type":"integer"},
"b":{"type":"string"},
"c":{"type":{"key":"integer","min":0,"max":"unlimited"}}}}}}"#;

/// Rows are equal in an index if all its columns are equal.
const INDEXES: &str =
    r#"0 [{"op":"insert","table":"T","row":{"a":1,"b":"x"}},{"op":"insert","table":"T","row":{"a":1,"b":"y","c":["set",[7,8]]}},{"op":"insert","table":"T","row":{"a":2,"b":"x","c":8}}] -> kept [{"uuid":["uuid","00000000-0000-4000-8000-000000000002"]},{"uuid":["uuid","00000000-0000-4000-8000-000000000003"]},{"uuid":["uuid","00000000-0000-4000-8000-000000000004"]}] 3
0 [{"op":"insert","table":"T","row":{"a":1,"b":"x","c":7}}] -> [{"uuid":["uuid","00000000-0000-4000-8000-000000000006"]},{"error":"constraint violation"}]
0 [{"op":"insert","table":"T","row":{"a":3,"b":"x","c":["set",[8,7]]}}] -> [{"uuid":["uuid","00000000-0000-4000-8000-000000000008"]},{"error":"constraint violation"}]
0 [{"op":"insert","table":"T","row":{"a":3,"b":"x"}}] -> [{"uuid":["uuid","00000000-0000-4000-8000-00000000000a"]},{"error":"constraint violation"}]
0 [{"op":"insert","table":"T","row":{"a":3,"b":"x","c":7}}] -> kept [{"uuid":["uuid","00000000-0000-4000-8000-00000000000c"]}] 1
0 [{"op":"update","table":"T","where":[["c","==",7]],"row":{"a":1}}] -> [{"count":1},{"error":"constraint violation"}]
0 [{"op":"mutate","table":"T","where":[],"mutations":[["a","+=",1]]}] -> kept [{"count":4}] 4"#;

#[test]
fn an_index_has_several_columns(rt: HostRuntime) -> Result<(), Fail> {
    tries(rt.alloc(), INDEXED, INDEXES)
}

/// Rows are shown once by the columns of an index and by one of them alone, even if changes of the transaction repeat what
/// another row has there.
const SHOWN: &str =
    r#"0 [{"op":"insert","table":"T","row":{"a":1,"b":"x","c":7}},{"op":"insert","table":"T","row":{"a":1,"b":"y","c":8}},{"op":"insert","table":"T","row":{"a":2,"b":"x","c":9}}] -> kept [{"uuid":["uuid","00000000-0000-4000-8000-000000000002"]},{"uuid":["uuid","00000000-0000-4000-8000-000000000003"]},{"uuid":["uuid","00000000-0000-4000-8000-000000000004"]}] 3
0 [{"op":"select","table":"T","where":[],"columns":["a","b"]},{"op":"select","table":"T","where":[],"columns":["c"]},{"op":"select","table":"T","where":[["b","==","x"]],"columns":["b","a","b"]}] -> [{"rows":[{"a":1,"b":"x"},{"a":1,"b":"y"},{"a":2,"b":"x"}]},{"rows":[{"c":7},{"c":8},{"c":9}]},{"rows":[{"a":1,"b":"x"},{"a":2,"b":"x"}]}]
0 [{"op":"select","table":"T","where":[],"columns":["a"]},{"op":"select","table":"T","where":[],"columns":["b"]},{"op":"select","table":"T","where":[["a","==",1]],"columns":["a"]}] -> [{"rows":[{"a":1},{"a":2}]},{"rows":[{"b":"x"},{"b":"y"}]},{"rows":[{"a":1}]}]
0 [{"op":"insert","table":"T","row":{"a":1,"b":"y"}},{"op":"select","table":"T","where":[],"columns":["a","b"]},{"op":"select","table":"T","where":[["a","==",1],["b","==","y"]],"columns":["a","b"]}] -> [{"uuid":["uuid","00000000-0000-4000-8000-000000000008"]},{"rows":[{"a":1,"b":"x"},{"a":1,"b":"y"},{"a":2,"b":"x"}]},{"rows":[{"a":1,"b":"y"}]},{"error":"constraint violation"}]
0 [{"op":"update","table":"T","where":[["c","==",9]],"row":{"a":1}},{"op":"select","table":"T","where":[],"columns":["a","b"]},{"op":"select","table":"T","where":[],"columns":["c"]}] -> [{"count":1},{"rows":[{"a":1,"b":"x"},{"a":1,"b":"y"}]},{"rows":[{"c":7},{"c":8},{"c":9}]},{"error":"constraint violation"}]
0 [{"op":"delete","table":"T","where":[["c","==",7]]},{"op":"insert","table":"T","row":{"a":1,"b":"x","c":7}},{"op":"select","table":"T","where":[],"columns":["a","b"]}] -> kept [{"count":1},{"uuid":["uuid","00000000-0000-4000-8000-00000000000b"]},{"rows":[{"a":1,"b":"y"},{"a":2,"b":"x"},{"a":1,"b":"x"}]}] 2"#;

#[test]
fn rows_alike_in_an_index_are_shown_once(rt: HostRuntime) -> Result<(), Fail> {
    tries(rt.alloc(), INDEXED, SHOWN)
}

/// A table of at most one row.
const ONE: &str =
    r#"{"name":"One","version":"1.0.0","tables":{"Switch":{"maxRows":1,"columns":{"name":{"type":"string"}}}}}"#;

/// A second row is refused, but one that replaces the first is accepted.
const ONE_ROW: &str =
    r#"0 [{"op":"insert","table":"Switch","row":{"name":"s1"}},{"op":"insert","table":"Switch","row":{"name":"s2"}}] -> [{"uuid":["uuid","00000000-0000-4000-8000-000000000002"]},{"uuid":["uuid","00000000-0000-4000-8000-000000000003"]},{"error":"constraint violation"}]
0 [{"op":"insert","table":"Switch","row":{"name":"s1"}}] -> kept [{"uuid":["uuid","00000000-0000-4000-8000-000000000005"]}] 1
0 [{"op":"insert","table":"Switch","row":{"name":"s2"}}] -> [{"uuid":["uuid","00000000-0000-4000-8000-000000000007"]},{"error":"constraint violation"}]
0 [{"op":"insert","table":"Switch","row":{"name":"s2"}},{"op":"delete","table":"Switch","where":[["name","==","s1"]]}] -> kept [{"uuid":["uuid","00000000-0000-4000-8000-000000000009"]},{"count":1}] 2"#;

#[test]
fn max_rows_holds(rt: HostRuntime) -> Result<(), Fail> {
    tries(rt.alloc(), ONE, ONE_ROW)
}

/// A table of at most one row, which goes if no row refers to it.
const FEW: &str = r#"{"name":"Few","version":"1.0.0","tables":{
"Leaf":{"maxRows":1,"indexes":[["n"]],"columns":{"n":{"type":"integer"}}},
"Top":{"isRoot":true,"columns":{"leaf":{"type":{"key":{"type":"uuid","refTable":"Leaf"},"min":0}}}}}}"#;

/// A row that goes is neither counted nor compared.
const COUNTED: &str =
    r#"0 [{"op":"insert","table":"Top","row":{"leaf":["named-uuid","a"]}},{"op":"insert","table":"Leaf","uuid-name":"a","row":{"n":1}},{"op":"insert","table":"Leaf","row":{"n":1}}] -> kept [{"uuid":["uuid","00000000-0000-4000-8000-000000000002"]},{"uuid":["uuid","00000000-0000-4000-8000-000000000003"]},{"uuid":["uuid","00000000-0000-4000-8000-000000000004"]}] 2
0 [{"op":"update","table":"Top","where":[],"row":{"leaf":["named-uuid","a"]}},{"op":"insert","table":"Leaf","uuid-name":"a","row":{"n":1}}] -> kept [{"count":1},{"uuid":["uuid","00000000-0000-4000-8000-000000000006"]}] 3
0 [{"op":"insert","table":"Top","row":{"leaf":["named-uuid","a"]}},{"op":"insert","table":"Leaf","uuid-name":"a","row":{"n":2}}] -> [{"uuid":["uuid","00000000-0000-4000-8000-000000000008"]},{"uuid":["uuid","00000000-0000-4000-8000-000000000009"]},{"error":"constraint violation"}]"#;

#[test]
fn rows_that_go_count_no_more(rt: HostRuntime) -> Result<(), Fail> {
    tries(rt.alloc(), FEW, COUNTED)
}

/// Roots that refer to nodes, by one identifier and by the keys and the values of maps; nodes that refer to a next one; and
/// watches, each of which refers weakly to one node at least.
const NODES: &str = r#"{"name":"Nodes","version":"1.0.0","tables":{
"Node":{"columns":{
"name":{"type":"string"},
"next":{"type":{"key":{"type":"uuid","refTable":"Node"},"min":0}}}},
"Root":{"isRoot":true,"columns":{
"by_key":{"type":{"key":{"type":"uuid","refTable":"Node"},"value":"integer","min":0,"max":"unlimited"}},
"by_value":{"type":{"key":"integer","value":{"type":"uuid","refTable":"Node"},"min":0,"max":"unlimited"}},
"first":{"type":{"key":{"type":"uuid","refTable":"Node"},"min":0}},
"weak_by_key":{"type":{"key":{"type":"uuid","refTable":"Node","refType":"weak"},"value":"integer","min":0,"max":"unlimited"}},
"weak_by_value":{"type":{"key":"integer","value":{"type":"uuid","refTable":"Node","refType":"weak"},"min":0,"max":"unlimited"}}}},
"Watch":{"isRoot":true,"columns":{
"some":{"type":{"key":{"type":"uuid","refTable":"Node","refType":"weak"},"max":"unlimited"}}}}}}"#;

/// The keys and the values of a map keep the rows that they refer to.
const STRONG_MAPS: &str =
    r#"0 [{"op":"insert","table":"Root","row":{"by_key":["map",[[["named-uuid","a"],5]]],"by_value":["map",[[6,["named-uuid","b"]],[7,["named-uuid","b"]]]]}},{"op":"insert","table":"Node","uuid-name":"a","row":{"name":"a"}},{"op":"insert","table":"Node","uuid-name":"b","row":{"name":"b"}},{"op":"insert","table":"Node","row":{"name":"c"}}] -> kept [{"uuid":["uuid","00000000-0000-4000-8000-000000000002"]},{"uuid":["uuid","00000000-0000-4000-8000-000000000003"]},{"uuid":["uuid","00000000-0000-4000-8000-000000000004"]},{"uuid":["uuid","00000000-0000-4000-8000-000000000005"]}] 3
0 [{"op":"delete","table":"Node","where":[["name","==","a"]]}] -> [{"count":1},{"error":"referential integrity violation"}]
0 [{"op":"delete","table":"Node","where":[["name","==","b"]]}] -> [{"count":1},{"error":"referential integrity violation"}]
0 [{"op":"mutate","table":"Root","where":[],"mutations":[["by_value","delete",["set",[6]]]]},{"op":"select","table":"Root","where":[],"columns":["by_value"]}] -> kept [{"count":1},{"rows":[{"by_value":["map",[[7,["uuid","00000000-0000-4000-8000-000000000004"]]]]}]}] 1
0 [{"op":"select","table":"Node","where":[],"columns":["name"]}] -> [{"rows":[{"name":"a"},{"name":"b"}]}]
0 [{"op":"update","table":"Root","where":[],"row":{"by_key":["map",[]],"by_value":["map",[]]}}] -> kept [{"count":1}] 3
0 [{"op":"select","table":"Node","where":[],"columns":["name"]}] -> [{"rows":[]}]
0 [{"op":"insert","table":"Root","row":{"by_key":["map",[[["uuid","00000000-0000-0000-0000-000000000000"],5]]]}}] -> [{"uuid":["uuid","00000000-0000-4000-8000-00000000000d"]},{"error":"referential integrity violation"}]
0 [{"op":"insert","table":"Root","row":{"by_value":["map",[[5,["uuid","00000000-0000-0000-0000-000000000000"]]]]}}] -> [{"uuid":["uuid","00000000-0000-4000-8000-00000000000f"]},{"error":"referential integrity violation"}]"#;

#[test]
fn maps_refer_strongly(rt: HostRuntime) -> Result<(), Fail> {
    tries(rt.alloc(), NODES, STRONG_MAPS)
}

/// A pair goes with the row that its key or its value refers to.
const WEAK_MAPS: &str =
    r#"0 [{"op":"insert","table":"Root","row":{"first":["named-uuid","a"],"weak_by_key":["map",[[["named-uuid","a"],5],[["named-uuid","b"],6]]],"weak_by_value":["map",[[7,["named-uuid","a"]],[8,["named-uuid","b"]],[9,["uuid","00000000-0000-0000-0000-000000000000"]]]]}},{"op":"insert","table":"Node","uuid-name":"a","row":{"name":"a"}},{"op":"insert","table":"Node","uuid-name":"b","row":{"name":"b"}}] -> kept [{"uuid":["uuid","00000000-0000-4000-8000-000000000002"]},{"uuid":["uuid","00000000-0000-4000-8000-000000000003"]},{"uuid":["uuid","00000000-0000-4000-8000-000000000004"]}] 2
0 [{"op":"select","table":"Root","where":[],"columns":["weak_by_key","weak_by_value"]}] -> [{"rows":[{"weak_by_key":["map",[[["uuid","00000000-0000-4000-8000-000000000003"],5]]],"weak_by_value":["map",[[7,["uuid","00000000-0000-4000-8000-000000000003"]]]]}]}]
0 [{"op":"update","table":"Root","where":[],"row":{"first":["set",[]]}}] -> kept [{"count":1}] 2
0 [{"op":"select","table":"Root","where":[],"columns":["weak_by_key","weak_by_value"]}] -> [{"rows":[{"weak_by_key":["map",[]],"weak_by_value":["map",[]]}]}]"#;

#[test]
fn maps_refer_weakly(rt: HostRuntime) -> Result<(), Fail> {
    tries(rt.alloc(), NODES, WEAK_MAPS)
}

/// Not even the removal of weak references may leave too few of them. The default of a watch refers to no row.
const LEAST: &str =
    r#"0 [{"op":"insert","table":"Watch","row":{"some":["set",[["named-uuid","a"],["named-uuid","b"]]]}},{"op":"insert","table":"Root","row":{"first":["named-uuid","a"]}},{"op":"insert","table":"Node","uuid-name":"a","row":{"name":"a"}},{"op":"insert","table":"Node","uuid-name":"b","row":{"name":"b"}}] -> kept [{"uuid":["uuid","00000000-0000-4000-8000-000000000002"]},{"uuid":["uuid","00000000-0000-4000-8000-000000000003"]},{"uuid":["uuid","00000000-0000-4000-8000-000000000004"]},{"uuid":["uuid","00000000-0000-4000-8000-000000000005"]}] 3
0 [{"op":"select","table":"Watch","where":[],"columns":["some"]}] -> [{"rows":[{"some":["uuid","00000000-0000-4000-8000-000000000004"]}]}]
0 [{"op":"update","table":"Root","where":[],"row":{"first":["set",[]]}}] -> [{"count":1},{"error":"constraint violation"}]
0 [{"op":"insert","table":"Watch","row":{}}] -> [{"uuid":["uuid","00000000-0000-4000-8000-000000000009"]},{"error":"constraint violation"}]
0 [{"op":"update","table":"Root","where":[],"row":{"first":["set",[]]}},{"op":"delete","table":"Watch","where":[]}] -> kept [{"count":1},{"count":1}] 3"#;

#[test]
fn a_weak_set_keeps_its_least(rt: HostRuntime) -> Result<(), Fail> {
    tries(rt.alloc(), NODES, LEAST)
}

/// Two or three nodes in a cycle keep each other; a single node does not keep itself. A broken cycle falls.
const CYCLES: &str =
    r#"0 [{"op":"insert","table":"Node","uuid-name":"a","row":{"name":"a","next":["named-uuid","b"]}},{"op":"insert","table":"Node","uuid-name":"b","row":{"name":"b","next":["named-uuid","a"]}}] -> kept [{"uuid":["uuid","00000000-0000-4000-8000-000000000002"]},{"uuid":["uuid","00000000-0000-4000-8000-000000000003"]}] 2
0 [{"op":"insert","table":"Node","uuid-name":"c","row":{"name":"c","next":["named-uuid","d"]}},{"op":"insert","table":"Node","uuid-name":"d","row":{"name":"d","next":["named-uuid","e"]}},{"op":"insert","table":"Node","uuid-name":"e","row":{"name":"e","next":["named-uuid","c"]}}] -> kept [{"uuid":["uuid","00000000-0000-4000-8000-000000000005"]},{"uuid":["uuid","00000000-0000-4000-8000-000000000006"]},{"uuid":["uuid","00000000-0000-4000-8000-000000000007"]}] 3
0 [{"op":"insert","table":"Node","uuid-name":"f","row":{"name":"f","next":["named-uuid","f"]}}] -> [{"uuid":["uuid","00000000-0000-4000-8000-000000000009"]}]
0 [{"op":"select","table":"Node","where":[],"columns":["name"]}] -> [{"rows":[{"name":"a"},{"name":"b"},{"name":"c"},{"name":"d"},{"name":"e"}]}]
0 [{"op":"delete","table":"Node","where":[["name","==","a"]]}] -> [{"count":1},{"error":"referential integrity violation"}]
0 [{"op":"update","table":"Node","where":[["name","==","e"]],"row":{"next":["set",[]]}}] -> kept [{"count":1}] 3
0 [{"op":"select","table":"Node","where":[],"columns":["name"]}] -> [{"rows":[{"name":"a"},{"name":"b"}]}]
0 [{"op":"delete","table":"Node","where":[]}] -> kept [{"count":2}] 2"#;

#[test]
fn cycles_of_two_and_three_stay_and_one_goes(rt: HostRuntime) -> Result<(), Fail> {
    tries(rt.alloc(), NODES, CYCLES)
}

/// The insert of the node after number `former`, which refers to that one.
fn next_node(alloc: Global, former: u64) -> Result<String, Fail> {
    let number = former.saturating_add(1);
    Ok(format!(in alloc;
        r#"{{"op":"insert","table":"Node","uuid-name":"n{number}","row":{{"next":["named-uuid","n{former}"]}}}}"#
    )?)
}

/// The inserts of `last` nodes after a first one.
fn next_nodes(alloc: Global, last: u64) -> Result<String, Fail> {
    let mut text = String::new(alloc);
    for former in 0..last {
        text.push_str(next_node(alloc, former)?.as_str())?;
        text.push_str(",")?;
    }
    Ok(text)
}

/// An attempt that inserts a first node, `last` more, and a root that refers to the last of them.
fn chain(alloc: Global, last: u64) -> Result<String, Fail> {
    let nodes = next_nodes(alloc, last)?;
    Ok(format!(in alloc;
        r#"0 [{{"op":"insert","table":"Node","uuid-name":"n0","row":{{}}}},{nodes}{{"op":"insert","table":"Root","row":{{"first":["named-uuid","n{last}"]}}}}]"#
    )?)
}

/// The thousand nodes of a chain go in one commit.
const FALLEN: &str = r#"0 [{"op":"update","table":"Node","where":[],"row":{}}] -> [{"count":1000}]
0 [{"op":"update","table":"Root","where":[],"row":{"first":["set",[]]}}] -> kept [{"count":1}] 1001
0 [{"op":"select","table":"Node","where":[],"columns":["name"]}] -> [{"rows":[]}]"#;

/// Inserts the chain.
fn insert_chain(alloc: Global, attempts: &mut Attempts<Counter>) -> Result<(), Fail> {
    let chain = chain(alloc, 999)?;
    attempts.answer(alloc, chain.as_str())?;
    Ok(())
}

/// Fails unless the chain falls as the script says.
fn falls(alloc: Global, attempts: &mut Attempts<Counter>) -> Result<(), Fail> {
    insert_chain(alloc, attempts)?;
    follows(alloc, attempts, FALLEN)
}

#[test]
fn a_chain_falls_together(rt: HostRuntime) -> Result<(), Fail> {
    let mut attempts = attempts_on(rt.alloc(), NODES)?;
    falls(rt.alloc(), &mut attempts)
}

/// Two switches of which the first refers to a port strongly, and both weakly, and the port refers to itself; then the second
/// switch alone, which refers to it in both ways and has another name.
const HELD: [&str; 2] = [
    r#"0 [{"op":"insert","table":"Switch","row":{"main":["named-uuid","p"],"name":"s1","ports":["named-uuid","p"]}},{"op":"insert","table":"Switch","row":{"main":["named-uuid","p"],"name":"s2"}},{"op":"insert","table":"Port","uuid-name":"p","row":{"name":"p1","peer":["named-uuid","p"]}}]"#,
    r#"0 [{"op":"delete","table":"Switch","where":[["name","==","s1"]]},{"op":"update","table":"Switch","where":[],"row":{"name":"s3","ports":["uuid","00000000-0000-4000-8000-000000000004"]}}]"#,
];

/// What the database reports of the port, of both switches, and of the names s1 and s2; then of s3 too.
const HELD_TOLD: [&str; 2] = [
    "Port 00000000-0000-4000-8000-000000000004 1 Switch 00000000-0000-4000-8000-000000000002 Switch 00000000-0000-4000-8000-000000000003
Switch 00000000-0000-4000-8000-000000000002 0
Switch 00000000-0000-4000-8000-000000000003 0
Switch index 0 00000000-0000-4000-8000-000000000002
Switch index 0 00000000-0000-4000-8000-000000000003
",
    "Port 00000000-0000-4000-8000-000000000004 1 Switch 00000000-0000-4000-8000-000000000003
Switch 00000000-0000-4000-8000-000000000002 0
Switch 00000000-0000-4000-8000-000000000003 0
Switch index 0
Switch index 0
Switch index 0 00000000-0000-4000-8000-000000000003
",
];

/// Fails unless the database reports this after a step.
fn tells_after(alloc: Global, looked: &mut Looked, step: &str, wanted: &str) -> Result<(), Fail> {
    looked.look(alloc, step)?;
    let told = looked.told(alloc)?;
    is_text(alloc, told.as_str(), wanted)
}

/// The same for each of the two steps.
fn tells_after_both(alloc: Global, looked: &mut Looked) -> Result<(), Fail> {
    tells_after(alloc, looked, HELD[0], HELD_TOLD[0])?;
    tells_after(alloc, looked, HELD[1], HELD_TOLD[1])
}

#[test]
fn holders_and_the_row_of_an_index_are_told(rt: HostRuntime) -> Result<(), Fail> {
    let mut looked = Looked::new(rt.alloc(), NET)?;
    tells_after_both(rt.alloc(), &mut looked)
}

/// A root that names one node in the keys of a map, twice in the values of another, and in a column of its own; then a second
/// root that names it too; then the first one alone, which names it once.
const REFERRING: [&str; 3] = [
    r#"0 [{"op":"insert","table":"Root","row":{"first":["named-uuid","a"],"by_key":["map",[[["named-uuid","a"],5]]],"by_value":["map",[[6,["named-uuid","a"]],[7,["named-uuid","a"]]]]}},{"op":"insert","table":"Node","uuid-name":"a","row":{"name":"a"}}]"#,
    r#"0 [{"op":"insert","table":"Root","row":{"first":["uuid","00000000-0000-4000-8000-000000000003"]}}]"#,
    r#"0 [{"op":"update","table":"Root","where":[],"row":{"by_key":["map",[]],"by_value":["map",[]]}},{"op":"delete","table":"Root","where":[["_uuid","==",["uuid","00000000-0000-4000-8000-000000000005"]]]}]"#,
];

/// How many strong references lead to the node after each step, and to the roots.
const REFERENCES: [&str; 3] = [
    "Node 00000000-0000-4000-8000-000000000003 4
Root 00000000-0000-4000-8000-000000000002 0
",
    "Node 00000000-0000-4000-8000-000000000003 5
Root 00000000-0000-4000-8000-000000000002 0
Root 00000000-0000-4000-8000-000000000005 0
",
    "Node 00000000-0000-4000-8000-000000000003 1
Root 00000000-0000-4000-8000-000000000002 0
Root 00000000-0000-4000-8000-000000000005 0
",
];

/// Fails unless the counts are as wanted after each of the steps.
fn counts_after_all(alloc: Global, looked: &mut Looked) -> Result<(), Fail> {
    tells_after(alloc, looked, REFERRING[0], REFERENCES[0])?;
    tells_after(alloc, looked, REFERRING[1], REFERENCES[1])?;
    tells_after(alloc, looked, REFERRING[2], REFERENCES[2])
}

#[test]
fn each_strong_reference_is_counted(rt: HostRuntime) -> Result<(), Fail> {
    let mut looked = Looked::new(rt.alloc(), NODES)?;
    counts_after_all(rt.alloc(), &mut looked)
}
