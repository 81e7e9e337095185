use crate::server::{converses, converses_over};
use std::test::Fail;
use test_basics::Faults;

/// A transaction without operations, an insert, and a select of all columns.
const INSERTED: &str = r#">{"id":0,"method":"transact","params":["Net"]}
<{"error":null,"id":0,"result":[]}
>{"id":1,"method":"transact","params":["Net",{"op":"insert","table":"Switch","row":{"name":"s1"}}]}
<{"error":null,"id":1,"result":[{"uuid":["uuid","00000000-0000-4000-8000-000000000003"]}]}
>{"id":2,"method":"transact","params":["Net",{"op":"select","table":"Switch","where":[]}]}
<{"error":null,"id":2,"result":[{"rows":[{"_uuid":["uuid","00000000-0000-4000-8000-000000000003"],"_version":["uuid","00000000-0000-4000-8000-000000000002"],"load":0,"main":["set",[]],"name":"s1","ports":["set",[]]}]}]}"#;

/// A chosen identifier is used, and the draw for its insert is made all the same. It is free again in a later transaction.
const CHOSEN: &str =
    r#">{"id":1,"method":"transact","params":["Net",{"op":"insert","table":"Switch","uuid":"00000000-0000-4000-9000-000000000001","row":{"name":"s1"}}]}
<{"error":null,"id":1,"result":[{"uuid":["uuid","00000000-0000-4000-9000-000000000001"]}]}
>{"id":2,"method":"transact","params":["Net",{"op":"insert","table":"Switch","uuid":"00000000-0000-4000-9000-000000000001","row":{"name":"s2"}}]}
<{"error":null,"id":2,"result":[{"error":"duplicate uuid"}]}
>{"id":3,"method":"transact","params":["Net",{"op":"delete","table":"Switch","where":[]},{"op":"insert","table":"Switch","uuid":"00000000-0000-4000-9000-000000000001","row":{"name":"s1"}}]}
<{"error":null,"id":3,"result":[{"count":1},{"error":"duplicate uuid"}]}
>{"id":4,"method":"transact","params":["Net",{"op":"select","table":"Switch","where":[],"columns":["_uuid","name"]}]}
<{"error":null,"id":4,"result":[{"rows":[{"_uuid":["uuid","00000000-0000-4000-9000-000000000001"],"name":"s1"}]}]}
>{"id":5,"method":"transact","params":["Net",{"op":"delete","table":"Switch","where":[]}]}
<{"error":null,"id":5,"result":[{"count":1}]}
>{"id":6,"method":"transact","params":["Net",{"op":"insert","table":"Switch","uuid":"00000000-0000-4000-9000-000000000001","row":{"name":"s1"}}]}
<{"error":null,"id":6,"result":[{"uuid":["uuid","00000000-0000-4000-9000-000000000001"]}]}
>{"id":7,"method":"transact","params":["Net",{"op":"insert","table":"Switch","row":{"name":"s2"}}]}
<{"error":null,"id":7,"result":[{"uuid":["uuid","00000000-0000-4000-8000-00000000000c"]}]}"#;

/// A relation on a column of at most one integer holds for the port with a lesser tag, and not for the one without a tag.
const RELATED: &str =
    r#">{"id":1,"method":"transact","params":["Net",{"op":"insert","table":"Port","uuid-name":"a","row":{"name":"a","tag":5}},{"op":"insert","table":"Port","uuid-name":"b","row":{"name":"b"}},{"op":"insert","table":"Switch","row":{"name":"s1","ports":["set",[["named-uuid","a"],["named-uuid","b"]]]}}]}
<{"error":null,"id":1,"result":[{"uuid":["uuid","00000000-0000-4000-8000-000000000002"]},{"uuid":["uuid","00000000-0000-4000-8000-000000000003"]},{"uuid":["uuid","00000000-0000-4000-8000-000000000004"]}]}
>{"id":2,"method":"transact","params":["Net",{"op":"select","table":"Port","where":[["tag","<",10]],"columns":["name"]}]}
<{"error":null,"id":2,"result":[{"rows":[{"name":"a"}]}]}"#;

/// After the operation that fails the results are null, and the table is as before. An identifier was drawn even for the
/// insert that was not performed.
const UNDONE: &str =
    r#">{"id":1,"method":"transact","params":["Net",{"op":"insert","table":"Switch","row":{"name":"s1"}},{"op":"select","table":"Swich","where":[],"columns":[]},{"op":"insert","table":"Switch","row":{"name":"s2"}}]}
<{"error":null,"id":1,"result":[{"uuid":["uuid","00000000-0000-4000-8000-000000000002"]},{"error":"unknown table"},null]}
>{"id":2,"method":"transact","params":["Net",{"op":"select","table":"Switch","where":[],"columns":["name"]}]}
<{"error":null,"id":2,"result":[{"rows":[]}]}
>{"id":3,"method":"transact","params":["Net",{"op":"insert","table":"Switch","row":{"name":"s3"}}]}
<{"error":null,"id":3,"result":[{"uuid":["uuid","00000000-0000-4000-8000-000000000006"]}]}"#;

/// If a member is repeated the last one counts. Unknown members are ignored.
const REPEATED: &str =
    r#">{"id":1,"method":"transact","params":["Net",{"op":"insert","table":"Swich","table":"Switch","row":{"name":"a","name":"b"},"colour":1}]}
<{"error":null,"id":1,"result":[{"uuid":["uuid","00000000-0000-4000-8000-000000000002"]}]}
>{"id":2,"method":"transact","params":["Net",{"op":"select","table":"Switch","where":[],"columns":["name"]}]}
<{"error":null,"id":2,"result":[{"rows":[{"name":"b"}]}]}"#;

/// Nothing is drawn for a transaction that is not tried.
const PARAMS: &str = r#">{"id":1,"method":"transact","params":[]}
<{"error":"syntax error","id":1,"result":null}
>{"id":2,"method":"transact","params":[1]}
<{"error":"syntax error","id":2,"result":null}
>{"id":3,"method":"transact","params":[null,{"op":"insert","table":"Switch","row":{"name":"s1"}}]}
<{"error":"syntax error","id":3,"result":null}
>{"id":4,"method":"transact","params":["net",{"op":"insert","table":"Switch","row":{"name":"s1"}}]}
<{"error":"unknown database","id":4,"result":null}
>{"id":5,"method":"transact","params":["Net",1]}
<{"error":null,"id":5,"result":[{"error":"syntax error"}]}
>{"id":6,"method":"transact","params":["Net",{"op":"insert","table":"Switch","row":{"name":"s1"}}]}
<{"error":null,"id":6,"result":[{"uuid":["uuid","00000000-0000-4000-8000-000000000003"]}]}"#;

/// Refused operations change nothing.
const REFUSED: &str =
    r#">{"id":1,"method":"transact","params":["Net",{"op":"erase"},{"op":"insert","table":"Switch","row":{"name":"s1"}}]}
<{"error":null,"id":1,"result":[{"error":"unknown operation"},null]}
>{"id":2,"method":"transact","params":["Net",{"op":"select","table":"Swich","where":[],"columns":["name"]}]}
<{"error":null,"id":2,"result":[{"error":"unknown table"}]}
>{"id":3,"method":"transact","params":["Net",{"op":"select","table":"Switch","where":[],"columns":["nam"]}]}
<{"error":null,"id":3,"result":[{"error":"unknown column"}]}
>{"id":4,"method":"transact","params":["Net",{"op":"insert","table":"Port","row":{"tag":4096}}]}
<{"error":null,"id":4,"result":[{"error":"constraint violation"}]}
>{"id":5,"method":"transact","params":["Net",{"op":"insert","table":"Port","row":{"tag":["set",[1,2]]}}]}
<{"error":null,"id":5,"result":[{"error":"constraint violation"}]}
>{"id":6,"method":"transact","params":["Net",{"op":"insert","table":"Port","row":{"tag":"x"}}]}
<{"error":null,"id":6,"result":[{"error":"syntax error"}]}
>{"id":7,"method":"transact","params":["Net",{"op":"select","table":"Port","where":[],"columns":["name"]}]}
<{"error":null,"id":7,"result":[{"rows":[]}]}"#;

/// The device fails at the second commit. Nothing more is committed then, but transactions that change nothing are still
/// answered, by what was committed before.
const SEALED: &str =
    r#">{"id":1,"method":"transact","params":["Net",{"op":"insert","table":"Switch","row":{"name":"s1"}}]}
<{"error":null,"id":1,"result":[{"uuid":["uuid","00000000-0000-4000-8000-000000000002"]}]}
>{"id":2,"method":"transact","params":["Net",{"op":"insert","table":"Switch","row":{"name":"s2"}}]}
<{"error":null,"id":2,"result":[{"uuid":["uuid","00000000-0000-4000-8000-000000000004"]},{"error":"I/O error"}]}
>{"id":3,"method":"transact","params":["Net",{"op":"select","table":"Switch","where":[],"columns":["name"]}]}
<{"error":null,"id":3,"result":[{"rows":[{"name":"s1"}]}]}
>{"id":4,"method":"transact","params":["Net",{"op":"insert","table":"Switch","row":{"name":"s3"}}]}
<{"error":null,"id":4,"result":[{"uuid":["uuid","00000000-0000-4000-8000-000000000007"]},{"error":"I/O error"}]}
>{"id":5,"method":"transact","params":["Net"]}
<{"error":null,"id":5,"result":[]}"#;

/// The store has no room for the first commit, and accepts the second.
const NO_ROOM: &str =
    r#">{"id":1,"method":"transact","params":["Net",{"op":"insert","table":"Switch","row":{"name":"s1"}}]}
<{"error":null,"id":1,"result":[{"uuid":["uuid","00000000-0000-4000-8000-000000000002"]},{"error":"resources exhausted"}]}
>{"id":2,"method":"transact","params":["Net",{"op":"insert","table":"Switch","row":{"name":"s2"}}]}
<{"error":null,"id":2,"result":[{"uuid":["uuid","00000000-0000-4000-8000-000000000004"]}]}
>{"id":3,"method":"transact","params":["Net",{"op":"select","table":"Switch","where":[],"columns":["name"]}]}
<{"error":null,"id":3,"result":[{"rows":[{"name":"s2"}]}]}"#;

/// Selects the rows that meet all conditions.
const SELECTED: &str =
    r#">{"id":1,"method":"transact","params":["Net",{"op":"insert","table":"Switch","row":{"load":4,"name":"s1"}},{"op":"insert","table":"Switch","row":{"load":-1,"name":"s2"}}]}
<{"error":null,"id":1,"result":[{"uuid":["uuid","00000000-0000-4000-8000-000000000002"]},{"uuid":["uuid","00000000-0000-4000-8000-000000000003"]}]}
>{"id":2,"method":"transact","params":["Net",{"op":"select","table":"Switch","where":[["load",">",0]],"columns":["name"]}]}
<{"error":null,"id":2,"result":[{"rows":[{"name":"s1"}]}]}
>{"id":3,"method":"transact","params":["Net",{"op":"select","table":"Switch","where":[["load","<=",4]],"columns":["name"]}]}
<{"error":null,"id":3,"result":[{"rows":[{"name":"s1"},{"name":"s2"}]}]}
>{"id":4,"method":"transact","params":["Net",{"op":"select","table":"Switch","where":[["load","<=",4],["name","!=","s1"]],"columns":["name"]}]}
<{"error":null,"id":4,"result":[{"rows":[{"name":"s2"}]}]}
>{"id":5,"method":"transact","params":["Net",{"op":"select","table":"Switch","where":[["_uuid","==",["uuid","00000000-0000-4000-8000-000000000003"]]],"columns":["name"]}]}
<{"error":null,"id":5,"result":[{"rows":[{"name":"s2"}]}]}
>{"id":6,"method":"transact","params":["Net",{"op":"select","table":"Switch","where":[["_version","==",["uuid","00000000-0000-4000-8000-000000000001"]]],"columns":["name"]}]}
<{"error":null,"id":6,"result":[{"rows":[{"name":"s1"},{"name":"s2"}]}]}
>{"id":7,"method":"transact","params":["Net",{"op":"select","table":"Switch","where":[["load","excludes",4]],"columns":["name"]}]}
<{"error":null,"id":7,"result":[{"rows":[{"name":"s2"}]}]}
>{"id":8,"method":"transact","params":["Net",{"op":"select","table":"Switch","where":[["ports","includes",["set",[]]]],"columns":["name"]}]}
<{"error":null,"id":8,"result":[{"rows":[{"name":"s1"},{"name":"s2"}]}]}
>{"id":9,"method":"transact","params":["Net",{"op":"select","table":"Switch","where":[["ports","includes",["uuid","00000000-0000-4000-8000-000000000002"]]],"columns":["name"]}]}
<{"error":null,"id":9,"result":[{"rows":[]}]}"#;

/// Conditions are read one after another, each completely, and before the columns. The last of these can be read.
const MISREAD: &str =
    r#">{"id":1,"method":"transact","params":["Net",{"op":"select","table":"Switch","where":[["load","=="]],"columns":["nam"]}]}
<{"error":null,"id":1,"result":[{"error":"syntax error"}]}
>{"id":2,"method":"transact","params":["Net",{"op":"select","table":"Switch","where":[["lode","=",4]],"columns":["nam"]}]}
<{"error":null,"id":2,"result":[{"error":"unknown column"}]}
>{"id":3,"method":"transact","params":["Net",{"op":"select","table":"Switch","where":[["load","=",4]],"columns":["nam"]}]}
<{"error":null,"id":3,"result":[{"error":"syntax error"}]}
>{"id":4,"method":"transact","params":["Net",{"op":"select","table":"Switch","where":[["name","<","s1"]],"columns":["nam"]}]}
<{"error":null,"id":4,"result":[{"error":"syntax error"}]}
>{"id":5,"method":"transact","params":["Net",{"op":"select","table":"Switch","where":[["load","==","x"]],"columns":["nam"]}]}
<{"error":null,"id":5,"result":[{"error":"syntax error"}]}
>{"id":6,"method":"transact","params":["Net",{"op":"select","table":"Switch","where":[["load","==",["set",[1,2]]]],"columns":["nam"]}]}
<{"error":null,"id":6,"result":[{"error":"syntax error"}]}
>{"id":7,"method":"transact","params":["Net",{"op":"select","table":"Switch","where":[["load","==",4],["lode","==",4]],"columns":["nam"]}]}
<{"error":null,"id":7,"result":[{"error":"unknown column"}]}
>{"id":8,"method":"transact","params":["Net",{"op":"select","table":"Switch","where":[["main","==",["named-uuid","a"]]],"columns":["nam"]}]}
<{"error":null,"id":8,"result":[{"error":"syntax error"}]}
>{"id":9,"method":"transact","params":["Net",{"op":"select","table":"Switch","where":[["load","==",["set",[4,4]]]],"columns":["nam"]}]}
<{"error":null,"id":9,"result":[{"error":"unknown column"}]}"#;

/// Every operation, at least once.
const OPERATIONS: &str =
    r#">{"id":1,"method":"transact","params":["Net",{"op":"insert","table":"Switch","row":{"name":"s1","ports":["named-uuid","p"]}},{"op":"insert","table":"Port","uuid-name":"p","row":{"name":"p1"}},{"op":"comment","comment":"two rows"}]}
<{"error":null,"id":1,"result":[{"uuid":["uuid","00000000-0000-4000-8000-000000000002"]},{"uuid":["uuid","00000000-0000-4000-8000-000000000003"]},{}]}
>{"id":2,"method":"transact","params":["Net",{"op":"select","table":"Switch","where":[],"columns":["ports"]}]}
<{"error":null,"id":2,"result":[{"rows":[{"ports":["uuid","00000000-0000-4000-8000-000000000003"]}]}]}
>{"id":3,"method":"transact","params":["Net",{"op":"update","table":"Switch","where":[],"row":{"load":-7}},{"op":"mutate","table":"Switch","where":[],"mutations":[["load","%=",2]]},{"op":"select","table":"Switch","where":[],"columns":["load"]},{"op":"commit","durable":false}]}
<{"error":null,"id":3,"result":[{"count":1},{"count":1},{"rows":[{"load":-1}]},{}]}
>{"id":4,"method":"transact","params":["Net",{"op":"delete","table":"Port","where":[["name","==","p1"]]},{"op":"abort"}]}
<{"error":null,"id":4,"result":[{"count":1},{"error":"aborted"}]}
>{"id":5,"method":"transact","params":["Net",{"op":"update","table":"Switch","where":[],"row":{"_uuid":["uuid","00000000-0000-4000-8000-000000000001"]}}]}
<{"error":null,"id":5,"result":[{"error":"constraint violation"}]}
>{"id":6,"method":"transact","params":["Net",{"op":"wait","table":"Port","where":[],"columns":["name"],"until":"==","rows":[{"name":"p1"}]},{"op":"delete","table":"Port","where":[]},{"op":"select","table":"Port","where":[]},{"op":"update","table":"Switch","where":[],"row":{"ports":["set",[]]}}]}
<{"error":null,"id":6,"result":[{},{"count":1},{"rows":[]},{"count":1}]}
>{"id":7,"method":"transact","params":["Net",{"op":"insert","table":"Switch","uuid-name":"p","row":{}},{"op":"insert","table":"Switch","uuid-name":"p","row":{}}]}
<{"error":null,"id":7,"result":[{"uuid":["uuid","00000000-0000-4000-8000-00000000000a"]},{"error":"duplicate uuid-name"}]}
>{"id":8,"method":"transact","params":["Net",{"op":"assert","lock":"L"}]}
<{"error":null,"id":8,"result":[{"error":"not owner"}]}
>{"id":9,"method":"lock","params":["L"]}
<{"error":null,"id":9,"result":{"locked":true}}
>{"id":10,"method":"transact","params":["Net",{"op":"assert","lock":"L"}]}
<{"error":null,"id":10,"result":[{}]}"#;

/// A transaction that waits is not answered, and nothing of it is committed. One whose timeout has passed is answered.
const WAITING: &str =
    r#">{"id":1,"method":"transact","params":["Net",{"op":"insert","table":"Switch","row":{"name":"s1"}},{"op":"wait","table":"Switch","where":[["name","==","s9"]],"columns":["name"],"until":"==","rows":[{"name":"s9"}]}]}
<
>{"id":2,"method":"transact","params":["Net",{"op":"wait","table":"Switch","timeout":0,"where":[["name","==","s9"]],"columns":["name"],"until":"==","rows":[{"name":"s9"}]}]}
<{"error":null,"id":2,"result":[{"error":"timed out"}]}
>{"id":3,"method":"transact","params":["Net",{"op":"select","table":"Switch","where":[],"columns":["name"]}]}
<{"error":null,"id":3,"result":[{"rows":[]}]}"#;

/// A switch, its port, and the port that this one refers to.
const PEER: &str =
    r#">{"id":1,"method":"transact","params":["Net",{"op":"insert","table":"Switch","row":{"name":"s1","ports":["named-uuid","p"]}},{"op":"insert","table":"Port","uuid-name":"p","row":{"name":"p1","peer":["named-uuid","q"]}},{"op":"insert","table":"Port","uuid-name":"q","row":{"name":"p2"}}]}
<{"error":null,"id":1,"result":[{"uuid":["uuid","00000000-0000-4000-8000-000000000002"]},{"uuid":["uuid","00000000-0000-4000-8000-000000000003"]},{"uuid":["uuid","00000000-0000-4000-8000-000000000004"]}]}
>{"id":2,"method":"transact","params":["Net",{"op":"update","table":"Switch","where":[],"row":{"ports":["set",[]]}}]}
<{"error":null,"id":2,"result":[{"count":1}]}
>{"id":3,"method":"transact","params":["Net",{"op":"select","table":"Port","where":[],"columns":["name"]}]}
<{"error":null,"id":3,"result":[{"rows":[]}]}"#;

#[test]
fn each_operation_is_performed(rt: HostRuntime) -> Result<(), Fail> {
    converses(rt.alloc(), OPERATIONS)
}

#[test]
fn a_transaction_that_waits_is_not_answered(rt: HostRuntime) -> Result<(), Fail> {
    converses(rt.alloc(), WAITING)
}

#[test]
fn inserted_rows_are_selected(rt: HostRuntime) -> Result<(), Fail> {
    converses(rt.alloc(), INSERTED)
}

#[test]
fn chosen_identifiers_are_used(rt: HostRuntime) -> Result<(), Fail> {
    converses(rt.alloc(), CHOSEN)
}

#[test]
fn relations_hold_where_there_is_an_integer(rt: HostRuntime) -> Result<(), Fail> {
    converses(rt.alloc(), RELATED)
}

#[test]
fn a_failed_operation_undoes_the_others(rt: HostRuntime) -> Result<(), Fail> {
    converses(rt.alloc(), UNDONE)
}

#[test]
fn the_last_of_equal_members_counts(rt: HostRuntime) -> Result<(), Fail> {
    converses(rt.alloc(), REPEATED)
}

#[test]
fn params_are_refused_in_order(rt: HostRuntime) -> Result<(), Fail> {
    converses(rt.alloc(), PARAMS)
}

#[test]
fn operations_are_refused(rt: HostRuntime) -> Result<(), Fail> {
    converses(rt.alloc(), REFUSED)
}

#[test]
fn a_failed_commit_seals_the_database(rt: HostRuntime) -> Result<(), Fail> {
    let faults = Faults {
        is_too_large: false,
        good: 1,
        bad: 1,
    };
    converses_over(rt.alloc(), faults, SEALED)
}

#[test]
fn a_commit_without_room_changes_nothing(rt: HostRuntime) -> Result<(), Fail> {
    let faults = Faults {
        is_too_large: true,
        good: 0,
        bad: 0,
    };
    converses_over(rt.alloc(), faults, NO_ROOM)
}

#[test]
fn rows_are_selected_by_conditions(rt: HostRuntime) -> Result<(), Fail> {
    converses(rt.alloc(), SELECTED)
}

#[test]
fn conditions_are_refused_in_order(rt: HostRuntime) -> Result<(), Fail> {
    converses(rt.alloc(), MISREAD)
}

#[test]
fn a_port_that_nobody_refers_to_goes_with_its_peer(rt: HostRuntime) -> Result<(), Fail> {
    converses(rt.alloc(), PEER)
}
