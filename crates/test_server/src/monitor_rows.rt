//! Monitors, call by call: their initial rows, and the updates of each commit (RFC 7047, 4.1.5 to 4.1.7).

use crate::callers::{calls, calls_over};
use crate::made::{calls_as, converses_as};
use crate::server::converses;
use std::alloc::{AllocError, Global};
use std::test::Fail;
use test_basics::Faults;

/// A row is inserted, renamed and deleted: each update comes before the reply. A change of its load alone sends none.
const TOLD: &str =
    r#">{"id":1,"method":"monitor","params":["Net","m",{"Switch":[{"columns":["name"]}]}]}
<{"error":null,"id":1,"result":{}}
>{"id":2,"method":"transact","params":["Net",{"op":"insert","table":"Switch","row":{"name":"s1"}}]}
<{"id":null,"method":"update","params":["m",{"Switch":{"00000000-0000-4000-8000-000000000002":{"new":{"name":"s1"}}}}]}{"error":null,"id":2,"result":[{"uuid":["uuid","00000000-0000-4000-8000-000000000002"]}]}
>{"id":3,"method":"transact","params":["Net",{"op":"update","table":"Switch","where":[],"row":{"load":5}}]}
<{"error":null,"id":3,"result":[{"count":1}]}
>{"id":4,"method":"transact","params":["Net",{"op":"update","table":"Switch","where":[],"row":{"name":"s2"}}]}
<{"id":null,"method":"update","params":["m",{"Switch":{"00000000-0000-4000-8000-000000000002":{"new":{"name":"s2"},"old":{"name":"s1"}}}}]}{"error":null,"id":4,"result":[{"count":1}]}
>{"id":5,"method":"transact","params":["Net",{"op":"delete","table":"Switch","where":[]}]}
<{"id":null,"method":"update","params":["m",{"Switch":{"00000000-0000-4000-8000-000000000002":{"old":{"name":"s2"}}}}]}{"error":null,"id":5,"result":[{"count":1}]}"#;

#[test]
fn updates_before_reply(rt: HostRuntime) -> Result<(), Fail> {
    converses(rt.alloc(), TOLD)
}

/// Then the monitor is requested again, and canceled twice.
const ASKED_AGAIN: &str =
    r#">{"id":6,"method":"monitor","params":["Net","m",{"Switch":[{"columns":["name"]}]}]}
<{"error":"duplicate monitor id","id":6,"result":null}
>{"id":7,"method":"monitor_cancel","params":["m"]}
<{"error":null,"id":7,"result":{}}
>{"id":8,"method":"monitor_cancel","params":["m"]}
<{"error":"unknown monitor","id":8,"result":null}"#;

#[test]
fn monitor_ids(rt: HostRuntime) -> Result<(), Fail> {
    converses_as(rt.alloc(), format!(in rt.alloc(); "{TOLD}\n{ASKED_AGAIN}"))
}

/// Of two requests for a table, each reports its columns for the kinds that it selects.
const TWO_REQUESTS: &str = r#"open 1 -> 1;
call 1 1 transact ["Net",{"op":"insert","table":"Switch","row":{"name":"s1"}}] -> {"error":null,"id":1,"result":[{"uuid":["uuid","00000000-0000-4000-8000-000000000002"]}]}
call 1 2 monitor ["Net","m",{"Switch":[{"columns":["name"],"select":{"initial":false}},{"columns":["load"],"select":{"insert":false}}]}] -> {"error":null,"id":2,"result":{"Switch":{"00000000-0000-4000-8000-000000000002":{"new":{"load":0}}}}}
call 1 3 transact ["Net",{"op":"insert","table":"Switch","row":{"name":"s2"}}] -> {"id":null,"method":"update","params":["m",{"Switch":{"00000000-0000-4000-8000-000000000004":{"new":{"name":"s2"}}}}]}{"error":null,"id":3,"result":[{"uuid":["uuid","00000000-0000-4000-8000-000000000004"]}]}
call 1 4 transact ["Net",{"op":"update","table":"Switch","where":[["name","==","s2"]],"row":{"load":5}}] -> {"id":null,"method":"update","params":["m",{"Switch":{"00000000-0000-4000-8000-000000000004":{"new":{"load":5,"name":"s2"},"old":{"load":0}}}}]}{"error":null,"id":4,"result":[{"count":1}]}
call 1 5 transact ["Net",{"op":"delete","table":"Switch","where":[["name","==","s2"]]}] -> {"id":null,"method":"update","params":["m",{"Switch":{"00000000-0000-4000-8000-000000000004":{"old":{"load":5,"name":"s2"}}}}]}{"error":null,"id":5,"result":[{"count":1}]}"#;

#[test]
fn each_request_tells_of_its_columns(rt: HostRuntime) -> Result<(), Fail> {
    calls(rt.alloc(), TWO_REQUESTS)
}

/// No column of a table may be named twice, in one request or in two. This is reported even if the identifier is in use.
const NAMED_TWICE: &str = r#"open 1 -> 1;
call 1 1 monitor ["Net","m",{"Switch":{"columns":["name","name"]}}] -> {"error":"syntax error","id":1,"result":null}
call 1 2 monitor ["Net","m",{"Switch":[{"columns":["name"]},{"columns":["load","name"]}]}] -> {"error":"syntax error","id":2,"result":null}
call 1 3 monitor ["Net","m",{"Switch":[{"columns":["name"]}]}] -> {"error":null,"id":3,"result":{}}
call 1 4 monitor ["Net","m",{"Switch":{"columns":["name","name"]}}] -> {"error":"syntax error","id":4,"result":null}
call 1 5 monitor ["Net","m",{"Port":{"columns":["nam"]},"Switch":{"columns":["name","name"]}}] -> {"error":"syntax error","id":5,"result":null}
call 1 6 monitor ["Nat","m",{"Switch":{"columns":["name","name"]}}] -> {"error":"unknown database","id":6,"result":null}
call 1 7 monitor ["Net","n",{"Port":{"columns":["name"]},"Switch":{"columns":["name"]}}] -> {"error":null,"id":7,"result":{}}"#;

#[test]
fn a_column_is_asked_for_once(rt: HostRuntime) -> Result<(), Fail> {
    calls(rt.alloc(), NAMED_TWICE)
}

/// A kind that no request selects is not reported. A request without columns covers all columns but the identifier.
const SELECTED: &str = r#"open 1 -> 1;
call 1 1 transact ["Net",{"op":"insert","table":"Switch","row":{"name":"s1"}}] -> {"error":null,"id":1,"result":[{"uuid":["uuid","00000000-0000-4000-8000-000000000002"]}]}
call 1 2 monitor ["Net","m",{"Switch":{"columns":["name"],"select":{"initial":false}}}] -> {"error":null,"id":2,"result":{}}
call 1 3 transact ["Net",{"op":"update","table":"Switch","where":[],"row":{"name":"s2"}}] -> {"id":null,"method":"update","params":["m",{"Switch":{"00000000-0000-4000-8000-000000000002":{"new":{"name":"s2"},"old":{"name":"s1"}}}}]}{"error":null,"id":3,"result":[{"count":1}]}
call 1 4 monitor ["Net","n",{"Switch":{"columns":["name"],"select":{"insert":false,"delete":false,"modify":false}}}] -> {"error":null,"id":4,"result":{"Switch":{"00000000-0000-4000-8000-000000000002":{"new":{"name":"s2"}}}}}
call 1 5 monitor ["Net","o",{"Port":{},"Switch":{"select":{"modify":false}}}] -> {"error":null,"id":5,"result":{"Switch":{"00000000-0000-4000-8000-000000000002":{"new":{"_version":["uuid","00000000-0000-4000-8000-000000000003"],"load":0,"main":["set",[]],"name":"s2","ports":["set",[]]}}}}}
call 1 6 transact ["Net",{"op":"delete","table":"Switch","where":[]}] -> {"id":null,"method":"update","params":["m",{"Switch":{"00000000-0000-4000-8000-000000000002":{"old":{"name":"s2"}}}}]}{"id":null,"method":"update","params":["o",{"Switch":{"00000000-0000-4000-8000-000000000002":{"old":{"_version":["uuid","00000000-0000-4000-8000-000000000003"],"load":0,"main":["set",[]],"name":"s2","ports":["set",[]]}}}}]}{"error":null,"id":6,"result":[{"count":1}]}
call 1 7 transact ["Net",{"op":"insert","table":"Switch","row":{"name":"s3"}}] -> {"id":null,"method":"update","params":["m",{"Switch":{"00000000-0000-4000-8000-000000000006":{"new":{"name":"s3"}}}}]}{"id":null,"method":"update","params":["o",{"Switch":{"00000000-0000-4000-8000-000000000006":{"new":{"_version":["uuid","00000000-0000-4000-8000-000000000005"],"load":0,"main":["set",[]],"name":"s3","ports":["set",[]]}}}}]}{"error":null,"id":7,"result":[{"uuid":["uuid","00000000-0000-4000-8000-000000000006"]}]}
call 1 8 transact ["Net",{"op":"update","table":"Switch","where":[],"row":{"load":1}}] -> {"error":null,"id":8,"result":[{"count":1}]}"#;

#[test]
fn what_is_not_selected_is_not_told(rt: HostRuntime) -> Result<(), Fail> {
    calls(rt.alloc(), SELECTED)
}

/// A request of no columns reports that a row exists, was inserted, or was deleted.
const NO_COLUMNS: &str = r#"open 1 -> 1;
call 1 1 transact ["Net",{"op":"insert","table":"Switch","row":{"name":"s1"}}] -> {"error":null,"id":1,"result":[{"uuid":["uuid","00000000-0000-4000-8000-000000000002"]}]}
call 1 2 monitor ["Net","m",{"Switch":{"columns":[]}}] -> {"error":null,"id":2,"result":{"Switch":{"00000000-0000-4000-8000-000000000002":{"new":{}}}}}
call 1 3 transact ["Net",{"op":"insert","table":"Switch","row":{"name":"s2"}}] -> {"id":null,"method":"update","params":["m",{"Switch":{"00000000-0000-4000-8000-000000000004":{"new":{}}}}]}{"error":null,"id":3,"result":[{"uuid":["uuid","00000000-0000-4000-8000-000000000004"]}]}
call 1 4 transact ["Net",{"op":"update","table":"Switch","where":[],"row":{"load":5}}] -> {"error":null,"id":4,"result":[{"count":2}]}
call 1 5 transact ["Net",{"op":"delete","table":"Switch","where":[]}] -> {"id":null,"method":"update","params":["m",{"Switch":{"00000000-0000-4000-8000-000000000002":{"old":{}},"00000000-0000-4000-8000-000000000004":{"old":{}}}}]}{"error":null,"id":5,"result":[{"count":2}]}"#;

#[test]
fn a_request_of_no_columns_tells_of_rows(rt: HostRuntime) -> Result<(), Fail> {
    calls(rt.alloc(), NO_COLUMNS)
}

/// Null and arrays identify monitors too. Two values are equal if they are sent as the same text. Each session has its own
/// identifiers.
const IDS: &str = r#"open 2 -> 1;2;
call 1 1 monitor ["Net",null,{"Switch":{"columns":["name"]}}] -> {"error":null,"id":1,"result":{}}
call 1 2 monitor ["Net",["a",{"b":1,"a":2}],{"Switch":{"columns":["load"]}}] -> {"error":null,"id":2,"result":{}}
call 1 3 monitor ["Net",["a",{"a":2,"b":1}],{}] -> {"error":"duplicate monitor id","id":3,"result":null}
call 1 4 monitor ["Net",null,{}] -> {"error":"duplicate monitor id","id":4,"result":null}
call 1 5 monitor ["Net","null",{}] -> {"error":null,"id":5,"result":{}}
call 2 1 monitor ["Net",null,{"Switch":{"columns":["name"]}}] -> {"error":null,"id":1,"result":{}}
call 1 6 transact ["Net",{"op":"insert","table":"Switch","row":{"name":"s1"}}] -> {"id":null,"method":"update","params":[null,{"Switch":{"00000000-0000-4000-8000-000000000002":{"new":{"name":"s1"}}}}]}{"id":null,"method":"update","params":[["a",{"a":2,"b":1}],{"Switch":{"00000000-0000-4000-8000-000000000002":{"new":{"load":0}}}}]}{"error":null,"id":6,"result":[{"uuid":["uuid","00000000-0000-4000-8000-000000000002"]}]}
got 2 -> {"id":null,"method":"update","params":[null,{"Switch":{"00000000-0000-4000-8000-000000000002":{"new":{"name":"s1"}}}}]}
call 1 7 monitor_cancel [null] -> {"error":null,"id":7,"result":{}}
call 1 8 monitor_cancel [null] -> {"error":"unknown monitor","id":8,"result":null}
call 1 9 monitor_cancel [["a"]] -> {"error":"unknown monitor","id":9,"result":null}
call 1 10 monitor_cancel [["a",{"b":1,"a":2}]] -> {"error":null,"id":10,"result":{}}
call 1 11 monitor_cancel ["null"] -> {"error":null,"id":11,"result":{}}
call 1 12 transact ["Net",{"op":"delete","table":"Switch","where":[]}] -> {"error":null,"id":12,"result":[{"count":1}]}
got 2 -> {"id":null,"method":"update","params":[null,{"Switch":{"00000000-0000-4000-8000-000000000002":{"old":{"name":"s1"}}}}]}"#;

#[test]
fn any_value_names_a_monitor(rt: HostRuntime) -> Result<(), Fail> {
    calls(rt.alloc(), IDS)
}

/// A row that is inserted and deleted in one transaction, changes of other columns and tables, and what is not committed send
/// no update.
const UNTOLD: &str = r#"open 1 -> 1;
call 1 1 monitor ["Net","m",{"Switch":{"columns":["name"]}}] -> {"error":null,"id":1,"result":{}}
call 1 2 transact ["Net",{"op":"insert","table":"Switch","row":{"name":"s1"}},{"op":"delete","table":"Switch","where":[]}] -> {"error":null,"id":2,"result":[{"uuid":["uuid","00000000-0000-4000-8000-000000000002"]},{"count":1}]}
call 1 3 transact ["Net",{"op":"insert","table":"Switch","row":{"name":"s1"}}] -> {"id":null,"method":"update","params":["m",{"Switch":{"00000000-0000-4000-8000-000000000004":{"new":{"name":"s1"}}}}]}{"error":null,"id":3,"result":[{"uuid":["uuid","00000000-0000-4000-8000-000000000004"]}]}
call 1 4 transact ["Net",{"op":"update","table":"Switch","where":[],"row":{"load":7}}] -> {"error":null,"id":4,"result":[{"count":1}]}
call 1 5 transact ["Net",{"op":"update","table":"Switch","where":[],"row":{"name":"s1"}}] -> {"error":null,"id":5,"result":[{"count":1}]}
call 1 6 transact ["Net",{"op":"update","table":"Switch","where":[],"row":{"name":"s9"}},{"op":"update","table":"Switch","where":[],"row":{"load":8,"name":"s1"}}] -> {"error":null,"id":6,"result":[{"count":1},{"count":1}]}
call 1 7 transact ["Net",{"op":"insert","table":"Switch","row":{"name":"s1"}}] -> {"error":null,"id":7,"result":[{"uuid":["uuid","00000000-0000-4000-8000-000000000009"]},{"error":"constraint violation"}]}
call 1 8 transact ["Net",{"op":"insert","table":"Switch","row":{"name":"s2"}},{"op":"abort"}] -> {"error":null,"id":8,"result":[{"uuid":["uuid","00000000-0000-4000-8000-00000000000b"]},{"error":"aborted"}]}
call 1 9 transact ["Net",{"op":"insert","table":"Port","row":{"name":"p1"}}] -> {"error":null,"id":9,"result":[{"uuid":["uuid","00000000-0000-4000-8000-00000000000d"]}]}
call 1 10 transact ["Net",{"op":"delete","table":"Switch","where":[]},{"op":"insert","table":"Switch","row":{"name":"s1"}}] -> {"id":null,"method":"update","params":["m",{"Switch":{"00000000-0000-4000-8000-000000000004":{"old":{"name":"s1"}},"00000000-0000-4000-8000-00000000000f":{"new":{"name":"s1"}}}}]}{"error":null,"id":10,"result":[{"count":1},{"uuid":["uuid","00000000-0000-4000-8000-00000000000f"]}]}"#;

#[test]
fn what_changes_no_watched_column_is_not_told(rt: HostRuntime) -> Result<(), Fail> {
    calls(rt.alloc(), UNTOLD)
}

/// Rows that are deleted because no other row refers to them, and weak references that are removed with them, are reported
/// like other changes.
const TAKEN_OUT: &str = r#"open 2 -> 1;2;
call 1 1 transact ["Net",{"op":"insert","table":"Switch","row":{"main":["named-uuid","p"],"name":"s1"}},{"op":"insert","table":"Switch","row":{"name":"s2","ports":["named-uuid","p"]}},{"op":"insert","table":"Port","uuid-name":"p","row":{"name":"p1"}}] -> {"error":null,"id":1,"result":[{"uuid":["uuid","00000000-0000-4000-8000-000000000002"]},{"uuid":["uuid","00000000-0000-4000-8000-000000000003"]},{"uuid":["uuid","00000000-0000-4000-8000-000000000004"]}]}
call 2 1 monitor ["Net","m",{"Port":{"columns":["name"]},"Switch":{"columns":["_version","main"]}}] -> {"error":null,"id":1,"result":{"Port":{"00000000-0000-4000-8000-000000000004":{"new":{"name":"p1"}}},"Switch":{"00000000-0000-4000-8000-000000000002":{"new":{"_version":["uuid","00000000-0000-4000-8000-000000000001"],"main":["uuid","00000000-0000-4000-8000-000000000004"]}},"00000000-0000-4000-8000-000000000003":{"new":{"_version":["uuid","00000000-0000-4000-8000-000000000001"],"main":["set",[]]}}}}}
call 1 2 transact ["Net",{"op":"update","table":"Switch","where":[],"row":{"ports":["set",[]]}}] -> {"error":null,"id":2,"result":[{"count":2}]}
got 2 -> {"id":null,"method":"update","params":["m",{"Port":{"00000000-0000-4000-8000-000000000004":{"old":{"name":"p1"}}},"Switch":{"00000000-0000-4000-8000-000000000002":{"new":{"_version":["uuid","00000000-0000-4000-8000-000000000005"],"main":["set",[]]},"old":{"_version":["uuid","00000000-0000-4000-8000-000000000001"],"main":["uuid","00000000-0000-4000-8000-000000000004"]}},"00000000-0000-4000-8000-000000000003":{"new":{"_version":["uuid","00000000-0000-4000-8000-000000000005"],"main":["set",[]]},"old":{"_version":["uuid","00000000-0000-4000-8000-000000000001"]}}}}]}
call 1 3 transact ["Net",{"op":"insert","table":"Port","uuid-name":"q","row":{"name":"p2"}},{"op":"update","table":"Switch","where":[["name","==","s2"]],"row":{"ports":["named-uuid","q"]}}] -> {"error":null,"id":3,"result":[{"uuid":["uuid","00000000-0000-4000-8000-000000000007"]},{"count":1}]}
got 2 -> {"id":null,"method":"update","params":["m",{"Port":{"00000000-0000-4000-8000-000000000007":{"new":{"name":"p2"}}},"Switch":{"00000000-0000-4000-8000-000000000003":{"new":{"_version":["uuid","00000000-0000-4000-8000-000000000006"],"main":["set",[]]},"old":{"_version":["uuid","00000000-0000-4000-8000-000000000005"]}}}}]}
call 1 4 transact ["Net",{"op":"delete","table":"Switch","where":[["name","==","s2"]]}] -> {"error":null,"id":4,"result":[{"count":1}]}
got 2 -> {"id":null,"method":"update","params":["m",{"Port":{"00000000-0000-4000-8000-000000000007":{"old":{"name":"p2"}}},"Switch":{"00000000-0000-4000-8000-000000000003":{"old":{"_version":["uuid","00000000-0000-4000-8000-000000000006"],"main":["set",[]]}}}}]}"#;

#[test]
fn what_a_commit_takes_out_is_told(rt: HostRuntime) -> Result<(), Fail> {
    calls(rt.alloc(), TAKEN_OUT)
}

/// Each of three sessions receives its updates, in the order in which its monitors were created.
const IN_ORDER: &str = r#"open 3 -> 1;2;3;
call 2 1 monitor ["Net","m",{"Switch":{"columns":["name"]}}] -> {"error":null,"id":1,"result":{}}
call 1 1 monitor ["Net","m",{"Switch":{"columns":["load"]}}] -> {"error":null,"id":1,"result":{}}
call 1 2 monitor ["Net","M",{"Switch":{"columns":["name"]}}] -> {"error":null,"id":2,"result":{}}
call 3 1 monitor ["Net","m",{"Port":{}}] -> {"error":null,"id":1,"result":{}}
call 3 2 monitor ["Net","z",{"Switch":{"columns":["name"]}}] -> {"error":null,"id":2,"result":{}}
call 3 3 monitor ["Net","a",{"Switch":{"columns":["name"]}}] -> {"error":null,"id":3,"result":{}}
call 3 4 transact ["Net",{"op":"insert","table":"Switch","row":{"name":"s1"}}] -> {"id":null,"method":"update","params":["z",{"Switch":{"00000000-0000-4000-8000-000000000002":{"new":{"name":"s1"}}}}]}{"id":null,"method":"update","params":["a",{"Switch":{"00000000-0000-4000-8000-000000000002":{"new":{"name":"s1"}}}}]}{"error":null,"id":4,"result":[{"uuid":["uuid","00000000-0000-4000-8000-000000000002"]}]}
got 1 -> {"id":null,"method":"update","params":["m",{"Switch":{"00000000-0000-4000-8000-000000000002":{"new":{"load":0}}}}]}{"id":null,"method":"update","params":["M",{"Switch":{"00000000-0000-4000-8000-000000000002":{"new":{"name":"s1"}}}}]}
got 2 -> {"id":null,"method":"update","params":["m",{"Switch":{"00000000-0000-4000-8000-000000000002":{"new":{"name":"s1"}}}}]}
got 3
call 3 5 monitor_cancel ["z"] -> {"error":null,"id":5,"result":{}}
call 3 6 monitor ["Net","z",{"Switch":{"columns":["name"]}}] -> {"error":null,"id":6,"result":{"Switch":{"00000000-0000-4000-8000-000000000002":{"new":{"name":"s1"}}}}}
call 2 2 transact ["Net",{"op":"delete","table":"Switch","where":[]}] -> {"id":null,"method":"update","params":["m",{"Switch":{"00000000-0000-4000-8000-000000000002":{"old":{"name":"s1"}}}}]}{"error":null,"id":2,"result":[{"count":1}]}
got 1 -> {"id":null,"method":"update","params":["m",{"Switch":{"00000000-0000-4000-8000-000000000002":{"old":{"load":0}}}}]}{"id":null,"method":"update","params":["M",{"Switch":{"00000000-0000-4000-8000-000000000002":{"old":{"name":"s1"}}}}]}
got 3 -> {"id":null,"method":"update","params":["a",{"Switch":{"00000000-0000-4000-8000-000000000002":{"old":{"name":"s1"}}}}]}{"id":null,"method":"update","params":["z",{"Switch":{"00000000-0000-4000-8000-000000000002":{"old":{"name":"s1"}}}}]}"#;

#[test]
fn each_monitor_of_each_session_is_told(rt: HostRuntime) -> Result<(), Fail> {
    calls(rt.alloc(), IN_ORDER)
}

/// Faults are reported in order: params, the name of the database, malformed requests, the identifier, and the tables one
/// after another.
const REFUSED: &str = r#"open 1 -> 1;
call 1 1 monitor [] -> {"error":"syntax error","id":1,"result":null}
call 1 2 monitor ["Net","m"] -> {"error":"syntax error","id":2,"result":null}
call 1 3 monitor ["Net","m",{},{}] -> {"error":"syntax error","id":3,"result":null}
call 1 4 monitor [7,"m",{}] -> {"error":"syntax error","id":4,"result":null}
call 1 5 monitor ["Nat","m",[]] -> {"error":"syntax error","id":5,"result":null}
call 1 6 monitor ["Net","m",null] -> {"error":"syntax error","id":6,"result":null}
call 1 7 monitor ["Nat","m",{"Swich":7}] -> {"error":"unknown database","id":7,"result":null}
call 1 8 monitor ["Net","m",{"Swich":{},"Switch":7}] -> {"error":"syntax error","id":8,"result":null}
call 1 9 monitor ["Net","m",{"Switch":[[]]}] -> {"error":"syntax error","id":9,"result":null}
call 1 10 monitor ["Net","m",{"Switch":{"columns":"name"}}] -> {"error":"syntax error","id":10,"result":null}
call 1 11 monitor ["Net","m",{"Switch":{"columns":[7]}}] -> {"error":"syntax error","id":11,"result":null}
call 1 12 monitor ["Net","m",{"Switch":{"select":true}}] -> {"error":"syntax error","id":12,"result":null}
call 1 13 monitor ["Net","m",{"Switch":{"select":{"modify":1}}}] -> {"error":"syntax error","id":13,"result":null}
call 1 14 monitor ["Net","m",{"Swich":{},"Switch":{"columns":["nam"]}}] -> {"error":"unknown table","id":14,"result":null}
call 1 15 monitor ["Net","m",{"Switch":{"columns":["nam"]},"Twitch":{}}] -> {"error":"unknown column","id":15,"result":null}
call 1 16 monitor_cancel ["m"] -> {"error":"unknown monitor","id":16,"result":null}
call 1 17 monitor ["Net","m",{"Port":[],"Switch":{"colour":1}}] -> {"error":null,"id":17,"result":{}}
call 1 18 monitor ["Net","m",{"Swich":{}}] -> {"error":"duplicate monitor id","id":18,"result":null}
call 1 19 monitor_cancel [] -> {"error":"syntax error","id":19,"result":null}
call 1 20 monitor_cancel ["m","m"] -> {"error":"syntax error","id":20,"result":null}
call 1 21 monitor_cancel ["m"] -> {"error":null,"id":21,"result":{}}"#;

#[test]
fn monitors_are_refused_in_order(rt: HostRuntime) -> Result<(), Fail> {
    calls(rt.alloc(), REFUSED)
}

/// Neither a canceled monitor nor one of a session that has ended sends updates. A new session in its place has no monitor.
const SILENT: &str = r#"open 2 -> 1;2;
call 1 1 monitor ["Net","m",{"Switch":{"columns":["name"]}}] -> {"error":null,"id":1,"result":{}}
call 2 1 monitor ["Net","m",{"Switch":{"columns":["name"]}}] -> {"error":null,"id":1,"result":{}}
call 2 2 monitor_cancel ["m"] -> {"error":null,"id":2,"result":{}}
call 1 2 transact ["Net",{"op":"insert","table":"Switch","row":{"name":"s1"}}] -> {"id":null,"method":"update","params":["m",{"Switch":{"00000000-0000-4000-8000-000000000002":{"new":{"name":"s1"}}}}]}{"error":null,"id":2,"result":[{"uuid":["uuid","00000000-0000-4000-8000-000000000002"]}]}
got 2
call 2 3 monitor ["Net","m",{"Switch":{"columns":["name"]}}] -> {"error":null,"id":3,"result":{"Switch":{"00000000-0000-4000-8000-000000000002":{"new":{"name":"s1"}}}}}
end 1
open 1 -> 3;
call 2 4 transact ["Net",{"op":"insert","table":"Switch","row":{"name":"s2"}}] -> {"id":null,"method":"update","params":["m",{"Switch":{"00000000-0000-4000-8000-000000000004":{"new":{"name":"s2"}}}}]}{"error":null,"id":4,"result":[{"uuid":["uuid","00000000-0000-4000-8000-000000000004"]}]}
got 1
got 3
call 3 1 transact ["Net",{"op":"insert","table":"Switch","row":{"name":"s3"}}] -> {"error":null,"id":1,"result":[{"uuid":["uuid","00000000-0000-4000-8000-000000000006"]}]}
got 2 -> {"id":null,"method":"update","params":["m",{"Switch":{"00000000-0000-4000-8000-000000000006":{"new":{"name":"s3"}}}}]}
call 3 2 monitor ["Net","m",{"Switch":{"columns":["name"]}}] -> {"error":null,"id":2,"result":{"Switch":{"00000000-0000-4000-8000-000000000002":{"new":{"name":"s1"}},"00000000-0000-4000-8000-000000000004":{"new":{"name":"s2"}},"00000000-0000-4000-8000-000000000006":{"new":{"name":"s3"}}}}}"#;

#[test]
fn a_canceled_monitor_is_told_nothing(rt: HostRuntime) -> Result<(), Fail> {
    calls(rt.alloc(), SILENT)
}

/// A transaction that waited commits after the one that lets it continue. Each update comes before its own reply.
const SETTLED: &str = r#"open 2 -> 1;2;
call 1 1 monitor ["Net","m",{"Switch":{"columns":["name"]}}] -> {"error":null,"id":1,"result":{}}
call 1 2 transact ["Net",{"op":"wait","table":"Switch","where":[["name","==","s9"]],"columns":["name"],"until":"==","rows":[{"name":"s9"}]},{"op":"insert","table":"Switch","row":{"name":"s10"}}]
call 2 1 monitor ["Net","n",{"Switch":{"columns":["name"]}}] -> {"error":null,"id":1,"result":{}}
call 2 2 transact ["Net",{"op":"insert","table":"Switch","row":{"name":"s9"}}] -> {"id":null,"method":"update","params":["n",{"Switch":{"00000000-0000-4000-8000-000000000004":{"new":{"name":"s9"}}}}]}{"error":null,"id":2,"result":[{"uuid":["uuid","00000000-0000-4000-8000-000000000004"]}]}{"id":null,"method":"update","params":["n",{"Switch":{"00000000-0000-4000-8000-000000000002":{"new":{"name":"s10"}}}}]}
got 1 -> {"id":null,"method":"update","params":["m",{"Switch":{"00000000-0000-4000-8000-000000000004":{"new":{"name":"s9"}}}}]}{"id":null,"method":"update","params":["m",{"Switch":{"00000000-0000-4000-8000-000000000002":{"new":{"name":"s10"}}}}]}{"error":null,"id":2,"result":[{},{"uuid":["uuid","00000000-0000-4000-8000-000000000002"]}]}"#;

#[test]
fn what_was_settled_is_told_before_its_reply(rt: HostRuntime) -> Result<(), Fail> {
    calls(rt.alloc(), SETTLED)
}

/// The device fails at the commit.
const NOT_KEPT: &str = r#"open 1 -> 1;
call 1 1 monitor ["Net","m",{"Switch":{"columns":["name"]}}] -> {"error":null,"id":1,"result":{}}
call 1 2 transact ["Net",{"op":"insert","table":"Switch","row":{"name":"s1"}}] -> {"error":null,"id":2,"result":[{"uuid":["uuid","00000000-0000-4000-8000-000000000002"]},{"error":"I/O error"}]}
call 1 3 transact ["Net",{"op":"insert","table":"Switch","row":{"name":"s2"}}] -> {"error":null,"id":3,"result":[{"uuid":["uuid","00000000-0000-4000-8000-000000000004"]},{"error":"I/O error"}]}
call 1 4 monitor ["Net","n",{"Switch":{"columns":["name"]}}] -> {"error":null,"id":4,"result":{}}"#;

/// The store has no room for the first commit, and accepts the second.
const NO_ROOM: &str = r#"open 1 -> 1;
call 1 1 monitor ["Net","m",{"Switch":{"columns":["name"]}}] -> {"error":null,"id":1,"result":{}}
call 1 2 transact ["Net",{"op":"insert","table":"Switch","row":{"name":"s1"}}] -> {"error":null,"id":2,"result":[{"uuid":["uuid","00000000-0000-4000-8000-000000000002"]},{"error":"resources exhausted"}]}
call 1 3 transact ["Net",{"op":"insert","table":"Switch","row":{"name":"s1"}}] -> {"id":null,"method":"update","params":["m",{"Switch":{"00000000-0000-4000-8000-000000000004":{"new":{"name":"s1"}}}}]}{"error":null,"id":3,"result":[{"uuid":["uuid","00000000-0000-4000-8000-000000000004"]}]}"#;

#[test]
fn what_is_not_committed_is_not_told(rt: HostRuntime) -> Result<(), Fail> {
    for (is_too_large, bad, script) in [(false, 1, NOT_KEPT), (true, 0, NO_ROOM)] {
        let faults = Faults {
            is_too_large,
            good: 0,
            bad,
        };
        calls_over(rt.alloc(), faults, script)?;
    }
    Ok(())
}

/// One monitor more than a session may have.
const ONE_MORE: &str =
    r#"call 1 65 monitor ["Net",65,{"Switch":1}] -> {"error":"syntax error","id":65,"result":null}
call 1 66 monitor ["Net",64,{}] -> {"error":"duplicate monitor id","id":66,"result":null}
call 1 67 monitor ["Net",65,{"Swich":[]}] -> {"error":"resources exhausted","id":67,"result":null}
call 2 1 monitor ["Net",65,{}] -> {"error":null,"id":1,"result":{}}
call 1 68 monitor_cancel [7] -> {"error":null,"id":68,"result":{}}
call 1 69 monitor ["Net",65,{"Swich":[]}] -> {"error":"unknown table","id":69,"result":null}
call 1 70 monitor ["Net",65,{"Switch":{"columns":["name"]}}] -> {"error":null,"id":70,"result":{}}
call 1 71 monitor ["Net",7,{}] -> {"error":"resources exhausted","id":71,"result":null}
call 1 72 transact ["Net",{"op":"insert","table":"Switch","row":{"name":"s1"}}] -> {"id":null,"method":"update","params":[65,{"Switch":{"00000000-0000-4000-8000-000000000002":{"new":{"name":"s1"}}}}]}{"error":null,"id":72,"result":[{"uuid":["uuid","00000000-0000-4000-8000-000000000002"]}]}"#;

/// Session 1 asks for 64 monitors, and then for more.
fn many_monitors(alloc: Global) -> Result<String, AllocError> {
    let mut script = String::from_str(alloc, "open 2 -> 1;2;\n")?;
    for id in 1..65 {
        let line = format!(in alloc;
            "call 1 {id} monitor [\"Net\",{id},{{}}] -> {{\"error\":null,\"id\":{id},\"result\":{{}}}}\n"
        )?;
        script.push_str(line.as_str())?;
    }
    script.push_str(ONE_MORE)?;
    Ok(script)
}

#[test]
fn a_session_has_64_monitors(rt: HostRuntime) -> Result<(), Fail> {
    calls_as(rt.alloc(), many_monitors(rt.alloc()))
}
