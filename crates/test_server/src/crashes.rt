//! Transactions over a database file and its log, one of which fails after some number of calls, and what is found when both
//! are opened again: after the program ended, with all that was written, and after a crash, which loses what was not synced.

use crate::stops::{Before, Case, fails_once, stops};
use std::alloc::{AllocError, Global};
use std::test::Fail;
use test_basics::NET;

/// Two switches, each in a transaction of its own. A file fails after each number of calls.
const INSERTS: Case<'static> = Case {
    before: Before::Messages(""),
    schema: NET,
    messages: r#"{"id":1,"method":"transact","params":["Net",{"op":"insert","table":"Switch","row":{"name":"s1"}}]}
{"id":2,"method":"transact","params":["Net",{"op":"insert","table":"Switch","row":{"name":"s2"}}]}"#,
    look: r#"{"id":9,"method":"transact","params":["Net",{"op":"select","table":"Switch","where":[],"columns":["name"]}]}"#,
    answers: "",
    is_in_full: true,
    is_opened: false,
};

/// The machine is not opened; the first commit fails, and none or the first is found; the second fails, and the first or both
/// are found; none fails. After a failed commit the next transaction is answered with the error, and no call is made.
const INSERTED: &str = r#"{"error":null,"id":9,"result":[{"rows":[]}]}

{"error":null,"id":1,"result":[{"uuid":["uuid","00000000-0000-4000-8000-000000000002"]},{"error":"I/O error"}]} 1
{"error":null,"id":2,"result":[{"uuid":["uuid","00000000-0000-4000-8000-000000000004"]},{"error":"I/O error"}]} 1
{"error":null,"id":9,"result":[{"rows":[]}]}

{"error":null,"id":1,"result":[{"uuid":["uuid","00000000-0000-4000-8000-000000000002"]},{"error":"I/O error"}]} 1
{"error":null,"id":2,"result":[{"uuid":["uuid","00000000-0000-4000-8000-000000000004"]},{"error":"I/O error"}]} 1
{"error":null,"id":9,"result":[{"rows":[{"name":"s1"}]}]}

{"error":null,"id":1,"result":[{"uuid":["uuid","00000000-0000-4000-8000-000000000002"]}]}
{"error":null,"id":2,"result":[{"uuid":["uuid","00000000-0000-4000-8000-000000000004"]},{"error":"I/O error"}]} 1
{"error":null,"id":9,"result":[{"rows":[{"name":"s1"}]}]}

{"error":null,"id":1,"result":[{"uuid":["uuid","00000000-0000-4000-8000-000000000002"]}]}
{"error":null,"id":2,"result":[{"uuid":["uuid","00000000-0000-4000-8000-000000000004"]},{"error":"I/O error"}]} 1
{"error":null,"id":9,"result":[{"rows":[{"name":"s1"},{"name":"s2"}]}]}

{"error":null,"id":1,"result":[{"uuid":["uuid","00000000-0000-4000-8000-000000000002"]}]}
{"error":null,"id":2,"result":[{"uuid":["uuid","00000000-0000-4000-8000-000000000004"]}]}
{"error":null,"id":9,"result":[{"rows":[{"name":"s1"},{"name":"s2"}]}]}

"#;

#[test]
fn stopped_inserts_leave_none_the_first_or_both(rt: HostRuntime) -> Result<(), Fail> {
    stops(rt.alloc(), &INSERTS, INSERTED)
}

#[test]
fn after_a_failure_nothing_is_committed(rt: HostRuntime) -> Result<(), Fail> {
    fails_once(rt.alloc(), &INSERTS, INSERTED)
}

/// A commit that fails is found whole or not at all; one that was answered is found.
const ONE: &str = "0 answered, 0 found
0 answered, 1 found
1 answered, 1 found
";

/// A row gets another value.
const UPDATE: Case<'static> = Case {
    before: Before::Messages(
        r#"{"id":1,"method":"transact","params":["Net",{"op":"insert","table":"Switch","row":{"name":"s1"}}]}"#,
    ),
    schema: NET,
    messages: r#"{"id":2,"method":"transact","params":["Net",{"op":"update","table":"Switch","where":[],"row":{"load":5}}]}"#,
    look: r#"{"id":9,"method":"transact","params":["Net",{"op":"select","table":"Switch","where":[],"columns":["load","name"]}]}"#,
    answers: r#"{"error":null,"id":9,"result":[{"rows":[{"load":0,"name":"s1"}]}]}
{"error":null,"id":9,"result":[{"rows":[{"load":5,"name":"s1"}]}]}"#,
    is_in_full: false,
    is_opened: false,
};

#[test]
fn a_stopped_update_is_found_whole_or_not_at_all(rt: HostRuntime) -> Result<(), Fail> {
    stops(rt.alloc(), &UPDATE, ONE)
}

/// Deleting a switch also deletes its two ports, and clears the other switch's weak reference to one of them.
const DELETE: Case<'static> = Case {
    before: Before::Messages(
        r#"{"id":1,"method":"transact","params":["Net",{"op":"insert","table":"Port","uuid-name":"p1","row":{"name":"p1"}},{"op":"insert","table":"Port","uuid-name":"p2","row":{"name":"p2"}},{"op":"insert","table":"Switch","row":{"name":"s1","ports":["set",[["named-uuid","p1"],["named-uuid","p2"]]]}},{"op":"insert","table":"Switch","row":{"main":["named-uuid","p1"],"name":"s2"}}]}"#,
    ),
    schema: NET,
    messages: r#"{"id":2,"method":"transact","params":["Net",{"op":"delete","table":"Switch","where":[["name","==","s1"]]}]}"#,
    look: r#"{"id":9,"method":"transact","params":["Net",{"op":"select","table":"Port","where":[],"columns":["name"]},{"op":"select","table":"Switch","where":[],"columns":["main","name"]}]}"#,
    answers: r#"{"error":null,"id":9,"result":[{"rows":[{"name":"p1"},{"name":"p2"}]},{"rows":[{"main":["set",[]],"name":"s1"},{"main":["uuid","00000000-0000-4000-8000-000000000002"],"name":"s2"}]}]}
{"error":null,"id":9,"result":[{"rows":[]},{"rows":[{"main":["set",[]],"name":"s2"}]}]}"#,
    is_in_full: false,
    is_opened: false,
};

#[test]
fn a_stopped_delete_takes_all_or_nothing_with_it(rt: HostRuntime) -> Result<(), Fail> {
    stops(rt.alloc(), &DELETE, ONE)
}

/// One transaction of this number of inserts.
pub(crate) fn inserts(alloc: Global, count: u64) -> Result<String, AllocError> {
    let mut message = String::from_str(
        alloc,
        "{\"id\":1,\"method\":\"transact\",\"params\":[\"Net\"",
    )?;
    for number in 0..count {
        let insert = format!(in alloc;
            ",{{\"op\":\"insert\",\"table\":\"Switch\",\"row\":{{\"name\":\"s{number}\"}}}}"
        )?;
        message.push_str(insert.as_str())?;
    }
    message.push_str("]}")?;
    Ok(message)
}

/// Counts the switches, and changes nothing.
const COUNT: &str =
    r#"{"id":9,"method":"transact","params":["Net",{"op":"update","table":"Switch","where":[],"row":{}}]}"#;

/// A transaction of 250 rows, which have a thousand cells. A file fails after each number of calls.
fn thousand(messages: &str) -> Case<'_> {
    Case {
        before: Before::Messages(""),
        schema: NET,
        messages,
        look: COUNT,
        answers: r#"{"error":null,"id":9,"result":[{"count":0}]}
{"error":null,"id":9,"result":[{"count":250}]}"#,
        is_in_full: false,
        is_opened: false,
    }
}

#[test]
fn a_stopped_commit_of_a_thousand_cells_is_found_whole_or_not_at_all(
    rt: HostRuntime,
) -> Result<(), Fail> {
    let message = inserts(rt.alloc(), 250)?;
    stops(rt.alloc(), &thousand(message.as_str()), ONE)
}
