//! A session that takes nothing of what it is sent, while another one commits.

use crate::made::calls_as;
use std::alloc::{AllocError, Global};
use std::test::Fail;

/// The number of commits after the first: more updates wait than a session at the desk may leave unread.
const COMMITS: u64 = 1_100;

/// Session 1 has a monitor, and session 2 inserts the row.
const INSERTED: &str = r#"open 2 -> 1;2;
call 1 1 monitor ["Net","m",{"Switch":{"columns":["load"],"select":{"insert":false}}}] -> {"error":null,"id":1,"result":{}}
call 2 0 transact ["Net",{"op":"insert","table":"Switch","row":{"name":"s1"}}] -> {"error":null,"id":0,"result":[{"uuid":["uuid","00000000-0000-4000-8000-000000000002"]}]}"#;

/// The line of a commit that changes the load.
fn commit_to(alloc: Global, load: u64) -> Result<String, AllocError> {
    format!(in alloc;
        "call 2 {load} transact [\"Net\",{{\"op\":\"update\",\"table\":\"Switch\",\"where\":[],\"row\":{{\"load\":{load}}}}}] -> {{\"error\":null,\"id\":{load},\"result\":[{{\"count\":1}}]}}\n"
    )
}

/// The update that it sends.
fn update_to(alloc: Global, load: u64) -> Result<String, AllocError> {
    let before = load.saturating_sub(1);
    format!(in alloc;
        "{{\"id\":null,\"method\":\"update\",\"params\":[\"m\",{{\"Switch\":{{\"00000000-0000-4000-8000-000000000002\":{{\"new\":{{\"load\":{load}}},\"old\":{{\"load\":{before}}}}}}}}}]}}"
    )
}

/// The lines of all commits.
fn commits(alloc: Global) -> Result<String, AllocError> {
    let mut lines = String::new(alloc);
    for load in 1..COMMITS + 1 {
        lines.push_str(commit_to(alloc, load)?.as_str())?;
    }
    Ok(lines)
}

/// All updates, joined.
fn updates(alloc: Global) -> Result<String, AllocError> {
    let mut frames = String::new(alloc);
    for load in 1..COMMITS + 1 {
        frames.push_str(update_to(alloc, load)?.as_str())?;
    }
    Ok(frames)
}

/// Session 1 is sent all updates, and both sessions go on.
fn untaken(alloc: Global) -> Result<String, AllocError> {
    let commits = commits(alloc)?;
    let updates = updates(alloc)?;
    format!(in alloc;
        "{INSERTED}\n{commits}got 1 -> {updates}\ncall 1 2 echo [] -> {{\"error\":null,\"id\":2,\"result\":[]}}\ncall 2 0 echo [] -> {{\"error\":null,\"id\":0,\"result\":[]}}"
    )
}

#[test]
fn updates_may_wait_for_a_session_that_takes_none(rt: HostRuntime) -> Result<(), Fail> {
    calls_as(rt.alloc(), untaken(rt.alloc()))
}
