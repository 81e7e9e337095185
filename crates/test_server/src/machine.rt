use crate::made::tells_as;
use crate::steps::{NetCore, steps};
use ov_core::Core;
use ov_db::{OpenFault, RefusedOpen};
use ov_keeper::Keeper;
use std::alloc::{AllocError, Global};
use std::test::Fail;
use test_basics::{
    Counter, Faults, NET, NetKeeper, failing, holds, is_text, keeper_of, net, net_keeper,
};

/// Up to 64 sessions are open, each with its own key. The key of a closed session is used again.
const SIXTY_FOUR: &str = r#"free -> 64
next -> 1
opens 32 -> 0;1;2;3;4;5;6;7;8;9;10;11;12;13;14;15;16;17;18;19;20;21;22;23;24;25;26;27;28;29;30;31;
free -> 32
opens 32 -> 32;33;34;35;36;37;38;39;40;41;42;43;44;45;46;47;48;49;50;51;52;53;54;55;56;57;58;59;60;61;62;63;
free -> 0
next -> 65
open 5 -> Refused(TooMany)
next -> 65
end 7 -> Done
free -> 1
is_open 6 -> true
is_open 7 -> false
is_open 64 -> true
open 0 -> Opened(Session { key: 6, serial: 65 })
open 0 -> Refused(TooMany)
free -> 0
next -> 66"#;

/// Each of two sessions receives the replies to its own requests, in the order of the requests.
const INTERLEAVED: &str = r#"open 0 -> Opened(Session { key: 0, serial: 1 })
open 0 -> Opened(Session { key: 1, serial: 2 })
take 1 {"id":1,"method":"list_dbs","params":[]} -> Done
take 2 {"id":2,"method":"list_dbs","params":[]} -> Done
take 1 {"id":3,"method":"list_dbs","params":[]} -> Done
frame 2 -> {"error":null,"id":2,"result":["Net"]}
frame 2 -> none
output 1 -> {"error":null,"id":1,"result":["Net"]}{"error":null,"id":3,"result":["Net"]}
close 1 -> true
take 2 {"id":4,"method":"list_dbs","params":[]} -> Done
output 2 -> {"error":null,"id":4,"result":["Net"]}
output 1"#;

/// Frames that wait for a closed session can be discarded; those that wait for an open one can't.
const DISCARDED: &str = r#"open 0 -> Opened(Session { key: 0, serial: 1 })
open 0 -> Opened(Session { key: 1, serial: 2 })
take 1 {"id":1,"method":"list_dbs","params":[]} -> Done
take 1 {"id":2,"method":"list_dbs","params":[]} -> Done
take 2 {"id":3,"method":"list_dbs","params":[]} -> Done
discard 1
frame 1 -> {"error":null,"id":1,"result":["Net"]}
close 1 -> true
discard 1
frame 1 -> none
discard 1
close 2 -> true
frame 2 -> {"error":null,"id":3,"result":["Net"]}
frame 2 -> none"#;

/// Serials are not reused.
const SERIALS: &str = r#"open 0 -> Opened(Session { key: 0, serial: 1 })
end 1 -> Done
open 0 -> Opened(Session { key: 0, serial: 2 })
is_open 1 -> false
end 1 -> Refused(NotOpen)"#;

/// A closed session is handed what waits for it, and nothing more.
const CLOSED: &str = r#"open 0 -> Opened(Session { key: 0, serial: 1 })
take 1 {"id":0,"method":"list_dbs","params":[]} -> Done
close 1 -> true
take 1 {"id":0,"method":"list_dbs","params":[]} -> Refused(NotOpen)
close 1 -> false
moments -> 0;0;0;
frame 1 -> {"error":null,"id":0,"result":["Net"]}
frame 1 -> none"#;

/// Waiting frames are handed out joined, and only once.
const HANDED_OUT: &str = r#"open 0 -> Opened(Session { key: 0, serial: 1 })
take 1 {"id":0,"method":"list_dbs","params":[]} -> Done
take 1 {"id":0,"method":"list_dbs","params":[]} -> Done
take 1 {"id":0,"method":"list_dbs","params":[]} -> Done
output 2
frame 1 -> {"error":null,"id":0,"result":["Net"]}
output 1 -> {"error":null,"id":0,"result":["Net"]}{"error":null,"id":0,"result":["Net"]}
output 1"#;

/// An earlier moment counts as the last one.
const MOMENTS: &str = r#"tick 5 -> Done
tick 3 -> Done
open 9 -> Opened(Session { key: 0, serial: 1 })
close 1 -> true
moments -> 5;5;9;9;"#;

/// The history keeps the last 4,096 entries.
const NEWEST: &str = r#"open 0 -> Opened(Session { key: 0, serial: 1 })
echoes 0 4095
entries -> 4096
first -> open
echoes 4095 4096
entries -> 4096
first -> {"id":0,"method":"echo","params":[]}
echoes 4096 4097
entries -> 4096
first -> {"id":1,"method":"echo","params":[]}"#;

#[test]
fn sixty_four_sessions_are_open_at_most(rt: HostRuntime) -> Result<(), Fail> {
    steps(rt.alloc(), SIXTY_FOUR)
}

#[test]
fn each_session_is_answered_its_own_requests(rt: HostRuntime) -> Result<(), Fail> {
    steps(rt.alloc(), INTERLEAVED)
}

#[test]
fn what_waits_for_a_closed_session_can_be_dropped(rt: HostRuntime) -> Result<(), Fail> {
    steps(rt.alloc(), DISCARDED)
}

#[test]
fn serials_are_not_used_again(rt: HostRuntime) -> Result<(), Fail> {
    steps(rt.alloc(), SERIALS)
}

#[test]
fn a_closed_session_is_handed_what_waits_and_nothing_more(rt: HostRuntime) -> Result<(), Fail> {
    steps(rt.alloc(), CLOSED)
}

#[test]
fn what_waits_is_handed_out_joined_and_once(rt: HostRuntime) -> Result<(), Fail> {
    steps(rt.alloc(), HANDED_OUT)
}

#[test]
fn an_earlier_moment_counts_as_the_last_one(rt: HostRuntime) -> Result<(), Fail> {
    steps(rt.alloc(), MOMENTS)
}

#[test]
fn the_newest_entries_are_kept(rt: HostRuntime) -> Result<(), Fail> {
    steps(rt.alloc(), NEWEST)
}

/// The refusal of a machine. Fails if the machine was opened.
fn refused(
    opened: Result<NetCore, RefusedOpen<NetKeeper>>,
) -> Result<RefusedOpen<NetKeeper>, Fail> {
    match opened {
        Ok(_) => Err(Fail::new("opened")),
        Err(refused) => Ok(refused),
    }
}

/// The refusal of a machine over this keeper.
fn refused_over(alloc: Global, keeper: NetKeeper) -> Result<RefusedOpen<NetKeeper>, Fail> {
    let schema = net(alloc)?;
    refused(Core::open(alloc, keeper, schema, Counter::new()))
}

/// Why a machine is not opened over a keeper with this schema text and these lines.
fn refusal(alloc: Global, stored: &str, lines: &str) -> Result<OpenFault, Fail> {
    let keeper = failing(keeper_of(alloc, stored, lines)?, Faults::NONE);
    Ok(refused_over(alloc, keeper)?.fault)
}

/// Fails unless a machine is refused for this reason.
fn refuses(alloc: Global, stored: &str, lines: &str, wanted: &str) -> Result<(), Fail> {
    let fault = refusal(alloc, stored, lines)?;
    tells_as(alloc, format!(in alloc; "{fault:?}"), wanted)
}

/// A port that no row refers to.
const UNUSED: &str = r#"Port 1 0 {"name":"p1","peer":["set",[]],"tag":7}"#;

/// A schema of another name.
const OTHER: &str = r#"{"name":"Other","tables":{"T":{"columns":{"a":{"type":"string"}}}}}"#;

/// A text that is no schema, since it has no tables.
const NO_SCHEMA: &str = r#"{"name":"Other"}"#;

#[test]
fn a_database_that_does_not_fit_is_not_opened(rt: HostRuntime) -> Result<(), Fail> {
    refuses(rt.alloc(), OTHER, "", "SchemaDiffers")?;
    refuses(rt.alloc(), NO_SCHEMA, "", "BadBody")?;
    refuses(rt.alloc(), NET, "Port 1 0 {}", "BadBody")?;
    refuses(rt.alloc(), NET, UNUSED, "Broken")
}

/// A machine over this keeper.
fn opened_over(alloc: Global, keeper: NetKeeper) -> Result<NetCore, Fail> {
    let schema = net(alloc)?;
    Ok(Core::open(alloc, keeper, schema, Counter::new())?)
}

/// A machine over a keeper that holds a switch.
fn over_a_switch(alloc: Global) -> Result<NetCore, Fail> {
    let switch = r#"Switch 1 0 {"load":5,"main":["set",[]],"name":"s1","ports":["set",[]]}"#;
    let keeper = keeper_of(alloc, NET, switch)?;
    opened_over(alloc, failing(keeper, Faults::NONE))
}

/// The number of failures that it has counted.
fn failures_over_a_switch(alloc: Global) -> Result<u64, Fail> {
    let core = over_a_switch(alloc)?;
    core.shows_kept();
    Ok(core.failures())
}

/// A machine states what holds of its rows without calling the keeper.
#[test]
fn a_machine_tells_that_its_rows_are_whole(rt: HostRuntime) -> Result<(), Fail> {
    let failures = failures_over_a_switch(rt.alloc())?;
    holds(rt.alloc(), failures == 0, "the keeper has not failed")
}

/// The refusal of a machine over a keeper whose first load fails.
fn refused_at_the_load(alloc: Global) -> Result<RefusedOpen<NetKeeper>, Fail> {
    let mut keeper = net_keeper(alloc, Faults::NONE)?;
    keeper.bad_loads = 1;
    refused_over(alloc, keeper)
}

/// The number of failures that a machine over this keeper has counted when it is opened.
fn failures_of(alloc: Global, keeper: NetKeeper) -> Result<u64, Fail> {
    let core = opened_over(alloc, keeper)?;
    Ok(core.failures())
}

/// A fault, and the failures that were counted before and after.
fn failures_text(
    alloc: Global,
    fault: OpenFault,
    before: u64,
    after: u64,
) -> Result<String, AllocError> {
    format!(in alloc; "{fault:?} {before} {after}")
}

/// The fault of a refusal, and the failures that its keeper has counted, and then a machine over it.
fn opened_again(alloc: Global, refused: RefusedOpen<NetKeeper>) -> Result<String, Fail> {
    let RefusedOpen {
        fault,
        keeper,
        schema: _,
    } = refused;
    let before = keeper.failures();
    let after = failures_of(alloc, keeper)?;
    Ok(failures_text(alloc, fault, before, after)?)
}

/// The device's failure is reported and counted, and the keeper that is handed back can be opened.
#[test]
fn a_refused_opening_gives_the_keeper_back(rt: HostRuntime) -> Result<(), Fail> {
    let told = opened_again(rt.alloc(), refused_at_the_load(rt.alloc())?)?;
    is_text(rt.alloc(), told.as_str(), "Keeping(Device) 1 1")
}
