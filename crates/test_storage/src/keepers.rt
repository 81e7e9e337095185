use crate::stores::TWO_REWRITES;
use ov_db::OpenFault;
use ov_keeper::KeepFault;
use std::alloc::Global;
use std::test::Fail;
use test_basics::{Faults, Keeping, NET, agrees, failing, is_text, net_keeper, whole_keeper_of};

/// Runs a script over a new keeper in memory of the schema Net, with these faults.
fn keeps(alloc: Global, faults: Faults, script: &str) -> Result<(), Fail> {
    agrees(
        alloc,
        Keeping::new(alloc, net_keeper(alloc, faults)?),
        script,
    )
}

#[test]
fn a_new_keeper_has_the_schema_and_no_row(rt: HostRuntime) -> Result<(), Fail> {
    let script = format!(in rt.alloc(); "schema -> {NET}\nformat -> 2\nlines")?;
    keeps(rt.alloc(), Faults::NONE, script.as_str())
}

#[test]
fn a_commit_is_loaded_back(rt: HostRuntime) -> Result<(), Fail> {
    let script = format!(in rt.alloc();
        "put Switch 1 0 {{\"name\":\"one\"}}
put Port 1 0 {{\"name\":\"two\",\"tag\":2}}
remove Switch 1
commit -> made
schema -> {NET}
lines -> Port 1 0 {{\"name\":\"two\",\"tag\":2}};
failures -> 0"
    )?;
    keeps(rt.alloc(), Faults::NONE, script.as_str())
}

#[test]
fn a_row_takes_the_place_of_the_one_with_its_key(rt: HostRuntime) -> Result<(), Fail> {
    let script = r#"put Port 1 0 {"name":"old","tag":1}
put Port 2 0 {"name":"kept"}
commit -> made
put Port 1 0 {"name":"new"}
commit -> made
lines -> Port 1 0 {"name":"new"};Port 2 0 {"name":"kept"};"#;
    keeps(rt.alloc(), Faults::NONE, script)
}

#[test]
fn a_rewrite_replaces_text_and_rows(rt: HostRuntime) -> Result<(), Fail> {
    keeps(rt.alloc(), Faults::NONE, TWO_REWRITES)
}

#[test]
fn a_rewrite_at_a_failing_device_is_counted(rt: HostRuntime) -> Result<(), Fail> {
    let script = format!(in rt.alloc();
        "put Port 1 0 {{\"tag\":1}}
rewrite newer -> the device failed
failures -> 1
schema -> {NET}
lines
rewrite newer -> made
schema -> newer
lines -> Port 1 0 {{\"tag\":1}};"
    )?;
    let faults = Faults {
        is_too_large: false,
        good: 0,
        bad: 1,
    };
    keeps(rt.alloc(), faults, script.as_str())
}

#[test]
fn a_commit_at_a_failing_device_is_counted(rt: HostRuntime) -> Result<(), Fail> {
    let script = r#"put Port 1 0 {"tag":1}
commit -> the device failed
failures -> 1
lines
commit -> made
lines -> Port 1 0 {"tag":1};
failures -> 1"#;
    let faults = Faults {
        is_too_large: false,
        good: 0,
        bad: 1,
    };
    keeps(rt.alloc(), faults, script)
}

#[test]
fn a_fault_is_told_in_words(rt: HostRuntime) -> Result<(), Fail> {
    let found = format!(in rt.alloc(); "{}", OpenFault::Keeping(KeepFault::Device))?;
    is_text(rt.alloc(), found.as_str(), "the device failed")
}

/// Two lines of format 1, of which the text is not read.
const WHOLE: &str = "Port 1 7 port\nSwitch 1 0 {\"name\": \"one\"}";

/// The lines of format 1 stay until a rewrite is made. Before it nothing is committed.
const FIRST_REWRITE: &str = r#"format -> 1
lines -> Port 1 7 port;Switch 1 0 {"name": "one"};
put Switch 1 1 {"name":"one again"}
commit -> an older format
rewrite newer -> the device failed
format -> 1
schema -> old
lines -> Port 1 7 port;Switch 1 0 {"name": "one"};
rewrite newer -> made
format -> 2
schema -> newer
lines -> Switch 1 1 {"name":"one again"};
put Port 1 8 {"tag":8}
commit -> made
lines -> Port 1 8 {"tag":8};Switch 1 1 {"name":"one again"};
failures -> 1"#;

#[test]
fn lines_of_format_1_stay_until_a_rewrite(rt: HostRuntime) -> Result<(), Fail> {
    let keeper = whole_keeper_of(rt.alloc(), "old", WHOLE)?;
    let faults = Faults {
        is_too_large: false,
        good: 0,
        bad: 1,
    };
    let keeping = Keeping::new(rt.alloc(), failing(keeper, faults));
    agrees(rt.alloc(), keeping, FIRST_REWRITE)
}
