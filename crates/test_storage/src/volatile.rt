//! A keeper in memory for a database that is gone when the program ends. Memory is ample here, so nothing is refused.

use crate::stores::{FOUND, TWO_COMMITS, TWO_REWRITES, kept};
use ov_base::Text;
use ov_keeper::VolatileKeeper;
use std::alloc::Global;
use std::test::Fail;

/// Runs a script over a new keeper.
fn keeps(alloc: Global, script: &str) -> Result<VolatileKeeper, Fail> {
    kept(
        alloc,
        VolatileKeeper::new(Text::from_str(alloc, "new")?),
        script,
    )
}

#[test]
fn what_is_committed_is_loaded(rt: HostRuntime) -> Result<(), Fail> {
    let keeper = keeps(rt.alloc(), TWO_COMMITS)?;
    kept(rt.alloc(), keeper, FOUND)?;
    Ok(())
}

#[test]
fn a_rewrite_replaces_text_and_rows(rt: HostRuntime) -> Result<(), Fail> {
    keeps(rt.alloc(), TWO_REWRITES)?;
    Ok(())
}

#[test]
fn changes_of_one_row_are_made_in_order(rt: HostRuntime) -> Result<(), Fail> {
    let script = r#"put Switch 1 0 {"name":"one"}
remove Switch 1
put Switch 1 1 {"name":"one again"}
put Switch 1 2 {"load":2}
put Port 1 7 {"name":"of another table"}
put Port 2 0 {"name":"gone"}
remove Port 2
put TableWithALongName 1 0 {}
commit -> made
lines -> Port 1 7 {"name":"of another table"};Switch 1 2 {"load":2};TableWithALongName 1 0 {};
schema -> new
remove TableWithALongName 1
remove Switch 1
remove Port 1
commit -> made
lines
failures -> 0"#;
    keeps(rt.alloc(), script)?;
    Ok(())
}

#[test]
fn rows_are_loaded_after_the_map_has_grown(rt: HostRuntime) -> Result<(), Fail> {
    let script = r#"put Port 10 0 {"a":0}
commit -> made
put Port 11 0 {"b":1}
put Port 12 0 {"c":2}
put Port 13 0 {"d":3}
put Port 14 0 {"e":4}
put Port 15 0 {"f":5}
put Port 16 0 {"g":6}
put Port 17 0 {"h":7}
put Port 18 0 {"i":8}
put Port 19 0 {"j":9}
put Port 20 0 {"k":10}
commit -> made
put Port 11 1 {"B":1}
put Port 21 0 {"l":11}
commit -> made
lines -> Port 10 0 {"a":0};Port 11 1 {"B":1};Port 12 0 {"c":2};Port 13 0 {"d":3};Port 14 0 {"e":4};Port 15 0 {"f":5};Port 16 0 {"g":6};Port 17 0 {"h":7};Port 18 0 {"i":8};Port 19 0 {"j":9};Port 20 0 {"k":10};Port 21 0 {"l":11};"#;
    keeps(rt.alloc(), script)?;
    Ok(())
}
