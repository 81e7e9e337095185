use crate::attempts::wait_text;
use crate::owning::OwnsOne;
use ov_base::Trees;
use ov_given::NamedRows;
use ov_ops::{OpCtx, OpOutcome, run_op};
use ov_results::OpResult;
use ov_rows::{RowKey, Rows};
use ov_schema::Schema;
use ov_stage::Stage;
use ov_txn::Txn;
use serde_json::Value;
use std::alloc::{AllocError, Global};
use std::test::Fail;
use test_basics::{Counter, Scripted, agrees, net, number, switch, trees};
use uuid::Uuid;

/// Operations on the rows of a database Net, as in a transaction of this age. The outcome is their results, followed by how
/// many rows they change, the error of the last one, or how long it waits.
#[derive(Drop)]
struct Operations<'a> {
    schema: &'a Schema,
    rows: &'a Rows,
    age: u64,
}

/// Adds a result, after which the next operation is tried.
fn push_result(alloc: Global, results: &mut String, made: &OpResult) -> Result<bool, Fail> {
    let text = String::from_utf8(made.to_bytes(alloc)?.into_vec())?;
    results.push_str(text.as_str())?;
    results.push_str(" ")?;
    Ok(true)
}

/// Adds an error, after which none is tried.
fn push_error(results: &mut String, error: &str) -> Result<bool, Fail> {
    results.push_str(error)?;
    Ok(false)
}

/// Adds how long a transaction waits.
fn push_wait(alloc: Global, results: &mut String, timeout: Option<u64>) -> Result<bool, Fail> {
    let wait = wait_text(alloc, timeout)?;
    push_error(results, wait.as_str())
}

/// Adds the outcome of an operation, and returns whether the next one is tried.
fn push_outcome(alloc: Global, results: &mut String, outcome: OpOutcome) -> Result<bool, Fail> {
    match outcome {
        OpOutcome::Done(result) => push_result(alloc, results, &result),
        OpOutcome::Fault(error) => push_error(results, error.text()),
        OpOutcome::Blocked(timeout) => push_wait(alloc, results, timeout),
        OpOutcome::NoMemory => Err(AllocError.into()),
    }
}

/// Adds the outcomes of operations, and returns whether all of them are done.
fn push_outcomes<'a>(
    alloc: Global,
    results: &mut String,
    stage: &mut Stage<'_>,
    ctx: &OpCtx<'a, '_, '_, '_, OwnsOne>,
    trees: &'a [Value],
) -> Result<bool, Fail> {
    for place in 0..trees.len() {
        let outcome = run_op(alloc, stage, ctx, place, &trees[place]);
        if !push_outcome(alloc, results, outcome)? {
            return Ok(false);
        }
    }
    Ok(true)
}

/// Adds how many rows a stage changes.
fn push_changes(alloc: Global, results: &mut String, stage: Stage<'_>) -> Result<(), Fail> {
    let changes = stage.into_delta().map().len();
    let text = format!(in alloc; "{changes}")?;
    results.push_str(text.as_str())?;
    Ok(())
}

impl Operations<'_> {
    /// Adds the outcomes of operations on the rows, and how many rows they change.
    fn push_all<'a>(
        &self,
        alloc: Global,
        results: &mut String,
        ctx: &OpCtx<'a, '_, '_, '_, OwnsOne>,
        operations: &'a Trees,
    ) -> Result<(), Fail> {
        let mut stage = Stage::new(alloc, self.rows);
        if push_outcomes(alloc, results, &mut stage, ctx, operations.as_slice())? {
            push_changes(alloc, results, stage)?;
        }
        Ok(())
    }

    /// The outcome of operations for which this version and these identifiers were drawn.
    fn run(
        &self,
        alloc: Global,
        operations: &Trees,
        version: Uuid,
        ids: &[Uuid],
    ) -> Result<String, Fail> {
        let inserts = NamedRows::new(alloc, ids, operations)?;
        let ctx = OpCtx {
            schema: self.schema,
            inserts: &inserts,
            owns: &OwnsOne { lock: "mine" },
            version,
            age: self.age,
        };
        let mut results = String::new(alloc);
        self.push_all(alloc, &mut results, &ctx, operations)?;
        Ok(results)
    }
}

impl Scripted for Operations<'_> {
    fn answer(&mut self, alloc: Global, command: &str) -> Result<String, Fail> {
        let operations = trees(alloc, command)?;
        let txn = Txn::read(alloc, trees(alloc, command)?, &mut Counter::new())?;
        let (version, ids) = txn.draws().split_at(1);
        self.run(alloc, &operations, version[0], ids)
    }
}

/// The key of a switch or a port in a text: its table, and its identifier as a number.
fn key_of(alloc: Global, text: &str) -> Result<RowKey, Fail> {
    let (table, id) = text.split_once(" ").ok_or("no identifier")?;
    Ok(RowKey::new(alloc, table, number(id)?)?)
}

/// Puts a switch at a key.
fn put_row(alloc: Global, rows: &mut Rows, text: &str) -> Result<(), Fail> {
    let key = key_of(alloc, text)?;
    let row = switch(alloc, "s1", 4)?;
    rows.insert(alloc, &key, row)?;
    Ok(())
}

/// A switch at each of these keys.
fn rows_at(alloc: Global, keys: &str) -> Result<Rows, Fail> {
    let mut rows = Rows::new(alloc);
    for key in keys.lines() {
        put_row(alloc, &mut rows, key)?;
    }
    Ok(rows)
}

/// Fails unless the operations of each line have the outcome that it lists, with a switch at each of these keys.
fn run_over(alloc: Global, keys: &str, age: u64, script: &str) -> Result<(), Fail> {
    let rows = rows_at(alloc, keys)?;
    let schema = net(alloc)?;
    let operations = Operations {
        schema: &schema,
        rows: &rows,
        age,
    };
    agrees(alloc, operations, script)
}

/// The same without rows, in a database of this schema.
pub(crate) fn run_without_rows(alloc: Global, schema: &Schema, script: &str) -> Result<(), Fail> {
    let rows = Rows::new(alloc);
    let operations = Operations {
        schema,
        rows: &rows,
        age: 0,
    };
    agrees(alloc, operations, script)
}

/// A name stands for its row before the insert that declares it, and also in conditions.
const NAMED: &str =
    r#"[{"op":"insert","table":"Switch","row":{"name":"s1","ports":["named-uuid","p"]}},{"op":"insert","table":"Port","uuid-name":"p","row":{"name":"p1"}},{"op":"select","table":"Switch","where":[["ports","includes",["named-uuid","p"]]],"columns":["ports"]}] -> {"uuid":["uuid","00000000-0000-4000-8000-000000000002"]} {"uuid":["uuid","00000000-0000-4000-8000-000000000003"]} {"rows":[{"ports":["uuid","00000000-0000-4000-8000-000000000003"]}]} 2
[{"op":"insert","table":"Port","uuid-name":"p","row":{}},{"op":"delete","table":"Port","where":[["_uuid","==",["named-uuid","p"]]]}] -> {"uuid":["uuid","00000000-0000-4000-8000-000000000002"]} {"count":1} 0
[{"op":"insert","table":"Port","uuid-name":"p","row":{}},{"op":"insert","table":"Port","uuid-name":"p","row":{}}] -> {"uuid":["uuid","00000000-0000-4000-8000-000000000002"]} duplicate uuid-name
[{"op":"comment","comment":"c","uuid-name":"p"},{"op":"insert","table":"Port","uuid-name":"p","row":{}}] -> {} {"uuid":["uuid","00000000-0000-4000-8000-000000000002"]} 1
[{"op":"insert","table":"Port","uuid-name":"1p","row":{}}] -> syntax error
[{"op":"insert","table":"Port","uuid-name":null,"row":{}}] -> syntax error
[{"op":"insert","table":"Port","row":{"peer":["named-uuid","q"]}}] -> syntax error"#;

#[test]
fn named_uuid_used_before(rt: HostRuntime) -> Result<(), Fail> {
    run_over(rt.alloc(), "", 0, NAMED)
}

/// Two committed switches, and a port.
const COMMITTED: &str = "Switch 9
Port 4
Switch 3";

/// An insert has the identifier that it chooses in place of its draw, and so does its name, unless its table has or had a row
/// with it.
const CHOSEN: &str =
    r#"[{"op":"insert","table":"Switch","uuid":"00000000-0000-4000-9000-000000000001","row":{"name":"s1"}},{"op":"select","table":"Switch","where":[["_uuid","==",["uuid","00000000-0000-4000-9000-000000000001"]]],"columns":["_uuid","name"]}] -> {"uuid":["uuid","00000000-0000-4000-9000-000000000001"]} {"rows":[{"_uuid":["uuid","00000000-0000-4000-9000-000000000001"],"name":"s1"}]} 1
[{"op":"insert","table":"Switch","uuid":["uuid","00000000-0000-4000-9000-000000000001"],"row":{}},{"op":"insert","table":"Switch","row":{}}] -> {"uuid":["uuid","00000000-0000-4000-9000-000000000001"]} {"uuid":["uuid","00000000-0000-4000-8000-000000000003"]} 2
[{"op":"insert","table":"Switch","uuid":"AAAAAAAA-BBBB-4CCC-9DDD-EEEEEEEEEEEE","row":{}}] -> {"uuid":["uuid","aaaaaaaa-bbbb-4ccc-9ddd-eeeeeeeeeeee"]} 1
[{"op":"insert","table":"Switch","uuid":"00000000-0000-4000-9000-000000000001","row":{}},{"op":"insert","table":"Switch","uuid":["uuid","00000000-0000-4000-9000-000000000001"],"row":{}}] -> {"uuid":["uuid","00000000-0000-4000-9000-000000000001"]} duplicate uuid
[{"op":"insert","table":"Switch","uuid":"00000000-0000-4000-9000-000000000001","row":{}},{"op":"insert","table":"Port","uuid":"00000000-0000-4000-9000-000000000001","row":{}}] -> {"uuid":["uuid","00000000-0000-4000-9000-000000000001"]} {"uuid":["uuid","00000000-0000-4000-9000-000000000001"]} 2
[{"op":"insert","table":"Switch","uuid":"00000000-0000-0000-0000-000000000009","row":{}}] -> duplicate uuid
[{"op":"insert","table":"Switch","uuid":"00000000-0000-0000-0000-000000000004","row":{}}] -> {"uuid":["uuid","00000000-0000-0000-0000-000000000004"]} 1
[{"op":"delete","table":"Switch","where":[]},{"op":"insert","table":"Switch","uuid":"00000000-0000-0000-0000-000000000009","row":{}}] -> {"count":2} duplicate uuid
[{"op":"delete","table":"Switch","where":[]},{"op":"insert","table":"Switch","uuid":"00000000-0000-4000-9000-000000000001","row":{}}] -> {"count":2} {"uuid":["uuid","00000000-0000-4000-9000-000000000001"]} 3
[{"op":"insert","table":"Port","uuid":"00000000-0000-4000-9000-000000000001","row":{}},{"op":"delete","table":"Port","where":[["_uuid","==",["uuid","00000000-0000-4000-9000-000000000001"]]]},{"op":"insert","table":"Port","uuid":"00000000-0000-4000-9000-000000000001","row":{}}] -> {"uuid":["uuid","00000000-0000-4000-9000-000000000001"]} {"count":1} {"uuid":["uuid","00000000-0000-4000-9000-000000000001"]} 1
[{"op":"insert","table":"Switch","uuid":"00000000-0000-4000-8000-000000000003","row":{}},{"op":"insert","table":"Switch","row":{}}] -> {"uuid":["uuid","00000000-0000-4000-8000-000000000003"]} duplicate uuid
[{"op":"insert","table":"Switch","row":{"ports":["named-uuid","p"]}},{"op":"insert","table":"Port","uuid":"00000000-0000-4000-9000-000000000001","uuid-name":"p","row":{}},{"op":"select","table":"Switch","where":[["ports","includes",["named-uuid","p"]]],"columns":["ports"]}] -> {"uuid":["uuid","00000000-0000-4000-8000-000000000002"]} {"uuid":["uuid","00000000-0000-4000-9000-000000000001"]} {"rows":[{"ports":["uuid","00000000-0000-4000-9000-000000000001"]}]} 2
[{"op":"insert","table":"Switch","row":{"ports":["named-uuid","p"]}},{"op":"select","table":"Switch","where":[["ports","includes",["named-uuid","p"]]],"columns":["ports"]},{"op":"insert","table":"Port","uuid":7,"uuid-name":"p","row":{}}] -> {"uuid":["uuid","00000000-0000-4000-8000-000000000002"]} {"rows":[{"ports":["uuid","00000000-0000-4000-8000-000000000003"]}]} syntax error
[{"op":"insert","table":"Port","uuid-name":"p","row":{}},{"op":"insert","table":"Port","uuid":"00000000-0000-4000-9000-000000000001","uuid-name":"p","row":{}}] -> {"uuid":["uuid","00000000-0000-4000-8000-000000000002"]} duplicate uuid-name"#;

#[test]
fn identifiers_are_chosen(rt: HostRuntime) -> Result<(), Fail> {
    run_over(rt.alloc(), COMMITTED, 0, CHOSEN)
}

/// No row, one, and all of them; a row that is as it was before is not a change.
const CHANGED: &str =
    r#"[{"op":"update","table":"Switch","where":[["name","==","s9"]],"row":{"load":5}}] -> {"count":0} 0
[{"op":"update","table":"Switch","where":[["_uuid","==",["uuid","00000000-0000-0000-0000-000000000003"]]],"row":{"load":5}},{"op":"select","table":"Switch","where":[["load","==",5]],"columns":["_uuid","_version"]}] -> {"count":1} {"rows":[{"_uuid":["uuid","00000000-0000-0000-0000-000000000003"],"_version":["uuid","00000000-0000-4000-8000-000000000001"]}]} 1
[{"op":"update","table":"Switch","where":[],"row":{"load":5,"name":"n"}},{"op":"select","table":"Switch","where":[],"columns":["load","name"]}] -> {"count":2} {"rows":[{"load":5,"name":"n"}]} 2
[{"op":"update","table":"Switch","where":[],"row":{"load":5}},{"op":"update","table":"Switch","where":[],"row":{"load":4}},{"op":"select","table":"Switch","where":[],"columns":["_version"]}] -> {"count":2} {"count":2} {"rows":[{"_version":["uuid","00000000-0000-0000-0000-000000000001"]}]} 0
[{"op":"update","table":"Switch","where":[],"row":{}}] -> {"count":2} 0
[{"op":"update","table":"Switch","where":[],"row":{"_uuid":["uuid","00000000-0000-0000-0000-000000000001"]}}] -> constraint violation
[{"op":"update","table":"Switch","where":[],"row":{"_version":1}}] -> constraint violation
[{"op":"update","table":"Switch","where":[],"row":{"load":["set",[]]}}] -> constraint violation
[{"op":"update","table":"Switch","where":[],"row":{"load":true}}] -> syntax error
[{"op":"update","table":"Switch","where":[],"row":{"colour":1,"load":true}}] -> unknown column
[{"op":"update","table":"Switch","where":[]}] -> syntax error
[{"op":"update","table":"Switch","row":{"colour":1}}] -> syntax error
[{"op":"update","table":"Switch","where":[["colour","==",1]],"row":7}] -> unknown column
[{"op":"update","table":"Swich","where":7}] -> unknown table
[{"op":"update"}] -> syntax error"#;

#[test]
fn rows_are_updated(rt: HostRuntime) -> Result<(), Fail> {
    run_over(rt.alloc(), COMMITTED, 0, CHANGED)
}

/// Arithmetic over 64 bits, rounded to zero; sets grow and shrink; the first fault of the first row is reported.
const MUTATED: &str =
    r#"[{"op":"update","table":"Switch","where":[],"row":{"load":9223372036854775807}},{"op":"mutate","table":"Switch","where":[],"mutations":[["load","+=",1]]}] -> {"count":2} range error
[{"op":"mutate","table":"Switch","where":[],"mutations":[["load","/=",0]]}] -> domain error
[{"op":"mutate","table":"Switch","where":[["load","==",7]],"mutations":[["load","/=",0]]}] -> {"count":0} 0
[{"op":"update","table":"Switch","where":[],"row":{"load":-7}},{"op":"mutate","table":"Switch","where":[],"mutations":[["load","%=",2]]},{"op":"select","table":"Switch","where":[],"columns":["load"]}] -> {"count":2} {"count":2} {"rows":[{"load":-1}]} 2
[{"op":"mutate","table":"Switch","where":[],"mutations":[["load","*=",3],["load","-=",2],["load","/=",4]]},{"op":"select","table":"Switch","where":[],"columns":["load"]}] -> {"count":2} {"rows":[{"load":2}]} 2
[{"op":"mutate","table":"Switch","where":[],"mutations":[]}] -> {"count":2} 0
[{"op":"mutate","table":"Switch","where":[],"mutations":[["ports","insert",["uuid","00000000-0000-0000-0000-000000000004"]],["ports","delete",["uuid","00000000-0000-0000-0000-000000000004"]]]}] -> {"count":2} 0
[{"op":"insert","table":"Port","row":{}},{"op":"mutate","table":"Port","where":[["name","==",""]],"mutations":[["tag","insert",4095]]},{"op":"select","table":"Port","where":[["name","==",""]],"columns":["tag"]}] -> {"uuid":["uuid","00000000-0000-4000-8000-000000000002"]} {"count":1} {"rows":[{"tag":4095}]} 1
[{"op":"insert","table":"Port","row":{}},{"op":"mutate","table":"Port","where":[["name","==",""]],"mutations":[["tag","insert",4096]]}] -> {"uuid":["uuid","00000000-0000-4000-8000-000000000002"]} constraint violation
[{"op":"mutate","table":"Switch","where":[],"mutations":[["load","+=",1],["name","+=",1]]}] -> syntax error
[{"op":"mutate","table":"Switch","where":[],"mutations":[["_uuid","insert",1]]}] -> constraint violation
[{"op":"mutate","table":"Switch","where":[],"mutations":[["colour","+=",1]]}] -> unknown column
[{"op":"mutate","table":"Switch","where":[],"mutations":{}}] -> syntax error
[{"op":"mutate","table":"Switch","where":[["colour","==",1]],"mutations":7}] -> unknown column
[{"op":"mutate","table":"Switch","mutations":[]}] -> syntax error
[{"op":"mutate","table":"Swich"}] -> unknown table"#;

#[test]
fn arithmetic_edges(rt: HostRuntime) -> Result<(), Fail> {
    run_over(rt.alloc(), COMMITTED, 0, MUTATED)
}

/// Rows are deleted, counted, and may be inserted again in the same transaction.
const DELETED: &str =
    r#"[{"op":"delete","table":"Switch","where":[["load","==",7]]}] -> {"count":0} 0
[{"op":"delete","table":"Switch","where":[["_uuid","==",["uuid","00000000-0000-0000-0000-000000000009"]]]},{"op":"select","table":"Switch","where":[],"columns":["_uuid"]}] -> {"count":1} {"rows":[{"_uuid":["uuid","00000000-0000-0000-0000-000000000003"]}]} 1
[{"op":"delete","table":"Switch","where":[]},{"op":"insert","table":"Switch","row":{"name":"s1"}},{"op":"select","table":"Switch","where":[],"columns":["_uuid","name"]}] -> {"count":2} {"uuid":["uuid","00000000-0000-4000-8000-000000000002"]} {"rows":[{"_uuid":["uuid","00000000-0000-4000-8000-000000000002"],"name":"s1"}]} 3
[{"op":"insert","table":"Port","row":{}},{"op":"delete","table":"Port","where":[["name","==",""]]},{"op":"delete","table":"Port","where":[]}] -> {"uuid":["uuid","00000000-0000-4000-8000-000000000002"]} {"count":1} {"count":1} 1
[{"op":"delete","table":"Switch","where":[["load","==",true]]}] -> syntax error
[{"op":"delete","table":"Switch","where":null}] -> syntax error
[{"op":"delete","table":7,"where":null}] -> syntax error
[{"op":"delete","table":"Swich","where":null}] -> unknown table"#;

#[test]
fn rows_are_deleted(rt: HostRuntime) -> Result<(), Fail> {
    run_over(rt.alloc(), COMMITTED, 0, DELETED)
}

/// A wait whose rows are, or are not, those that match, in any order and with repeats.
const WAITED: &str =
    r#"[{"op":"wait","table":"Switch","where":[],"columns":["load"],"until":"==","rows":[{"load":4}]}] -> {} 0
[{"op":"wait","table":"Switch","where":[],"columns":["load"],"until":"==","rows":[{"load":4},{"load":4},{"load":4}]}] -> {} 0
[{"op":"wait","table":"Switch","where":[],"columns":["load"],"until":"!=","rows":[{"load":4}]}] -> waits
[{"op":"wait","table":"Switch","timeout":50,"where":[],"columns":["load"],"until":"!=","rows":[{"load":4}]}] -> waits 50
[{"op":"wait","table":"Switch","timeout":49,"where":[],"columns":["load"],"until":"!=","rows":[{"load":4}]}] -> timed out
[{"op":"wait","table":"Switch","timeout":0,"where":[["name","==","s9"]],"columns":["name"],"until":"==","rows":[{"name":"s9"}]}] -> timed out
[{"op":"wait","table":"Switch","where":[["load","==",7]],"until":"==","rows":[]}] -> {} 0
[{"op":"wait","table":"Switch","where":[],"until":"!=","rows":[]}] -> {} 0
[{"op":"wait","table":"Switch","where":[],"columns":[],"until":"==","rows":[{}]}] -> {} 0
[{"op":"wait","table":"Switch","where":[],"columns":["_uuid"],"until":"==","rows":[{"_uuid":["uuid","00000000-0000-0000-0000-000000000009"]},{"_uuid":["uuid","00000000-0000-0000-0000-000000000003"]}]}] -> {} 0
[{"op":"wait","table":"Switch","where":[],"columns":["_uuid"],"until":"!=","rows":[{}]}] -> {} 0
[{"op":"insert","table":"Switch","row":{"name":"s9"}},{"op":"wait","table":"Switch","where":[["name","==","s9"]],"columns":["name","ports"],"until":"==","rows":[{"name":"s9"}]}] -> {"uuid":["uuid","00000000-0000-4000-8000-000000000002"]} {} 1
[{"op":"wait","table":"Switch","where":[],"columns":["load"],"until":"==","rows":[{"name":"s9"}]}] -> syntax error
[{"op":"wait","table":"Switch","where":[],"columns":["load"],"until":"==","rows":[{"load":"s9"}]}] -> syntax error
[{"op":"wait","table":"Switch","where":[],"columns":["load"],"until":"==","rows":7}] -> syntax error
[{"op":"wait","table":"Switch","where":[],"columns":["load"],"until":"=","rows":[]}] -> syntax error
[{"op":"wait","table":"Switch","where":[],"columns":["colour"],"until":"="}] -> unknown column
[{"op":"wait","table":"Switch","where":[],"columns":7,"until":"=="}] -> syntax error
[{"op":"wait","table":"Switch","where":[["colour","==",1]],"columns":7}] -> unknown column
[{"op":"wait","table":"Switch","timeout":-1,"where":[["colour","==",1]]}] -> syntax error
[{"op":"wait","table":"Switch","timeout":null,"where":[["colour","==",1]]}] -> syntax error
[{"op":"wait","table":"Swich","timeout":-1}] -> unknown table"#;

#[test]
fn wait_is_met_or_times_out(rt: HostRuntime) -> Result<(), Fail> {
    run_over(rt.alloc(), COMMITTED, 49, WAITED)
}

/// Operations that change no row, and operations that do not exist.
const OTHERS: &str =
    r#"[{"op":"commit","durable":false},{"op":"commit","durable":true},{"op":"comment","comment":""}] -> {} {} {} 0
[{"op":"commit"}] -> syntax error
[{"op":"commit","durable":1}] -> syntax error
[{"op":"comment"}] -> syntax error
[{"op":"abort","why":1}] -> aborted
[{"op":"erase"}] -> unknown operation
[{"op":"erase"},{"op":"comment","comment":""}] -> unknown operation
[{"op":"select","table":"Swich","where":[]},{"op":"comment","comment":""}] -> unknown table
[{"op":"comment","comment":""},{"op":"select","table":"Switch","where":[],"columns":["colour"]},{"op":"comment","comment":""}] -> {} unknown column
[{"op":"assert","lock":"mine"}] -> {} 0
[{"op":"assert","lock":"min"}] -> not owner
[{"op":"assert","lock":"1"}] -> syntax error
[{"op":"assert","lock":1}] -> syntax error
[{"op":"assert"}] -> syntax error
[{"op":1}] -> syntax error
[{}] -> syntax error
[{"table":"Switch","where":[]}] -> syntax error
[7] -> syntax error"#;

#[test]
fn unknown_names(rt: HostRuntime) -> Result<(), Fail> {
    run_over(rt.alloc(), "", 0, OTHERS)
}

/// The keys of `count` switches.
fn keys_of(alloc: Global, count: u64) -> Result<String, Fail> {
    let mut keys = String::new(alloc);
    for number in 0..count {
        keys.push_str(format!(in alloc; "Switch {number}\n")?.as_str())?;
    }
    Ok(keys)
}

/// How a select shows the switch of a number.
fn shown_row(alloc: Global, number: u64) -> Result<String, Fail> {
    let id = Uuid::from_u128(u128::from(number));
    let comma = if number == 0 { "" } else { "," };
    Ok(format!(in alloc; "{comma}{{\"_uuid\":[\"uuid\",\"{id}\"],\"name\":\"s1\"}}")?)
}

/// How a select shows `count` switches.
fn shown_rows(alloc: Global, count: u64) -> Result<String, Fail> {
    let mut shown = String::new(alloc);
    for number in 0..count {
        shown.push_str(shown_row(alloc, number)?.as_str())?;
    }
    Ok(shown)
}

/// A select that shows `count` switches, in ascending order of their identifiers.
fn select_all(alloc: Global, count: u64) -> Result<String, Fail> {
    let shown = shown_rows(alloc, count)?;
    Ok(format!(in alloc;
        r#"[{{"op":"select","table":"Switch","where":[],"columns":["_uuid","name"]}}] -> {{"rows":[{shown}]}} 0"#
    )?)
}

/// Fails unless a select shows each of `count` rows.
fn shows_all(alloc: Global, count: u64) -> Result<(), Fail> {
    let keys = keys_of(alloc, count)?;
    let script = select_all(alloc, count)?;
    run_over(alloc, keys.as_str(), 0, script.as_str())
}

/// Rows are looked at 64 at a time.
#[test]
fn rows_on_both_sides_of_a_look_are_shown(rt: HostRuntime) -> Result<(), Fail> {
    for count in [63, 64, 65, 129] {
        shows_all(rt.alloc(), count)?;
    }
    Ok(())
}
