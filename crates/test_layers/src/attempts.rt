use crate::owning::OwnsOne;
use ov_base::Tree;
use ov_db::{Db, Delta, StoreAnswer};
use ov_keeper::Keeper;
use ov_schema::Schema;
use ov_txn::{Draws, Ready, Replies, Tried, Tries, Txn, attempt};
use std::alloc::Global;
use std::test::Fail;
use test_basics::{
    Counter, Faults, NetKeeper, Scripted, agrees, array_text, compact, net, new_keeper,
    schema_of_text, trees,
};
use uuid::Uuid;

/// What follows a commit in tests: the replies that are made ready, and how many rows change.
#[derive(Drop)]
struct Prepared {
    /// Whether the allocation fails.
    is_refused: bool,
    replies: Option<Replies>,
    changes: usize,
}

impl<K: Keeper> Ready<K> for Prepared {
    ghost readies = { λ old db delta replies ready new. Unit {0} };

    fn ready(&mut self, _db: &Db<K>, delta: &Delta, replies: Replies) -> bool {
        self.replies = Some(replies);
        self.changes = delta.map().len();
        !self.is_refused
    }
}

/// Attempts of transactions on a database, each with an age and its operations. An attempt is shown as the results that it is
/// answered with; or as the store's answer, the results that were made ready, and how many rows they change or the error that
/// follows them; or as how long it waits. After `refuse`, allocations for what is made ready fail.
pub(crate) struct Attempts<D> {
    db: Db<NetKeeper>,
    draws: D,
    prepared: Prepared,
}

impl<D: Drop> Drop for Attempts<D> {
    // A drop of its own, so that code that drops them need not prove the drops of all that they hold again.
    fn drop(self) {
        let Attempts {
            db,
            draws,
            prepared,
        } = self;
        drop(db);
        drop(draws);
        drop(prepared);
    }
}

/// How changes that the store keeps are shown.
fn kept_text(alloc: Global, results: &str, changes: usize) -> Result<String, Fail> {
    Ok(format!(in alloc; "kept {results} {changes}")?)
}

/// How changes that it does not keep are shown.
fn unkept_text(alloc: Global, word: &str, results: &str, error: &Tree) -> Result<String, Fail> {
    let error = compact(alloc, error)?;
    Ok(format!(in alloc; "{word} {results} {error}")?)
}

/// How a store's answer is shown, with the replies that were made ready.
fn answer_text(
    alloc: Global,
    answer: StoreAnswer,
    replies: &Replies,
    changes: usize,
) -> Result<String, Fail> {
    let results = array_text(alloc, &replies.kept)?;
    let text = results.as_str();
    match answer {
        StoreAnswer::Kept => kept_text(alloc, text, changes),
        StoreAnswer::Exhausted => unkept_text(alloc, "exhausted", text, &replies.exhausted),
        StoreAnswer::Failed => unkept_text(alloc, "failed", text, &replies.failed),
    }
}

/// How a store's answer is shown.
fn told_stored(
    alloc: Global,
    answer: StoreAnswer,
    prepared: &mut Prepared,
) -> Result<String, Fail> {
    let replies = prepared.replies.take().ok_or("nothing is ready")?;
    answer_text(alloc, answer, &replies, prepared.changes)
}

/// How a transaction that waits is shown.
pub(crate) fn wait_text(alloc: Global, timeout: Option<u64>) -> Result<String, Fail> {
    match timeout {
        Some(timeout) => Ok(format!(in alloc; "waits {timeout}")?),
        None => Ok(String::from_str(alloc, "waits")?),
    }
}

/// How an attempt is shown.
fn told(alloc: Global, tried: Tried, prepared: &mut Prepared) -> Result<String, Fail> {
    match tried {
        Tried::Answer(results) => array_text(alloc, &results),
        Tried::Stored(answer) => told_stored(alloc, answer, prepared),
        Tried::Blocked(timeout) => wait_text(alloc, timeout),
        Tried::NoMemory => Ok(String::from_str(alloc, "no memory")?),
    }
}

impl<D: Draws> Attempts<D> {
    /// Attempts a transaction of this age.
    fn attempt(&mut self, alloc: Global, age: u64, operations: &str) -> Result<String, Fail> {
        let txn = Txn::read(alloc, trees(alloc, operations)?, &mut self.draws)?;
        let mut tries = Tries::new();
        let tried = attempt(
            alloc,
            &mut self.db,
            &txn,
            &OwnsOne { lock: "mine" },
            age,
            &mut tries,
            &mut self.prepared,
        );
        told(alloc, tried, &mut self.prepared)
    }

    /// Makes allocations for what is made ready fail.
    fn refuse(&mut self, alloc: Global) -> Result<String, Fail> {
        self.prepared.is_refused = true;
        Ok(String::new(alloc))
    }
}

impl<D: Draws> Scripted for Attempts<D> {
    fn answer(&mut self, alloc: Global, command: &str) -> Result<String, Fail> {
        match command.split_once(" ") {
            Some((age, operations)) => self.attempt(alloc, age.parse::<u64>()?, operations),
            None => self.refuse(alloc),
        }
    }
}

/// Attempts on a new database of this schema, over a keeper that fails as `faults` says.
fn new_attempts<D: Draws + Drop>(
    alloc: Global,
    schema: Schema,
    draws: D,
    faults: Faults,
) -> Result<Attempts<D>, Fail> {
    let keeper = new_keeper(alloc, &schema, faults)?;
    Ok(Attempts {
        db: Db::open(alloc, keeper, schema)?,
        draws,
        prepared: Prepared {
            is_refused: false,
            replies: None,
            changes: 0,
        },
    })
}

/// Attempts on a new database of the schema in a text, with counted draws.
pub(crate) fn attempts_on(alloc: Global, schema: &str) -> Result<Attempts<Counter>, Fail> {
    let schema = schema_of_text(alloc, schema)?;
    new_attempts(alloc, schema, Counter::new(), Faults::NONE)
}

/// Fails unless the attempts of a script have the outcomes that it lists, on a new database Net over a keeper that fails as
/// `faults` says.
fn attempts_with<D: Draws + Drop>(
    alloc: Global,
    draws: D,
    faults: Faults,
    script: &str,
) -> Result<(), Fail> {
    let attempts = new_attempts(alloc, net(alloc)?, draws, faults)?;
    agrees(alloc, attempts, script)
}

/// The same with counted draws.
pub(crate) fn attempts_over(alloc: Global, faults: Faults, script: &str) -> Result<(), Fail> {
    attempts_with(alloc, Counter::new(), faults, script)
}

/// Always draws the same identifier.
#[derive(Drop)]
struct Same;

impl Draws for Same {
    ghost draws = { λ _ _ _. Unit {0} };

    fn draw(&mut self) -> Uuid {
        Uuid::from_u128(2)
    }
}

/// Rows that look the same are shown once, and columns without a value have their defaults.
const MERGED: &str =
    r#"0 [{"op":"insert","table":"Switch","row":{}},{"op":"insert","table":"Switch","row":{"name":"s1"}},{"op":"select","table":"Switch","where":[],"columns":["main","load","main"]},{"op":"select","table":"Switch","where":[],"columns":["name"]}] -> kept [{"uuid":["uuid","00000000-0000-4000-8000-000000000002"]},{"uuid":["uuid","00000000-0000-4000-8000-000000000003"]},{"rows":[{"load":0,"main":["set",[]]}]},{"rows":[{"name":""},{"name":"s1"}]}] 2"#;

#[test]
fn repeats_merge_and_defaults_are_given(rt: HostRuntime) -> Result<(), Fail> {
    attempts_over(rt.alloc(), Faults::NONE, MERGED)
}

const DRAWN_TWICE: &str =
    r#"0 [{"op":"insert","table":"Switch","row":{"name":"s1"}},{"op":"insert","table":"Switch","row":{"name":"s1"}}] -> [{"uuid":["uuid","00000000-0000-0000-0000-000000000002"]},{"error":"duplicate uuid"}]"#;

#[test]
fn identifiers_are_not_used_twice(rt: HostRuntime) -> Result<(), Fail> {
    attempts_with(rt.alloc(), Same, Faults::NONE, DRAWN_TWICE)
}

/// What changes nothing is not stored: a select, a failure, an update to the current values, an insert that is undone.
const ATTEMPTS: &str =
    r#"0 [{"op":"insert","table":"Switch","row":{"name":"s1"}},{"op":"insert","table":"Switch","row":{"name":"s2"}}] -> kept [{"uuid":["uuid","00000000-0000-4000-8000-000000000002"]},{"uuid":["uuid","00000000-0000-4000-8000-000000000003"]}] 2
0 [{"op":"select","table":"Switch","where":[],"columns":["name"]}] -> [{"rows":[{"name":"s1"},{"name":"s2"}]}]
0 [{"op":"insert","table":"Switch","row":{"name":"s3"}},{"op":"erase"},{"op":"comment"}] -> [{"uuid":["uuid","00000000-0000-4000-8000-000000000006"]},{"error":"unknown operation"},null]
0 [{"op":"update","table":"Switch","where":[["name","==","s1"]],"row":{"name":"s1"}}] -> [{"count":1}]
0 [{"op":"insert","table":"Port","uuid-name":"p","row":{}},{"op":"delete","table":"Port","where":[["_uuid","==",["named-uuid","p"]]]}] -> [{"uuid":["uuid","00000000-0000-4000-8000-000000000009"]},{"count":1}]
0 [{"op":"mutate","table":"Switch","where":[["name","==","s2"]],"mutations":[["load","+=",1]]},{"op":"delete","table":"Switch","where":[["name","==","s1"]]}] -> kept [{"count":1},{"count":1}] 2
0 [] -> []"#;

#[test]
fn what_changes_nothing_is_not_stored(rt: HostRuntime) -> Result<(), Fail> {
    attempts_over(rt.alloc(), Faults::NONE, ATTEMPTS)
}

/// After the first fault the results are null, and nothing of the transaction is done.
const FAULTS: &str =
    r#"0 [{"op":"insert","table":"Switch","row":{}},{"op":"select","table":"Swich","where":[]},{"op":"insert","table":"Switch","row":{}}] -> [{"uuid":["uuid","00000000-0000-4000-8000-000000000002"]},{"error":"unknown table"},null]
0 [{"op":"insert","table":"Switch","row":{}},{"op":"select","table":"Switch","where":[["colour","==",1]]},{"op":"comment","comment":""},{"op":"erase"}] -> [{"uuid":["uuid","00000000-0000-4000-8000-000000000005"]},{"error":"unknown column"},null,null]
0 [{"op":"select","table":"Switch","where":[],"columns":["colour"]},{"op":"select","table":"Swich","where":[]}] -> [{"error":"unknown column"},null]
0 [{},{"op":"insert","table":"Switch","row":{}}] -> [{"error":"syntax error"},null]
0 [{"op":"select","table":"Switch","where":[],"columns":["name"]}] -> [{"rows":[]}]"#;

#[test]
fn results_after_a_fault_are_null(rt: HostRuntime) -> Result<(), Fail> {
    attempts_over(rt.alloc(), Faults::NONE, FAULTS)
}

/// A transaction that waits changes nothing, whatever its operations did; it is given up once its age reaches the timeout.
const WAITS: &str =
    r#"0 [{"op":"insert","table":"Switch","row":{"name":"s1"}}] -> kept [{"uuid":["uuid","00000000-0000-4000-8000-000000000002"]}] 1
49 [{"op":"delete","table":"Switch","where":[]},{"op":"wait","table":"Switch","timeout":50,"where":[],"until":"!=","rows":[]}] -> waits 50
0 [{"op":"wait","table":"Switch","where":[],"until":"==","rows":[]}] -> waits
50 [{"op":"delete","table":"Switch","where":[]},{"op":"wait","table":"Switch","timeout":50,"where":[],"until":"!=","rows":[]}] -> [{"count":1},{"error":"timed out"}]
0 [{"op":"wait","table":"Switch","where":[],"columns":["name"],"until":"==","rows":[{"name":"s1"}]},{"op":"select","table":"Switch","where":[],"columns":["name"]}] -> [{},{"rows":[{"name":"s1"}]}]"#;

#[test]
fn a_wait_that_is_not_met_changes_nothing(rt: HostRuntime) -> Result<(), Fail> {
    attempts_over(rt.alloc(), Faults::NONE, WAITS)
}

/// If an allocation for what is made ready fails, nothing is stored.
const UNREADY: &str = r#"refuse
0 [{"op":"insert","table":"Switch","row":{"name":"s1"}}] -> no memory
0 [{"op":"select","table":"Switch","where":[],"columns":["name"]}] -> [{"rows":[]}]"#;

#[test]
fn nothing_is_stored_before_all_is_ready(rt: HostRuntime) -> Result<(), Fail> {
    attempts_over(rt.alloc(), Faults::NONE, UNREADY)
}

/// The store has no room for the first commit, and accepts the second.
const NO_ROOM: &str =
    r#"0 [{"op":"insert","table":"Switch","row":{"name":"s1"}}] -> exhausted [{"uuid":["uuid","00000000-0000-4000-8000-000000000002"]}] {"error":"resources exhausted"}
0 [{"op":"insert","table":"Switch","row":{"name":"s1"}}] -> kept [{"uuid":["uuid","00000000-0000-4000-8000-000000000004"]}] 1"#;

#[test]
fn a_store_without_room_keeps_nothing(rt: HostRuntime) -> Result<(), Fail> {
    let faults = Faults {
        is_too_large: true,
        good: 0,
        bad: 0,
    };
    attempts_over(rt.alloc(), faults, NO_ROOM)
}

/// After a failure the store is no longer asked.
const FAILED: &str =
    r#"0 [{"op":"insert","table":"Switch","row":{"name":"s1"}}] -> failed [{"uuid":["uuid","00000000-0000-4000-8000-000000000002"]}] {"error":"I/O error"}
0 [{"op":"insert","table":"Switch","row":{"name":"s2"}}] -> [{"uuid":["uuid","00000000-0000-4000-8000-000000000004"]},{"error":"I/O error"}]
0 [{"op":"select","table":"Switch","where":[],"columns":["name"]}] -> [{"rows":[]}]"#;

#[test]
fn a_sealed_database_is_not_stored(rt: HostRuntime) -> Result<(), Fail> {
    let faults = Faults {
        is_too_large: false,
        good: 0,
        bad: 1,
    };
    attempts_over(rt.alloc(), faults, FAILED)
}
