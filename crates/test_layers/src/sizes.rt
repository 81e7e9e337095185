use crate::attempts::{attempts_on, attempts_over};
use std::alloc::Global;
use std::test::Fail;
use test_basics::{Faults, agrees};
use uuid::Uuid;

/// Switches, each with a name and a load of its own: the operations that insert them, their results, and how selects show
/// the names and the loads.
#[derive(Drop)]
struct Switches {
    inserts: String,
    inserted: String,
    names: String,
    loads: String,
}

/// Adds an item to a list.
fn push_item(list: &mut String, item: &str) -> Result<(), Fail> {
    if !list.is_empty() {
        list.push_str(",")?;
    }
    list.push_str(item)?;
    Ok(())
}

impl Switches {
    /// No switches.
    fn new(alloc: Global) -> Switches {
        Switches {
            inserts: String::new(alloc),
            inserted: String::new(alloc),
            names: String::new(alloc),
            loads: String::new(alloc),
        }
    }

    /// Adds the insert of the switch of a number, and its result. The identifier drawn first is the version.
    fn push_insert(&mut self, alloc: Global, number: u64) -> Result<(), Fail> {
        let insert = format!(in alloc;
            r#"{{"op":"insert","table":"Switch","row":{{"name":"s{number}","load":{number}}}}}"#
        )?;
        push_item(&mut self.inserts, insert.as_str())?;
        let drawn = number.saturating_add(2);
        let id = Uuid::from_u128(0x4000_8000_0000_0000_0000 | u128::from(drawn));
        let inserted = format!(in alloc; r#"{{"uuid":["uuid","{id}"]}}"#)?;
        push_item(&mut self.inserted, inserted.as_str())
    }

    /// Adds how the switch of a number is shown.
    fn push_shown(&mut self, alloc: Global, number: u64) -> Result<(), Fail> {
        let name = format!(in alloc; r#"{{"name":"s{number}"}}"#)?;
        push_item(&mut self.names, name.as_str())?;
        let load = format!(in alloc; r#"{{"load":{number}}}"#)?;
        push_item(&mut self.loads, load.as_str())
    }

    /// Transactions that insert the switches, show them, update them to their current values, and delete them.
    fn script(&self, alloc: Global, count: u64) -> Result<String, Fail> {
        let inserts = self.inserts.as_str();
        let inserted = self.inserted.as_str();
        let names = self.names.as_str();
        let loads = self.loads.as_str();
        Ok(format!(in alloc;
            r#"0 [{inserts}] -> kept [{inserted}] {count}
0 [{{"op":"select","table":"Switch","where":[],"columns":["name"]}}] -> [{{"rows":[{names}]}}]
0 [{{"op":"select","table":"Switch","where":[],"columns":["load"]}}] -> [{{"rows":[{loads}]}}]
0 [{{"op":"update","table":"Switch","where":[],"row":{{"main":["set",[]]}}}}] -> [{{"count":{count}}}]
0 [{{"op":"delete","table":"Switch","where":[]}}] -> kept [{{"count":{count}}}] {count}"#
        )?)
    }
}

/// This number of switches.
fn switches_of(alloc: Global, count: u64) -> Result<Switches, Fail> {
    let mut switches = Switches::new(alloc);
    for number in 0..count {
        switches.push_insert(alloc, number)?;
        switches.push_shown(alloc, number)?;
    }
    Ok(switches)
}

/// Fails unless this number of switches is inserted, shown and deleted.
fn handles(alloc: Global, count: u64) -> Result<(), Fail> {
    let script = switches_of(alloc, count)?.script(alloc, count)?;
    attempts_over(alloc, Faults::NONE, script.as_str())
}

/// No number of rows is refused by itself.
#[test]
fn many_rows_are_inserted_shown_and_deleted(rt: HostRuntime) -> Result<(), Fail> {
    for count in [1, 40, 300] {
        handles(rt.alloc(), count)?;
    }
    Ok(())
}

/// A schema with a table whose name is long.
const LONG_NAME: &str =
    r#"{"name":"Long","tables":{"Logical_Switch_Port_Group_Address":{"columns":{"name":{"type":"string"}},"isRoot":true}},"version":"1.0.0"}"#;

/// Rows of the table are inserted, changed and deleted.
const IN_LONG_NAME: &str =
    r#"0 [{"op":"insert","table":"Logical_Switch_Port_Group_Address","row":{"name":"a"}},{"op":"insert","table":"Logical_Switch_Port_Group_Address","row":{"name":"b"}}] -> kept [{"uuid":["uuid","00000000-0000-4000-8000-000000000002"]},{"uuid":["uuid","00000000-0000-4000-8000-000000000003"]}] 2
0 [{"op":"delete","table":"Logical_Switch_Port_Group_Address","where":[["name","==","a"]]}] -> kept [{"count":1}] 1
0 [{"op":"update","table":"Logical_Switch_Port_Group_Address","where":[],"row":{"name":"c"}}] -> kept [{"count":1}] 1
0 [{"op":"delete","table":"Logical_Switch_Port_Group_Address","where":[]}] -> kept [{"count":1}] 1"#;

#[test]
fn tables_have_long_names(rt: HostRuntime) -> Result<(), Fail> {
    let attempts = attempts_on(rt.alloc(), LONG_NAME)?;
    agrees(rt.alloc(), attempts, IN_LONG_NAME)
}
