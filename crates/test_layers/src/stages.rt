use crate::rows::{Standing, columns_of_switch};
use crate::texts::{fact_text, number_text, owned, parts_of, push, push_item, two_parts};
use ov_atoms::NoNames;
use ov_base::Text;
use ov_conds::Condition;
use ov_projection::{OpFault, compared_columns, listed_columns, shown_tree};
use ov_rows::{RowKey, RowView, Rows};
use ov_schema::{Schema, Table};
use ov_stage::{Stage, conditions_of};
use serde_json::Value;
use std::alloc::{AllocError, Global};
use std::mem;
use std::test::Fail;
use test_basics::{Scripted, agrees, compact, follows, net, number, value};
use uuid::Uuid;

/// Rows are put and removed, and put back as they were, which leaves no change.
const STAGED: &str = r#"where [] -> 3/1;9/1;
put 5 7 4
put 3 7 5
remove 9
remove 8
has 9 -> false
where [] -> 3/7;5/7;
where [["load",">",4]] -> 3/7;
changes -> 3
put 5 7 4
put 3 7 5
put 3 7 4
remove 5
changes -> 0
remove 9
put 9 7 4
where [] -> 3/1;9/1;
changes -> 0"#;

/// A condition on the identifier finds the one row that has it, if that row exists and meets the other conditions.
const FOUND: &str = r#"put 5 7 4
put 3 7 5
remove 9
where [["_uuid","==",["uuid","00000000-0000-0000-0000-000000000005"]]] -> 5/7;
where [["load","==",5],["_uuid","==",["uuid","00000000-0000-0000-0000-000000000003"]]] -> 3/7;
where [["_uuid","==",["uuid","00000000-0000-0000-0000-000000000003"]],["load","==",4]]
where [["_uuid","==",["uuid","00000000-0000-0000-0000-000000000009"]]]
where [["_uuid","==",["uuid","00000000-0000-0000-0000-000000000004"]]]
where [["_uuid","!=",["uuid","00000000-0000-0000-0000-000000000003"]]] -> 5/7;"#;

/// Names are sorted and listed once; without names, all columns but those that every row has by itself.
const COLUMNS: &str = r#"listed ["name","load","name"] -> load;name;
listed []
listed ["name","colour"] -> refused
listed [1] -> refused
compared ["_uuid"] -> _uuid;
compared -> load;main;name;ports;"#;

/// Rows are shown with their columns by name. Their identifiers tell them apart; other columns do so only through an index.
const SHOWN: &str = r#"apart ["_uuid","name"] -> true
apart ["load","name"] -> false
apart [] -> false
remove 9
shown ["name","load"] -> {"load":4,"name":"s1"}
shown ["_version"] -> {"_version":["uuid","00000000-0000-0000-0000-000000000001"]}
shown ["_uuid"] -> {"_uuid":["uuid","00000000-0000-0000-0000-000000000003"]}
shown [] -> {}
remove 3
shown ["name"]"#;

/// Two switches and a port.
const COMMITTED: &str = "put Switch 9
put Port 4
put Switch 3";

/// A stage over rows. The commands, all about switches, are `put ID VERSION LOAD`, `remove ID`, `has ID`, `where CONDITIONS`,
/// `listed NAMES`, `compared NAMES`, `apart NAMES`, `shown NAMES` and `changes`, which starts again.
#[derive(Drop)]
struct Staged<'a> {
    schema: &'a Schema,
    rows: &'a Rows,
    stage: Stage<'a>,
}

/// The key of the switch with this number.
fn switch_key(alloc: Global, id: &str) -> Result<RowKey, Fail> {
    Ok(RowKey::new(alloc, "Switch", number(id)?)?)
}

/// Adds a row's identifier and version.
fn push_row(alloc: Global, text: &mut String, row: &RowView<'_>) -> Result<(), Fail> {
    let stored = row.row;
    let (id, version) = (row.id.as_u128(), stored.version.as_u128());
    let item = format!(in alloc; "{id}/{version}")?;
    push_item(text, item.as_str())
}

/// The rows' identifiers and versions.
fn text_of(alloc: Global, rows: &[RowView<'_>]) -> Result<String, Fail> {
    let mut text = String::new(alloc);
    for row in rows {
        push_row(alloc, &mut text, row)?;
    }
    Ok(text)
}

/// Names, each followed by a semicolon.
fn joined(alloc: Global, names: &[Text]) -> Result<String, Fail> {
    let mut text = String::new(alloc);
    for name in names {
        push_item(&mut text, name.as_str())?;
    }
    Ok(text)
}

/// The names, or that they are refused.
fn names_of(alloc: Global, names: Result<Vec<Text>, OpFault>) -> Result<String, Fail> {
    match names {
        Ok(names) => joined(alloc, names.as_slice()),
        Err(_) => owned(alloc, "refused"),
    }
}

/// The names; fails if they are refused.
fn chosen_of(names: Result<Vec<Text>, OpFault>) -> Result<Vec<Text>, Fail> {
    match names {
        Ok(names) => Ok(names),
        Err(_) => Err(Fail::new("refused")),
    }
}

/// Adds a row's columns with these names.
fn push_shown(
    alloc: Global,
    text: &mut String,
    names: &[Text],
    row: &RowView<'_>,
) -> Result<(), Fail> {
    let tree = shown_tree(alloc, names, row)?;
    push(text, compact(alloc, &tree))
}

/// The rows' columns with these names.
fn shown_of(alloc: Global, names: &[Text], rows: &[RowView<'_>]) -> Result<String, Fail> {
    let mut text = String::new(alloc);
    for row in rows {
        push_shown(alloc, &mut text, names, row)?;
    }
    Ok(text)
}

/// A table's columns with these names, or all of them.
fn compared_of(alloc: Global, table: &Table, names: &str) -> Result<String, Fail> {
    let tree = value(alloc, names)?;
    names_of(alloc, compared_columns(alloc, table, Some(&tree)))
}

impl Staged<'_> {
    /// Puts a switch with this version and load.
    fn put_switch(
        &mut self,
        alloc: Global,
        key: RowKey,
        version: Uuid,
        load: i64,
    ) -> Result<(), AllocError> {
        let columns = columns_of_switch(alloc, load)?;
        self.stage.put(key, version, columns)
    }

    fn put(&mut self, alloc: Global, row: &str) -> Result<String, Fail> {
        let (id, rest) = two_parts(row)?;
        let (version, load) = two_parts(rest)?;
        let load = load.parse::<i64>()?;
        let version = number(version)?;
        let key = switch_key(alloc, id)?;
        self.put_switch(alloc, key, version, load)?;
        Ok(String::new(alloc))
    }

    /// The table of the switches.
    fn table(&self) -> Result<&Table, Fail> {
        match self.schema.table("Switch") {
            Some(table) => Ok(table),
            None => Err(Fail::new("no table")),
        }
    }

    fn remove(&mut self, alloc: Global, id: &str) -> Result<String, Fail> {
        let key = switch_key(alloc, id)?;
        self.stage.remove(key)?;
        Ok(String::new(alloc))
    }

    fn has(&self, alloc: Global, id: &str) -> Result<String, Fail> {
        let key = switch_key(alloc, id)?;
        fact_text(alloc, self.stage.contains(&key))
    }

    /// The rows that meet conditions.
    fn matching(&self, alloc: Global, conditions: &[Condition]) -> Result<String, Fail> {
        let rows = self.stage.matching(alloc, "Switch", conditions)?;
        text_of(alloc, rows.as_slice())
    }

    /// The rows that meet the conditions of these items.
    fn meeting(&self, alloc: Global, items: &[Value]) -> Result<String, Fail> {
        let table = self.table()?;
        let Ok(conditions) = conditions_of(alloc, table, items, &NoNames) else {
            return Err(Fail::new("refused"));
        };
        self.matching(alloc, conditions.as_slice())
    }

    /// The rows that meet the conditions.
    fn found(&self, alloc: Global, conditions: &str) -> Result<String, Fail> {
        let tree = value(alloc, conditions)?;
        match tree.as_array() {
            Some(items) => self.meeting(alloc, items.as_slice()),
            None => Err(Fail::new("no array")),
        }
    }

    fn listed(&self, alloc: Global, names: &str) -> Result<String, Fail> {
        let table = self.table()?;
        let tree = value(alloc, names)?;
        names_of(alloc, listed_columns(alloc, table, &tree))
    }

    /// The compared columns with these names; without names, all.
    fn compared(&self, alloc: Global, names: &str) -> Result<String, Fail> {
        let table = self.table()?;
        if names.is_empty() {
            return names_of(alloc, compared_columns(alloc, table, None));
        }
        compared_of(alloc, table, names)
    }

    /// Whether the stage tells the switches apart by these columns.
    fn apart(&self, alloc: Global, names: &str) -> Result<String, Fail> {
        let names = self.chosen(alloc, names)?;
        fact_text(alloc, self.stage.tells_apart("Switch", names.as_slice()))
    }

    /// These columns of all switches.
    fn shown_by(&self, alloc: Global, names: &[Text]) -> Result<String, Fail> {
        let rows = self.stage.rows_of(alloc, "Switch")?;
        shown_of(alloc, names, rows.as_slice())
    }

    /// The columns with these names, of all switches.
    fn shown(&self, alloc: Global, names: &str) -> Result<String, Fail> {
        let names = self.chosen(alloc, names)?;
        self.shown_by(alloc, names.as_slice())
    }

    /// The columns with these names, all of which must exist.
    fn chosen(&self, alloc: Global, names: &str) -> Result<Vec<Text>, Fail> {
        let table = self.table()?;
        let tree = value(alloc, names)?;
        chosen_of(listed_columns(alloc, table, &tree))
    }

    /// How many changes there are.
    fn changes(&mut self, alloc: Global) -> Result<String, Fail> {
        let stage = mem::replace(&mut self.stage, Stage::new(alloc, self.rows));
        number_text(alloc, stage.into_delta().map().len() as u64)
    }
}

impl Scripted for Staged<'_> {
    fn answer(&mut self, alloc: Global, command: &str) -> Result<String, Fail> {
        let (word, rest) = parts_of(command);
        match word {
            "put" => self.put(alloc, rest),
            "remove" => self.remove(alloc, rest),
            "has" => self.has(alloc, rest),
            "where" => self.found(alloc, rest),
            "listed" => self.listed(alloc, rest),
            "compared" => self.compared(alloc, rest),
            "apart" => self.apart(alloc, rest),
            "shown" => self.shown(alloc, rest),
            _ => self.changes(alloc),
        }
    }
}

/// Runs a script over a stage of these rows.
fn stages_over(alloc: Global, schema: &Schema, rows: &Rows, script: &str) -> Result<(), Fail> {
    let stage = Stage::new(alloc, rows);
    let staged = Staged {
        schema,
        rows,
        stage,
    };
    agrees(alloc, staged, script)
}

/// Runs a script over a stage of two switches and a port.
fn stages(alloc: Global, script: &str) -> Result<(), Fail> {
    let mut standing = Standing {
        rows: Rows::new(alloc),
    };
    follows(alloc, &mut standing, COMMITTED)?;
    let schema = net(alloc)?;
    stages_over(alloc, &schema, &standing.rows, script)
}

#[test]
fn a_stage_has_no_change_that_leaves_what_was_there(rt: HostRuntime) -> Result<(), Fail> {
    stages(rt.alloc(), STAGED)
}

#[test]
fn a_row_is_found_by_its_identifier(rt: HostRuntime) -> Result<(), Fail> {
    stages(rt.alloc(), FOUND)
}

#[test]
fn columns_are_listed_and_compared(rt: HostRuntime) -> Result<(), Fail> {
    stages(rt.alloc(), COLUMNS)
}

#[test]
fn rows_are_shown_and_told_apart(rt: HostRuntime) -> Result<(), Fail> {
    stages(rt.alloc(), SHOWN)
}
