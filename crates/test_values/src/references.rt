use ov_base::Trees;
use ov_given::{NamedRows, new_row};
use ov_refs::{Holders, KeySet, Links, Target, targets_of};
use ov_rows::{Columns, Row, RowId, RowKey, Rows};
use ov_schema::{Schema, Table};
use serde_json::Value;
use std::alloc::Global;
use std::test::Fail;
use test_basics::{Scripted, agrees, holds, number, schema_of_text, trees};
use uuid::Uuid;

/// Rows that refer to rows of their own table and of another: strongly in a set and as the keys of a map, weakly as the
/// values of a map and by one identifier. A column without a table to refer to refers to nothing.
const SCHEMA: &str = r#"{"name":"A","version":"1.0.0","tables":{
"S":{"columns":{"n":{"type":"integer"}}},
"T":{"isRoot":true,"columns":{
"by_key":{"type":{"key":{"type":"uuid","refTable":"S"},"value":"integer","min":0,"max":"unlimited"}},
"by_value":{"type":{"key":"integer","value":{"type":"uuid","refTable":"S","refType":"weak"},"min":0,"max":"unlimited"}},
"many":{"type":{"key":{"type":"uuid","refTable":"T"},"min":0,"max":"unlimited"}},
"plain":{"type":{"key":"uuid","min":0,"max":1}},
"weak":{"type":{"key":{"type":"uuid","refTable":"S","refType":"weak"},"min":0,"max":1}}}}}}"#;

/// Names for the rows 1, 2 and 3.
const OPERATIONS: &str = r#"[{"op":"insert","uuid-name":"a"},{"op":"insert","uuid-name":"b"},
{"op":"insert","uuid-name":"c"}]"#;

/// A row refers to what its columns name, column by column, once for each occurrence.
const TARGETS: &str = r#"targets S {}
targets T {}
targets T {"plain":["named-uuid","b"]}
targets T {"many":["named-uuid","b"]} -> strong T 2
targets T {"many":["set",[["named-uuid","b"],["named-uuid","a"]]]} -> strong T 1, strong T 2
targets T {"weak":["named-uuid","c"]} -> weak S 3
targets T {"by_key":["map",[[["named-uuid","b"],5],[["named-uuid","a"],6]]]} -> strong S 1, strong S 2
targets T {"by_value":["map",[[5,["named-uuid","b"]],[6,["named-uuid","b"]]]]} -> weak S 2, weak S 2
targets T {"weak":["named-uuid","a"],"many":["named-uuid","a"]} -> strong T 1, weak S 1"#;

/// The rows that refer to another are listed once each, in ascending order.
const HOLDERS: &str = r#"strong T 1
weak S 1
put T 2 {"many":["set",[["named-uuid","a"],["named-uuid","c"]]]}
put T 1 {"many":["named-uuid","a"],"weak":["named-uuid","b"]}
put T 3 {"by_value":["map",[[5,["named-uuid","b"]],[6,["named-uuid","b"]],[7,["named-uuid","c"]]]]}
put S 1 {}
strong T 1 -> T 1, T 2
strong T 2
strong T 3 -> T 2
strong S 2
weak T 1
weak S 1
weak S 2 -> T 1, T 3
weak S 3 -> T 3"#;

/// Rows under the schema, and names for three of them.
#[derive(Drop)]
struct Referring {
    schema: Schema,
    ids: Vec<Uuid>,
    operations: Trees,
    rows: Rows,
}

/// The columns of a new row from a tree.
fn columns_of_tree(
    alloc: Global,
    table: &Table,
    names: &NamedRows<'_>,
    tree: &Value,
) -> Result<Columns, Fail> {
    let members = tree.as_object().ok_or("no object")?;
    match new_row(alloc, table, members, names) {
        Ok(columns) => Ok(columns),
        Err(_) => Err(Fail::new("no row")),
    }
}

/// The columns of a new row of a table.
fn columns_of(
    alloc: Global,
    schema: &Schema,
    names: &NamedRows<'_>,
    table: &str,
    text: &str,
) -> Result<Columns, Fail> {
    let table = schema.table(table).ok_or("no table")?;
    let tree = Value::from_str(alloc, text)?;
    columns_of_tree(alloc, table, names, &tree)
}

/// The key of a text: a table's name and a number.
fn key_of(alloc: Global, text: &str) -> Result<RowKey, Fail> {
    let (table, id) = text.split_once(" ").ok_or("no identifier")?;
    Ok(RowKey::new(alloc, table, number(id)?)?)
}

/// The text of a key.
fn key_text(alloc: Global, key: &RowKey) -> Result<String, Fail> {
    let table = key.table();
    let id = key.id().as_u128();
    Ok(format!(in alloc; "{table} {id}")?)
}

/// Appends a word and the text of a key, after a comma if there are others.
fn put_key(alloc: Global, text: &mut String, word: &str, key: &RowKey) -> Result<(), Fail> {
    if !text.is_empty() {
        text.push_str(", ")?;
    }
    text.push_str(word)?;
    let key = key_text(alloc, key)?;
    Ok(text.push_str(key.as_str())?)
}

/// The texts of what is referred to, separated by commas.
fn targets_text(alloc: Global, targets: &[Target]) -> Result<String, Fail> {
    let mut text = String::new(alloc);
    for target in targets {
        let how = if target.is_strong { "strong " } else { "weak " };
        put_key(alloc, &mut text, how, &target.key)?;
    }
    Ok(text)
}

/// The texts of the keys, separated by commas.
fn keys_text(alloc: Global, keys: &KeySet) -> Result<String, Fail> {
    let mut text = String::new(alloc);
    for key in keys.iter() {
        put_key(alloc, &mut text, "", key)?;
    }
    Ok(text)
}

/// The rows that refer to the row of a key.
fn holders_of(alloc: Global, holders: &Holders, key: &RowKey) -> Result<String, Fail> {
    match holders.of(key.table(), key.id()) {
        Some(keys) => keys_text(alloc, keys),
        None => Ok(String::new(alloc)),
    }
}

/// The same for the text of a key.
fn holders_text(alloc: Global, holders: &Holders, text: &str) -> Result<String, Fail> {
    let key = key_of(alloc, text)?;
    holders_of(alloc, holders, &key)
}

/// What the columns of a table's row refer to.
fn targets_of_columns(
    alloc: Global,
    schema: &Schema,
    table: &str,
    columns: &Columns,
) -> Result<String, Fail> {
    let targets = targets_of(alloc, schema, table, columns)?;
    targets_text(alloc, targets.as_slice())
}

/// What a row of a table would refer to.
fn targets_of_row(
    alloc: Global,
    schema: &Schema,
    names: &NamedRows<'_>,
    text: &str,
) -> Result<String, Fail> {
    let (table, row) = text.split_once(" ").ok_or("no row")?;
    let columns = columns_of(alloc, schema, names, table, row)?;
    targets_of_columns(alloc, schema, table, &columns)
}

impl Referring {
    fn targets(&self, alloc: Global, text: &str) -> Result<String, Fail> {
        let names = NamedRows::new(alloc, self.ids.as_slice(), &self.operations)?;
        targets_of_row(alloc, &self.schema, &names, text)
    }

    fn strong(&self, alloc: Global, text: &str) -> Result<String, Fail> {
        let links = Links::of(alloc, &self.schema, &self.rows)?;
        holders_text(alloc, links.strong(), text)
    }

    fn weak(&self, alloc: Global, text: &str) -> Result<String, Fail> {
        let links = Links::of(alloc, &self.schema, &self.rows)?;
        holders_text(alloc, links.weak(), text)
    }

    /// The columns of a row to put.
    fn columns(&self, alloc: Global, table: &str, row: &str) -> Result<Columns, Fail> {
        let names = NamedRows::new(alloc, self.ids.as_slice(), &self.operations)?;
        columns_of(alloc, &self.schema, &names, table, row)
    }

    /// Puts a row with these columns.
    fn put_columns(&mut self, alloc: Global, key: &RowKey, columns: Columns) -> Result<(), Fail> {
        let version = Uuid::from_u128(9);
        Ok(self.rows.insert(alloc, key, Row { version, columns })?)
    }

    fn put(&mut self, alloc: Global, text: &str) -> Result<String, Fail> {
        let (table, rest) = text.split_once(" ").ok_or("no row")?;
        let (id, row) = rest.split_once(" ").ok_or("no values")?;
        let columns = self.columns(alloc, table, row)?;
        let key = RowKey::new(alloc, table, number(id)?)?;
        self.put_columns(alloc, &key, columns)?;
        Ok(String::new(alloc))
    }

    fn call(&mut self, alloc: Global, word: &str, text: &str) -> Result<String, Fail> {
        match word {
            "targets" => self.targets(alloc, text),
            "strong" => self.strong(alloc, text),
            "weak" => self.weak(alloc, text),
            "put" => self.put(alloc, text),
            _ => Err(Fail::new("no such command")),
        }
    }
}

impl Scripted for Referring {
    fn answer(&mut self, alloc: Global, command: &str) -> Result<String, Fail> {
        let (word, text) = command.split_once(" ").ok_or("no text")?;
        self.call(alloc, word, text)
    }
}

/// Runs a script of commands.
fn refers(alloc: Global, script: &str) -> Result<(), Fail> {
    let schema = schema_of_text(alloc, SCHEMA)?;
    let operations = trees(alloc, OPERATIONS)?;
    let ids = vec![in alloc; Uuid::from_u128(1), Uuid::from_u128(2), Uuid::from_u128(3)]?;
    let referring = Referring {
        schema,
        ids,
        operations,
        rows: Rows::new(alloc),
    };
    agrees(alloc, referring, script)
}

#[test]
fn a_row_refers_to_what_its_columns_name(rt: HostRuntime) -> Result<(), Fail> {
    refers(rt.alloc(), TARGETS)
}

#[test]
fn who_refers_to_a_row_is_listed_once(rt: HostRuntime) -> Result<(), Fail> {
    refers(rt.alloc(), HOLDERS)
}

/// Two rows refer to the first; one of them is removed.
const TAKEN_OUT: &str = "empty -> true
add T 1, T 2
add T 1, S 3
of T 1 -> S 3, T 2
remove T 1, S 3
remove T 2, S 3
of T 1 -> T 2";

/// The rows that refer to others, driven by a script.
///
/// The commands are `empty`, `add KEY, HOLDER`, `remove KEY, HOLDER` and `of KEY`.
#[derive(Drop)]
struct Holding {
    holders: Holders,
}

/// The keys of two texts separated by a comma.
fn keys_of(alloc: Global, text: &str) -> Result<(RowKey, RowKey), Fail> {
    let (to, from) = text.split_once(", ").ok_or("one key")?;
    let to = key_of(alloc, to)?;
    Ok((to, key_of(alloc, from)?))
}

impl Holding {
    fn is_empty(&self, alloc: Global) -> Result<String, Fail> {
        Ok(format!(in alloc; "{}", self.holders.tables().is_empty())?)
    }

    fn add(&mut self, alloc: Global, text: &str) -> Result<String, Fail> {
        let (to, from) = keys_of(alloc, text)?;
        self.holders.add(alloc, &to, from)?;
        Ok(String::new(alloc))
    }

    fn remove(&mut self, alloc: Global, text: &str) -> Result<String, Fail> {
        let (to, from) = keys_of(alloc, text)?;
        self.holders.remove(&to, &from);
        Ok(String::new(alloc))
    }

    fn call(&mut self, alloc: Global, word: &str, text: &str) -> Result<String, Fail> {
        match word {
            "empty" => self.is_empty(alloc),
            "add" => self.add(alloc, text),
            "remove" => self.remove(alloc, text),
            _ => holders_text(alloc, &self.holders, text),
        }
    }
}

impl Scripted for Holding {
    fn answer(&mut self, alloc: Global, command: &str) -> Result<String, Fail> {
        let (word, text) = command.split_once(" ").unwrap_or((command, ""));
        self.call(alloc, word, text)
    }
}

#[test]
fn a_holder_that_is_taken_out_is_none(rt: HostRuntime) -> Result<(), Fail> {
    let holders = Holders::new(rt.alloc());
    agrees(rt.alloc(), Holding { holders }, TAKEN_OUT)
}

/// Two keys, one of which is inserted repeatedly and then removed.
const PUT_TWICE: &str = "empty -> true
insert T 2
insert T 2
all -> T 2
insert T 1
insert T 2
all -> T 1, T 2
remove T 2
empty -> false
has T 1 -> true
has T 2 -> false";

/// A set of keys, driven by a script.
///
/// The commands are `empty`, `insert KEY`, `remove KEY`, `has KEY` and `all`.
#[derive(Drop)]
struct Keys {
    keys: KeySet,
}

impl Keys {
    fn is_empty(&self, alloc: Global) -> Result<String, Fail> {
        Ok(format!(in alloc; "{}", self.keys.is_empty())?)
    }

    fn insert(&mut self, alloc: Global, text: &str) -> Result<String, Fail> {
        self.keys.insert(alloc, key_of(alloc, text)?)?;
        Ok(String::new(alloc))
    }

    fn remove(&mut self, alloc: Global, text: &str) -> Result<String, Fail> {
        let key = key_of(alloc, text)?;
        self.keys.remove(&key);
        Ok(String::new(alloc))
    }

    fn has(&self, alloc: Global, text: &str) -> Result<String, Fail> {
        let key = key_of(alloc, text)?;
        Ok(format!(in alloc; "{}", self.keys.contains(&key))?)
    }

    fn call(&mut self, alloc: Global, word: &str, text: &str) -> Result<String, Fail> {
        match word {
            "empty" => self.is_empty(alloc),
            "insert" => self.insert(alloc, text),
            "remove" => self.remove(alloc, text),
            "has" => self.has(alloc, text),
            _ => keys_text(alloc, &self.keys),
        }
    }
}

impl Scripted for Keys {
    fn answer(&mut self, alloc: Global, command: &str) -> Result<String, Fail> {
        let (word, text) = command.split_once(" ").unwrap_or((command, ""));
        self.call(alloc, word, text)
    }
}

#[test]
fn a_set_of_keys_has_each_once(rt: HostRuntime) -> Result<(), Fail> {
    let keys = KeySet::new();
    agrees(rt.alloc(), Keys { keys }, PUT_TWICE)
}

#[test]
fn identifiers_stand_in_the_order_of_their_bytes(rt: HostRuntime) -> Result<(), Fail> {
    let first = RowId::new(Uuid::from_u128(0xff));
    let second = RowId::new(Uuid::from_u128(0x100));
    let third = RowId::new(Uuid::from_u128(1 << 120));
    let are_in_order = first < second && second < third && third == third;
    holds(rt.alloc(), are_in_order, "the three stand in order")?;
    let is_given_back = *third.as_uuid() == Uuid::from_u128(1 << 120);
    holds(rt.alloc(), is_given_back, "the third is given back")
}
