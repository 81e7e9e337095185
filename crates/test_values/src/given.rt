use ov_atoms::Names;
use ov_base::{Text, Trees};
use ov_given::{
    GivenRow, NamedRows, Until, given_over, given_values, is_met, mutated_columns, mutations_of,
    name_fault, new_row, timeout_of, told_rows, until_of, uuid_fault,
};
use ov_projection::{OpFault, ShownRow};
use ov_rows::Columns;
use ov_schema::{Schema, Table};
use serde_json::{Map, Value};
use std::alloc::{AllocError, Global};
use std::test::Fail;
use test_basics::{Scripted, agrees, schema_of_text, trees};
use uuid::Uuid;

/// A table whose rows have a number up to 9, may refer to another row, and have an immutable number.
const SCHEMA: &str = r#"{"name":"A","version":"1.0.0","tables":{"T":{"columns":{
"fixed":{"type":"integer","mutable":false},
"n":{"type":{"key":{"type":"integer","maxInteger":9}}},
"p":{"type":{"key":"uuid","min":0,"max":1}}}}}}"#;

/// Operations that give names. The identifiers drawn for their inserts are 1 to 6; one of them chooses another,
/// and one can't.
const OPERATIONS: &str = r#"[{"op":"insert","uuid-name":"a"},{"op":"select","uuid-name":"b"},
{"op":"insert","uuid-name":"c"},{"op":"insert","uuid-name":"a"},{"op":"insert","uuid-name":"1"},
{"op":"insert","uuid-name":"d","uuid":"00000000-0000-0000-0000-000000000009"},
{"op":"insert","uuid-name":"e","uuid":"9"}]"#;

/// The first insert with a name gives it, for the whole transaction.
const NAMES: &str = r#"named a -> 1
named b -> none
named c -> 2
named 1 -> none
at 0 -> 1
at 1 -> 2
at 2 -> 2
at 3 -> 3
at 4 -> 4
at 5 -> 9
at 6 -> 6
at 7 -> 0
named d -> 9
named e -> 6
uuid "00000000-0000-0000-0000-000000000009" -> none
uuid ["uuid","00000000-0000-0000-0000-000000000009"] -> none
uuid "9" -> syntax error
uuid ["named-uuid","a"] -> syntax error
uuid null -> syntax error
fault 0 "a" -> none
fault 3 "a" -> duplicate uuid-name
fault 2 "c" -> none
fault 3 "c" -> duplicate uuid-name
fault 4 "1" -> syntax error
fault 4 1 -> syntax error
fault 1 "b" -> none
fault 2 "b" -> none"#;

/// A new row has the given values and the defaults of the other columns.
const NEW_ROWS: &str = r#"insert {} -> {"fixed":0,"n":0,"p":["set",[]]}
insert {"n":5,"fixed":7} -> {"fixed":7,"n":5,"p":["set",[]]}
insert {"p":["named-uuid","a"]} -> {"fixed":0,"n":0,"p":["uuid","00000000-0000-0000-0000-000000000001"]}
insert {"p":["named-uuid","b"]} -> syntax error
insert {"n":10} -> constraint violation
insert {"n":"a"} -> syntax error
insert {"q":1} -> unknown column
insert {"_version":["uuid","00000000-0000-0000-0000-000000000001"]} -> constraint violation"#;

/// An existing row keeps what is not given, and what clients may not change.
const CHANGED_ROWS: &str = r#"update {} -> {"fixed":0,"n":1,"p":["set",[]]}
update {"n":5} -> {"fixed":0,"n":5,"p":["set",[]]}
update {"n":5,"p":["named-uuid","c"]} -> {"fixed":0,"n":5,"p":["uuid","00000000-0000-0000-0000-000000000002"]}
update {"fixed":1} -> constraint violation
update {"n":10} -> constraint violation
update {"q":1} -> unknown column
update {"_uuid":["uuid","00000000-0000-0000-0000-000000000001"]} -> constraint violation"#;

/// Mutations are applied in order, and each value is checked before the next.
const MUTATED_ROWS: &str = r#"mutate [] -> {"fixed":0,"n":1,"p":["set",[]]}
mutate [["n","+=",1],["n","*=",4]] -> {"fixed":0,"n":8,"p":["set",[]]}
mutate [["n","+=",9],["n","-=",9]] -> constraint violation
mutate [["n","*=",9223372036854775807],["n","+=",1]] -> constraint violation
mutate [["n","+=",1],["n","*=",9223372036854775807]] -> range error
mutate [["n","/=",0]] -> domain error
mutate [["p","insert",["named-uuid","a"]]] -> {"fixed":0,"n":1,"p":["uuid","00000000-0000-0000-0000-000000000001"]}
mutate [["n","+="]] -> syntax error
mutate [["q","+=",1]] -> unknown column
mutate [["fixed","+=",1]] -> constraint violation"#;

/// Neither the order of rows nor repeated rows matter.
const WAITS: &str = r#"wait == [{"n":1},{"n":2}] [{"n":2},{"n":1},{"n":1}] -> true
wait != [{"n":1},{"n":2}] [{"n":2},{"n":1},{"n":1}] -> false
wait == [{"n":1}] [{"n":1},{"n":2}] -> false
wait == [{"n":1},{"n":2}] [{"n":1}] -> false
wait != [{"n":1},{"n":2}] [{"n":1}] -> true
wait == [] [] -> true
wait == [{}] [{"n":0}] -> true
wait == [{"n":10}] [{"n":10}] -> true
wait == [{"p":["set",[]]}] [] -> syntax error
wait == [1] [] -> syntax error
wait = [] [] -> none
timeout 5 -> 5
timeout 0 -> 0
timeout -1 -> syntax error
timeout "5" -> syntax error"#;

/// The operations that give names, and the table.
#[derive(Drop)]
struct Given {
    schema: Schema,
    ids: Vec<Uuid>,
    operations: Trees,
}

/// The error that the client receives for a fault.
fn told(fault: OpFault) -> &'static str {
    match fault {
        OpFault::Refused(error) => error.text(),
        OpFault::Memory => "out of memory",
    }
}

/// The text of columns.
fn text_of(alloc: Global, columns: &Columns) -> Result<String, Fail> {
    Ok(String::from_utf8(columns.text(alloc)?.into_vec())?)
}

/// The text of a row's columns, or of their fault.
fn shown(alloc: Global, columns: &Result<Columns, OpFault>) -> Result<String, Fail> {
    match columns {
        Ok(columns) => text_of(alloc, columns),
        Err(fault) => Ok(String::from_str(alloc, told(*fault))?),
    }
}

/// The number of an identifier.
fn number(alloc: Global, id: Option<Uuid>) -> Result<String, Fail> {
    match id {
        Some(id) => Ok(format!(in alloc; "{}", id.as_u128())?),
        None => Ok(String::from_str(alloc, "none")?),
    }
}

/// The fault of a name at a place.
fn fault_at(rows: &NamedRows<'_>, place: usize, name: &Value) -> &'static str {
    match name_fault(rows, place, Some(name)) {
        Some(error) => error.text(),
        None => "none",
    }
}

/// The fault of an identifier that an insert chooses.
fn uuid_fault_of(alloc: Global, text: &str) -> Result<String, Fail> {
    let tree = Value::from_str(alloc, text)?;
    let fault = match uuid_fault(Some(&tree)) {
        Some(error) => error.text(),
        None => "none",
    };
    Ok(String::from_str(alloc, fault)?)
}

/// The fault of the name after a place.
fn fault(alloc: Global, rows: &NamedRows<'_>, text: &str) -> Result<String, Fail> {
    let (place, name) = text.split_once(" ").ok_or("no name")?;
    let place = place.parse::<usize>()?;
    let name = Value::from_str(alloc, name)?;
    Ok(String::from_str(alloc, fault_at(rows, place, &name))?)
}

/// The columns of a new row from a tree.
fn new_columns(
    alloc: Global,
    table: &Table,
    rows: &NamedRows<'_>,
    tree: &Value,
) -> Result<Result<Columns, OpFault>, Fail> {
    let members = tree.as_object().ok_or("no object")?;
    Ok(new_row(alloc, table, members, rows))
}

/// The same, as text.
fn inserted_tree(
    alloc: Global,
    table: &Table,
    rows: &NamedRows<'_>,
    tree: &Value,
) -> Result<String, Fail> {
    let columns = new_columns(alloc, table, rows, tree)?;
    shown(alloc, &columns)
}

/// The columns of a new row.
fn inserted(
    alloc: Global,
    table: &Table,
    rows: &NamedRows<'_>,
    text: &str,
) -> Result<String, Fail> {
    let tree = Value::from_str(alloc, text)?;
    inserted_tree(alloc, table, rows, &tree)
}

/// The columns of a row whose number is 1.
fn row_of_one(alloc: Global, table: &Table, rows: &NamedRows<'_>) -> Result<Columns, Fail> {
    let tree = Value::from_str(alloc, r#"{"n":1}"#)?;
    match new_columns(alloc, table, rows, &tree)? {
        Ok(columns) => Ok(columns),
        Err(_) => Err(Fail::new("no row")),
    }
}

/// Columns overwritten by the given values.
fn columns_over(
    alloc: Global,
    table: &Table,
    rows: &NamedRows<'_>,
    members: &Map<String, Value>,
    columns: &Columns,
) -> Result<Columns, OpFault> {
    let given = given_values(alloc, GivenRow::Changed, table, members, rows)?;
    Ok(given_over(alloc, &given, columns)?)
}

/// The same, as text.
fn updated_tree(
    alloc: Global,
    table: &Table,
    rows: &NamedRows<'_>,
    tree: &Value,
    columns: &Columns,
) -> Result<String, Fail> {
    let members = tree.as_object().ok_or("no object")?;
    let over = columns_over(alloc, table, rows, members, columns);
    shown(alloc, &over)
}

/// The columns of the row whose number is 1, overwritten by the given values.
fn updated(alloc: Global, table: &Table, rows: &NamedRows<'_>, text: &str) -> Result<String, Fail> {
    let columns = row_of_one(alloc, table, rows)?;
    let tree = Value::from_str(alloc, text)?;
    updated_tree(alloc, table, rows, &tree, &columns)
}

/// What mutations make of columns.
fn columns_by(
    alloc: Global,
    table: &Table,
    rows: &NamedRows<'_>,
    items: &[Value],
    columns: &Columns,
) -> Result<Columns, OpFault> {
    let mutations = mutations_of(alloc, table, items, rows)?;
    mutated_columns(alloc, mutations.as_slice(), columns)
}

/// The same, as text.
fn mutated_tree(
    alloc: Global,
    table: &Table,
    rows: &NamedRows<'_>,
    tree: &Value,
    columns: &Columns,
) -> Result<String, Fail> {
    let items = tree.as_array().ok_or("no array")?;
    let mutated = columns_by(alloc, table, rows, items.as_slice(), columns);
    shown(alloc, &mutated)
}

/// What mutations make of the columns of the row whose number is 1.
fn mutated(alloc: Global, table: &Table, rows: &NamedRows<'_>, text: &str) -> Result<String, Fail> {
    let columns = row_of_one(alloc, table, rows)?;
    let tree = Value::from_str(alloc, text)?;
    mutated_tree(alloc, table, rows, &tree, &columns)
}

/// The column that is compared.
fn compared(alloc: Global) -> Result<Vec<Text>, AllocError> {
    Ok(vec![in alloc; Text::from_str(alloc, "n")?]?)
}

/// The given rows, by their numbers alone.
fn told_numbers(
    alloc: Global,
    table: &Table,
    rows: &NamedRows<'_>,
    items: &[Value],
) -> Result<Vec<ShownRow>, OpFault> {
    let compared = compared(alloc)?;
    told_rows(alloc, table, &compared, items, rows)
}

/// Whether two arrays of rows meet what is waited for.
fn has_come(
    alloc: Global,
    table: &Table,
    rows: &NamedRows<'_>,
    until: Until,
    seen: &[Value],
    known: &[Value],
) -> Result<bool, OpFault> {
    let seen = told_numbers(alloc, table, rows, seen)?;
    let known = told_numbers(alloc, table, rows, known)?;
    Ok(is_met(alloc, until, seen.as_slice(), known.as_slice())?)
}

/// The text of whether it is met, or of the fault.
fn come_text(alloc: Global, has_come: Result<bool, OpFault>) -> Result<String, Fail> {
    match has_come {
        Ok(has_come) => Ok(format!(in alloc; "{has_come}")?),
        Err(fault) => Ok(String::from_str(alloc, told(fault))?),
    }
}

/// The same for the texts of both arrays.
fn waited_until(
    alloc: Global,
    table: &Table,
    rows: &NamedRows<'_>,
    until: Until,
    arrays: &str,
) -> Result<String, Fail> {
    let (seen, known) = arrays.split_once(" ").ok_or("no other rows")?;
    let seen = trees(alloc, seen)?;
    let known = trees(alloc, known)?;
    let has_come = has_come(alloc, table, rows, until, seen.as_slice(), known.as_slice());
    come_text(alloc, has_come)
}

/// Whether two arrays of rows meet what a word says.
fn waited(alloc: Global, table: &Table, rows: &NamedRows<'_>, text: &str) -> Result<String, Fail> {
    let (word, arrays) = text.split_once(" ").ok_or("no rows")?;
    match until_of(word) {
        Some(until) => waited_until(alloc, table, rows, until, arrays),
        None => Ok(String::from_str(alloc, "none")?),
    }
}

/// The text of a timeout.
fn timeout_text(alloc: Global, timeout: Result<Option<u64>, OpFault>) -> Result<String, Fail> {
    match timeout {
        Ok(Some(milliseconds)) => Ok(format!(in alloc; "{milliseconds}")?),
        Ok(None) => Ok(String::from_str(alloc, "none")?),
        Err(fault) => Ok(String::from_str(alloc, told(fault))?),
    }
}

/// The milliseconds of a timeout.
fn timed(alloc: Global, text: &str) -> Result<String, Fail> {
    let tree = Value::from_str(alloc, text)?;
    timeout_text(alloc, timeout_of(Some(&tree)))
}

/// The number of the row that an operation makes.
fn number_at(alloc: Global, rows: &NamedRows<'_>, place: &str) -> Result<String, Fail> {
    number(alloc, Some(rows.id_at(place.parse::<usize>()?)))
}

/// The answer to a command.
fn answered(
    alloc: Global,
    table: &Table,
    rows: &NamedRows<'_>,
    word: &str,
    text: &str,
) -> Result<String, Fail> {
    match word {
        "named" => number(alloc, rows.uuid_of(text)),
        "at" => number_at(alloc, rows, text),
        "fault" => fault(alloc, rows, text),
        "uuid" => uuid_fault_of(alloc, text),
        "insert" => inserted(alloc, table, rows, text),
        "update" => updated(alloc, table, rows, text),
        "mutate" => mutated(alloc, table, rows, text),
        "wait" => waited(alloc, table, rows, text),
        "timeout" => timed(alloc, text),
        _ => Err(Fail::new("no such command")),
    }
}

impl Scripted for Given {
    fn answer(&mut self, alloc: Global, command: &str) -> Result<String, Fail> {
        let (word, text) = command.split_once(" ").ok_or("no text")?;
        let table = self.schema.table("T").ok_or("no table")?;
        let rows = NamedRows::new(alloc, self.ids.as_slice(), &self.operations)?;
        answered(alloc, table, &rows, word, text)
    }
}

/// Runs a script of commands.
fn are_given(alloc: Global, script: &str) -> Result<(), Fail> {
    let schema = schema_of_text(alloc, SCHEMA)?;
    let operations = trees(alloc, OPERATIONS)?;
    let ids = vec![in alloc;
        Uuid::from_u128(1),
        Uuid::from_u128(2),
        Uuid::from_u128(3),
        Uuid::from_u128(4),
        Uuid::from_u128(5),
        Uuid::from_u128(6),
    ]?;
    let given = Given {
        schema,
        ids,
        operations,
    };
    agrees(alloc, given, script)
}

#[test]
fn the_first_insert_gives_a_name(rt: HostRuntime) -> Result<(), Fail> {
    are_given(rt.alloc(), NAMES)
}

#[test]
fn a_new_row_has_defaults(rt: HostRuntime) -> Result<(), Fail> {
    are_given(rt.alloc(), NEW_ROWS)
}

#[test]
fn a_changed_row_keeps_the_others(rt: HostRuntime) -> Result<(), Fail> {
    are_given(rt.alloc(), CHANGED_ROWS)
}

#[test]
fn mutations_go_one_after_another(rt: HostRuntime) -> Result<(), Fail> {
    are_given(rt.alloc(), MUTATED_ROWS)
}

#[test]
fn rows_are_compared_as_sets(rt: HostRuntime) -> Result<(), Fail> {
    are_given(rt.alloc(), WAITS)
}
