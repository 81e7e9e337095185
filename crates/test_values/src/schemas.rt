use ov_atoms::AtomKind;
use ov_base::Text;
use ov_schema::{BaseType, Column, ColumnType, Reference, Schema, SchemaFault, Table};
use ov_schema_text::schema_of_tree;
use std::alloc::Global;
use std::test::Fail;
use test_basics::{Scripted, agrees, compact, holds, is_text, schema_of_text, tree};

/// A schema with each limit of tables and columns, as the compact text of its tree.
const LIMITED: &str =
    r#"{"name":"Net","tables":{"Port":{"columns":{"name":{"type":"string"},"peer":{"type":{"key":{"refTable":"Port","type":"uuid"},"max":1,"min":0}}}},"Switch":{"columns":{"load":{"ephemeral":true,"type":"integer"},"main":{"mutable":false,"type":{"key":{"refTable":"Port","refType":"weak","type":"uuid"},"max":1,"min":0}},"name":{"mutable":false,"type":"string"}},"indexes":[["name"]],"isRoot":true,"maxRows":9}},"version":"1.0.0"}"#;

/// Schemas, each with its answer. If there are two faults, the greater one comes before the one that is answered.
const ANSWERS: &str = r#"{"name":"Net","tables":{},"own":null} -> accepted
{"name":"A","tables":{"T":{"columns":{"c":{"type":{"key":{"type":"string","enum":"a"}}}}}}} -> accepted
{"name":"A","tables":{"T":{"columns":{"c":{"type":"string"}},"indexes":[["c"],["c"]]}}} -> accepted
{"name":"A","tables":{"T":{"columns":{"_c":{"type":"string"}},"isRoot":null}}} -> Syntax
{"name":"A","tables":{"T":{"columns":{"c":{"type":{"key":{"type":"real","minInteger":1}}}}}}} -> Syntax
{"name":"A","tables":{"T":{"columns":{"c":{"type":{"key":"integer","max":"many"}}}}}} -> Syntax
{"name":"A","tables":{"T":{"columns":{}},"_S":{"columns":{}}},"version":"1.0"} -> BadName
{"name":"A","tables":{"T":{"columns":{}}},"version":"1.0"} -> BadVersion
{"name":"A","tables":{"T":{"columns":{"c":{"type":"real"}}},"U":{"columns":{}}}} -> NoColumns
{"name":"A","tables":{"T":{"columns":{"c":{"type":"real"},"d":{"type":{"key":"integer","min":2}}}}}} -> BadRange
{"name":"A","tables":{"T":{"columns":{"c":{"type":"real"}},"maxRows":0}}} -> BadRange
{"name":"A","tables":{"T":{"columns":{"c":{"type":{"key":{"type":"uuid","refTable":"U"}}},"d":{"type":"real"}}}}} -> RealNotSupported
{"name":"A","tables":{"T":{"columns":{"c":{"type":{"key":{"type":"integer","refTable":"T"}}},"d":{"type":{"key":{"type":"uuid","refTable":"U"}}}}}}} -> UnknownRefTable
{"name":"A","tables":{"T":{"columns":{"c":{"type":{"key":{"type":"string","enum":["set",[]]}}},"d":{"type":{"key":{"type":"uuid","refType":"weak"}}}}}}} -> BadRefType
{"name":"A","tables":{"T":{"columns":{"c":{"type":"string"}},"indexes":[[]]},"U":{"columns":{"c":{"type":{"key":{"type":"string","enum":["set",[]]}}}}}}} -> BadEnum
{"name":"A","tables":{"T":{"columns":{"c":{"type":{"key":{"type":"uuid","refTable":"T"},"value":{"type":"uuid","refTable":"T","refType":"weak"}}}},"indexes":[["c","c"]]}}} -> BadIndex
{"name":"A","tables":{"T":{"columns":{"c":{"type":{"key":{"type":"uuid","refTable":"T"},"value":{"type":"uuid","refTable":"T","refType":"weak"}}}}}}} -> StrongWeakMap
{"name":"_A","tables":{"T":{"columns":{"c":{"type":{"key":"integer","max":"many"}}}}}} -> Syntax
{"version":"1","tables":{"T":{"columns":{}}},"name":"_A"} -> BadName
{"tables":{"T":{"columns":{"c":{"type":"real"},"d-e":{"type":"string"}}}},"name":"A"} -> BadName
{"tables":{"T":{"columns":{}}},"name":"A","version":"1.0.0.0"} -> BadVersion
{"tables":{"T":{"columns":{"c":{"type":"real"}}}},"name":"A","version":"1..0"} -> BadVersion
{"name":"A","tables":{"S":{"columns":{"c":{"type":{"key":"integer","min":2}}}},"T":{"columns":{}}}} -> NoColumns
{"name":"A","tables":{"S":{"columns":{"c":{"type":"string"}},"indexes":[[]]},"T":{"columns":{}}}} -> NoColumns
{"name":"A","tables":{"T":{"columns":{"c":{"type":{"key":{"type":"string","refType":"strong"}}},"d":{"type":{"key":"integer","max":0}}}}}} -> BadRange
{"name":"A","tables":{"T":{"columns":{"c":{"type":{"key":{"type":"uuid","refTable":"U"}}},"d":{"type":{"key":{"type":"integer","minInteger":3,"maxInteger":2}}}}}}} -> BadRange
{"name":"A","tables":{"T":{"columns":{"c":{"type":{"key":{"type":"string","enum":["set",[]]}}},"d":{"type":{"key":"string","value":"real"}}}}}} -> RealNotSupported
{"name":"A","tables":{"T":{"columns":{"c":{"type":{"key":{"type":"integer","enum":"x"}}},"d":{"type":{"key":{"type":"uuid","refTable":"U"}}}}}}} -> UnknownRefTable
{"name":"A","tables":{"T":{"columns":{"c":{"type":{"key":{"type":"integer","enum":true}}},"d":{"type":{"key":{"type":"uuid","refTable":"T","refType":"feeble"}}}}}}} -> BadRefType
{"name":"A","tables":{"S":{"columns":{"c":{"type":"string"}},"indexes":[["d"]]},"T":{"columns":{"d":{"type":{"key":{"type":"integer","enum":["set",[1,"x"]]}}}}}}} -> BadEnum
{"name":"A","tables":{"S":{"columns":{"c":{"type":{"key":{"type":"uuid","refTable":"S"},"value":{"type":"uuid","refTable":"S","refType":"weak"}}}}},"T":{"columns":{"e":{"type":"string","ephemeral":true}},"indexes":[["e"]]}}} -> BadIndex
{"name":"A","tables":{"T":{"columns":{"c":{"type":{"key":{"type":"uuid","refTable":"T","refType":"weak"},"value":{"type":"uuid","refTable":"T"}}}}}}} -> StrongWeakMap
{"name":"A","tables":{"T":{"columns":{"c":{"type":{"key":{"type":"integer","refTable":"T"}}}}}}} -> BadRefType
{"name":"A","tables":{"T":{"columns":{"c":{"type":{"key":{"type":"integer","refTable":"U"}}}}}}} -> UnknownRefTable
{"name":"A","tables":{"T":{"columns":{"c":{"type":"string"}},"indexes":[["_version"]]}}} -> BadIndex
{"name":"A","tables":{},"version":"1.20.3"} -> accepted
{"name":"A","tables":{},"version":".20.3"} -> BadVersion
{"name":"A","tables":{},"version":"1.20."} -> BadVersion
{"name":"A","tables":{},"version":"1.2x.3"} -> BadVersion
{"name":"A","tables":{},"version":""} -> BadVersion"#;

/// The answer to a schema.
#[derive(Drop)]
struct Answers;

/// The text of an answer.
fn answer_text(alloc: Global, answer: &Result<Schema, SchemaFault>) -> Result<String, Fail> {
    match answer {
        Ok(_) => Ok(String::from_str(alloc, "accepted")?),
        Err(fault) => Ok(format!(in alloc; "{fault:?}")?),
    }
}

impl Scripted for Answers {
    fn answer(&mut self, alloc: Global, command: &str) -> Result<String, Fail> {
        let answer = schema_of_tree(alloc, tree(alloc, command)?);
        answer_text(alloc, &answer)
    }
}

#[test]
fn the_least_fault_is_answered_wherever_it_stands(rt: HostRuntime) -> Result<(), Fail> {
    agrees(rt.alloc(), Answers, ANSWERS)
}

/// Facts about the schema itself.
const ITSELF: &str = r#"name -> Net
version -> 1.0.0
has Bridge -> false
has Switch -> true"#;

/// Facts about its tables: whether they are root, their maximum number of rows, and their indexes.
const TABLES: &str = r#"is_root Switch -> true
is_root Port -> false
max_rows Switch -> Some(9)
indexes Switch -> name;"#;

/// Facts about the columns of a table: their names in order, which are ephemeral and which are mutable.
const COLUMNS: &str = r#"columns Switch -> _uuid,_version,load,main,name,
marks Switch -> --,--,em,-m,--,"#;

fn text_of_indexes(alloc: Global, indexes: &[Vec<Text>]) -> Result<String, Fail> {
    let mut text = String::new(alloc);
    for index in indexes {
        for column in index {
            text.push_str(column.as_str())?;
            text.push_str(";")?;
        }
    }
    Ok(text)
}

fn names_of_columns(alloc: Global, table: &Table) -> Result<String, Fail> {
    let mut names = String::new(alloc);
    for (name, _) in table.columns() {
        names.push_str(name.as_str())?;
        names.push_str(",")?;
    }
    Ok(names)
}

fn marks_of_columns(alloc: Global, table: &Table) -> Result<String, Fail> {
    let mut marks = String::new(alloc);
    for (_, column) in table.columns() {
        marks.push_str(if column.is_ephemeral() { "e" } else { "-" })?;
        marks.push_str(if column.is_mutable() { "m," } else { "-," })?;
    }
    Ok(marks)
}

/// The answer of a table to a word.
fn facts_of_table(alloc: Global, table: &Table, word: &str) -> Result<String, Fail> {
    match word {
        "is_root" => Ok(format!(in alloc; "{}", table.is_root())?),
        "max_rows" => Ok(format!(in alloc; "{:?}", table.max_rows())?),
        "indexes" => text_of_indexes(alloc, table.indexes()),
        "columns" => names_of_columns(alloc, table),
        "marks" => marks_of_columns(alloc, table),
        _ => Err(Fail::new("no command")),
    }
}

/// A schema that answers commands.
#[derive(Drop)]
struct SchemaFacts {
    schema: Schema,
}

impl SchemaFacts {
    fn name(&self, alloc: Global) -> Result<String, Fail> {
        Ok(String::from_str(alloc, self.schema.name().as_str())?)
    }

    fn version(&self, alloc: Global) -> Result<String, Fail> {
        let version = self.schema.version().ok_or("no version")?;
        Ok(String::from_str(alloc, version.as_str())?)
    }

    fn has(&self, alloc: Global, name: &str) -> Result<String, Fail> {
        Ok(format!(in alloc; "{}", self.schema.table(name).is_some())?)
    }

    fn table(&self, alloc: Global, word: &str, name: &str) -> Result<String, Fail> {
        let table = self.schema.table(name).ok_or("no table")?;
        facts_of_table(alloc, table, word)
    }

    fn call(&self, alloc: Global, word: &str, text: &str) -> Result<String, Fail> {
        match word {
            "name" => self.name(alloc),
            "version" => self.version(alloc),
            "tree" => compact(alloc, self.schema.tree()),
            "has" => self.has(alloc, text),
            _ => self.table(alloc, word, text),
        }
    }
}

impl Scripted for SchemaFacts {
    fn answer(&mut self, alloc: Global, command: &str) -> Result<String, Fail> {
        let (word, text) = command.split_once(" ").unwrap_or((command, ""));
        self.call(alloc, word, text)
    }
}

/// Runs a script over the schema `LIMITED`.
fn are_told(alloc: Global, script: &str) -> Result<(), Fail> {
    let schema = schema_of_text(alloc, LIMITED)?;
    agrees(alloc, SchemaFacts { schema }, script)
}

#[test]
fn a_schema_tells_what_its_tree_says(rt: HostRuntime) -> Result<(), Fail> {
    are_told(rt.alloc(), ITSELF)?;
    let tree = format!(in rt.alloc(); "tree -> {LIMITED}")?;
    are_told(rt.alloc(), tree.as_str())
}

#[test]
fn a_table_tells_its_limits(rt: HostRuntime) -> Result<(), Fail> {
    are_told(rt.alloc(), TABLES)
}

#[test]
fn a_table_tells_its_columns_in_order(rt: HostRuntime) -> Result<(), Fail> {
    are_told(rt.alloc(), COLUMNS)
}

/// Whether a lookup near a place finds the column of this name.
fn is_found_near(table: &Table, name: &str, column: &Column, place: usize) -> Result<bool, Fail> {
    let found = table.column_near(place, name).ok_or("no column")?;
    Ok(
        found.is_mutable() == column.is_mutable()
            && found.is_ephemeral() == column.is_ephemeral()
            && found.min() == column.min(),
    )
}

/// Whether a lookup near each of the places finds each column.
fn are_found_near(table: &Table, places: &[usize]) -> Result<bool, Fail> {
    for (name, column) in table.columns() {
        for place in places {
            if !is_found_near(table, name.as_str(), column, *place)? {
                return Ok(false);
            }
        }
    }
    Ok(true)
}

/// Fails unless each column of a schema is found wherever it is looked for, and no other is.
fn are_columns_found(alloc: Global, schema: &Schema) -> Result<(), Fail> {
    let table = schema.table("Switch").ok_or("no table")?;
    let places = [0, 1, 2, 3, 9, usize::MAX - 1, usize::MAX];
    holds(
        alloc,
        are_found_near(table, &places)?,
        "each column is found",
    )?;
    let other = table.column_near(0, "no such column");
    holds(alloc, other.is_none(), "no other column is found")
}

#[test]
fn a_column_is_found_wherever_it_is_looked_for(rt: HostRuntime) -> Result<(), Fail> {
    let schema = schema_of_text(rt.alloc(), LIMITED)?;
    are_columns_found(rt.alloc(), &schema)
}

/// A column of any number of strong references to rows of `Port`.
fn column_of_ports(alloc: Global) -> Result<Column, Fail> {
    let refers = Reference::new(Text::from_str(alloc, "Port")?, true);
    let key = BaseType::new(AtomKind::Uuid, None, None, None, None, None, Some(refers));
    Ok(Column::new(ColumnType::new(key, None, 0, None), true, false))
}

/// The table that a column refers to, whether strongly, whether the column is ephemeral and mutable, and its least number of
/// elements.
fn parts_of_column(alloc: Global, column: &Column) -> Result<String, Fail> {
    let refers = column.key_refers().ok_or("no reference")?;
    let is_ephemeral = column.is_ephemeral();
    let is_mutable = column.is_mutable();
    let min = column.min();
    Ok(format!(in alloc;
        "{} {} {is_ephemeral} {is_mutable} {min}",
        refers.table(),
        refers.is_strong()
    )?)
}

#[test]
fn a_column_is_made_of_its_parts(rt: HostRuntime) -> Result<(), Fail> {
    let column = column_of_ports(rt.alloc())?;
    let parts = parts_of_column(rt.alloc(), &column)?;
    is_text(rt.alloc(), parts.as_str(), "Port true true false 0")
}

/// Facts about a table made of its parts. Besides its own columns, it has those of every row.
const PARTS: &str = "columns -> _uuid,_version,ports,
indexes -> ports;
max_rows -> Some(3)
is_root -> true";

/// A table that answers commands.
#[derive(Drop)]
struct TableFacts {
    table: Table,
}

impl Scripted for TableFacts {
    fn answer(&mut self, alloc: Global, command: &str) -> Result<String, Fail> {
        facts_of_table(alloc, &self.table, command)
    }
}

/// The column of ports, by its name.
fn columns_of_ports(alloc: Global) -> Result<Vec<(String, Column)>, Fail> {
    let mut columns = Vec::new(alloc);
    columns.push((String::from_str(alloc, "ports")?, column_of_ports(alloc)?))?;
    Ok(columns)
}

/// An index of the column of ports.
fn indexes_of_ports(alloc: Global) -> Result<Vec<Vec<Text>>, Fail> {
    let index = vec![in alloc; Text::from_str(alloc, "ports")?]?;
    Ok(vec![in alloc; index]?)
}

/// A root table of at most 3 rows, with one column and one index.
fn table_of_ports(alloc: Global) -> Result<Table, Fail> {
    let columns = columns_of_ports(alloc)?;
    let indexes = indexes_of_ports(alloc)?;
    Ok(Table::new(alloc, columns, Some(3), true, indexes)?)
}

#[test]
fn a_table_is_made_of_its_parts(rt: HostRuntime) -> Result<(), Fail> {
    let table = table_of_ports(rt.alloc())?;
    agrees(rt.alloc(), TableFacts { table }, PARTS)
}

#[test]
fn a_fault_is_told_in_words(rt: HostRuntime) -> Result<(), Fail> {
    let found = format!(in rt.alloc(); "{}", SchemaFault::UnknownRefTable)?;
    let want = "a column refers to a table that the schema does not have";
    is_text(rt.alloc(), found.as_str(), want)
}
