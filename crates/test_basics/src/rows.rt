use ov_atoms::{Atom, Datum};
use ov_base::Text;
use ov_rows::{Columns, NamedValues, Row};
use std::alloc::{AllocError, Global};
use uuid::Uuid;

/// Puts a value in a column.
fn put(
    alloc: Global,
    values: &mut NamedValues,
    name: &str,
    atoms: Vec<Atom>,
) -> Result<(), AllocError> {
    let datum = Datum::of_atoms(atoms)?;
    values.insert(String::from_str(alloc, name)?, datum)
}

/// Puts a name and a load in their columns.
fn put_name_and_load(
    alloc: Global,
    values: &mut NamedValues,
    name: &str,
    load: i64,
) -> Result<(), AllocError> {
    let name = Atom::Text(Text::from_str(alloc, name)?);
    put(alloc, values, "name", vec![in alloc; name]?)?;
    put(alloc, values, "load", vec![in alloc; Atom::Integer(load)]?)
}

/// A switch with this name and load in version 1, with no port.
pub fn switch(alloc: Global, name: &str, load: i64) -> Result<Row, AllocError> {
    let mut values = NamedValues::new(alloc);
    put_name_and_load(alloc, &mut values, name, load)?;
    put(alloc, &mut values, "ports", Vec::new(alloc))?;
    put(alloc, &mut values, "main", Vec::new(alloc))?;
    Ok(Row {
        version: Uuid::from_u128(1),
        columns: Columns::with_own_names(alloc, values)?,
    })
}
