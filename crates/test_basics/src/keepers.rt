use crate::failing_keeper::FailingKeeper;
use crate::lines::{cell_line_of, lines_of};
use crate::schemas::NET;
use crate::whole_keeper::WholeKeeper;
use ov_base::Text;
use ov_keeper::{Change, Keeper, ListKeeper};
use ov_schema::{Schema, text_of};
use std::alloc::Global;
use std::test::Fail;

/// A keeper in memory that fails as configured.
pub type NetKeeper = FailingKeeper<ListKeeper>;

/// When a keeper fails, as in `FailingKeeper`.
#[derive(Clone, Copy)]
pub struct Faults {
    /// Whether the next commit is refused as too large.
    pub is_too_large: bool,
    /// How many commits are made before the device fails.
    pub good: u64,
    /// How many commits fail then.
    pub bad: u64,
}

impl Faults {
    /// The keeper never fails.
    pub const NONE: Faults = Faults {
        is_too_large: false,
        good: 0,
        bad: 0,
    };
}

/// The changes that put the rows of these lines.
fn changes_of(alloc: Global, lines: &str) -> Result<Vec<Change>, Fail> {
    let mut changes = Vec::new(alloc);
    for line in lines.lines() {
        changes.push(Change::Put(cell_line_of(alloc, line)?))?;
    }
    Ok(changes)
}

/// A keeper of format 1 that holds this schema text and these lines.
pub fn whole_keeper_of(alloc: Global, schema: &str, lines: &str) -> Result<WholeKeeper, Fail> {
    let schema = Text::from_str(alloc, schema)?;
    Ok(WholeKeeper::new(alloc, schema, lines_of(alloc, lines)?))
}

/// A keeper of format 2 that holds this schema text and the rows of these lines.
pub fn keeper_of(alloc: Global, schema: &str, lines: &str) -> Result<ListKeeper, Fail> {
    let changes = changes_of(alloc, lines)?;
    let mut keeper = ListKeeper::new(alloc, Text::from_str(alloc, schema)?);
    match keeper.commit(alloc, changes.as_slice()) {
        Ok(()) => Ok(keeper),
        Err(_) => Err(Fail::new("not kept")),
    }
}

/// A keeper over another, with these faults.
pub fn failing<K: Keeper>(inner: K, faults: Faults) -> FailingKeeper<K> {
    FailingKeeper {
        inner,
        is_too_large: faults.is_too_large,
        bad_loads: 0,
        good: faults.good,
        bad: faults.bad,
        failures: 0,
    }
}

/// A keeper of a new database Net, with these faults.
pub fn net_keeper(alloc: Global, faults: Faults) -> Result<NetKeeper, Fail> {
    let schema = Text::from_str(alloc, NET)?;
    Ok(failing(ListKeeper::new(alloc, schema), faults))
}

/// A keeper of a new database with this schema and these faults.
pub fn new_keeper(alloc: Global, schema: &Schema, faults: Faults) -> Result<NetKeeper, Fail> {
    let text = text_of(alloc, schema)?;
    Ok(failing(ListKeeper::new(alloc, text), faults))
}
