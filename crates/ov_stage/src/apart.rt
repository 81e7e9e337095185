ghost use Rattle.std.specs.Prelude.{◌≡◌};
ghost use Rattle.std.specs.List.{list_any};
ghost use Rattle.ov_stage.specs.Apart.{has_any_index, has_index};

use crate::indexed::Indexed;
use ov_base::Text;
use ov_projection::is_among;
use ov_schema::{Table, is_own};

/// Whether each column of the index is among these, and none is `_uuid` or `_version`.
fn has_index(names: &[Text], index: &[Text]) -> bool
    ensures { result ≡ has_index names.now index.now }
{
    for column in index {
        if is_own(column.as_str()) || !is_among(names, column.as_str()) {
            return false;
        }
    }
    true
}

/// Whether the columns of one of the table's indexes are among these.
fn has_any(names: &[Text], table: &Table) -> bool
    ensures { result ≡ list_any (has_index names.now) table.now.indexes }
{
    for index in table.indexes() {
        if has_index(names, index.as_slice()) {
            return true;
        }
    }
    false
}

impl<'a> Indexed<'a> {
    /// Whether the columns of an index of the table of this name are among these.
    pub(crate) fn has_any(self, name: &str, names: &[Text]) -> bool
        ensures { result ≡ has_any_index self.entry.schema.now name.now names.now }
    {
        match self.schema.table(name) {
            Some(table) => has_any(names, table),
            None => false,
        }
    }
}
