ghost use Rattle.std.specs.Prelude.{◌≡◌, not};
ghost use Rattle.std.specs.List.{list_any};
ghost use Rattle.std.specs.Str.{bytes_eq};
ghost use Rattle.ov_specs.specs.schema.Schema.{column_named, is_lasting, has_twice, is_bad_index};
ghost use Rattle.ov_schema_text.specs.ShapeViews.{texts_view, table_view};

use crate::parse::table_shape::TableShape;

impl TableShape<'_> {
    /// Whether an index is empty, names something that is not a column, a column twice, or an ephemeral column (RFC 7047, 3.2,
    /// `<table-schema>`).
    pub(crate) fn has_bad_index(&self) -> bool
        ensures { result
            ≡ list_any (is_bad_index (table_view self.now)) (table_view self.now).indexes }
    {
        for index in &self.indexes {
            if self.is_bad_index(index.as_slice()) {
                return true;
            }
        }
        false
    }

    fn is_bad_index(&self, index: &[&str]) -> bool
        ensures { result ≡ is_bad_index (table_view self.now) (texts_view index.now) }
    {
        index.is_empty() || self.names_unlasting(index) || has_twice(index)
    }

    /// Whether a name is not that of a column, or is that of an ephemeral one.
    fn names_unlasting(&self, index: &[&str]) -> bool
        ensures { result
            ≡ list_any (λ name. not (is_lasting (column_named (table_view self.now).columns name)))
            (texts_view index.now) }
    {
        for name in index {
            if !self.is_lasting(*name) {
                return true;
            }
        }
        false
    }

    /// Whether there is a column of this name that is not ephemeral.
    fn is_lasting(&self, name: &str) -> bool
        ensures { result ≡ is_lasting (column_named (table_view self.now).columns name.now) }
    {
        for (known, column) in &self.columns {
            if *known == name {
                return !column.is_ephemeral;
            }
        }
        false
    }
}

/// Whether a name occurs twice. Indexes are short, so each name is compared with all that follow.
fn has_twice(names: &[&str]) -> bool
    ensures { result ≡ has_twice (texts_view names.now) }
{
    for (at, name) in names.iter().enumerate() {
        if has_name(&names[at + 1..], *name) {
            return true;
        }
    }
    false
}

fn has_name(names: &[&str], name: &str) -> bool
    ensures { result ≡ list_any (λ other. bytes_eq other name.now) (texts_view names.now) }
{
    for other in names {
        if *other == name {
            return true;
        }
    }
    false
}
