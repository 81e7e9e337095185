ghost use Rattle.std.specs.Prelude.{◌≡◌};
ghost use Rattle.std.specs.Option.{option_copied};
ghost use Rattle.std.specs.FinMap.{get, from_entries};
ghost use Rattle.ov_specs.specs.schema.Schema.{IsAccepted};
ghost use Rattle.ov_schema.specs.Built.{schema_of_parts};

use crate::named::find_named;
use crate::table::Table;
use ov_base::{Text, Tree};
use std::marker::Model;

/// A database's schema (RFC 7047, 3.2), with the whole tree that it was read from.
pub struct Schema {
    name: Text,
    version: Option<Text>,
    tables: Vec<(Text, Table)>,
    tree: Tree,
}

impl Model for Schema {
    ghost use Rattle.ov_specs.specs.schema.SchemaTypes as types;
    ghost use Rattle.ov_specs.specs.codes.SchemaCode.{schema_code};
    ghost use Rattle.ov_specs.specs.schema.Schema.{IsAccepted};
    ghost use Rattle.ov_schema.specs.Built.{schema_of_parts};

    ghost Value = { types.Schema };

    ghost coded = { schema_code };

    ghost view = { λ s. schema_of_parts s.name s.version s.tables.items s.tree };

    ghost invariant = { λ s. IsAccepted (schema_of_parts s.name s.version s.tables.items s.tree) };
}

impl Drop for Schema {
    // An explicit drop, so that crates above need not prove the drop of its parts again.
    fn drop(self) {
        let Schema {
            name,
            version: number,
            tables,
            tree,
        } = self;
        drop(name);
        drop(number);
        drop(tables);
        drop(tree);
    }
}

impl Schema {
    /// The schema of these parts, which is what the tree is read as.
    pub fn new(name: Text, version: Option<Text>, tables: Vec<(Text, Table)>, tree: Tree) -> Schema
        requires { IsAccepted (schema_of_parts name version tables.items tree) }
        ensures { result ≡ schema_of_parts name version tables.items tree }
    {
        Schema {
            name,
            version,
            tables,
            tree,
        }
    }

    /// Tells contracts that the schema is what its own tree is read as. It does nothing.
    pub fn shows_accepted(&self)
        ensures { IsAccepted self.now }
    {
        let _tree = &self.tree;
    }

    /// The database's name.
    pub fn name(&self) -> &Text
        ensures { result.now ≡ self.now.name }
    {
        &self.name
    }

    /// The version, three numbers separated by dots, or `None` if the schema has none.
    pub fn version(&self) -> Option<&Text>
        ensures { option_copied result ≡ self.now.version }
    {
        self.version.as_ref()
    }

    /// The whole tree that was read.
    pub fn tree(&self) -> &Tree
        ensures { result.now ≡ self.now.tree }
    {
        &self.tree
    }

    /// All tables with their names, in the order of the tree.
    pub fn tables(&self) -> &[(Text, Table)]
        ensures { from_entries result.now ≡ self.now.tables }
    {
        self.tables.as_slice()
    }

    /// The table of this name. The search is linear.
    pub fn table(&self, name: &str) -> Option<&Table>
        ensures { option_copied result ≡ get self.now.tables name.now }
    {
        find_named(self.tables.as_slice(), name)
    }
}
