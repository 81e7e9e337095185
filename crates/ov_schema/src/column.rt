ghost use Rattle.std.specs.Prelude.{◌≡◌, IfOk, option_and_then};
ghost use Rattle.std.specs.Option.{option_copied};
ghost use Rattle.ov_specs.specs.schema.Fitting.{fits, default_of};
ghost use Rattle.ov_specs.specs.schema.Schema.{own_column};
ghost use Rattle.ov_specs.specs.schema.SchemaTypes.{kinds_of};
ghost use Rattle.ov_specs.specs.operations.Conditions.{is_optional, is_scalar};
ghost use Rattle.ov_atoms.specs.Views.{kinds_view};

use crate::base_type::{BaseType, Reference};
use crate::column_type::ColumnType;
use ov_atoms::{AtomKind, Datum, Kinds};
use std::alloc::{AllocError, Global};
use std::marker::Model;

/// A column of a table (RFC 7047, 3.2, `<column-schema>`).
#[derive(Drop)]
pub struct Column {
    pub(crate) type_of: ColumnType,
    is_ephemeral: bool,
    is_mutable: bool,
}

impl Model for Column {
    ghost use Rattle.ov_specs.specs.schema.SchemaTypes as types;
    ghost use Rattle.ov_specs.specs.codes.SchemaCode.{column_code};

    ghost Value = { types.Column };

    ghost coded = { column_code };

    ghost view = { λ c. record {
      type_of = c.type_of;
      is_ephemeral = c.is_ephemeral;
      is_mutable = c.is_mutable;
    } };
}

impl Column {
    /// The column of these parts.
    pub fn new(type_of: ColumnType, is_ephemeral: bool, is_mutable: bool) -> Column
        ensures { result
            ≡ record { type_of = type_of; is_ephemeral = is_ephemeral; is_mutable = is_mutable } }
    {
        Column {
            type_of,
            is_ephemeral,
            is_mutable,
        }
    }

    /// `_uuid` or `_version`: one identifier, which clients cannot change.
    pub(crate) fn own() -> Column
        ensures { result ≡ own_column }
    {
        let type_of = ColumnType::new(BaseType::plain(AtomKind::Uuid), None, 1, Some(1));
        Column::new(type_of, false, false)
    }

    /// What the column holds: atoms of one kind, or pairs of two (RFC 7047, 3.2, `<type>`).
    pub fn kinds(&self) -> Kinds
        ensures { kinds_view result ≡ kinds_of self.now.type_of }
    {
        self.type_of.kinds()
    }

    /// The table that its atoms, or the keys of its map, refer to, if any (RFC 7047, 3.2, `<base-type>`, refTable).
    pub fn key_refers(&self) -> Option<&Reference>
        ensures { option_copied result ≡ self.now.type_of.key.refers }
    {
        self.type_of.key_refers()
    }

    /// The table that the values of its map refer to, if it is a map and they refer to one (RFC 7047, 3.2, `<base-type>`,
    /// refTable).
    pub fn value_refers(&self) -> Option<&Reference>
        ensures { option_copied result ≡ option_and_then (λ b. b.refers) self.now.type_of.value }
    {
        self.type_of.value_refers()
    }

    /// The minimum number of atoms or pairs: 0 or 1 (RFC 7047, 3.2, `<type>`, min).
    pub fn min(&self) -> i64
        ensures { result ≡ self.now.type_of.min }
    {
        self.type_of.min()
    }

    /// Whether it holds exactly one atom: it is not a map, and `min` and `max` are both 1 (RFC 7047, 3.2, `<type>`).
    pub fn is_scalar(&self) -> bool
        ensures { result ≡ is_scalar self.now.type_of }
    {
        self.type_of.is_scalar()
    }

    /// Whether it holds at most one atom, and may hold none: it is not a map, `min` is 0 and `max` is 1 (RFC 7047, 3.2,
    /// `<type>`).
    pub fn is_optional(&self) -> bool
        ensures { result ≡ is_optional self.now.type_of }
    {
        self.type_of.is_optional()
    }

    /// Whether a value of the column's kinds meets its constraints (RFC 7047, 3.2, `<type>`): its count lies between
    /// `min` and `max`, and each atom is in its `enum` and its range. The length of a text is counted in characters.
    pub fn fits(&self, datum: &Datum) -> bool
        ensures { result ≡ fits self.now.type_of datum.now }
    {
        self.type_of.fits(datum)
    }

    /// The value that a new row has if none is given: empty if `min` is 0, else one 0, false, empty text or zero UUID, or a
    /// pair of two of these (RFC 7047, 5.2.1).
    pub fn default_of(&self, alloc: Global) -> Result<Datum, AllocError>
        ensures { IfOk result (λ d. d ≡ default_of self.now.type_of) }
    {
        self.type_of.default_of(alloc)
    }

    /// Whether clients may change it in an existing row. The server itself changes a column of weak references, so such a
    /// column is mutable whatever its schema says.
    pub fn is_mutable(&self) -> bool
        ensures { result ≡ self.now.is_mutable }
    {
        self.is_mutable
    }

    /// Whether its values are not kept when the server exits (RFC 7047, 3.2, `<column-schema>`).
    pub fn is_ephemeral(&self) -> bool
        ensures { result ≡ self.now.is_ephemeral }
    {
        self.is_ephemeral
    }
}
