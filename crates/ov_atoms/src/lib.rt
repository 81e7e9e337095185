//! Atoms and values, and their JSON form (RFC 7047, 5.1), and what all rows of a table share.
//!
//! A value is read from a JSON tree by the kinds of its column alone, or refused, and is written as the one tree that stands
//! for it. Further constraints of a column are not checked here.
#![tactic(auto)]

mod atom;
mod atom_list;
mod datum;
mod fault;
mod id;
mod identifier;
mod kind;
mod names;
mod of_kinds;
mod order;
mod read;
mod row_shape;
mod text;
mod two;
mod write;

pub use atom::Atom;
pub use datum::Datum;
pub use fault::AtomFault;
pub use id::is_id;
pub use identifier::{has_sixteen_bytes, read_uuid};
pub use kind::{AtomKind, Kinds};
pub use names::{Names, NoNames};
pub use read::{read_atom, read_datum};
pub use row_shape::RowShape;
pub use text::put_datum;
pub use write::write_datum;
