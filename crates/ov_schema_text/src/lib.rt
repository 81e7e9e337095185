//! Reads a schema from its text (RFC 7047, 3.2): what its tree says, which trees are refused, and what is built from the
//! others.
//!
//! A tree is read once into the shape of its members, which borrows from the tree, or is refused if one is missing or of a
//! wrong kind (`parse`). The other refusals are then checked in their order, over the whole shape (`judge`). What passes is
//! built (`build`) from the tables and columns of `ov_schema`.
#![tactic(auto)]

mod build;
mod file_fault;
mod judge;
mod parse;
mod schema;
mod text;

pub use file_fault::SchemaFileFault;
pub use schema::schema_of_tree;
pub use text::{read_schema, schema_from, schema_of};
