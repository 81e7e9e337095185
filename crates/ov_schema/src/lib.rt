//! The schema of a database (RFC 7047, 3.2): its tables and columns, the values that fit a column, the defaults of new rows.
//!
//! Everything here is built from given parts. How a schema is read from its text, and which texts are refused, is in
//! `ov_schema_text`, so that crates that need only tables and columns do not wait for it.
#![tactic(auto)]

mod base_type;
mod column;
mod column_type;
mod fault;
mod limits;
mod named;
mod newer;
mod row_shape;
mod same_type;
mod schema;
mod table;
mod text;

pub use base_type::{BaseType, Reference};
pub use column::Column;
pub use column_type::ColumnType;
pub use fault::SchemaFault;
pub use row_shape::is_own;
pub use schema::Schema;
pub use table::Table;
pub use text::text_of;
