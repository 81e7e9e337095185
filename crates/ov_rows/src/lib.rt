//! The rows of a database in memory (RFC 7047, 3.2): the key of a row, the values of its columns, and the rows by their
//! keys.
#![tactic(auto)]

mod body;
mod body_reader;
mod columns;
mod guess;
mod id;
mod key;
mod marks;
mod named_values;
mod row;
mod row_view;
mod rows;
mod table_rows;
mod value_iter;

pub use body_reader::BodyReader;
pub use columns::Columns;
pub use id::RowId;
pub use key::RowKey;
pub use named_values::NamedValues;
pub use row::Row;
pub use row_view::RowView;
pub use rows::Rows;
pub use table_rows::TableRows;
pub use value_iter::ValueIter;
