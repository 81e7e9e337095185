//! Builds columns, with their types, and tables from the accepted members of a schema (RFC 7047, 3.2).

pub(crate) mod columns;
pub(crate) mod tables;
