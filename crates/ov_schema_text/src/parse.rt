//! The members of a schema as they stand in its tree (RFC 7047, 3.2).

pub(crate) mod base_shape;
pub(crate) mod choices;
pub(crate) mod member;
pub(crate) mod schema_shape;
pub(crate) mod table_shape;
pub(crate) mod type_shape;
