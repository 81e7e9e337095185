//! Whether the members of a schema are acceptable (RFC 7047, 3.2): the rules, and the first that is broken.

pub(crate) mod base_rules;
pub(crate) mod flaws;
pub(crate) mod index_rules;
pub(crate) mod names;
pub(crate) mod refusal;
pub(crate) mod type_rules;
