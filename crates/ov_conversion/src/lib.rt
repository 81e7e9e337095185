//! What a database is converted to when a server is started with a newer schema over the rows of an older one (RFC 7047, 3.2;
//! the conversion is this server's): the rows are carried over to the new schema, and then the rules of a commit are applied
//! to them.
#![tactic(auto)]

mod committed;
mod converted;
mod defaults;
mod fault;
mod limits;
mod missing;
mod pruned;
mod successor;
mod support;

pub use converted::converted_rows;
pub use fault::ConversionFault;
pub use successor::{has_changed_type, is_successor};
