//! What rows refer to, and which rows refer to a row (RFC 7047, 3.2, `<base-type>`, refTable and refType).
#![tactic(auto)]

mod borrowed_key;
mod counting;
mod holders;
mod key_iter;
mod key_set;
mod link_changes;
mod links;
mod reference;
mod table_holders;
mod target;
mod target_set;
mod targets;
mod whole;

pub use holders::Holders;
pub use key_iter::KeyIter;
pub use key_set::KeySet;
pub use link_changes::LinkChanges;
pub use links::Links;
pub use reference::RowReference;
pub use table_holders::TableHolders;
pub use target::Target;
pub use targets::targets_of;
pub use whole::are_references_whole;
