//! Rows by their values in the indexes of their tables (RFC 7047, 3.2, `<table-schema>`, indexes).
#![tactic(auto)]

mod alike;
mod entry;
mod id_set;
mod ids_by_values;
mod indexes;
mod key;
mod limits;
mod placing;
mod table_indexes;

pub use alike::are_made_alike;
pub use entry::IndexEntry;
pub use id_set::IdSet;
pub use indexes::Indexes;
pub use key::IndexKey;
pub use limits::is_over_limits;
pub use placing::IndexChanges;
