//! A database in memory: its rows, the lookups beside them, and the commit that writes the changes of a transaction to the keeper.
//!
//! A commit is one call of the keeper. If it fails, the rows stay as they were, and what it would have made is kept beside them,
//! since an open may find either.
//!
//! What a keeper holds under an older schema can be converted to a newer one, and what it holds in an older format is written
//! anew. One call then replaces all that it holds.
#![tactic(auto)]

mod answer;
mod convert;
mod db;
mod fault;
mod open;
mod resident;

pub use answer::StoreAnswer;
pub use db::Db;
pub use fault::RefusedOpen;
pub use ov_keeper::{Keeper, ListKeeper};
pub use ov_stored::{Delta, OpenFault, row_of};
