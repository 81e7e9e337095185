//! What the operations of a transaction share: the rows as the operations so far have made them, and which rows match
//! (RFC 7047, 4.1.3 and 5.2).
#![tactic(auto)]

mod apart;
mod conditions;
mod former;
mod indexed;
mod lookup;
mod merge;
mod stage;

pub use conditions::conditions_of;
pub use stage::Stage;
