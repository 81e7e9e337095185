//! Keepers store a database between two runs of the program: the text of its schema, and its rows. Format 2 stores a row as a
//! head and a cell for each of its columns; format 1, which older programs wrote, as one line. The laws of a keeper say how its
//! calls change what an open would find, also after a crash.
#![tactic(auto)]

mod cell_line;
mod change;
mod fault;
mod keeper;
mod line;
mod line_key;
mod line_map;
mod list;
mod volatile;

pub use cell_line::{Cell, CellLine};
pub use change::Change;
pub use fault::KeepFault;
pub use keeper::{Keeper, Lines, Loaded};
pub use line::Line;
pub use list::ListKeeper;
pub use volatile::VolatileKeeper;
