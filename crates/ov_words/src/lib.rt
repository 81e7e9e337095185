//! What the program's arguments say, and how the program ends.
//!
//! `clap` reads the arguments: no file is opened here, and nothing is written. The faults of the crates below say what ends
//! the program.
#![tactic(auto)]

mod causes;
mod command;
mod ending;
mod fault;
mod number;
mod settings;

pub use causes::{
    ending_of_cause, ending_of_keeping, ending_of_open, ending_of_schema, ending_of_step,
    ending_of_words,
};
pub use ending::{Ending, error_line_of, status_of};
pub use fault::WordFault;
pub use settings::{Settings, read_words};
