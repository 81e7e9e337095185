//! What the tests of all crates share: scripts of commands and answers, checks of texts and facts, schemas, trees and rows
//! read from text, counted identifiers, a keeper that fails as configured, one of stored format 1, one driven by a script, and
//! slow readers and writers.
//!
//! The functions that run a script or fail a test have no contract, so that a test's own proof stays small.
#![tactic(auto)]

mod counter;
mod facts;
mod failing_keeper;
mod keepers;
mod keeping;
mod line_texts;
mod lines;
mod old_files;
mod readers;
mod rows;
mod schemas;
mod scripts;
mod tree_texts;
mod whole_keeper;
mod writers;

pub use counter::Counter;
pub use facts::{holds, is_text};
pub use failing_keeper::FailingKeeper;
pub use keepers::{Faults, NetKeeper, failing, keeper_of, net_keeper, new_keeper, whole_keeper_of};
pub use keeping::Keeping;
pub use line_texts::{text_of_cell_line, text_of_line, text_of_lines};
pub use lines::{cell, cell_line_of, cells_of, change_of, line_of, lines_of, number};
pub use old_files::whole_file;
pub use readers::SlowReader;
pub use rows::switch;
pub use schemas::{NET, net, schema_of_text};
pub use scripts::{Scripted, agrees, follows};
pub use tree_texts::{array_text, compact, tree, trees, trees_of, value};
pub use whole_keeper::WholeKeeper;
pub use writers::SlowWriter;
