//! The store of `ov_store` over files: in a file, which is looked at before it is opened, or in memory; closed, so that its file
//! has everything; and opened again after a crash. `MemoryDisk` is a file in memory, `once::FailsOnce` a disk for tests.
#![tactic(auto)]

mod close;
mod copies;
mod crash;
mod file;
mod look;
mod memory;
mod memory_disk;
pub mod once;
mod options;
mod over;
mod pair;

pub use close::{close_files, close_in_file};
pub use crash::reopen_after_crash;
pub use file::{store_in_file, store_in_memory};
pub use memory::open_in_memory;
pub use memory_disk::MemoryDisk;
pub use ov_store::{Store, Unopened, store_over};
