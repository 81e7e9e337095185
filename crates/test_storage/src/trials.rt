//! What tests do with new databases in memory.

use ov_files::open_in_memory;
use sqlite::{Alter, Connection, FileStore};
use sqlite_disk::Disk;
use std::alloc::Global;
use std::test::Fail;

/// What a test does with a database.
pub(crate) trait Trial {
    /// Does it over a connection, and returns what is found.
    fn found<S: Alter + Drop>(
        &self,
        alloc: Global,
        connection: Connection<S>,
    ) -> Result<String, Fail>;
}

/// What is found over a connection to files. Every trial goes through here: the proof that files are an `Alter` is long, and is
/// made here once, for any kind of file.
pub(crate) fn found_in_files<D: Disk + Drop, T: Trial>(
    alloc: Global,
    connection: Connection<FileStore<D>>,
    trial: &T,
) -> Result<String, Fail> {
    trial.found(alloc, connection)
}

/// What is found over a new database in memory.
pub(crate) fn found_in_memory<T: Trial>(alloc: Global, trial: &T) -> Result<String, Fail> {
    found_in_files(alloc, open_in_memory(alloc)?, trial)
}
