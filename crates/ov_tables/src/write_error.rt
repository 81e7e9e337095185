//! Where a write stopped.

use sqlite::Error;

/// Where a write stopped: before the commit, so that it changed nothing, or at the commit.
#[derive(Debug, Drop)]
pub enum WriteError {
    Before(Error),
    AtCommit(Error),
}
