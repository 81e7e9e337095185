use ov_keeper::KeepFault;
use sqlite::{Alter, Connection};
use std::fmt;
use thiserror::Error;

/// A refused connection: why no store is made of it, and the connection given back.
#[derive(Drop, Error)]
#[error("{fault}")]
pub struct Unopened<S: Alter> {
    pub fault: KeepFault,
    pub connection: Connection<S>,
}

impl<S: Alter> fmt::Debug for Unopened<S> {
    fn fmt<W: fmt::Write>(&self, f: &mut fmt::Formatter<W>) -> fmt::Result {
        f.debug_struct("Unopened")
            .field("fault", &self.fault)
            .finish_non_exhaustive()
    }
}
