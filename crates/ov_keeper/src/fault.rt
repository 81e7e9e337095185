use thiserror::Error;

/// Why a keeper refuses.
#[derive(Clone, Copy, Debug, PartialEq, Eq, Error)]
pub enum KeepFault {
    /// An allocation failed. Nothing has changed.
    #[error("out of memory")]
    Memory,
    /// The device failed. What is held is as before, or as the call would have made it: open it again.
    #[error("the device failed")]
    Device,
    /// What is there is not a database of this program. Only an open returns this.
    #[error("not a database of this program")]
    NotOurs,
    /// The database has another format, or a malformed line. Only an open returns this.
    #[error("another format")]
    Format,
    /// The changes are too large to be stored. Nothing has changed.
    #[error("too large to be stored")]
    TooLarge,
}
