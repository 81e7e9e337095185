use thiserror::Error;

/// Why a stream gives no more messages (RFC 7047, 4 sends JSON-RPC objects without framing).
#[derive(Clone, Copy, Debug, PartialEq, Eq, Error)]
pub enum CutFault {
    /// A byte after the last message is neither white space nor an opening brace. The number is its offset in the stream, in
    /// bytes from 0; from 2^64-1 on it stays there.
    #[error("byte {0} of the stream begins no message")]
    Damaged(u64),
    /// A message, whether it has ended or not, has more than 1,048,576 bytes.
    #[error("a message has more than 1048576 bytes")]
    TooLong,
    /// An allocation failed for the bytes of a message.
    #[error("no memory is left for the next message")]
    Memory,
}

/// Why a stream can't be read on.
#[derive(Clone, Copy, Debug, PartialEq, Eq)]
pub enum StreamFault {
    /// The stream can't be cut, or one of its texts is unreadable.
    Damaged,
    /// An allocation for a message failed.
    Memory,
}
