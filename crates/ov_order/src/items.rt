use ov_base::Bytes;

/// What a reader brings the desk. `M` is a message, and `C` a cause for which a reader ends.
#[derive(Drop)]
pub enum Brought<M, C> {
    /// A message that was read.
    Message(M),
    /// The last item: the reader has ended.
    End(C),
}

/// What the desk sends a writer.
#[derive(Drop)]
pub enum Sent {
    /// A frame, to be written whole.
    Frame(Bytes),
    /// The last item: the writer is to end.
    End,
}
