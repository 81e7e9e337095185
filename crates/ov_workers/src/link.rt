/// The two ends of a session to be served.
#[derive(Drop)]
pub struct Link<S, W> {
    /// What is read from.
    pub reader: S,
    /// What is written to.
    pub writer: W,
}
