/// How a commit ended.
#[derive(Clone, Copy, Debug, PartialEq, Eq)]
pub enum StoreAnswer {
    /// The changes are made, and the keeper has them.
    Kept,
    /// An allocation failed, or the changes were too large. Nothing has changed, here or in the keeper.
    Exhausted,
    /// The device failed, in this commit or an earlier one. The keeper is as before that commit, or has its changes.
    Failed,
}
