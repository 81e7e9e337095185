use ov_projection::{OpError, OpFault};
use ov_results::OpResult;

/// The outcome of an operation (RFC 7047, 4.1.3 and 5.2.6).
#[derive(Drop)]
pub enum OpOutcome {
    /// It has this result.
    Done(OpResult),
    /// It fails, and so does the transaction.
    Fault(OpError),
    /// It waits, and times out after this many milliseconds, if ever.
    Blocked(Option<u64>),
    /// An allocation failed.
    NoMemory,
}

impl From<Result<OpResult, OpFault>> for OpOutcome {
    ghost use Rattle.ov_ops.specs.Outcomes.{outcome_of_result};
    ghost use Rattle.std.specs.Prelude.{◌≡◌};

    ghost from_gives = { λ done o. o ≡ outcome_of_result done };

    fn from(done: Result<OpResult, OpFault>) -> OpOutcome {
        match done {
            Ok(result) => OpOutcome::Done(result),
            Err(OpFault::Refused(error)) => OpOutcome::Fault(error),
            Err(OpFault::Memory) => OpOutcome::NoMemory,
        }
    }
}
