//! Maps errors of a connection to faults.

ghost use Rattle.std.specs.Prelude.{◌≡◌, ◌⊎◌, ◌≢◌, false, IfSome};
ghost use Rattle.sqlite.specs.State.{HasCleanDisk, Survives, KeepsCommit, IsUnchanged};
ghost use Rattle.sqlite.specs.Held.{state};
ghost use Rattle.ov_keeper.specs.Keeping.{IsCommitFault};
ghost use Rattle.ov_tables.specs.WriteError.{IsBefore};
ghost use Rattle.ov_tables.specs.Querying.{IsAsBefore};

use crate::write::probe;
use ov_keeper::KeepFault;
use ov_tables::WriteError;
use sqlite::{Alter, Connection, Error, ErrorCode};

/// Which refusal an error is, if the device is not to blame.
pub fn refusal(error: &Error) -> Option<KeepFault>
    ensures which { IfSome result (λ fault. (fault ≡ KeepFault.Memory)
        ⊎ (fault ≡ KeepFault.TooLarge)) }
    ensures kind { IfSome result IsCommitFault }
{
    match error {
        Error::SqliteFailure(ErrorCode::OutOfMemory) => Some(KeepFault::Memory),
        Error::SqliteFailure(ErrorCode::TooBig) => Some(KeepFault::TooLarge),
        _ => None,
    }
}

/// Which fault an error of SQLite is, if the device is to blame for anything that is neither memory nor size.
pub(crate) fn fault_of(error: &Error) -> KeepFault
    ensures kind { IsCommitFault result }
    ensures format { result ≢ KeepFault.Format }
    ensures ours { result ≢ KeepFault.NotOurs }
{
    refusal(error).unwrap_or(KeepFault::Device)
}

/// Why a write stopped. After an error at the commit itself the commit may be stored; a statement that succeeds shows that it
/// is not. If the lines were read before, this statement allocates nothing.
pub fn fault_at<S: Alter>(conn: &mut Connection<S>, failure: &WriteError) -> KeepFault
    requires { conn.old.in_transaction ≡ false }
    ensures mode { conn.new.in_transaction ≡ false }
    ensures kind { IsCommitFault result }
    ensures shown { HasCleanDisk (state S.Store conn.new) → result ≢ KeepFault.Device
        → IsBefore failure.now ⊎ IsUnchanged (state S.Store conn.old) (state S.Store conn.new) }
    ensures unmoved { HasCleanDisk (state S.Store conn.new)
        → KeepsCommit (state S.Store conn.old) (state S.Store conn.new) }
    ensures same { HasCleanDisk (state S.Store conn.new)
        → IsAsBefore (state S.Store conn.old) (state S.Store conn.new) }
    ensures survives { Survives (state S.Store conn.old) (state S.Store conn.new) (λ _. ⊥) }
{
    let error = match failure {
        WriteError::Before(error) => return fault_of(error),
        WriteError::AtCommit(error) => error,
    };
    if probe(conn).is_ok() {
        fault_of(error)
    } else {
        KeepFault::Device
    }
}
