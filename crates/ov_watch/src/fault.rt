ghost use Rattle.std.specs.Prelude.{◌≡◌, IfSome};
ghost use Rattle.ov_specs.specs.monitors.Requests.{monitor_fault_text};
ghost use Rattle.ov_watch.specs.Views.{fault_view};

use std::alloc::AllocError;
use thiserror::Error;

/// Why a monitor is not added or not canceled. The monitors are unchanged.
#[derive(Clone, Copy, Debug, PartialEq, Eq, Error)]
pub enum WatchFault {
    /// The requests are malformed, or name a column of a table twice.
    #[error("syntax error")]
    Syntax,
    /// The schema has no table of this name.
    #[error("unknown table")]
    UnknownTable,
    /// The table has no column of this name.
    #[error("unknown column")]
    UnknownColumn,
    /// The session already has a monitor of this name (RFC 7047, 4.1.5).
    #[error("duplicate monitor id")]
    Duplicate,
    /// The session has no monitor of this name (RFC 7047, 4.1.7).
    #[error("unknown monitor")]
    Unknown,
    /// The session has as many monitors as it may have.
    #[error("resources exhausted")]
    Limit,
    /// An allocation failed.
    #[error("out of memory")]
    Memory,
}

impl WatchFault {
    /// The error text sent to the client; `Memory` closes the session instead. Not derived, so that the contract can state it.
    pub fn text(self) -> &'static str
        ensures { IfSome (fault_view self) (λ fault. result.now ≡ monitor_fault_text fault) }
    {
        match self {
            WatchFault::Syntax => "syntax error",
            WatchFault::UnknownTable => "unknown table",
            WatchFault::UnknownColumn => "unknown column",
            WatchFault::Duplicate => "duplicate monitor id",
            WatchFault::Unknown => "unknown monitor",
            WatchFault::Limit => "resources exhausted",
            WatchFault::Memory => "out of memory",
        }
    }
}

impl From<AllocError> for WatchFault {
    ghost use Rattle.ov_watch.specs.declared.fault.WatchFault.TheVariants.{Memory};
    ghost use Rattle.std.specs.Prelude.{◌≡◌};

    ghost from_gives = { λ _ e. e ≡ Memory };

    fn from(_refused: AllocError) -> WatchFault {
        WatchFault::Memory
    }
}
