use ov_cut::StreamFault;

/// Why a reader ended. Its end mark reports this to the desk.
#[derive(Clone, Copy, Debug, PartialEq, Eq, Drop)]
pub enum ReadCause {
    /// The input ended.
    InputEnded,
    /// A read failed.
    ReadFault,
    /// The stream can't be cut, or one of its texts is unreadable.
    Damaged,
    /// An allocation for a message failed.
    Memory,
}

impl From<StreamFault> for ReadCause {
    ghost use Rattle.ov_workers.specs.Bringing.{read_cause_of};
    ghost use Rattle.std.specs.Prelude.{◌≡◌};

    ghost from_gives = { λ fault cause. cause ≡ read_cause_of fault };

    fn from(fault: StreamFault) -> ReadCause {
        match fault {
            StreamFault::Damaged => ReadCause::Damaged,
            StreamFault::Memory => ReadCause::Memory,
        }
    }
}
