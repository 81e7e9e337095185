use clap::error::ErrorKind;
use std::alloc::AllocError;
use thiserror::Error;

/// Why the program's arguments give no settings.
#[derive(Clone, Copy, Debug, PartialEq, Eq, Error)]
pub enum WordFault {
    /// `clap` refuses them; a FILE or an ADDR is empty; N is not a number from 1 to 64; `--stdio` is given with `--listen`,
    /// or `--sessions` without it. There is no help page, so `--help` is refused as well.
    #[error("not the arguments of ov_server")]
    Refused,
    /// An allocation failed.
    #[error("out of memory")]
    Memory,
}

impl From<AllocError> for WordFault {
    ghost use Rattle.ov_words.specs.declared.fault.WordFault.TheVariants.{Memory};
    ghost use Rattle.std.specs.Prelude.{◌≡◌};

    ghost from_gives = { λ _ e. e ≡ Memory };

    fn from(_refused: AllocError) -> WordFault {
        WordFault::Memory
    }
}

impl From<clap::Error> for WordFault {
    ghost use Rattle.clap.specs.Words.{kind_of};
    ghost use Rattle.ov_words.specs.Faults.{fault_by};
    ghost use Rattle.std.specs.Prelude.{◌≡◌};

    ghost from_gives = { λ error e. e ≡ fault_by (kind_of error) };

    fn from(error: clap::Error) -> WordFault {
        match error.kind() {
            ErrorKind::OutOfMemory => WordFault::Memory,
            _ => WordFault::Refused,
        }
    }
}
