//! How the program ends, by what it met.

ghost use Rattle.std.specs.Prelude.{◌≡◌};
ghost use Rattle.ov_words.specs.Causes.{by_words, by_schema, by_keeping, by_open, by_step};
ghost use Rattle.ov_words.specs.Causes.{by_cause};

use crate::ending::Ending;
use crate::fault::WordFault;
use ov_history::{Cause, StepFault};
use ov_keeper::KeepFault;
use ov_schema_text::SchemaFileFault;
use ov_stored::OpenFault;

/// How the program ends if the arguments give no settings.
pub fn ending_of_words(fault: WordFault) -> Ending
    ensures { result ≡ by_words fault }
{
    match fault {
        WordFault::Refused => Ending::Arguments,
        WordFault::Memory => Ending::Memory,
    }
}

/// How the program ends if a file gives no schema.
pub fn ending_of_schema(fault: SchemaFileFault) -> Ending
    ensures { result ≡ by_schema fault }
{
    match fault {
        SchemaFileFault::Memory => Ending::Memory,
        SchemaFileFault::Unread | SchemaFileFault::NotJson | SchemaFileFault::Refused(_) => {
            Ending::Schema
        }
    }
}

/// How the program ends if a keeper refuses.
pub fn ending_of_keeping(fault: KeepFault) -> Ending
    ensures { result ≡ by_keeping fault }
{
    match fault {
        KeepFault::Memory => Ending::Memory,
        KeepFault::Device | KeepFault::NotOurs | KeepFault::Format | KeepFault::TooLarge => {
            Ending::Database
        }
    }
}

/// How the program ends if a database is not opened.
pub fn ending_of_open(fault: OpenFault) -> Ending
    ensures { result ≡ by_open fault }
{
    match fault {
        OpenFault::SchemaDiffers
        | OpenFault::BadBody
        | OpenFault::Broken
        | OpenFault::TypeChanged
        | OpenFault::NotConvertible => Ending::Database,
        OpenFault::Keeping(fault) => ending_of_keeping(fault),
    }
}

/// How the program ends if a session is not opened.
pub fn ending_of_step(fault: StepFault) -> Ending
    ensures { result ≡ by_step fault }
{
    match fault {
        StepFault::TooMany | StepFault::NotOpen => Ending::Streams,
        StepFault::Memory => Ending::Memory,
    }
}

/// How the program ends after a session was closed.
pub fn ending_of_cause(cause: Cause) -> Ending
    ensures { result ≡ by_cause cause }
{
    match cause {
        Cause::InputEnded => Ending::InputEnded,
        Cause::ReadFault | Cause::WriteFault | Cause::Damaged | Cause::Overrun => Ending::Streams,
        Cause::Memory => Ending::Memory,
    }
}
