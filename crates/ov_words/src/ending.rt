ghost use Rattle.std.specs.Prelude.{◌≡◌, option_map};
ghost use Rattle.ov_words.specs.Endings.{error_line, status};

/// How the program ended.
#[derive(Clone, Copy, Debug, PartialEq, Eq)]
pub enum Ending {
    /// The input ended; or, at an address, all sessions to be served have ended.
    InputEnded,
    /// The arguments were refused.
    Arguments,
    /// The schema's file could not be read or is not JSON, or its schema was refused.
    Schema,
    /// The database could not be opened, or was refused.
    Database,
    /// Standard input or output failed, or what came in was damaged. Or serving at an address failed: the address was
    /// refused, a connection was not accepted, or no thread could be started.
    Streams,
    /// An allocation failed.
    Memory,
}

/// The program's exit status.
pub fn status_of(ending: Ending) -> u8
    ensures { result ≡ status ending }
{
    match ending {
        Ending::InputEnded => 0,
        Ending::Arguments => 2,
        Ending::Schema => 3,
        Ending::Database => 4,
        Ending::Streams => 5,
        Ending::Memory => 6,
    }
}

/// The line for standard error, without its line end. None if the status is 0.
pub fn error_line_of(ending: Ending) -> Option<&'static str>
    ensures { option_map (λ text. text.now) result ≡ error_line ending }
{
    match ending {
        Ending::InputEnded => None,
        Ending::Arguments => Some("ov_server: arguments"),
        Ending::Schema => Some("ov_server: schema"),
        Ending::Database => Some("ov_server: database"),
        Ending::Streams => Some("ov_server: input or output"),
        Ending::Memory => Some("ov_server: memory"),
    }
}
