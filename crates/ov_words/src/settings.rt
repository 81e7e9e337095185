ghost use Rattle.std.specs.Prelude.{◌≡◌, ◌≢◌, [], Err, None, Some, true, false, IfOk, map};
ghost use Rattle.std.specs.Prelude.{option_and_then};
ghost use Rattle.clap.specs.Words.{first_value, found_of};
ghost use Rattle.ov_words.specs.Words.{fit_together, is_session_count, is_set, sessions_in, settings_of};

use crate::command::matches;
use crate::fault::WordFault;
use crate::number::sessions_in;
use clap::ArgMatches;
use ov_base::Text;
use std::alloc::Global;
use std::convert::AsStr;

/// What the program is to serve, and where.
#[derive(Drop)]
pub struct Settings {
    /// The path of the file that holds the schema; None for the program's own schema.
    pub schema: Option<Text>,
    /// The path of the file that keeps the database; None for a database in memory.
    pub db: Option<Text>,
    /// The address at which connections are accepted; None if the streams are served.
    pub listen: Option<Text>,
    /// How many connections are served at that address, from 1 to 64; None if no number is given. Without an address it is
    /// None.
    pub sessions: Option<u64>,
    /// Whether `--stdio` is given. Without an address, standard input and output are served even without it; with an
    /// address, it is never given.
    pub is_on_streams: bool,
}

/// Reads the program's arguments, `[--schema FILE] [--db FILE] [--stdio | --listen ADDR [--sessions N]]`. The first is the
/// program's name.
///
/// A path or an address is any text but the empty one: no file is looked for, and no address is tried. N is a number from 1
/// to 64 in decimal digits alone, with no sign; zeros may lead, so `08` is 8. `--db=FILE` is read as `--db FILE`. An
/// argument that is given twice is refused, and so are `--stdio` with `--listen`, and `--sessions` without it.
pub fn read_words<S: AsStr>(alloc: Global, words: &[S]) -> Result<Settings, WordFault>
    ensures taken { IfOk result (λ settings. settings_of (map S.text words.now) ≡ Some settings) }
    ensures refused { result ≡ Err WordFault.Refused → settings_of (map S.text words.now) ≡ None }
{
    let matches = matches(alloc, words)?;
    if !fit_together(&matches) {
        return Err(WordFault::Refused);
    }
    Ok(Settings {
        sessions: number_of(&matches, "sessions")?,
        schema: name_of(alloc, &matches, "schema")?,
        db: name_of(alloc, &matches, "db")?,
        listen: name_of(alloc, &matches, "listen")?,
        is_on_streams: has_flag(&matches, "stdio"),
    })
}

/// The file or the address that an option names, if the option is used.
fn name_of(alloc: Global, matches: &ArgMatches<'_>, name: &str) -> Result<Option<Text>, WordFault>
    ensures value { IfOk result (λ named. named ≡ first_value (found_of matches.now) name.now) }
    ensures full { IfOk result (λ named. named ≢ Some []) }
    ensures empty { result ≡ Err WordFault.Refused
        → first_value (found_of matches.now) name.now ≡ Some [] }
{
    match matches.get_str(name) {
        None => Ok(None),
        Some(named) if named.is_empty() => Err(WordFault::Refused),
        Some(named) => Ok(Some(Text::from_str(alloc, named)?)),
    }
}

/// The number of sessions that an option gives, if the option is used.
fn number_of(matches: &ArgMatches<'_>, name: &str) -> Result<Option<u64>, WordFault>
    ensures value { IfOk result (λ count. count
        ≡ option_and_then sessions_in (first_value (found_of matches.now) name.now)) }
    ensures number { IfOk result (λ count. is_session_count
        (first_value (found_of matches.now) name.now)
        ≡ true) }
    ensures other { result ≡ Err WordFault.Refused
        → is_session_count (first_value (found_of matches.now) name.now) ≡ false }
{
    match matches.get_str(name) {
        None => Ok(None),
        Some(digits) => match sessions_in(digits) {
            None => Err(WordFault::Refused),
            Some(count) => Ok(Some(count)),
        },
    }
}

/// Whether a flag is used. Its value is then the text `true`.
fn has_flag(matches: &ArgMatches<'_>, name: &str) -> bool
    ensures { result ≡ is_set (first_value (found_of matches.now) name.now) }
{
    match matches.get_str(name) {
        Some(value) => value == "true",
        None => false,
    }
}

/// Whether the arguments that say what is served don't contradict one another.
fn fit_together(matches: &ArgMatches<'_>) -> bool
    ensures { result ≡ fit_together (first_value (found_of matches.now)) }
{
    if matches.get_str("listen").is_some() {
        !has_flag(matches, "stdio")
    } else {
        matches.get_str("sessions").is_none()
    }
}
