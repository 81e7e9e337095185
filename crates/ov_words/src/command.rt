ghost use Rattle.std.specs.Prelude.{◌≡◌, ◌≢◌, [], Err, false, IfOk, map};
ghost use Rattle.clap.specs.Words.{app_of, fault_of, found_of, matches_of, rows_of};
ghost use Rattle.clap.specs.Words.{rule_of};
ghost use Rattle.ov_words.specs.Words.{app, option_rule, with_database, with_ends};

use crate::fault::WordFault;
use clap::{Arg, ArgAction, ArgMatches, Command};
use std::alloc::{AllocError, Global};
use std::convert::AsStr;

#[tactic(auto, using(crate::proofs::WordsLemmas::some_of_refused))]
/// The program's arguments as `clap` matches them. The first is the program's name.
pub(crate) fn matches<'a, S: AsStr>(
    alloc: Global,
    words: &'a [S],
) -> Result<ArgMatches<'a>, WordFault>
    ensures taken { IfOk result (λ matches. fault_of app (map S.text words.entry.now) ≡ []) }
    ensures rows { IfOk result (λ matches. rows_of (found_of matches)
        ≡ matches_of app (map S.text words.entry.now)) }
    ensures refused { result ≡ Err WordFault.Refused
        → fault_of app (map S.text words.entry.now) ≢ [] }
{
    let command = command(alloc)?;
    match command.try_get_matches_from(words) {
        Ok(matches) => Ok(matches),
        Err(error) => Err(WordFault::from(error)),
    }
}

/// What `clap` knows of the arguments. It adds no flags of its own.
fn command<'a>(alloc: Global) -> Result<Command<'a>, AllocError>
    ensures { IfOk result (λ command. app_of command ≡ app) }
{
    let command = Command::new(alloc, "ov_server")
        .disable_help_flag(true)
        .disable_version_flag(true);
    with_ends(alloc, with_database(alloc, command)?)
}

/// Adds the options that say what is served.
fn with_database<'a>(alloc: Global, command: Command<'a>) -> Result<Command<'a>, AllocError>
    ensures { IfOk result (λ r. app_of r ≡ with_database (app_of command.entry)) }
{
    command
        .arg(option(alloc, "schema"))?
        .arg(option(alloc, "db"))
}

/// Adds the flag and the options that say where it is served.
fn with_ends<'a>(alloc: Global, command: Command<'a>) -> Result<Command<'a>, AllocError>
    ensures { IfOk result (λ r. app_of r ≡ with_ends (app_of command.entry)) }
{
    let streams = Arg::new(alloc, "stdio")
        .long("stdio")
        .action(ArgAction::SetTrue);
    command
        .arg(streams)?
        .arg(option(alloc, "listen"))?
        .arg(option(alloc, "sessions"))
}

/// An option with a name and one value, at most once.
fn option<'a>(alloc: Global, name: &'a str) -> Arg<'a>
    ensures rule { rule_of result ≡ option_rule name.entry.now }
    ensures own { result.global ≡ false }
{
    Arg::new(alloc, name).long(name).action(ArgAction::Set)
}
