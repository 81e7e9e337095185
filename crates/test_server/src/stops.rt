//! Machines over files that fail, and what is found when the files are opened again.

use crate::failing::{Calls, Failure, Image, NEVER, Stop, no_files};
use crate::runs::{Run, Work, has_error, left_after};
use std::alloc::{AllocError, Global};
use std::test::Fail;
use test_basics::{NET, holds, is_text};

/// How files that do not fail are prepared.
#[derive(Clone, Copy)]
pub(crate) enum Before<'a> {
    /// By the messages that a machine under the schema Net takes, one in a line.
    Messages(&'a str),
    /// By statements of SQL.
    Statements(&'a str),
}

/// Transactions over files that fail.
#[derive(Clone, Copy)]
pub(crate) struct Case<'a> {
    /// What was done before, over files that do not fail.
    pub before: Before<'a>,
    /// The schema that the machine over files that fail is opened with: the compact text of its tree.
    pub schema: &'a str,
    /// The messages that are taken over files that fail.
    pub messages: &'a str,
    /// The message that is answered with what the database holds, under the schema Net.
    pub look: &'a str,
    /// Its answers: before the messages, and after each of them.
    pub answers: &'a str,
    /// Whether an outcome is the replies and the answer in full, instead of how many messages were answered and found.
    pub is_in_full: bool,
    /// Whether no call of the opening fails.
    pub is_opened: bool,
}

impl<'a> Case<'a> {
    /// What is done over files that fail.
    fn work(&self) -> Work<'a> {
        Work::Machine(Run {
            drawn: 0,
            schema: self.schema,
            messages: self.messages,
        })
    }
}

/// The largest number of runs over one file.
const RUNS: u64 = 400;

/// What a machine does under the schema Net.
fn under_net(messages: &str) -> Work<'_> {
    Work::Machine(Run {
        drawn: 0,
        schema: NET,
        messages,
    })
}

/// The image that messages leave over new files that do not fail, under the schema Net.
fn image_after_messages(alloc: Global, messages: &str) -> Result<Image, Fail> {
    let mut replies = String::new(alloc);
    let work = under_net(messages);
    let left = left_after(alloc, &no_files(alloc), NEVER, 1, work, &mut replies)?;
    holds(alloc, !has_error(replies.as_str()), replies.as_str())?;
    Ok(left.image)
}

/// The image that statements leave over new files that do not fail.
pub(crate) fn image_after_statements(alloc: Global, statements: &str) -> Result<Image, Fail> {
    let mut answer = String::new(alloc);
    let work = Work::Statements(statements);
    let left = left_after(alloc, &no_files(alloc), NEVER, 1, work, &mut answer)?;
    is_text(alloc, answer.as_str(), "made")?;
    Ok(left.image)
}

/// The image with which the runs of a case begin.
fn image_before(alloc: Global, case: &Case<'_>) -> Result<Image, Fail> {
    match case.before {
        Before::Messages(messages) => image_after_messages(alloc, messages),
        Before::Statements(statements) => image_after_statements(alloc, statements),
    }
}

/// The replies of a machine over files that hold an image; none if it is not opened.
fn replies_over(alloc: Global, image: &Image, work: Work<'_>) -> Result<String, Fail> {
    let mut replies = String::new(alloc);
    left_after(alloc, image, NEVER, 3, work, &mut replies)?;
    Ok(replies)
}

/// What files hold that hold an image: the answer to the look of a case under the schema Net; or, if the machine is not opened
/// under Net, the answers to the messages of the case under its schema.
fn found(alloc: Global, case: &Case<'_>, image: &Image) -> Result<String, Fail> {
    let found = replies_over(alloc, image, under_net(case.look))?;
    if found.as_str().is_empty() {
        return replies_over(alloc, image, case.work());
    }
    Ok(found)
}

/// The number of replies without an error. Fails if one follows a reply with an error.
fn number_answered(replies: &str) -> Result<usize, Fail> {
    let mut answered: usize = 0;
    let mut refused: usize = 0;
    for reply in replies.lines() {
        if has_error(reply) {
            refused = refused.saturating_add(1);
        } else if refused == 0 {
            answered = answered.saturating_add(1);
        } else {
            return Err(Fail::new("answered after an error"));
        }
    }
    Ok(answered)
}

/// The number of messages after which this is the answer to the look.
fn place_of(answers: &str, found: &str) -> Option<usize> {
    let found = found.strip_suffix("\n").unwrap_or(found);
    answers.lines().position(|answer| answer == found)
}

/// What comes of a run: how many messages were answered without an error, and how many were found; or the replies and what
/// was found, in full.
fn outcome(alloc: Global, case: &Case<'_>, replies: &str, found: &str) -> Result<String, Fail> {
    if case.is_in_full {
        return Ok(format!(in alloc; "{replies}{found}\n")?);
    }
    let answered = number_answered(replies)?;
    match place_of(case.answers, found) {
        Some(place) => Ok(format!(in alloc; "{answered} answered, {place} found\n")?),
        None => Ok(format!(in alloc; "{answered} answered, found {found}")?),
    }
}

/// Whether an outcome is there.
fn is_known(outcomes: &[String], outcome: &str) -> bool {
    for known in outcomes {
        if known.as_str() == outcome {
            return true;
        }
    }
    false
}

/// Adds an outcome, unless it is there.
fn add_new(outcomes: &mut Vec<String>, outcome: String) -> Result<(), Fail> {
    if is_known(outcomes.as_slice(), outcome.as_str()) {
        return Ok(());
    }
    Ok(outcomes.push(outcome)?)
}

/// Adds what comes of a run that was answered this and left this image.
fn add_outcome(
    alloc: Global,
    case: &Case<'_>,
    replies: &str,
    image: &Image,
    outcomes: &mut Vec<String>,
) -> Result<(), Fail> {
    let found = found(alloc, case, image)?;
    add_new(outcomes, outcome(alloc, case, replies, found.as_str())?)
}

/// Adds the outcomes of a run over files that fail: if the program ends after it, which loses nothing that was written, and
/// if there is a crash. Returns whether a call failed.
fn add_outcomes(
    alloc: Global,
    case: &Case<'_>,
    image: &Image,
    stop: Stop,
    outcomes: &mut Vec<String>,
) -> Result<bool, Fail> {
    let mut replies = String::new(alloc);
    let left = left_after(alloc, image, stop, 2, case.work(), &mut replies)?;
    add_outcome(alloc, case, replies.as_str(), &left.image, outcomes)?;
    add_outcome(alloc, case, replies.as_str(), &left.after_crash, outcomes)?;
    Ok(left.has_failed)
}

/// The number of calls of each file of an image until a machine is open.
fn calls_to_open(alloc: Global, image: &Image) -> Result<Calls, Fail> {
    let mut replies = String::new(alloc);
    let left = left_after(alloc, image, NEVER, 2, under_net(""), &mut replies)?;
    Ok(left.calls)
}

/// Adds what comes of runs over files that fail at this stop and, in each next run, one call later, until a run meets no
/// failure.
fn add_all_outcomes(
    alloc: Global,
    case: &Case<'_>,
    image: &Image,
    first: Stop,
    outcomes: &mut Vec<String>,
) -> Result<(), Fail> {
    let mut stop = first;
    for _ in 0..RUNS {
        if !add_outcomes(alloc, case, image, stop, outcomes)? {
            return Ok(());
        }
        stop.calls = stop.calls.saturating_add(1);
    }
    Err(Fail::new("each run fails"))
}

/// The number of calls of each file before the first that fails in a run.
fn first_calls(alloc: Global, case: &Case<'_>, image: &Image) -> Result<Calls, Fail> {
    if case.is_opened {
        calls_to_open(alloc, image)
    } else {
        Ok(Calls { log: 0, db: 0 })
    }
}

/// Adds what comes of runs over this image in which the log fails, and of those in which the file does.
fn add_for_each_file(
    alloc: Global,
    case: &Case<'_>,
    image: &Image,
    failure: Failure,
    outcomes: &mut Vec<String>,
) -> Result<(), Fail> {
    let first = first_calls(alloc, case, image)?;
    let log = Stop {
        failure,
        is_log: true,
        calls: first.log,
    };
    add_all_outcomes(alloc, case, image, log, outcomes)?;
    let db = Stop {
        failure,
        is_log: false,
        calls: first.db,
    };
    add_all_outcomes(alloc, case, image, db, outcomes)
}

/// All that may come of a case over files that fail like this, each outcome once.
fn outcomes_of(alloc: Global, case: &Case<'_>, failure: Failure) -> Result<String, Fail> {
    let image = image_before(alloc, case)?;
    let mut outcomes = Vec::new(alloc);
    add_for_each_file(alloc, case, &image, failure, &mut outcomes)?;
    Ok(joined(alloc, outcomes.as_slice())?)
}

/// The texts, joined.
fn joined(alloc: Global, texts: &[String]) -> Result<String, AllocError> {
    let mut all = String::new(alloc);
    for text in texts {
        all.push_str(text.as_str())?;
    }
    Ok(all)
}

/// Whether the database file is longer after the messages of a case, over files that do not fail.
pub(crate) fn grows(alloc: Global, case: &Case<'_>) -> Result<bool, Fail> {
    let image = image_before(alloc, case)?;
    let mut replies = String::new(alloc);
    let left = left_after(alloc, &image, NEVER, 2, case.work(), &mut replies)?;
    Ok(left.image.db.len() > image.db.len())
}

/// Fails unless the outcomes of a case are these, over files that stop.
pub(crate) fn stops(alloc: Global, case: &Case<'_>, wanted: &str) -> Result<(), Fail> {
    let outcomes = outcomes_of(alloc, case, Failure::Stops)?;
    is_text(alloc, outcomes.as_str(), wanted)
}

/// The same over files that fail once and go on.
pub(crate) fn fails_once(alloc: Global, case: &Case<'_>, wanted: &str) -> Result<(), Fail> {
    let outcomes = outcomes_of(alloc, case, Failure::Once)?;
    is_text(alloc, outcomes.as_str(), wanted)
}
