//! Stops while a log of a thousand pages is copied into its database file.

use crate::crashes::inserts;
use crate::stops::{Before, Case, grows, stops};
use std::alloc::{AllocError, Global};
use std::test::Fail;
use test_basics::{NET, holds};

/// Counts the load of each switch up.
const COUNT_UP: &str =
    r#"{"id":2,"method":"transact","params":["Net",{"op":"mutate","table":"Switch","where":[],"mutations":[["load","+=",1]]}]}"#;

/// This number of transactions that count up.
fn count_ups(alloc: Global, count: u64) -> Result<String, AllocError> {
    let mut messages = String::new(alloc);
    for _ in 0..count {
        messages.push_str(COUNT_UP)?;
        messages.push_str("\n")?;
    }
    Ok(messages)
}

/// A switch, and this number of transactions that count its load up.
fn counted_up(alloc: Global, count: u64) -> Result<String, AllocError> {
    let insert = inserts(alloc, 1)?;
    let count_ups = count_ups(alloc, count)?;
    format!(in alloc; "{insert}\n{count_ups}")
}

/// Shows the loads.
const LOADS: &str =
    r#"{"id":9,"method":"transact","params":["Net",{"op":"select","table":"Switch","where":[],"columns":["load"]}]}"#;

/// The answer to `LOADS` for each load from `first` to `last`, one per line.
fn loads(alloc: Global, first: u64, last: u64) -> Result<String, AllocError> {
    let mut answers = String::new(alloc);
    for load in first..last.saturating_add(1) {
        let answer = format!(in alloc;
            "{{\"error\":null,\"id\":9,\"result\":[{{\"rows\":[{{\"load\":{load}}}]}}]}}\n"
        )?;
        answers.push_str(answer.as_str())?;
    }
    Ok(answers)
}

/// What a file that fails during each of `count` commits may leave: every commit that was answered, and the next one whole or
/// not at all.
fn each(alloc: Global, count: u64) -> Result<String, AllocError> {
    let mut outcomes = String::new(alloc);
    for done in 0..count {
        let next = done.saturating_add(1);
        let fails = format!(in alloc;
            "{done} answered, {done} found\n{done} answered, {next} found\n"
        )?;
        outcomes.push_str(fails.as_str())?;
    }
    outcomes.push_str(format!(in alloc; "{count} answered, {count} found\n")?.as_str())?;
    Ok(outcomes)
}

/// The commits in which a file fails. During one of them the log comes to a thousand pages, and is copied into the file.
const MORE: u64 = 8;

/// Whether `count` commits over new files copy the log into the file.
fn is_copied(alloc: Global, count: u64) -> Result<bool, Fail> {
    let messages = counted_up(alloc, count)?;
    grows(
        alloc,
        &Case {
            before: Before::Messages(""),
            schema: NET,
            messages: messages.as_str(),
            look: LOADS,
            answers: "",
            is_in_full: false,
            is_opened: true,
        },
    )
}

/// The least number of commits over new files, up to 2,048, that copies the log into the file.
fn commits_to_copy(alloc: Global) -> Result<u64, Fail> {
    let mut few: u64 = 0;
    let mut many: u64 = 2_048;
    for _ in 0..11 {
        let middle = few.saturating_add(many) / 2;
        if is_copied(alloc, middle)? {
            many = middle;
        } else {
            few = middle;
        }
    }
    Ok(many)
}

/// The texts of a case, and of what a stop may leave.
#[derive(Drop)]
struct Texts {
    before: String,
    messages: String,
    answers: String,
    wanted: String,
}

/// A few commits after this number of them.
fn commits_after(alloc: Global, done: u64) -> Result<Texts, AllocError> {
    Ok(Texts {
        before: counted_up(alloc, done)?,
        messages: count_ups(alloc, MORE)?,
        answers: loads(alloc, done, done.saturating_add(MORE))?,
        wanted: each(alloc, MORE)?,
    })
}

/// Fails unless files that stop at any call of these commits, one of which copies the log, keep all that was answered.
fn copies(alloc: Global, texts: &Texts) -> Result<(), Fail> {
    let case = Case {
        before: Before::Messages(texts.before.as_str()),
        schema: NET,
        messages: texts.messages.as_str(),
        look: LOADS,
        answers: texts.answers.as_str(),
        is_in_full: false,
        is_opened: true,
    };
    holds(alloc, grows(alloc, &case)?, "the log is copied")?;
    stops(alloc, &case, texts.wanted.as_str())
}

#[test]
fn a_stop_while_the_log_is_copied_loses_nothing(rt: HostRuntime) -> Result<(), Fail> {
    let done = commits_to_copy(rt.alloc())?.saturating_sub(4);
    let texts = commits_after(rt.alloc(), done)?;
    copies(rt.alloc(), &texts)
}
