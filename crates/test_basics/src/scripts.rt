use std::alloc::Global;
use std::test::Fail;

/// What answers the commands of a script.
pub trait Scripted {
    /// The answer to a command, in one line.
    fn answer(&mut self, alloc: Global, command: &str) -> Result<String, Fail>;
}

/// Fails with a command and its answer if that differs from the wanted one.
fn is_answer(alloc: Global, command: &str, answer: &str, want: &str) -> Result<(), Fail> {
    if answer == want {
        return Ok(());
    }
    Err(Fail::new(format!(in alloc; "{command} -> {answer}")?))
}

/// Runs a command. Fails unless its answer is the wanted one.
fn answers<S: Scripted>(
    alloc: Global,
    subject: &mut S,
    command: &str,
    want: &str,
) -> Result<(), Fail> {
    let answer = subject.answer(alloc, command)?;
    is_answer(alloc, command, answer.as_str(), want)
}

/// Runs a script up to the first line whose answer differs, which is the failure. A line is a command, an arrow and the
/// expected answer; without an arrow, the answer must be empty.
pub fn follows<S: Scripted>(alloc: Global, subject: &mut S, script: &str) -> Result<(), Fail> {
    for line in script.lines() {
        let (command, want) = line.split_once(" -> ").unwrap_or((line, ""));
        answers(alloc, subject, command, want)?;
    }
    Ok(())
}

/// The same for a subject that is not used again.
pub fn agrees<S: Scripted + Drop>(alloc: Global, subject: S, script: &str) -> Result<(), Fail> {
    let mut subject = subject;
    follows(alloc, &mut subject, script)
}
