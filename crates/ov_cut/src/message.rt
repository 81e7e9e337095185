ghost use Rattle.std.specs.Prelude.{◌≡◌, ◌<◌, ◌≤◌, ◌↔◌, IsTrue};
ghost use Rattle.ov_specs.specs.wire.Cut.{max_message};
ghost use Rattle.ov_cut.specs.Message.{Finds, LooksForEnd, IsBegunAs, mode_after};

use crate::looks::Looks;

/// The longest message, in bytes.
const MAX_MESSAGE: usize = 1_048_576;

/// Whether the next byte is in a string literal, and after a backslash there.
#[derive(Clone, Copy, Debug, PartialEq, Eq)]
pub(crate) enum Mode {
    Outside,
    InLiteral,
    Escaped,
}

/// The state in which its bytes so far leave a message that has begun.
#[derive(Clone, Copy, Debug, PartialEq, Eq)]
pub(crate) struct Scan {
    pub mode: Mode,
    /// How many braces are open.
    pub depth: usize,
}

/// The state in which its first brace leaves a message.
pub(crate) const FIRST: Scan = Scan {
    mode: Mode::Outside,
    depth: 1,
};

/// What becomes of a message that has begun.
#[derive(Clone, Copy, Debug, PartialEq, Eq)]
pub(crate) enum Found {
    /// It ends with this many more bytes.
    Whole(usize),
    /// It has not ended.
    Begun(Scan),
    TooLong,
}

/// Whether a message of this many bytes exceeds the limit.
fn is_too_long(len: usize) -> bool
    ensures { IsTrue result ↔ (max_message < len) }
{
    len > MAX_MESSAGE
}

/// The mode after one more byte of a message, and how many braces are open.
fn next_mode(mode: Mode, depth: usize, byte: u8) -> (Mode, usize)
    requires low { 0 < depth }
    requires high { depth ≤ max_message }
    ensures { result ≡ mode_after mode depth byte }
{
    match mode {
        Mode::Escaped => (Mode::InLiteral, depth),
        Mode::InLiteral => match byte {
            b'"' => (Mode::Outside, depth),
            b'\\' => (Mode::Escaped, depth),
            _ => (Mode::InLiteral, depth),
        },
        Mode::Outside => match byte {
            b'"' => (Mode::InLiteral, depth),
            b'{' => (Mode::Outside, depth + 1),
            b'}' => (Mode::Outside, depth - 1),
            _ => (Mode::Outside, depth),
        },
    }
}

/// Looks for the end of a message that has begun with the bytes of `front`, in the text after them. No byte of the front is
/// looked at again: `begun` is the state in which they leave the message.
pub(crate) fn find_end(looks: &mut Looks, front: &[u8], begun: Scan, text: &[u8]) -> Found
    requires { IsBegunAs front.now begun }
    ensures end { Finds front.now text.now result }
    ensures looked { LooksForEnd looks.old text.now result looks.new }
{
    let Scan {
        mut mode,
        mut depth,
    } = begun;
    for place in 0..text.len() {
        if is_too_long(front.len() + place + 1) {
            return Found::TooLong;
        }
        (mode, depth) = next_mode(mode, depth, looks.byte(text, place));
        if depth == 0 {
            return Found::Whole(place + 1);
        }
    }
    Found::Begun(Scan { mode, depth })
}
