ghost use Rattle.std.specs.Prelude.{◌≡◌, ◌==◌, slice_index};
ghost use Rattle.ov_words.specs.Words.{sessions_in};

/// The most sessions that may be open at once.
const MOST_SESSIONS: u64 = 64;

/// The number of sessions, from 1 to 64, in decimal digits alone. Zeros may lead.
pub(crate) fn sessions_in(digits: &str) -> Option<u64>
    ensures { result ≡ sessions_in digits.now }
{
    // A number that is parsed may have a leading plus, and no other sign.
    if has_plus(digits) {
        return None;
    }
    let Ok(count) = digits.parse::<u64>() else {
        return None;
    };
    if count >= 1 && count <= MOST_SESSIONS {
        Some(count)
    } else {
        None
    }
}

fn has_plus(text: &str) -> bool
    ensures { result ≡ (slice_index text.now 0 == 43) }
{
    let bytes = text.as_bytes();
    !bytes.is_empty() && bytes[0] == b'+'
}
