ghost use Rattle.std.specs.Prelude.{◌≡◌};
ghost use Rattle.std.specs.List.{list_all};
ghost use Rattle.ov_specs.specs.values.Uuid.{is_id, begins_id, continues_id};

/// Whether a text is an `<id>`, a name as `[a-zA-Z_][a-zA-Z0-9_]*` (RFC 7047, 3.1).
pub fn is_id(name: &str) -> bool
    ensures { result ≡ is_id name.now }
{
    match name.as_bytes().split_first() {
        Some((first, rest)) => begins_id(*first) && all_continue_id(rest),
        None => false,
    }
}

fn all_continue_id(bytes: &[u8]) -> bool
    ensures { result ≡ list_all continues_id bytes.now }
{
    for byte in bytes {
        if !continues_id(*byte) {
            return false;
        }
    }
    true
}

fn begins_id(byte: u8) -> bool
    ensures { result ≡ begins_id byte }
{
    (b'a' <= byte && byte <= b'z') || (b'A' <= byte && byte <= b'Z') || byte == b'_'
}

fn continues_id(byte: u8) -> bool
    ensures { result ≡ continues_id byte }
{
    begins_id(byte) || (b'0' <= byte && byte <= b'9')
}
