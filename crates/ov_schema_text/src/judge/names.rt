ghost use Rattle.std.specs.Prelude.{◌≡◌};
ghost use Rattle.ov_specs.specs.schema.Schema.{is_bad_name, is_digit, is_version};

use ov_atoms::is_id;

/// Whether a name is not an `<id>`, or begins with an underscore (RFC 7047, 3.2).
pub(crate) fn is_bad_name(name: &str) -> bool
    ensures { result ≡ is_bad_name name.now }
{
    !is_id(name) || name.starts_with('_')
}

/// Whether a text is three numbers separated by dots (RFC 7047, 3.1, `<version>`).
pub(crate) fn is_version(text: &str) -> bool
    ensures { result ≡ is_version text.now }
{
    let bytes = text.as_bytes();
    let mut parts: u8 = 2;
    let mut begun = false;
    for byte in bytes {
        if is_digit(*byte) {
            begun = true;
        } else if *byte == b'.' && begun && parts != 0 {
            parts -= 1;
            begun = false;
        } else {
            return false;
        }
    }
    parts == 0 && begun
}

fn is_digit(byte: u8) -> bool
    ensures { result ≡ is_digit byte }
{
    b'0' <= byte && byte <= b'9'
}
