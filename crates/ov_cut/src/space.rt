ghost use Rattle.std.specs.Prelude.{◌≡◌};
ghost use Rattle.ov_specs.specs.wire.Balance.{is_space as is_gap};
ghost use Rattle.ov_cut.specs.Gap.{IsGap, LooksForGap};

use crate::looks::Looks;

/// What a text begins with, between two messages.
#[derive(Clone, Copy, Debug, PartialEq, Eq)]
pub(crate) enum Gap {
    /// White space, and nothing else.
    Space,
    /// White space of this many bytes, and then the brace of a message.
    Brace(usize),
    /// White space, and then a byte that begins no message.
    Stray(usize),
}

/// Whether a byte is white space of JSON (RFC 8259, 2).
fn is_space(byte: u8) -> bool
    ensures { result ≡ is_gap byte }
{
    byte == b' ' || byte == b'\t' || byte == b'\n' || byte == b'\r'
}

/// What the text begins with. The byte that ends the white space is looked at too.
pub(crate) fn find_gap(looks: &mut Looks, text: &[u8]) -> Gap
    ensures gap { IsGap text.now result }
    ensures looked { LooksForGap looks.old text.now result looks.new }
{
    for place in 0..text.len() {
        let byte = looks.byte(text, place);
        if byte == b'{' {
            return Gap::Brace(place);
        }
        if !is_space(byte) {
            return Gap::Stray(place);
        }
    }
    Gap::Space
}
