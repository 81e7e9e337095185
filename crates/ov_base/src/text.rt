ghost use Rattle.std.specs.Prelude.{◌≡◌, List, ℕ, IfOk, string_bytes};

use Stored::*;
use arrayvec::ArrayString;
use std::alloc::{AllocError, Global};
use std::marker::Model;

/// The most bytes of a text that is stored inline.
const INLINE: usize = 16;

/// Stores the bytes of a text: inline if they are few, else on the heap. Most names of tables and of rows are short, so keys
/// with them are compared and copied in place.
#[derive(Drop)]
enum Stored {
    Short(ArrayString<INLINE>),
    Long(String),
}

/// A text, which contracts see as its bytes.
pub struct Text {
    stored: Stored,
}

impl Model for Text {
    ghost use Rattle.std.specs.Prelude.{List, ℕ};
    ghost use Rattle.ov_base.specs.Stored.{bytes_in};

    ghost Value = { List ℕ };

    ghost view = { λ t. bytes_in t.stored };
}

impl Drop for Text {
    // An explicit drop, so that code that drops a text need not know where its bytes are stored.
    fn drop(self) {
        let Text { stored } = self;
        drop(stored);
    }
}

impl Text {
    /// The same text. It is copied if it is short.
    pub fn from_string(text: String) -> Text
        ensures { result ≡ string_bytes text }
    {
        let stored = match ArrayString::from(text.as_str()) {
            Ok(short) => Short(short),
            Err(_) => Long(text),
        };
        Text { stored }
    }

    /// A copy of a text.
    pub fn from_str(alloc: Global, text: &str) -> Result<Text, AllocError>
        ensures { IfOk result (λ t. t ≡ text.now) }
    {
        let stored = match ArrayString::from(text) {
            Ok(short) => Short(short),
            Err(_) => Long(String::from_str(alloc, text)?),
        };
        Ok(Text { stored })
    }

    /// The text as a string slice.
    pub fn as_str(&self) -> &str
        ensures { result.now ≡ self.now }
    {
        match &self.stored {
            Short(short) => short.as_str(),
            Long(text) => text.as_str(),
        }
    }
}
