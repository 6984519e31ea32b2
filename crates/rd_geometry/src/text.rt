ghost use Rattle.std.specs.Prelude.{◌≡◌, ℕ, List, string_bytes};

use std::marker::Model;

/// A `String` that contracts see as the list of its bytes. No call takes memory.
#[derive(Debug, Drop)]
pub struct Text {
    text: String,
}

impl Model for Text {
    ghost Value = { List ℕ };

    ghost view = { λ text. string_bytes text.text };
}

impl Text {
    /// The text of a `String`.
    pub fn of(text: String) -> Self
        ensures { result ≡ string_bytes text }
    {
        Text { text }
    }

    /// The text, as UTF-8.
    pub fn as_str(&self) -> &str
        ensures { result.now ≡ self.now }
    {
        self.text.as_str()
    }

    /// Gives the `String` back, with the same bytes.
    pub fn into_string(self) -> String
        ensures { string_bytes result ≡ self }
    {
        let Text { text } = self;
        text
    }
}
