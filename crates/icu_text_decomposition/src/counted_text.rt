//! Texts of which it is known that their characters can be counted.

ghost use Rattle.std.specs.Prelude.{◌<◌, ◌^◌, length};

use icu_text_encodings::{
    CharsText, EncodedText, Latin1Text, Utf8Text, Utf16Chars, Utf16Text, utf8_chars,
};

/// A text that has fewer than 2^64 characters, as each has whose units stand in memory.
pub trait CountedText: EncodedText {
    /// The text has fewer than 2^64 characters.
    fn has_countable_length(self)
        ensures { length (Self.text self) < 2 ^ 64 };
}

impl CountedText for Utf8Text<'_> {
    fn has_countable_length(self) {
        let _chars = utf8_chars(self.0);
        let _count = self.0.len();
    }
}

impl CountedText for Utf16Text<'_> {
    fn has_countable_length(self) {
        let _chars = Utf16Chars::new(self.0);
        let _count = self.0.len();
    }
}

impl CountedText for CharsText<'_> {
    fn has_countable_length(self) {
        let _count = self.0.len();
    }
}

impl CountedText for Latin1Text<'_> {
    fn has_countable_length(self) {
        let _count = self.0.len();
    }
}
