//! A text that ends after some of another's characters.

ghost use Rattle.std.specs.Prelude.{◌≡◌, take};
ghost use Rattle.icu_element_cursor.specs.inner.FirstChars.{first_chars};

use icu_text_decomposition::CountedText;
use icu_text_encodings::EncodedText;

/// The first characters of a text, as many as are left, or all where there are fewer. Its units are its characters.
#[derive(Clone, Copy)]
pub struct FirstChars<T> {
    text: T,
    left: usize,
}

impl<T: EncodedText> FirstChars<T> {
    /// So many characters of a text.
    pub(crate) fn new(text: T, count: usize) -> FirstChars<T>
        ensures { first_chars T.text result ≡ take count (T.text text) }
    {
        FirstChars { text, left: count }
    }
}

impl<T: EncodedText> EncodedText for FirstChars<T> {
    ghost text = { first_chars T.text };

    ghost units = { first_chars T.text };

    ghost beginning = { λ t n. take n (first_chars T.text t) };

    #[inline]
    fn split_first_char(self) -> Option<(char, Self)> {
        if self.left == 0 {
            return None;
        }
        let (c, rest) = self.text.split_first_char()?;
        Some((
            c,
            FirstChars {
                text: rest,
                left: self.left - 1,
            },
        ))
    }

    #[inline]
    fn split_first_ascii(self) -> Option<(u8, Self)> {
        if self.left == 0 {
            return None;
        }
        let (byte, rest) = self.text.split_first_ascii()?;
        Some((
            byte,
            FirstChars {
                text: rest,
                left: self.left - 1,
            },
        ))
    }

    fn has_scalar_values(self) {
        self.text.has_scalar_values();
    }

    fn unit_count(self) -> usize {
        let mut rest = self;
        let mut count = 0usize;
        'chars: while let Some((_, after)) = rest.split_first_char() {
            count += 1;
            rest = after;
        }
        count
    }

    fn split_at(self, at: usize) -> Option<Self> {
        let mut rest = self;
        'chars: for index in 0..at {
            let (_, after) = rest.split_first_char()?;
            rest = after;
        }
        Some(rest)
    }
}

impl<T: CountedText> CountedText for FirstChars<T> {
    fn has_countable_length(self) {
        self.text.has_countable_length();
    }
}
