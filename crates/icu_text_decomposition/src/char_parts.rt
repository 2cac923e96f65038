//! The parts of the characters of a text, one by one.

ghost use Rattle.std.specs.Prelude.{◌≡◌, ◌++◌, ◌∷◌, [], None, drop, option_to_list};
ghost use Rattle.ucd_normal.specs.declared.forms.Form.TheVariants.{Nfd};
ghost use Rattle.unicode_normalization.specs.Decompose.{decompose};
ghost use Rattle.icu_text_decomposition.specs.inner.CharParts.{begun_left, parts_of};

use icu_text_encodings::EncodedText;
use unicode_normalization::Form;
use unicode_normalization::char::decomposition;

/// A place in a text whose characters are decomposed one by one, and not put in order.
#[derive(Clone, Copy)]
pub(crate) struct Parts<T> {
    /// The character that was read last and the index of its next part, where it has one.
    begun: Option<(char, usize)>,
    rest: T,
}

impl<T: EncodedText> Parts<T> {
    ghost use Rattle.icu_text_decomposition.specs.inner.Parts.{parts_left};

    /// The parts of a text from its beginning on.
    #[tactic(auto, unfolding(crate::specs::inner::Parts::parts_left))]
    pub(crate) fn new(text: T) -> Parts<T>
        ensures { parts_left T.text result ≡ parts_of (T.text text) }
    {
        Parts {
            begun: None,
            rest: text,
        }
    }

    /// The next part of the character that was read last, where it has one.
    #[tactic(auto, unfolding(crate::specs::inner::Parts::parts_left))]
    fn next_begun(&mut self) -> Option<char>
        ensures next { parts_left T.text self.old
            ≡ option_to_list result ++ parts_left T.text self.new }
        ensures end { result ≡ None → parts_left T.text self.old ≡ parts_of (T.text self.new.rest) }
    {
        let (c, index) = self.begun?;
        let mut room = [c; 3];
        let parts = decomposition(c, Form::Nfd, &mut room);
        if index >= parts.len() {
            self.begun = None;
            return None;
        }
        self.begun = begun_at(c, parts, index + 1);
        Some(parts[index])
    }

    /// The first part of a character that is read.
    fn begin(&mut self, c: char) -> char
        ensures next { decompose Nfd c ≡ result ∷ begun_left self.new.begun }
        ensures rest { self.new.rest ≡ self.old.rest }
    {
        let mut room = [c; 3];
        let parts = decomposition(c, Form::Nfd, &mut room);
        self.begun = begun_at(c, parts, 1);
        parts[0]
    }

    /// The next part, or `None` after the last one.
    #[tactic(auto, unfolding(crate::specs::inner::Parts::parts_left))]
    pub(crate) fn next(&mut self) -> Option<char>
        ensures next { parts_left T.text self.old
            ≡ option_to_list result ++ parts_left T.text self.new }
        ensures end { result ≡ None → parts_left T.text self.old ≡ [] }
    {
        if let Some(part) = self.next_begun() {
            return Some(part);
        }
        let (c, rest) = self.rest.split_first_char()?;
        self.rest = rest;
        Some(self.begin(c))
    }
}

/// A character that was read, with the index of its next part, where it has one.
fn begun_at(c: char, parts: &[char], index: usize) -> Option<(char, usize)>
    requires { parts.now ≡ decompose Nfd c }
    ensures { begun_left result ≡ drop index parts.now }
{
    if index < parts.len() {
        Some((c, index))
    } else {
        None
    }
}
