//! The characters of a text that were read last.

ghost use Rattle.std.specs.Prelude.{◌≡◌, [], flat_map, option_to_list};
ghost use Rattle.ucd_normal.specs.declared.forms.Form.TheVariants.{Nfd};
ghost use Rattle.unicode_normalization.specs.Decompose.{decompose};
ghost use Rattle.icu_element_reading.specs.LastChars.{recent_chars};
ghost use Rattle.icu_element_reading.specs.TextElements.{last_two};
ghost use Rattle.icu_element_reading.specs.boundaries.Alone.{context_after};

use icu_element_reading::RecentChars;
use unicode_normalization::Form;
use unicode_normalization::char::decomposition;

/// The last two characters that were read, as they stand in the text. They decompose to two characters at least, and
/// prefixes look no further back (UTS #35 part 5, "Context-Sensitive Mappings").
#[derive(Debug, Clone, Copy)]
pub(crate) struct LastCharacters {
    older: Option<char>,
    last: Option<char>,
}

impl LastCharacters {
    ghost use Rattle.icu_element_cursor.specs.inner.ReadCharacters.{context_read};

    /// None was read yet.
    #[tactic(auto, unfolding(crate::specs::inner::ReadCharacters::context_read))]
    pub(crate) fn new() -> LastCharacters
        ensures { context_read result ≡ [] }
    {
        LastCharacters {
            older: None,
            last: None,
        }
    }

    /// One more character was read.
    #[inline(always)]
    #[tactic(auto, using(crate::proofs::ReadCharacterLemmas::context_more))]
    pub(crate) fn push(&mut self, c: char)
        ensures { context_read self.new ≡ context_after (context_read self.old) (decompose Nfd c) }
    {
        self.older = self.last;
        self.last = Some(c);
    }

    /// The last two that they decompose to.
    #[tactic(auto, unfolding(crate::specs::inner::ReadCharacters::context_read))]
    pub(crate) fn recent(self) -> RecentChars
        ensures { recent_chars result ≡ context_read self }
    {
        let mut recent = RecentChars::new();
        if self.last.is_none() {
            return recent;
        }
        push_decomposed(&mut recent, self.older);
        push_decomposed(&mut recent, self.last);
        recent
    }
}

/// The characters that a character decomposes to were consumed, where there is one.
fn push_decomposed(recent: &mut RecentChars, c: Option<char>)
    ensures { recent_chars recent.new
        ≡ last_two (recent_chars recent.old) (flat_map (decompose Nfd) (option_to_list c)) }
{
    match c {
        Some(c) => {
            let mut room = [c; 3];
            recent.push_all(decomposition(c, Form::Nfd, &mut room));
        }
        None => recent.push_all(&[]),
    }
}
