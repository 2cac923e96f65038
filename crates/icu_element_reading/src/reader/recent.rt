//! The characters of a text that were consumed last, which prefixes look back at.

ghost use Rattle.std.specs.Prelude.{◌≡◌, ◌≤◌, ◌∷◌, []};
ghost use Rattle.icu_element_reading.specs.TextElements.{last_two};

/// The last characters that were consumed, two at most, the nearest first. A prefix looks no further back (UTS #35 part
/// 5, "Context-Sensitive Mappings").
#[derive(Debug, Clone, Copy)]
pub struct RecentChars {
    chars: [char; 2],
    len: usize,
    ghost short: { len ≤ 2 },
}

impl RecentChars {
    ghost use Rattle.icu_element_reading.specs.LastChars.{recent_chars};

    /// No character was consumed yet.
    #[tactic(auto, unfolding(crate::specs::LastChars::recent_chars))]
    pub fn new() -> RecentChars
        ensures { recent_chars result ≡ [] }
    {
        RecentChars {
            chars: ['\0', '\0'],
            len: 0,
        }
    }

    /// The characters, the nearest first.
    #[tactic(auto, unfolding(crate::specs::LastChars::recent_chars))]
    pub fn as_slice(&self) -> &[char]
        ensures { result.now ≡ recent_chars self.now }
    {
        &self.chars[..self.len]
    }

    /// One more character was consumed.
    #[tactic(auto, using(crate::proofs::ReaderLemmas::one_more, crate::proofs::ReaderLemmas::two_stay), unfolding(crate::specs::LastChars::recent_chars))]
    pub fn push(&mut self, c: char)
        ensures { recent_chars self.new ≡ last_two (recent_chars self.old) (c ∷ []) }
    {
        self.chars = [c, self.chars[0]];
        if self.len < 2 {
            self.len += 1;
        }
    }

    /// A character was consumed, and then those after it.
    pub fn push_with(&mut self, c: char, suffix: &[char])
        ensures { recent_chars self.new ≡ last_two (recent_chars self.old) (c ∷ suffix.now) }
    {
        self.push(c);
        self.push_all(suffix);
    }

    /// More characters were consumed, the first of these first.
    pub fn push_all(&mut self, chars: &[char])
        ensures { recent_chars self.new ≡ last_two (recent_chars self.old) chars.now }
    {
        for c in chars {
            self.push(*c);
        }
    }
}
