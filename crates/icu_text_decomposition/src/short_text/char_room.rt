//! Room for the characters of a text.

ghost use Rattle.std.specs.Prelude.{◌≡◌, ◌<◌, ◌≤◌, ◌+◌, ◌++◌, ◌∷◌, [], length, take, drop};
ghost use Rattle.icu_text_decomposition.specs.short_text.inner.CharRooms.{chars_between};

/// Moves the character at an index to the front.
fn move_to_front(chars: &mut [char], index: usize)
    requires { index < length chars.old }
    ensures rest { drop 1 chars.new ≡ take index chars.old ++ drop (index + 1) chars.old }
    ensures len { length chars.new ≡ length chars.old }
{
    chars[0..index + 1].rotate_right(1);
}

/// Room for so many characters.
#[derive(Debug, Clone, Copy)]
pub(crate) struct CharRoom<const ROOM: usize> {
    pub(crate) chars: [char; ROOM],
}

impl<const ROOM: usize> CharRoom<ROOM> {
    /// The characters from one index to another.
    #[inline]
    pub(crate) fn between(&self, from: usize, to: usize) -> &[char]
        requires order { from ≤ to }
        requires inside { to ≤ ROOM }
        ensures { result.now ≡ chars_between from to self.now }
    {
        let all = &self.chars[..];
        &all[from..to]
    }

    /// Writes a character.
    #[inline]
    pub(crate) fn set(&mut self, from: usize, to: usize, c: char)
        requires order { from ≤ to }
        requires inside { to < ROOM }
        ensures { chars_between from (to + 1) self.new ≡ chars_between from to self.old ++ c ∷ [] }
    {
        self.chars[to] = c;
    }

    /// Moves the character at an index among those between two indices to the first of these.
    pub(crate) fn move_to_front(&mut self, from: usize, to: usize, index: usize)
        requires order { from ≤ to }
        requires inside { to ≤ ROOM }
        requires index { index < length (chars_between from to self.old) }
        ensures { chars_between (from + 1) to self.new
            ≡ take index (chars_between from to self.old)
            ++ drop (index + 1) (chars_between from to self.old) }
    {
        let all = &mut self.chars[..];
        move_to_front(&mut all[from..to], index);
    }
}
