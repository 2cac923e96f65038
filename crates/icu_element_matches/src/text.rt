//! The characters of a text that are still to be read.

ghost use Rattle.std.specs.Prelude.{◌≡◌, ◌↔◌, ◌<◌, ◌≤◌, ◌+◌, ◌∷◌, ◌++◌, [], length, take, drop, slice_get, option_to_list, Some, None, true, is_ok, if◌then◌else◌};

use std::alloc::AllocError;

/// A decomposed text, of which some characters were read: the others are still to be read, in order. Taking one out
/// costs as many steps as characters stand before it, however long the text is. No call but `push` allocates.
#[derive(Debug, Drop)]
pub struct Text {
    pub(crate) chars: Vec<char>,
    pub(crate) next: usize,
    ghost inside: { next ≤ length chars.items },
}

impl Text {
    ghost use Rattle.icu_element_matches.specs.Texts.{unread};

    /// A text of which nothing was read.
    #[tactic(auto, unfolding(crate::specs::Texts::unread))]
    pub fn new(chars: Vec<char>) -> Text
        ensures { unread result ≡ chars.items }
    {
        Text { chars, next: 0 }
    }

    /// All that is still to be read.
    #[tactic(auto, unfolding(crate::specs::Texts::unread))]
    pub fn as_slice(&self) -> &[char]
        ensures { result.now ≡ unread self.now }
    {
        &self.chars[self.next..]
    }

    /// How many characters are still to be read.
    pub fn len(&self) -> usize
        ensures { result ≡ length (unread self.now) }
    {
        self.as_slice().len()
    }

    /// Whether none is still to be read.
    pub fn is_empty(&self) -> bool
        ensures { result ≡ true ↔ unread self.now ≡ [] }
    {
        self.as_slice().is_empty()
    }

    /// The next character.
    pub fn first(&self) -> Option<char>
        ensures { result ≡ slice_get (unread self.now) 0 }
    {
        self.get(0)
    }

    /// The character so many after the next one.
    pub fn get(&self, index: usize) -> Option<char>
        ensures { result ≡ slice_get (unread self.now) index }
    {
        self.as_slice().get(index).copied()
    }

    /// Reads the next character: `None` where nothing is left.
    #[tactic(auto, unfolding(crate::specs::Texts::unread))]
    pub fn take_first(&mut self) -> Option<char>
        ensures taken { unread self.old ≡ option_to_list result ++ unread self.new }
        ensures ends { result ≡ None ↔ unread self.old ≡ [] }
    {
        let c = self.first()?;
        self.next += 1;
        Some(c)
    }

    /// Reads so many characters, or all where there are fewer.
    #[tactic(auto, unfolding(crate::specs::Texts::unread))]
    pub fn skip(&mut self, count: usize)
        ensures { unread self.new ≡ drop count (unread self.old) }
    {
        if count < self.len() {
            self.next += count;
        } else {
            self.next = self.chars.len();
        }
    }

    /// Takes out the character so many after the next one; the others stay in order.
    #[tactic(auto, unfolding(crate::specs::Texts::unread))]
    pub fn remove(&mut self, index: usize) -> char
        requires { index < length (unread self.old) }
        ensures value { slice_get (unread self.old) index ≡ Some result }
        ensures rest { unread self.new
            ≡ take index (unread self.old) ++ drop (index + 1) (unread self.old) }
    {
        let at = self.next + index;
        let c = self.chars[at];
        self.chars[self.next..at + 1].rotate_right(1);
        self.next += 1;
        c
    }

    /// One more character comes after those that are still to be read. The room of characters that were read is used
    /// again once they are as many as those to come. So a text takes at most twice the room of what is still to be
    /// read. If an allocation fails, what is still to be read is as it was.
    #[tactic(auto, unfolding(crate::specs::Texts::unread))]
    pub fn push(&mut self, c: char) -> Result<(), AllocError>
        ensures { unread self.new
            ≡ (if is_ok result then unread self.old ++ c ∷ [] else unread self.old) }
    {
        if self.next >= self.chars.len() - self.next {
            self.drop_read();
        }
        self.append(c)
    }

    /// Reads the next character, which is there.
    #[tactic(auto, unfolding(crate::specs::Texts::unread))]
    pub(crate) fn read_one(&mut self)
        requires { 0 < length (unread self.old) }
        ensures text { unread self.new ≡ drop 1 (unread self.old) }
        ensures next { self.new.next ≡ self.old.next + 1 }
    {
        self.next += 1;
    }

    /// One more character comes after those that are still to be read. No other is moved.
    #[tactic(auto, unfolding(crate::specs::Texts::unread))]
    pub(crate) fn append(&mut self, c: char) -> Result<(), AllocError>
        ensures text { unread self.new
            ≡ (if is_ok result then unread self.old ++ c ∷ [] else unread self.old) }
        ensures next { self.new.next ≡ self.old.next }
    {
        self.chars.push(c)?;
        Ok(())
    }

    /// Lets go of the characters that were read.
    #[tactic(auto, unfolding(crate::specs::Texts::unread))]
    fn drop_read(&mut self)
        ensures { unread self.new ≡ unread self.old }
    {
        if self.next < self.chars.len() {
            let left = self.len();
            self.chars.rotate_left(self.next);
            self.chars.truncate(left);
        } else {
            self.chars.clear();
        }
        self.next = 0;
    }
}
