//! A text in canonical decomposition, in an array.

ghost use Rattle.std.specs.Prelude.{◌≡◌, ◌≤◌, ◌<◌, ◌+◌, ◌++◌, ◌∷◌, [], ℕ, List, None, IsTrue, if◌then◌else◌, length, take, drop, slice_get, option_to_list};
ghost use Rattle.ucd_normal.specs.declared.forms.Form.TheVariants.{Nfd};
ghost use Rattle.unicode_normalization.specs.Decompose.{decompose};
ghost use Rattle.unicode_normalization.specs.Order.{canonical_order};
ghost use Rattle.icu_text_decomposition.specs.UnreadTexts.{marks_up_to};

use crate::TextForMatches;
use crate::short_text::char_room::CharRoom;
use crate::short_text::class_order::{are_all_in_order, push_in_order};
use unicode_normalization::Form;
use unicode_normalization::char::{canonical_combining_class, decomposition};

/// A text in canonical decomposition of at most `ROOM` characters, which is read from its front. It stands in an array:
/// those before `next` were read, and those from `end` on have no meaning.
#[derive(Debug, Clone, Copy)]
pub struct ArrayText<const ROOM: usize> {
    pub(crate) room: CharRoom<ROOM>,
    pub(crate) next: usize,
    pub(crate) end: usize,
    pub(crate) passed: usize,
    ghost order: { next ≤ end },
    ghost inside: { end ≤ ROOM },
}

impl<const ROOM: usize> ArrayText<ROOM> {
    ghost use Rattle.icu_text_decomposition.specs.short_text.ArrayTexts.{array_unread};

    /// An empty text.
    #[inline]
    #[tactic(auto, unfolding(crate::specs::short_text::ArrayTexts::array_unread))]
    pub fn new() -> ArrayText<ROOM>
        ensures { array_unread result ≡ [] }
    {
        ArrayText {
            room: CharRoom {
                chars: ['\0'; ROOM],
            },
            next: 0,
            end: 0,
            passed: 0,
        }
    }

    /// Leaves no character.
    #[inline]
    #[tactic(auto, unfolding(crate::specs::short_text::ArrayTexts::array_unread))]
    pub fn clear(&mut self)
        ensures { array_unread self.new ≡ [] }
    {
        self.next = 0;
        self.end = 0;
        self.passed = 0;
    }

    /// All that is still to be read.
    #[inline]
    #[tactic(auto, unfolding(crate::specs::short_text::ArrayTexts::array_unread))]
    fn as_slice(&self) -> &[char]
        ensures { result.now ≡ array_unread self.now }
    {
        self.room.between(self.next, self.end)
    }

    /// Appends a character as it is. Returns whether there was room for it: else nothing changes.
    #[inline]
    #[tactic(auto, unfolding(crate::specs::short_text::ArrayTexts::array_unread))]
    pub(crate) fn append(&mut self, c: char) -> bool
        ensures { IsTrue result → array_unread self.new ≡ array_unread self.old ++ c ∷ [] }
    {
        if self.end >= ROOM {
            return false;
        }
        self.room.set(self.next, self.end, c);
        self.end += 1;
        true
    }

    /// Appends what a character decomposes to (UAX #15), as it stands. Returns whether there was room for it: else the
    /// text has no meaning any more.
    pub fn push(&mut self, c: char) -> bool
        ensures { IsTrue result
            → array_unread self.new ≡ array_unread self.old ++ decompose Nfd c }
    {
        let mut room = [c; 3];
        for part in decomposition(c, Form::Nfd, &mut room) {
            if !self.append(*part) {
                return false;
            }
        }
        true
    }

    /// Puts what is still to be read in canonical order. Returns whether there was room for it: else the text has no
    /// meaning any more.
    pub fn put_in_order(&mut self) -> bool
        ensures { IsTrue result → array_unread self.new ≡ canonical_order (array_unread self.old) }
    {
        if are_all_in_order(self.as_slice()) {
            return true;
        }
        let parts = *self;
        self.clear();
        push_in_order(self, parts.as_slice())
    }

    /// Reads the next character: none where nothing is left.
    #[inline]
    #[tactic(auto, unfolding(crate::specs::short_text::ArrayTexts::array_unread))]
    fn take_first(&mut self) -> Option<char>
        ensures next { array_unread self.old ≡ option_to_list result ++ array_unread self.new }
        ensures end { result ≡ None → array_unread self.old ≡ [] }
        ensures passed { self.new.passed ≡ self.old.passed }
    {
        let c = self.get(0)?;
        self.next += 1;
        Some(c)
    }

    /// The character so many after the next one.
    #[inline]
    fn get(&self, index: usize) -> Option<char>
        ensures { result ≡ slice_get (array_unread self.now) index }
    {
        self.as_slice().get(index).copied()
    }

    /// Takes out the character so many after the next one; the others stay in order.
    #[tactic(auto, unfolding(crate::specs::short_text::ArrayTexts::array_unread))]
    fn remove(&mut self, index: usize)
        requires { index < length (array_unread self.old) }
        ensures rest { array_unread self.new ≡ take index (array_unread self.old)
            ++ drop (index + 1) (array_unread self.old) }
        ensures passed { self.new.passed ≡ self.old.passed }
    {
        self.room.move_to_front(self.next, self.end, index);
        self.next += 1;
    }
}

/// Whether a character is a mark of this class or a lower one.
#[inline]
#[tactic(auto, unfolding(crate::specs::UnreadTexts::marks_up_to, unicode_normalization::specs::Order::is_starter))]
fn is_mark_up_to(c: char, class: u8) -> bool
    ensures { (cs : List ℕ) → marks_up_to class (c ∷ cs)
        ≡ (if result then c ∷ marks_up_to class cs else []) }
{
    let own = canonical_combining_class(c);
    own != 0 && own <= class
}

/// How many marks come first that have this class or a lower one.
fn count_marks(chars: &[char], class: u8) -> usize
    ensures { result ≡ length (marks_up_to class chars.now) }
{
    let mut count = 0;
    'marks: while count < chars.len() {
        if !is_mark_up_to(chars[count], class) {
            return count;
        }
        count += 1;
    }
    count
}

impl<const ROOM: usize> TextForMatches for ArrayText<ROOM> {
    ghost use Rattle.icu_text_decomposition.specs.short_text.ArrayTexts.{array_unread, array_passed};

    ghost unread = { array_unread };

    ghost passed = { array_passed };

    #[inline]
    #[tactic(auto, unfolding(crate::specs::short_text::ArrayTexts::array_unread))]
    fn next(&mut self) -> Option<char> {
        self.passed = 0;
        self.take_first()
    }

    #[inline]
    #[tactic(auto, unfolding(crate::specs::short_text::ArrayTexts::array_unread))]
    fn look_back(&mut self) {
        self.passed = 0;
    }

    #[inline]
    #[tactic(auto, unfolding(crate::specs::short_text::ArrayTexts::array_unread))]
    fn pass(&mut self) -> Option<char> {
        let c = self.get(self.passed)?;
        self.passed += 1;
        Some(c)
    }

    #[tactic(auto, unfolding(crate::specs::short_text::ArrayTexts::array_unread))]
    fn pass_up_to(&mut self, class: u8) {
        self.passed = count_marks(self.as_slice(), class);
    }

    #[tactic(auto, unfolding(crate::specs::short_text::ArrayTexts::array_unread))]
    fn take(&mut self, mark: char) {
        let count = self.passed;
        self.remove(count - 1);
        self.passed = count - 1;
    }
}
