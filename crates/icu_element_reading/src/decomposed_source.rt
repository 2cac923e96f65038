//! The characters of a text in canonical decomposition, one by one.

ghost use Rattle.std.specs.Prelude.{◌≡◌, ◌*◌, ◌≤◌, ◌<◌, ◌∷◌, ℕ, List, [], true, is_some, IsTrue, IfOk, OnOk};
ghost use Rattle.std.specs.Iterator.{IsFinite, size};
ghost use Rattle.unicode_normalization.specs.Decompose.{decompose_canonical};
ghost use Rattle.unicode_normalization.specs.Forms.{nfd};
ghost use Rattle.unicode_normalization.specs.Iter.{Spells, source_size};
ghost use Rattle.unicode_normalization.specs.Order.{is_starter};

pub(crate) mod held_chars;

use crate::decomposed_source::held_chars::HeldChars;
use std::alloc::{AllocError, Global};
use ucd_normal::{Form, QuickCheck, class_and_quick_check};

/// The characters of a text in canonical decomposition (UAX #15), one by one. The delegate is read no further than the
/// next character asks: as far as marks may change places. A starter that decomposes to itself is given at once.
#[derive(Drop)]
pub(crate) struct DecomposedSource<I> {
    iter: I,
    is_done: bool,
    held: HeldChars,
}

impl<I: Iterator<Item = char> + Drop> DecomposedSource<I> {
    ghost use Rattle.icu_element_reading.specs.inner.HeldChars.{held_count};
    ghost use Rattle.icu_element_reading.specs.inner.Iterating.{StillReads, CanRead, GivesChar, ReadsNext, chars_in_source, reads_left};

    /// Reads the text that an iterator spells. Does not allocate.
    pub(crate) fn new(alloc: Global, iter: I) -> DecomposedSource<I>
        ensures text { (cs : List ℕ) → Spells I.next_gives iter cs
            → StillReads I.next_gives result (nfd cs) }
        ensures ready { I.can_next iter → IsFinite (I.remaining iter)
            → CanRead I.can_next I.remaining result }
    {
        DecomposedSource {
            iter,
            is_done: false,
            held: HeldChars::new(alloc),
        }
    }

    /// The next decomposed character, or `None` where none is left.
    #[inline(always)]
    pub(crate) fn next(&mut self) -> Result<Option<char>, AllocError>
        requires { CanRead I.can_next I.remaining self.old }
        ensures ready { OnOk result (CanRead I.can_next I.remaining self.new) }
        ensures gives { IfOk result (λ found. GivesChar I.next_gives found self.old self.new) }
        ensures size { OnOk result
            (chars_in_source I.remaining self.new ≤ chars_in_source I.remaining self.old) }
        ensures fewer { IfOk result (λ found. is_some found ≡ true
            → chars_in_source I.remaining self.new < chars_in_source I.remaining self.old) }
    {
        if self.held.is_empty() {
            self.next_read()
        } else {
            self.next_held()
        }
    }

    /// The next one, where none is held.
    #[inline(always)]
    fn next_read(&mut self) -> Result<Option<char>, AllocError>
        requires can { CanRead I.can_next I.remaining self.old }
        requires empty { held_count self.old.held ≡ 0 }
        ensures ready { OnOk result (CanRead I.can_next I.remaining self.new) }
        ensures gives { IfOk result (λ found. GivesChar I.next_gives found self.old self.new) }
        ensures size { OnOk result
            (chars_in_source I.remaining self.new ≤ chars_in_source I.remaining self.old) }
        ensures fewer { IfOk result (λ found. is_some found ≡ true
            → chars_in_source I.remaining self.new < chars_in_source I.remaining self.old) }
    {
        let Some(c) = self.read_char() else {
            return Ok(None);
        };
        if is_decomposed_starter(c) {
            return Ok(Some(c));
        }
        self.held.push_decomposed(c)?;
        self.next_held()
    }

    /// The next of the characters that are held, after reading on until its place is known.
    #[inline(never)]
    fn next_held(&mut self) -> Result<Option<char>, AllocError>
        requires { CanRead I.can_next I.remaining self.old }
        ensures ready { OnOk result (CanRead I.can_next I.remaining self.new) }
        ensures gives { IfOk result (λ found. GivesChar I.next_gives found self.old self.new) }
        ensures size { OnOk result
            (chars_in_source I.remaining self.new ≤ chars_in_source I.remaining self.old) }
        ensures fewer { IfOk result (λ found. is_some found ≡ true
            → chars_in_source I.remaining self.new < chars_in_source I.remaining self.old) }
    {
        'reading: while !self.held.has_ready() {
            let Some(c) = self.read_char() else {
                self.held.settle_marks()?;
                return Ok(self.held.take_ready());
            };
            self.held.push_decomposed(c)?;
        }
        Ok(self.held.take_ready())
    }

    /// The next character of the text as it is, or `None` where none is left.
    #[inline(always)]
    fn read_char(&mut self) -> Option<char>
        requires { CanRead I.can_next I.remaining self.old }
        ensures ready { CanRead I.can_next I.remaining self.new }
        ensures reads { ReadsNext I.next_gives result self.old self.new }
        ensures held { self.new.held ≡ self.old.held }
        ensures size { reads_left I.remaining self.new ≤ reads_left I.remaining self.old }
        ensures fewer { is_some result ≡ true
            → reads_left I.remaining self.new < reads_left I.remaining self.old }
    {
        if self.is_done {
            return None;
        }
        let next = self.iter.next();
        self.is_done = next.is_none();
        next
    }
}

/// Whether a character is a starter that decomposes to itself. False says nothing.
#[inline(always)]
fn is_decomposed_starter(c: char) -> bool
    ensures starter { IsTrue result → is_starter c ≡ true }
    ensures itself { IsTrue result → decompose_canonical c ≡ c ∷ [] }
{
    if c < '\u{C0}' {
        return true;
    }
    let (class, answer) = class_and_quick_check(c, Form::Nfd);
    class == 0 && answer == QuickCheck::Yes
}
