//! The places of a text, one offset after another.

ghost use Rattle.std.specs.Prelude.{◌≡◌, ◌<◌, ◌∷◌, ℕ, List, [], IfOk, IsSome, MatchOption, OnOk, length};
ghost use Rattle.std.specs.Iterator.{IsFinite};
ghost use Rattle.ucd_normal.specs.declared.forms.Form.TheVariants.{Nfd};
ghost use Rattle.unicode_normalization.specs.Decompose.{decompose};
ghost use Rattle.unicode_normalization.specs.Iter.{Spells};

use crate::place_reader::gathered_steps::GatheredSteps;
use crate::place_reader::leading::begins_letter;
use icu_element_reading::{CollationElement, TextReading};
use std::alloc::AllocError;
use unicode_normalization::Form;
use unicode_normalization::char::decomposition;

/// How many characters a character decomposes to.
fn decomposed_len(c: char) -> usize
    ensures { result ≡ length (decompose Nfd c) }
{
    let mut room = [c; 3];
    decomposition(c, Form::Nfd, &mut room).len()
}

/// The first of some characters, and those after it.
fn first_and_rest(chars: &[char]) -> Option<(char, &[char])>
    ensures { MatchOption result (chars.entry.now ≡ [])
        (λ p. chars.entry.now ≡ p.0 ∷ p.1.now) }
{
    let (first, rest) = chars.split_first()?;
    Some((*first, rest))
}

/// Goes along a text character by character, and tells after each whether a place of the text is there. The text is
/// read no further than that asks.
#[derive(Drop)]
pub struct PlaceReader<'t, 'd, I> {
    left: &'t [char],
    gathered: GatheredSteps<'d, I>,
}

impl<'t, 'd, I: Iterator<Item = char> + Drop> PlaceReader<'t, 'd, I> {
    ghost use Rattle.icu_element_reading.specs.Reading.{reading_of};
    ghost use Rattle.icu_search_places.specs.place_reader.PlaceReaders.{CanPass, HasPassed, PassesChar, chars_left, elements_read, places_reading, stands_at_place};

    /// Stands before a text, which `delegate` spells. Does not allocate.
    pub fn new(text: &'t [char], delegate: I, reading: TextReading<'d>) -> PlaceReader<'t, 'd, I>
        ensures text { Spells I.next_gives delegate text.entry.now
            → HasPassed I.next_gives result [] }
        ensures left { chars_left result ≡ text.entry.now }
        ensures reading { places_reading result ≡ reading_of reading.entry }
        ensures ready { I.can_next delegate → IsFinite (I.remaining delegate)
            → CanPass I.can_next I.remaining result }
    {
        PlaceReader {
            left: text,
            gathered: GatheredSteps::new(delegate, reading),
        }
    }

    /// Passes a character, and returns whether a place of the text is there, or `None` where no character was left.
    /// Fails only where an allocation does; discard the reader then.
    pub fn next(&mut self) -> Result<Option<bool>, AllocError>
        requires { CanPass I.can_next I.remaining self.old }
        ensures step { (front : List ℕ) → HasPassed I.next_gives self.old front
            → IfOk result (λ here. MatchOption here (chars_left self.old ≡ [])
            (λ b. PassesChar I.next_gives self.old front b self.new)) }
        ensures reading { places_reading self.new ≡ places_reading self.old }
        ensures again { OnOk result (CanPass I.can_next I.remaining self.new) }
        ensures shorter { IfOk result (λ here. IsSome here
            → length (chars_left self.new) < length (chars_left self.old)) }
    {
        let Some((c, left)) = first_and_rest(self.left) else {
            return Ok(None);
        };
        self.gathered.consume(decomposed_len(c))?;
        self.left = left;
        Ok(Some(self.is_at_place()))
    }

    /// Whether a place is where the reader stands.
    fn is_at_place(&self) -> bool
        ensures { result ≡ stands_at_place (chars_left self.now) self.now.gathered.ahead }
    {
        match self.left {
            [next, ..] => self.gathered.ahead == 0 && begins_letter(*next),
            [] => true,
        }
    }

    /// The elements that were read: at a place, those of what was passed.
    pub fn elements(&self) -> &[CollationElement]
        ensures { result.now ≡ elements_read self.now }
    {
        self.gathered.elements.as_slice()
    }
}
