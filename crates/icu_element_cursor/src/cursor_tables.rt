//! What texts are read by, character by character.

ghost use Rattle.std.specs.Prelude.{◌≡◌, ◌≢◌, ◌∷◌, [], ℕ, List, IfSome, IsTrue, take};
ghost use Rattle.icu_element_reading.specs.Reading.{reading_of};
ghost use Rattle.icu_element_reading.specs.boundaries.Alone.{elements_of_char};
ghost use Rattle.icu_element_facts.specs.FewElements.{few_elements};
ghost use Rattle.icu_element_facts.specs.KeptFacts.{AreFirstFacts, IsNumberDigit};
ghost use Rattle.icu_element_facts.specs.FactsTables.{AreFacts};
ghost use Rattle.icu_element_reading.specs.boundaries.BoundaryTables.{boundary_reading};
ghost use Rattle.icu_element_reading.specs.boundaries.Places.{MayBeCut};
ghost use Rattle.icu_element_cursor.specs.inner.MarkRuns.{EndsRuns, IsInRun};
ghost use Rattle.icu_element_cursor.specs.inner.Standing.{BeginWithPrimary, KeptServes, PairServes, Serves, StandsBefore};

use crate::pairs::{is_unjoined_by_pair, read_pair};
use crate::unjoined::goes_on_none;
use crate::{Boundaries, CharFacts, FactsKind, Kept, KeptFacts};
use icu_element_facts::{FewElements, KeptPair, own_element, own_elements};
use icu_element_reading::TextReading;
use icu_table_entries::CollationElement;
use icu_text_encodings::EncodedText;
use std::alloc::Global;
use unicode_normalization::Form;
use unicode_normalization::char::{canonical_combining_class, decomposition};

/// What texts are read by, character by character: the tables, and what is kept of all characters.
#[derive(Debug, Clone, Copy)]
pub struct CursorTables<'d> {
    places: Boundaries<'d>,
    kept_facts: &'d KeptFacts,
    ghost facts_by: { ∥ AreFacts (boundary_reading places) kept_facts.now ∥₁ },
}

impl<'d> CursorTables<'d> {
    ghost use Rattle.icu_element_cursor.specs.Cursors.{BeginsWithPrimary, cursor_reading};

    /// Texts are read as those are whose boundaries these are, and with facts of characters that were worked out for
    /// them. Does not allocate.
    #[inline(always)]
    #[tactic(auto, unfolding(crate::specs::Cursors::cursor_reading))]
    pub fn new(places: Boundaries<'d>, kept_facts: &'d KeptFacts) -> CursorTables<'d>
        requires { AreFacts (boundary_reading places) kept_facts.now }
        ensures { cursor_reading result ≡ boundary_reading places.entry }
    {
        CursorTables { places, kept_facts }
    }

    /// How the texts are read.
    #[inline]
    #[tactic(auto, unfolding(crate::specs::Cursors::cursor_reading))]
    pub(crate) fn reading(&self) -> TextReading<'d>
        ensures { reading_of result ≡ cursor_reading self.now }
    {
        self.places.reading()
    }

    /// The allocator that the tables were made with.
    #[inline]
    pub(crate) fn allocator(&self) -> Global {
        self.reading().tables.allocator()
    }

    /// Before which characters the texts may be cut.
    #[inline]
    #[tactic(auto, unfolding(crate::specs::Cursors::cursor_reading))]
    pub fn places(&self) -> &Boundaries<'d>
        ensures { boundary_reading result.now ≡ cursor_reading self.now }
    {
        &self.places
    }

    /// What is kept of a character.
    #[inline(always)]
    #[tactic(auto, unfolding(crate::specs::Cursors::cursor_reading))]
    pub(crate) fn kept(&self, c: char) -> Kept<'_>
        ensures { KeptServes (cursor_reading self.now) c result }
    {
        self.kept_facts.get(c)
    }

    /// The facts that are kept of a character.
    #[inline]
    pub(crate) fn facts(&self, c: char) -> Option<&CharFacts>
        ensures { IfSome result (λ l. Serves (cursor_reading self.now) c l.now) }
    {
        match self.kept(c) {
            Kept::Facts(facts) => Some(facts),
            _ => None,
        }
    }

    /// The value that a digit has in a number, if facts are kept of it.
    #[inline]
    pub(crate) fn digit(&self, c: char) -> Option<u8>
        ensures { IfSome result (λ d. IsNumberDigit (cursor_reading self.now) c d) }
    {
        let facts = self.facts(c)?;
        facts.digit
    }

    /// The element of an own character whose entry gives one.
    #[inline]
    #[tactic(auto, unfolding(crate::specs::Cursors::cursor_reading))]
    pub(crate) fn own_element(&self, c: char) -> Option<CollationElement>
        ensures { IfSome result (λ e. elements_of_char (cursor_reading self.now).tables c
            ≡ e ∷ []) }
    {
        own_element(&self.places, c)
    }

    /// The elements of an own character, where they are three at most.
    #[tactic(auto, unfolding(crate::specs::Cursors::cursor_reading))]
    pub(crate) fn own_elements(&self, c: char) -> Option<FewElements>
        ensures { IfSome result (λ few. few_elements few
            ≡ elements_of_char (cursor_reading self.now).tables c) }
    {
        own_elements(&self.places, c)
    }

    /// The elements of a Hangul syllable, where each of its jamo has one wherever it stands.
    #[inline(always)]
    #[tactic(auto, unfolding(crate::specs::Cursors::cursor_reading))]
    pub(crate) fn syllable_elements(&self, c: char) -> Option<FewElements>
        ensures { IfSome result (λ few. (text : List ℕ)
            → StandsBefore (cursor_reading self.now) c (few_elements few) text) }
    {
        self.kept_facts.syllable_elements(c)
    }

    /// What is kept of two characters that contractions begin with.
    #[inline(always)]
    #[tactic(auto, unfolding(crate::specs::Cursors::cursor_reading))]
    pub(crate) fn pair(&self, c: char, x: char) -> Option<&KeptPair>
        ensures { IfSome result (λ p. PairServes (cursor_reading self.now) c x p.now) }
    {
        self.kept_facts.pair(c, x)
    }

    /// The primary weight that the elements of a text begin with whose first character has these facts, and is read
    /// alone or with the next one, or 0 where that is not known.
    #[inline(never)]
    pub fn first_primary<T: EncodedText>(&self, facts: &CharFacts, rest: T) -> u32
        ensures { (c : ℕ) → AreFirstFacts (cursor_reading self.now) c facts.now → result ≢ 0
            → BeginsWithPrimary (cursor_reading self.now) (c ∷ T.text rest) result }
    {
        if facts.kind != FactsKind::Base {
            return 0;
        }
        if goes_on_none(self, facts, rest) {
            return primary_of_first(&facts.elements, facts.count);
        }
        match read_pair(self, facts.character, rest) {
            Some(read) => primary_of_first(&read.pair.few.elements, read.pair.few.count),
            None if is_unjoined_by_pair(self, facts.character, rest) => {
                primary_of_first(&facts.elements, facts.count)
            }
            None => 0,
        }
    }

    /// What is known of a character of which nothing is kept.
    #[inline]
    #[tactic(auto, unfolding(crate::specs::Cursors::cursor_reading))]
    pub(crate) fn other_facts(&self, c: char) -> CharFacts
        ensures { Serves (cursor_reading self.now) c result }
    {
        self.kept_facts.work_out(&self.places, c)
    }

    /// Whether a text may be cut before this character. False says nothing.
    #[tactic(auto, unfolding(crate::specs::Cursors::cursor_reading))]
    pub(crate) fn has_boundary_before(&self, c: char) -> bool
        ensures { IsTrue result → MayBeCut (cursor_reading self.now) c }
    {
        match self.kept(c) {
            Kept::Own => true,
            Kept::Facts(facts) => facts.has_boundary_before,
            Kept::Nothing => self.places.has_boundary_before(c),
        }
    }

    /// Whether a run of marks ends before a character. False says nothing.
    #[inline(always)]
    pub(crate) fn ends_runs(&self, c: char) -> bool
        ensures { IsTrue result → EndsRuns c }
    {
        match self.kept(c) {
            Kept::Own => true,
            Kept::Facts(facts) => facts.begins_with_starter,
            Kept::Nothing => false,
        }
    }

    /// The class of a character in a run of marks: 0 where its decomposition begins with a starter, which ends the run.
    /// `None` where it decomposes to several characters, the first of which is a mark.
    #[inline(always)]
    #[tactic(auto, unfolding(crate::specs::Cursors::cursor_reading))]
    pub(crate) fn class_in_run(&self, c: char) -> Option<u8>
        ensures { IfSome result (λ class. IsInRun c class) }
    {
        match self.kept(c) {
            Kept::Own => Some(0),
            Kept::Facts(facts) if facts.begins_with_starter => Some(0),
            Kept::Facts(facts) if facts.kind == FactsKind::Mark => Some(facts.class),
            _ => class_of_first(c),
        }
    }
}

/// The primary weight of the first of so many elements, or 0 where there is none.
fn primary_of_first(elements: &[CollationElement; 3], count: u8) -> u32
    ensures { result ≢ 0 → BeginWithPrimary (take count elements.now) result }
{
    if count == 0 {
        return 0;
    }
    let elements = &elements[..];
    elements[0].primary()
}

/// The class of a character in a run of marks, by its decomposition.
#[inline(never)]
fn class_of_first(c: char) -> Option<u8>
    ensures { IfSome result (λ class. IsInRun c class) }
{
    let mut room = [c; 3];
    match decomposition(c, Form::Nfd, &mut room) {
        [first] => Some(canonical_combining_class(*first)),
        [first, ..] if canonical_combining_class(*first) == 0 => Some(0),
        _ => None,
    }
}
