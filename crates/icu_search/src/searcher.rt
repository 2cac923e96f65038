//! Patterns that are searched for.

ghost use Rattle.std.specs.Prelude.{◌≡◌, ◌<◌, ◌≤◌, ◌∷◌, ◌++◌, ℕ, List, [], true, false, chars, length, string_bytes, IfOk, IfSome, IsTrue};
ghost use Rattle.std.specs.Option.{ForSome};
ghost use Rattle.std.specs.Ordering.{is_eq};
ghost use Rattle.icu_text_encodings.specs.DecodedTexts.{latin1_text, utf16_text, utf8_text};
ghost use Rattle.icu_collator.specs.Collators.{collation_borrowed, collation_kept};
ghost use Rattle.icu_element_reading.specs.Reading.{reading_of};
ghost use Rattle.icu_order_texts.specs.TextOrder.{reading_by, lists_by, text_order};
ghost use Rattle.icu_order_texts.specs.Forms.{form_by, last_variable_by};
ghost use Rattle.icu_search_places.specs.Searches.{Search, found};
ghost use Rattle.unicode_normalization.specs.Forms.{nfd};
ghost use Rattle.icu_search_places.specs.PieceLaws.{BeginsPieces};
ghost use Rattle.icu_search.specs.inner.SilentStarts.{EndsAtTertiaries};
ghost use Rattle.icu_search.specs.inner.SilentTexts.{StartsSilently};
ghost use Rattle.icu_search.specs.inner.AsciiMarks.{BeginsCut, CountChars, GivesNothing, LeadsWithPrimary, MarkCuts, MarkLeading, MarkOthers, MarkSilent, OpensSilently};
ghost use Rattle.icu_search.specs.inner.PartLevels.{AreLevelsOf, HasGone};
ghost use Rattle.icu_search.specs.inner.FirstWeights.{AreApart, BeginsOtherwise, BeginsWith};
ghost use Rattle.icu_search.specs.inner.EqualParts.{equals_pattern};
ghost use Rattle.icu_search.specs.inner.WeightsBehind.{DiffersBehind};

use crate::apart_leads::{apart_leads, differ};
use crate::ascii_marks::{
    begins_pieces, char_counts, count_of_char, cut_marks, has_mark, leading_marks, other_marks,
    silent_marks,
};
use crate::common_lengths::common_lengths;
use crate::first_weights::{KnownVariables, rules_out};
use crate::pattern_levels::{PartLevels, PatternLevels};
use crate::pattern_weights::{
    first_primaries, first_sure, known_count, reading_of_collator, weight_count,
};
use crate::silent_starts::{
    ends_at_tertiaries, first_element, is_shifted, is_silent_alone, starts_silently,
};
use icu_collator::{Collator, CollatorBorrowed};
use icu_element_reading::TextReading;
use icu_search_places::indexed_text::utf8_copy;
use icu_text_encodings::{Latin1Text, Utf8Text, Utf16Text};
use std::alloc::{AllocError, Global};

/// A pattern that is searched for by a collator. It is read once, and doesn't change.
#[derive(Debug, Drop)]
pub struct Searcher<'c> {
    alloc: Global,
    collator: CollatorBorrowed<'c>,
    pattern: String,
    /// From this primary weight on none is that of a variable element.
    sure: Option<u32>,
    /// So many primary weights of the pattern count.
    count: usize,
    /// The empty text is equal to the pattern.
    equals_empty: bool,
    /// Its weights, level by level.
    levels: PatternLevels<'c>,
    /// The primary weights with which it begins.
    first: Vec<u32>,
    /// For each of them, how many from there on are those with which it begins; none if they are few.
    common: Vec<usize>,
    /// Marks of lead bytes that are kept apart.
    apart: [bool; 256],
    /// Marks of ASCII characters before which texts may be cut.
    cuts: [bool; 128],
    /// Marks of ASCII characters that begin with another primary weight, each by itself.
    others: [bool; 128],
    /// Marks of those that give nothing below the quaternary level before a primary weight.
    silent: [bool; 128],
    /// Marks of those whose elements, each by itself, begin with a primary weight.
    leading: [bool; 128],
    /// How many primary weights each has by itself, if that is known.
    counts: [Option<usize>; 128],
    ghost cuts_are: { MarkCuts (reading_by (collation_borrowed collator)) cuts },
    ghost others_are: { MarkOthers (collation_borrowed collator) first.items others },
    ghost silent_are: { MarkSilent (collation_borrowed collator) silent },
    ghost leading_are: { MarkLeading (collation_borrowed collator) leading },
    ghost counts_are: { CountChars (collation_borrowed collator) counts },
    ghost apart_is: { AreApart (collation_borrowed collator) apart },
    ghost first_is: { BeginsWith first.items (lists_by (collation_borrowed collator)
        (nfd (chars (string_bytes pattern)))).primaries },
    ghost sure_is: { ForSome sure (λ p. last_variable_by (collation_borrowed collator) < p) },
    ghost count_is: { count ≡ length (lists_by (collation_borrowed collator)
        (nfd (chars (string_bytes pattern)))).primaries },
    ghost levels_are: { AreLevelsOf (collation_borrowed collator)
        (chars (string_bytes pattern)) levels },
    ghost equals_empty_is: { equals_empty ≡ is_eq (text_order (collation_borrowed collator) []
        (chars (string_bytes pattern))) },
}

/// So many elements of a text are looked at, beside two for each primary weight of a pattern.
const FEW: usize = 64;

/// Whether the empty text is equal to another.
fn is_empty_text(collator: &CollatorBorrowed<'_>, text: &str) -> bool
    ensures { result ≡ is_eq (text_order (collation_borrowed collator.now) [] (chars text.now)) }
{
    collator.order("", text).is_eq()
}

impl<'c> Searcher<'c> {
    ghost use Rattle.icu_search.specs.Searchers.{search_for, search_of};

    /// Reads a pattern. Each is taken, the empty one and those without weights too, which are found at each place
    /// (`is_ignorable`). Fails only where an allocation does.
    pub fn new(
        alloc: Global,
        collator: &'c Collator,
        pattern: &str,
    ) -> Result<Searcher<'c>, AllocError>
        ensures { IfOk result (λ s. search_of s
            ≡ search_for (collation_kept collator.entry.now) (chars pattern.now)) }
    {
        let pattern = String::from_str(alloc, pattern)?;
        let searcher = Searcher::of_pattern(alloc, collator, pattern)?;
        Ok(searcher)
    }

    /// Reads a pattern in UTF-8 that may be damaged: each maximal ill-formed part is one U+FFFD (Unicode Standard,
    /// "Unicode Encoding Forms"). Fails only where an allocation does.
    pub fn new_utf8(
        alloc: Global,
        collator: &'c Collator,
        pattern: &[u8],
    ) -> Result<Searcher<'c>, AllocError>
        ensures { IfOk result (λ s. search_of s
            ≡ search_for (collation_kept collator.entry.now) (utf8_text pattern.now)) }
    {
        let pattern = utf8_copy(alloc, Utf8Text(pattern))?;
        let searcher = Searcher::of_pattern(alloc, collator, pattern)?;
        Ok(searcher)
    }

    /// Reads a pattern in UTF-16: each unpaired surrogate is U+FFFD (Unicode Standard, "Unicode Encoding Forms"). Fails
    /// only where an allocation does.
    pub fn new_utf16(
        alloc: Global,
        collator: &'c Collator,
        pattern: &[u16],
    ) -> Result<Searcher<'c>, AllocError>
        ensures { IfOk result (λ s. search_of s
            ≡ search_for (collation_kept collator.entry.now) (utf16_text pattern.now)) }
    {
        let pattern = utf8_copy(alloc, Utf16Text(pattern))?;
        let searcher = Searcher::of_pattern(alloc, collator, pattern)?;
        Ok(searcher)
    }

    /// Reads a pattern in Latin-1: each byte is the character of its number (Unicode Standard, "Latin"). Fails only
    /// where an allocation does.
    pub fn new_latin1(
        alloc: Global,
        collator: &'c Collator,
        pattern: &[u8],
    ) -> Result<Searcher<'c>, AllocError>
        ensures { IfOk result (λ s. search_of s
            ≡ search_for (collation_kept collator.entry.now) (latin1_text pattern.now)) }
    {
        let pattern = utf8_copy(alloc, Latin1Text(pattern))?;
        let searcher = Searcher::of_pattern(alloc, collator, pattern)?;
        Ok(searcher)
    }

    /// Reads a pattern.
    fn of_pattern(
        alloc: Global,
        collator: &'c Collator,
        pattern: String,
    ) -> Result<Searcher<'c>, AllocError>
        ensures { IfOk result (λ s. search_of s
            ≡ search_for (collation_kept collator.entry.now) (chars (string_bytes pattern))) }
    {
        let borrowed = collator.as_borrowed();
        let count = weight_count(&borrowed, pattern.as_str())?;
        let levels = PatternLevels::new(alloc, &borrowed, pattern.as_str())?;
        let sure = first_sure(&borrowed);
        let equals_empty = is_empty_text(&borrowed, pattern.as_str());
        let known = KnownVariables {
            sure,
            variable: borrowed.last_variable(),
        };
        let first = first_primaries(alloc, &borrowed, pattern.as_str(), known)?;
        let apart = apart_leads(alloc, &borrowed, known, first.as_slice())?;
        let cuts = cut_marks(&borrowed);
        let others = other_marks(&borrowed, known, first.as_slice(), &apart);
        let silent = silent_marks(&borrowed);
        let leading = leading_marks(&borrowed);
        let counts = char_counts(&borrowed);
        let common = common_lengths(alloc, first.as_slice())?;
        Ok(Searcher {
            alloc,
            collator: borrowed,
            pattern,
            sure,
            count,
            equals_empty,
            levels,
            first,
            common,
            apart,
            cuts,
            others,
            silent,
            leading,
            counts,
        })
    }

    /// Whether the pattern is equal to the empty text: it is found, empty, at each place of a text then.
    pub fn is_ignorable(&self) -> bool
        ensures { let s = search_of self.now in
            result ≡ is_eq (text_order s.collation s.pattern []) }
    {
        self.collator.order(self.pattern.as_str(), "").is_eq()
    }

    /// Whether a text is equal to the pattern as a whole.
    pub(crate) fn is_whole(&self, text: &str) -> bool
        ensures { let s = search_of self.now in
            result ≡ is_eq (text_order s.collation (chars text.now) s.pattern) }
    {
        self.collator.order(text, self.pattern.as_str()).is_eq()
    }

    /// The allocator that searches take.
    pub(crate) fn allocator(&self) -> Global {
        self.alloc
    }

    /// How texts are read.
    pub(crate) fn reading(&self) -> TextReading<'c>
        ensures { reading_of result ≡ reading_by (search_of self.now).collation }
    {
        reading_of_collator(&self.collator)
    }

    /// Whether a part of a text is equal to the pattern.
    pub(crate) fn equals(&self, part: &str) -> bool
        ensures { result ≡ equals_pattern (search_of self.now) (chars part.now) }
    {
        self.collator.order(part, self.pattern.as_str()).is_eq()
    }

    /// Whether the empty part is.
    pub(crate) fn equals_empty(&self) -> bool
        ensures { result ≡ equals_pattern (search_of self.now) [] }
    {
        self.equals_empty
    }

    /// Whether the first two characters of a text tell that it begins with another primary weight than the pattern.
    #[inline(always)]
    fn begins_with_other(&self, text: &[char]) -> bool
        ensures { IsTrue result
            → BeginsOtherwise (collation_borrowed self.now.collator) text.now self.now.first.items }
    {
        match text {
            [first, second, ..] => {
                has_mark(&self.others, *first) && has_mark(&self.cuts, *second)
            }
            _ => false,
        }
    }

    /// Whether no part with which a text begins is equal to the pattern, up to a place, as its first two characters
    /// tell. False says nothing.
    #[inline(always)]
    pub(crate) fn opens_otherwise(&self, text: &[char]) -> bool
        ensures { let s = search_of self.now in let c = s.collation in IsTrue result
            → (part rest : List ℕ) → (lists_by c (nfd text.now)).primaries
            ≡ (lists_by c (nfd part)).primaries ++ rest → equals_pattern s part ≡ false }
    {
        self.begins_with_other(text)
    }

    /// Whether a text begins with a character that gives nothing below the quaternary level, before a primary weight,
    /// as its first three characters tell. False says nothing.
    #[inline(always)]
    pub(crate) fn opens_silently(&self, text: &[char]) -> bool
        ensures { IsTrue result → OpensSilently (search_of self.now).collation text.now }
    {
        match text {
            [first, next, others @ ..] => {
                self.gives_nothing_before(*first, *next) && self.begins_cut(others)
            }
            _ => false,
        }
    }

    /// Whether a character gives nothing below the quaternary level before another one, which begins with a primary
    /// weight where the text is cut behind it. False says nothing.
    #[inline(always)]
    fn gives_nothing_before(&self, first: char, next: char) -> bool
        ensures { let c = (search_of self.now).collation in IsTrue result
            → GivesNothing c first × LeadsWithPrimary c next × BeginsPieces (reading_by c) next }
    {
        if !has_mark(&self.silent, first) {
            return false;
        }
        if !has_mark(&self.leading, next) {
            return false;
        }
        has_mark(&self.cuts, next)
    }

    /// Whether a text is empty, or begins with a character before which texts may be cut. False says nothing.
    #[inline(always)]
    fn begins_cut(&self, text: &[char]) -> bool
        ensures { let c = (search_of self.now).collation in IsTrue result
            → BeginsCut (reading_by c) text.now }
    {
        match text {
            [first, ..] => has_mark(&self.cuts, *first),
            [] => true,
        }
    }

    /// Whether a character by itself gives nothing below the quaternary level before a primary weight, and no level
    /// counts from that one on. False says nothing.
    pub(crate) fn gives_nothing(&self, c: char) -> bool
        ensures { IsTrue result → GivesNothing (search_of self.now).collation c }
    {
        if (c as u32) < 0x80 {
            return has_mark(&self.silent, c);
        }
        if !ends_at_tertiaries(&self.collator) {
            return false;
        }
        is_silent_alone(&self.collator, c)
    }

    /// Whether no part with which a text begins is equal to the pattern, up to a place: the primary weights of so many
    /// of its first elements tell. None may be equal where this returns false.
    pub(crate) fn begins_otherwise(&self, text: &[char], most: usize) -> bool
        ensures { let s = search_of self.now in let c = s.collation in result ≡ true
            → (part rest : List ℕ) → (lists_by c (nfd text.now)).primaries
            ≡ (lists_by c (nfd part)).primaries ++ rest → equals_pattern s part ≡ false }
    {
        if self.begins_with_other(text) {
            return true;
        }
        let known = KnownVariables {
            sure: self.sure,
            variable: self.collator.last_variable(),
        };
        rules_out(
            &self.collator,
            known,
            self.first.as_slice(),
            &self.apart,
            text,
            most,
        )
    }

    /// Whether the pattern has so many primary weights that those behind a start are looked at by what is known of it.
    #[inline(always)]
    pub(crate) fn looks_behind(&self) -> bool {
        !self.common.is_empty()
    }

    /// How many of the pattern's primary weights from an index on are those with which it begins.
    pub(crate) fn common_length(&self, index: usize) -> usize {
        match self.common.get(index) {
            Some(count) => *count,
            None => 0,
        }
    }

    /// Whether a text begins with the primary weight that the pattern has at an index.
    pub(crate) fn has_weight(&self, text: &[char], index: usize) -> bool {
        let Some(element) = first_element(&self.collator, text) else {
            return false;
        };
        match self.first.get(index) {
            Some(primary) => element.primary() == *primary,
            None => false,
        }
    }

    /// Whether a text begins with another primary weight than the pattern has at an index: no text is equal to it that
    /// goes on so behind as many weights. False says nothing.
    pub(crate) fn has_other_weight(&self, text: &[char], index: usize) -> bool
        ensures { IsTrue result → DiffersBehind (search_of self.now) text.now index }
    {
        let first = self.first.as_slice();
        if index >= first.len() {
            return false;
        }
        let Some(element) = first_element(&self.collator, text) else {
            return false;
        };
        let known = KnownVariables {
            sure: self.sure,
            variable: self.collator.last_variable(),
        };
        match known.counts(element.primary()) {
            Some(true) => differ(&self.apart, element.primary(), first[index]),
            _ => false,
        }
    }

    /// So many elements of a text are looked at: two for each primary weight of the pattern, and a few.
    pub(crate) fn looks_at(&self) -> usize {
        self.first.len().saturating_mul(2).saturating_add(FEW)
    }

    /// Whether each text may be searched in pieces that are cut before a character. False says nothing.
    pub(crate) fn cuts_before(&self, c: char) -> bool
        ensures { IsTrue result → BeginsPieces (reading_by (search_of self.now).collation) c }
    {
        if has_mark(&self.cuts, c) {
            return true;
        }
        if (c as u32) < 0x80 {
            return false;
        }
        begins_pieces(&self.collator, c)
    }

    /// Whether a match that begins with a text holds one that begins behind it, if the second text follows and may be
    /// cut there. False says nothing.
    pub(crate) fn passes_silent(&self, first: &[char], rest: &[char]) -> bool
        ensures { IsTrue result → let c = (search_of self.now).collation in
            EndsAtTertiaries (form_by c) × StartsSilently c first.now rest.now }
    {
        ends_at_tertiaries(&self.collator) && starts_silently(&self.collator, first, rest)
    }

    /// Whether a text has a variable element, and gives nothing below the quaternary level. False says nothing.
    pub(crate) fn is_shifted(&self, text: &[char]) -> bool {
        is_shifted(&self.collator, text)
    }

    /// Whether a character has a primary weight first, by itself. False says nothing.
    pub(crate) fn leads(&self, c: char) -> bool {
        if (c as u32) < 0x80 {
            return has_mark(&self.leading, c);
        }
        match first_element(&self.collator, &[c]) {
            Some(element) => element.primary() != 0,
            None => false,
        }
    }

    /// How many primary weights a character has by itself, if facts tell. `None` says nothing.
    #[inline(always)]
    pub(crate) fn count_of(&self, c: char) -> Option<usize>
        ensures { let collation = (search_of self.now).collation in
            IfSome result (λ n. n ≡ length (lists_by collation (nfd (c ∷ []))).primaries) }
    {
        if (c as u32) < 0x80 {
            count_of_char(&self.counts, c)
        } else {
            known_count(&self.collator, &[c])
        }
    }

    /// How many the pattern has.
    pub(crate) fn count_of_pattern(&self) -> usize
        ensures { let s = search_of self.now in
            result ≡ length (lists_by s.collation (nfd s.pattern)).primaries }
    {
        self.count
    }

    /// A walk along the elements of a part, whose weights are held against the pattern's.
    pub(crate) fn levels(&self) -> PartLevels<'_, 'c>
        ensures { let own = search_of self.entry.now in (s : Search) → s.collation ≡ own.collation
            → s.pattern ≡ own.pattern → HasGone s result [] }
    {
        self.levels.walk()
    }
}
