//! What is known of ASCII characters before a text is read: before which of them texts may be cut, with which of them
//! no match begins, and how many primary weights each has.

ghost use Rattle.std.specs.Prelude.{◌≡◌, ◌⊎◌, ◌<◌, ◌≤◌, ◌∷◌, [], ℕ, true, IfSome, IsTrue, length};
ghost use Rattle.std.specs.Option.{ForSome};
ghost use Rattle.icu_collator.specs.Collators.{collation_borrowed};
ghost use Rattle.icu_search_places.specs.PieceLaws.{BeginsPieces};
ghost use Rattle.icu_order_texts.specs.Forms.{form_by, last_variable_by};
ghost use Rattle.icu_order_texts.specs.TextOrder.{reading_by};
ghost use Rattle.icu_search.specs.inner.AsciiMarks.{AllMarked, BeginsWithOther, CountChars, MarkCuts, LeadsWithPrimary, MarkLeading, MarkOthers, MarkSilent, counted_char, has_mark};
ghost use Rattle.icu_search.specs.inner.FirstWeights.{AreApart};
ghost use Rattle.icu_search.specs.inner.SilentStarts.{EndsAtTertiaries};

use crate::apart_leads::differ;
use crate::first_weights::KnownVariables;
use crate::pattern_weights::known_count;
use crate::silent_starts::{ends_at_tertiaries, first_element, is_silent_alone};
use icu_collator::CollatorBorrowed;
use icu_search_places::place_reader::begins_letter;

/// Whether a character has a mark. None beyond ASCII has.
#[inline(always)]
pub(crate) fn has_mark(marks: &[bool; 128], c: char) -> bool
    ensures { result ≡ has_mark marks.now c }
{
    (c as u32) < 0x80 && marks[(c as u32) as usize]
}

/// Makes the mark of an ASCII character.
fn mark(marks: &mut [bool; 128], c: u8)
    requires { c < 0x80 }
    ensures { (k : ℕ) → has_mark marks.new k ≡ true → (k ≡ c) ⊎ (has_mark marks.old k ≡ true) }
{
    marks[c as usize] = true;
}

/// Whether each text may be searched in pieces that are cut before a character. False says nothing.
pub(crate) fn begins_pieces(collator: &CollatorBorrowed<'_>, c: char) -> bool
    ensures { IsTrue result → BeginsPieces (reading_by (collation_borrowed collator.now)) c }
{
    collator.cursor_tables().places().has_boundary_before(c) && begins_letter(c)
}

/// Makes the mark of a character before which texts may be cut.
fn mark_cut(collator: &CollatorBorrowed<'_>, marks: &mut [bool; 128], c: u8)
    requires { c < 0x80 }
    ensures { let reading = reading_by (collation_borrowed collator.now) in
        MarkCuts reading marks.old → MarkCuts reading marks.new }
{
    if begins_pieces(collator, char::from(c)) {
        mark(marks, c);
    }
}

/// Marks of characters before which texts may be cut.
pub(crate) fn cut_marks(collator: &CollatorBorrowed<'_>) -> [bool; 128]
    ensures { MarkCuts (reading_by (collation_borrowed collator.now)) result }
{
    let mut marks = [false; 128];
    for c in 0..128u8 {
        mark_cut(collator, &mut marks, c);
    }
    marks
}

/// Whether a character by itself begins with another primary weight than these. False says nothing.
fn begins_with_other(
    collator: &CollatorBorrowed<'_>,
    known: KnownVariables,
    primaries: &[u32],
    apart: &[bool; 256],
    c: char,
) -> bool
    requires sure { ForSome known.sure
        (λ p. last_variable_by (collation_borrowed collator.now) < p) }
    requires variable { known.variable ≤ last_variable_by (collation_borrowed collator.now) }
    requires apart { AreApart (collation_borrowed collator.now) apart.now }
    ensures { IsTrue result → BeginsWithOther (collation_borrowed collator.now) primaries.now c }
{
    if primaries.is_empty() {
        return false;
    }
    let Some(element) = first_element(collator, &[c]) else {
        return false;
    };
    match known.counts(element.primary()) {
        Some(true) => differ(apart, element.primary(), primaries[0]),
        _ => false,
    }
}

/// Makes the mark of a character that begins with another primary weight than these.
fn mark_other(
    collator: &CollatorBorrowed<'_>,
    known: KnownVariables,
    primaries: &[u32],
    apart: &[bool; 256],
    marks: &mut [bool; 128],
    c: u8,
)
    requires sure { ForSome known.sure
        (λ p. last_variable_by (collation_borrowed collator.now) < p) }
    requires variable { known.variable ≤ last_variable_by (collation_borrowed collator.now) }
    requires apart { AreApart (collation_borrowed collator.now) apart.now }
    requires ascii { c < 0x80 }
    ensures { let collation = collation_borrowed collator.now in
        MarkOthers collation primaries.now marks.old
        → MarkOthers collation primaries.now marks.new }
{
    if begins_with_other(collator, known, primaries, apart, char::from(c)) {
        mark(marks, c);
    }
}

/// Marks of characters that begin with another primary weight than these, each by itself.
pub(crate) fn other_marks(
    collator: &CollatorBorrowed<'_>,
    known: KnownVariables,
    primaries: &[u32],
    apart: &[bool; 256],
) -> [bool; 128]
    requires sure { ForSome known.sure
        (λ p. last_variable_by (collation_borrowed collator.now) < p) }
    requires variable { known.variable ≤ last_variable_by (collation_borrowed collator.now) }
    requires apart { AreApart (collation_borrowed collator.now) apart.now }
    ensures { MarkOthers (collation_borrowed collator.now) primaries.now result }
{
    let mut marks = [false; 128];
    for c in 0..128u8 {
        mark_other(collator, known, primaries, apart, &mut marks, c);
    }
    marks
}

/// Makes the mark of a character that gives nothing below the quaternary level before a primary weight.
fn mark_silent(collator: &CollatorBorrowed<'_>, marks: &mut [bool; 128], c: u8)
    requires ascii { c < 0x80 }
    requires ends { EndsAtTertiaries (form_by (collation_borrowed collator.now)) }
    ensures { let collation = collation_borrowed collator.now in
        MarkSilent collation marks.old → MarkSilent collation marks.new }
{
    if is_silent_alone(collator, char::from(c)) {
        mark(marks, c);
    }
}

/// Marks of characters that give nothing below the quaternary level before a primary weight: none where that level
/// counts.
pub(crate) fn silent_marks(collator: &CollatorBorrowed<'_>) -> [bool; 128]
    ensures { MarkSilent (collation_borrowed collator.now) result }
{
    let mut marks = [false; 128];
    if !ends_at_tertiaries(collator) {
        return marks;
    }
    for c in 0..128u8 {
        mark_silent(collator, &mut marks, c);
    }
    marks
}

/// Whether the elements of a character by itself begin with a primary weight. False says nothing.
fn leads_with_primary(collator: &CollatorBorrowed<'_>, c: char) -> bool
    ensures { IsTrue result → LeadsWithPrimary (collation_borrowed collator.now) c }
{
    match first_element(collator, &[c]) {
        Some(element) => element.primary() != 0,
        None => false,
    }
}

/// Makes the mark of a character whose elements begin with a primary weight.
fn mark_leading(collator: &CollatorBorrowed<'_>, marks: &mut [bool; 128], c: u8)
    requires ascii { c < 0x80 }
    ensures { let collation = collation_borrowed collator.now in
        MarkLeading collation marks.old → MarkLeading collation marks.new }
{
    if leads_with_primary(collator, char::from(c)) {
        mark(marks, c);
    }
}

/// Marks of characters whose elements, each by itself, begin with a primary weight.
pub(crate) fn leading_marks(collator: &CollatorBorrowed<'_>) -> [bool; 128]
    ensures { MarkLeading (collation_borrowed collator.now) result }
{
    let mut marks = [false; 128];
    for c in 0..128u8 {
        mark_leading(collator, &mut marks, c);
    }
    marks
}

/// How many primary weights an ASCII character has by itself, if that is known. Of none beyond ASCII it is.
#[inline(always)]
pub(crate) fn count_of_char(counts: &[Option<usize>; 128], c: char) -> Option<usize>
    ensures { result ≡ counted_char counts.now c }
{
    if (c as u32) < 0x80 {
        counts[(c as u32) as usize]
    } else {
        None
    }
}

/// Keeps how many primary weights an ASCII character has by itself.
fn count_char(collator: &CollatorBorrowed<'_>, counts: &mut [Option<usize>; 128], c: u8)
    requires ascii { c < 0x80 }
    ensures { let collation = collation_borrowed collator.now in
        CountChars collation counts.old → CountChars collation counts.new }
{
    counts[c as usize] = known_count(collator, &[char::from(c)]);
}

/// How many primary weights each ASCII character has by itself, if that is known.
pub(crate) fn char_counts(collator: &CollatorBorrowed<'_>) -> [Option<usize>; 128]
    ensures { CountChars (collation_borrowed collator.now) result }
{
    let mut counts = [None; 128];
    for c in 0..128u8 {
        count_char(collator, &mut counts, c);
    }
    counts
}
