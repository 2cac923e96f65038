//! Rules that have no step.
ghost use Rattle.std.specs.Prelude.{◌≡◌, ◌+◌, ◌<◌, true, false, nat_lt, length, MatchOption};
ghost use Rattle.icu_rule_meaning.specs.Rules.{is_scalar};
ghost use Rattle.icu_rule_meaning.specs.Steps.{before_level};
ghost use Rattle.icu_rule_steps.specs.RuleFaults.{before_fault, begins_in_syllable, difference_fault, ends_in_syllable, has_no_weight, is_leading_jamo, is_reserved_position, is_vowel_jamo, level_fault, most_elements, string_fault, weight_fault};

use crate::tailoring_error::TailoringErrorKind;
use icu_options::Strength;
use icu_rule_meaning::weight_tree::{RootWeights, counting_at, last_or_ignorable};
use icu_rule_meaning::{SymbolicElement, SymbolicWeight};
use icu_rule_parser::LogicalPosition;

/// The primary weights from here on are of characters that have none of their own, and of trailing ones.
const FIRST_WITHOUT_OWN: u32 = 0xFE00_0000;

/// How many elements an entry may have.
const MOST_ELEMENTS: usize = 31;

/// How many mappings a character may have by rules.
pub(crate) const MOST_MAPPINGS: usize = 1024;

/// Whether nothing is tailored at a position.
pub(crate) fn is_reserved_position(position: LogicalPosition) -> bool
    ensures { result ≡ is_reserved_position position }
{
    matches!(
        position,
        LogicalPosition::LastImplicit
            | LogicalPosition::FirstTrailing
            | LogicalPosition::LastTrailing
    )
}

/// Whether an element has no primary weight of its own in the root.
fn has_no_weight(element: &SymbolicElement) -> bool
    ensures { result ≡ has_no_weight element.now }
{
    match element.weights[0] {
        SymbolicWeight::Rooted(p) => FIRST_WITHOUT_OWN <= p,
        SymbolicWeight::Tailored(_) => false,
    }
}

/// Whether there are more elements than an entry may have.
pub(crate) fn are_too_many(elements: &[SymbolicElement], extension: &[SymbolicElement]) -> bool
    ensures { result ≡ nat_lt most_elements (length elements.now + length extension.now) }
{
    MOST_ELEMENTS < elements.len() || MOST_ELEMENTS - elements.len() < extension.len()
}

/// Why nothing is before a weight of the root at a level.
fn weight_fault<R: RootWeights>(root: &R, level: u8, w: u32) -> Option<TailoringErrorKind>
    ensures { result ≡ weight_fault (R.root root.now) level w }
{
    if w == 0 {
        return Some(TailoringErrorKind::BeforeIgnorable);
    }
    if level == 1 && w <= root.first_primary() {
        return Some(TailoringErrorKind::BeforeFirst);
    }
    None
}

/// The level of `[before n]`, which is one of the first three.
fn before_level(strength: Strength) -> u8
    ensures { result ≡ before_level strength }
{
    match strength {
        Strength::Primary => 1,
        Strength::Secondary => 2,
        _ => 3,
    }
}

/// Why `[before n]` of elements is refused.
pub(crate) fn before_fault<R: RootWeights>(
    root: &R,
    strength: Strength,
    elements: &[SymbolicElement],
) -> Option<TailoringErrorKind>
    ensures { result ≡ before_fault (R.root root.now) (before_level strength) elements.now }
{
    let level = before_level(strength);
    let last = last_or_ignorable(counting_at(elements, level));
    if has_no_weight(&last) {
        return Some(TailoringErrorKind::NoWeight);
    }
    match last.weights[usize::from(level) - 1] {
        SymbolicWeight::Rooted(w) => weight_fault(root, level, w),
        SymbolicWeight::Tailored(_) => None,
    }
}

/// Why a difference of a level from elements is refused.
fn level_fault(level: u8, elements: &[SymbolicElement]) -> Option<TailoringErrorKind>
    ensures { result ≡ level_fault level elements.now }
{
    let counting = counting_at(elements, level);
    if has_no_weight(&last_or_ignorable(counting)) {
        return Some(TailoringErrorKind::NoWeight);
    }
    if (level == 1 || level == 4) && counting.is_empty() {
        return Some(TailoringErrorKind::AfterIgnorable);
    }
    None
}

/// Why a difference of a strength from elements is refused.
pub(crate) fn difference_fault(
    strength: Strength,
    elements: &[SymbolicElement],
) -> Option<TailoringErrorKind>
    ensures { result ≡ difference_fault strength elements.now }
{
    match strength {
        Strength::Primary => level_fault(1, elements),
        Strength::Secondary => level_fault(2, elements),
        Strength::Tertiary => level_fault(3, elements),
        Strength::Quaternary => level_fault(4, elements),
        Strength::Identical => None,
    }
}

/// Whether a character is a leading consonant that begins a modern Hangul syllable.
fn is_leading_jamo(c: char) -> bool
    ensures { result ≡ is_leading_jamo c }
{
    ('\u{1100}'..='\u{1112}').contains(&c)
}

/// Whether a character is a vowel of a modern Hangul syllable.
fn is_vowel_jamo(c: char) -> bool
    ensures { result ≡ is_vowel_jamo c }
{
    ('\u{1161}'..='\u{1175}').contains(&c)
}

/// Whether a contraction begins within a Hangul syllable.
fn begins_in_syllable(string: &[char]) -> bool
    ensures { result ≡ begins_in_syllable string.now }
{
    match string {
        [first, _, ..] => is_leading_jamo(*first) || is_vowel_jamo(*first),
        _ => false,
    }
}

/// Whether a contraction ends within a Hangul syllable.
fn ends_in_syllable(string: &[char]) -> bool
    ensures { result ≡ ends_in_syllable string.now }
{
    let count = string.len();
    if count < 2 {
        return false;
    }
    let last = string[count - 1];
    is_leading_jamo(last) || is_vowel_jamo(last) && is_leading_jamo(string[count - 2])
}

/// Why a string behind a prefix has no mapping, both decomposed.
pub(crate) fn string_fault(prefix: &[char], string: &[char]) -> Option<TailoringErrorKind>
    ensures { result ≡ string_fault prefix.now string.now }
{
    if begins_in_syllable(string) || ends_in_syllable(string) {
        return Some(TailoringErrorKind::JamoContraction);
    }
    if 2 < prefix.len() {
        return Some(TailoringErrorKind::LongPrefix);
    }
    None
}

/// The character of a code, if it is one.
pub(crate) fn scalar_of(code: u32) -> Option<char>
    requires { code < 0x110000 }
    ensures { MatchOption result (is_scalar code ≡ false)
        (λ c. (c ≡ code) × (is_scalar code ≡ true)) }
{
    char::from_u32(code)
}
