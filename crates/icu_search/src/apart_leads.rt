//! Primary weights of one byte that no reordering makes the same: all of them where there is none, and else those of
//! Latin letters, as the collator orders them.

ghost use Rattle.std.specs.Prelude.{◌≡◌, ◌⊎◌, ◌<◌, ◌≤◌, ℕ, true, IfOk, IfSome};
ghost use Rattle.std.specs.Option.{ForSome};
ghost use Rattle.icu_collator.specs.Collators.{collation_borrowed};
ghost use Rattle.icu_table_provider.specs.CollatorTables.{reorder};
ghost use Rattle.icu_order_texts.specs.Forms.{last_variable_by};
ghost use Rattle.icu_order_texts.specs.weighting.Collations.{Collation};
ghost use Rattle.icu_search.specs.inner.FirstWeights.{AreApart, RiseTo, IsComparedAsLess, is_lone, low};

use crate::first_weights::{KnownVariables, low};
use crate::pattern_weights::{first_primaries, only_primary, weight_count};
use icu_collator::CollatorBorrowed;
use std::alloc::{AllocError, Global};
use std::cmp::Ordering;

/// Latin letters in the order of most languages, each twice, with the letter that follows it.
const LETTERS: [(&str, &str); 25] = [
    ("aa", "b"),
    ("bb", "c"),
    ("cc", "d"),
    ("dd", "e"),
    ("ee", "f"),
    ("ff", "g"),
    ("gg", "h"),
    ("hh", "i"),
    ("ii", "j"),
    ("jj", "k"),
    ("kk", "l"),
    ("ll", "m"),
    ("mm", "n"),
    ("nn", "o"),
    ("oo", "p"),
    ("pp", "q"),
    ("qq", "r"),
    ("rr", "s"),
    ("ss", "t"),
    ("tt", "u"),
    ("uu", "v"),
    ("vv", "w"),
    ("ww", "x"),
    ("xx", "y"),
    ("yy", "z"),
];

/// Whether a primary weight has one byte, and there is a mark for it.
#[inline(always)]
fn is_lone(marks: &[bool; 256], primary: u32) -> bool
    ensures { result ≡ is_lone marks.now primary }
{
    low(primary) == 0 && marks[(primary / 0x100_0000) as usize]
}

/// Whether two primary weights are surely compared as different ones: their lower bytes differ, which no reordering
/// changes, or they have one byte, and it is kept apart. False says nothing.
#[inline(always)]
pub(crate) fn differ(marks: &[bool; 256], one: u32, other: u32) -> bool
    ensures { (c : Collation) → AreApart c marks.now → result ≡ true
        → (reorder c.tables one ≡ reorder c.tables other → ⊥) }
{
    if low(one) != low(other) {
        return true;
    }
    one != other && is_lone(marks, one) && is_lone(marks, other)
}

/// Makes the mark of a primary weight of one byte.
fn mark(marks: &mut [bool; 256], primary: u32)
    requires { low primary ≡ 0 }
    ensures { (p : ℕ) → is_lone marks.new p ≡ true
        → (p ≡ primary) ⊎ (is_lone marks.old p ≡ true) }
{
    marks[(primary / 0x100_0000) as usize] = true;
}

/// The first primary weight of a text, and that of another one, if the first one is surely compared as less: the first
/// text has two weights and the other one has one, and the first text comes first.
fn rising(
    alloc: Global,
    collator: &CollatorBorrowed<'_>,
    known: KnownVariables,
    longer: &str,
    letter: &str,
) -> Result<Option<(u32, u32)>, AllocError>
    requires sure { ForSome known.sure
        (λ p. last_variable_by (collation_borrowed collator.now) < p) }
    requires variable { known.variable ≤ last_variable_by (collation_borrowed collator.now) }
    ensures { IfOk result (λ o. IfSome o (IsComparedAsLess (collation_borrowed collator.now))) }
{
    let count = weight_count(collator, letter)?;
    let below = first_primaries(alloc, collator, longer, known)?;
    let above = first_primaries(alloc, collator, letter, known)?;
    if count != 1 || below.len() != 2 || above.len() != 1 {
        return Ok(None);
    }
    match collator.order(longer, letter) {
        Ordering::Less => Ok(Some((below[0], above[0]))),
        Ordering::Equal | Ordering::Greater => Ok(None),
    }
}

/// Makes the mark of a weight that is compared as greater than the last one that has a mark, and returns the last one.
fn extended(marks: &mut [bool; 256], last: u32, pair: Option<(u32, u32)>) -> u32
    ensures { (c : Collation) → RiseTo c marks.old last → IfSome pair (IsComparedAsLess c)
        → RiseTo c marks.new result }
{
    let Some((below, above)) = pair else {
        return last;
    };
    if below != last || low(above) != 0 {
        return last;
    }
    mark(marks, above);
    above
}

/// Whether one of some primary weights has one byte.
fn has_lone(primaries: &[u32]) -> bool {
    primaries.iter().any(|p| low(*p) == 0)
}

/// The primary weight of the first letter, if it has one byte, and one of these weights has.
fn first_letter(
    collator: &CollatorBorrowed<'_>,
    primaries: &[u32],
) -> Result<Option<u32>, AllocError>
    ensures { IfOk result (λ o. IfSome o (λ p. low p ≡ 0)) }
{
    if !has_lone(primaries) {
        return Ok(None);
    }
    let Some(first) = only_primary(collator, "a")? else {
        return Ok(None);
    };
    if low(first) != 0 {
        return Ok(None);
    }
    Ok(Some(first))
}

/// Marks of the lead bytes of letters that rise, from this weight of the first one on.
fn marks_from(
    alloc: Global,
    collator: &CollatorBorrowed<'_>,
    known: KnownVariables,
    first: u32,
) -> Result<[bool; 256], AllocError>
    requires sure { ForSome known.sure
        (λ p. last_variable_by (collation_borrowed collator.now) < p) }
    requires variable { known.variable ≤ last_variable_by (collation_borrowed collator.now) }
    requires one_byte { low first ≡ 0 }
    ensures { IfOk result (AreApart (collation_borrowed collator.now)) }
{
    let mut marks = [false; 256];
    mark(&mut marks, first);
    let mut last = first;
    for pair in LETTERS {
        let rises = rising(alloc, collator, known, pair.0, pair.1)?;
        last = extended(&mut marks, last, rises);
    }
    Ok(marks)
}

/// Marks of lead bytes that are kept apart: all of them where there is no reordering, and else those of letters, where
/// one of these weights has one byte. No marks say nothing.
pub(crate) fn apart_leads(
    alloc: Global,
    collator: &CollatorBorrowed<'_>,
    known: KnownVariables,
    primaries: &[u32],
) -> Result<[bool; 256], AllocError>
    requires sure { ForSome known.sure
        (λ p. last_variable_by (collation_borrowed collator.now) < p) }
    requires variable { known.variable ≤ last_variable_by (collation_borrowed collator.now) }
    ensures { IfOk result (AreApart (collation_borrowed collator.now)) }
{
    if collator.checked_tables().reordering().is_none() {
        return Ok([true; 256]);
    }
    match first_letter(collator, primaries)? {
        Some(first) => {
            let marks = marks_from(alloc, collator, known, first)?;
            Ok(marks)
        }
        None => Ok([false; 256]),
    }
}
