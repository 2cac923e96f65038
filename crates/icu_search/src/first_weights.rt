//! What the first primary weights of a text tell, before it is compared with a pattern.

ghost use Rattle.std.specs.Prelude.{◌≡◌, ◌<◌, ◌≤◌, ℕ, true, IfOk, IfSome};
ghost use Rattle.std.specs.Option.{ForSome};
ghost use Rattle.icu_collator.specs.Collators.{collation_borrowed};
ghost use Rattle.icu_order_texts.specs.Forms.{last_variable_by};
ghost use Rattle.icu_search.specs.inner.FirstWeights.{AreApart, BeginsOtherwise, BeginsWith, counted_primaries, counts, low};

use crate::apart_leads::differ;
use icu_collator::CollatorBorrowed;
use icu_element_cursor::FactsCursor;
use icu_element_reading::CollationElement;
use icu_table_entries::element::MERGE_SEPARATOR_PRIMARY;
use icu_text_encodings::CharsText;
use std::alloc::{AllocError, Global};

/// By which primary weights elements are surely variable, or surely aren't.
#[derive(Clone, Copy)]
pub(crate) struct KnownVariables {
    /// No element with a primary weight from this one on is variable, if it is known.
    pub(crate) sure: Option<u32>,
    /// Each element with a primary weight above the merge separator's and up to this one is variable, or 0.
    pub(crate) variable: u32,
}

impl KnownVariables {
    /// Whether a primary weight counts, if that is known.
    #[inline(always)]
    pub(crate) fn counts(self, primary: u32) -> Option<bool>
        ensures { (last : ℕ) → ForSome self.sure (λ p. last < p) → self.variable ≤ last
            → IfSome result (λ b. b ≡ counts last primary) }
    {
        if primary == 0 {
            return Some(false);
        }
        if primary > MERGE_SEPARATOR_PRIMARY && primary <= self.variable {
            return Some(false);
        }
        match self.sure {
            Some(least) if primary >= least => Some(true),
            _ => None,
        }
    }
}

/// What of a primary weight no reordering changes.
#[inline(always)]
pub(crate) fn low(primary: u32) -> u32
    ensures { result ≡ low primary }
{
    primary % 0x100_0000
}

/// The primary weights of elements that count, as far as that is known of each.
pub(crate) fn known_primaries(
    alloc: Global,
    known: KnownVariables,
    elements: &[CollationElement],
) -> Result<Vec<u32>, AllocError>
    ensures { (last : ℕ) → ForSome known.sure (λ p. last < p) → known.variable ≤ last
        → IfOk result (λ v. BeginsWith v.items (counted_primaries last elements.now)) }
{
    let mut primaries = Vec::new(alloc);
    for element in elements {
        let Some(counts) = known.counts(element.primary()) else {
            return Ok(primaries);
        };
        if counts {
            primaries.push(element.primary())?;
        }
    }
    Ok(primaries)
}

/// Whether no part with which a text begins may have primary weights that begin with these: so many elements of the
/// text are looked at. It may have none where this returns false.
pub(crate) fn rules_out(
    collator: &CollatorBorrowed<'_>,
    known: KnownVariables,
    primaries: &[u32],
    apart: &[bool; 256],
    text: &[char],
    most: usize,
) -> bool
    requires sure { ForSome known.sure
        (λ p. last_variable_by (collation_borrowed collator.now) < p) }
    requires variable { known.variable ≤ last_variable_by (collation_borrowed collator.now) }
    requires apart { AreApart (collation_borrowed collator.now) apart.now }
    ensures { result ≡ true → BeginsOtherwise (collation_borrowed collator.now) text.now
        primaries.now }
{
    let mut met = 0;
    let tables = collator.cursor_tables();
    let mut cursor = FactsCursor::new(&tables, CharsText(text));
    for _ in 0..most {
        if met == primaries.len() {
            return false;
        }
        let Some(next) = cursor.next_or_end() else {
            return false;
        };
        let Some(element) = next else {
            return true;
        };
        let Some(counts) = known.counts(element.primary()) else {
            return false;
        };
        if counts {
            if differ(apart, element.primary(), primaries[met]) {
                return true;
            }
            met += 1;
        }
    }
    false
}
