//! What is known of the primary weights of a text, before it is compared.

ghost use Rattle.std.specs.Prelude.{◌≡◌, ◌<◌, ◌≤◌, chars, length, IfOk, IfSome};
ghost use Rattle.std.specs.Option.{ForSome};
ghost use Rattle.icu_collator.specs.Collators.{collation_borrowed};
ghost use Rattle.icu_element_reading.specs.Reading.{reading_of};
ghost use Rattle.icu_order_texts.specs.TextOrder.{reading_by, lists_by};
ghost use Rattle.icu_order_texts.specs.Forms.{last_variable_by};
ghost use Rattle.unicode_normalization.specs.Forms.{nfd};
ghost use Rattle.icu_search.specs.inner.FirstWeights.{BeginsWith, counted_primaries, counts};
ghost use Rattle.icu_search.specs.inner.OnePrimaries.{HasOnePrimary};

use crate::first_weights::{KnownVariables, known_primaries};
use icu_collator::CollatorBorrowed;
use icu_element_cursor::FactsCursor;
use icu_element_reading::{CollationElement, TextReading, all_elements};
use icu_table_entries::element::MERGE_SEPARATOR_PRIMARY;
use icu_text_encodings::CharsText;
use std::alloc::{AllocError, Global};

/// Whether a primary weight counts, where the last variable one is this: it is there, and elements that have it aren't
/// variable.
fn counts(last: u32, primary: u32) -> bool
    ensures { result ≡ counts last primary }
{
    primary != 0 && !(primary > MERGE_SEPARATOR_PRIMARY && primary <= last)
}

/// How many primary weights of these elements count, where the last variable one is this.
fn counted(elements: &[CollationElement], last: u32) -> usize
    ensures { result ≡ length (counted_primaries last elements.now) }
{
    let mut count = 0;
    for element in elements {
        if counts(last, element.primary()) {
            count += 1;
        }
    }
    count
}

/// So many elements of a character are looked at.
const MOST: usize = 8;

/// How many primary weights of a text count, if facts tell of its characters, and it has few elements. `None` says
/// nothing.
pub(crate) fn known_count(collator: &CollatorBorrowed<'_>, text: &[char]) -> Option<usize>
    ensures { IfSome result (λ n. n ≡ length (lists_by (collation_borrowed collator.now)
        (nfd text.now)).primaries) }
{
    let last = collator.last_variable();
    let mut met = 0;
    let tables = collator.cursor_tables();
    let mut cursor = FactsCursor::new(&tables, CharsText(text));
    for _ in 0..MOST {
        let next = cursor.next_or_end()?;
        let Some(element) = next else {
            return Some(met);
        };
        if counts(last, element.primary()) {
            met += 1;
        }
    }
    None
}

/// How a collator reads texts.
pub(crate) fn reading_of_collator<'c>(collator: &CollatorBorrowed<'c>) -> TextReading<'c>
    ensures { reading_of result ≡ reading_by (collation_borrowed collator.now) }
{
    collator.cursor_tables().places().reading()
}

/// How many primary weights of a text count.
pub(crate) fn weight_count(collator: &CollatorBorrowed<'_>, text: &str) -> Result<usize, AllocError>
    ensures { IfOk result (λ n. n ≡ length (lists_by (collation_borrowed collator.now)
        (nfd (chars text.now))).primaries) }
{
    let elements = all_elements(reading_of_collator(collator), text.chars())?;
    Ok(counted(elements.as_slice(), collator.last_variable()))
}

/// The primary weight of a text that has one element.
pub(crate) fn only_primary(
    collator: &CollatorBorrowed<'_>,
    text: &str,
) -> Result<Option<u32>, AllocError>
    ensures { let reading = reading_by (collation_borrowed collator.now) in
        IfOk result (λ o. IfSome o (HasOnePrimary reading (chars text.now))) }
{
    let elements = all_elements(reading_of_collator(collator), text.chars())?;
    match elements.as_slice() {
        [only] => Ok(Some(only.primary())),
        _ => Ok(None),
    }
}

/// The primary weight from which on none is that of a variable element, if there is one.
pub(crate) fn first_sure(collator: &CollatorBorrowed<'_>) -> Option<u32>
    ensures { IfSome result (λ p. last_variable_by (collation_borrowed collator.now) < p) }
{
    collator.last_variable().checked_add(1)
}

/// The primary weights with which those of a pattern begin, as far as it is known which of them count.
pub(crate) fn first_primaries(
    alloc: Global,
    collator: &CollatorBorrowed<'_>,
    pattern: &str,
    known: KnownVariables,
) -> Result<Vec<u32>, AllocError>
    requires sure { ForSome known.sure
        (λ p. last_variable_by (collation_borrowed collator.now) < p) }
    requires variable { known.variable ≤ last_variable_by (collation_borrowed collator.now) }
    ensures { IfOk result (λ v. BeginsWith v.items (lists_by (collation_borrowed collator.now)
        (nfd (chars pattern.now))).primaries) }
{
    let elements = all_elements(reading_of_collator(collator), pattern.chars())?;
    let primaries = known_primaries(alloc, known, elements.as_slice())?;
    Ok(primaries)
}
