//! Characters that give nothing below the quaternary level: no least match begins with one.

ghost use Rattle.std.specs.Prelude.{◌≡◌, ◌&&◌, ◌||◌, ◌==◌, ◌∷◌, ◌++◌, [], List, ℕ, None, option_to_list, IfSome, IsTrue};
ghost use Rattle.icu_element_cursor.specs.Cursors.{cursor_gives};
ghost use Rattle.icu_collator.specs.Collators.{collation_borrowed};
ghost use Rattle.icu_element_reading.specs.TextElements.{elements_of};
ghost use Rattle.icu_search.specs.inner.SilentStarts.{EndsAtTertiaries, PassesNone, is_weightless};
ghost use Rattle.icu_order_texts.specs.Forms.{form_by, last_variable_by};
ghost use Rattle.icu_order_texts.specs.TextOrder.{reading_by};
ghost use Rattle.icu_search.specs.inner.SilentTexts.{GivesNone, HasFirstElement, IsSilentAlone, StartsSilently};
ghost use Rattle.icu_order_texts.specs.weighting.Handled.{is_variable};
ghost use Rattle.unicode_normalization.specs.Forms.{nfd};

use icu_collator::CollatorBorrowed;
use icu_collator::options::Strength;
use icu_element_cursor::{ElementCursor, FactsCursor};
use icu_element_reading::CollationElement;
use icu_table_entries::element::MERGE_SEPARATOR_PRIMARY;
use icu_text_encodings::CharsText;

/// Whether no level counts from the quaternary one on.
pub(crate) fn ends_at_tertiaries(collator: &CollatorBorrowed<'_>) -> bool
    ensures { IsTrue result → EndsAtTertiaries (form_by (collation_borrowed collator.now)) }
{
    match collator.resolved_options().strength {
        Strength::Primary | Strength::Secondary | Strength::Tertiary => true,
        Strength::Quaternary | Strength::Identical => false,
    }
}

/// The element of a text that has one, if facts tell.
fn only_element(collator: &CollatorBorrowed<'_>, text: &[char]) -> Option<CollationElement>
    ensures { IfSome result (λ e. elements_of (reading_by (collation_borrowed collator.now))
        (nfd text.now) ≡ e ∷ []) }
{
    let tables = collator.cursor_tables();
    let mut cursor = FactsCursor::new(&tables, CharsText(text));
    let first = cursor.next_or_end()?;
    let element = first?;
    let second = cursor.next_or_end()?;
    match second {
        None => Some(element),
        Some(_) => None,
    }
}

/// The next element that a cursor gives, or `Some(None)` after the last one. `None` says nothing.
fn next_or_end(
    cursor: &mut ElementCursor<'_, '_, CharsText<'_>>,
) -> Option<Option<CollationElement>>
    ensures next { IfSome result (λ next. cursor_gives (λ t. t.0.now) cursor.old
        ≡ option_to_list next ++ cursor_gives (λ t. t.0.now) cursor.new) }
    ensures end { IfSome result (λ next. next ≡ None
        → cursor_gives (λ t. t.0.now) cursor.old ≡ []) }
{
    match cursor.next() {
        Ok(next) => Some(next),
        Err(_) => None,
    }
}

/// The element with which those of a text begin. `None` says nothing.
pub(crate) fn first_element(
    collator: &CollatorBorrowed<'_>,
    text: &[char],
) -> Option<CollationElement>
    ensures { IfSome result (λ e. HasFirstElement
        (reading_by (collation_borrowed collator.now)) text.now e) }
{
    let tables = collator.cursor_tables();
    let mut cursor = ElementCursor::new(&tables, CharsText(text));
    let next = next_or_end(&mut cursor)?;
    next
}

/// Whether an element has no weights.
fn is_weightless(element: CollationElement) -> bool
    ensures { result ≡ is_weightless element }
{
    element.primary() == 0 && element.secondary() == 0 && element.lower() == 0
}

/// Whether an element is variable, where this is the last variable weight.
fn is_variable(element: CollationElement, last: u32) -> bool
    ensures { result ≡ is_variable last element }
{
    element.primary() > MERGE_SEPARATOR_PRIMARY && element.primary() <= last
}

/// Whether a character by itself gives nothing below the quaternary level before a primary weight. False says nothing.
pub(crate) fn is_silent_alone(collator: &CollatorBorrowed<'_>, c: char) -> bool
    ensures { IsTrue result → IsSilentAlone (collation_borrowed collator.now) c }
{
    match only_element(collator, &[c]) {
        Some(element) => {
            is_weightless(element) || is_variable(element, collator.last_variable())
        }
        None => false,
    }
}

/// So many elements of a text are looked at, whether they give nothing.
const MOST: usize = 2048;

/// Whether an element that isn't variable gives nothing below the quaternary level, where a variable one came last or
/// none did.
fn vanishes(element: CollationElement, after: bool) -> bool
    ensures { result ≡ (is_weightless element || (after && element.primary == 0)) }
{
    is_weightless(element) || (after && element.primary() == 0)
}

/// Whether a variable element came last behind an element that gives nothing below the quaternary level, where one came
/// last before it or none did. `None` if the element gives something.
fn passed(element: CollationElement, last: u32, after: bool) -> Option<bool>
    ensures { IfSome result (PassesNone last after element) }
{
    if is_variable(element, last) {
        return Some(true);
    }
    if vanishes(element, after) {
        return Some(after);
    }
    None
}

/// Whether a variable element is among those of a text, if none of them gives anything below the quaternary level.
/// `None` says nothing.
fn gives_none(collator: &CollatorBorrowed<'_>, text: &[char]) -> Option<bool>
    ensures { IfSome result (GivesNone (collation_borrowed collator.now) text.now) }
{
    let last = collator.last_variable();
    let tables = collator.cursor_tables();
    let mut cursor = ElementCursor::new(&tables, CharsText(text));
    let mut after = false;
    for _ in 0..MOST {
        let next = next_or_end(&mut cursor)?;
        let Some(element) = next else {
            return Some(after);
        };
        let Some(now) = passed(element, last, after) else {
            return None;
        };
        after = now;
    }
    None
}

/// Whether a text has a variable element, and gives nothing below the quaternary level. False says nothing.
pub(crate) fn is_shifted(collator: &CollatorBorrowed<'_>, text: &[char]) -> bool {
    match gives_none(collator, text) {
        Some(varies) => varies,
        None => false,
    }
}

/// Whether a text gives nothing below the quaternary level before another one. False says nothing.
pub(crate) fn starts_silently(
    collator: &CollatorBorrowed<'_>,
    first: &[char],
    rest: &[char],
) -> bool
    ensures { IsTrue result → StartsSilently (collation_borrowed collator.now) first.now rest.now }
{
    let Some(after) = gives_none(collator, first) else {
        return false;
    };
    if !after {
        return true;
    }
    match first_element(collator, rest) {
        Some(next) => next.primary() != 0,
        None => false,
    }
}
