//! Whether a character may be read by itself.

ghost use Rattle.std.specs.Prelude.{◌≡◌, ◌∷◌, ℕ, IfSome, IsTrue};
ghost use Rattle.icu_element_facts.specs.KeptFacts.{char_elements};
ghost use Rattle.icu_element_cursor.specs.Cursors.{cursor_reading};
ghost use Rattle.icu_element_reading.specs.boundaries.Places.{BeginsAtBoundary};
ghost use Rattle.icu_element_cursor.specs.inner.MarkRuns.{Rises};
ghost use Rattle.icu_element_cursor.specs.inner.Standing.{Serves, StandsBefore};

use crate::cursor_tables::CursorTables;
use crate::unjoined::goes_on_none;
use crate::{CharFacts, FactsKind, Kept};
use icu_text_encodings::EncodedText;

/// How many marks of a run are looked at, at most. A longer run is read as a piece, so that no mark is looked at more
/// often than this.
const MARKS_AHEAD: u32 = 6;

/// Whether a run of marks ends before a text: it is empty, or begins with a character whose decomposition begins with a
/// starter. False says nothing.
#[inline(always)]
fn ends_run<T: EncodedText>(tables: &CursorTables<'_>, text: T) -> bool
    ensures { IsTrue result → (class : ℕ) → Rises class (T.text text) }
{
    match text.split_first_char() {
        Some((c, _)) => tables.ends_runs(c),
        None => true,
    }
}

/// Whether the classes of the marks that a text begins with rise from this one, and are few: mostly it begins with
/// none. False says nothing.
#[inline(always)]
fn run_rises<T: EncodedText>(tables: &CursorTables<'_>, class: u8, text: T) -> bool
    ensures { IsTrue result → Rises class (T.text text) }
{
    ends_run(tables, text) || more_marks_rise(tables, class, text)
}

/// Whether the classes of a run of marks rise from this one, as `run_rises` has it, out of line. False says nothing.
#[inline(never)]
fn marks_rise<T: EncodedText>(tables: &CursorTables<'_>, class: u8, text: T) -> bool
    ensures { IsTrue result → Rises class (T.text text) }
{
    run_rises(tables, class, text)
}

/// Whether the classes of the marks that a text begins with rise from this one, and are few. False says
/// nothing.
#[inline(never)]
fn more_marks_rise<T: EncodedText>(tables: &CursorTables<'_>, class: u8, text: T) -> bool
    ensures { IsTrue result → Rises class (T.text text) }
{
    let mut last = class;
    let mut rest = text;
    'marks: for _ in 0..MARKS_AHEAD {
        let Some((c, after)) = rest.split_first_char() else {
            return true;
        };
        let Some(next) = tables.class_in_run(c) else {
            return false;
        };
        if next == 0 {
            return true;
        }
        if next < last {
            return false;
        }
        last = next;
        rest = after;
    }
    false
}

/// Whether the marks that a text begins with rise from this class, and are few: at once where it begins with an ASCII
/// character, which is no mark. False says nothing.
#[inline(always)]
fn rises<T: EncodedText>(tables: &CursorTables<'_>, class: u8, text: T) -> bool
    ensures { IsTrue result → Rises class (T.text text) }
{
    match text.split_first_ascii() {
        Some(_) => true,
        None => marks_rise(tables, class, text),
    }
}

/// Whether a text ends, or may be cut before its first character. False says nothing.
#[inline(never)]
pub(crate) fn begins_at_boundary<T: EncodedText>(tables: &CursorTables<'_>, text: T) -> bool
    ensures { IsTrue result → BeginsAtBoundary (cursor_reading tables.now) (T.text text) }
{
    match text.split_first_char() {
        Some((c, _)) => tables.has_boundary_before(c),
        None => true,
    }
}

/// Whether a character of one of the kinds that most letters are gives its own elements before a text, and changes
/// nothing of the text's. False says nothing.
#[inline(always)]
pub(crate) fn stands_at_once<T: EncodedText>(
    tables: &CursorTables<'_>,
    facts: &CharFacts,
    text: T,
) -> bool
    ensures { (c : ℕ) → Serves (cursor_reading tables.now) c facts.now
        → IsTrue result → StandsBefore (cursor_reading tables.now) c (char_elements facts.now)
        (T.text text) }
{
    match facts.kind {
        FactsKind::Starters => true,
        FactsKind::Marked => rises(tables, facts.class, text),
        _ => false,
    }
}

/// What may be read with a mark of this class: the character that the text behind it begins with, the facts of that
/// one, and the text behind both. `Some(None)` where the mark may be read by itself, and `None` says nothing.
#[inline(always)]
pub(crate) fn read_behind<'c, T: EncodedText>(
    tables: &'c CursorTables<'_>,
    class: u8,
    text: T,
) -> Option<Option<(char, &'c CharFacts, T)>>
    ensures rises { IfSome result (λ _. Rises class (T.text text)) }
    ensures text { IfSome result (λ found. IfSome found (λ p. T.text text ≡ p.0 ∷ T.text p.2)) }
    ensures stands { IfSome result (λ found. IfSome found (λ p.
        StandsBefore (cursor_reading tables.now) p.0 (char_elements p.1.now) (T.text p.2))) }
{
    let Some((c, after)) = text.split_first_char() else {
        return Some(None);
    };
    match tables.kept(c) {
        Kept::Own => Some(None),
        Kept::Facts(facts) if facts.begins_with_starter => {
            if facts.kind == FactsKind::Starters {
                Some(Some((c, facts, after)))
            } else {
                Some(None)
            }
        }
        Kept::Facts(facts) if facts.kind == FactsKind::Mark && class <= facts.class => {
            if run_rises(tables, facts.class, after) {
                Some(Some((c, facts, after)))
            } else {
                None
            }
        }
        _ => {
            if more_marks_rise(tables, class, text) {
                Some(None)
            } else {
                None
            }
        }
    }
}

/// Whether a character gives its own elements before a text, and changes nothing of the text's. False says
/// nothing.
#[inline(always)]
pub(crate) fn stands_before<T: EncodedText>(
    tables: &CursorTables<'_>,
    facts: &CharFacts,
    text: T,
) -> bool
    ensures { (c : ℕ) → Serves (cursor_reading tables.now) c facts.now
        → IsTrue result → StandsBefore (cursor_reading tables.now) c (char_elements facts.now)
        (T.text text) }
{
    match facts.kind {
        FactsKind::Unknown => false,
        FactsKind::Starters => true,
        FactsKind::Marked | FactsKind::Mark => rises(tables, facts.class, text),
        FactsKind::Base => goes_on_none(tables, facts, text),
    }
}
