//! Letters composed with a mark that contractions join, before marks of lower classes.

ghost use Rattle.std.specs.Prelude.{◌≢◌, ◌∷◌, [], ℕ, List, IsTrue};
ghost use Rattle.icu_table_entries.specs.Elements.{Element};
ghost use Rattle.icu_table_data.specs.Contexts.{has_ascending_mappings};
ghost use Rattle.icu_table_data.specs.StoredData.{found_context};
ghost use Rattle.icu_element_cursor.specs.Cursors.{cursor_reading};
ghost use Rattle.icu_element_cursor.specs.inner.Composed.{AreLowerMarksBefore};
ghost use Rattle.icu_element_cursor.specs.inner.Standing.{StandsBefore};
ghost use Rattle.icu_element_cursor.specs.inner.Unjoined.{IsHead};

use crate::cursor_tables::CursorTables;
use crate::unjoined::{Follower, begins_none, kept_follower};
use icu_element_facts::composed_of;
use icu_table_data::FoundContext;
use icu_text_encodings::EncodedText;
use unicode_normalization::char::canonical_combining_class;

/// How many marks are looked at behind a composed letter, at most.
const MARKS_AHEAD: u32 = 7;

/// Whether the marks that a text begins with have classes that rise from the first one and are below the second, no
/// mapping of a context begins with one of them, and the text may be cut after them. False says nothing.
pub(crate) fn are_below<T: EncodedText>(
    tables: &CursorTables<'_>,
    context: FoundContext<'_>,
    class: u8,
    least: u8,
    text: T,
) -> bool
    requires { IsTrue (has_ascending_mappings (found_context context)) }
    ensures { IsTrue result → AreLowerMarksBefore (cursor_reading tables.now)
        (found_context context.entry) class least (T.text text) }
{
    let mut last = least;
    let mut rest = text;
    'marks: for _ in 0..MARKS_AHEAD {
        let Some((c, after)) = rest.split_first_char() else {
            return true;
        };
        let (d, k) = match kept_follower(tables, c) {
            Follower::Boundary => return true,
            Follower::Head(d, k) => (d, k),
            Follower::Other => return false,
        };
        if k == 0 {
            return false;
        }
        if k < last {
            return false;
        }
        if k >= class {
            return false;
        }
        if !begins_none(context, d) {
            return false;
        }
        last = k;
        rest = after;
    }
    false
}

/// Whether a composed letter gives before marks what it gives at the end of a text, since they are of lower classes,
/// and none of them is joined. The first decomposes to this one of this class, which isn't 0. False says nothing.
#[inline(never)]
pub(crate) fn stands_composed<T: EncodedText>(
    tables: &CursorTables<'_>,
    c: char,
    head: (char, u8),
    rest: T,
) -> bool
    ensures { IsTrue result → (x : ℕ) → IsHead x head.0 head.1 → head.1 ≢ 0 → (es : List Element)
        → StandsBefore (cursor_reading tables.now) c es []
        → StandsBefore (cursor_reading tables.now) c es (x ∷ T.text rest) }
{
    if tables.reading().numeric_primary.is_some() {
        return false;
    }
    let Some((context, mark)) = composed_of(tables.places(), c) else {
        return false;
    };
    let class = canonical_combining_class(mark);
    if head.1 >= class {
        return false;
    }
    if !begins_none(context, head.0) {
        return false;
    }
    are_below(tables, context, class, head.1, rest)
}
