//! Characters that begin contractions, where none of these goes on.

ghost use Rattle.std.specs.Prelude.{◌≡◌, ◌%◌, [], List, IsTrue};
ghost use Rattle.std.specs.Int.{bit_at};
ghost use Rattle.icu_table_data.specs.Contexts.{has_ascending_mappings};
ghost use Rattle.icu_table_data.specs.StoredData.{found_context};
ghost use Rattle.icu_table_entries.specs.Elements.{Element};
ghost use Rattle.icu_element_cursor.specs.Cursors.{cursor_reading};
ghost use Rattle.icu_element_cursor.specs.inner.Standing.{StandsBefore};
ghost use Rattle.icu_element_reading.specs.TextElements.{Reading};
ghost use Rattle.icu_element_facts.specs.Followers.{HasNoBit};
ghost use Rattle.icu_element_cursor.specs.inner.Unjoined.{BeginsNone, IsFollower, IsUnjoinedBefore};

use crate::composed::stands_composed;
use crate::cursor_tables::CursorTables;
use crate::pairs::is_unjoined_by_pair;
use crate::{CharFacts, FactsKind, Kept};
use icu_element_facts::plain_contractions_of;
use icu_element_matches::{find_longest, mapping_goes_on};
use icu_element_reading::mapping_heads::none_begins_with;
use icu_table_data::FoundContext;
use icu_text_encodings::EncodedText;
use unicode_normalization::Form;
use unicode_normalization::char::{canonical_combining_class, decomposition};

/// How many characters are looked at behind one that begins contractions, at most.
const CHARS_AHEAD: u32 = 7;

/// Whether no mapping of a context begins with a character, by what a bisection finds.
#[inline(never)]
fn finds_none(context: FoundContext<'_>, d: char) -> bool
    requires { IsTrue (has_ascending_mappings (found_context context)) }
    ensures { IsTrue result → BeginsNone (found_context context.entry) d }
{
    let text = [d];
    match find_longest(context, &text) {
        Some(_) => false,
        None => !mapping_goes_on(context, &text),
    }
}

/// Whether no mapping of a context begins with a character. Mostly the first and the last one say so.
#[inline(always)]
pub(crate) fn begins_none(context: FoundContext<'_>, d: char) -> bool
    requires { IsTrue (has_ascending_mappings (found_context context)) }
    ensures { IsTrue result → BeginsNone (found_context context.entry) d }
{
    none_begins_with(context, d) || finds_none(context, d)
}

/// A character that follows one that begins contractions.
#[derive(Clone, Copy)]
pub(crate) enum Follower {
    /// One before which the text may be cut.
    Boundary,
    /// One that decomposes to this character of this class alone, or to this starter and others.
    Head(char, u8),
    /// Any other.
    Other,
}

/// What a character is that follows one that begins contractions, by its decomposition.
#[inline(never)]
fn decomposed_follower(c: char) -> Follower
    ensures { (reading : Reading) → IsFollower reading c result }
{
    let mut room = [c; 3];
    match decomposition(c, Form::Nfd, &mut room) {
        [first] => Follower::Head(*first, canonical_combining_class(*first)),
        [first, ..] if canonical_combining_class(*first) == 0 => Follower::Head(*first, 0),
        _ => Follower::Other,
    }
}

/// What a character is that follows one that begins contractions, by what is kept of it.
#[inline(always)]
pub(crate) fn kept_follower(tables: &CursorTables<'_>, c: char) -> Follower
    ensures { IsFollower (cursor_reading tables.now) c result }
{
    match tables.kept(c) {
        Kept::Own => Follower::Boundary,
        Kept::Facts(facts) if facts.has_boundary_before => Follower::Boundary,
        Kept::Facts(facts) if facts.kind == FactsKind::Mark => Follower::Head(c, facts.class),
        Kept::Facts(_) => Follower::Other,
        Kept::Nothing => unkept_follower(tables, c),
    }
}

/// What a character is of which nothing is kept.
#[inline(never)]
fn unkept_follower(tables: &CursorTables<'_>, c: char) -> Follower
    ensures { IsFollower (cursor_reading tables.now) c result }
{
    if tables.has_boundary_before(c) {
        Follower::Boundary
    } else {
        Follower::Other
    }
}

/// What a character is that follows one that begins contractions.
#[inline(always)]
fn read_follower(tables: &CursorTables<'_>, c: char) -> Follower
    ensures { IsFollower (cursor_reading tables.now) c result }
{
    match kept_follower(tables, c) {
        Follower::Other => decomposed_follower(c),
        known => known,
    }
}

/// Whether the classes of the marks that a text begins with rise from this one, no mapping of a context begins with one
/// of them, and either the text may be cut after them or no mapping begins with the starter there. False says nothing.
fn joins_none<T: EncodedText>(
    tables: &CursorTables<'_>,
    context: FoundContext<'_>,
    least: u8,
    text: T,
) -> bool
    requires { IsTrue (has_ascending_mappings (found_context context)) }
    ensures { IsTrue result → IsUnjoinedBefore (cursor_reading tables.now)
        (BeginsNone (found_context context.entry)) least (T.text text) }
{
    let mut last = least;
    let mut rest = text;
    'marks: for _ in 0..CHARS_AHEAD {
        let Some((c, after)) = rest.split_first_char() else {
            return true;
        };
        let (d, class) = match read_follower(tables, c) {
            Follower::Boundary => return true,
            Follower::Head(d, class) => (d, class),
            Follower::Other => return false,
        };
        if !begins_none(context, d) {
            return false;
        }
        if class == 0 {
            return true;
        }
        if class < last {
            return false;
        }
        last = class;
        rest = after;
    }
    false
}

/// Whether a character that begins contractions gives before a text what it gives at the end of one, since no mapping
/// goes on with the text. False says nothing.
#[inline(never)]
pub(crate) fn is_unjoined<T: EncodedText>(tables: &CursorTables<'_>, c: char, text: T) -> bool
    ensures { IsTrue result → (es : List Element)
        → StandsBefore (cursor_reading tables.now) c es []
        → StandsBefore (cursor_reading tables.now) c es (T.text text) }
{
    if tables.reading().numeric_primary.is_some() {
        return false;
    }
    if is_unjoined_by_pair(tables, c, text) {
        return true;
    }
    match plain_contractions_of(tables.places(), c) {
        Some(context) => joins_none(tables, context, 0, text),
        None => is_unjoined_composed(tables, c, text),
    }
}

/// Whether a composed letter gives before a text what it gives at the end of one, as `is_unjoined` has it. False says
/// nothing.
fn is_unjoined_composed<T: EncodedText>(tables: &CursorTables<'_>, c: char, text: T) -> bool
    ensures { IsTrue result → (es : List Element)
        → StandsBefore (cursor_reading tables.now) c es []
        → StandsBefore (cursor_reading tables.now) c es (T.text text) }
{
    let Some((x, rest)) = text.split_first_char() else {
        return true;
    };
    match kept_follower(tables, x) {
        Follower::Head(d, class) if class != 0 => stands_composed(tables, c, (d, class), rest),
        _ => false,
    }
}

/// Whether a character has none of these bits, as its facts say.
#[inline(always)]
fn has_no_bit(bits: u64, next: &CharFacts) -> bool
    ensures { IsTrue result → bit_at bits (next.now.head % 64) ≡ 0 }
{
    (bits >> (next.head % 64)) & 1 == 0
}

/// Whether a text goes on nothing that the character with these facts begins, by what is kept of the text's first
/// character and of the marks behind it. False says nothing.
#[inline(always)]
pub(crate) fn goes_on_none<T: EncodedText>(
    tables: &CursorTables<'_>,
    facts: &CharFacts,
    text: T,
) -> bool
    ensures { IsTrue result → IsUnjoinedBefore (cursor_reading tables.now)
        (HasNoBit facts.now.followers) facts.now.class (T.text text) }
{
    go_on_none(tables, facts.followers, facts.class, text)
}

/// Whether the characters that a text begins with have none of these bits: its first one, and if that is a mark, all
/// marks of the run, whose classes rise from this one, and the starter behind it. False says nothing.
#[inline(always)]
pub(crate) fn go_on_none<T: EncodedText>(
    tables: &CursorTables<'_>,
    bits: u64,
    class: u8,
    text: T,
) -> bool
    ensures { IsTrue result → IsUnjoinedBefore (cursor_reading tables.now) (HasNoBit bits) class
        (T.text text) }
{
    let Some((x, _)) = text.split_first_char() else {
        return true;
    };
    match tables.kept(x) {
        Kept::Own => true,
        Kept::Facts(next) => {
            next.has_boundary_before
                || (has_no_bit(bits, next)
                    && (next.begins_with_starter || marks_go_on_none(tables, bits, class, text)))
        }
        Kept::Nothing => tables.has_boundary_before(x),
    }
}

/// Whether the marks that a text begins with, and the character after them, have none of these bits, and the classes of
/// the marks rise from this one. False says nothing.
#[inline(never)]
fn marks_go_on_none<T: EncodedText>(
    tables: &CursorTables<'_>,
    bits: u64,
    class: u8,
    text: T,
) -> bool
    ensures { IsTrue result → IsUnjoinedBefore (cursor_reading tables.now) (HasNoBit bits) class
        (T.text text) }
{
    let mut last = class;
    let mut rest = text;
    'marks: for _ in 0..CHARS_AHEAD {
        let Some((c, after)) = rest.split_first_char() else {
            return true;
        };
        let Some(next) = tables.facts(c) else {
            return tables.has_boundary_before(c);
        };
        if next.has_boundary_before {
            return true;
        }
        if !has_no_bit(bits, next) {
            return false;
        }
        if next.begins_with_starter {
            return true;
        }
        if next.kind != FactsKind::Mark || next.class == 0 || next.class < last {
            return false;
        }
        last = next.class;
        rest = after;
    }
    false
}
