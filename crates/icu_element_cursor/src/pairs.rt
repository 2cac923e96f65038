//! Two characters that contractions begin with, before a text that goes on nothing that they begin.

ghost use Rattle.std.specs.Prelude.{◌≡◌, [], ◌∷◌, ℕ, List, IfSome, IsTrue};
ghost use Rattle.icu_table_entries.specs.Elements.{Element};
ghost use Rattle.icu_element_facts.specs.FewElements.{few_elements};
ghost use Rattle.icu_element_cursor.specs.Cursors.{cursor_reading};
ghost use Rattle.icu_element_cursor.specs.inner.Standing.{BothStandBefore, PairServes, StandsBefore};

use crate::cursor_tables::CursorTables;
use crate::unjoined::go_on_none;
use crate::{CharFacts, FactsKind};
use icu_element_facts::KeptPair;
use icu_text_encodings::EncodedText;

/// What is read of a text after its first character: the second one, what is kept of both, and the text after them.
#[derive(Clone, Copy)]
pub(crate) struct ReadPair<'c, T> {
    pub(crate) second: char,
    pub(crate) pair: &'c KeptPair,
    pub(crate) rest: T,
}

/// Whether two characters that a contraction joins give their elements before a text: no mapping goes on with it. False
/// says nothing.
#[inline(always)]
fn are_joined_before<T: EncodedText>(tables: &CursorTables<'_>, pair: &KeptPair, text: T) -> bool
    ensures { (c x : ℕ) → PairServes (cursor_reading tables.now) c x pair.now → IsTrue result
        → BothStandBefore (cursor_reading tables.now) c x (few_elements pair.now.few)
        (T.text text) }
{
    if !pair.joins {
        return false;
    }
    if pair.class == 0 && pair.followers == 0 {
        return true;
    }
    go_on_none(tables, pair.followers, pair.class, text)
}

/// Whether a character that begins contractions gives before a text what it gives at the end of one: mappings begin
/// with the next character, but none is it alone, and none goes on with what follows it. False says nothing.
pub(crate) fn is_unjoined_by_pair<T: EncodedText>(
    tables: &CursorTables<'_>,
    c: char,
    text: T,
) -> bool
    ensures { IsTrue result → (es : List Element)
        → StandsBefore (cursor_reading tables.now) c es []
        → StandsBefore (cursor_reading tables.now) c es (T.text text) }
{
    let Some((x, rest)) = text.split_first_char() else {
        return false;
    };
    match tables.pair(c, x) {
        Some(pair) if !pair.joins => go_on_none(tables, pair.followers, 0, rest),
        _ => false,
    }
}

/// The character that follows one that begins contractions, if a contraction joins the two, and goes on with nothing
/// after them. None says nothing.
#[inline(never)]
pub(crate) fn read_pair<'c, T: EncodedText>(
    tables: &'c CursorTables<'_>,
    c: char,
    text: T,
) -> Option<ReadPair<'c, T>>
    ensures text { IfSome result (λ p. T.text text ≡ p.second ∷ T.text p.rest) }
    ensures stand { IfSome result (λ p. BothStandBefore (cursor_reading tables.now) c p.second
        (few_elements p.pair.now.few) (T.text p.rest)) }
{
    let (second, rest) = text.split_first_char()?;
    let pair = tables.pair(c, second)?;
    if are_joined_before(tables, pair, rest) {
        Some(ReadPair { second, pair, rest })
    } else {
        None
    }
}
