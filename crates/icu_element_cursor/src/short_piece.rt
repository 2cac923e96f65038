//! A short piece of a text, up to the next boundary.

ghost use Rattle.std.specs.Prelude.{◌≡◌, ◌≤◌, ◌∷◌, [], None, IfSome, length};
ghost use Rattle.icu_text_decomposition.specs.short_text.ArrayTexts.{array_unread};
ghost use Rattle.icu_element_reading.specs.steady_elements.SteadyElements.{elements_left};
ghost use Rattle.icu_element_cursor.specs.Cursors.{cursor_reading};
ghost use Rattle.icu_element_cursor.specs.inner.ReadCharacters.{context_read};
ghost use Rattle.icu_element_cursor.specs.inner.Pieces.{IsShortPiece, IsPieceBegun};
ghost use Rattle.icu_element_reading.specs.boundaries.Places.{BeginsAtBoundary};

use crate::cursor_tables::CursorTables;
use crate::last_characters::LastCharacters;
use icu_element_reading::RecentChars;
use icu_element_reading::steady_elements::SteadyElements;
use icu_text_decomposition::short_text::ArrayText;
use icu_text_encodings::EncodedText;

/// How many characters a short piece has at most.
pub(crate) const SHORT: usize = 64;

/// Takes the next character of a text, where the text may not be cut before it.
#[inline]
pub(crate) fn take_inside<T: EncodedText>(tables: &CursorTables<'_>, text: &mut T) -> Option<char>
    ensures char { IfSome result (λ c. T.text text.old ≡ c ∷ T.text text.new) }
    ensures none { result ≡ None → T.text text.new ≡ T.text text.old }
    ensures boundary { result ≡ None
        → BeginsAtBoundary (cursor_reading tables.now) (T.text text.old) }
{
    let (c, after) = text.split_first_char()?;
    if tables.has_boundary_before(c) {
        return None;
    }
    *text = after;
    Some(c)
}

/// Decomposes the piece that a character begins, and returns the text from its end on: it ends before the next
/// character before which the text may be cut. `None` where it has more characters than there is room for.
pub(crate) fn split_piece_of<const ROOM: usize, T: EncodedText>(
    tables: &CursorTables<'_>,
    first: char,
    text: T,
    piece: &mut ArrayText<ROOM>,
) -> Option<T>
    ensures piece { IfSome result (λ rest. IsShortPiece (cursor_reading tables.now)
        (first ∷ T.text text) (array_unread piece.new) (T.text rest)) }
    ensures rest { IfSome result (λ rest. length (T.text rest) ≤ length (T.text text)) }
{
    piece.clear();
    if !piece.push(first) {
        return None;
    }
    let mut rest = text;
    'chars: while let Some(c) = take_inside(tables, &mut rest) {
        if !piece.push(c) {
            return None;
        }
    }
    if !piece.put_in_order() {
        return None;
    }
    Some(rest)
}

/// Begins to read the piece that a character begins, after these characters, and returns the text from its end on.
/// `None` where it has more characters than there is room for: nothing is read then.
pub(crate) fn begin_short<'d, T: EncodedText>(
    tables: &CursorTables<'d>,
    before: LastCharacters,
    first: char,
    text: T,
    piece: &mut SteadyElements<'d, ArrayText<SHORT>>,
) -> Option<T>
    ensures begun { IfSome result (λ rest. IsPieceBegun (cursor_reading tables.now)
        (context_read before) (first ∷ T.text text) (elements_left array_unread piece.new)
        (T.text rest)) }
    ensures rest { IfSome result (λ rest. length (T.text rest) ≤ length (T.text text)) }
    ensures none { result ≡ None → elements_left array_unread piece.new ≡ [] }
{
    match split_piece_of(tables, first, text, &mut piece.place.text) {
        Some(rest) => {
            piece.restart(before.recent(), tables.reading());
            Some(rest)
        }
        None => {
            piece.place.text.clear();
            piece.restart(RecentChars::new(), tables.reading());
            None
        }
    }
}
