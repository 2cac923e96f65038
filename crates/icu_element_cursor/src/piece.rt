//! A piece of a text, up to the next boundary.

ghost use Rattle.std.specs.Prelude.{◌≡◌, ◌<◌, ◌+◌, [], None, IfSome, drop, length};
ghost use Rattle.unicode_normalization.specs.Forms.{nfd};
ghost use Rattle.icu_element_reading.specs.TextElements.{elements_after};
ghost use Rattle.icu_text_decomposition.specs.MatchableTexts.{unread_text};
ghost use Rattle.icu_element_reading.specs.steady_elements.SteadyElements.{elements_left};
ghost use Rattle.icu_element_cursor.specs.Cursors.{cursor_reading};
ghost use Rattle.icu_element_cursor.specs.inner.FirstChars.{first_chars};
ghost use Rattle.icu_element_reading.specs.boundaries.Places.{IsPiece};
ghost use Rattle.icu_element_reading.specs.boundaries.Places.{BeginsAtBoundary};
ghost use Rattle.icu_element_cursor.specs.inner.ReadCharacters.{context_read};

use crate::cursor_tables::CursorTables;
use crate::first_chars::FirstChars;
use crate::last_characters::LastCharacters;
use icu_element_reading::steady_elements::SteadyElements;
use icu_text_decomposition::{CountedText, MatchableText};

/// The text behind the first character of what is left, where the text may not be cut before that.
fn next_inside<T: CountedText>(tables: &CursorTables<'_>, left: T) -> Option<T>
    ensures after { IfSome result (λ after. T.text after ≡ drop 1 (T.text left)) }
    ensures shorter { IfSome result (λ after.
        length (T.text after) + 1 ≡ length (T.text left)) }
    ensures none { result ≡ None → BeginsAtBoundary (cursor_reading tables.now) (T.text left) }
{
    let (c, after) = left.split_first_char()?;
    if tables.has_boundary_before(c) {
        return None;
    }
    Some(after)
}

/// The piece that a text begins with, which ends before the next character before which the text may be cut; and the
/// text from there on. `None` where the text is empty.
pub(crate) fn split_piece<T: CountedText>(
    tables: &CursorTables<'_>,
    text: T,
) -> Option<(FirstChars<T>, T)>
    ensures piece { IfSome result (λ p. IsPiece (cursor_reading tables.now) (T.text text)
        (first_chars T.text p.0) (T.text p.1)) }
    ensures rest { IfSome result (λ p. length (T.text p.1) < length (T.text text)) }
    ensures none { result ≡ None → T.text text ≡ [] }
{
    text.has_countable_length();
    let (_, mut rest) = text.split_first_char()?;
    let mut count = 1usize;
    'chars: while let Some(after) = next_inside(tables, rest) {
        count += 1;
        rest = after;
    }
    Some((FirstChars::new(text, count), rest))
}

/// Reads the elements of a piece that comes after these characters.
pub(crate) fn read_piece<'d, T: CountedText>(
    tables: &CursorTables<'d>,
    before: LastCharacters,
    piece: FirstChars<T>,
) -> SteadyElements<'d, MatchableText<FirstChars<T>>>
    ensures { elements_left (unread_text (first_chars T.text)) result ≡ elements_after
        (cursor_reading tables.now) (context_read before) (nfd (first_chars T.text piece)) }
{
    SteadyElements::after(before.recent(), MatchableText::new(piece), tables.reading())
}
