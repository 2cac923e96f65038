//! A long piece of a text, up to the next boundary: in an array where there is room for it, and else as it stands.

ghost use Rattle.std.specs.Prelude.{◌≡◌, ◌<◌, ◌++◌, [], None, IfSome, length, option_to_list};
ghost use Rattle.icu_text_decomposition.specs.short_text.ArrayTexts.{array_unread};
ghost use Rattle.icu_text_decomposition.specs.MatchableTexts.{unread_text};
ghost use Rattle.icu_element_reading.specs.steady_elements.SteadyElements.{elements_left};
ghost use Rattle.icu_element_cursor.specs.Cursors.{cursor_reading};
ghost use Rattle.icu_element_cursor.specs.SteadyCursors.{piece_gives};
ghost use Rattle.icu_element_cursor.specs.inner.FirstChars.{first_chars};
ghost use Rattle.icu_element_cursor.specs.inner.ReadCharacters.{context_read};
ghost use Rattle.icu_element_cursor.specs.inner.Pieces.{IsPieceBegun};

use crate::cursor_tables::CursorTables;
use crate::first_chars::FirstChars;
use crate::last_characters::LastCharacters;
use crate::piece::{read_piece, split_piece};
use crate::short_piece::split_piece_of;
use icu_element_reading::steady_elements::SteadyElements;
use icu_table_entries::CollationElement;
use icu_text_decomposition::short_text::ArrayText;
use icu_text_decomposition::{CountedText, MatchableText};
use icu_text_encodings::EncodedText;

/// A piece that was begun.
#[derive(Clone, Copy)]
pub(crate) enum BegunPiece<'d, T: Copy>
where
    FirstChars<T>: CountedText,
{
    /// None is left.
    Ended,
    /// Its characters stand in an array.
    Long(SteadyElements<'d, ArrayText<LONG>>),
    /// It is read as it stands in the text, since there are more.
    Steady(SteadyElements<'d, MatchableText<FirstChars<T>>>),
}

/// How many characters stand in an array at most.
const LONG: usize = 1024;

/// Reads the piece that a text begins with after these characters, in an array, and returns the text from its end on.
/// `None` where the text is empty, or where there is no room for the piece.
#[inline(never)]
fn begin_long<'d, T: CountedText>(
    tables: &CursorTables<'d>,
    before: LastCharacters,
    text: T,
    piece: &mut BegunPiece<'d, T>,
) -> Option<T>
    ensures begun { IfSome result (λ rest. IsPieceBegun (cursor_reading tables.now)
        (context_read before) (T.text text) (piece_gives T.text piece.new) (T.text rest)) }
    ensures rest { IfSome result (λ rest. length (T.text rest) < length (T.text text)) }
{
    let (first, behind) = text.split_first_char()?;
    let mut long = ArrayText::new();
    let rest = split_piece_of(tables, first, behind, &mut long)?;
    *piece = BegunPiece::Long(SteadyElements::after(before.recent(), long, tables.reading()));
    Some(rest)
}

/// Reads the piece that a text begins with after these characters, as it stands, and returns the text from its end on.
/// `None` where the text is empty.
#[inline(never)]
fn begin_steady<'d, T: CountedText>(
    tables: &CursorTables<'d>,
    before: LastCharacters,
    text: T,
    piece: &mut BegunPiece<'d, T>,
) -> Option<T>
    ensures begun { IfSome result (λ rest. IsPieceBegun (cursor_reading tables.now)
        (context_read before) (T.text text) (piece_gives T.text piece.new) (T.text rest)) }
    ensures rest { IfSome result (λ rest. length (T.text rest) < length (T.text text)) }
    ensures none { result ≡ None → T.text text ≡ [] }
{
    let (chars, rest) = split_piece(tables, text)?;
    *piece = BegunPiece::Steady(read_piece(tables, before, chars));
    Some(rest)
}

/// Begins to read the piece that a text begins with after these characters, and returns the text from its end on.
/// `None` where the text is empty.
pub(crate) fn begin_piece<'d, T: CountedText>(
    tables: &CursorTables<'d>,
    before: LastCharacters,
    text: T,
    piece: &mut BegunPiece<'d, T>,
) -> Option<T>
    ensures begun { IfSome result (λ rest. IsPieceBegun (cursor_reading tables.now)
        (context_read before) (T.text text) (piece_gives T.text piece.new) (T.text rest)) }
    ensures rest { IfSome result (λ rest. length (T.text rest) < length (T.text text)) }
    ensures none { result ≡ None → T.text text ≡ [] }
{
    if let Some(rest) = begin_long(tables, before, text, piece) {
        return Some(rest);
    }
    begin_steady(tables, before, text, piece)
}

/// No element of a piece is left.
#[cold]
#[inline(never)]
pub(crate) fn end_piece<T: CountedText>(piece: &mut BegunPiece<'_, T>)
    ensures { piece_gives T.text piece.new ≡ [] }
{
    *piece = BegunPiece::Ended;
}

/// The next element of a piece that is read as it stands.
#[inline(never)]
fn next_of_steady<T: CountedText>(
    elements: &mut SteadyElements<'_, MatchableText<FirstChars<T>>>,
) -> Option<CollationElement>
    ensures next { elements_left (unread_text (first_chars T.text)) elements.old
        ≡ option_to_list result
        ++ elements_left (unread_text (first_chars T.text)) elements.new }
    ensures end { result ≡ None
        → elements_left (unread_text (first_chars T.text)) elements.old ≡ [] }
{
    elements.next()
}

/// The next element of a piece, or `None` after the last one.
fn next_given<T: CountedText>(piece: &mut BegunPiece<'_, T>) -> Option<CollationElement>
    ensures next { piece_gives T.text piece.old
        ≡ option_to_list result ++ piece_gives T.text piece.new }
    ensures end { result ≡ None → piece_gives T.text piece.old ≡ [] }
{
    match piece {
        BegunPiece::Ended => None,
        BegunPiece::Long(elements) => elements.next(),
        BegunPiece::Steady(elements) => next_of_steady(elements),
    }
}

/// The next element of a piece. After its last one there is no piece any more.
pub(crate) fn next_of_piece<T: CountedText>(
    piece: &mut BegunPiece<'_, T>,
) -> Option<CollationElement>
    ensures next { piece_gives T.text piece.old
        ≡ option_to_list result ++ piece_gives T.text piece.new }
    ensures end { result ≡ None → piece_gives T.text piece.new ≡ [] }
{
    if let Some(element) = next_given(piece) {
        return Some(element);
    }
    end_piece(piece);
    None
}
