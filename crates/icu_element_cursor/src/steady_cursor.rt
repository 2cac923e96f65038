//! The elements of an encoded text, one by one, whatever pieces it has.

ghost use Rattle.std.specs.Prelude.{◌≡◌, ◌<◌, ◌++◌, [], None, MatchBool, length, option_to_list};
ghost use Rattle.icu_element_cursor.specs.Cursors.{cursor_gives};
ghost use Rattle.icu_element_cursor.specs.inner.AllReady.{all_ready};
ghost use Rattle.icu_element_cursor.specs.inner.Unread.{HasNothingReady};
ghost use Rattle.icu_element_cursor.specs.SteadyCursors.{piece_gives};

use crate::cursor::{ElementCursor, LongPiece};
use crate::first_chars::FirstChars;
use crate::long_piece::{BegunPiece, begin_piece, end_piece, next_of_piece};
use icu_table_entries::CollationElement;
use icu_text_decomposition::CountedText;

/// Goes on where an `ElementCursor` stands, and gives all elements that are still to come (UTS #10, "Produce Collation
/// Element Arrays"). No call allocates or fails. It is large, 5 kB: begin with an `ElementCursor`.
#[derive(Clone, Copy)]
pub struct SteadyCursor<'c, 'd, T: Copy>
where
    FirstChars<T>: CountedText,
{
    pub(crate) plain: ElementCursor<'c, 'd, T>,
    pub(crate) piece: BegunPiece<'d, T>,
}

impl<'c, 'd, T: CountedText> SteadyCursor<'c, 'd, T> {
    ghost use Rattle.icu_element_cursor.specs.SteadyCursors.{steady_gives};

    /// All elements that a cursor still gives.
    pub fn new(cursor: ElementCursor<'c, 'd, T>) -> SteadyCursor<'c, 'd, T>
        ensures { steady_gives T.text result ≡ cursor_gives T.text cursor.entry }
    {
        SteadyCursor {
            plain: cursor,
            piece: BegunPiece::Ended,
        }
    }

    /// The next element, or `None` after the last one.
    #[inline(never)]
    pub fn next(&mut self) -> Option<CollationElement>
        ensures next { steady_gives T.text self.old
            ≡ option_to_list result ++ steady_gives T.text self.new }
        ensures end { result ≡ None → steady_gives T.text self.old ≡ [] }
    {
        'pieces: loop {
            if let Some(element) = next_of_piece(&mut self.piece) {
                return Some(element);
            }
            match self.plain.read_next() {
                Ok(next) => return next,
                Err(LongPiece) => {
                    if !self.begin_piece() {
                        return None;
                    }
                }
            }
        }
    }

    /// Begins to read the piece that comes next, where there is one. Returns whether there is: else no element is left.
    #[inline(never)]
    fn begin_piece(&mut self) -> bool
        requires nothing { HasNothingReady all_ready self.old.plain }
        requires piece { piece_gives T.text self.old.piece ≡ [] }
        ensures same { steady_gives T.text self.new ≡ steady_gives T.text self.old }
        ensures shorter { MatchBool result
            (length (T.text self.new.plain.text) < length (T.text self.old.plain.text))
            (steady_gives T.text self.old ≡ []) }
    {
        let plain = &self.plain;
        let begun = begin_piece(plain.tables, plain.recent, plain.text, &mut self.piece);
        let Some(left) = begun else {
            end_piece(&mut self.piece);
            return false;
        };
        self.plain.text = left;
        true
    }
}
