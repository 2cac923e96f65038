//! The elements that were read of a text and not given yet.

ghost use Rattle.std.specs.Prelude.{◌≡◌, ◌≤◌, ◌∷◌, ◌++◌, [], None, false, IfSome, IsTrue, length, map, option_to_list};
ghost use Rattle.icu_table_entries.specs.Elements.{of_primary};
ghost use Rattle.icu_element_facts.specs.FewElements.{few_elements};
ghost use Rattle.icu_element_facts.specs.KeptFacts.{char_elements};
ghost use Rattle.icu_text_decomposition.specs.short_text.ArrayTexts.{array_unread};
ghost use Rattle.icu_element_reading.specs.steady_elements.SteadyElements.{elements_left};
ghost use Rattle.icu_element_matches.specs.steady_numbers.SteadyNumbers.{weights_left};
ghost use Rattle.icu_element_cursor.specs.inner.Pieces.{IsPieceBegun};
ghost use Rattle.icu_element_cursor.specs.inner.ReadCharacters.{context_read};
ghost use Rattle.icu_element_cursor.specs.inner.Ready.{HasNoneLeft, elements_ready};

use crate::CharFacts;
use crate::char_elements::CharElements;
use crate::cursor_tables::CursorTables;
use crate::last_characters::LastCharacters;
use crate::ready_place::ReadyPlace;
use crate::short_piece::{SHORT, begin_short};
use icu_element_facts::FewElements;
use icu_element_matches::steady_numbers::SteadyNumber;
use icu_element_reading::steady_elements::SteadyElements;
use icu_element_reading::{RecentChars, TextReading};
use icu_table_entries::CollationElement;
use icu_text_decomposition::short_text::ArrayText;
use icu_text_encodings::EncodedText;

/// The elements that were read and not given yet: a few of a character, or those of a short piece or of a number.
#[derive(Debug, Clone, Copy)]
pub struct ReadyElements<'d> {
    pub(crate) few: CharElements,
    pub(crate) piece: SteadyElements<'d, ArrayText<SHORT>>,
    /// Whether the piece may have some left.
    pub(crate) in_piece: bool,
    /// Whether some may be left. One flag, since it is asked before each element.
    pub(crate) may_be_left: bool,
    ghost no_piece: { in_piece ≡ false → elements_left array_unread piece ≡ [] },
    ghost none_left: { may_be_left ≡ false → HasNoneLeft few piece },
}

/// Gives the elements of a number next.
fn give_number(piece: &mut SteadyElements<'_, ArrayText<SHORT>>, number: &SteadyNumber)
    ensures { elements_left array_unread piece.new ≡ map of_primary (weights_left number.now) }
{
    piece.place.text.clear();
    piece.give_number(number);
}

impl<'d> ReadyElements<'d> {
    ghost use Rattle.icu_element_cursor.specs.Cursors.{cursor_reading};
    ghost use Rattle.icu_element_cursor.specs.inner.AllReady.{all_ready};

    /// None.
    #[inline(always)]
    pub(crate) fn none(reading: TextReading<'d>) -> ReadyElements<'d>
        ensures { all_ready result ≡ [] }
    {
        ReadyElements {
            few: CharElements::none(),
            piece: SteadyElements::after(RecentChars::new(), ArrayText::new(), reading),
            in_piece: false,
            may_be_left: false,
        }
    }

    /// Those of a character.
    #[inline]
    pub(crate) fn of_char(few: CharElements, reading: TextReading<'d>) -> ReadyElements<'d>
        ensures { all_ready result ≡ elements_ready few }
    {
        let mut all = ReadyElements::none(reading);
        all.may_be_left = true;
        all.few = few;
        all
    }

    /// The first element of a number, where none is left. The others are kept.
    #[inline]
    pub(crate) fn begin_number(&mut self, number: &SteadyNumber) -> Option<CollationElement>
        requires { all_ready self.old ≡ [] }
        ensures { map of_primary (weights_left number.now)
            ≡ option_to_list result ++ all_ready self.new }
    {
        self.may_be_left = true;
        self.in_piece = true;
        give_number(&mut self.piece, number);
        self.take_of_piece()
    }

    /// Begins to give the elements of the piece that a character begins, after these characters, where none is left,
    /// and returns the text from its end on. `None` where the piece isn't short.
    #[inline]
    pub(crate) fn begin_piece<T: EncodedText>(
        &mut self,
        tables: &CursorTables<'d>,
        before: LastCharacters,
        first: char,
        text: T,
    ) -> Option<T>
        requires { all_ready self.old ≡ [] }
        ensures begun { IfSome result (λ rest. IsPieceBegun (cursor_reading tables.now)
            (context_read before) (first ∷ T.text text) (all_ready self.new) (T.text rest)) }
        ensures rest { IfSome result (λ rest. length (T.text rest) ≤ length (T.text text)) }
        ensures none { result ≡ None → all_ready self.new ≡ [] }
    {
        self.may_be_left = true;
        self.in_piece = true;
        match begin_short(tables, before, first, text, &mut self.piece) {
            Some(rest) => Some(rest),
            None => {
                self.in_piece = false;
                self.may_be_left = false;
                None
            }
        }
    }

    /// The next of the elements of a piece or a number, where no other is left.
    #[inline]
    fn take_of_piece(&mut self) -> Option<CollationElement>
        requires { elements_ready self.old.few ≡ [] }
        ensures next { all_ready self.old ≡ option_to_list result ++ all_ready self.new }
        ensures end { result ≡ None → all_ready self.new ≡ [] }
    {
        self.may_be_left = true;
        self.in_piece = true;
        let next = self.piece.next();
        self.in_piece = next.is_some();
        self.may_be_left = self.in_piece;
        next
    }
}

impl<'d> ReadyPlace for ReadyElements<'d> {
    ghost use Rattle.icu_element_cursor.specs.inner.AllReady.{all_ready};

    ghost ready = { all_ready };

    #[inline(always)]
    fn is_empty(&self) -> bool {
        !self.may_be_left
    }

    #[inline(always)]
    fn begin(&mut self, facts: &CharFacts) -> Option<CollationElement> {
        self.may_be_left = true;
        let first = self.few.begin(facts);
        self.may_be_left = !self.few.is_empty();
        first
    }

    #[inline(always)]
    fn keep(&mut self, facts: &CharFacts) {
        self.may_be_left = true;
        self.few.keep(facts);
    }

    #[inline]
    fn begin_few(&mut self, few: &FewElements) -> Option<CollationElement> {
        self.may_be_left = true;
        let first = self.few.begin_few(few);
        self.may_be_left = !self.few.is_empty();
        first
    }

    #[inline(always)]
    fn take_first(&mut self) -> Option<CollationElement> {
        if !self.may_be_left {
            return None;
        }
        match self.few.take_first() {
            Some(element) => {
                self.may_be_left = self.in_piece || !self.few.is_empty();
                Some(element)
            }
            None => self.take_of_piece(),
        }
    }
}
