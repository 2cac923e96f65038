//! Where texts that are searched are cut, and where their places are.

ghost use Rattle.std.specs.Prelude.{◌≡◌, ◌<◌, ◌≤◌, false, IfOk, IsTrue};
ghost use Rattle.icu_search_places.specs.SearchPlaces.{is_place};
ghost use Rattle.icu_order_texts.specs.TextOrder.{reading_by};
ghost use Rattle.icu_search.specs.inner.SearchCuts.{BeginsPieceAt, CutsAt, EndsPieceAt, IsPieceFrom};

use crate::searched_text::SearchedText;
use icu_search_places::place_reader::place_marks;
use std::alloc::AllocError;

impl<'s, 'c> SearchedText<'s, 'c> {
    ghost use Rattle.icu_search.specs.SearchedTexts.{char_len_in, searched_in, text_searched};

    /// Whether the text may be cut at an offset, before a character of it. False says nothing.
    pub(crate) fn cuts_at(&self, offset: usize) -> bool
        ensures { IsTrue result → CutsAt (reading_by (searched_in self.now).collation)
            (text_searched self.now) offset }
    {
        if offset >= self.text.char_count() {
            return false;
        }
        self.searcher.cuts_before(self.text.characters()[offset])
    }

    /// Whether the text ends at an offset, or may be cut there. False says nothing.
    pub(crate) fn ends_piece(&self, offset: usize) -> bool
        ensures { IsTrue result → EndsPieceAt (reading_by (searched_in self.now).collation)
            (text_searched self.now) offset }
    {
        if offset == self.text.char_count() {
            return true;
        }
        self.cuts_at(offset)
    }

    /// An offset before another one at which a piece begins: the last one that is known.
    fn last_cut(&self, offset: usize) -> usize
        ensures before { result ≤ offset }
        ensures cut { BeginsPieceAt (reading_by (searched_in self.now).collation)
            (text_searched self.now) result }
    {
        let mut cut = offset;
        'cuts: while cut > 0 {
            cut -= 1;
            if self.cuts_at(cut) {
                return cut;
            }
        }
        0
    }

    /// An offset behind another one at which a piece ends: the first one that is known.
    fn next_cut(&self, offset: usize) -> usize
        requires { offset < char_len_in self.now }
        ensures behind { offset < result }
        ensures within { result ≤ char_len_in self.now }
        ensures cut { EndsPieceAt (reading_by (searched_in self.now).collation)
            (text_searched self.now) result }
    {
        let count = self.text.char_count();
        for cut in offset + 1..count {
            if self.cuts_at(cut) {
                return cut;
            }
        }
        count
    }

    /// Whether it is known that no place of the text is at an offset. False says nothing.
    #[inline(always)]
    pub(crate) fn has_no_place(&self, offset: usize) -> bool
        requires { offset ≤ char_len_in self.now }
        ensures { IsTrue result → is_place (reading_by (searched_in self.now).collation)
            (text_searched self.now) offset ≡ false }
    {
        match &self.places {
            Some(marks) => !marks[offset],
            None => false,
        }
    }

    /// Whether a place of the text is at an offset. Fails only where an allocation does.
    pub(crate) fn is_place(&self, offset: usize) -> Result<bool, AllocError>
        requires { offset ≤ char_len_in self.now }
        ensures { IfOk result (λ here. here ≡ is_place
            (reading_by (searched_in self.now).collation) (text_searched self.now) offset) }
    {
        if offset == 0 || offset == self.text.char_count() {
            return Ok(true);
        }
        if self.cuts_at(offset) {
            return Ok(true);
        }
        self.is_place_within(offset)
    }

    /// Whether a place of the text is at an offset, before a character of it: by the places of a piece.
    fn is_place_within(&self, offset: usize) -> Result<bool, AllocError>
        requires { offset < char_len_in self.now }
        ensures { IfOk result (λ here. here ≡ is_place
            (reading_by (searched_in self.now).collation) (text_searched self.now) offset) }
    {
        if let Some(marks) = &self.places {
            return Ok(marks[offset]);
        }
        let cut = self.last_cut(offset);
        let stop = self.next_cut(offset);
        let marks = place_marks(self.searcher.reading(), &self.text.characters()[cut..stop])?;
        Ok(marks[offset - cut])
    }

    /// What follows a start, up to where matches have to end or further.
    pub(crate) fn piece_from(&self, start: usize, last: usize) -> &[char]
        requires ordered { start ≤ last }
        requires within { last ≤ char_len_in self.now }
        ensures { IsPieceFrom (reading_by (searched_in self.now).collation)
            (text_searched self.now) start last result.now }
    {
        if self.cuts_at(last) {
            &self.text.characters()[start..last]
        } else {
            &self.text.characters()[start..]
        }
    }
}
