//! Parts of a text with whose characters no match begins: where the same characters come again, none begins either.

ghost use Rattle.std.specs.Prelude.{◌≡◌, ◌+◌, ◌-◌, ◌<◌, ◌≤◌, ℕ, List, false, true, length, slice_index_or, IfSome, IsTrue};
ghost use Rattle.icu_search_places.specs.KnownParts.{SaysBarren};
ghost use Rattle.icu_search_places.specs.LeastMatches.{span};
ghost use Rattle.icu_search.specs.inner.BarrenParts.{is_barren_in, IsBarren, Repeats};
ghost use Rattle.icu_search.specs.inner.SearchCuts.{BeginsPieceAt};
ghost use Rattle.icu_order_texts.specs.TextOrder.{lists_by, reading_by};
ghost use Rattle.unicode_normalization.specs.Forms.{nfd};

use crate::counted_walk::weightless_run;
use crate::searched_text::SearchedText;
use icu_search_places::BarrenPart;

/// So many characters without a primary weight, one after another, are looked at for a part with which no match begins.
const MOST_WEIGHTLESS: usize = 64;

/// Up to where it is known that a text repeats itself so many characters after a part, which come again at `start`.
fn known_reach(part: BarrenPart, start: usize, step: usize) -> usize
    requires again { start ≡ part.start + step }
    ensures behind { start ≤ result }
    ensures repeats { (text : List ℕ) → Repeats text part.start part.step part.reach
        → Repeats text part.start step result }
{
    if part.step != step {
        return start;
    }
    if start < part.reach {
        part.reach
    } else {
        start
    }
}

/// Whether a character is the one that stands some characters before it.
#[inline(always)]
fn is_repeated(text: &[char], at: usize, step: usize) -> bool
    requires within { at < length text.now }
    requires steps { step ≤ at }
    ensures { IsTrue result
        → slice_index_or text.now at 0 ≡ slice_index_or text.now (at - step) 0 }
{
    text[at] == text[at - step]
}

impl<'s, 'c> SearchedText<'s, 'c> {
    ghost use Rattle.icu_search.specs.SearchedTexts.{char_len_in, matches_in, searched_in, text_searched};

    /// Up to where each character is the one that stands some characters before it, where that is so up to `reach`: no
    /// further than another offset is looked at.
    fn repeats_to(&self, step: usize, reach: usize, stop: usize) -> usize
        requires within { stop ≤ char_len_in self.now }
        requires steps { step ≤ reach }
        ensures { (start : ℕ) → Repeats (text_searched self.now) start step reach
            → Repeats (text_searched self.now) start step result }
    {
        if stop < reach {
            return reach;
        }
        let text = self.text.characters();
        for at in reach..stop {
            if !is_repeated(text, at, step) {
                return at;
            }
        }
        stop
    }

    /// Whether what follows an offset begins with the characters of a part with which no match begins. That part is
    /// handed on then. False says nothing.
    pub(crate) fn recurs(&self, start: usize, barren: &mut BarrenPart) -> bool
        requires within { start ≤ char_len_in self.now }
        requires known { SaysBarren (is_barren_in self.now) barren.old }
        ensures none { IsTrue result → (stop : ℕ) → start < stop → stop ≤ char_len_in self.now
            → matches_in self.now start stop ≡ false }
        ensures known { SaysBarren (is_barren_in self.now) barren.new }
    {
        let part = *barren;
        if part.stop <= part.start {
            return false;
        }
        if start <= part.start {
            return false;
        }
        if part.stop > self.text.char_count() {
            return true;
        }
        let size = part.stop - part.start;
        if self.text.char_count() - start < size {
            return false;
        }
        let step = start - part.start;
        let stop = start + size;
        let reach = self.repeats_to(step, known_reach(part, start, step), stop);
        if reach < stop {
            return false;
        }
        if !self.ends_piece(stop) {
            return false;
        }
        *barren = BarrenPart {
            start,
            stop,
            step,
            reach,
        };
        true
    }

    /// Whether a piece begins at an offset, or the text. False says nothing.
    fn begins_piece(&self, offset: usize) -> bool
        ensures { IsTrue result → BeginsPieceAt (reading_by (searched_in self.now).collation)
            (text_searched self.now) offset }
    {
        offset == 0 || self.cuts_at(offset)
    }

    /// Whether a match may begin and end at each offset.
    pub(crate) fn allows_each(&self) -> bool
        ensures { IsTrue result → (k : ℕ) → (searched_in self.now).allowed k ≡ true }
    {
        match &self.allowed {
            None => true,
            Some(_) => false,
        }
    }

    /// Whether a part that ends at an offset, with so many primary weights, has other than as many as the pattern, or a
    /// match may end there.
    fn may_end(&self, stop: usize, met: usize) -> bool
        requires { stop ≤ char_len_in self.now }
        ensures { let s = searched_in self.now in IsTrue result
            → met ≡ length (lists_by s.collation (nfd s.pattern)).primaries
            → s.allowed stop ≡ true }
    {
        met != self.searcher.count_of_pattern() || self.is_allowed(stop)
    }

    /// A part from an offset on with whose characters no match begins, where none begins at the offset: one that ends
    /// behind the text's end if the text has fewer primary weights from there on than the pattern. `None` says nothing.
    fn barren_from(&self, start: usize) -> Option<BarrenPart>
        requires within { start ≤ char_len_in self.now }
        requires none { (stop : ℕ) → start ≤ stop → stop ≤ char_len_in self.now
            → matches_in self.now start stop ≡ false }
        ensures { IfSome result (is_barren_in self.now) }
    {
        if !self.is_allowed(start) {
            return None;
        }
        if !self.begins_piece(start) {
            return None;
        }
        let mut met: usize = 0;
        let mut without: usize = 0;
        let count = self.text.char_count();
        for at in start..count {
            let Some(more) = self.count_alone(at) else {
                return None;
            };
            let Some(total) = met.checked_add(more) else {
                return None;
            };
            without = weightless_run(without, more);
            if without > MOST_WEIGHTLESS {
                return None;
            }
            if total > self.searcher.count_of_pattern() {
                return Some(BarrenPart::new(start, at + 1));
            }
            if !self.may_end(at + 1, total) {
                return None;
            }
            met = total;
        }
        if met < self.searcher.count_of_pattern() {
            return Some(BarrenPart::new(start, count + 1));
        }
        None
    }

    /// Hands on a part with which no match begins: from an offset on, where none begins, or else the one that is known.
    pub(crate) fn keep_barren(&self, start: usize, barren: &mut BarrenPart)
        requires within { start ≤ char_len_in self.now }
        requires none { (stop : ℕ) → start ≤ stop → stop ≤ char_len_in self.now
            → matches_in self.now start stop ≡ false }
        requires known { SaysBarren (is_barren_in self.now) barren.old }
        ensures { SaysBarren (is_barren_in self.now) barren.new }
    {
        if let Some(part) = self.barren_from(start) {
            *barren = part;
        }
    }
}
