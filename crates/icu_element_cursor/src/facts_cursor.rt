//! The elements of the characters that a text begins with, one by one.

ghost use Rattle.std.specs.Prelude.{◌≡◌, ◌∷◌, [], ℕ, List, IfSome, IsTrue};
ghost use Rattle.unicode_normalization.specs.Forms.{nfd};
ghost use Rattle.icu_element_reading.specs.TextElements.{elements_after};
ghost use Rattle.icu_element_reading.specs.boundaries.Places.{BeginsAtBoundary};
ghost use Rattle.icu_element_facts.specs.FewElements.{few_elements};
ghost use Rattle.icu_element_facts.specs.KeptFacts.{char_elements};
ghost use Rattle.icu_element_cursor.specs.Cursors.{cursor_reading};
ghost use Rattle.icu_element_cursor.specs.inner.Ready.{elements_ready};
ghost use Rattle.icu_element_cursor.specs.inner.Standing.{BothStandBefore, Serves, StandsAnywhere, StandsBefore};

use crate::char_elements::CharElements;
use crate::cursor_tables::CursorTables;
use crate::digit_run::read_weight;
use crate::pairs::{ReadPair, read_pair};
use crate::ready_place::ReadyPlace;
use crate::stands::{begins_at_boundary, read_behind, stands_at_once};
use crate::unjoined::{goes_on_none, is_unjoined};
use crate::{CharFacts, FactsKind, Kept};
use icu_table_entries::CollationElement;
use icu_text_encodings::EncodedText;

/// Gives the elements of the characters that a text begins with, as long as each may be read by itself: less than an
/// `ElementCursor`, but at little cost. It never allocates.
#[derive(Clone, Copy)]
pub struct FactsCursor<'c, 'd, T> {
    tables: &'c CursorTables<'d>,
    text: T,
    ready: CharElements,
}

impl<'c, 'd, T: EncodedText> FactsCursor<'c, 'd, T> {
    ghost use Rattle.icu_element_cursor.specs.FactsCursors.{GivesNextOrEnds, GoesOn, ReadsText, facts_give, facts_reading};

    /// Reads a text, by these tables.
    #[inline(always)]
    pub fn new(tables: &'c CursorTables<'d>, text: T) -> FactsCursor<'c, 'd, T>
        ensures reading { facts_reading result ≡ cursor_reading tables.entry.now }
        ensures gives { (before : List ℕ) → facts_give T.text result before
            ≡ elements_after (cursor_reading tables.entry.now) before (nfd (T.text text)) }
    {
        FactsCursor {
            tables,
            text,
            ready: CharElements::none(),
        }
    }

    /// The next element, whatever stands before the text. `None` says nothing: ask no more then.
    #[inline(always)]
    pub fn next(&mut self) -> Option<CollationElement>
        ensures { IfSome result (λ e. GoesOn T.text self.old e self.new) }
    {
        match self.next_or_end() {
            Some(next) => next,
            None => None,
        }
    }

    /// The next element, whatever stands before the text, or `Some(None)` after the last one. `None` says nothing: ask
    /// no more then.
    #[inline(always)]
    pub fn next_or_end(&mut self) -> Option<Option<CollationElement>>
        ensures { IfSome result (λ next. GivesNextOrEnds T.text self.old next self.new) }
    {
        if let Some(element) = self.ready.take_first() {
            return Some(Some(element));
        }
        match self.text.split_first_char() {
            Some((c, rest)) => self.first_of(c, rest),
            None => Some(None),
        }
    }

    /// The text that is still to be read, where no character that was read has an element left.
    #[inline(always)]
    pub fn unread(&self) -> Option<T>
        ensures { IfSome result (ReadsText T.text self.now) }
    {
        if self.ready.is_empty() {
            Some(self.text)
        } else {
            None
        }
    }

    /// Whether a text ends, or may be cut before its first character, as this cursor reads. False says nothing.
    #[inline(always)]
    pub fn may_be_cut(&self, text: T) -> bool
        ensures { IsTrue result → BeginsAtBoundary (facts_reading self.now) (T.text text) }
    {
        begins_at_boundary(self.tables, text)
    }

    /// Reads another text from now on.
    #[inline(always)]
    pub fn begin_text(&mut self, text: T)
        ensures reading { facts_reading self.new ≡ facts_reading self.old }
        ensures reads { ReadsText T.text self.new text }
    {
        self.text = text;
        self.ready = CharElements::none();
    }

    /// The first element of the character that the text begins with, where no character that was read has any left.
    #[inline(always)]
    fn first_of(&mut self, c: char, rest: T) -> Option<Option<CollationElement>>
        requires nothing { elements_ready self.old.ready ≡ [] }
        requires text { T.text self.old.text ≡ c ∷ T.text rest }
        ensures { IfSome result (λ next. GivesNextOrEnds T.text self.old next self.new) }
    {
        let element = self.read_char(c, rest)?;
        Some(Some(element))
    }

    /// The first element of the character that the text begins with.
    #[inline(always)]
    fn read_char(&mut self, c: char, rest: T) -> Option<CollationElement>
        requires nothing { elements_ready self.old.ready ≡ [] }
        requires text { T.text self.old.text ≡ c ∷ T.text rest }
        ensures { IfSome result (λ e. GoesOn T.text self.old e self.new) }
    {
        let tables = self.tables;
        match tables.kept(c) {
            Kept::Own => self.read_own(c, rest),
            Kept::Facts(facts) => self.begin(c, facts, rest),
            Kept::Nothing => self.read_syllable(c, rest),
        }
    }

    /// The first element of a text that begins with a character that gives the elements of its entry wherever it
    /// stands.
    #[inline(always)]
    fn read_own(&mut self, c: char, rest: T) -> Option<CollationElement>
        requires nothing { elements_ready self.old.ready ≡ [] }
        requires text { T.text self.old.text ≡ c ∷ T.text rest }
        requires own { StandsAnywhere (cursor_reading self.old.tables.now) c }
        ensures { IfSome result (λ e. GoesOn T.text self.old e self.new) }
    {
        match self.tables.own_element(c) {
            Some(element) => {
                self.text = rest;
                Some(element)
            }
            None => self.read_own_elements(c, rest),
        }
    }

    /// The first element of such a text, where the entry of the character gives more than one. The others are kept.
    #[inline(never)]
    fn read_own_elements(&mut self, c: char, rest: T) -> Option<CollationElement>
        requires nothing { elements_ready self.old.ready ≡ [] }
        requires text { T.text self.old.text ≡ c ∷ T.text rest }
        requires own { StandsAnywhere (cursor_reading self.old.tables.now) c }
        ensures { IfSome result (λ e. GoesOn T.text self.old e self.new) }
    {
        let few = self.tables.own_elements(c)?;
        self.text = rest;
        self.ready.begin_few(&few)
    }

    /// The first element of a text that begins with a Hangul syllable, by its jamo. The others are kept. The facts of a
    /// rarer character would be worked out twice, here and by an `ElementCursor`.
    #[inline(never)]
    fn read_syllable(&mut self, c: char, rest: T) -> Option<CollationElement>
        requires nothing { elements_ready self.old.ready ≡ [] }
        requires text { T.text self.old.text ≡ c ∷ T.text rest }
        ensures { IfSome result (λ e. GoesOn T.text self.old e self.new) }
    {
        let few = self.tables.syllable_elements(c)?;
        self.text = rest;
        self.ready.begin_few(&few)
    }

    /// The first element of a character of which this is known. The others are kept.
    #[inline(always)]
    fn begin(&mut self, c: char, facts: &CharFacts, rest: T) -> Option<CollationElement>
        requires nothing { elements_ready self.old.ready ≡ [] }
        requires text { T.text self.old.text ≡ c ∷ T.text rest }
        requires facts { Serves (cursor_reading self.old.tables.now) c facts.now }
        ensures { IfSome result (λ e. GoesOn T.text self.old e self.new) }
    {
        if !stands_at_once(self.tables, facts, rest) {
            return self.begin_other(c, facts, rest);
        }
        self.begin_alone(c, facts, rest)
    }

    /// The first element of a character that stands before the rest. The others are kept.
    #[inline(always)]
    fn begin_alone(&mut self, c: char, facts: &CharFacts, rest: T) -> Option<CollationElement>
        requires nothing { elements_ready self.old.ready ≡ [] }
        requires text { T.text self.old.text ≡ c ∷ T.text rest }
        requires stands { StandsBefore (cursor_reading self.old.tables.now) c
            (char_elements facts.now) (T.text rest) }
        ensures { IfSome result (λ e. GoesOn T.text self.old e self.new) }
    {
        self.text = rest;
        self.ready.begin(facts)
    }

    /// The first element of a character of another kind. Out of line: most letters are read without it.
    #[inline(never)]
    fn begin_other(&mut self, c: char, facts: &CharFacts, rest: T) -> Option<CollationElement>
        requires nothing { elements_ready self.old.ready ≡ [] }
        requires text { T.text self.old.text ≡ c ∷ T.text rest }
        requires facts { Serves (cursor_reading self.old.tables.now) c facts.now }
        ensures { IfSome result (λ e. GoesOn T.text self.old e self.new) }
    {
        if facts.kind == FactsKind::Mark {
            return self.begin_mark(c, facts, rest);
        }
        if facts.kind == FactsKind::Base {
            return self.begin_base(c, facts, rest);
        }
        self.begin_number(c, facts, rest)
    }

    /// The first element of a mark, which is read with the next character where that one may be read by itself too. The
    /// others are kept.
    #[inline(always)]
    fn begin_mark(&mut self, c: char, facts: &CharFacts, rest: T) -> Option<CollationElement>
        requires nothing { elements_ready self.old.ready ≡ [] }
        requires text { T.text self.old.text ≡ c ∷ T.text rest }
        requires facts { Serves (cursor_reading self.old.tables.now) c facts.now }
        requires mark { facts.now.kind ≡ FactsKind.Mark }
        ensures { IfSome result (λ e. GoesOn T.text self.old e self.new) }
    {
        let tables = self.tables;
        let found = read_behind(tables, facts.class, rest)?;
        match found {
            Some(next) if facts.count == 1 => self.begin_both(c, facts, rest, next),
            _ => self.begin_alone(c, facts, rest),
        }
    }

    /// The element of a character that has one, and is read with the next character. The elements of that one are kept.
    #[inline(always)]
    fn begin_both(
        &mut self,
        c: char,
        facts: &CharFacts,
        rest: T,
        next: (char, &CharFacts, T),
    ) -> Option<CollationElement>
        requires nothing { elements_ready self.old.ready ≡ [] }
        requires text { T.text self.old.text ≡ c ∷ T.text rest }
        requires stands { StandsBefore (cursor_reading self.old.tables.now) c
            (char_elements facts.now) (T.text rest) }
        requires one { facts.now.count ≡ 1 }
        requires next { T.text rest ≡ next.0 ∷ T.text next.2 }
        requires next_stands { StandsBefore (cursor_reading self.old.tables.now) next.0
            (char_elements next.1.now) (T.text next.2) }
        ensures { IfSome result (λ e. GoesOn T.text self.old e self.new) }
    {
        self.text = next.2;
        self.ready.keep(next.1);
        let elements = &facts.elements[..];
        Some(elements[0])
    }

    /// The first element of a character that begins contractions, by itself where none goes on, or with the next one
    /// where a contraction joins them. The others are kept.
    #[inline(never)]
    fn begin_base(&mut self, c: char, facts: &CharFacts, rest: T) -> Option<CollationElement>
        requires nothing { elements_ready self.old.ready ≡ [] }
        requires text { T.text self.old.text ≡ c ∷ T.text rest }
        requires facts { Serves (cursor_reading self.old.tables.now) c facts.now }
        requires base { facts.now.kind ≡ FactsKind.Base }
        ensures { IfSome result (λ e. GoesOn T.text self.old e self.new) }
    {
        if goes_on_none(self.tables, facts, rest) {
            return self.begin_alone(c, facts, rest);
        }
        let tables = self.tables;
        match read_pair(tables, c, rest) {
            Some(read) => self.begin_pair(c, rest, read),
            None => self.begin_unjoined(c, facts, rest),
        }
    }

    /// The element of a number of one weight that begins a text, where digits are read as numbers.
    #[inline(always)]
    fn begin_number(&mut self, c: char, facts: &CharFacts, rest: T) -> Option<CollationElement>
        requires nothing { elements_ready self.old.ready ≡ [] }
        requires text { T.text self.old.text ≡ c ∷ T.text rest }
        requires facts { Serves (cursor_reading self.old.tables.now) c facts.now }
        ensures { IfSome result (λ e. GoesOn T.text self.old e self.new) }
    {
        let digit = facts.digit?;
        let lead = self.tables.reading().numeric_primary?;
        let (weight, after) = read_weight(self.tables, lead, c, digit, rest)?;
        self.text = after;
        Some(CollationElement::new_from_primary(weight))
    }

    /// The first element of two characters that a contraction joins. The others are kept.
    #[inline(always)]
    fn begin_pair(&mut self, c: char, rest: T, read: ReadPair<'c, T>) -> Option<CollationElement>
        requires nothing { elements_ready self.old.ready ≡ [] }
        requires text { T.text self.old.text ≡ c ∷ T.text rest }
        requires next { T.text rest ≡ read.second ∷ T.text read.rest }
        requires stand { BothStandBefore (cursor_reading self.old.tables.now) c read.second
            (few_elements read.pair.now.few) (T.text read.rest) }
        ensures { IfSome result (λ e. GoesOn T.text self.old e self.new) }
    {
        self.text = read.rest;
        self.ready.begin_few(&read.pair.few)
    }

    /// The first element of a character that begins contractions, where none goes on. The others are kept.
    #[inline(always)]
    fn begin_unjoined(&mut self, c: char, facts: &CharFacts, rest: T) -> Option<CollationElement>
        requires nothing { elements_ready self.old.ready ≡ [] }
        requires text { T.text self.old.text ≡ c ∷ T.text rest }
        requires facts { Serves (cursor_reading self.old.tables.now) c facts.now }
        requires base { facts.now.kind ≡ FactsKind.Base }
        ensures { IfSome result (λ e. GoesOn T.text self.old e self.new) }
    {
        if !is_unjoined(self.tables, c, rest) {
            return None;
        }
        self.text = rest;
        self.ready.begin(facts)
    }
}
