//! The elements of a text as variable weighting leaves them (UTS #10, "Variable Weighting").

ghost use Rattle.std.specs.Prelude.{◌≡◌, false, ◌≤◌, ◌++◌, ◌+◌, [], List, length, map, option_map, option_to_list, IfSome, IfOk, None};

use icu_element_cursor::{ElementCursor, LongPiece};
use icu_options::AlternateHandling;
use icu_order_texts::weighting::{Handled, HandledSource, VariableWeighting};
use icu_table_entries::CollationElement;
use icu_text_decomposition::CountedText;
use std::convert::Infallible;

/// The elements of a text that are left, as variable weighting handles them: a variable element is
/// shifted or blanked, and elements without a primary weight after it vanish. It copies nothing and
/// holds no list: a copy of it goes through the same elements again.
#[derive(Clone, Copy, Debug)]
pub struct HandledElements<'a> {
    rest: &'a [CollationElement],
    weighting: VariableWeighting,
}

impl<'a> HandledElements<'a> {
    ghost use Rattle.icu_collator.specs.HandledRests.{handled_rest};
    ghost use Rattle.icu_order_texts.specs.weighting.HandledSources.{handled_as};
    ghost use Rattle.icu_order_texts.specs.weighting.Handled.{handled};

    /// All elements of a text. Variable are those with a primary weight above the merge separator's
    /// and up to `last_variable`: none, where that is 0.
    #[inline(always)]
    pub fn new(
        elements: &'a [CollationElement],
        handling: AlternateHandling,
        last_variable: u32,
    ) -> HandledElements<'a>
        ensures { handled_rest result ≡ handled handling last_variable false elements.entry.now }
    {
        HandledElements {
            rest: elements,
            weighting: VariableWeighting::new(handling, last_variable),
        }
    }

    /// How many elements are left at most.
    pub fn len(&self) -> usize
        ensures { result ≡ length self.now.rest.now }
    {
        self.rest.len()
    }

    /// The next element that didn't vanish, or `None` after the last one.
    #[tactic(auto, unfolding(icu_order_texts::specs::weighting::Handled::handled))]
    pub fn next(&mut self) -> Option<Handled>
        ensures handled { handled_rest self.old
            ≡ option_to_list (option_map handled_as result) ++ handled_rest self.new }
        ensures end { result ≡ None → handled_rest self.new ≡ [] }
        ensures size { length self.new.rest.now ≤ length self.old.rest.now }
        ensures smaller { IfSome result
            (λ h. length self.new.rest.now + 1 ≤ length self.old.rest.now) }
    {
        'passing: while let [element, rest @ ..] = self.rest {
            self.rest = rest;
            let next = self.weighting.handle(*element);
            if next.is_some() {
                return next;
            }
        }
        None
    }
}

impl<'a> HandledSource for HandledElements<'a> {
    ghost use Rattle.icu_collator.specs.HandledRests.{handled_rest};

    type Error = Infallible;

    ghost handled_left = { handled_rest };

    fn next_handled(&mut self) -> Result<Option<Handled>, Infallible> {
        Ok(self.next())
    }
}

/// The elements of an encoded text, handled the same way as they are read: no list of elements is
/// made.
#[derive(Drop)]
pub(crate) struct HandledText<'c, 'd, T> {
    elements: ElementCursor<'c, 'd, T>,
    weighting: VariableWeighting,
}

impl<'c, 'd, T: CountedText> HandledText<'c, 'd, T> {
    ghost use Rattle.icu_collator.specs.HandledRests.{handled_to_come};
    ghost use Rattle.icu_element_cursor.specs.Cursors.{cursor_gives};
    ghost use Rattle.icu_order_texts.specs.weighting.Handled.{handled};

    /// All elements that a cursor still gives. Variable are those with a primary weight above the
    /// merge separator's and up to `last_variable`: none, where that is 0.
    #[inline(always)]
    pub(crate) fn new(
        elements: ElementCursor<'c, 'd, T>,
        handling: AlternateHandling,
        last_variable: u32,
    ) -> HandledText<'c, 'd, T>
        ensures { handled_to_come T.text result
            ≡ handled handling last_variable false (cursor_gives T.text elements.entry) }
    {
        HandledText {
            elements,
            weighting: VariableWeighting::new(handling, last_variable),
        }
    }
}

impl<'c, 'd, T: CountedText> HandledSource for HandledText<'c, 'd, T> {
    ghost use Rattle.icu_collator.specs.HandledRests.{handled_to_come};

    type Error = LongPiece;

    ghost handled_left = { handled_to_come T.text };

    #[inline(always)]
    fn next_handled(&mut self) -> Result<Option<Handled>, LongPiece> {
        'passing: while let Some(element) = self.elements.next()? {
            let next = self.weighting.handle(element);
            if next.is_some() {
                return Ok(next);
            }
        }
        Ok(None)
    }
}

/// The elements of an encoded text of which none is variable: each stays.
#[derive(Drop)]
pub(crate) struct PlainText<'c, 'd, T> {
    elements: ElementCursor<'c, 'd, T>,
}

impl<'c, 'd, T: CountedText> PlainText<'c, 'd, T> {
    ghost use Rattle.icu_collator.specs.HandledRests.{plain_to_come};
    ghost use Rattle.icu_element_cursor.specs.Cursors.{cursor_gives};
    ghost use Rattle.icu_order_texts.specs.weighting.Handled.{stayed};

    /// All elements that a cursor still gives.
    #[inline(always)]
    pub(crate) fn new(elements: ElementCursor<'c, 'd, T>) -> PlainText<'c, 'd, T>
        ensures { plain_to_come T.text result ≡ map stayed (cursor_gives T.text elements.entry) }
    {
        PlainText { elements }
    }
}

impl<'c, 'd, T: CountedText> HandledSource for PlainText<'c, 'd, T> {
    ghost use Rattle.icu_collator.specs.HandledRests.{plain_to_come};

    type Error = LongPiece;

    ghost handled_left = { plain_to_come T.text };

    #[inline(always)]
    fn next_handled(&mut self) -> Result<Option<Handled>, LongPiece> {
        match self.elements.next()? {
            Some(element) => Ok(Some(Handled::Stayed(element))),
            None => Ok(None),
        }
    }
}
