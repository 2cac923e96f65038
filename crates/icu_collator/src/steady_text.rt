//! The elements of a text as variable weighting leaves them, whatever its pieces (UTS #10, "Variable Weighting").

ghost use Rattle.std.specs.Prelude.{◌≡◌, false};

use icu_element_cursor::{ElementCursor, FirstChars, SteadyCursor};
use icu_options::AlternateHandling;
use icu_order_texts::weighting::{Handled, HandledSource, VariableWeighting};
use icu_text_decomposition::CountedText;
use std::convert::Infallible;

/// The elements of an encoded text, handled as they are read: nothing is allocated, and long pieces don't stop it.
#[derive(Drop)]
pub(crate) struct SteadyText<'c, 'd, T: Copy>
where
    FirstChars<T>: CountedText,
{
    elements: SteadyCursor<'c, 'd, T>,
    weighting: VariableWeighting,
}

impl<'c, 'd, T: CountedText> SteadyText<'c, 'd, T> {
    ghost use Rattle.icu_collator.specs.HandledRests.{steady_to_come};
    ghost use Rattle.icu_element_cursor.specs.Cursors.{cursor_gives};
    ghost use Rattle.icu_order_texts.specs.weighting.Handled.{handled};

    /// All elements that a cursor still gives. Variable are those with a primary weight above the merge separator's and
    /// up to `last_variable`: none, where that is 0.
    pub(crate) fn new(
        cursor: ElementCursor<'c, 'd, T>,
        handling: AlternateHandling,
        last_variable: u32,
    ) -> SteadyText<'c, 'd, T>
        ensures { steady_to_come T.text result
            ≡ handled handling last_variable false (cursor_gives T.text cursor.entry) }
    {
        SteadyText {
            elements: SteadyCursor::new(cursor),
            weighting: VariableWeighting::new(handling, last_variable),
        }
    }
}

impl<'c, 'd, T: CountedText> HandledSource for SteadyText<'c, 'd, T> {
    ghost use Rattle.icu_collator.specs.HandledRests.{steady_to_come};

    type Error = Infallible;

    ghost handled_left = { steady_to_come T.EncodedText.text };

    fn next_handled(&mut self) -> Result<Option<Handled>, Infallible> {
        'passing: while let Some(element) = self.elements.next() {
            let next = self.weighting.handle(element);
            if next.is_some() {
                return Ok(next);
            }
        }
        Ok(None)
    }
}
