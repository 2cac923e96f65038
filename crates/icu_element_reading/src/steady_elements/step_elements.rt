//! The elements of one step, one by one.

ghost use Rattle.std.specs.Prelude.{◌≡◌, ◌++◌, [], None, option_to_list};
ghost use Rattle.icu_element_reading.specs.steady_elements.inner.RunDigits.{weights_given};

use crate::steady_elements::final_elements::FinalElements;
use icu_element_matches::steady_numbers::SteadyNumber;
use icu_table_entries::CollationElement;

/// What the elements of a step are.
#[derive(Debug, Clone, Copy)]
pub(crate) enum StepKind {
    /// Those of a final entry.
    Final,
    /// Those of a digit that is a number by itself.
    Digit,
    /// Those of a number, and then, with this lead byte, those of the digits that come next in the text.
    Run(u8),
}

/// The elements of a step that are still to be given. A number stands beside the elements of other steps, since its
/// room is large: these don't write it.
#[derive(Debug, Clone, Copy)]
pub(crate) struct StepElements<'d> {
    pub(crate) kind: StepKind,
    /// Those of a final entry. Of no meaning where the step is a number.
    pub(crate) elements: FinalElements<'d>,
    /// Those of a number. Of no meaning where the step is none.
    pub(crate) number: SteadyNumber,
}

/// What came of taking the next step of a text.
#[derive(Clone, Copy)]
pub(crate) enum StepTaken {
    /// No character was left.
    AtEnd,
    /// Its first element. The others are kept.
    First(CollationElement),
    /// All of its elements are kept.
    Kept,
}

/// The next element of a number, or `None` after the last one.
fn next_of_number(number: &mut SteadyNumber) -> Option<CollationElement>
    ensures next { weights_given number.old ≡ option_to_list result ++ weights_given number.new }
    ensures end { result ≡ None → weights_given number.old ≡ [] }
{
    number.next().map(CollationElement::new_from_primary)
}

impl<'d> StepElements<'d> {
    ghost use Rattle.icu_element_reading.specs.steady_elements.inner.StepElements.{given_left, run_lead, IsBetweenSteps};

    /// None.
    #[inline]
    pub(crate) fn none() -> StepElements<'d>
        ensures { IsBetweenSteps result }
    {
        StepElements {
            kind: StepKind::Final,
            elements: FinalElements::Ended,
            number: SteadyNumber::of_few(0, 0),
        }
    }

    /// The next element, or `None` after the last one of what was read.
    #[inline]
    pub(crate) fn next(&mut self) -> Option<CollationElement>
        ensures next { given_left self.old ≡ option_to_list result ++ given_left self.new }
        ensures end { result ≡ None → given_left self.old ≡ [] }
        ensures run { run_lead self.new ≡ run_lead self.old }
    {
        match self.kind {
            StepKind::Final => self.elements.next(),
            StepKind::Digit => next_of_number(&mut self.number),
            StepKind::Run(_) => next_of_number(&mut self.number),
        }
    }

    /// The lead byte of the numbers of a run that goes on in the text.
    #[inline]
    pub(crate) fn lead(&self) -> Option<u8>
        ensures { result ≡ run_lead self.now }
    {
        match self.kind {
            StepKind::Run(lead) => Some(lead),
            _ => None,
        }
    }
}
