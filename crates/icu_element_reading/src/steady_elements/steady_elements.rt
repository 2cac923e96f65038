//! The elements of a text, one by one.

ghost use Rattle.std.specs.Prelude.{◌≡◌, ◌<◌, ◌++◌, [], Some, None, false, IfSome, length, map, option_to_list, MatchBool};
ghost use Rattle.icu_table_entries.specs.Elements.{of_primary};
ghost use Rattle.icu_element_matches.specs.steady_numbers.SteadyNumbers.{weights_left};
ghost use Rattle.icu_element_reading.specs.Reading.{reading_of};
ghost use Rattle.icu_element_reading.specs.LastChars.{recent_chars};
ghost use Rattle.icu_element_reading.specs.TextElements.{elements_after, elements_of};

use crate::steady_elements::final_elements::FinalElements;
use crate::steady_elements::run_digits::{read_number, take_digit};
use crate::steady_elements::steady_place::SteadyPlace;
use crate::steady_elements::steady_step::read_char;
use crate::steady_elements::step_elements::{StepElements, StepKind, StepTaken};
use crate::{RecentChars, TextReading};
use icu_element_matches::steady_numbers::SteadyNumber;
use icu_table_entries::CollationElement;
use icu_text_decomposition::TextForMatches;

/// Reads a decomposed text and gives its collation elements, one by one (UTS #10, "Produce Collation Element Arrays").
/// No call allocates or fails, and the state doesn't grow with the text.
#[derive(Debug, Clone, Copy)]
pub struct SteadyElements<'d, X> {
    pub(crate) reading: TextReading<'d>,
    /// How far the text is read.
    pub place: SteadyPlace<X>,
    pub(crate) given: StepElements<'d>,
}

impl<'d, X: TextForMatches> SteadyElements<'d, X> {
    ghost use Rattle.icu_element_reading.specs.steady_elements.SteadyElements.{elements_left, text_left};
    ghost use Rattle.icu_element_reading.specs.steady_elements.inner.StepElements.{given_left, run_lead, first_given, IsBetweenSteps};

    /// All elements of a text.
    pub fn new(text: X, reading: TextReading<'d>) -> SteadyElements<'d, X>
        ensures { elements_left X.unread result
            ≡ elements_of (reading_of reading.entry) (X.unread text) }
    {
        SteadyElements::after(RecentChars::new(), text, reading)
    }

    /// All elements of a text that stands after these characters, which prefixes look back at.
    pub fn after(recent: RecentChars, text: X, reading: TextReading<'d>) -> SteadyElements<'d, X>
        ensures { elements_left X.unread result ≡ elements_after
            (reading_of reading.entry) (recent_chars recent) (X.unread text) }
    {
        SteadyElements {
            reading,
            place: SteadyPlace { recent, text },
            given: StepElements::none(),
        }
    }

    /// Begins to read the text that is left, after these characters, which prefixes look back at. What is left of the
    /// last step is given no more.
    #[inline]
    pub fn restart(&mut self, recent: RecentChars, reading: TextReading<'d>)
        ensures { elements_left X.unread self.new ≡ elements_after
            (reading_of reading.entry) (recent_chars recent) (text_left X.unread self.old) }
    {
        self.reading = reading;
        self.place.recent = recent;
        self.given.kind = StepKind::Final;
        self.given.elements = FinalElements::Ended;
    }

    /// Gives the elements of a number, where no text is left. What is left of the last step is given no more.
    #[inline]
    pub fn give_number(&mut self, number: &SteadyNumber)
        requires { text_left X.unread self.old ≡ [] }
        ensures { elements_left X.unread self.new ≡ map of_primary (weights_left number.now) }
    {
        self.given.kind = StepKind::Digit;
        self.given.number = *number;
    }

    /// The next element, or `None` after the last one.
    pub fn next(&mut self) -> Option<CollationElement>
        ensures next { elements_left X.unread self.old
            ≡ option_to_list result ++ elements_left X.unread self.new }
        ensures end { result ≡ None → elements_left X.unread self.old ≡ [] }
        ensures smaller { IfSome result (λ e. length (elements_left X.unread self.new)
            < length (elements_left X.unread self.old)) }
    {
        'steps: loop {
            let next = self.given.next();
            if next.is_some() {
                return next;
            }
            match self.take_step() {
                StepTaken::Kept => {}
                StepTaken::First(element) => return Some(element),
                StepTaken::AtEnd => return None,
            }
        }
    }

    /// Takes the next step: of a run of digits the next number, or the step at the next character.
    fn take_step(&mut self) -> StepTaken
        requires { given_left self.old.given ≡ [] }
        ensures elements { elements_left X.unread self.old
            ≡ option_to_list (first_given result) ++ elements_left X.unread self.new }
        ensures shorter { result ≡ StepTaken.Kept
            → length (text_left X.unread self.new) < length (text_left X.unread self.old) }
        ensures end { result ≡ StepTaken.AtEnd → elements_left X.unread self.old ≡ [] }
    {
        if self.take_number() {
            return StepTaken::Kept;
        }
        self.take_char()
    }

    /// Reads the next number of the run of digits in hand. Where there is no run, or no digit comes next, reads nothing
    /// and returns `false`: no run is in hand then.
    fn take_number(&mut self) -> bool
        requires { given_left self.old.given ≡ [] }
        ensures elements { elements_left X.unread self.new
            ≡ elements_left X.unread self.old }
        ensures shorter { MatchBool result
            (length (text_left X.unread self.new)
            < length (text_left X.unread self.old))
            (text_left X.unread self.new ≡ text_left X.unread self.old) }
        ensures ended { result ≡ false → IsBetweenSteps self.new.given }
    {
        match self.given.lead() {
            Some(lead) => self.go_on_run(lead),
            None => false,
        }
    }

    /// Reads the next number of the run of digits in hand, which has this lead byte. Where no digit comes next, reads
    /// nothing and returns `false`: no run is in hand then. Out of line: its locals are large.
    #[inline(never)]
    fn go_on_run(&mut self, lead: u8) -> bool
        requires none { given_left self.old.given ≡ [] }
        requires run { run_lead self.old.given ≡ Some lead }
        ensures elements { elements_left X.unread self.new
            ≡ elements_left X.unread self.old }
        ensures shorter { MatchBool result
            (length (text_left X.unread self.new)
            < length (text_left X.unread self.old))
            (text_left X.unread self.new ≡ text_left X.unread self.old) }
        ensures ended { result ≡ false → IsBetweenSteps self.new.given }
    {
        let Some(digit) = take_digit(self.reading.tables, &mut self.place) else {
            self.given.kind = StepKind::Final;
            self.given.elements = FinalElements::Ended;
            return false;
        };
        self.given.kind = StepKind::Run(lead);
        self.given.number = read_number(self.reading, lead, digit, &mut self.place);
        true
    }

    /// Takes the step at the next character.
    fn take_char(&mut self) -> StepTaken
        requires { IsBetweenSteps self.old.given }
        ensures elements { elements_left X.unread self.old
            ≡ option_to_list (first_given result) ++ elements_left X.unread self.new }
        ensures shorter { result ≡ StepTaken.Kept
            → length (text_left X.unread self.new) < length (text_left X.unread self.old) }
        ensures end { result ≡ StepTaken.AtEnd → elements_left X.unread self.old ≡ [] }
    {
        let Some(c) = self.place.text.next() else {
            return StepTaken::AtEnd;
        };
        match read_char(self.reading, &mut self.place, c, &mut self.given) {
            Some(element) => StepTaken::First(element),
            None => StepTaken::Kept,
        }
    }
}
