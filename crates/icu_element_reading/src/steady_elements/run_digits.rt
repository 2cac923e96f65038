//! The digits of a run, read off a text number by number.

ghost use Rattle.std.specs.Prelude.{◌≡◌, ◌<◌, ◌≤◌, ◌∷◌, [], ◌++◌, MatchOption, IsTrue, length};
ghost use Rattle.icu_order_levels.specs.Numbers.{longest_number};
ghost use Rattle.icu_element_reading.specs.LastChars.{recent_chars};
ghost use Rattle.icu_element_reading.specs.Reading.{element_tables, reading_of};
ghost use Rattle.icu_element_reading.specs.TextElements.{begins_with_mark, number_elements};
ghost use Rattle.icu_element_reading.specs.steady_elements.inner.RunDigits.{IsRunEnd, IsDigitRead, IsWholeNumber, room_digits, started_elements, weights_given, run_elements};

use crate::steady_elements::number_digits::NumberDigits;
use crate::steady_elements::steady_place::{SteadyPlace, peek};
use crate::{ElementTables, TextReading};
use icu_element_matches::steady_numbers::SteadyNumber;
use icu_text_decomposition::TextForMatches;
use unicode_normalization::char::canonical_combining_class;

/// Whether a text begins with a mark.
pub(crate) fn begins_with_mark<X: TextForMatches>(text: &mut X) -> bool
    ensures mark { result ≡ begins_with_mark (X.unread text.old) }
    ensures unread { X.unread text.new ≡ X.unread text.old }
{
    match peek(text) {
        Some(c) => canonical_combining_class(c) != 0,
        None => false,
    }
}

/// Reads the next character, where it goes on a number, and gives its digit.
pub(crate) fn take_digit<X: TextForMatches>(
    tables: ElementTables<'_>,
    at: &mut SteadyPlace<X>,
) -> Option<u8>
    ensures { MatchOption result
        (IsRunEnd (element_tables tables.entry)
        (recent_chars at.old.recent) (X.unread at.old.text)
        (recent_chars at.new.recent) (X.unread at.new.text))
        (λ d. IsDigitRead (element_tables tables.entry) d
        (recent_chars at.old.recent) (X.unread at.old.text)
        (recent_chars at.new.recent) (X.unread at.new.text)) }
{
    let c = peek(&mut at.text)?;
    let digit = tables.digit(c)?;
    let _read = at.text.next();
    at.recent.push(c);
    Some(digit)
}

/// Reads digits that come next behind one, as many as one number has. Zeros at the front don't count.
fn read_digits<X: TextForMatches>(
    reading: TextReading<'_>,
    lead: u8,
    first: u8,
    at: &mut SteadyPlace<X>,
) -> NumberDigits
    requires { first < 10 }
    ensures number { IsWholeNumber (element_tables reading.entry.tables) (room_digits result)
        (X.unread at.new.text) }
    ensures elements { started_elements (reading_of reading.entry) lead (room_digits result)
        (recent_chars at.new.recent) (X.unread at.new.text)
        ≡ started_elements (reading_of reading.entry) lead (first ∷ [])
        (recent_chars at.old.recent) (X.unread at.old.text) }
    ensures fewer { length (X.unread at.new.text) ≤ length (X.unread at.old.text) }
{
    let mut digits = NumberDigits::new();
    digits.push(first);
    'run: while !digits.is_full() {
        let Some(digit) = take_digit(reading.tables, at) else {
            return digits;
        };
        digits.push(digit);
    }
    digits
}

/// Reads the next number of a run, which begins with this digit, and gives its weights. The digits behind it stay to be
/// read.
pub(crate) fn read_number<X: TextForMatches>(
    reading: TextReading<'_>,
    lead: u8,
    first: u8,
    at: &mut SteadyPlace<X>,
) -> SteadyNumber
    requires { first < 10 }
    ensures elements { weights_given result ++ run_elements (reading_of reading.entry) lead []
        (recent_chars at.new.recent) (X.unread at.new.text)
        ≡ run_elements (reading_of reading.entry) lead (first ∷ [])
        (recent_chars at.old.recent) (X.unread at.old.text) }
    ensures fewer { length (X.unread at.new.text) ≤ length (X.unread at.old.text) }
{
    let digits = read_digits(reading, lead, first, at);
    SteadyNumber::new(lead, digits.as_slice())
}

/// The weights of a digit that is a number by itself.
pub(crate) fn lone_digit(lead: u8, digit: u8) -> SteadyNumber
    requires { digit < 10 }
    ensures { weights_given result ≡ number_elements lead (digit ∷ []) }
{
    let mut digits = NumberDigits::new();
    digits.push(digit);
    SteadyNumber::new(lead, digits.as_slice())
}
