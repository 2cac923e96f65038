//! Runs of digits that are read as numbers.

ghost use Rattle.std.specs.Prelude.{◌≡◌, ◌<◌, ◌≤◌, ◌∷◌, [], ◌++◌, ℕ, List, None, Some, All, IfSome, length, map};
ghost use Rattle.icu_table_entries.specs.Elements.{of_primary};
ghost use Rattle.icu_order_levels.specs.Numbers.{without_first_zeros, longest_number, value_of};
ghost use Rattle.icu_element_matches.specs.steady_numbers.SteadyNumbers.{weights_left};
ghost use Rattle.icu_element_reading.specs.TextElements.{number_elements};
ghost use Rattle.icu_element_facts.specs.KeptFacts.{IsNumberDigit};
ghost use Rattle.icu_element_cursor.specs.Cursors.{cursor_reading};
ghost use Rattle.icu_element_cursor.specs.inner.NumberElements.{BeginsWithDigit, IsDigitRun, IsNumberPiece, few_digits};

use crate::cursor_tables::CursorTables;
use crate::few_digits::FewDigits;
use crate::stands::begins_at_boundary;
use icu_element_matches::steady_numbers::{SteadyNumber, few_weight};
use icu_text_encodings::EncodedText;

/// Takes the next character of a text, where it is an ASCII digit that goes on a number, and gives its value.
#[inline]
fn take_digit<T: EncodedText>(tables: &CursorTables<'_>, text: &mut T) -> Option<u8>
    ensures digit { IfSome result (λ d. BeginsWithDigit (cursor_reading tables.now)
        (T.text text.old) (T.text text.new) d) }
    ensures none { result ≡ None → T.text text.new ≡ T.text text.old }
{
    let (byte, rest) = text.split_first_ascii()?;
    let digit = tables.digit(char::from(byte))?;
    *text = rest;
    Some(digit)
}

/// The least number that is more than one weight.
const GREAT: u32 = 1042490;

/// The value of the number that a digit of this value begins and the digits that a text begins with go on, and what
/// follows them. `None` where the number is more than one weight.
#[inline]
fn take_few<T: EncodedText>(tables: &CursorTables<'_>, first: u8, text: T) -> Option<(u32, T)>
    requires { first < 10 }
    ensures run { IfSome result (λ p. (ds : List ℕ) × IsDigitRun (cursor_reading tables.now)
        (T.text text) (T.text p.1) (first ∷ []) ds × (value_of ds ≡ p.0)) }
    ensures few { IfSome result (λ p. p.0 < 1042490) }
    ensures rest { IfSome result (λ p. length (T.text p.1) ≤ length (T.text text)) }
{
    let mut value = u32::from(first);
    let mut rest = text;
    'digits: while let Some(digit) = take_digit(tables, &mut rest) {
        value = 10 * value + u32::from(digit);
        if value >= GREAT {
            return None;
        }
    }
    Some((value, rest))
}

/// Appends the digits that a text begins with, and returns what follows them. `None` where there are more than are
/// kept.
fn push_run<T: EncodedText>(tables: &CursorTables<'_>, digits: &mut FewDigits, text: T) -> Option<T>
    requires { All (λ d. d < 10) (few_digits digits.old) }
    ensures run { IfSome result (λ rest. IsDigitRun (cursor_reading tables.now) (T.text text)
        (T.text rest) (few_digits digits.old) (few_digits digits.new)) }
    ensures decimal { IfSome result (λ rest. All (λ d. d < 10) (few_digits digits.new)) }
{
    let mut rest = text;
    'digits: while let Some(digit) = take_digit(tables, &mut rest) {
        if !digits.push(digit) {
            return None;
        }
    }
    Some(rest)
}

/// Digits from the first on that isn't 0.
fn without_zeros(digits: &[u8]) -> &[u8]
    requires { All (λ d. d < 10) digits.now }
    ensures kept { result.now ≡ without_first_zeros digits.now }
    ensures decimal { All (λ d. d < 10) result.now }
    ensures fewer { length result.now ≤ length digits.now }
{
    let mut kept = digits;
    'zeros: while let [0, rest @ ..] = kept {
        kept = rest;
    }
    kept
}

/// The number of these digits.
fn number_of(lead: u8, digits: &FewDigits) -> SteadyNumber
    requires some { 0 < length (few_digits digits.now) }
    requires decimal { All (λ d. d < 10) (few_digits digits.now) }
    ensures { map of_primary (weights_left result) ≡ number_elements lead (few_digits digits.now) }
{
    let kept = without_zeros(digits.as_slice());
    SteadyNumber::new(lead, kept)
}

/// The weight of the number that a digit with this value begins, where it has one, and what follows the number. `None`
/// where that is no place where texts may be cut.
#[inline]
pub(crate) fn read_weight<T: EncodedText>(
    tables: &CursorTables<'_>,
    lead: u8,
    c: char,
    first: u8,
    text: T,
) -> Option<(u32, T)>
    requires numeric { (cursor_reading tables.now).numeric ≡ Some lead }
    requires digit { IsNumberDigit (cursor_reading tables.now) c first }
    ensures { IfSome result (λ p. IsNumberPiece (cursor_reading tables.now)
        (c ∷ T.text text) (T.text p.1) (of_primary p.0 ∷ [])) }
{
    let few = take_few(tables, first, text)?;
    if begins_at_boundary(tables, few.1) {
        Some((few_weight(lead, few.0), few.1))
    } else {
        None
    }
}

/// Reads the number that a digit with this value begins, where it is more than one weight, and what follows it. Out of
/// line: a function clears its locals each time that it is called.
#[inline(never)]
fn read_many<T: EncodedText>(
    tables: &CursorTables<'_>,
    lead: u8,
    c: char,
    first: u8,
    text: T,
) -> Option<(SteadyNumber, T)>
    requires numeric { (cursor_reading tables.now).numeric ≡ Some lead }
    requires digit { IsNumberDigit (cursor_reading tables.now) c first }
    ensures piece { IfSome result (λ p. IsNumberPiece (cursor_reading tables.now)
        (c ∷ T.text text) (T.text p.1) (map of_primary (weights_left p.0))) }
    ensures rest { IfSome result (λ p. length (T.text p.1) ≤ length (T.text text)) }
{
    let mut digits = FewDigits::new(first);
    let after = push_run(tables, &mut digits, text)?;
    if !begins_at_boundary(tables, after) {
        return None;
    }
    Some((number_of(lead, &digits), after))
}

/// Reads the number that a digit with this value begins, and what follows it. `None` where it has more digits than are
/// kept, and where what follows is no place where texts may be cut.
pub(crate) fn read_number<T: EncodedText>(
    tables: &CursorTables<'_>,
    lead: u8,
    c: char,
    first: u8,
    text: T,
) -> Option<(SteadyNumber, T)>
    requires numeric { (cursor_reading tables.now).numeric ≡ Some lead }
    requires digit { IsNumberDigit (cursor_reading tables.now) c first }
    ensures piece { IfSome result (λ p. IsNumberPiece (cursor_reading tables.now)
        (c ∷ T.text text) (T.text p.1) (map of_primary (weights_left p.0))) }
    ensures rest { IfSome result (λ p. length (T.text p.1) ≤ length (T.text text)) }
{
    let Some(few) = take_few(tables, first, text) else {
        return read_many(tables, lead, c, first, text);
    };
    if !begins_at_boundary(tables, few.1) {
        return None;
    }
    Some((SteadyNumber::of_few(lead, few.0), few.1))
}
