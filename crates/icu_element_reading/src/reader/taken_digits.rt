//! The digits of a number, read off a text.

ghost use Rattle.std.specs.Prelude.{◌≡◌, ◌<◌, ◌∷◌, ◌++◌, All, OnOk, IfOk, MatchOption, map};
ghost use Rattle.icu_table_entries.specs.declared.entry.EntryKind.TheVariants.{Digit};
ghost use Rattle.icu_table_entries.specs.Entries.{kind_of, digit_value};
ghost use Rattle.icu_element_matches.specs.Texts.{still_unread};
ghost use Rattle.icu_element_reading.specs.Reading.{element_tables};
ghost use Rattle.icu_element_reading.specs.TextElements.{begins_with_mark, digit_of_char};
ghost use Rattle.icu_element_reading.specs.inner.Positions.{unread_at};
ghost use Rattle.icu_element_reading.specs.inner.TakenDigits.{IsNoDigit, IsDigitTaken, IsRunTaken, IsNumberTaken, matched, stands_alone};

use crate::element_tables::ElementTables;
use crate::reader::position::Position;
use icu_element_matches::{ClassedText, Matched};
use std::alloc::AllocError;
use unicode_normalization::char::canonical_combining_class;

/// Takes the next character, where it goes on a number, and gives its digit.
fn take_digit(tables: ElementTables<'_>, at: &mut Position) -> Option<u8>
    ensures { MatchOption result (IsNoDigit (element_tables tables.entry) at.old at.new)
        (λ d. IsDigitTaken (element_tables tables.entry) d at.old at.new) }
{
    let c = at.text.first()?;
    let digit = tables.digit(c)?;
    at.text.skip(1);
    at.recent.push(c);
    Some(digit)
}

/// Takes the digits that come next, and appends them to those of a number.
fn take_run(
    tables: ElementTables<'_>,
    at: &mut Position,
    digits: &mut Vec<u8>,
) -> Result<(), AllocError>
    requires { All (λ d. d < 10) digits.old.items }
    ensures run { OnOk result (IsRunTaken (element_tables tables.entry) at.old digits.old.items
        at.new digits.new.items) }
    ensures decimal { OnOk result (All (λ d. d < 10) digits.new.items) }
{
    while let Some(digit) = take_digit(tables, at) {
        digits.push(digit)?;
    }
    Ok(())
}

/// Whether a text begins with a mark.
pub(crate) fn begins_with_mark(text: &ClassedText) -> bool
    ensures { result ≡ begins_with_mark (still_unread text.now) }
{
    match text.first() {
        Some(c) => canonical_combining_class(c) != 0,
        None => false,
    }
}

/// Whether a digit is a number by itself, since its match consumed a suffix or a mark follows.
fn stands_alone(found: &Matched, text: &ClassedText) -> bool
    ensures { result ≡ stands_alone (matched found.now (still_unread text.now)) }
{
    !found.suffix.is_empty() || begins_with_mark(text)
}

/// Takes the characters of a number, at a digit whose match is done, and gives the number's digits. They are the digit
/// and the run of digits after it, or the digit alone if its match consumed a suffix or a mark follows.
pub(crate) fn take_number(
    tables: ElementTables<'_>,
    at: &mut Position,
    c: char,
    found: &Matched,
) -> Result<Vec<u8>, AllocError>
    requires is_digit { kind_of found.now.ce32 ≡ Digit }
    requires decimal { digit_value found.now.ce32 < 10 }
    ensures number { IfOk result (λ ds. IsNumberTaken (element_tables tables.entry) c
        (matched found.now (unread_at at.old)) at.old at.new ds.items) }
    ensures decimal { IfOk result (λ ds. All (λ d. d < 10) ds.items) }
{
    let mut digits = Vec::new(tables.allocator());
    digits.push(found.ce32.digit())?;
    at.recent.push_with(c, found.suffix.as_slice());
    if stands_alone(found, &at.text) {
        return Ok(digits);
    }
    take_run(tables, at, &mut digits)?;
    Ok(digits)
}
