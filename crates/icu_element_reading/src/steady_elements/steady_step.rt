//! One step of reading a text.

ghost use Rattle.std.specs.Prelude.{◌≡◌, ◌≤◌, ◌<◌, ◌++◌, length, IsTrue, option_to_list};
ghost use Rattle.icu_table_data.specs.DataConditions.{is_readable};
ghost use Rattle.icu_table_data.specs.StoredData.{data_of};
ghost use Rattle.icu_table_entries.specs.declared.entry.EntryKind.TheVariants.{Digit};
ghost use Rattle.icu_table_entries.specs.Entries.{kind_of, digit_value};
ghost use Rattle.icu_element_matches.specs.WellFormedEntries.{IsWellFormedMatch};
ghost use Rattle.icu_element_reading.specs.LastChars.{recent_chars};
ghost use Rattle.icu_element_reading.specs.Reading.{reading_of, element_tables};
ghost use Rattle.icu_element_reading.specs.TextElements.{is_silent_dot, diacritic_step, number_step, final_step, entry_step, step, elements_after};
ghost use Rattle.icu_element_reading.specs.inner.TakenDigits.{digit_step, stands_alone};
ghost use Rattle.icu_element_matches.specs.steady_matches.SteadyMatches.{steady_match};
ghost use Rattle.icu_element_reading.specs.steady_elements.inner.StepElements.{elements_to_give, elements_from, IsBetweenSteps};

use crate::TextReading;
use crate::steady_elements::final_elements::FinalElements;
use crate::steady_elements::run_digits::{begins_with_mark, lone_digit, read_number};
use crate::steady_elements::steady_place::{SteadyPlace, peek};
use crate::steady_elements::step_elements::{StepElements, StepKind};
use icu_element_matches::steady_matches::{SteadyMatch, find_steady_match};
use icu_table_data::CollationData;
use icu_table_entries::{CollationElement, CollationElement32, EntryKind};
use icu_text_decomposition::TextForMatches;

/// Whether U+0307 is silent before a text, as it is before some diacritics above in Lithuanian.
fn is_silent<X: TextForMatches>(reading: TextReading<'_>, c: char, text: &mut X) -> bool
    ensures silent { result
        ≡ is_silent_dot reading.entry.lithuanian_dot_above c (X.unread text.old) }
    ensures unread { X.unread text.new ≡ X.unread text.old }
{
    reading.lithuanian_dot_above
        && c == '\u{307}'
        && matches!(peek(text), Some('\u{300}' | '\u{301}' | '\u{303}'))
}

/// Reads at a diacritic that no match took, and returns its element, where it has one.
fn read_diacritic<X: TextForMatches>(
    reading: TextReading<'_>,
    at: &mut SteadyPlace<X>,
    c: char,
    secondary: u16,
) -> Option<CollationElement>
    ensures elements { option_to_list result ++ elements_after (reading_of reading.entry)
        (recent_chars at.new.recent) (X.unread at.new.text)
        ≡ elements_from (reading_of reading.entry) (recent_chars at.old.recent) c
        (diacritic_step (reading_of reading.entry) secondary c (X.unread at.old.text)) }
    ensures unread { X.unread at.new.text ≡ X.unread at.old.text }
{
    at.recent.push(c);
    if is_silent(reading, c, &mut at.text) {
        return None;
    }
    Some(CollationElement::new_from_secondary(secondary))
}

/// Reads by a final entry.
fn read_final<'d, X: TextForMatches>(
    reading: TextReading<'d>,
    at: &mut SteadyPlace<X>,
    c: char,
    home: CollationData<'d>,
    ce32: CollationElement32,
    found: &SteadyMatch<'d>,
    given: &mut StepElements<'d>,
)
    requires { IsTrue (is_readable (data_of home) c ce32) }
    ensures elements { elements_to_give (reading_of reading.entry) given.new
        (recent_chars at.new.recent) (X.unread at.new.text)
        ≡ elements_from (reading_of reading.entry) (recent_chars at.old.recent) c
        (final_step (data_of home.entry) c ce32
        (steady_match found.now (X.unread at.old.text))) }
    ensures unread { X.unread at.new.text ≡ X.unread at.old.text }
{
    at.recent.push_with(c, found.suffix);
    given.kind = StepKind::Final;
    given.elements = FinalElements::new(home, c, ce32);
}

/// Whether a digit is a number by itself, since its match consumed a suffix or a mark follows.
fn stands_alone<X: TextForMatches>(found: &SteadyMatch<'_>, text: &mut X) -> bool
    ensures alone { result ≡ stands_alone (steady_match found.now (X.unread text.old)) }
    ensures unread { X.unread text.new ≡ X.unread text.old }
{
    !found.suffix.is_empty() || begins_with_mark(text)
}

/// The digit of an entry that a match came to.
fn decimal_digit(home: CollationData<'_>, c: char, found: &SteadyMatch<'_>) -> u8
    requires is_digit { kind_of found.now.ce32 ≡ Digit }
    requires well_formed { IsWellFormedMatch (data_of home) c found.now.ce32 }
    ensures value { result ≡ digit_value found.now.ce32 }
    ensures decimal { result < 10 }
{
    found.ce32.digit()
}

/// Reads a number, at a digit whose match is done: the digit with the run of digits after it, or the digit alone where
/// its match consumed a suffix or a mark follows. Out of line: its locals are large.
#[inline(never)]
fn read_digits_from<'d, X: TextForMatches>(
    reading: TextReading<'d>,
    lead: u8,
    at: &mut SteadyPlace<X>,
    c: char,
    home: CollationData<'d>,
    matched: &SteadyMatch<'d>,
    given: &mut StepElements<'d>,
)
    requires is_digit { kind_of matched.now.ce32 ≡ Digit }
    requires well_formed { IsWellFormedMatch (data_of home) c matched.now.ce32 }
    ensures elements { elements_to_give (reading_of reading.entry) given.new
        (recent_chars at.new.recent) (X.unread at.new.text)
        ≡ elements_from (reading_of reading.entry) (recent_chars at.old.recent) c
        (number_step (element_tables reading.entry.tables) lead
        (steady_match matched.now (X.unread at.old.text))) }
    ensures fewer { length (X.unread at.new.text) ≤ length (X.unread at.old.text) }
{
    at.recent.push_with(c, matched.suffix);
    let digit = decimal_digit(home, c, matched);
    if stands_alone(matched, &mut at.text) {
        given.kind = StepKind::Digit;
        given.number = lone_digit(lead, digit);
        return;
    }
    given.kind = StepKind::Run(lead);
    given.number = read_number(reading, lead, digit, at);
}

/// Reads at a digit: a number, or by the plain entry where digits aren't read as numbers.
fn read_digit<'d, X: TextForMatches>(
    reading: TextReading<'d>,
    at: &mut SteadyPlace<X>,
    c: char,
    home: CollationData<'d>,
    found: &SteadyMatch<'d>,
    given: &mut StepElements<'d>,
)
    requires is_digit { kind_of found.now.ce32 ≡ Digit }
    requires well_formed { IsWellFormedMatch (data_of home) c found.now.ce32 }
    ensures elements { elements_to_give (reading_of reading.entry) given.new
        (recent_chars at.new.recent) (X.unread at.new.text)
        ≡ elements_from (reading_of reading.entry) (recent_chars at.old.recent) c
        (digit_step (reading_of reading.entry) (data_of home.entry) c
        (steady_match found.now (X.unread at.old.text))) }
    ensures fewer { length (X.unread at.new.text) ≤ length (X.unread at.old.text) }
{
    match reading.numeric_primary {
        Some(lead) => read_digits_from(reading, lead, at, c, home, found, given),
        None => read_final(
            reading,
            at,
            c,
            home,
            home.get_ce32(found.ce32.index()),
            found,
            given,
        ),
    }
}

/// Reads by the entry that a match came to.
#[tactic(auto, unfolding(crate::specs::TextElements::entry_step))]
fn read_entry<'d, X: TextForMatches>(
    reading: TextReading<'d>,
    at: &mut SteadyPlace<X>,
    c: char,
    home: CollationData<'d>,
    found: &SteadyMatch<'d>,
    given: &mut StepElements<'d>,
)
    requires { IsWellFormedMatch (data_of home) c found.now.ce32 }
    ensures elements { elements_to_give (reading_of reading.entry) given.new
        (recent_chars at.new.recent) (X.unread at.new.text)
        ≡ elements_from (reading_of reading.entry) (recent_chars at.old.recent) c
        (entry_step (reading_of reading.entry) (data_of home.entry) c
        (steady_match found.now (X.unread at.old.text))) }
    ensures fewer { length (X.unread at.new.text) ≤ length (X.unread at.old.text) }
{
    match found.ce32.kind() {
        EntryKind::Digit => read_digit(reading, at, c, home, found, given),
        _ => read_final(reading, at, c, home, found.ce32, found, given),
    }
}

/// Takes the step at a character that was read off the text: a diacritic, or by its entry. Returns the element of a
/// diacritic, and keeps those of an entry.
#[tactic(auto, unfolding(crate::specs::TextElements::matched_step))]
pub(crate) fn read_char<'d, X: TextForMatches>(
    reading: TextReading<'d>,
    at: &mut SteadyPlace<X>,
    c: char,
    given: &mut StepElements<'d>,
) -> Option<CollationElement>
    requires { IsBetweenSteps given.old }
    ensures elements { option_to_list result
        ++ elements_to_give (reading_of reading.entry) given.new
        (recent_chars at.new.recent) (X.unread at.new.text)
        ≡ elements_from (reading_of reading.entry) (recent_chars at.old.recent) c
        (step (reading_of reading.entry) (recent_chars at.old.recent) c (X.unread at.old.text)) }
    ensures fewer { length (X.unread at.new.text) ≤ length (X.unread at.old.text) }
{
    let tables = reading.tables;
    if let Some(secondary) = tables.secondary_of_diacritic(c) {
        return read_diacritic(reading, at, c, secondary);
    }
    let (home, ce32) = tables.homed_entry(c);
    let recent = at.recent;
    let found = find_steady_match(home, c, ce32, recent.as_slice(), &mut at.text);
    read_entry(reading, at, c, home, &found, given);
    None
}
