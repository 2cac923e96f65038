//! The part of a line that is a key.

ghost use Rattle.std.specs.Prelude.{◌≡◌};
ghost use Rattle.line_sorts.specs.fields.LineFields.{behind_key, from_field, from_place, line_part, next_field, past_blanks, past_chars, past_field};

use crate::fields::field_key::{FieldEnds, FieldKey, KeyPlace, KeyStop};
use crate::fields::passing::{from_blank, from_byte, past_blanks, past_byte, past_char};

/// A line without its first field.
fn past_field(ends: FieldEnds, line: &[u8]) -> &[u8]
    ensures { result.now ≡ past_field ends line.entry.now }
{
    match ends {
        FieldEnds::AtByte(byte) => from_byte(line, byte),
        FieldEnds::AtBlanks => from_blank(past_blanks(line)),
    }
}

/// A line from its second field on.
fn next_field(ends: FieldEnds, line: &[u8]) -> &[u8]
    ensures { result.now ≡ next_field ends line.entry.now }
{
    let left = past_field(ends, line);
    match ends {
        FieldEnds::AtByte(_) => past_byte(left),
        FieldEnds::AtBlanks => left,
    }
}

/// A line from a field on, where so many stand before it. None is looked for where nothing is left.
#[tactic(auto, using(crate::proofs::fields::PassingLemmas::no_fields, crate::proofs::fields::PassingLemmas::one_field_more))]
fn from_field(ends: FieldEnds, count: usize, line: &[u8]) -> &[u8]
    ensures { result.now ≡ from_field ends count line.entry.now }
{
    let mut left = line;
    for _ in 0..count {
        if left.is_empty() {
            return left;
        }
        left = next_field(ends, left);
    }
    left
}

/// A line without so many characters.
#[tactic(auto, using(crate::proofs::fields::PassingLemmas::no_chars, crate::proofs::fields::PassingLemmas::one_char_more))]
fn past_chars(count: usize, line: &[u8]) -> &[u8]
    ensures { result.now ≡ past_chars count line.entry.now }
{
    let mut left = line;
    for _ in 0..count {
        if left.is_empty() {
            return left;
        }
        left = past_char(left);
    }
    left
}

/// A line without blanks at its beginning, where they are to be passed over.
fn past_some_blanks(skips: bool, line: &[u8]) -> &[u8]
    ensures { result.now ≡ past_blanks skips line.entry.now }
{
    if skips { past_blanks(line) } else { line }
}

/// A line from a place on.
pub(crate) fn from_place(ends: FieldEnds, place: KeyPlace, line: &[u8]) -> &[u8]
    ensures { result.now ≡ from_place ends place line.entry.now }
{
    let field = from_field(ends, place.fields, line);
    past_chars(place.chars, past_some_blanks(place.skips_blanks, field))
}

/// What stands behind a key.
fn behind_key(ends: FieldEnds, stop: KeyStop, line: &[u8]) -> &[u8]
    ensures { result.now ≡ behind_key ends stop line.entry.now }
{
    match stop {
        KeyStop::LineEnd => &[],
        KeyStop::FieldEnd(fields) => past_field(ends, from_field(ends, fields, line)),
        KeyStop::Place(place) => from_place(ends, place, line),
    }
}

/// The part of a line that is a key: from where it begins up to where it ends, and nothing where that is not behind.
/// No character of UTF-8 is cut.
pub fn line_part(ends: FieldEnds, key: FieldKey, line: &[u8]) -> &[u8]
    ensures { result.now ≡ line_part ends key line.entry.now }
{
    let from = from_place(ends, key.start, line);
    let behind = behind_key(ends, key.stop, line).len();
    &from[..from.len().saturating_sub(behind)]
}
