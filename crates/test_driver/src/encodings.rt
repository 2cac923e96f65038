//! Texts in Latin-1, UTF-16 and UTF-8, damaged or not.
ghost use Rattle.std.specs.Prelude.{◌≡◌};
ghost use Rattle.std.specs.Iterator.{IsFinite};

use crate::driver_error::DriverError;
use crate::numbers::{size, written};
use crate::texts::{WrittenText, two};
use icu_text_encodings::{
    Characters, CommonUnits, EncodedText, Latin1Chars, Latin1Text, Utf8Text, Utf16Chars, Utf16Text,
    utf8_chars,
};
use std::alloc::{AllocError, Global};

/// The characters of a text, in whatever way it is read.
pub(crate) fn characters(alloc: Global, text: &str) -> Result<String, DriverError> {
    match &WrittenText::read(alloc, text)? {
        WrittenText::Utf8(bytes) => {
            let bytes = bytes.as_slice();
            Ok(read_in_each_way(alloc, utf8_chars(bytes), Utf8Text(bytes))?)
        }
        WrittenText::Utf16(units) => {
            let units = units.as_slice();
            Ok(read_in_each_way(alloc, Utf16Chars::new(units), Utf16Text(units))?)
        }
        WrittenText::Latin1(bytes) => {
            let bytes = bytes.as_slice();
            Ok(read_in_each_way(alloc, bytes.latin1_chars(), Latin1Text(bytes))?)
        }
        WrittenText::Characters(_) => Err(DriverError::Unread),
    }
}

/// Characters that are read from the front, by a clone, from the back, and off the text itself. It is said where these
/// differ.
fn read_in_each_way<I: DoubleEndedIterator<Item = char> + Clone + Drop, T: EncodedText>(
    alloc: Global,
    decoder: I,
    text: T,
) -> Result<String, AllocError>
    requires front { I.can_next decoder }
    requires back { I.can_next_back decoder }
    requires ends { IsFinite (I.remaining decoder) }
    requires same { (copy : I) → I.is_clone decoder copy → copy ≡ decoder }
{
    let copy = decoder.clone()?;
    let from_back = decoder.clone()?;
    let read: Vec<char> = decoder.collect(alloc)?;
    let read = read.as_slice();
    let same = reads_as(alloc, copy, read)?
        && reads_back_as(alloc, from_back, read)?
        && reads_as(alloc, Characters::new(text), read)?;
    if same {
        written(alloc, read)
    } else {
        String::from_str(alloc, "the ways differ")
    }
}

/// Whether these characters are read from the front.
fn reads_as<I: Iterator<Item = char> + Drop>(
    alloc: Global,
    decoder: I,
    expected: &[char],
) -> Result<bool, AllocError>
    requires front { I.can_next decoder }
    requires ends { IsFinite (I.remaining decoder) }
{
    let read: Vec<char> = decoder.collect(alloc)?;
    Ok(read.as_slice() == expected)
}

/// Whether these characters are read from the back.
fn reads_back_as<I: DoubleEndedIterator<Item = char> + Drop>(
    alloc: Global,
    decoder: I,
    expected: &[char],
) -> Result<bool, AllocError>
    requires back { I.can_next_back decoder }
    requires ends { IsFinite (I.remaining decoder) }
{
    let mut read: Vec<char> = decoder.rev().collect(alloc)?;
    read.as_mut_slice().reverse();
    Ok(read.as_slice() == expected)
}

/// What is asked of the front of a text.
#[derive(Clone, Copy)]
pub(crate) enum FrontPart {
    /// The first character.
    First,
    /// The first character, where it is ASCII.
    Ascii,
    /// What follows so many units.
    After(usize),
}

/// What stands at the front of a text, and what follows it.
pub(crate) fn at_front(alloc: Global, front: FrontPart, text: &str) -> Result<String, DriverError> {
    match &WrittenText::read(alloc, text)? {
        WrittenText::Utf8(bytes) => Ok(taken_apart(alloc, front, Utf8Text(bytes.as_slice()))?),
        WrittenText::Utf16(units) => Ok(taken_apart(alloc, front, Utf16Text(units.as_slice()))?),
        WrittenText::Latin1(bytes) => Ok(taken_apart(alloc, front, Latin1Text(bytes.as_slice()))?),
        WrittenText::Characters(_) => Err(DriverError::Unread),
    }
}

/// What follows so many units of a text, by the number and the text.
pub(crate) fn after(alloc: Global, question: &str) -> Result<String, DriverError> {
    let (at, text) = question.split_once(' ').ok_or(DriverError::Unread)?;
    at_front(alloc, FrontPart::After(size(at)?), text)
}

/// The first character of a text and what follows it, or what follows a number of units.
fn taken_apart<T: EncodedText>(
    alloc: Global,
    front: FrontPart,
    text: T,
) -> Result<String, AllocError> {
    let found = match front {
        FrontPart::First => text.split_first_char(),
        FrontPart::Ascii => match text.split_first_ascii() {
            Some((byte, rest)) => Some((char::from(byte), rest)),
            None => None,
        },
        FrontPart::After(at) => {
            return match text.split_at(at) {
                Some(rest) => rest_of(alloc, rest),
                None => String::from_str(alloc, "no cut"),
            };
        }
    };
    match found {
        Some((first, rest)) => {
            let rest = rest_of(alloc, rest)?;
            format!(in alloc; "{:X} : {rest}", first as u32)
        }
        None => String::from_str(alloc, "none"),
    }
}

/// What is left of a text: how many units, and their characters.
fn rest_of<T: EncodedText>(alloc: Global, rest: T) -> Result<String, AllocError> {
    let count = rest.unit_count();
    let chars: Vec<char> = Characters::new(rest).collect(alloc)?;
    let chars = written(alloc, chars.as_slice())?;
    format!(in alloc; "{count:X} : {chars}")
}

/// How many first units two texts have in common, where their encodings can be compared so.
fn common_units(left: &WrittenText, right: &WrittenText) -> Option<usize> {
    match (left, right) {
        (WrittenText::Utf8(left), WrittenText::Utf8(right)) => {
            Some(Utf8Text(left.as_slice()).common_units(Utf8Text(right.as_slice())))
        }
        (WrittenText::Utf16(left), WrittenText::Utf16(right)) => {
            Some(Utf16Text(left.as_slice()).common_units(Utf16Text(right.as_slice())))
        }
        (WrittenText::Latin1(left), WrittenText::Latin1(right)) => {
            Some(Latin1Text(left.as_slice()).common_units(Latin1Text(right.as_slice())))
        }
        (WrittenText::Latin1(left), WrittenText::Utf16(right)) => {
            Some(Latin1Text(left.as_slice()).common_units(Utf16Text(right.as_slice())))
        }
        _ => None,
    }
}

/// How many first units two texts have in common.
pub(crate) fn common(alloc: Global, texts: &str) -> Result<String, DriverError> {
    let (left, right) = two(alloc, texts)?;
    let count = common_units(&left, &right).ok_or(DriverError::Unread)?;
    Ok(format!(in alloc; "{count:X}")?)
}
