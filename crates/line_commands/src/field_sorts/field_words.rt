//! The words that say by which fields lines are sorted: `-t C` and `-k POS1[,POS2]` (POSIX, "sort").

use crate::field_sorts::field_sort::{FieldOrder, FieldSort};
use line_sorts::Direction;
use line_sorts::fields::{FieldEnds, FieldKey, KeyPlace, KeyStop};
use std::alloc::{AllocError, Global};

/// The byte that the word behind `-t` names: a character of ASCII, or `\0`.
fn ends_of(word: &str) -> Option<FieldEnds> {
    match word.as_bytes() {
        [byte] => Some(FieldEnds::AtByte(*byte)),
        [b'\\', b'0'] => Some(FieldEnds::AtByte(0)),
        _ => None,
    }
}

/// What is said of keys without letters of their own, and of the whole line if there is no key.
#[derive(Clone, Copy)]
pub struct WholeOrder {
    /// The blanks with which a part begins don't count.
    pub skips_blanks: bool,
    /// Parts are compared by the number with which they begin.
    pub is_numeric: bool,
    /// The order is reversed.
    pub is_reversed: bool,
}

/// Which part of a position comes next.
#[derive(Clone, Copy, PartialEq, Eq)]
enum Stage {
    /// The number of a field.
    Field,
    /// The number of a character.
    Char,
    /// Letters.
    Letters,
}

/// A position, `F[.C][bnr]`: as far as it was read.
#[derive(Clone, Copy)]
struct KeyPosition {
    stage: Stage,
    field: usize,
    char: Option<usize>,
    skips_blanks: bool,
    is_numeric: bool,
    is_reversed: bool,
}

impl KeyPosition {
    /// Nothing was read.
    fn new() -> KeyPosition {
        KeyPosition {
            stage: Stage::Field,
            field: 0,
            char: None,
            skips_blanks: false,
            is_numeric: false,
            is_reversed: false,
        }
    }

    /// Whether it has letters.
    fn has_letters(self) -> bool {
        self.stage == Stage::Letters
    }

    /// A position without letters of a key without any: what is said of all keys counts.
    fn by_whole(self, whole: WholeOrder) -> KeyPosition {
        KeyPosition {
            skips_blanks: whole.skips_blanks,
            is_numeric: whole.is_numeric,
            is_reversed: whole.is_reversed,
            ..self
        }
    }
}

/// A number with a digit more.
fn with_digit(number: usize, byte: u8) -> usize {
    number
        .saturating_mul(10)
        .saturating_add(usize::from(byte.saturating_sub(b'0')))
}

/// A position with a digit more.
fn digit_read(position: KeyPosition, byte: u8) -> Option<KeyPosition> {
    match position.stage {
        Stage::Field => Some(KeyPosition {
            field: with_digit(position.field, byte),
            ..position
        }),
        Stage::Char => Some(KeyPosition {
            char: Some(with_digit(position.char.unwrap_or(0), byte)),
            ..position
        }),
        Stage::Letters => None,
    }
}

/// A position with a letter more, behind whole numbers.
fn letter_read(position: KeyPosition, byte: u8) -> Option<KeyPosition> {
    if position.stage == Stage::Char && position.char.is_none() {
        return None;
    }
    let read = KeyPosition {
        stage: Stage::Letters,
        ..position
    };
    match byte {
        b'b' => Some(KeyPosition {
            skips_blanks: true,
            ..read
        }),
        b'n' => Some(KeyPosition {
            is_numeric: true,
            ..read
        }),
        b'r' => Some(KeyPosition {
            is_reversed: true,
            ..read
        }),
        _ => None,
    }
}

/// A position with a byte more.
fn byte_read(position: KeyPosition, byte: u8) -> Option<KeyPosition> {
    if b'0' <= byte && byte <= b'9' {
        return digit_read(position, byte);
    }
    if byte == b'.' && position.stage == Stage::Field {
        return Some(KeyPosition {
            stage: Stage::Char,
            ..position
        });
    }
    letter_read(position, byte)
}

/// The position that a word has: a field from 1 on.
fn position_of(word: &str) -> Option<KeyPosition> {
    let mut position = KeyPosition::new();
    for byte in word.as_bytes() {
        position = byte_read(position, *byte)?;
    }
    if position.field == 0 || (position.stage == Stage::Char && position.char.is_none()) {
        return None;
    }
    Some(position)
}

/// Where a key begins: at a character from 1 on.
fn start_of(position: KeyPosition) -> Option<KeyPlace> {
    let char = position.char.unwrap_or(1);
    if char == 0 {
        return None;
    }
    Some(KeyPlace {
        fields: position.field.saturating_sub(1),
        skips_blanks: position.skips_blanks,
        chars: char.saturating_sub(1),
    })
}

/// Where a key ends: behind a character, or with the field where none is named, or the character 0.
fn stop_of(position: KeyPosition) -> KeyStop {
    let fields = position.field.saturating_sub(1);
    match position.char {
        None | Some(0) => KeyStop::FieldEnd(fields),
        Some(chars) => KeyStop::Place(KeyPlace {
            fields,
            skips_blanks: position.skips_blanks,
            chars,
        }),
    }
}

/// The direction of a key beside that of the whole order.
pub(crate) fn direction_beside(is_reversed: bool, is_whole_reversed: bool) -> Direction {
    if is_reversed == is_whole_reversed {
        Direction::Ascending
    } else {
        Direction::Descending
    }
}

/// By what the parts are compared that are a key.
pub(crate) fn order_by(is_numeric: bool) -> FieldOrder {
    if is_numeric {
        FieldOrder::AsNumber
    } else {
        FieldOrder::AsText
    }
}

/// The key between two positions, with their letters.
fn key_with_letters(
    first: KeyPosition,
    last: Option<KeyPosition>,
    whole: WholeOrder,
) -> Option<FieldSort> {
    let end = last.unwrap_or(KeyPosition::new());
    let is_reversed = first.is_reversed || end.is_reversed;
    Some(FieldSort {
        part: FieldKey {
            start: start_of(first)?,
            stop: match last {
                None => KeyStop::LineEnd,
                Some(last) => stop_of(last),
            },
        },
        order: order_by(first.is_numeric || end.is_numeric),
        direction: direction_beside(is_reversed, whole.is_reversed),
    })
}

/// The key that two positions name: if they have no letters, what is said of all keys counts.
fn key_between(
    first: KeyPosition,
    last: Option<KeyPosition>,
    whole: WholeOrder,
) -> Option<FieldSort> {
    let has_letters = match last {
        None => first.has_letters(),
        Some(last) => first.has_letters() || last.has_letters(),
    };
    if has_letters {
        return key_with_letters(first, last, whole);
    }
    let last = match last {
        None => None,
        Some(last) => Some(last.by_whole(whole)),
    };
    key_with_letters(first.by_whole(whole), last, whole)
}

/// The key that the word behind `-k` names, `POS1[,POS2]`, beside what is said of all keys.
fn key_of_word(word: &str, whole: WholeOrder) -> Option<FieldSort> {
    match word.split_once(',') {
        None => key_between(position_of(word)?, None, whole),
        Some((first, last)) => { key_between(position_of(first)?, Some(position_of(last)?), whole) }
    }
}

/// The whole line as a key, if blanks don't count in it, or it is compared by the number with which it begins.
fn whole_key(whole: WholeOrder) -> Option<FieldSort> {
    if !whole.skips_blanks && !whole.is_numeric {
        return None;
    }
    let first = KeyPosition {
        field: 1,
        ..KeyPosition::new()
    };
    key_between(first, None, whole)
}

/// What ends a field, by the word behind `-t`: blanks where there is none, or a wrong one.
pub fn field_ends(word: Option<&str>) -> FieldEnds {
    match word {
        Some(word) => ends_of(word).unwrap_or(FieldEnds::AtBlanks),
        None => FieldEnds::AtBlanks,
    }
}

/// The keys that words name beside what is said of all keys, as far as the words are right. If there is no word, it is
/// the whole line, or none if that is compared as it is.
///
/// # Errors
///
/// Fails only where an allocation does.
pub fn keys_of_words(
    alloc: Global,
    words: &[&str],
    whole: WholeOrder,
) -> Result<Vec<FieldSort>, AllocError> {
    let mut sorts = Vec::new(alloc);
    for word in words {
        if let Some(sort) = key_of_word(word, whole) {
            sorts.push(sort)?;
        }
    }
    if words.is_empty()
        && let Some(sort) = whole_key(whole)
    {
        sorts.push(sort)?;
    }
    Ok(sorts)
}

/// The first word that names no key.
fn first_wrong<'a>(words: &[&'a str], whole: WholeOrder) -> Option<&'a str> {
    for word in words {
        if key_of_word(word, whole).is_none() {
            return Some(*word);
        }
    }
    None
}

/// The first word for fields that is wrong: the one behind `-t`, or one behind `-k`.
pub fn wrong_field_word<'a>(
    separator: Option<&'a str>,
    words: &[&'a str],
    whole: WholeOrder,
) -> Option<&'a str> {
    if let Some(word) = separator
        && ends_of(word).is_none()
    {
        return Some(word);
    }
    first_wrong(words, whole)
}
