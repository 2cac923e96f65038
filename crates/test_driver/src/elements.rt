//! The elements of texts, read in each way.
ghost use Rattle.icu_element_reading.specs.CollationElements.{CanGive};

use crate::driver_error::DriverError;
use crate::numbers::{Item, size, written};
use crate::readers::Reader;
use crate::texts::{WrittenText, characters_of, several};
use icu_element_cursor::{ElementCursor, LongPiece, SteadyCursor};
use icu_element_reading::{CollationElements, all_elements};
use icu_table_entries::CollationElement;
use icu_text_decomposition::CountedText;
use icu_text_encodings::{Latin1Text, Utf8Text, Utf16Text};
use std::alloc::{AllocError, Global};
use std::cell::Cell;

impl Item for CollationElement {
    fn push_to(self, text: &mut String) -> Result<(), AllocError> {
        let lower = self.non_primary().bits() & 0xFFFF;
        write!(
            text,
            "{:08X}.{:04X}.{:04X}",
            self.primary(),
            self.secondary(),
            lower
        )
    }
}

/// All elements of a text at once.
fn at_once(reader: &Reader, text: &str) -> Result<Vec<CollationElement>, AllocError> {
    all_elements(reader.reading(), text.chars())
}

/// As many elements as are asked for.
fn first_elements<I: Iterator<Item = char> + Drop>(
    alloc: Global,
    mut elements: CollationElements<'_, I>,
    count: usize,
) -> Result<Vec<CollationElement>, AllocError>
    requires { CanGive I.can_next I.remaining elements }
{
    let mut first = Vec::new(alloc);
    for _ in 0..count {
        first.push(elements.next()?)?;
    }
    Ok(first)
}

/// The elements of a text one by one: two more than so many, where these two are the end element without them.
fn one_by_one(
    alloc: Global,
    reader: &Reader,
    text: &str,
    count: usize,
) -> Result<Vec<CollationElement>, AllocError> {
    let elements = CollationElements::new(text.chars(), reader.reading());
    let mut read = first_elements(alloc, elements, count.saturating_add(2))?;
    let end = CollationElement::default();
    if let [.., last, end_again] = read.as_slice() {
        if *last == end && *end_again == end {
            read.truncate(count);
        }
    }
    Ok(read)
}

/// Appends the elements of a cursor up to its end or to a long piece.
fn read_cursor<T: CountedText>(
    cursor: &mut ElementCursor<'_, '_, T>,
    read: &mut Vec<CollationElement>,
) -> Result<(), AllocError> {
    for _ in 0..u64::MAX {
        match cursor.next() {
            Ok(Some(element)) => read.push(element)?,
            Ok(None) | Err(LongPiece) => return Ok(()),
        }
    }
    Ok(())
}

/// The elements of an encoded text, by a cursor, and from a long piece on by one that reads every piece.
fn by_cursor<T: CountedText>(
    alloc: Global,
    reader: &Reader,
    text: T,
) -> Result<Vec<CollationElement>, AllocError> {
    let tables = reader.cursor_tables();
    let mut cursor = ElementCursor::new(&tables, text);
    let mut read = Vec::new(alloc);
    read_cursor(&mut cursor, &mut read)?;
    let mut rest = SteadyCursor::new(cursor);
    for _ in 0..u64::MAX {
        match rest.next() {
            Some(element) => read.push(element)?,
            None => break,
        }
    }
    Ok(read)
}

/// The elements of an encoded text, by a cursor in its encoding.
fn by_cursor_of(
    alloc: Global,
    reader: &Reader,
    text: &WrittenText,
) -> Result<Vec<CollationElement>, DriverError> {
    match text {
        WrittenText::Utf8(bytes) => Ok(by_cursor(alloc, reader, Utf8Text(bytes.as_slice()))?),
        WrittenText::Utf16(units) => Ok(by_cursor(alloc, reader, Utf16Text(units.as_slice()))?),
        WrittenText::Latin1(bytes) => Ok(by_cursor(alloc, reader, Latin1Text(bytes.as_slice()))?),
        WrittenText::Characters(_) => Err(DriverError::Unread),
    }
}

/// The elements of a text at once.
pub(crate) fn whole(alloc: Global, reader: &Reader, text: &str) -> Result<String, DriverError> {
    let text = WrittenText::read(alloc, text)?;
    let elements = at_once(reader, characters_of(&text)?)?;
    Ok(written(alloc, elements.as_slice())?)
}

/// The elements of a text one by one.
pub(crate) fn next(alloc: Global, reader: &Reader, text: &str) -> Result<String, DriverError> {
    let text = WrittenText::read(alloc, text)?;
    let text = characters_of(&text)?;
    let count = at_once(reader, text)?.len();
    let elements = one_by_one(alloc, reader, text, count)?;
    Ok(written(alloc, elements.as_slice())?)
}

/// The elements of a text by a cursor.
pub(crate) fn cursor(alloc: Global, reader: &Reader, text: &str) -> Result<String, DriverError> {
    let elements = by_cursor_of(alloc, reader, &WrittenText::read(alloc, text)?)?;
    Ok(written(alloc, elements.as_slice())?)
}

/// The elements that each way of reading gave, of equal lists one.
#[derive(Drop)]
struct Readings {
    alloc: Global,
    lists: Vec<Vec<CollationElement>>,
}

impl Readings {
    fn add(&mut self, list: Vec<CollationElement>) -> Result<(), AllocError> {
        for other in self.lists.iter() {
            if other.as_slice() == list.as_slice() {
                return Ok(());
            }
        }
        Ok(self.lists.push(list)?)
    }

    /// Adds what a text is read as: characters at once and one by one, another by a cursor.
    fn read(&mut self, reader: &Reader, text: &WrittenText) -> Result<(), DriverError> {
        match text {
            WrittenText::Characters(text) => {
                let list = at_once(reader, text.as_str())?;
                let others = one_by_one(self.alloc, reader, text.as_str(), list.len())?;
                self.add(list)?;
                self.add(others)?;
            }
            text => self.add(by_cursor_of(self.alloc, reader, text)?)?,
        }
        Ok(())
    }

    fn print(&self) -> Result<String, AllocError> {
        let mut text = String::new(self.alloc);
        let mut is_first = true;
        for list in self.lists.iter() {
            if !is_first {
                text.push_str(" / ")?;
            }
            is_first = false;
            text.push_str(written(self.alloc, list.as_slice())?.as_str())?;
        }
        Ok(text)
    }
}

/// The elements of texts that spell the same, each read in its ways: once, or all that differ.
pub(crate) fn all_readings(
    alloc: Global,
    reader: &Reader,
    texts: &str,
) -> Result<String, DriverError> {
    let mut readings = Readings {
        alloc,
        lists: Vec::new(alloc),
    };
    for text in several(alloc, texts)?.iter() {
        readings.read(reader, text)?;
    }
    Ok(readings.print()?)
}

/// How many characters of a text an iterator of elements has read once so many elements were asked for.
fn count_taken(
    alloc: Global,
    reader: &Reader,
    text: &str,
    elements: usize,
) -> Result<u64, AllocError> {
    let count = Cell::new(0u64);
    let delegate = text.chars().map(|c| {
        count.set(count.get().wrapping_add(1));
        c
    });
    let iterator = CollationElements::new(delegate, reader.reading());
    first_elements(alloc, iterator, elements)?;
    Ok(count.get())
}

/// How many characters are taken for the first elements of a text, by the number of elements and the text.
pub(crate) fn taken(alloc: Global, reader: &Reader, question: &str) -> Result<String, DriverError> {
    let (elements, text) = question.split_once(' ').ok_or(DriverError::Unread)?;
    let text = WrittenText::read(alloc, text)?;
    let count = count_taken(alloc, reader, characters_of(&text)?, size(elements)?)?;
    Ok(written(alloc, &[count])?)
}
