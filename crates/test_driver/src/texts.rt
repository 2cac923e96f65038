//! Texts, each in its encoding.
use crate::driver_error::DriverError;
use crate::numbers::{FromNumber, list, numbers};
use std::alloc::Global;

/// A text in an encoding.
#[derive(Drop)]
pub(crate) enum WrittenText {
    Characters(String),
    Utf8(Vec<u8>),
    Utf16(Vec<u16>),
    Latin1(Vec<u8>),
}

impl WrittenText {
    /// The text that a question writes: the name of an encoding, and its units.
    pub(crate) fn read(alloc: Global, written: &str) -> Result<WrittenText, DriverError> {
        let written = written.trim();
        let (encoding, units) = written.split_once(' ').unwrap_or((written, ""));
        let units = numbers(alloc, units)?;
        of_units(alloc, encoding, units.as_slice())
    }
}

fn of_units(alloc: Global, encoding: &str, units: &[u64]) -> Result<WrittenText, DriverError> {
    match encoding {
        "c" => Ok(WrittenText::Characters(characters(alloc, units)?)),
        "8" => Ok(WrittenText::Utf8(list(alloc, units)?)),
        "16" => Ok(WrittenText::Utf16(list(alloc, units)?)),
        "1" => Ok(WrittenText::Latin1(list(alloc, units)?)),
        _ => Err(DriverError::Unread),
    }
}

fn characters(alloc: Global, units: &[u64]) -> Result<String, DriverError> {
    let mut text = String::new(alloc);
    for unit in units {
        text.push(char::of(*unit).ok_or(DriverError::Unread)?)?;
    }
    Ok(text)
}

/// Two texts, with a comma between.
pub(crate) fn two(alloc: Global, written: &str) -> Result<(WrittenText, WrittenText), DriverError> {
    let (left, right) = written.split_once(',').ok_or(DriverError::Unread)?;
    Ok((
        WrittenText::read(alloc, left)?,
        WrittenText::read(alloc, right)?,
    ))
}

/// Texts, with commas between.
pub(crate) fn several(alloc: Global, written: &str) -> Result<Vec<WrittenText>, DriverError> {
    let mut texts = Vec::new(alloc);
    for written in written.split(',') {
        texts.push(WrittenText::read(alloc, written)?)?;
    }
    Ok(texts)
}

/// The characters of a text that is written so.
pub(crate) fn characters_of(text: &WrittenText) -> Result<&str, DriverError> {
    match text {
        WrittenText::Characters(text) => Ok(text.as_str()),
        _ => Err(DriverError::Unread),
    }
}

/// The bytes of a text in UTF-8.
pub(crate) fn bytes_of(text: &WrittenText) -> Result<&[u8], DriverError> {
    match text {
        WrittenText::Characters(text) => Ok(text.as_str().as_bytes()),
        WrittenText::Utf8(bytes) => Ok(bytes.as_slice()),
        _ => Err(DriverError::Unread),
    }
}
