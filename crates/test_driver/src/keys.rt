//! Sort keys.
use crate::driver_error::DriverError;
use crate::numbers::{size, written};
use crate::texts::WrittenText;
use icu_collator::{CollationKeySink, Collator, SortKeyError, TooSmall};
use std::alloc::{AllocError, Global};

/// Writes the key of a text into a sink, by the call for its encoding. None writes keys of Latin-1.
pub(crate) fn write<S: CollationKeySink>(
    collator: &Collator,
    text: &WrittenText,
    sink: &mut S,
) -> Option<Result<S::Output, SortKeyError<S::Error>>> {
    let borrowed = collator.as_borrowed();
    match text {
        WrittenText::Characters(text) => Some(borrowed.write_sort_key_to(text.as_str(), sink)),
        WrittenText::Utf8(bytes) => Some(borrowed.write_sort_key_utf8_to(bytes.as_slice(), sink)),
        WrittenText::Utf16(units) => Some(borrowed.write_sort_key_utf16_to(units.as_slice(), sink)),
        WrittenText::Latin1(_) => None,
    }
}

/// What says that no call writes the key of a text.
pub(crate) fn no_call(alloc: Global) -> Result<String, DriverError> {
    Ok(String::from_str(alloc, "no call")?)
}

/// The key of a text, where a call writes one.
pub(crate) fn key_of(
    alloc: Global,
    collator: &Collator,
    text: &WrittenText,
) -> Result<Option<Vec<u8>>, AllocError> {
    let mut key = Vec::new(alloc);
    match write(collator, text, &mut key) {
        Some(Ok(())) => Ok(Some(key)),
        Some(Err(_)) => Err(AllocError),
        None => Ok(None),
    }
}

/// The key of a text.
pub(crate) fn key(alloc: Global, collator: &Collator, text: &str) -> Result<String, DriverError> {
    match key_of(alloc, collator, &WrittenText::read(alloc, text)?)? {
        Some(key) => Ok(written(alloc, key.as_slice())?),
        None => no_call(alloc),
    }
}

/// What a call returned that wrote a key into a slice.
#[derive(Clone, Copy, PartialEq, Eq)]
enum Fit {
    Whole(usize),
    TooSmall(usize),
    NoCall,
}

fn write_into(
    collator: &Collator,
    text: &WrittenText,
    bytes: &mut [u8],
) -> Result<Fit, AllocError> {
    let mut slice = bytes;
    match write(collator, text, &mut slice) {
        Some(Ok(length)) => Ok(Fit::Whole(length)),
        Some(Err(SortKeyError::Sink(TooSmall { length }))) => Ok(Fit::TooSmall(length)),
        Some(Err(SortKeyError::NoMemory)) => Err(AllocError),
        None => Ok(Fit::NoCall),
    }
}

/// What the last of so many calls returned, if all returned the same.
fn write_times(
    collator: &Collator,
    text: &WrittenText,
    bytes: &mut [u8],
    times: u64,
) -> Result<Option<Fit>, AllocError> {
    let first = write_into(collator, text, bytes)?;
    for _ in 1..times {
        if write_into(collator, text, bytes)? != first {
            return Ok(None);
        }
    }
    Ok(Some(first))
}

/// What a call returns that writes a key into a slice of so many bytes 7F, and the slice's bytes.
pub(crate) fn slice(
    alloc: Global,
    collator: &Collator,
    question: &str,
    times: u64,
) -> Result<String, DriverError> {
    let (length, text) = question.split_once(' ').ok_or(DriverError::Unread)?;
    let text = WrittenText::read(alloc, text)?;
    let mut bytes = vec![in alloc; 0x7Fu8; size(length)?]?;
    let fit = write_times(collator, &text, bytes.as_mut_slice(), times)?;
    let bytes = written(alloc, bytes.as_slice())?;
    match fit {
        Some(Fit::Whole(length)) => Ok(format!(in alloc; "ok {length:X} : {bytes}")?),
        Some(Fit::TooSmall(length)) => Ok(format!(in alloc; "too small {length:X} : {bytes}")?),
        Some(Fit::NoCall) => no_call(alloc),
        None => Ok(String::from_str(alloc, "unlike")?),
    }
}
