//! An index of names.
use crate::driver_error::DriverError;
use crate::numbers::written;
use crate::texts::{WrittenText, bytes_of, several};
use icu_collator::Collator;
use icu_index::{NameIndex, NameIter};
use std::alloc::{AllocError, Global};

/// Appends a name to a listing, whose first one has no comma before it.
fn push_name(
    alloc: Global,
    text: &mut String,
    is_first: bool,
    name: &[u8],
) -> Result<(), AllocError> {
    if !is_first {
        text.push_str(" , ")?;
    }
    text.push_str(written(alloc, name)?.as_str())
}

/// The names of an index, in its order.
fn listing(alloc: Global, index: &NameIndex<'_>) -> Result<String, AllocError> {
    let mut text = String::new(alloc);
    let mut is_first = true;
    for name in index.iter() {
        push_name(alloc, &mut text, is_first, name)?;
        is_first = false;
    }
    Ok(text)
}

/// An index of names, each put in once.
fn index_at_once<'c>(
    alloc: Global,
    collator: &'c Collator,
    names: &[WrittenText],
) -> Result<NameIndex<'c>, DriverError> {
    let mut index = NameIndex::new(alloc, collator);
    for name in names {
        let name = bytes_of(name)?;
        index.insert(name)?;
    }
    Ok(index)
}

/// Whether an index of these names has this listing.
fn is_listing_of(
    alloc: Global,
    collator: &Collator,
    names: &[WrittenText],
    listed: &str,
) -> Result<bool, DriverError> {
    let index = index_at_once(alloc, collator, names)?;
    let listing = listing(alloc, &index)?;
    Ok(listing.as_str() == listed)
}

/// An index of names, each put in once more where an allocation failed; or nothing where a call that failed changed the
/// index.
fn index<'c>(
    alloc: Global,
    collator: &'c Collator,
    names: &[WrittenText],
) -> Result<Option<NameIndex<'c>>, DriverError> {
    let mut index = NameIndex::new(alloc, collator);
    let mut count = 0usize;
    for name in names {
        let name = bytes_of(name)?;
        if index.insert(name).is_err() {
            let left = listing(alloc, &index)?;
            let before = names.get(..count).unwrap_or(&[]);
            if !is_listing_of(alloc, collator, before, left.as_str())? {
                return Ok(None);
            }
            index.insert(name)?;
        }
        count = count.saturating_add(1);
    }
    Ok(Some(index))
}

fn lost(alloc: Global) -> Result<String, DriverError> {
    Ok(String::from_str(alloc, "lost")?)
}

/// How many names an index of these has, and its listing.
pub(crate) fn names(
    alloc: Global,
    collator: &Collator,
    names: &str,
) -> Result<String, DriverError> {
    let names = several(alloc, names)?;
    let Some(index) = index(alloc, collator, names.as_slice())? else {
        return lost(alloc);
    };
    let listing = listing(alloc, &index)?;
    Ok(format!(in alloc; "{:X} : {listing}", index.len())?)
}

/// How many names an iterator gives, and these.
fn given(alloc: Global, names: NameIter<'_>) -> Result<String, AllocError> {
    let mut text = String::new(alloc);
    let mut count = 0usize;
    for name in names {
        push_name(alloc, &mut text, count == 0, name)?;
        count = count.saturating_add(1);
    }
    format!(in alloc; "{count:X} : {text}")
}

/// The names that are equal to the first one, of an index of the others.
pub(crate) fn equals(
    alloc: Global,
    collator: &Collator,
    names: &str,
) -> Result<String, DriverError> {
    let names = several(alloc, names)?;
    let (name, names) = names.as_slice().split_first().ok_or(DriverError::Unread)?;
    match index(alloc, collator, names)? {
        Some(index) => Ok(given(alloc, index.equal_to(bytes_of(name)?)?)?),
        None => lost(alloc),
    }
}

/// The names from the first one on and before the second, of an index of the others.
pub(crate) fn between(
    alloc: Global,
    collator: &Collator,
    names: &str,
) -> Result<String, DriverError> {
    let names = several(alloc, names)?;
    let (from, names) = names.as_slice().split_first().ok_or(DriverError::Unread)?;
    let (to, names) = names.split_first().ok_or(DriverError::Unread)?;
    match index(alloc, collator, names)? {
        Some(index) => {
            let found = index.between(bytes_of(from)?, bytes_of(to)?)?;
            Ok(given(alloc, found)?)
        }
        None => lost(alloc),
    }
}
