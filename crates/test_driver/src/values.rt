//! Single values of tables.
use crate::driver_error::DriverError;
use crate::numbers::{single, written};
use crate::settings::GROUPS;
use icu_table_data::CodePointTable;
use icu_table_mini::mini::Mini;
use icu_table_provider::builder::DataVectors;
use icu_table_provider::{CollationMetadata, CollationSpecialPrimaries};
use std::alloc::{AllocError, Global};

/// The entry of a character.
pub(crate) fn entry(alloc: Global, data: &DataVectors, c: &str) -> Result<String, DriverError> {
    let c: char = single(c)?;
    match CodePointTable::new(data.blocks.as_slice(), data.values.as_slice()) {
        Ok(table) => Ok(written(alloc, &[table.get(c)])?),
        Err(_) => Err(DriverError::Unread),
    }
}

/// A primary weight as it is reordered.
pub(crate) fn reordered(alloc: Global, mini: &Mini, primary: &str) -> Result<String, DriverError> {
    let primary: u32 = single(primary)?;
    match mini.load_reordering() {
        Ok(Some(reordering)) => Ok(written(alloc, &[reordering.reorder(primary)])?),
        Ok(None) => Ok(String::from_str(alloc, "none")?),
        Err(_) => Err(DriverError::Unread),
    }
}

fn special_primaries(mini: &Mini) -> Result<CollationSpecialPrimaries<'_>, DriverError> {
    match mini.load_special_primaries() {
        Ok(special) => Ok(special),
        Err(_) => Err(DriverError::Unread),
    }
}

/// Whether primary weights with a lead byte are compressed.
pub(crate) fn compressible(alloc: Global, mini: &Mini, lead: &str) -> Result<String, DriverError> {
    let lead: u8 = single(lead)?;
    let special = special_primaries(mini)?;
    Ok(format!(in alloc; "{}", special.is_compressible(lead))?)
}

/// The last primary weight of the variable group with this number.
pub(crate) fn last(alloc: Global, mini: &Mini, group: &str) -> Result<String, DriverError> {
    let group: u8 = single(group)?;
    let group = GROUPS.get(usize::from(group)).ok_or(DriverError::Unread)?;
    let special = special_primaries(mini)?;
    Ok(written(alloc, &[special.last_primary_for_group(*group)])?)
}

/// The settings of metadata: the last variable group, the case that comes first, and the flags that are set.
pub(crate) fn metadata(alloc: Global, metadata: CollationMetadata) -> Result<String, AllocError> {
    let group = metadata.max_variable();
    let first = metadata.case_first();
    let mut printed = format!(in alloc; "{group:?} {first:?}")?;
    for (name, is_set) in [
        ("tailored", metadata.tailored()),
        ("diacritics", metadata.tailored_diacritics()),
        ("reordering", metadata.reordering()),
        ("Lithuanian", metadata.lithuanian_dot_above()),
        ("backward", metadata.backward_second_level()),
        ("shifted", metadata.alternate_shifted()),
    ] {
        if is_set {
            write!(printed, " {name}")?;
        }
    }
    Ok(printed)
}
