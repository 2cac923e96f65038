//! The root of CLDR, from the lines of FractionalUCA.txt.
use crate::driver_error::DriverError;
use crate::tables::vectors;
use icu_cldr_root::{CldrRoot, ReadError, read_root};
use icu_table_data::CollationData;
use icu_table_entries::DataError;
use icu_table_mini::mini::Mini;
use icu_table_provider::builder::DataVectors;
use icu_table_provider::{CollationProvider, DataRequest};
use std::alloc::{AllocError, Global};
use std::io::BufRead;

/// The tables of a file, with what its provider refuses, or why it isn't read.
#[derive(Drop)]
pub(crate) enum CldrFile {
    Root(Mini, String),
    Refused(String),
}

/// Reads a file.
pub(crate) fn read_cldr<R: BufRead + Drop>(
    alloc: Global,
    reader: R,
) -> Result<CldrFile, DriverError> {
    match read_root(alloc, reader) {
        Ok(root) => Ok(CldrFile::Root(tables(alloc, &root)?, absent(alloc, &root)?)),
        Err(ReadError::NoMemory) => Err(DriverError::NoMemory),
        Err(error) => Ok(CldrFile::Refused(error.to_string(alloc)?)),
    }
}

fn loaded<T>(loaded: Result<T, DataError>) -> Result<T, DriverError> {
    match loaded {
        Ok(loaded) => Ok(loaded),
        Err(_) => Err(DriverError::Unread),
    }
}

/// The lists of a root.
fn vectors_of(alloc: Global, data: CollationData<'_>) -> Result<DataVectors, AllocError> {
    let (trie, ces, ce32s, contexts) = data.parts();
    let (contexts, mappings, chars) = contexts.parts();
    vectors(
        alloc,
        trie.parts(),
        (ces, ce32s),
        (contexts, mappings, chars),
    )
}

/// The tables of a root: no tailoring, and no reordering.
fn tables(alloc: Global, root: &CldrRoot) -> Result<Mini, DriverError> {
    let request = DataRequest::default();
    let special = loaded(root.load_special_primaries())?;
    let jamo = loaded(root.load_jamo())?;
    let diacritics = loaded(root.load_diacritics(request))?;
    Ok(Mini {
        root: vectors_of(alloc, loaded(root.load_root())?)?,
        tailoring: None,
        jamo: Vec::from_slice(alloc, jamo.ce32s())?,
        diacritics: Vec::from_slice(alloc, diacritics.secondaries())?,
        last_primaries: Vec::from_slice(alloc, special.last_primaries())?,
        numeric_primary: special.numeric_primary(),
        metadata: loaded(root.load_metadata(request))?,
        reordering: None,
    })
}

/// Why a table isn't there.
fn error<T: Drop>(alloc: Global, loaded: Result<T, DataError>) -> Result<String, AllocError> {
    match loaded {
        Ok(_) => String::from_str(alloc, "ok"),
        Err(error) => error.to_string(alloc),
    }
}

/// Why a root has no tailoring and no reordering.
fn absent(alloc: Global, root: &CldrRoot) -> Result<String, AllocError> {
    let request = DataRequest::default();
    let mut text = error(alloc, root.load_tailoring(request))?;
    text.push_str(", ")?;
    text.push_str(error(alloc, root.load_reordering(request))?.as_str())?;
    Ok(text)
}
