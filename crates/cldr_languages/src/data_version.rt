//! The version of CLDR's data.

use crate::language_error::LanguageError;
use crate::text_files::text_if_there;
use std::rt::Files;

/// The file of a folder of CLDR's data that has its version.
const VERSION_FILE: &str = "/common/dtd/ldml.dtd";

/// What stands before the version there.
const BEFORE: &str = "cldrVersion CDATA #FIXED \"";

/// The version that a text has.
fn version_in(text: &str) -> Option<&str> {
    let (_, behind) = text.split_once(BEFORE)?;
    let (version, _) = behind.split_once("\"")?;
    Some(version)
}

/// The version of CLDR whose data a folder has, as `41`; empty where its file `ldml.dtd` isn't there or doesn't say it.
///
/// # Errors
///
/// Fails where an allocation does, or with the file, if it is there and isn't read.
pub fn cldr_version<R: Files + AllocGlobal>(rt: &R, folder: &str) -> Result<String, LanguageError> {
    let file = format!(in rt.alloc(); "{folder}{VERSION_FILE}")?;
    let Some(text) = text_if_there(rt, file.as_str())? else {
        return Ok(String::new(rt.alloc()));
    };
    match version_in(text.as_str()) {
        Some(version) => Ok(version.to_string(rt.alloc())?),
        None => Ok(String::new(rt.alloc())),
    }
}

/// What is said of a version that isn't known.
const UNKNOWN: &str = "of an unknown version";

/// A version, as it is said: an empty one isn't known.
pub fn said_version(version: &str) -> &str {
    if version.is_empty() { UNKNOWN } else { version }
}
