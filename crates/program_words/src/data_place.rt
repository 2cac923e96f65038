//! Where the data are.

use program_files::{ProgramError, joined, refused};
use std::env::{self, VarError};
use std::rt::Env;

/// Where Debian's package unicode-cldr-core installs CLDR's data.
const USUAL_FOLDER: &str = "/usr/share/unicode/cldr";

/// The root's file in a folder of CLDR's data.
const ROOT_FILE: &str = "/common/uca/FractionalUCA.txt";

/// The folder of CLDR's data: the one that is named, else that of the environment's `CLDR_DIR`, else the usual one.
///
/// # Errors
///
/// Fails where an allocation does, or with a line that names the variable, where it isn't in UTF-8.
pub fn cldr_folder<R: Env + AllocGlobal>(
    rt: &R,
    folder: Option<&str>,
) -> Result<String, ProgramError> {
    if let Some(folder) = folder {
        return Ok(folder.to_string(rt.alloc())?);
    }
    match env::var(rt, "CLDR_DIR") {
        Ok(folder) if !folder.is_empty() => Ok(folder),
        Ok(_) | Err(VarError::NotPresent) => Ok(USUAL_FOLDER.to_string(rt.alloc())?),
        Err(VarError::NotUnicode) => Err(refused(rt.alloc(), "CLDR_DIR", "not in UTF-8")),
        Err(VarError::OutOfMemory) => Err(ProgramError::NoMemory),
    }
}

/// The file of the root's data: the one that is named, else that of the folder of CLDR's data, which may be named.
///
/// # Errors
///
/// Those of `cldr_folder`.
pub fn root_file<R: Env + AllocGlobal>(
    rt: &R,
    root: Option<&str>,
    folder: Option<&str>,
) -> Result<String, ProgramError> {
    if let Some(file) = root {
        return Ok(file.to_string(rt.alloc())?);
    }
    let folder = cldr_folder(rt, folder)?;
    Ok(joined(rt.alloc(), folder.as_str(), ROOT_FILE)?)
}
