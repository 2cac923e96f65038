//! The files below a folder.

use program_files::{ProgramError, bytes_of_word, joined, refused, refused_by_system};
use std::alloc::{AllocError, Global};
use std::fs;
use std::fs::DirEntry;
use std::rt::Files;

/// The files below a folder, and why parts of it weren't read.
#[derive(Drop)]
pub struct FolderFiles {
    /// The names of the files, as words, by the bytes of their paths.
    pub files: Vec<String>,
    /// What is said of what wasn't read.
    pub refusals: Vec<ProgramError>,
}

/// What is printed before each name below the folder `.`, and left out.
const HERE: &str = "./";

/// Why a folder isn't read whose name isn't UTF-8.
const NOT_TEXT: &str = "its name isn't UTF-8";

/// Why a file isn't read whose name has one of the last 128 private characters, which stand for bytes in words.
const PRIVATE: &str = "its name has a private character; give it as standard input";

/// The name that a word is, if it is UTF-8.
fn path_of_word(alloc: Global, word: &str) -> Result<Option<String>, AllocError> {
    match String::from_utf8(bytes_of_word(alloc, word)?) {
        Ok(name) => Ok(Some(name)),
        Err(_) => Ok(None),
    }
}

/// Whether a word names a folder, or a link to one.
///
/// # Errors
///
/// Fails only where an allocation does.
pub fn is_folder<R: Files + AllocGlobal>(rt: &R, word: &str) -> Result<bool, AllocError> {
    let Some(name) = path_of_word(rt.alloc(), word)? else {
        return Ok(false);
    };
    match fs::metadata(rt, name.as_str()) {
        Ok(metadata) => Ok(metadata.is_dir()),
        Err(_) => Ok(false),
    }
}

/// Keeps what is said of what wasn't read. A want of memory is handed on.
fn keep_refusal(refusals: &mut Vec<ProgramError>, error: ProgramError) -> Result<(), ProgramError> {
    match error {
        ProgramError::NoMemory => Err(ProgramError::NoMemory),
        error => Ok(refusals.push(error)?),
    }
}

/// Appends the path of an entry of a folder: with a slash behind it, if it is a folder. Links aren't followed, and what
/// is neither a file nor a folder is left out.
fn push_entry<R: Files + Clone + Drop + AllocGlobal>(
    rt: &R,
    folder: &str,
    entry: &DirEntry<R, Global>,
    paths: &mut Vec<String>,
    refusals: &mut Vec<ProgramError>,
) -> Result<(), ProgramError> {
    let mut path = joined(rt.alloc(), folder, entry.file_name())?;
    match entry.file_type() {
        Ok(kind) if kind.is_dir() => {
            path.push('/')?;
            paths.push(path)?;
        }
        Ok(kind) if kind.is_file() => paths.push(path)?,
        Ok(_) => {}
        Err(error) => {
            let error = refused_by_system(rt.alloc(), path.as_str(), &error);
            keep_refusal(refusals, error)?;
        }
    }
    Ok(())
}

/// The paths of what is in a folder, whose own path ends with a slash, by their bytes.
fn paths_in<R: Files + Clone + Drop + AllocGlobal>(
    rt: &R,
    folder: &str,
    refusals: &mut Vec<ProgramError>,
) -> Result<Vec<String>, ProgramError> {
    let mut paths = Vec::new(rt.alloc());
    let entries = match fs::read_dir(rt, folder) {
        Ok(entries) => entries,
        Err(error) => {
            keep_refusal(refusals, refused_by_system(rt.alloc(), folder, &error))?;
            return Ok(paths);
        }
    };
    for entry in entries {
        match entry {
            Ok(entry) => push_entry(rt, folder, &entry, &mut paths, refusals)?,
            Err(error) => {
                keep_refusal(refusals, refused_by_system(rt.alloc(), folder, &error))?;
            }
        }
    }
    paths.sort()?;
    Ok(paths)
}

/// Keeps a file that was found. Its word is its path as it is printed: without the name of the folder `.`.
fn keep_file(alloc: Global, path: &str, found: &mut FolderFiles) -> Result<(), ProgramError> {
    let word = path.strip_prefix(HERE).unwrap_or(path);
    if bytes_of_word(alloc, word)?.as_slice() == word.as_bytes() {
        Ok(found.files.push(word.to_string(alloc)?)?)
    } else {
        keep_refusal(&mut found.refusals, refused(alloc, path, PRIVATE))
    }
}

/// Puts paths onto those that are looked at next, the last one first.
fn push_reversed(left: &mut Vec<String>, paths: Vec<String>) -> Result<(), AllocError> {
    let mut paths = paths;
    for _ in 0..u64::MAX {
        let Some(path) = paths.pop() else {
            break;
        };
        left.push(path)?;
    }
    Ok(())
}

/// The files below a folder that a word names, in the order of the bytes of their paths. A link is followed only if
/// the word itself is one.
///
/// # Errors
///
/// Fails where an allocation does, or with a line that says that the folder's name isn't UTF-8. Of a part that isn't
/// read it is kept why.
pub fn files_below<R: Files + Clone + Drop + AllocGlobal>(
    rt: &R,
    word: &str,
) -> Result<FolderFiles, ProgramError> {
    let alloc = rt.alloc();
    let Some(name) = path_of_word(alloc, word)? else {
        return Err(refused(alloc, word, NOT_TEXT));
    };
    let mut found = FolderFiles {
        files: Vec::new(alloc),
        refusals: Vec::new(alloc),
    };
    let mut first = name;
    if !first.as_str().ends_with('/') {
        first.push('/')?;
    }
    let mut left = Vec::new(alloc);
    left.push(first)?;
    for _ in 0..u64::MAX {
        let Some(path) = left.pop() else {
            break;
        };
        if path.as_str().ends_with('/') {
            let paths = paths_in(rt, path.as_str(), &mut found.refusals)?;
            push_reversed(&mut left, paths)?;
        } else {
            keep_file(alloc, path.as_str(), &mut found)?;
        }
    }
    Ok(found)
}
