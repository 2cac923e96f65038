//! A file that is written as a whole: by another one beside it, which then takes its name.

use crate::open_file_facts::{OpenFileFacts, facts_of_file};
use crate::writing::write_text;
use std::fs;
use std::fs::{File, OpenOptions, Permissions};
use std::io::{Error, ErrorKind, Result};
use std::os::unix::fs::{OpenOptionsExt, PermissionsExt, fchown};
use std::random::RandomSource;
use std::rt::Files;

/// What the name of the file beside it begins with, until it is whole.
const UNFINISHED: &str = ".unfinished-";

/// So many names are tried beside a file: each is random, so two runs hardly ever choose the same.
const TRIES: usize = 8;

/// The mode of a file until it has those whom the one before it served.
const PRIVATE: u32 = 0o600;

/// The mode of a file that there was none before of, less the bits that the process's mask has.
const SHARED: u32 = 0o666;

/// A file beside another one.
#[derive(Drop)]
struct FileBeside {
    name: String,
    file: File,
}

/// Opens a file for writing, with all that it holds.
pub(crate) fn open_for_writing<R: Files<File = File>>(rt: &R, name: &str) -> Result<File> {
    OpenOptions::new().write(true).open(rt, name)
}

/// The folder that a name is in, with the slash behind it, or nothing for the folder in which the program runs.
fn folder_of(name: &str) -> &str {
    match name.rfind('/') {
        Some(slash) => &name[..=slash],
        None => "",
    }
}

/// A random name in the folder of another one.
fn random_name<R: RandomSource + AllocGlobal>(rt: &R, name: &str) -> Result<String> {
    let mut random = [0u8; 8];
    rt.fill_bytes(&mut random)?;
    let number = u64::from_le_bytes(random);
    let folder = folder_of(name);
    Ok(format!(in rt.alloc(); "{folder}{UNFINISHED}{number:016x}")?)
}

/// Makes a file beside another one, with these bits of the mode less those of the process's mask.
fn make_beside<R: Files<File = File> + RandomSource + AllocGlobal>(
    rt: &R,
    name: &str,
    mode: u32,
) -> Result<FileBeside> {
    for _ in 0..TRIES {
        let beside = random_name(rt, name)?;
        let made = OpenOptions::new()
            .write(true)
            .create_new(true)
            .mode(mode)
            .open(rt, beside.as_str());
        match made {
            Ok(file) => return Ok(FileBeside { name: beside, file }),
            Err(error) if error.kind() == ErrorKind::AlreadyExists => {}
            Err(error) => return Err(error),
        }
    }
    Err(Error::from(ErrorKind::AlreadyExists))
}

/// Removes a file. That it can't be removed changes nothing.
fn remove<R: Files>(rt: &R, name: &str) {
    let _ = fs::remove_file(rt, name);
}

/// Whether a name is one of a link.
fn is_link<R: Files>(rt: &R, name: &str) -> bool {
    match fs::symlink_metadata(rt, name) {
        Ok(found) => found.is_symlink(),
        Err(_) => false,
    }
}

/// Whether a file of a name could be made, of which the system said that there is none: one is made beside it, and
/// removed.
///
/// # Errors
///
/// Fails as the system does where it makes no file. A name that is empty, ends with a slash or is of a link that leads
/// nowhere can't be one of a file that takes its place: what the system said of it is returned.
pub(crate) fn try_beside<R: Files<File = File> + RandomSource + AllocGlobal>(
    rt: &R,
    name: &str,
    said: Error,
) -> Result<()> {
    if name.is_empty() || name.ends_with('/') || is_link(rt, name) {
        return Err(said);
    }
    let beside = make_beside(rt, name, PRIVATE)?;
    remove(rt, beside.name.as_str());
    Ok(())
}

/// Whether an error says that the user may not do this here, so that it is tried otherwise.
fn is_forbidden(error: &Error) -> bool {
    matches!(
        error.kind(),
        ErrorKind::PermissionDenied | ErrorKind::ReadOnlyFilesystem | ErrorKind::InvalidInput
    )
}

/// Waits until the folder of a file has its names on the device. The file is whole without that, so an error is passed
/// over.
fn sync_folder<R: Files<File = File>>(rt: &R, name: &str) {
    let folder = folder_of(name);
    let folder = if folder.is_empty() { "." } else { folder };
    if let Ok(opened) = File::open(rt, folder) {
        let _ = opened.sync_all();
    }
}

/// Writes a text to a new file, with these permissions if some are given.
fn write_new(file: &mut File, text: &[u8], permissions: Option<u32>) -> Result<()> {
    write_text(file, text)?;
    if let Some(permissions) = permissions {
        file.set_permissions(Permissions::from_mode(permissions))?;
    }
    file.sync_all()
}

/// Writes a text to a file beside another one, which then takes its name. If that fails the file beside it is removed.
fn take_name<R: Files<File = File>>(
    rt: &R,
    beside: FileBeside,
    name: &str,
    text: &[u8],
    permissions: Option<u32>,
) -> Result<()> {
    let mut beside = beside;
    let mut done = write_new(&mut beside.file, text, permissions);
    if done.is_ok() {
        done = fs::rename(rt, beside.name.as_str(), name);
    }
    if done.is_err() {
        remove(rt, beside.name.as_str());
        return done;
    }
    sync_folder(rt, name);
    Ok(())
}

/// The file that is to replace one that has these facts, or `None` if none may be made here, or none of this owner and
/// this group.
fn successor<R: Files<File = File> + RandomSource + AllocGlobal>(
    rt: &R,
    name: &str,
    facts: &OpenFileFacts,
) -> Result<Option<FileBeside>> {
    let beside = match make_beside(rt, name, PRIVATE) {
        Ok(beside) => beside,
        Err(error) if is_forbidden(&error) => return Ok(None),
        Err(error) => return Err(error),
    };
    match fchown(&beside.file, Some(facts.owner), Some(facts.group)) {
        Ok(()) => Ok(Some(beside)),
        Err(error) => {
            remove(rt, beside.name.as_str());
            if is_forbidden(&error) {
                Ok(None)
            } else {
                Err(error)
            }
        }
    }
}

/// Writes a text into a file in place of all that it had, while no other run does. If that fails half way, it has a
/// beginning of the text, and behind it what it had there.
fn write_into(file: File, text: &[u8]) -> Result<()> {
    let mut file = file;
    file.lock()?;
    write_text(&mut file, text)?;
    file.set_len(text.len() as u64)?;
    file.sync_all()
}

/// Whether a name leads to the file of these facts, and not to another one since a link was changed.
fn leads_to<R: Files<File = File>>(rt: &R, name: &str, facts: &OpenFileFacts) -> bool {
    let Ok(opened) = open_for_writing(rt, name) else {
        return false;
    };
    match facts_of_file(&opened) {
        Ok(found) => found.is_same(facts),
        Err(_) => false,
    }
}

/// Writes a text to a file in place of all that it had, and keeps its owner, its group and its mode. Another file takes
/// its name, unless it has several names, or none can be made there or be its owner's: then the text is written into
/// it. So it is where the name that links lead to isn't UTF-8.
fn replace<R: Files<File = File> + RandomSource + AllocGlobal>(
    rt: &R,
    name: &str,
    file: File,
    text: &[u8],
) -> Result<()> {
    let facts = facts_of_file(&file)?;
    if facts.names > 1 {
        return write_into(file, text);
    }
    let real = match fs::canonicalize(rt, name) {
        Ok(real) => real,
        Err(error) if error.kind() == ErrorKind::InvalidFilename => return write_into(file, text),
        Err(error) => return Err(error),
    };
    if !leads_to(rt, real.as_str(), &facts) {
        return write_into(file, text);
    }
    match successor(rt, real.as_str(), &facts)? {
        Some(beside) => take_name(rt, beside, real.as_str(), text, Some(facts.permissions())),
        None => write_into(file, text),
    }
}

/// Writes a text to a file of a name in place of all that it had, or to a new one if there is none.
///
/// # Errors
///
/// Fails as the system does. The file then is as it was, but where the text was to be written into it.
pub(crate) fn write_whole<R: Files<File = File> + RandomSource + AllocGlobal>(
    rt: &R,
    name: &str,
    text: &[u8],
) -> Result<()> {
    match open_for_writing(rt, name) {
        Ok(file) => replace(rt, name, file, text),
        Err(error) if error.kind() == ErrorKind::NotFound => {
            let beside = make_beside(rt, name, SHARED)?;
            take_name(rt, beside, name, text, None)
        }
        Err(error) => Err(error),
    }
}
