//! What the system says of a file that is open.

use std::fs;
use std::fs::{File, Metadata};
use std::io::Result;
use std::os::unix::fs::MetadataExt;
use std::rt::Files;

/// The kinds of files that the mode says.
const KINDS: u32 = 0o170000;

/// A file of bytes, and no folder, device, pipe or socket.
const REGULAR: u32 = 0o100000;

/// What the system says of a file.
#[derive(Clone, Copy)]
pub(crate) struct OpenFileFacts {
    /// The kind of the file, and who may do what with it.
    mode: u32,
    /// The device on which it is.
    device: u64,
    /// Its number on the device.
    number: u64,
    /// How many names it has.
    pub(crate) names: u64,
    /// Who owns it.
    pub(crate) owner: u32,
    /// Its group.
    pub(crate) group: u32,
}

impl OpenFileFacts {
    /// Whether it is a file of bytes.
    pub(crate) fn is_regular(&self) -> bool {
        self.mode & KINDS == REGULAR
    }

    /// Who may do what with it: the twelve bits of the mode that chmod sets.
    pub(crate) fn permissions(&self) -> u32 {
        self.mode & 0o7777
    }

    /// Whether it is the same file.
    pub(crate) fn is_same(&self, other: &OpenFileFacts) -> bool {
        self.device == other.device && self.number == other.number
    }
}

/// What the system's words on a file say.
fn facts_in(found: &Metadata) -> OpenFileFacts {
    OpenFileFacts {
        mode: found.mode(),
        device: found.dev(),
        number: found.ino(),
        names: found.nlink(),
        owner: found.uid(),
        group: found.gid(),
    }
}

/// What the system says of a file that is open.
pub(crate) fn facts_of_file(file: &File) -> Result<OpenFileFacts> {
    let found = file.metadata()?;
    Ok(facts_in(&found))
}

/// What the system says of a stream, by its number. Its name in Linux's folder `/proc/self/fd` leads to the file
/// itself, also if it has no other.
pub(crate) fn facts_of_stream<R: Files + AllocGlobal>(
    rt: &R,
    stream: i32,
) -> Result<OpenFileFacts> {
    let name = format!(in rt.alloc(); "/proc/self/fd/{stream}")?;
    let found = fs::metadata(rt, name.as_str())?;
    Ok(facts_in(&found))
}
