//! The file that a run writes: it is opened before the run reads anything, and written when all is made.

use crate::named_errors::{refused, refused_by_system};
use crate::open_file_facts::facts_of_file;
use crate::program_error::ProgramError;
use crate::replaced_file::{open_for_writing, try_beside, write_whole};
use crate::standard_streams::{WrittenStream, stream_of};
use crate::word_bytes::name_of_word;
use crate::writing::write_text;
use std::fs::File;
use std::io;
use std::io::{ErrorKind, Write};
use std::random::RandomSource;
use std::rt::Files;

/// Why a file isn't written whose name isn't UTF-8, and what to do.
const NOT_TEXT: &str = "its name isn't UTF-8; write to standard output";

/// Where a text goes that is written to a file.
#[derive(Drop)]
enum OutputPlace {
    /// A file of bytes of this name, or one that isn't there yet: it is written as a whole.
    Whole(String),
    /// A pipe or a device: what is written goes through it.
    Through(File),
    /// The file is one of the streams.
    Stream(WrittenStream),
}

/// The file that a run writes.
#[derive(Drop)]
pub struct OutputFile<'w> {
    /// The word that names it.
    word: &'w str,
    place: OutputPlace,
}

/// Where a text goes that is written to a file of a name. Nothing is changed yet.
fn place_of<R: Files<File = File> + RandomSource + AllocGlobal>(
    rt: &R,
    name: String,
) -> io::Result<OutputPlace> {
    let file = match open_for_writing(rt, name.as_str()) {
        Ok(file) => file,
        Err(error) if error.kind() == ErrorKind::NotFound => {
            try_beside(rt, name.as_str(), error)?;
            return Ok(OutputPlace::Whole(name));
        }
        Err(error) => return Err(error),
    };
    let facts = facts_of_file(&file)?;
    if let Some(stream) = stream_of(rt, &facts) {
        return Ok(OutputPlace::Stream(stream));
    }
    if facts.is_regular() {
        return Ok(OutputPlace::Whole(name));
    }
    Ok(OutputPlace::Through(file))
}

/// Opens the file that a run is to write, by a word of its command. What the system doesn't allow is refused here. The
/// file has what it had, until it is written.
///
/// # Errors
///
/// Fails where an allocation does, or with a line that names the file and says why it can't be written.
pub fn open_output<'w, R: Files<File = File> + RandomSource + AllocGlobal>(
    rt: &R,
    word: &'w str,
) -> Result<OutputFile<'w>, ProgramError> {
    let Some(name) = name_of_word(rt.alloc(), word)? else {
        return Err(refused(rt.alloc(), word, NOT_TEXT));
    };
    match place_of(rt, name) {
        Ok(place) => Ok(OutputFile { word, place }),
        Err(error) => Err(refused_by_system(rt.alloc(), word, &error)),
    }
}

/// Writes a text to a stream, as what a run prints.
fn write_printed<W: Write>(stream: &mut W, text: &[u8]) -> Result<(), ProgramError> {
    match write_text(stream, text) {
        Ok(()) => Ok(()),
        Err(_) => Err(ProgramError::WriteFailed),
    }
}

impl OutputFile<'_> {
    /// Writes a text to the file, and all that it had is gone. A file of bytes is replaced by one that has its owner,
    /// its group and its mode, and that holds the whole text before it gets the name; where that can't be, the text is
    /// written into it (`write_whole`). A pipe or a device gets the text, and so does a stream if the file is one.
    ///
    /// # Errors
    ///
    /// Fails where an allocation does, or with a line that names the file and says why it isn't written; if it is a
    /// stream, with `WriteFailed`.
    pub fn write<R: Files<File = File> + RandomSource + AllocGlobal, W: Write, E: Write>(
        self,
        rt: &R,
        text: &[u8],
        output: &mut W,
        errors: &mut E,
    ) -> Result<(), ProgramError> {
        let OutputFile { word, place } = self;
        let written = match place {
            OutputPlace::Stream(WrittenStream::Output) => return write_printed(output, text),
            OutputPlace::Stream(WrittenStream::Errors) => return write_printed(errors, text),
            OutputPlace::Through(file) => {
                let mut file = file;
                write_text(&mut file, text)
            }
            OutputPlace::Whole(name) => write_whole(rt, name.as_str(), text),
        };
        match written {
            Ok(()) => Ok(()),
            Err(error) => Err(refused_by_system(rt.alloc(), word, &error)),
        }
    }
}
