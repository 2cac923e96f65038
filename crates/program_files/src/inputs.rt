//! What lines are read from.

use crate::byte_order_marks::{MARK, refuse_wide, take_mark};
use crate::input::append_input;
use crate::input_read::read_whole;
use crate::named_errors::{refused, refused_by_system};
use crate::program_error::ProgramError;
use crate::progress::{ProgressReader, RunProgress};
use crate::word_bytes::name_of_word;
use std::fs;
use std::io::{Read, Write};
use std::rt::{Clock, Files};

/// The name of standard input in messages.
const STANDARD: &str = "standard input";

/// An input whose lines were read.
#[derive(Drop)]
struct InputPart {
    /// The word that names it, `-` for standard input.
    word: String,
    /// Where its lines end in those of all inputs.
    end: usize,
}

/// Where a line is in one of several inputs.
#[derive(Clone, Copy)]
pub struct LineOfInput<'i> {
    /// The word that names the input, `-` for standard input.
    pub word: &'i str,
    /// The index of the line in it, from 0 on.
    pub index: usize,
}

/// How many times a byte stands among others.
fn count_of(bytes: &[u8], byte: u8) -> usize {
    let mut count = 0usize;
    for other in bytes {
        if *other == byte {
            count = count.saturating_add(1);
        }
    }
    count
}

/// Lines that were read from one input or from several.
#[derive(Drop)]
pub struct InputText {
    bytes: Vec<u8>,
    is_marked: bool,
    parts: Vec<InputPart>,
}

impl InputText {
    /// The lines. Each has its end.
    pub fn as_slice(&self) -> &[u8] {
        self.bytes.as_slice()
    }

    /// How many inputs were read.
    pub fn inputs(&self) -> usize {
        self.parts.len()
    }

    /// The input that has a line, by the index of the line among all, from 0 on, and its index there.
    pub fn place_of(&self, separator: u8, index: usize) -> Option<LineOfInput<'_>> {
        let mut start = 0usize;
        let mut left = index;
        for part in self.parts.as_slice() {
            let (before, _) = self
                .bytes
                .as_slice()
                .split_at(part.end.min(self.bytes.len()));
            let (_, lines) = before.split_at(start.min(before.len()));
            let count = count_of(lines, separator);
            if left < count {
                return Some(LineOfInput {
                    word: part.word.as_str(),
                    index: left,
                });
            }
            left -= count;
            start = part.end;
        }
        None
    }

    /// The byte order mark with which the first input began, if it did: it goes before the lines if they are printed.
    pub fn mark(&self) -> &'static [u8] {
        if self.is_marked { MARK } else { &[] }
    }
}

/// Reads a reader to its end, and says how far that has come.
fn read_watched<R: Clock + AllocGlobal, I: Read, E: Write>(
    rt: &R,
    name: &str,
    reader: &mut I,
    progress: &mut RunProgress,
    errors: &mut E,
) -> Result<Vec<u8>, ProgramError> {
    let mut watched = ProgressReader {
        rt,
        reader,
        progress,
        errors,
        failure: None,
    };
    let bytes = match read_whole(rt.alloc(), &mut watched) {
        Err(ProgramError::ReadFailed) => {
            return Err(match watched.failure {
                Some(error) => refused_by_system(rt.alloc(), name, &error),
                None => ProgramError::ReadFailed,
            });
        }
        read => read?,
    };
    refuse_wide(rt.alloc(), name, bytes.as_slice())?;
    Ok(bytes)
}

/// Why a file isn't opened whose name isn't UTF-8, and what to do.
const NOT_TEXT: &str = "its name isn't UTF-8; give it as standard input";

/// Opens a file by its name.
///
/// # Errors
///
/// Fails where an allocation does, or with a line that names the file and says why it isn't opened.
pub fn open_input<R: Files + AllocGlobal>(rt: &R, word: &str) -> Result<R::File, ProgramError> {
    let Some(name) = name_of_word(rt.alloc(), word)? else {
        return Err(refused(rt.alloc(), word, NOT_TEXT));
    };
    match fs::open(rt, name.as_str()) {
        Ok(opened) => Ok(opened),
        Err(error) => Err(refused_by_system(rt.alloc(), word, &error)),
    }
}

/// How an input is named in messages.
pub fn input_name<'f>(word: &'f str) -> &'f str {
    if word == "-" { STANDARD } else { word }
}

/// Reads a file by its name, or standard input for the name `-`.
fn read_named<R: Files + Clock + AllocGlobal, I: Read, E: Write>(
    rt: &R,
    word: &str,
    standard: &mut I,
    progress: &mut RunProgress,
    errors: &mut E,
) -> Result<Vec<u8>, ProgramError> {
    if word == "-" {
        read_watched(rt, STANDARD, standard, progress, errors)
    } else {
        let mut opened = open_input(rt, word)?;
        read_watched(rt, word, &mut opened, progress, errors)
    }
}

/// Reads the file that is named, or standard input for the name `-`. Its last line is ended by the separator. A byte
/// order mark of UTF-8 is left where it is.
///
/// # Errors
///
/// Fails where an allocation does, or with a line that names the file and says why it isn't opened or read, or that it
/// begins with a mark of UTF-16 and what makes UTF-8 of it.
pub fn read_input<R: Files + Clock + AllocGlobal, I: Read, E: Write>(
    rt: &R,
    word: &str,
    separator: u8,
    standard: &mut I,
    progress: &mut RunProgress,
    errors: &mut E,
) -> Result<Vec<u8>, ProgramError> {
    let read = read_named(rt, word, standard, progress, errors);
    progress.end_reading(rt, errors);
    let mut input = Vec::new(rt.alloc());
    append_input(&mut input, read?, separator)?;
    Ok(input)
}

/// Reads files one behind another, and standard input for the name `-`, each without its byte order mark.
fn read_files<R: Files + Clock + AllocGlobal, I: Read, E: Write>(
    rt: &R,
    words: &[&str],
    separator: u8,
    standard: &mut I,
    progress: &mut RunProgress,
    errors: &mut E,
) -> Result<InputText, ProgramError> {
    let mut input = Vec::new(rt.alloc());
    let mut parts = Vec::new(rt.alloc());
    let mut is_marked = false;
    for (index, word) in words.iter().enumerate() {
        let mut bytes = read_named(rt, word, standard, progress, errors)?;
        let has_mark = take_mark(&mut bytes);
        is_marked = is_marked || has_mark && index == 0;
        append_input(&mut input, bytes, separator)?;
        parts.push(InputPart {
            word: word.to_string(rt.alloc())?,
            end: input.len(),
        })?;
    }
    Ok(InputText {
        bytes: input,
        is_marked,
        parts,
    })
}

/// What is read where no file is named.
static STANDARD_ALONE: [&str; 1] = ["-"];

/// Reads the files that are named one behind another, or standard input where none is, and for the name `-`. The last
/// line of each is ended by the separator. A byte order mark at the beginning of one belongs to no line.
///
/// # Errors
///
/// Those of `read_input`.
pub fn read_inputs<R: Files + Clock + AllocGlobal, I: Read, E: Write>(
    rt: &R,
    words: &[&str],
    separator: u8,
    standard: &mut I,
    progress: &mut RunProgress,
    errors: &mut E,
) -> Result<InputText, ProgramError> {
    let words = if words.is_empty() {
        STANDARD_ALONE.as_slice()
    } else {
        words
    };
    let read = read_files(rt, words, separator, standard, progress, errors);
    progress.end_reading(rt, errors);
    read
}
