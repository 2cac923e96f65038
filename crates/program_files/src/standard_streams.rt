//! The streams that a program is started with.

use crate::open_file_facts::{OpenFileFacts, facts_of_stream};
use std::fs::{File, OpenOptions};
use std::io::Result;
use std::os::unix::io::{AsRawFd, IntoRawFd};
use std::rt::Files;

/// The numbers of the streams.
const INPUT: i32 = 0;

const OUTPUT: i32 = 1;

const ERRORS: i32 = 2;

/// Holds the number of a stream that is closed, by what was opened just now, so that no file that is opened later gets
/// it and is read or written in its place: the lowest number that is free is taken.
fn hold_stream(stream: i32, opened: Result<File>) {
    if let Ok(file) = opened
        && file.as_raw_fd() <= stream
    {
        let _ = file.into_raw_fd();
    }
}

/// Holds the numbers of the standard streams that are closed. Reads of such an input fail, and so do writes to such an
/// output, as they do of a closed stream (EBADF): it is open, but not for that.
pub fn hold_standard_streams<R: Files<File = File>>(rt: &R) {
    hold_stream(INPUT, OpenOptions::new().write(true).open(rt, "/dev/null"));
    hold_stream(OUTPUT, File::open(rt, "/"));
    hold_stream(ERRORS, File::open(rt, "/"));
}

/// A stream that is written to.
#[derive(Clone, Copy)]
pub(crate) enum WrittenStream {
    /// Standard output.
    Output,
    /// Standard error.
    Errors,
}

/// Whether a stream is this very file.
fn is_stream<R: Files + AllocGlobal>(rt: &R, stream: i32, file: &OpenFileFacts) -> bool {
    match facts_of_stream(rt, stream) {
        Ok(facts) => facts.is_same(file),
        Err(_) => false,
    }
}

/// The stream that a file is, if it is one.
pub(crate) fn stream_of<R: Files + AllocGlobal>(
    rt: &R,
    file: &OpenFileFacts,
) -> Option<WrittenStream> {
    if is_stream(rt, OUTPUT, file) {
        Some(WrittenStream::Output)
    } else if is_stream(rt, ERRORS, file) {
        Some(WrittenStream::Errors)
    } else {
        None
    }
}
