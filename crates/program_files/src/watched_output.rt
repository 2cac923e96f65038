//! An output that knows whether anybody reads it.

use std::io::{Error, ErrorKind, Result, Write};

/// An output that knows whether a write found that nobody reads it any more, as a pipe that was closed (POSIX, "write",
/// EPIPE).
#[derive(Drop)]
pub struct WatchedOutput<W> {
    output: W,
    is_closed: bool,
}

/// Whether an error says that nobody reads what is written.
fn is_of_closed(error: &Error) -> bool {
    error.kind() == ErrorKind::BrokenPipe
}

impl<W: Write> WatchedOutput<W> {
    /// An output that nothing is known of yet.
    pub fn new(output: W) -> WatchedOutput<W> {
        WatchedOutput {
            output,
            is_closed: false,
        }
    }

    /// Whether a write, or the flush, found that nobody reads it any more.
    pub fn is_closed(&self) -> bool {
        self.is_closed
    }
}

impl<W: Write> Write for WatchedOutput<W> {
    ghost use Rattle.program_files.specs.WatchedOutputs.{watched_contents};

    ghost contents = { watched_contents W.contents };

    fn write(&mut self, buf: &[u8]) -> Result<usize> {
        let written = self.output.write(buf);
        if let Err(error) = &written {
            self.is_closed = self.is_closed || is_of_closed(error);
        }
        written
    }

    fn flush(&mut self) -> Result<()> {
        let flushed = self.output.flush();
        if let Err(error) = &flushed {
            self.is_closed = self.is_closed || is_of_closed(error);
        }
        flushed
    }
}
