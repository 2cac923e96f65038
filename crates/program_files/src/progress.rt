//! How far a long run has come.

use std::io::{Error, Read, Result, Write};
use std::rt::Clock;
use std::time::Instant;

/// From so many bytes on the work on them takes about a second.
const LONG: u64 = 16_000_000;

/// How many bytes are a megabyte.
const MEGABYTE: u64 = 1_000_000;

/// How far a run has come: it is said each second, where that is asked for, on a line that is written anew.
#[derive(Clone, Copy)]
pub struct RunProgress {
    /// What the line begins with: the program's name, a colon and a space.
    prefix: &'static str,
    /// When the run began, where it is to be said.
    start: Option<Instant>,
    /// So many seconds after the start it was said last.
    said: u64,
    /// How many bytes were read.
    bytes: u64,
    /// Whether a line was begun that isn't ended.
    is_open: bool,
}

impl RunProgress {
    /// A run that begins. Nothing is said unless that is asked for, nor where there is no clock.
    pub fn new<R: Clock>(rt: &R, prefix: &'static str, is_asked: bool) -> RunProgress {
        let start = if is_asked {
            Instant::now(rt).ok()
        } else {
            None
        };
        RunProgress {
            prefix,
            start,
            said: 0,
            bytes: 0,
            is_open: false,
        }
    }

    /// How many seconds have passed since the start, or 0 where nothing is to be said.
    fn seconds<R: Clock>(&self, rt: &R) -> u64 {
        match self.start {
            Some(start) => match start.elapsed(rt) {
                Ok(elapsed) => elapsed.as_secs(),
                Err(_) => 0,
            },
            None => 0,
        }
    }

    /// Says how many megabytes were read, and more behind that. That it can't be said changes nothing.
    fn say<R: AllocGlobal, E: Write>(&self, rt: &R, behind: &str, errors: &mut E) {
        let megabytes = self.bytes / MEGABYTE;
        let prefix = self.prefix;
        if let Ok(line) = format!(in rt.alloc(); "\r{prefix}{megabytes} MB read{behind}") {
            let _ = errors.write_all(line.as_bytes());
        }
    }

    /// So many more bytes were read: that is said, if a second has passed.
    pub fn read_more<R: Clock + AllocGlobal, E: Write>(
        &mut self,
        rt: &R,
        count: usize,
        errors: &mut E,
    ) {
        self.bytes = self.bytes.saturating_add(count as u64);
        let seconds = self.seconds(rt);
        if seconds > self.said {
            self.said = seconds;
            self.is_open = true;
            self.say(rt, "", errors);
        }
    }

    /// Takes away what was said last, as far as a terminal does, before something else is printed there.
    pub fn give_way<E: Write>(&mut self, errors: &mut E) {
        if self.is_open {
            let _ = errors.write_all(b"\r\x1b[K");
        }
        self.is_open = false;
    }

    /// An input was read, and the work on it begins: that is said where a second has passed, or will.
    pub(crate) fn end_reading<R: AllocGlobal, E: Write>(&mut self, rt: &R, errors: &mut E) {
        let is_long = self.start.is_some() && self.bytes >= LONG;
        if is_long || self.is_open {
            self.say(rt, ", at work on them\n", errors);
        }
        self.is_open = false;
        self.bytes = 0;
    }
}

/// A reader of which it is said how far it has come.
#[derive(Drop)]
pub(crate) struct ProgressReader<'r, 'i, 'p, 'e, R, I, E> {
    /// The clock.
    pub(crate) rt: &'r R,
    /// What is read.
    pub(crate) reader: &'i mut I,
    /// How far it has come.
    pub(crate) progress: &'p mut RunProgress,
    /// Where that is said.
    pub(crate) errors: &'e mut E,
    /// Why the last read failed, if one did.
    pub(crate) failure: Option<Error>,
}

impl<R: Clock + AllocGlobal, I: Read, E: Write> Read for ProgressReader<'_, '_, '_, '_, R, I, E> {
    fn read(&mut self, buf: &mut [u8]) -> Result<usize> {
        let read = self.reader.read(buf);
        match &read {
            Ok(count) => self.progress.read_more(self.rt, *count, self.errors),
            Err(error) => self.failure = Some(*error),
        }
        read
    }
}
