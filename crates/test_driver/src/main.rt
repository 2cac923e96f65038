//! Answers questions on tables, collators and texts, a line each, for the tests of `tests/`. It compares nothing with
//! what is expected.
#![tactic(auto)]

mod changes;
mod cldr;
mod collators;
mod comparisons;
mod driver_error;
mod elements;
mod encodings;
mod keys;
mod letters;
mod limited;
mod lines;
mod names;
mod numbers;
mod questions;
mod readers;
mod requests;
mod settings;
mod sinks;
mod state;
mod tables;
mod texts;
mod values;

use crate::driver_error::DriverError;
use crate::questions::answer;
use crate::state::State;
use icu_table_mini::mini::Mini;
use std::io;
use std::io::{BufRead, BufReader};
use std::process::ExitCode;

/// Reads the next line, and goes on with it where an allocation failed. False says that there is none.
fn read_line<R: BufRead>(reader: &mut R, line: &mut Vec<u8>) -> io::Result<bool> {
    line.clear();
    let read = match reader.read_until(b'\n', line) {
        Err(_) => reader.read_until(b'\n', line),
        read => read,
    };
    read?;
    Ok(!line.is_empty())
}

/// What a line asks, once more where an allocation failed.
fn answer_twice(rt: &HostRuntime, state: &mut State, line: &str) -> Result<String, DriverError> {
    match answer(rt, state, line) {
        Err(DriverError::NoMemory) => answer(rt, state, line),
        Err(DriverError::Refused(table)) => {
            let _ = eprintln!(rt; "refused: {table:?}");
            answer(rt, state, line)
        }
        answer => answer,
    }
}

/// Answers a line.
fn answer_line(rt: &HostRuntime, state: &mut State, line: &[u8]) -> Result<(), DriverError> {
    let Ok(line) = str::from_utf8(line) else {
        println!(rt; "?")?;
        return Ok(());
    };
    match answer_twice(rt, state, line.trim()) {
        Ok(answer) => println!(rt; "{answer}")?,
        Err(DriverError::Unread) => println!(rt; "?")?,
        Err(error) => return Err(error),
    }
    Ok(())
}

/// Answers all lines.
fn run(rt: &HostRuntime, state: &mut State) -> Result<(), DriverError> {
    let alloc = rt.alloc();
    let mut reader = match BufReader::new(alloc, rt.reader()) {
        Err(_) => BufReader::new(alloc, rt.reader())?,
        Ok(reader) => reader,
    };
    let mut line = Vec::new(alloc);
    for _ in 0..u64::MAX {
        if !read_line(&mut reader, &mut line)? {
            break;
        }
        answer_line(rt, state, line.as_slice())?;
    }
    Ok(())
}

/// The tables that the program begins with.
fn first_tables(rt: &HostRuntime) -> Result<Mini, DriverError> {
    match Mini::new(rt.alloc()) {
        Ok(mini) => Ok(mini),
        Err(_) => Ok(Mini::new(rt.alloc())?),
    }
}

fn run_by(rt: &HostRuntime, mini: Mini) -> Result<(), DriverError> {
    let mut state = State::new(rt.alloc(), mini);
    run(rt, &mut state)
}

fn main(rt: HostRuntime) -> ExitCode {
    let ran = match first_tables(&rt) {
        Ok(mini) => run_by(&rt, mini),
        Err(error) => Err(error),
    };
    match ran {
        Ok(()) => ExitCode::SUCCESS,
        Err(_) => {
            let _ = eprintln!(rt; "no memory");
            ExitCode::FAILURE
        }
    }
}
