//! Questions and their answers.
use crate::changes::{CHANGES, change};
use crate::collators::{alone, check, checked, kept, printed, together};
use crate::comparisons::compare;
use crate::driver_error::DriverError;
use crate::elements::{all_readings, cursor, next, taken, whole};
use crate::encodings::{FrontPart, after, at_front, characters, common};
use crate::keys::{key, slice};
use crate::letters::letter;
use crate::limited::into_limited;
use crate::lines::line as line_of;
use crate::names::{between, equals, names};
use crate::numbers::{list, number, numbers, written};
use crate::readers::Reader;
use crate::requests::request;
use crate::settings::{indexes, merge};
use crate::sinks::{bytes, list as list_of_key};
use crate::state::State;
use crate::tables::show;
use crate::values::{compressible, entry, last, metadata, reordered};
use icu_collator::Collator;
use icu_element_matches::numbers::digit_run_weights;
use icu_table_mini::mini::Mini;
use std::alloc::Global;

/// The questions on texts by a collator.
const BY_COLLATOR: [&str; 9] = [
    "compare", "key", "slice", "list", "limited", "names", "equals", "between", "resolved",
];

/// The questions on the elements of texts.
const BY_READER: [&str; 6] = ["whole", "next", "cursor", "readings", "taken", "letter"];

/// What a line asks. Where an allocation fails, the state stays as it was.
pub(crate) fn answer(
    rt: &HostRuntime,
    state: &mut State,
    line: &str,
) -> Result<String, DriverError> {
    let alloc = rt.alloc();
    if line.is_empty() || line.starts_with('#') {
        return Ok(String::new(alloc));
    }
    let (question, rest) = line.split_once(' ').unwrap_or((line, ""));
    let rest = rest.trim();
    if CHANGES.contains(&question) {
        return change(rt, state, question, rest);
    }
    if BY_COLLATOR.contains(&question) {
        let collator = state.collator.as_ref().ok_or(DriverError::Unread)?;
        return by_collator(alloc, collator, question, rest, state.times);
    }
    if BY_READER.contains(&question) {
        return read(alloc, state, question, rest);
    }
    other_answer(alloc, state, question, rest)
}

/// What is asked of the state beside a collator and the elements of texts, or of nothing that it holds.
fn other_answer(
    alloc: Global,
    state: &State,
    question: &str,
    rest: &str,
) -> Result<String, DriverError> {
    match question {
        "request" => {
            let typed = state.typed.as_ref();
            request(alloc, &state.mini, typed, state.refused.as_slice(), rest)
        }
        "absent" => Ok(state.absent.as_ref().ok_or(DriverError::Unread)?.clone()?),
        "characters" => characters(alloc, rest),
        "first" => at_front(alloc, FrontPart::First, rest),
        "ascii" => at_front(alloc, FrontPart::Ascii, rest),
        "after" => after(alloc, rest),
        "common" => common(alloc, rest),
        "line" => line_of(alloc, rest),
        "bytes" => bytes(alloc, rest),
        "weights" => weights(alloc, rest),
        "merge" => merge(alloc, rest),
        question => by_tables(alloc, &state.mini, question, rest, state.times),
    }
}

fn by_collator(
    alloc: Global,
    collator: &Collator,
    question: &str,
    rest: &str,
    times: u64,
) -> Result<String, DriverError> {
    match question {
        "compare" => compare(alloc, collator, rest, times),
        "key" => key(alloc, collator, rest),
        "slice" => slice(alloc, collator, rest, times),
        "list" => list_of_key(alloc, collator, rest),
        "limited" => into_limited(alloc, collator, rest),
        "names" => names(alloc, collator, rest),
        "equals" => equals(alloc, collator, rest),
        "between" => between(alloc, collator, rest),
        "resolved" => Ok(indexes(alloc, collator.as_borrowed().resolved_options())?),
        _ => Err(DriverError::Unread),
    }
}

fn by_tables(
    alloc: Global,
    mini: &Mini,
    question: &str,
    rest: &str,
    times: u64,
) -> Result<String, DriverError> {
    match question {
        "show" => show(alloc, mini, rest),
        "alone" => alone(alloc, mini),
        "together" => together(alloc, mini),
        "check" => check(alloc, mini, times),
        "kept" => kept(alloc, mini),
        "entry" => entry(alloc, &mini.root, rest),
        "tailoring.entry" => entry(
            alloc,
            mini.tailoring.as_ref().ok_or(DriverError::Unread)?,
            rest,
        ),
        "reorder" => reordered(alloc, mini, rest),
        "compressible" => compressible(alloc, mini, rest),
        "last" => last(alloc, mini, rest),
        "metadata" => Ok(metadata(alloc, mini.metadata)?),
        _ => Err(DriverError::Unread),
    }
}

/// What is asked of the elements of a text. What texts are read by is kept, so that it is made once for many questions.
fn read(
    alloc: Global,
    state: &mut State,
    question: &str,
    rest: &str,
) -> Result<String, DriverError> {
    let (numbers, rest) = rest.split_once(' ').ok_or(DriverError::Unread)?;
    let numbers = number(numbers)? != 0;
    if let Some(reader) = &state.reader {
        if reader.numeric_primary.is_some() == numbers {
            return read_by(alloc, reader, question, rest);
        }
    }
    match checked(alloc, &state.mini) {
        Ok(tables) => {
            let reader = Reader::new(alloc, tables, numbers)?;
            let answer = read_by(alloc, &reader, question, rest);
            state.reader = Some(reader);
            answer
        }
        Err(error) => printed(alloc, Some(error)),
    }
}

fn read_by(
    alloc: Global,
    reader: &Reader,
    question: &str,
    rest: &str,
) -> Result<String, DriverError> {
    match question {
        "whole" => whole(alloc, reader, rest),
        "next" => next(alloc, reader, rest),
        "cursor" => cursor(alloc, reader, rest),
        "readings" => all_readings(alloc, reader, rest),
        "taken" => taken(alloc, reader, rest),
        "letter" => letter(alloc, reader, rest),
        _ => Err(DriverError::Unread),
    }
}

/// The weights of a run of digits, by the lead byte of numbers and the digits.
fn weights(alloc: Global, question: &str) -> Result<String, DriverError> {
    let numbers: Vec<u8> = list(alloc, numbers(alloc, question)?.as_slice())?;
    let (lead, digits) = numbers.as_slice().split_first().ok_or(DriverError::Unread)?;
    if !digits.iter().all(|digit| *digit < 10) {
        return Err(DriverError::Unread);
    }
    let weights = digit_run_weights(alloc, *lead, digits)?;
    Ok(written(alloc, weights.as_slice())?)
}
