//! Questions that change what the program holds. Nothing is allocated once it begins to change.
use crate::cldr::{CldrFile, read_cldr};
use crate::collators::{collator, printed};
use crate::driver_error::DriverError;
use crate::numbers::single;
use crate::requests::set_refused;
use crate::settings::named_settings;
use crate::state::State;
use crate::tables::{base, copied, set};
use crate::texts::{WrittenText, bytes_of};
use icu_table_mini::mini::Mini;
use std::alloc::Global;
use std::fs;
use std::io::BufReader;

/// The questions that change what the program holds.
pub(crate) const CHANGES: [&str; 9] = [
    "base", "set", "drop", "root", "file", "make", "times", "typed", "refuse",
];

/// Makes a change.
pub(crate) fn change(
    rt: &HostRuntime,
    state: &mut State,
    question: &str,
    rest: &str,
) -> Result<String, DriverError> {
    let alloc = rt.alloc();
    match question {
        "make" => return make(alloc, state, rest),
        "root" => {
            let text = WrittenText::read(alloc, rest)?;
            return take_root(alloc, state, read_cldr(alloc, bytes_of(&text)?)?);
        }
        "file" => return read_file(rt, state, rest),
        _ => {}
    }
    let done = String::from_str(alloc, "ok")?;
    match question {
        "times" => state.times = single(rest)?,
        "typed" => state.typed = Some(copied(alloc, &state.mini)?),
        "refuse" => set_refused(&mut state.refused, rest)?,
        question => {
            change_tables(alloc, &mut state.mini, question, rest)?;
            state.reader = None;
        }
    }
    Ok(done)
}

/// Changes the tables.
fn change_tables(
    alloc: Global,
    mini: &mut Mini,
    question: &str,
    rest: &str,
) -> Result<(), DriverError> {
    match question {
        "base" => *mini = base(alloc, rest)?,
        "set" => set(alloc, mini, rest)?,
        "drop" => drop_table(mini, rest)?,
        _ => return Err(DriverError::Unread),
    }
    Ok(())
}

/// Takes a table away.
fn drop_table(mini: &mut Mini, name: &str) -> Result<(), DriverError> {
    match name {
        "tailoring" => mini.tailoring = None,
        "reordering" => mini.reordering = None,
        _ => return Err(DriverError::Unread),
    }
    Ok(())
}

/// Makes a collator of the tables. After an error the one stays that was there.
fn make(alloc: Global, state: &mut State, settings: &str) -> Result<String, DriverError> {
    let done = String::from_str(alloc, "ok")?;
    match collator(alloc, &state.mini, named_settings(alloc, settings)?) {
        Ok(made) => {
            state.collator = Some(made);
            Ok(done)
        }
        Err(error) => printed(alloc, Some(error)),
    }
}

/// Takes the tables of a file that was read.
fn take_root(alloc: Global, state: &mut State, file: CldrFile) -> Result<String, DriverError> {
    let done = String::from_str(alloc, "ok")?;
    match file {
        CldrFile::Root(mini, absent) => {
            state.mini = mini;
            state.reader = None;
            state.absent = Some(absent);
            Ok(done)
        }
        CldrFile::Refused(why) => Ok(why),
    }
}

/// Reads the file of a name.
fn read_file(rt: &HostRuntime, state: &mut State, name: &str) -> Result<String, DriverError> {
    let alloc = rt.alloc();
    let file = fs::open(rt, name)?;
    take_root(
        alloc,
        state,
        read_cldr(alloc, BufReader::new(alloc, file)?)?,
    )
}
