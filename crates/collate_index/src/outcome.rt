//! What a command does to a database, and what it prints.

ghost use Rattle.std.specs.Prelude.{◌≡◌, IfOk};
ghost use Rattle.icu_index_store.specs.Stores.{printed_collation, store_collation};

use crate::commands::{add, found, headed, listed, listed_between};
use crate::headings_labels::labels_asked;
use crate::name_lines::read_all;
use crate::named_collator::{named_collator, say_inexact};
use crate::refusals::{refused_database, unopened};
use clap::ArgMatches;
use icu_index_store::{PrintedCollator, StoredIndex, open, rebuild};
use program_files::{DONE, ProgramError, refused, refused_by_system, write_text};
use program_words::text_of;
use sqlite::{Alter, Connection, Error, File, FileStore};
use std::fs;
use std::io::{ErrorKind, Read, Write};

/// There is no such name.
const NO_NAME: u8 = 1;

/// What a command came to in the database: the text that it prints, and its status.
#[derive(Drop)]
struct CommandOutput {
    text: Vec<u8>,
    status: u8,
}

/// What a command is given beside its words: the lines that it adds, and the labels of its headings.
#[derive(Drop)]
struct CommandInput {
    lines: Vec<u8>,
    labels: Vec<String>,
}

/// What a command is given.
fn given_to<I: Read>(
    rt: &HostRuntime,
    name: &str,
    matches: &ArgMatches<'_>,
    input: &mut I,
) -> Result<CommandInput, ProgramError> {
    let lines = if name == "add" && matches.get_str("NAME").is_none() {
        read_all(rt.alloc(), input)?
    } else {
        Vec::new(rt.alloc())
    };
    let labels = if name == "headings" {
        labels_asked(rt, matches)?
    } else {
        Vec::new(rt.alloc())
    };
    Ok(CommandInput { lines, labels })
}

/// What prints nothing, with a status.
fn nothing(rt: &HostRuntime, status: u8) -> CommandOutput {
    CommandOutput {
        text: Vec::new(rt.alloc()),
        status,
    }
}

/// Adds the name that the words have, or else those of lines.
fn add_asked<S: Alter>(
    matches: &ArgMatches<'_>,
    index: &StoredIndex<'_>,
    connection: &mut Connection<S>,
    lines: &[u8],
) -> Result<(), Error> {
    let Some(name) = matches.get_str("NAME") else {
        return add(index, connection, lines);
    };
    let payload = text_of(matches, "payload");
    index.insert(connection, name.as_bytes(), payload.as_bytes())?;
    Ok(())
}

/// What a command prints that looks names up.
fn looked_up<S: Alter>(
    rt: &HostRuntime,
    name: &str,
    matches: &ArgMatches<'_>,
    index: &StoredIndex<'_>,
    connection: &mut Connection<S>,
    collator: &PrintedCollator,
    labels: &[String],
) -> Result<Vec<u8>, Error>
    requires { store_collation index.now ≡ printed_collation collator.now }
{
    let alloc = rt.alloc();
    match name {
        "find" => found(alloc, index, connection, text_of(matches, "BEGINNING")),
        "between" => listed_between(
            alloc,
            index,
            connection,
            text_of(matches, "FROM"),
            text_of(matches, "TO"),
        ),
        "headings" => headed(alloc, index, connection, collator, labels),
        _ => listed(alloc, index, connection),
    }
}

/// Does what a command asks of an index that is open. `rebuild` is done once the index is open.
fn outcome<S: Alter>(
    rt: &HostRuntime,
    name: &str,
    matches: &ArgMatches<'_>,
    index: &StoredIndex<'_>,
    connection: &mut Connection<S>,
    collator: &PrintedCollator,
    given: &CommandInput,
) -> Result<CommandOutput, Error>
    requires { store_collation index.now ≡ printed_collation collator.now }
{
    match name {
        "rebuild" => Ok(nothing(rt, DONE)),
        "add" => {
            add_asked(matches, index, connection, given.lines.as_slice())?;
            Ok(nothing(rt, DONE))
        }
        "remove" => {
            let name = text_of(matches, "NAME");
            let removed = index.remove(connection, name.as_bytes())?;
            Ok(nothing(rt, if removed == 0 { NO_NAME } else { DONE }))
        }
        _ => {
            let text = looked_up(
                rt,
                name,
                matches,
                index,
                connection,
                collator,
                given.labels.as_slice(),
            )?;
            Ok(CommandOutput { text, status: DONE })
        }
    }
}

/// What is said of an index that isn't there.
const NO_INDEX: &str = "No such file or directory; the command add makes an index";

/// Opens a database. A file that isn't there is made for names that are added, and refused otherwise.
fn connect(
    rt: &HostRuntime,
    name: &str,
    file: &str,
) -> Result<Connection<FileStore<File>>, ProgramError> {
    if name != "add"
        && let Err(e) = fs::open(rt, file)
    {
        return Err(if e.kind() == ErrorKind::NotFound {
            refused(rt.alloc(), file, NO_INDEX)
        } else {
            refused_by_system(rt.alloc(), file, &e)
        });
    }
    match Connection::open(rt, file) {
        Ok(connection) => Ok(connection),
        Err(error) => Err(refused_database(rt.alloc(), file, &error)),
    }
}

/// Makes the index of a database anew for the collator.
fn made_anew<'c, S: Alter>(
    rt: &HostRuntime,
    file: &str,
    connection: &mut Connection<S>,
    collator: &'c PrintedCollator,
) -> Result<StoredIndex<'c>, ProgramError>
    ensures { IfOk result (λ index. store_collation index ≡ printed_collation collator.entry.now) }
{
    match rebuild(rt.alloc(), connection, collator) {
        Ok(index) => Ok(index),
        Err(error) => Err(refused_database(rt.alloc(), file, &error)),
    }
}

/// Opens the index of a database, or makes it anew for the collator.
fn opened<'c, S: Alter>(
    rt: &HostRuntime,
    name: &str,
    file: &str,
    connection: &mut Connection<S>,
    collator: &'c PrintedCollator,
) -> Result<StoredIndex<'c>, ProgramError>
    ensures { IfOk result (λ index. store_collation index ≡ printed_collation collator.entry.now) }
{
    if name == "rebuild" {
        return made_anew(rt, file, connection, collator);
    }
    match open(rt.alloc(), connection, collator) {
        Ok(index) => Ok(index),
        Err(error) => Err(unopened(rt.alloc(), file, &error)),
    }
}

/// Closes a database, whose log is then copied into its file.
fn close(
    rt: &HostRuntime,
    file: &str,
    connection: Connection<FileStore<File>>,
) -> Result<(), ProgramError> {
    match connection.close() {
        Ok(()) => Ok(()),
        Err(error) => Err(refused_database(rt.alloc(), file, &error)),
    }
}

/// What a command comes to in a database, which is closed then.
fn outcome_in(
    rt: &HostRuntime,
    name: &str,
    matches: &ArgMatches<'_>,
    collator: &PrintedCollator,
    given: &CommandInput,
) -> Result<CommandOutput, ProgramError> {
    let file = text_of(matches, "FILE");
    let mut connection = connect(rt, name, file)?;
    let index = opened(rt, name, file, &mut connection, collator)?;
    let done = match outcome(rt, name, matches, &index, &mut connection, collator, given) {
        Ok(done) => done,
        Err(error) => return Err(refused_database(rt.alloc(), file, &error)),
    };
    close(rt, file, connection)?;
    Ok(done)
}

/// What a command does, by its name and what was matched behind it. The answer is printed once the database is closed.
pub(crate) fn run_command<I: Read, W: Write, E: Write>(
    rt: &HostRuntime,
    name: &str,
    matches: &ArgMatches<'_>,
    input: &mut I,
    output: &mut W,
    errors: &mut E,
) -> Result<u8, ProgramError> {
    say_inexact(rt, matches, errors)?;
    let collator = named_collator(rt, matches)?;
    let given = given_to(rt, name, matches, input)?;
    let done = outcome_in(rt, name, matches, &collator, &given)?;
    match write_text(output, done.text.as_slice()) {
        Ok(()) => Ok(done.status),
        Err(_) => Err(ProgramError::WriteFailed),
    }
}
