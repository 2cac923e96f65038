//! Lists a few names in order: a program over `icu_collator`, with the tables of `icu_table_mini`.
#![tactic(auto)]

ghost use Rattle.std.specs.Prelude.{◌≡◌, map, IfOk};
ghost use Rattle.icu_collator.specs.Collators.{collation_kept};
ghost use Rattle.icu_collator.specs.NameOrders.{name_order};
ghost use Rattle.icu_index.specs.Listings.{listing_of};
ghost use Rattle.icu_index.specs.NameIndexes.{index_collation, listing};

use icu_collator::options::{CollatorOptions, Strength};
use icu_collator::provider::{DataError, DataErrorKind};
use icu_collator::sort::{sort_texts, stable_order};
use icu_collator::{Collator, CollatorPreferences};
use icu_index::NameIndex;
use icu_table_mini::mini::Mini;
use std::alloc::{AllocError, Global};
use std::io;
use std::io::Write;
use std::process::ExitCode;

/// Why the names aren't printed in order.
#[derive(Debug, Drop)]
enum Error {
    /// Memory ran out. Nothing was changed, so the same call may be made again once there is more.
    NoMemory,
    /// The tables don't meet a condition, which the error names: they have to be mended, and no further call helps.
    Tables(DataError),
    /// Standard output could not be written to.
    Output(io::Error),
}

impl From<AllocError> for Error {
    fn from(_: AllocError) -> Error {
        Error::NoMemory
    }
}

impl From<DataError> for Error {
    fn from(error: DataError) -> Error {
        match error.kind {
            DataErrorKind::NoMemory => Error::NoMemory,
            _ => Error::Tables(error),
        }
    }
}

impl From<io::Error> for Error {
    fn from(error: io::Error) -> Error {
        Error::Output(error)
    }
}

/// A collator by Mini's tables. The provider may be of the caller's own: its tables are checked, and copied.
fn collator(alloc: Global) -> Result<Collator, Error> {
    let mini = Mini::new(alloc)?;
    let options = CollatorOptions {
        strength: Some(Strength::Tertiary),
        ..CollatorOptions::default()
    };
    Ok(Collator::try_new_unstable(
        alloc,
        &mini.provider(),
        CollatorPreferences::default(),
        options,
    )?)
}

/// Names in the order of a collator, those that compare Equal as they stand.
fn index<'c>(
    alloc: Global,
    collator: &'c Collator,
    names: &[&str],
) -> Result<NameIndex<'c>, AllocError>
    ensures { IfOk result (λ index. listing index
        ≡ listing_of (name_order (collation_kept collator.now)) (map (λ n. n.now) names.now)) }
{
    let mut index = NameIndex::new(alloc, collator);
    for name in names {
        index.insert(name.as_bytes())?;
    }
    Ok(index)
}

fn print_names(rt: &HostRuntime) -> Result<(), Error> {
    let collator = collator(rt.alloc())?;
    let names = ["Zoë", "Émile", "emil", "Zoe", "Bo", "Emil"];
    let mut output = rt.stdout();
    for name in index(rt.alloc(), &collator, &names)?.iter() {
        output.write_all(name)?;
        output.write_all(b"\n")?;
    }
    Ok(output.flush()?)
}

/// Prints names in one line, sorted where they stand, each with its index among those that were handed in.
fn print_sorted(rt: &HostRuntime) -> Result<(), Error> {
    let collator = collator(rt.alloc())?;
    let names = ["Zoë", "Émile", "emil", "Zoe", "Bo", "Emil"];
    let indices = stable_order(rt.alloc(), &collator.as_borrowed(), &names)?;
    let mut sorted = names;
    sort_texts(&collator.as_borrowed(), &mut sorted);
    for (name, index) in sorted.iter().zip(indices.iter()) {
        print!(rt; "{name} {index}, ")?;
    }
    Ok(println!(rt; "each once")?)
}

fn print_all(rt: &HostRuntime) -> Result<(), Error> {
    print_names(rt)?;
    print_sorted(rt)
}

fn main(rt: HostRuntime) -> ExitCode {
    match print_all(&rt) {
        Ok(()) => ExitCode::SUCCESS,
        Err(error) => {
            let _ = eprintln!(rt; "sort_names: {error:?}");
            ExitCode::FAILURE
        }
    }
}
