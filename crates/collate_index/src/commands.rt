//! The commands, over an index that is open.

ghost use Rattle.std.specs.Prelude.{◌≡◌};
ghost use Rattle.icu_index.specs.headings.Headed.{headings_collation};
ghost use Rattle.icu_index_store.specs.Stores.{printed_collation, store_collation};

use crate::name_lines::add_lines;
use icu_index::headings::{Heading, HeadingStart, Headings};
use icu_index_store::stored_lines::push_rows;
use icu_index_store::{PrintedCollator, StoredIndex};
use sqlite::{Alter, Connection, Error, ErrorCode};
use std::alloc::{AllocError, Global};

/// What stands for a heading without a label.
const NO_LABEL: &str = "\u{2026}";

/// Puts the names of lines into an index, all of them or none.
pub(crate) fn add<S: Alter>(
    index: &StoredIndex<'_>,
    connection: &mut Connection<S>,
    text: &[u8],
) -> Result<(), Error> {
    if !connection.is_autocommit() {
        return Err(Error::SqliteFailure(ErrorCode::TransactionState));
    }
    let mut transaction = connection.transaction();
    add_lines(index, &mut transaction, text)?;
    transaction.commit()
}

/// Where headings with these labels start.
fn starts_with<'l>(
    alloc: Global,
    labels: &'l [String],
) -> Result<Vec<HeadingStart<'l>>, AllocError> {
    let mut starts = Vec::new(alloc);
    for label in labels {
        starts.push(HeadingStart::Label(label.as_bytes()))?;
    }
    Ok(starts)
}

/// What stands before the names of a heading: its label and a tab.
fn front_of(alloc: Global, heading: Heading<'_>) -> Result<Vec<u8>, AllocError> {
    let label = match heading {
        Heading::Label(label) => label,
        Heading::Underflow | Heading::Inflow | Heading::Overflow => NO_LABEL.as_bytes(),
    };
    let mut front = Vec::from_slice(alloc, label)?;
    front.push(b'\t')?;
    Ok(front)
}

/// Adds the names under a heading to a text, each behind the heading and a tab.
fn push_headed<S: Alter>(
    alloc: Global,
    index: &StoredIndex<'_>,
    connection: &mut Connection<S>,
    headings: &Headings<'_>,
    number: usize,
    text: &mut Vec<u8>,
) -> Result<(), Error>
    requires { headings_collation headings.now ≡ store_collation index.now }
{
    let front = front_of(alloc, headings.heading(number))?;
    let mut rows = index.under(connection, headings, number)?;
    push_rows(text, front.as_slice(), &mut rows)
}

/// The names of an index, heading by heading, each behind its heading and a tab.
pub(crate) fn headed<S: Alter>(
    alloc: Global,
    index: &StoredIndex<'_>,
    connection: &mut Connection<S>,
    collator: &PrintedCollator,
    labels: &[String],
) -> Result<Vec<u8>, Error>
    requires { store_collation index.now ≡ printed_collation collator.now }
{
    let starts = starts_with(alloc, labels)?;
    let headings = Headings::new(alloc, collator.collator(), starts.as_slice())?;
    let mut text = Vec::new(alloc);
    for number in 0..headings.len() {
        push_headed(alloc, index, connection, &headings, number, &mut text)?;
    }
    Ok(text)
}

/// All names of an index, in order.
pub(crate) fn listed<S: Alter>(
    alloc: Global,
    index: &StoredIndex<'_>,
    connection: &mut Connection<S>,
) -> Result<Vec<u8>, Error> {
    let mut text = Vec::new(alloc);
    let mut rows = index.list(connection)?;
    push_rows(&mut text, &[], &mut rows)?;
    Ok(text)
}

/// The names of an index that begin with a text.
pub(crate) fn found<S: Alter>(
    alloc: Global,
    index: &StoredIndex<'_>,
    connection: &mut Connection<S>,
    beginning: &str,
) -> Result<Vec<u8>, Error> {
    let mut text = Vec::new(alloc);
    let mut rows = index.beginning_with(connection, beginning.as_bytes())?;
    push_rows(&mut text, &[], &mut rows)?;
    Ok(text)
}

/// The names of an index from one up to another, which isn't among them.
pub(crate) fn listed_between<S: Alter>(
    alloc: Global,
    index: &StoredIndex<'_>,
    connection: &mut Connection<S>,
    from: &str,
    to: &str,
) -> Result<Vec<u8>, Error> {
    let mut text = Vec::new(alloc);
    let mut rows = index.between(connection, from.as_bytes(), to.as_bytes())?;
    push_rows(&mut text, &[], &mut rows)?;
    Ok(text)
}
