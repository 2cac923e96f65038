//! Collators, and what tables are refused with.
use crate::driver_error::{DriverError, answered};
use crate::settings::Named;
use icu_collator::Collator;
use icu_table_check::checked_set;
use icu_table_data::{CodePointTable, CollationData, ContextTable};
use icu_table_entries::{DataError, DataErrorKind, DataTable};
use icu_table_mini::mini::Mini;
use icu_table_provider::builder::DataVectors;
use icu_table_provider::well_formed::CheckedTables;
use icu_table_provider::{CollationReordering, TableSet};
use std::alloc::Global;

/// A collator by these tables and settings. All questions make theirs here: a function with this call is dear to prove.
pub(crate) fn collator(alloc: Global, mini: &Mini, named: Named) -> Result<Collator, DataError> {
    Collator::try_new_unstable(alloc, &mini.provider(), named.preferences, named.options)
}

/// An error as it is printed: the table and the kind, or `ok`.
pub(crate) fn printed(alloc: Global, error: Option<DataError>) -> Result<String, DriverError> {
    match error {
        None => Ok(String::from_str(alloc, "ok")?),
        Some(error) => {
            let DataError { table, kind } = answered(error)?;
            Ok(format!(in alloc; "{table:?} {kind:?}")?)
        }
    }
}

/// An error's table and kind.
fn named<T>(table: DataTable, loaded: Result<T, DataErrorKind>) -> Result<T, DataError> {
    match loaded {
        Ok(loaded) => Ok(loaded),
        Err(kind) => Err(DataError { table, kind }),
    }
}

/// A table that the metadata names has to be there.
fn there<T>(table: DataTable, loaded: Option<T>) -> Result<T, DataError> {
    match loaded {
        Some(loaded) => Ok(loaded),
        None => Err(DataError {
            table,
            kind: DataErrorKind::Absent,
        }),
    }
}

/// The tailoring, if the metadata names one.
fn tailoring(mini: &Mini) -> Result<Option<CollationData<'_>>, DataError> {
    if !mini.metadata.tailored() {
        return Ok(None);
    }
    let loaded = named(DataTable::Tailoring, mini.load_tailoring())?;
    Ok(Some(there(DataTable::Tailoring, loaded)?))
}

/// The reordering, if the metadata names one.
fn reordering(mini: &Mini) -> Result<Option<CollationReordering<'_>>, DataError> {
    if !mini.metadata.reordering() {
        return Ok(None);
    }
    let loaded = named(DataTable::Reordering, mini.load_reordering())?;
    Ok(Some(there(DataTable::Reordering, loaded)?))
}

/// The tables by their constructors, in the order in which a collator loads them.
fn loaded(mini: &Mini) -> Result<TableSet<'_>, DataError> {
    Ok(TableSet {
        root: named(DataTable::Root, mini.load_root())?,
        jamo: named(DataTable::Jamo, mini.load_jamo())?,
        special: named(DataTable::SpecialPrimaries, mini.load_special_primaries())?,
        metadata: mini.metadata,
        tailoring: tailoring(mini)?,
        reordering: reordering(mini)?,
        diacritics: named(DataTable::Diacritics, mini.load_diacritics())?,
    })
}

/// Mini's tables, each checked by its constructor and then all together.
pub(crate) fn checked(alloc: Global, mini: &Mini) -> Result<CheckedTables, DataError> {
    checked_set(alloc, loaded(mini)?)
}

/// What tables are refused with that are checked so, as often as is asked for.
pub(crate) fn check(alloc: Global, mini: &Mini, times: u64) -> Result<String, DriverError> {
    let error = checked(alloc, mini).err();
    for _ in 1..times {
        if checked(alloc, mini).err() != error {
            return Ok(String::from_str(alloc, "unlike")?);
        }
    }
    printed(alloc, error)
}

/// A root or a tailoring without the check of its entries.
fn load_unchecked(held: &DataVectors) -> Result<CollationData<'_>, DataErrorKind> {
    let trie = CodePointTable::new(held.blocks.as_slice(), held.values.as_slice())?;
    let contexts = ContextTable::new(
        held.contexts.as_slice(),
        held.mappings.as_slice(),
        held.chars.as_slice(),
    )?;
    Ok(CollationData::from_unverified_parts(
        trie,
        held.ces.as_slice(),
        held.ce32s.as_slice(),
        contexts,
    ))
}

fn load_tailoring_unchecked(mini: &Mini) -> Result<Option<CollationData<'_>>, DataErrorKind> {
    match &mini.tailoring {
        Some(tailoring) => Ok(Some(load_unchecked(tailoring)?)),
        None => Ok(None),
    }
}

/// What the first constructor of a single table refuses that does.
pub(crate) fn alone(alloc: Global, mini: &Mini) -> Result<String, DriverError> {
    let loaded = mini.provider();
    for error in [
        loaded.root.err(),
        loaded.jamo.err(),
        loaded.special.err(),
        loaded.tailoring.err(),
        loaded.reordering.err(),
        loaded.diacritics.err(),
    ] {
        match error {
            Some(error) if error.kind != DataErrorKind::Absent => {
                return printed(alloc, Some(error));
            }
            _ => {}
        }
    }
    printed(alloc, None)
}

/// All tables that there are, the entries of the root and the tailoring unchecked.
fn all_unchecked(mini: &Mini) -> Result<TableSet<'_>, DataError> {
    Ok(TableSet {
        root: named(DataTable::Root, load_unchecked(&mini.root))?,
        jamo: named(DataTable::Jamo, mini.load_jamo())?,
        special: named(DataTable::SpecialPrimaries, mini.load_special_primaries())?,
        metadata: mini.metadata,
        tailoring: named(DataTable::Tailoring, load_tailoring_unchecked(mini))?,
        reordering: named(DataTable::Reordering, mini.load_reordering())?,
        diacritics: named(DataTable::Diacritics, mini.load_diacritics())?,
    })
}

/// The tables checked together, the entries of the root and the tailoring not by themselves before.
fn checked_together(alloc: Global, mini: &Mini) -> Result<CheckedTables, DataError> {
    checked_set(alloc, all_unchecked(mini)?)
}

/// What the check of all tables together refuses.
pub(crate) fn together(alloc: Global, mini: &Mini) -> Result<String, DriverError> {
    printed(alloc, checked_together(alloc, mini).err())
}

/// The name of the first table that a check didn't keep as it came.
fn unlike(kept: &CheckedTables, came: TableSet<'_>) -> Option<&'static str> {
    if kept.root() != came.root {
        Some("Root")
    } else if kept.jamo() != came.jamo {
        Some("Jamo")
    } else if kept.special_primaries() != came.special {
        Some("SpecialPrimaries")
    } else if kept.metadata() != came.metadata {
        Some("Metadata")
    } else if kept.tailoring() != came.tailoring {
        Some("Tailoring")
    } else if kept.reordering() != came.reordering {
        Some("Reordering")
    } else if kept.diacritics() != came.diacritics {
        Some("Diacritics")
    } else {
        None
    }
}

/// The first table that a check doesn't keep as it came, or an error.
fn first_unlike(alloc: Global, mini: &Mini) -> Result<Option<&'static str>, DataError> {
    let kept = checked(alloc, mini)?;
    Ok(unlike(&kept, loaded(mini)?))
}

/// Whether a check keeps the tables as they came.
pub(crate) fn kept(alloc: Global, mini: &Mini) -> Result<String, DriverError> {
    match first_unlike(alloc, mini) {
        Ok(name) => Ok(String::from_str(alloc, name.unwrap_or("ok"))?),
        Err(error) => printed(alloc, Some(error)),
    }
}
