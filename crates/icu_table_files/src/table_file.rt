//! A file of tables, read.

ghost use Rattle.std.specs.Prelude.{◌≡◌, IfOk, IfErr, option_map};
ghost use Rattle.icu_table_provider.specs.StoredTables.{reordering_of};
ghost use Rattle.icu_table_data.specs.StoredData.{data_of};
ghost use Rattle.icu_table_entries.specs.declared.error.DataTable.TheVariants.{Reordering, Tailoring};
ghost use Rattle.icu_table_provider.specs.Loads.{answer};
ghost use Rattle.icu_table_provider.specs.TableSets.{or_absent};
ghost use Rattle.icu_table_provider.specs.well_formed.Checked.{checked_tables};
ghost use Rattle.icu_table_files.specs.FileContents.{contents_stored};
ghost use Rattle.icu_table_files.specs.FileReading.{contents_in};
ghost use Rattle.icu_table_files.specs.inner.CheckedFiles.{CanBorrowAll};
ghost use Rattle.icu_table_files.specs.inner.ReadRefusals.{IsNoFrameError, RefusesBody, RefusesStored};
ghost use Rattle.icu_table_files.specs.inner.Spelt.{SpellsContents};
ghost use Rattle.icu_table_files.specs.inner.Vectors.{contents_read, tables_read};

use crate::checked_file::checked_vectors;
use crate::parts::without_frame;
use crate::table_file_error::TableFileError;
use crate::table_reading::{FileTexts, TableVectors, contents_from_bytes};
use icu_table_data::CollationData;
use icu_table_entries::{DataError, DataErrorKind, DataTable};
use icu_table_provider::well_formed::CheckedTables;
use icu_table_provider::{CollationReordering, FixedLoads, FixedProvider};
use std::alloc::Global;

/// The tables of a file, checked together, and what they were made from. It is a `CollationProvider`, which returns
/// them for every locale and type.
#[derive(Drop)]
pub struct TableFile {
    texts: FileTexts,
    tables: CheckedTables,
}

/// The tailoring, or that there is none.
fn lent_tailoring(tables: &CheckedTables) -> Result<CollationData<'_>, DataError>
    ensures { answer data_of result
        ≡ or_absent Tailoring (checked_tables tables.now).tables.tailoring }
{
    match tables.tailoring() {
        Some(tailoring) => Ok(tailoring),
        None => Err(DataError {
            table: DataTable::Tailoring,
            kind: DataErrorKind::Absent,
        }),
    }
}

/// The reordering, or that there is none.
fn lent_reordering(tables: &CheckedTables) -> Result<CollationReordering<'_>, DataError>
    ensures { answer reordering_of result
        ≡ or_absent Reordering (checked_tables tables.now).reordering }
{
    match tables.reordering() {
        Some(reordering) => Ok(reordering),
        None => Err(DataError {
            table: DataTable::Reordering,
            kind: DataErrorKind::Absent,
        }),
    }
}

/// The file of texts and of tables that pass the check.
fn file_of(
    alloc: Global,
    texts: FileTexts,
    vectors: &TableVectors,
) -> Result<TableFile, TableFileError>
    ensures keeps { IfOk result
        (λ f. contents_in f ≡ contents_stored (contents_read texts vectors.now)) }
    ensures accepts { IfOk result (λ _. CanBorrowAll (tables_read vectors.now)) }
    ensures refused { IfErr result (RefusesStored (tables_read vectors.now)) }
    ensures unframed { IfErr result IsNoFrameError }
{
    match checked_vectors(alloc, vectors) {
        Ok(tables) => Ok(TableFile { texts, tables }),
        Err(error) => Err(TableFileError::from(error)),
    }
}

/// The file of a body.
fn file_of_body(alloc: Global, body: &[u8]) -> Result<TableFile, TableFileError>
    ensures says { IfOk result (λ f. SpellsContents (contents_in f) body.now) }
    ensures refused { IfErr result (RefusesBody body.now) }
    ensures unframed { IfErr result IsNoFrameError }
{
    match contents_from_bytes(alloc, body) {
        Ok((texts, vectors)) => file_of(alloc, texts, &vectors),
        Err(error) => Err(TableFileError::from(error)),
    }
}

impl TableFile {
    ghost use Rattle.icu_table_files.specs.FileContents.{FileContents};
    ghost use Rattle.icu_table_files.specs.TableFiles.{IsFileOf};
    ghost use Rattle.icu_table_files.specs.FileReading.{IsReadError, ReadsBack};

    /// Reads a file of tables, and checks them: nothing is trusted because a program of this library wrote it. What is
    /// read of a file is what was written (`reads`). Takes time in proportion to the file, beside the check of its
    /// tables; allocates them twice while they are checked.
    pub fn read(alloc: Global, bytes: &[u8]) -> Result<TableFile, TableFileError>
        ensures says { IfOk result (λ f. IsFileOf (contents_in f) bytes.now) }
        ensures reads { (c : FileContents) → IsFileOf c bytes.now → ReadsBack c result }
        ensures error { IfErr result (IsReadError bytes.now) }
    {
        match without_frame(bytes) {
            Ok(body) => file_of_body(alloc, body),
            Err(error) => Err(TableFileError::from(error)),
        }
    }

    /// The tag of the locale whose collation it is, with its keywords; empty for the root.
    pub fn tag(&self) -> &str
        ensures { result.now ≡ (contents_in self.now).tag }
    {
        self.texts.tag.as_str()
    }

    /// The version of CLDR that the tables were made from; empty where it wasn't known.
    pub fn cldr(&self) -> &str
        ensures { result.now ≡ (contents_in self.now).cldr }
    {
        self.texts.cldr.as_str()
    }

    /// The version of Unicode that the tables were made from; empty where it wasn't known.
    pub fn unicode(&self) -> &str
        ensures { result.now ≡ (contents_in self.now).unicode }
    {
        self.texts.unicode.as_str()
    }

    /// The tables.
    pub fn tables(&self) -> &CheckedTables
        ensures { checked_tables result.now ≡ (contents_in self.now).tables }
    {
        &self.tables
    }

    /// The tables, handed over: a collator is made of them with no further check (`Collator::from_checked_tables`).
    pub fn into_tables(self) -> CheckedTables
        ensures { checked_tables result ≡ (contents_in self).tables }
    {
        self.tables
    }
}

impl FixedProvider for TableFile {
    ghost fixed = { λ f. loads_of (contents_in f).tables };

    ghost use Rattle.icu_table_provider.specs.TableSets.{loads_of};

    fn loads(&self) -> FixedLoads<'_> {
        FixedLoads {
            root: Ok(self.tables.root()),
            jamo: Ok(self.tables.jamo()),
            special: Ok(self.tables.special_primaries()),
            metadata: Ok(self.tables.metadata()),
            tailoring: lent_tailoring(&self.tables),
            reordering: lent_reordering(&self.tables),
            diacritics: Ok(self.tables.diacritics()),
        }
    }
}
