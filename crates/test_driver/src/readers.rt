//! What texts are read by.
ghost use Rattle.std.specs.Prelude.{◌≡◌, IfOk};
ghost use Rattle.icu_table_provider.specs.well_formed.Checked.{checked_tables};
ghost use Rattle.icu_element_reading.specs.Reading.{element_tables, reading_of};
ghost use Rattle.icu_element_facts.specs.FactsTables.{AreFacts};
ghost use Rattle.icu_element_reading.specs.boundaries.BoundaryTables.{boundary_reading};
ghost use Rattle.test_driver.specs.Readers.{reading_with};

use icu_element_cursor::{Boundaries, CursorTables, KeptFacts};
use icu_element_reading::{ElementTables, TextReading};
use icu_table_provider::well_formed::CheckedTables;
use std::alloc::{AllocError, Global};

/// What texts are read by: tables, whether digits are read as numbers, and what is kept of letters.
#[derive(Drop)]
pub(crate) struct Reader {
    tables: CheckedTables,
    letters: KeptFacts,
    /// The lead byte of numbers, where digits are read as numbers.
    pub(crate) numeric_primary: Option<u8>,
    pub(crate) lithuanian_dot_above: bool,
    ghost known: { AreFacts (reading_with tables numeric_primary lithuanian_dot_above) letters },
}

/// How texts are read.
fn reading(
    tables: &CheckedTables,
    numeric_primary: Option<u8>,
    lithuanian_dot_above: bool,
) -> TextReading<'_>
    ensures reading { reading_of result ≡ reading_with tables.now numeric_primary
        lithuanian_dot_above }
    ensures tables { element_tables result.tables ≡ (checked_tables tables.now).tables }
{
    TextReading {
        tables: ElementTables::new(tables),
        numeric_primary,
        lithuanian_dot_above,
    }
}

/// Before which characters texts may be cut that are read so.
fn boundaries(
    tables: &CheckedTables,
    numeric_primary: Option<u8>,
    lithuanian_dot_above: bool,
) -> Boundaries<'_>
    ensures { boundary_reading result
        ≡ reading_with tables.now numeric_primary lithuanian_dot_above }
{
    Boundaries::new(reading(tables, numeric_primary, lithuanian_dot_above))
}

/// What is kept of the letters of texts that are read so.
fn letters(
    alloc: Global,
    tables: &CheckedTables,
    numeric_primary: Option<u8>,
    lithuanian_dot_above: bool,
) -> Result<KeptFacts, AllocError>
    ensures { IfOk result (λ l. AreFacts (reading_with tables.now numeric_primary
        lithuanian_dot_above) l) }
{
    let places = boundaries(tables, numeric_primary, lithuanian_dot_above);
    KeptFacts::new(alloc, tables, places)
}

impl Reader {
    /// By these tables.
    pub(crate) fn new(
        alloc: Global,
        tables: CheckedTables,
        numbers: bool,
    ) -> Result<Reader, AllocError> {
        let numeric_primary = if numbers {
            Some(tables.special_primaries().numeric_primary())
        } else {
            None
        };
        let lithuanian_dot_above = tables.metadata().lithuanian_dot_above();
        let letters = letters(alloc, &tables, numeric_primary, lithuanian_dot_above)?;
        Ok(Reader {
            tables,
            letters,
            numeric_primary,
            lithuanian_dot_above,
        })
    }

    /// How texts are read.
    pub(crate) fn reading(&self) -> TextReading<'_> {
        reading(
            &self.tables,
            self.numeric_primary,
            self.lithuanian_dot_above,
        )
    }

    /// Before which characters texts may be cut.
    pub(crate) fn boundaries(&self) -> Boundaries<'_>
        ensures { boundary_reading result
            ≡ reading_with self.now.tables self.now.numeric_primary self.now.lithuanian_dot_above }
    {
        boundaries(
            &self.tables,
            self.numeric_primary,
            self.lithuanian_dot_above,
        )
    }

    /// What is kept of letters.
    pub(crate) fn letters(&self) -> &KeptFacts {
        &self.letters
    }

    /// What a cursor reads by.
    pub(crate) fn cursor_tables(&self) -> CursorTables<'_> {
        CursorTables::new(self.boundaries(), &self.letters)
    }
}
