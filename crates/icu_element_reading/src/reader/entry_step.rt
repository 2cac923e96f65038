//! What the entry that a match came to gives.

ghost use Rattle.std.specs.Prelude.{◌≡◌, ◌<◌, ◌++◌, All, IsTrue, OnOk};
ghost use Rattle.icu_table_data.specs.DataConditions.{is_readable};
ghost use Rattle.icu_table_data.specs.StoredData.{data_of};
ghost use Rattle.icu_table_entries.specs.declared.entry.EntryKind.TheVariants.{Digit};
ghost use Rattle.icu_table_entries.specs.Entries.{kind_of};
ghost use Rattle.icu_element_matches.specs.WellFormedEntries.{IsWellFormedMatch};
ghost use Rattle.icu_element_reading.specs.Reading.{element_tables, reading_of};
ghost use Rattle.icu_element_reading.specs.TextElements.{number_elements, number_step, entry_step, final_step};
ghost use Rattle.icu_element_reading.specs.inner.Positions.{IsStep, consumed_last, unread_at};
ghost use Rattle.icu_element_reading.specs.inner.TakenDigits.{matched, digit_step};

use crate::element_list::ElementList;
use crate::element_tables::ElementTables;
use crate::reader::position::Position;
use crate::reader::taken_digits::take_number;
use crate::text_reading::TextReading;
use icu_element_matches::Matched;
use icu_element_matches::numbers::digit_run_weights;
use icu_table_data::CollationData;
use icu_table_data::element_walk::visit_elements;
use icu_table_entries::{CollationElement, CollationElement32, EntryKind};
use std::alloc::{AllocError, Global};

/// Appends the elements of a run of digits.
fn push_number(
    alloc: Global,
    list: &mut ElementList,
    lead: u8,
    digits: &[u8],
) -> Result<(), AllocError>
    requires { All (λ d. d < 10) digits.now }
    ensures { OnOk result (list.new.elements.items ≡ list.old.elements.items
        ++ number_elements lead digits.now) }
{
    let weights = digit_run_weights(alloc, lead, digits)?;
    for weight in &weights {
        list.elements
            .push(CollationElement::new_from_primary(*weight))?;
    }
    Ok(())
}

/// Reads a number, at a digit whose match is done.
#[tactic(auto, unfolding(crate::specs::TextElements::number_step))]
fn read_number(
    tables: ElementTables<'_>,
    lead: u8,
    at: &mut Position,
    c: char,
    home: CollationData<'_>,
    found: &Matched,
    list: &mut ElementList,
) -> Result<(), AllocError>
    requires is_digit { kind_of found.now.ce32 ≡ Digit }
    requires well_formed { IsWellFormedMatch (data_of home) c found.now.ce32 }
    ensures { OnOk result (IsStep (number_step (element_tables tables.entry) lead
        (matched found.now (unread_at at.old)))
        c (consumed_last at.old) list.old.elements.items list.new.elements.items at.new) }
{
    let digits = take_number(tables, at, c, found)?;
    push_number(tables.allocator(), list, lead, digits.as_slice())
}

/// Reads by a final entry.
fn read_final(
    at: &mut Position,
    c: char,
    home: CollationData<'_>,
    ce32: CollationElement32,
    found: &Matched,
    list: &mut ElementList,
) -> Result<(), AllocError>
    requires { IsTrue (is_readable (data_of home) c ce32) }
    ensures { OnOk result (IsStep (final_step (data_of home.entry) c ce32
        (matched found.now (unread_at at.old)))
        c (consumed_last at.old) list.old.elements.items list.new.elements.items at.new) }
{
    at.recent.push_with(c, found.suffix.as_slice());
    visit_elements(list, home, c, ce32)
}

/// Reads at a digit: a number, or by the plain entry where digits aren't read as numbers.
fn read_digit(
    reading: TextReading<'_>,
    at: &mut Position,
    c: char,
    home: CollationData<'_>,
    found: &Matched,
    list: &mut ElementList,
) -> Result<(), AllocError>
    requires is_digit { kind_of found.now.ce32 ≡ Digit }
    requires well_formed { IsWellFormedMatch (data_of home) c found.now.ce32 }
    ensures { OnOk result (IsStep (digit_step (reading_of reading.entry) (data_of home.entry) c
        (matched found.now (unread_at at.old)))
        c (consumed_last at.old) list.old.elements.items list.new.elements.items at.new) }
{
    match reading.numeric_primary {
        Some(lead) => read_number(reading.tables, lead, at, c, home, found, list),
        None => read_final(at, c, home, home.get_ce32(found.ce32.index()), found, list),
    }
}

/// Reads by the entry that a match came to.
#[tactic(auto, unfolding(crate::specs::TextElements::entry_step))]
pub(crate) fn read_entry(
    reading: TextReading<'_>,
    at: &mut Position,
    c: char,
    home: CollationData<'_>,
    found: &Matched,
    list: &mut ElementList,
) -> Result<(), AllocError>
    requires { IsWellFormedMatch (data_of home) c found.now.ce32 }
    ensures { OnOk result (IsStep (entry_step (reading_of reading.entry) (data_of home.entry) c
        (matched found.now (unread_at at.old)))
        c (consumed_last at.old) list.old.elements.items list.new.elements.items at.new) }
{
    match found.ce32.kind() {
        EntryKind::Digit => read_digit(reading, at, c, home, found, list),
        _ => read_final(at, c, home, found.ce32, found, list),
    }
}
