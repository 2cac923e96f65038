//! The tables that questions are asked of.
use crate::driver_error::DriverError;
use crate::numbers::{list, numbers, only, written};
use icu_table_data::{Context, ContextMapping};
use icu_table_mini::mini::Mini;
use icu_table_mini::reordering_data::ReorderingData;
use icu_table_provider::builder::DataVectors;
use std::alloc::{AllocError, Global};

/// Mini, or the variant of it with this name.
pub(crate) fn base(alloc: Global, name: &str) -> Result<Mini, DriverError> {
    match variant(alloc, name) {
        Some(made) => Ok(made?),
        None => Err(DriverError::Unread),
    }
}

fn variant(alloc: Global, name: &str) -> Option<Result<Mini, AllocError>> {
    match name {
        "Mini" => Some(Mini::new(alloc)),
        "backward" => Some(Mini::with_backward_second_level(alloc)),
        "Lithuanian" => Some(Mini::lithuanian(alloc)),
        "a ring" => Some(Mini::with_a_ring(alloc)),
        "double l" => Some(Mini::with_double_l(alloc)),
        "b after a" => Some(Mini::with_b_after_a(alloc)),
        "offsets" => Some(Mini::with_offsets(alloc)),
        "sharp s" => Some(Mini::with_sharp_s(alloc)),
        "swapped leads" => Some(Mini::with_swapped_leads(alloc)),
        "two mappings" => Some(Mini::with_two_mappings(alloc)),
        "c after ab" => Some(Mini::with_c_after_ab(alloc)),
        "jamo list" => Some(Mini::with_jamo_list(alloc)),
        "kana" => Some(Mini::with_kana(alloc)),
        "high currency" => Some(Mini::with_high_currency(alloc)),
        "secondary alone" => Some(Mini::with_secondary_alone(alloc)),
        "tertiary alone" => Some(Mini::with_tertiary_alone(alloc)),
        "split lead" => Some(Mini::with_split_lead(alloc)),
        _ => None,
    }
}

/// Puts numbers in the place of a field.
pub(crate) fn set(alloc: Global, mini: &mut Mini, written: &str) -> Result<(), DriverError> {
    let (field, written) = written.split_once(' ').unwrap_or((written, ""));
    let numbers = numbers(alloc, written)?;
    let numbers = numbers.as_slice();
    match field.split_once('.') {
        Some(("tailoring", field)) => set_tailoring(alloc, mini, field, numbers),
        Some(("reordering", field)) => set_reordering(alloc, mini, field, numbers),
        _ => set_field(alloc, mini, field, numbers),
    }
}

fn set_field(
    alloc: Global,
    mini: &mut Mini,
    field: &str,
    numbers: &[u64],
) -> Result<(), DriverError> {
    match field {
        "jamo" => mini.jamo = list(alloc, numbers)?,
        "diacritics" => mini.diacritics = list(alloc, numbers)?,
        "last" => mini.last_primaries = list(alloc, numbers)?,
        "numeric" => mini.numeric_primary = only(numbers)?,
        "metadata" => mini.metadata.bits = only(numbers)?,
        _ => set_data(alloc, &mut mini.root, field, numbers)?,
    }
    Ok(())
}

/// A root or a tailoring with empty lists.
fn empty_data(alloc: Global) -> DataVectors {
    DataVectors {
        blocks: Vec::new(alloc),
        values: Vec::new(alloc),
        ces: Vec::new(alloc),
        ce32s: Vec::new(alloc),
        contexts: Vec::new(alloc),
        mappings: Vec::new(alloc),
        chars: Vec::new(alloc),
    }
}

fn set_tailoring(
    alloc: Global,
    mini: &mut Mini,
    field: &str,
    numbers: &[u64],
) -> Result<(), DriverError> {
    if let Some(tailoring) = &mut mini.tailoring {
        return set_data(alloc, tailoring, field, numbers);
    }
    let mut made = empty_data(alloc);
    set_data(alloc, &mut made, field, numbers)?;
    mini.tailoring = Some(made);
    Ok(())
}

fn set_reordering(
    alloc: Global,
    mini: &mut Mini,
    field: &str,
    numbers: &[u64],
) -> Result<(), DriverError> {
    if let Some(reordering) = &mut mini.reordering {
        return set_reordering_data(alloc, reordering, field, numbers);
    }
    let mut made = ReorderingData {
        min_high_no_reorder: 0,
        reorder_table: Vec::new(alloc),
        reorder_ranges: Vec::new(alloc),
    };
    set_reordering_data(alloc, &mut made, field, numbers)?;
    mini.reordering = Some(made);
    Ok(())
}

fn set_reordering_data(
    alloc: Global,
    reordering: &mut ReorderingData,
    field: &str,
    numbers: &[u64],
) -> Result<(), DriverError> {
    match field {
        "leads" => reordering.reorder_table = list(alloc, numbers)?,
        "ranges" => reordering.reorder_ranges = list(alloc, numbers)?,
        "limit" => reordering.min_high_no_reorder = only(numbers)?,
        _ => return Err(DriverError::Unread),
    }
    Ok(())
}

fn set_data(
    alloc: Global,
    data: &mut DataVectors,
    field: &str,
    numbers: &[u64],
) -> Result<(), DriverError> {
    match field {
        "blocks" => data.blocks = list(alloc, numbers)?,
        "values" => data.values = list(alloc, numbers)?,
        "ces" => data.ces = list(alloc, numbers)?,
        "ce32s" => data.ce32s = list(alloc, numbers)?,
        "chars" => data.chars = list(alloc, numbers)?,
        "contexts" => data.contexts = contexts(alloc, numbers)?,
        "mappings" => data.mappings = mappings(alloc, numbers)?,
        _ => return Err(DriverError::Unread),
    }
    Ok(())
}

/// Contexts, each of three numbers.
fn contexts(alloc: Global, numbers: &[u64]) -> Result<Vec<Context>, DriverError> {
    let numbers: Vec<u32> = list(alloc, numbers)?;
    let mut contexts = Vec::new(alloc);
    for three in numbers.as_slice().chunks(3) {
        let [default, mappings_start, mappings_len] = three else {
            return Err(DriverError::Unread);
        };
        contexts.push(Context {
            default: *default,
            mappings_start: *mappings_start,
            mappings_len: *mappings_len,
        })?;
    }
    Ok(contexts)
}

/// Mappings of contexts, each of three numbers.
fn mappings(alloc: Global, numbers: &[u64]) -> Result<Vec<ContextMapping>, DriverError> {
    let numbers: Vec<u32> = list(alloc, numbers)?;
    let mut mappings = Vec::new(alloc);
    for three in numbers.as_slice().chunks(3) {
        let [chars_start, chars_len, entry] = three else {
            return Err(DriverError::Unread);
        };
        mappings.push(ContextMapping {
            chars_start: *chars_start,
            chars_len: *chars_len,
            entry: *entry,
        })?;
    }
    Ok(mappings)
}

/// The numbers of a field, or `none`.
pub(crate) fn show(alloc: Global, mini: &Mini, field: &str) -> Result<String, DriverError> {
    match field.split_once('.') {
        Some(("tailoring", field)) => match &mini.tailoring {
            Some(tailoring) => show_data(alloc, tailoring, field),
            None => Ok(String::from_str(alloc, "none")?),
        },
        Some(("reordering", field)) => match &mini.reordering {
            Some(reordering) => show_reordering(alloc, reordering, field),
            None => Ok(String::from_str(alloc, "none")?),
        },
        _ => show_field(alloc, mini, field),
    }
}

fn show_field(alloc: Global, mini: &Mini, field: &str) -> Result<String, DriverError> {
    let shown = match field {
        "jamo" => written(alloc, mini.jamo.as_slice())?,
        "diacritics" => written(alloc, mini.diacritics.as_slice())?,
        "last" => written(alloc, mini.last_primaries.as_slice())?,
        "numeric" => written(alloc, &[mini.numeric_primary])?,
        "metadata" => written(alloc, &[mini.metadata.bits])?,
        _ => show_data(alloc, &mini.root, field)?,
    };
    Ok(shown)
}

fn show_reordering(
    alloc: Global,
    reordering: &ReorderingData,
    field: &str,
) -> Result<String, DriverError> {
    let shown = match field {
        "leads" => written(alloc, reordering.reorder_table.as_slice())?,
        "ranges" => written(alloc, reordering.reorder_ranges.as_slice())?,
        "limit" => written(alloc, &[reordering.min_high_no_reorder])?,
        _ => return Err(DriverError::Unread),
    };
    Ok(shown)
}

fn show_data(alloc: Global, data: &DataVectors, field: &str) -> Result<String, DriverError> {
    let shown = match field {
        "blocks" => written(alloc, data.blocks.as_slice())?,
        "values" => written(alloc, data.values.as_slice())?,
        "ces" => written(alloc, data.ces.as_slice())?,
        "ce32s" => written(alloc, data.ce32s.as_slice())?,
        "chars" => written(alloc, data.chars.as_slice())?,
        "contexts" => show_contexts(alloc, data.contexts.as_slice())?,
        "mappings" => show_mappings(alloc, data.mappings.as_slice())?,
        _ => return Err(DriverError::Unread),
    };
    Ok(shown)
}

fn show_contexts(alloc: Global, contexts: &[Context]) -> Result<String, AllocError> {
    let mut numbers: Vec<u32> = Vec::new(alloc);
    for context in contexts {
        numbers.extend_from_slice(&[
            context.default,
            context.mappings_start,
            context.mappings_len,
        ])?;
    }
    written(alloc, numbers.as_slice())
}

fn show_mappings(alloc: Global, mappings: &[ContextMapping]) -> Result<String, AllocError> {
    let mut numbers: Vec<u32> = Vec::new(alloc);
    for mapping in mappings {
        numbers.extend_from_slice(&[mapping.chars_start, mapping.chars_len, mapping.entry])?;
    }
    written(alloc, numbers.as_slice())
}

/// Copies of the lists of a root or a tailoring.
pub(crate) fn vectors(
    alloc: Global,
    (blocks, values): (&[u16], &[u32]),
    (ces, ce32s): (&[u64], &[u32]),
    (contexts, mappings, chars): (&[Context], &[ContextMapping], &[char]),
) -> Result<DataVectors, AllocError> {
    Ok(DataVectors {
        blocks: Vec::from_slice(alloc, blocks)?,
        values: Vec::from_slice(alloc, values)?,
        ces: Vec::from_slice(alloc, ces)?,
        ce32s: Vec::from_slice(alloc, ce32s)?,
        contexts: Vec::from_slice(alloc, contexts)?,
        mappings: Vec::from_slice(alloc, mappings)?,
        chars: Vec::from_slice(alloc, chars)?,
    })
}

fn copied_data(alloc: Global, data: &DataVectors) -> Result<DataVectors, AllocError> {
    vectors(
        alloc,
        (data.blocks.as_slice(), data.values.as_slice()),
        (data.ces.as_slice(), data.ce32s.as_slice()),
        (
            data.contexts.as_slice(),
            data.mappings.as_slice(),
            data.chars.as_slice(),
        ),
    )
}

fn copied_tailoring(alloc: Global, mini: &Mini) -> Result<Option<DataVectors>, AllocError> {
    match &mini.tailoring {
        Some(tailoring) => Ok(Some(copied_data(alloc, tailoring)?)),
        None => Ok(None),
    }
}

fn copied_reordering(alloc: Global, mini: &Mini) -> Result<Option<ReorderingData>, AllocError> {
    match &mini.reordering {
        Some(reordering) => Ok(Some(ReorderingData {
            min_high_no_reorder: reordering.min_high_no_reorder,
            reorder_table: Vec::from_slice(alloc, reordering.reorder_table.as_slice())?,
            reorder_ranges: Vec::from_slice(alloc, reordering.reorder_ranges.as_slice())?,
        })),
        None => Ok(None),
    }
}

/// A copy of tables.
pub(crate) fn copied(alloc: Global, mini: &Mini) -> Result<Mini, AllocError> {
    Ok(Mini {
        root: copied_data(alloc, &mini.root)?,
        tailoring: copied_tailoring(alloc, mini)?,
        jamo: Vec::from_slice(alloc, mini.jamo.as_slice())?,
        diacritics: Vec::from_slice(alloc, mini.diacritics.as_slice())?,
        last_primaries: Vec::from_slice(alloc, mini.last_primaries.as_slice())?,
        numeric_primary: mini.numeric_primary,
        metadata: mini.metadata,
        reordering: copied_reordering(alloc, mini)?,
    })
}
