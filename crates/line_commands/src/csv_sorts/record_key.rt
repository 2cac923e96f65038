//! The key of a record by its columns.

ghost use Rattle.std.specs.Prelude.{◌≡◌, ◌++◌, [], IfErr, IfOk, IsSome, OnOk, map, unwrap_or};
ghost use Rattle.std.specs.List.{AllByRecursion};
ghost use Rattle.csv.specs.Records.{field_at, fields_of};
ghost use Rattle.line_sorts.specs.csv_records.CsvFields.{csv_fields};
ghost use Rattle.icu_collator.specs.Collators.{collation_borrowed};
ghost use Rattle.line_sorts.specs.KeyBuffers.{keys_in};
ghost use Rattle.line_sorts.specs.ShownLines.{shown_lines};
ghost use Rattle.line_sorts.specs.fields.JoinedKeys.{directed_key};
ghost use Rattle.line_commands.specs.csv_sorts.ColumnOrders.{HasColumns, column_key, columns_key, fields_key};
ghost use Rattle.line_commands.specs.csv_sorts.CsvErrors.{ExplainsField, ExplainsFields, ExplainsKeys};

use crate::csv_sorts::csv_request::{ColumnSort, CsvError, CsvRequest};
use crate::field_sorts::part_key;
use csv::ByteRecord;
use icu_collator::CollatorBorrowed;
use line_sorts::LineKeys;
use line_sorts::csv_records::{column_field, csv_fields};
use line_sorts::fields::push_directed_key;
use std::alloc::Global;

/// Appends the key of a column of the record at an index, in its direction.
fn push_column_key(
    alloc: Global,
    collator: &CollatorBorrowed<'_>,
    row: &ByteRecord,
    sort: ColumnSort,
    index: usize,
    key: &mut Vec<u8>,
) -> Result<(), CsvError>
    ensures has { OnOk result (IsSome (field_at (fields_of row.now) sort.column)) }
    ensures key { OnOk result (key.new.items ≡ key.old.items ++ directed_key sort.direction
        (column_key (collation_borrowed collator.now) (fields_of row.now) sort)) }
    ensures explains { IfErr result (ExplainsField (fields_of row.now) sort.column) }
{
    match column_field(row, sort.column) {
        Some(field) => {
            let part = part_key(alloc, collator, sort.order, field)?;
            Ok(push_directed_key(alloc, key, sort.direction, part.as_slice())?)
        }
        None => Err(CsvError::Lacks {
            record: index,
            column: sort.column,
        }),
    }
}

/// The key of the record at an index by columns of its fields.
#[tactic(auto, using(crate::proofs::csv_sorts::ErrorLemmas::fields_explained))]
fn fields_key(
    alloc: Global,
    collator: &CollatorBorrowed<'_>,
    row: &ByteRecord,
    columns: &[ColumnSort],
    index: usize,
) -> Result<Vec<u8>, CsvError>
    ensures has { IfOk result (λ key. AllByRecursion
        (λ sort. IsSome (field_at (fields_of row.now) sort.column)) columns.now) }
    ensures key { IfOk result (λ key. key.items
        ≡ fields_key (collation_borrowed collator.now) (fields_of row.now) columns.now) }
    ensures explains { IfErr result (ExplainsFields (fields_of row.now) columns.now) }
{
    let mut key = Vec::new(alloc);
    for sort in columns {
        push_column_key(alloc, collator, row, *sort, index, &mut key)?;
    }
    Ok(key)
}

/// The key of the record at an index by its columns.
#[tactic(auto, using(crate::proofs::csv_sorts::ErrorLemmas::read_explained))]
pub(crate) fn record_key(
    alloc: Global,
    collator: &CollatorBorrowed<'_>,
    request: CsvRequest<'_>,
    index: usize,
    bytes: &[u8],
) -> Result<Vec<u8>, CsvError>
    ensures has { IfOk result (λ key. HasColumns request.entry.delimiter
        request.entry.columns.now bytes.now) }
    ensures key { IfOk result (λ key. key.items ≡ columns_key (collation_borrowed collator.now)
        request.entry.delimiter request.entry.columns.now bytes.now) }
    ensures explains { IfErr result (ExplainsFields (csv_fields request.entry.delimiter bytes.now)
        request.entry.columns.now) }
{
    let row = csv_fields(alloc, request.delimiter, bytes)?;
    fields_key(alloc, collator, &row, request.columns, index)
}

/// The keys of records by their columns, of which the first has an index.
#[tactic(auto, using(crate::proofs::csv_sorts::ErrorLemmas::keys_explained))]
pub(crate) fn keys_of_records(
    alloc: Global,
    collator: &CollatorBorrowed<'_>,
    request: CsvRequest<'_>,
    first: usize,
    records: &[&[u8]],
) -> Result<LineKeys, CsvError>
    ensures has { IfOk result (λ keys. AllByRecursion (HasColumns request.entry.delimiter
        request.entry.columns.now) (shown_lines records.now)) }
    ensures keys { IfOk result (λ keys. keys_in keys
        ≡ map (columns_key (collation_borrowed collator.now) request.entry.delimiter
        request.entry.columns.now) (shown_lines records.now)) }
    ensures explains { IfErr result (ExplainsKeys request.entry (shown_lines records.now)) }
{
    let mut keys = LineKeys::new(alloc);
    let mut index = first;
    for bytes in records {
        let key = record_key(alloc, collator, request, index, bytes)?;
        keys.push(key.as_slice())?;
        index = index.saturating_add(1);
    }
    Ok(keys)
}
