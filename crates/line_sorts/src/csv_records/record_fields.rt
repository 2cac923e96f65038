//! The fields of a record.

ghost use Rattle.std.specs.Prelude.{◌≡◌, IfOk, option_map};
ghost use Rattle.csv.specs.Records.{field_at, fields_of};
ghost use Rattle.line_sorts.specs.csv_records.CsvFields.{csv_fields};

use csv::{ByteRecord, ErrorKind, ReaderBuilder};
use std::alloc::Global;
use thiserror::Error;

/// Why the fields of a record aren't read.
#[derive(Debug, Drop, Error)]
pub enum FieldsError {
    /// An allocation failed.
    #[error("no memory")]
    NoMemory,
    /// A read failed. Bytes in memory have none that does, but no clause of the toolchain's `csv` says so.
    #[error("read failed")]
    ReadFailed,
}

/// The fields of a record, without their quotes, as the toolchain's `csv` reads its bytes.
///
/// # Errors
///
/// Fails where an allocation does, or where `csv` says that a read of the bytes did. No record is refused: it may have
/// any number of fields, and these any bytes.
pub fn csv_fields(alloc: Global, delimiter: u8, bytes: &[u8]) -> Result<ByteRecord, FieldsError>
    ensures { IfOk result (λ row. fields_of row ≡ csv_fields delimiter bytes.now) }
{
    let mut reader = ReaderBuilder::new()
        .delimiter(delimiter)
        .has_headers(false)
        .flexible(true)
        .from_reader(alloc, bytes);
    let mut row = ByteRecord::new(alloc);
    match reader.read_byte_record(&mut row) {
        Ok(true) => Ok(row),
        Ok(false) => Ok(ByteRecord::new(alloc)),
        Err(error) => match error.into_kind() {
            ErrorKind::OutOfMemory => Err(FieldsError::NoMemory),
            ErrorKind::Io(_) => Err(FieldsError::ReadFailed),
            ErrorKind::Utf8 { .. }
            | ErrorKind::UnequalLengths { .. }
            | ErrorKind::Serialize(_)
            | ErrorKind::Deserialize { .. } => unreachable!(),
        },
    }
}

/// The field of a column of a record, from 0 on, if the record has it.
pub fn column_field(row: &ByteRecord, column: usize) -> Option<&[u8]>
    ensures { option_map (λ field. field.now) result ≡ field_at (fields_of row.now) column }
{
    row.get(column)
}

/// The first column of a header with a name.
pub fn column_named(header: &ByteRecord, name: &[u8]) -> Option<usize> {
    for column in 0..header.len() {
        if header.get(column) == Some(name) {
            return Some(column);
        }
    }
    None
}
