//! Where a byte of a record stands (RFC 4180, section 2).

ghost use Rattle.std.specs.Prelude.{◌≡◌};
ghost use Rattle.line_sorts.specs.csv_records.RecordPlaces.{behind_byte, behind_unquoted, ends_line};

/// What stands before a byte of a record.
#[derive(Clone, Copy, PartialEq, Eq)]
pub enum RecordPlace {
    /// Nothing of its field.
    FieldStart,
    /// A part of a field without quotes.
    Unquoted,
    /// A part of a field between quotes.
    Quoted,
    /// A quote that may end a field between quotes.
    QuoteBehind,
}

/// Whether a byte ends a line: a carriage return or a line feed.
pub(crate) fn ends_line(byte: u8) -> bool
    ensures { result ≡ ends_line byte }
{
    byte == b'\r' || byte == b'\n'
}

/// The place behind a byte that stands in no quotes; `None` where it ends the record.
fn behind_unquoted(delimiter: u8, byte: u8) -> Option<RecordPlace>
    ensures { result ≡ behind_unquoted delimiter byte }
{
    if byte == delimiter {
        return Some(RecordPlace::FieldStart);
    }
    if ends_line(byte) {
        return None;
    }
    Some(RecordPlace::Unquoted)
}

/// The place behind a byte of a record; `None` where it ends the record.
pub(crate) fn behind_byte(delimiter: u8, place: RecordPlace, byte: u8) -> Option<RecordPlace>
    ensures { result ≡ behind_byte delimiter place byte }
{
    match place {
        RecordPlace::FieldStart => {
            if byte == b'"' {
                Some(RecordPlace::Quoted)
            } else {
                behind_unquoted(delimiter, byte)
            }
        }
        RecordPlace::Unquoted => behind_unquoted(delimiter, byte),
        RecordPlace::Quoted => {
            if byte == b'"' {
                Some(RecordPlace::QuoteBehind)
            } else {
                Some(RecordPlace::Quoted)
            }
        }
        RecordPlace::QuoteBehind => {
            if byte == b'"' {
                Some(RecordPlace::Quoted)
            } else {
                behind_unquoted(delimiter, byte)
            }
        }
    }
}
