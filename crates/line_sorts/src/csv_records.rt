//! Records of CSV with their own bytes: cut out of a text, and read as fields by the toolchain's `csv`.
pub mod csv_cuts;
pub mod record_fields;
pub mod record_place;

pub use csv_cuts::{csv_records, is_closed, line_of_record, past_mark};
pub use record_fields::{FieldsError, column_field, column_named, csv_fields};
