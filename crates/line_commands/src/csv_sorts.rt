//! Records of CSV sorted by columns, by a collator: the header stays, and each record keeps its own bytes.
pub mod column_disorder;
pub mod column_words;
pub mod csv_messages;
pub mod csv_request;
pub mod csv_words;
mod record_key;
pub mod sorted_records;

pub use column_disorder::{column_disorder_text, first_column_disorder};
pub use column_words::columns_of_words;
pub use csv_messages::csv_error_said;
pub use csv_request::{ColumnSort, CsvError, CsvRequest};
pub use csv_words::{CsvWords, csv_delimiter, wrong_csv_words};
pub use sorted_records::print_sorted_by_columns;
