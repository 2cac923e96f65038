//! A file of the tables of one collation: all that a provider returns, the locale's tag and the versions that they were
//! made from, behind a magic word, a version, a length and a checksum. It is written from checked tables, and what is
//! read is checked as any other tables are.
#![tactic(auto)]

mod checked_file;
mod context_numbers;
mod data_reading;
pub mod fingerprint;
mod other_forms;
mod other_reading;
mod part_lists;
pub mod parts;
mod table_file;
mod table_file_error;
mod table_reading;
mod written;
mod written_data;

pub use table_file::TableFile;
pub use table_file_error::TableFileError;
pub use written::{Origin, write};
