//! The entries of a tailoring, from the mappings of characters and the numbers of tailored weights.
mod contexts;
mod elements;
pub mod error;
pub mod jamo_table;
pub mod kept_diacritics;
mod merged_ranges;
mod root_lists;
pub mod tailored_lists;

pub use error::TailoredEntriesError;
pub use jamo_table::{JamoVectors, tailored_jamo};
pub use kept_diacritics::tailored_diacritics;
pub use tailored_lists::tailored_data;
