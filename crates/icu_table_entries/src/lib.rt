//! Entries and collation elements, with the conditions on each, and the error of a table.
#![tactic(auto)]

pub mod element;
pub mod element_conditions;
pub mod entry;
mod entry_conditions;
pub mod entry_encoding;
pub mod error;
pub mod non_primary;
mod offset;

pub use element::CollationElement;
pub use entry::{CollationElement32, EntryKind, Tag};
pub use entry_encoding::{INDEX_COUNT, LIST_LENGTH_MAX};
pub use error::{DataError, DataErrorKind, DataTable};
pub use non_primary::NonPrimary;
