//! An index of names in a database of the toolchain's `sqlite`, in the order of a collator.
#![tactic(auto)]

pub mod laws;
pub mod open_error;
pub mod opening;
pub mod printed_collator;
pub mod rebuilding;
pub mod setting_words;
pub mod stored_index;
pub mod stored_lines;
pub mod stored_listings;
pub mod stored_names;
pub mod stored_rows;

pub use crate::stored_names::StoredName;
pub use open_error::{FingerprintDifference, OpenError};
pub use opening::open;
pub use printed_collator::PrintedCollator;
pub use rebuilding::rebuild;
pub use setting_words::written_settings;
pub use stored_index::StoredIndex;
