//! The entries of mappings: what elements, and the characters around a character, become in a root or a tailoring (UTS
//! #10, "Expansions" and "Contractions"; UTS #35 part 5, "Context-Sensitive Mappings").
#![tactic(auto)]

pub mod contexts;
pub mod digit_entries;
pub mod element_entries;
mod entries_behind;
pub mod error;
pub mod laws;
pub mod surroundings;

pub use contexts::{CONTEXT_STEPS, entry_in_contexts};
pub use digit_entries::{entry_of_digit, value_of_digit};
pub use element_entries::entry_of_elements;
pub use error::MappingEntriesError;
pub use surroundings::{Contexts, Suffixes, put_between};
