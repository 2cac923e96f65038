//! Collation for C: a handle is opened by the bytes of a table file, compares texts, writes keys and finds matches.
//!
//! `bindings/c/collate.h` declares what is exported, and says what a caller owes. Each export says its library's clause
//! again, over what the handle holds.
#![tactic(auto)]

pub mod bound_exports;
mod box_parts;
mod collate_handle;
mod collate_match;
pub mod compare_exports;
pub mod find_exports;
mod held_session;
mod key_batches;
pub mod key_exports;
pub mod open_exports;
mod opened_files;
mod session;
mod statuses;
mod written_keys;
mod written_matches;

pub use collate_handle::CollateHandle;
pub use collate_match::CollateMatch;
