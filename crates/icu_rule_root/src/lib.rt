//! A root over checked tables: its mappings of characters, and its weights level by level (UTS #35 part 5, "Root
//! Collation").
#![tactic(auto)]

pub mod checked_root;
mod entry_elements;
mod entry_mappings;
mod key_collector;
mod key_window;
mod level_weights;
mod root_mappings;

pub use checked_root::CheckedRoot;
