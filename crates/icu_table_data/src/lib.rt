//! Roots and tailorings: entries by character, with the lists and contexts that they refer to, the entries that are
//! reachable in them, and the conditions that these meet.
#![tactic(auto)]

pub mod block_walk;
pub mod both;
mod character_walk;
mod clear_entries;
pub mod code_point_table;
pub mod context;
mod context_conditions;
pub mod data;
mod data_conditions;
pub mod element_walk;
mod prefix_mappings;
pub mod reachable_condition;
pub mod reachable_weights;
mod sought_entries;
mod sought_lists;
pub mod violation;
mod visited_entries;
pub mod walk;
mod wanted_walk;

pub use code_point_table::CodePointTable;
pub use context::{Context, ContextMapping, ContextTable, FoundContext, FoundMapping};
pub use data::CollationData;
