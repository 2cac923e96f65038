//! Mini: a small collation for tests, and its variants.
#![tactic(auto)]

mod ingredients;
pub mod mini;
mod mini_characters;
pub mod provider;
pub mod reordering_data;
mod variants;
