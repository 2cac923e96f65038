//! The check of all tables of a collator together: it accepts exactly those that meet the conditions of
//! `icu_table_provider`, and names one that fails.
#![tactic(auto)]

mod check;
pub mod checked_tables;
mod condition_group;
pub mod small_tables;
mod violation;

pub use checked_tables::{checked_owned, checked_parts, checked_set};
