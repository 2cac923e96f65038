//! Tables by a text of rules, over the root of checked tables (UTS #35 part 5, "Collation Tailorings").
#![tactic(auto)]

mod no_tertiary;
mod own_jamo;
mod rule_numbers;
mod rule_reordering;
mod rule_settings;
pub mod rule_tables_error;
pub mod script_reordering;
mod script_spans;
mod script_starts;
pub mod tailored_entries;
mod tailored_metadata;
pub mod tailoring;
mod text_rules;

pub use rule_tables_error::{RuleRefusal, RuleTablesError};
pub use tailoring::Tailoring;
