//! The rules of a tailoring, read: statements and their places, and no meaning (UTS #35 part 5, "Collation
//! Tailorings").
#![tactic(auto)]

mod blanks;
mod bracketed;
mod brackets;
mod chain;
mod code_ranges;
mod escapes;
mod first;
pub mod imports;
pub mod laws;
mod open_sets;
mod parsing;
mod properties;
mod relations;
mod resets;
pub mod rules;
pub mod rules_error;
mod set_parts;
mod sets;
mod starred;
pub mod statement;
mod strings;
mod unplaced_error;
mod words;

pub use imports::RuleSource;
pub use rules::{PlacedStatement, Rules};
pub use rules_error::{RulesError, RulesErrorKind};
pub use statement::{
    Anchor, CharacterRange, LogicalPosition, Relation, Reset, RuleSetting, StarredRelation,
    Statement,
};
