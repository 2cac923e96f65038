//! What the rules of a tailoring say, one after another (UTS #35 part 5, "Collation Tailorings").
#![tactic(auto)]

mod decomposing;
mod faults;
pub mod held_relations;
mod relation_counts;
mod rule_step_error;
pub mod statement_place;
pub mod symbolic_mappings;
pub mod symbolic_tailoring;
pub mod tailoring_error;
mod weight_makers;

pub use statement_place::StatementPlace;
pub use symbolic_tailoring::SymbolicTailoring;
pub use tailoring_error::{TailoringError, TailoringErrorKind};
