//! The order of any two texts by a collation (tables and settings together), the sort key of a text, and the theorem
//! that keys order as texts do. A crate of definitions (`specs/`) and of theorems: it has no code with meaning.
#![tactic(auto)]

pub mod laws;
pub mod level_weights;
pub mod text_beginnings;
pub mod text_laws;
pub mod weighting;
