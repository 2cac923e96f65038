//! Decomposed texts that are read without memory (UAX #15).
#![tactic(auto)]

mod char_parts;
mod class_numbers;
mod class_pass;
mod class_places;
mod counted_text;
mod decomposed_text;
mod found_mark;
mod in_order;
pub mod laws;
mod matchable_text;
mod ordered_parts;
mod run_text;
pub mod short_text;
mod slot_tree;
mod taking;
pub mod text_for_matches;

pub use counted_text::CountedText;
pub use decomposed_text::DecomposedText;
pub use matchable_text::MatchableText;
pub use text_for_matches::TextForMatches;
