//! Search by collation: which parts of a text are found of a pattern, between which places, and in which order (UTS
//! #10, "Searching and Matching").
//!
//! The definitions stand in `specs/`, and `laws` says what holds of them. Of code there is the selection of the least
//! matches: `MatchEnds` tells where the matches of a text end, and `FoundSpans` gives those that are found.
#![tactic(auto)]

mod barren_part;
mod char_span;
mod found_spans;
pub mod indexed_text;
mod known_parts;
pub mod laws;
pub mod level_walks;
mod match_ends;
pub mod place_reader;

pub use barren_part::BarrenPart;
pub use char_span::CharSpan;
pub use found_spans::{FoundSpans, first_least};
pub use known_parts::KnownParts;
pub use match_ends::MatchEnds;
