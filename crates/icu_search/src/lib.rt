//! Search by collation (UTS #10, "Searching and Matching"): the parts of a text that are equal to a pattern by a
//! collator.
//!
//! A `Searcher` keeps a pattern. `find` gives the first match of a text. `read` reads a text once, and `find_iter`
//! gives all that are found in it, one by one. Patterns and texts may be in UTF-8, UTF-16 or Latin-1, damaged ones too.
#![tactic(auto)]

mod allowed_offsets;
mod apart_leads;
mod ascii_marks;
mod barren_parts;
mod boundary;
mod common_lengths;
mod counted_walk;
mod encoded_searches;
mod first_weights;
mod found_matches;
mod least_stops;
mod overlapping_matches;
mod part_match;
mod part_outcome;
mod part_walk;
mod passed_starts;
mod pattern_levels;
mod pattern_weights;
mod search_calls;
mod searched_text;
mod searcher;
mod silent_starts;
mod text_cuts;
mod text_runs;

pub use boundary::Boundary;
pub use found_matches::FoundMatches;
pub use overlapping_matches::OverlappingMatches;
pub use part_match::Match;
pub use searched_text::SearchedText;
pub use searcher::Searcher;
