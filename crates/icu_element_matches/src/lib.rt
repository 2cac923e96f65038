//! What an entry matches of a text: prefixes and contractions (UTS #35 part 5, "Context-Sensitive Mappings"; UTS #10,
//! "Produce Collation Element Arrays").
#![tactic(auto)]

pub mod classed_text;
pub mod contexts;
pub mod mappings;
mod mark_queue;
mod marks;
pub mod match_laws;
pub mod matched;
pub mod numbers;
mod queues;
pub mod steady_matches;
pub mod steady_numbers;
pub mod text;
pub mod text_front;

pub use classed_text::ClassedText;
pub use contexts::after_prefix;
pub use mappings::{find_longest, mapping_goes_on};
pub use matched::{Matched, find_match};
pub use text::Text;
pub use text_front::decided_front;
