//! What is known of characters before they are read: the places where texts may be cut, and the elements of characters
//! that may be read by themselves (UTS #10, "Produce Collation Element Arrays").
#![tactic(auto)]

mod alone;
mod bases;
pub mod char_facts;
pub mod char_words;
mod contractions;
mod digit_values;
pub mod facts_table;
pub mod few_elements;
mod followers;
mod joined_pairs;
pub mod kept_pairs;
mod lone_blocks;
mod own;
mod own_blocks;
mod plain_blocks;
pub mod read_char;
mod shapes;
mod syllables;
mod word_blocks;

pub use alone::{own_element, own_elements};
pub use char_facts::{CharFacts, FactsKind};
pub use char_words::Kept;
pub use contractions::{composed_of, plain_contractions_of};
pub use facts_table::KeptFacts;
pub use few_elements::FewElements;
pub use kept_pairs::KeptPair;
pub use own::is_plain;
pub use read_char::facts_of;
