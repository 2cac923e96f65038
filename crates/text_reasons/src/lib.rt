//! What the collation elements of a text come from (UTS #10, "Produce Collation Element Arrays"), to be read by people,
//! and which characters bear one.
#![tactic(auto)]

pub mod bearing_part;
pub mod order_reasons;
pub mod part_explanations;
mod part_line;
pub mod parts_apart;
mod shown_elements;
mod shown_numbers;

pub use bearing_part::part_with;
pub use part_explanations::explanation;
pub use part_line::push_characters;
pub use parts_apart::deciding_part;
