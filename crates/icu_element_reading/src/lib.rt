//! The collation elements of a text (UTS #10, "Produce Collation Element Arrays"): by contractions and prefixes,
//! tailorings, numbers where digits are read as numbers, and the Lithuanian rule where it is asked for.
#![tactic(auto)]

pub mod boundaries;
pub mod collation_elements;
mod decomposed_source;
mod element_list;
mod element_reader;
pub mod element_tables;
pub mod laws;
pub mod look_up;
pub mod mapping_heads;
mod matched_alone;
pub mod read;
mod reader;
pub mod steady_elements;
pub mod step_reader;
pub mod text_reading;
pub mod whole;

pub use collation_elements::CollationElements;
pub use element_tables::ElementTables;
pub use icu_table_entries::{CollationElement, CollationElement32, NonPrimary, Tag};
pub use read::decomposed_text;
pub use reader::recent::RecentChars;
pub use step_reader::StepReader;
pub use text_reading::TextReading;
pub use whole::all_elements;
