//! The mappings of characters as they are while the rules of a tailoring are read, and the elements of a text by them
//! (UTS #35 part 5, "Collation Tailorings").
pub mod behind;
pub mod character_mapping;
pub mod kept_mappings;
mod mark_joining;
mod mark_runs;
mod matching;
mod reading;
pub mod roots;
pub mod string_cases;

pub use behind::mappings_behind;
pub use character_mapping::{CharacterMapping, SymbolicMapping, TouchedCharacter};
pub use kept_mappings::Mappings;
pub use roots::{RootMappings, of_root};
pub use string_cases::cased_elements;
