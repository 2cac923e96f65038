//! The rules of a locale's collation, by CLDR's files of collations, with those that they import.
pub mod collation_name;
mod imported_rules;
pub mod locale_rules;
mod tag_places;
pub mod tag_rules;

pub use collation_name::{CollationName, file_name_of};
pub use locale_rules::rules_of_collation;
pub use tag_places::import_tags;
pub use tag_rules::{with_backward, with_reordering};
