//! Collators of languages by CLDR's data: by the root alone, or by the rules of a language over it, read from the files
//! of a folder, or by a table file.
#![tactic(auto)]

pub mod compiled_tables;
mod data_folder;
pub mod file_source;
pub mod language_collator;
pub mod opened_languages;
mod root_tables;
mod table_collators;
pub mod tailored_collator;

pub use cldr_languages::{LanguageError, LanguageOptions, OwnRules, ResolvedLanguage};
pub use file_source::read_file;
pub use language_collator::LanguageCollator;
pub use opened_languages::Languages;
