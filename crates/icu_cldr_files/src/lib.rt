//! A reader of the files in which CLDR has its collations: `collation/*.xml`.
//!
//! A file is read into its default type and its collations, each with its type and its rules. What isn't in the form of
//! these files is refused, with its line and the reason.
#![tactic(auto)]

pub mod collation;
pub mod collation_file;
mod collation_places;
mod collation_types;
mod events;
pub mod index_labels;
pub mod ldml_error;
pub mod locale_files;
mod locale_parents;
mod tag_lines;
pub mod xml;

pub use collation::Collation;
pub use collation_file::CollationFile;
pub use collation_types::{collation_or_stand_in, type_named};
pub use ldml_error::{LdmlError, LdmlReason};
pub use locale_files::{FoundCollation, LocaleFile, collation_of, default_type_of};
pub use locale_parents::parent_of;
