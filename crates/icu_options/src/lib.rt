//! The settings of a collator: what each can be, which sources set them, and how the sources
//! are merged.
#![tactic(auto)]

pub mod bit_field;
pub mod merge;
pub mod metadata;
pub mod options;
mod setting;
pub mod settings;

pub use bit_field::CollatorOptionsBitField;
pub use merge::merged_options;
pub use metadata::MetadataSettings;
pub use options::{CollatorOptions, CollatorPreferences, ResolvedCollatorOptions};
pub use settings::{
    AlternateHandling, CaseLevel, CollationCaseFirst, CollationNumericOrdering, MaxVariable,
    Strength,
};
