//! Language tags of BCP 47, and the settings that their keywords name.
//!
//! A text such as `de-u-co-phonebk` is read into its subtags, each with its kind and in the case of its kind. What is
//! no tag is refused, with its place and the reason.
#![tactic(auto)]

mod keywords;
pub mod language_tag;
pub mod letter_case;
pub mod locale_rules;
pub mod resolution;
pub mod subtag;
mod subtag_forms;
pub mod tag_error;
pub mod tag_settings;

pub use language_tag::LanguageTag;
pub use letter_case::in_case_of;
pub use subtag::{Subtag, SubtagKind};
pub use tag_error::{TagError, TagErrorKind};
pub use tag_settings::{TagSettings, UnknownType};
