//! The languages of CLDR, by the files of a folder: what a tag asks for, and the rules of its collation, with rules of
//! one's own after them. It says what is told to a user if a tag doesn't get just what it asks for. It knows no table.
#![tactic(auto)]

pub mod asked_locale;
pub mod asked_rules;
pub mod data_version;
pub mod language_error;
pub mod language_options;
pub mod locale_list;
pub mod locale_notices;
pub mod needed_files;
pub mod own_rules;
pub mod resolved_language;
mod rule_places;
mod tag_faults;
pub mod text_files;

pub use asked_locale::{AskedLocale, locale_of_word, settings_of_word};
pub use asked_rules::{LocaleRules, RuleRequest, rules_of};
pub use data_version::cldr_version;
pub use language_error::LanguageError;
pub use language_options::LanguageOptions;
pub use locale_list::locale_lines;
pub use locale_notices::{is_unknown_language, locale_notice};
pub use own_rules::OwnRules;
pub use resolved_language::ResolvedLanguage;
