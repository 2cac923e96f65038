//! A collator of a language.

use cldr_languages::ResolvedLanguage;
use icu_collator::Collator;

/// A collator of a language, and what its tag resolves to.
#[derive(Drop)]
pub struct LanguageCollator {
    /// The collator.
    pub collator: Collator,
    /// What the tag resolves to.
    pub resolved: ResolvedLanguage,
}
