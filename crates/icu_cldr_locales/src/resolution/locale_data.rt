//! What CLDR's data say of codes.
ghost use Rattle.std.specs.Prelude.{◌≡◌};
ghost use Rattle.icu_cldr_locales.specs.resolution.KnownLanguages.{is_known_language};

use crate::resolution::compiled::alias_lists::{
    ALIAS_REGIONS, ALIAS_SCRIPTS, EXTENDED_ALIASES, LANGUAGE_ALIASES, REGION_ALIASES,
    SCRIPT_ALIASES,
};
use crate::resolution::compiled::language_list::LANGUAGES;
use crate::resolution::compiled::likely_lists::{LIKELY_REGIONS, LIKELY_SCRIPTS};
use crate::resolution::compiled::name_lists::{LANGUAGE_NAMES, REGION_LANGUAGES};
use crate::resolution::listed_words::{is_word_of, value_listed};
use std::alloc::{AllocError, Global};

/// Lists of codes, with a space between words. But for `languages` they are of rows of three words: a code, another one
/// that stands with it or nothing, and a value. The first row of a code and what stands with it counts.
#[derive(Drop)]
pub struct LocaleData {
    /// The languages that are in use.
    pub languages: String,
    /// An old language, a variant or nothing, and today's language.
    pub language_aliases: String,
    /// An old language, nothing, and the script that it says too.
    pub alias_scripts: String,
    /// An old language, nothing, and the region that it says too.
    pub alias_regions: String,
    /// A language, what stands behind it as `yue` in `zh-yue`, and today's language.
    pub extended_aliases: String,
    /// An old script, nothing, and today's.
    pub script_aliases: String,
    /// An old region, the likely region of the language or nothing, and today's region.
    pub region_aliases: String,
    /// A language, a region or nothing, and the script in which it is mostly written there.
    pub likely_scripts: String,
    /// A language, a script or nothing, and the region in which it is mostly spoken.
    pub likely_regions: String,
    /// A region, nothing, and the language that is mostly spoken there.
    pub region_languages: String,
    /// The English name of a language in lower case, nothing, and the language.
    pub language_names: String,
}

impl LocaleData {
    /// The lists of CLDR 41, as far as they change which collation a tag resolves to. Likely regions are those that
    /// stand among several which replace an old one.
    pub fn compiled_in(alloc: Global) -> Result<LocaleData, AllocError> {
        Ok(LocaleData {
            languages: String::from_str(alloc, LANGUAGES)?,
            language_aliases: String::from_str(alloc, LANGUAGE_ALIASES)?,
            alias_scripts: String::from_str(alloc, ALIAS_SCRIPTS)?,
            alias_regions: String::from_str(alloc, ALIAS_REGIONS)?,
            extended_aliases: String::from_str(alloc, EXTENDED_ALIASES)?,
            script_aliases: String::from_str(alloc, SCRIPT_ALIASES)?,
            region_aliases: String::from_str(alloc, REGION_ALIASES)?,
            likely_scripts: String::from_str(alloc, LIKELY_SCRIPTS)?,
            likely_regions: String::from_str(alloc, LIKELY_REGIONS)?,
            region_languages: String::from_str(alloc, REGION_LANGUAGES)?,
            language_names: String::from_str(alloc, LANGUAGE_NAMES)?,
        })
    }

    /// Whether a language, in lower case, is one that is in use.
    pub fn is_known_language(&self, language: &str) -> bool
        ensures { result ≡ is_known_language self.now language.now }
    {
        is_word_of(self.languages.as_str(), language)
    }

    /// The language that is mostly spoken in a region, which is written in capitals: `da` for `DK`.
    pub fn language_of_region(&self, region: &str) -> Option<&str> {
        value_listed(self.region_languages.as_str(), region, "")
    }

    /// The language that has a name in English, which is written in lower case: `sv` for `swedish`.
    pub fn language_named(&self, name: &str) -> Option<&str> {
        value_listed(self.language_names.as_str(), name, "")
    }

    /// Today's language in place of a language with another one behind it, both in lower case: `yue` for `zh` and
    /// `yue`.
    pub fn language_in_place_of(&self, language: &str, extended: &str) -> Option<&str> {
        value_listed(self.extended_aliases.as_str(), language, extended)
    }

    /// Today's region in place of an old one, or of one of three letters: `SE` for `SWE`.
    pub fn region_in_place_of(&self, region: &str) -> Option<&str> {
        value_listed(self.region_aliases.as_str(), region, "")
    }
}
