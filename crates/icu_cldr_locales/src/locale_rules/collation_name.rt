//! The names of collations.
ghost use Rattle.std.specs.Prelude.{◌≡◌, IfOk, option_map, string_bytes};
ghost use Rattle.icu_cldr_locales.specs.locale_rules.CollationNames.{NamesCollation, file_name_of, named_type, type_or_standard};

use crate::LanguageTag;
use icu_cldr_files::type_named;
use std::alloc::{AllocError, Global};

/// The collation that a tag names which rules import: a locale and a type, as CLDR's files name them.
#[derive(Drop)]
pub struct CollationName {
    /// The locale, by the name of its file: `zh_Hant`, and `root` where the tag is `und`.
    pub locale: String,
    /// The type, as `phonebook`, if the tag has the keyword `co`.
    pub collation_type: Option<String>,
}

/// The name of the file of a locale that rules import, by the parts of its tag: `root` for `und`, and the one name of a
/// file that has a variant, which files write in capitals. An import names its file: no code stands for another one.
#[tactic(auto, unfolding(crate::specs::locale_rules::CollationNames::file_name_of))]
pub fn file_name_of(locale: &str) -> &str
    ensures { result.now ≡ file_name_of locale.now }
{
    match locale {
        "und" => "root",
        "en_US_posix" => "en_US_POSIX",
        _ => locale,
    }
}

/// The type that a tag names, as the files name it.
pub(crate) fn type_of_tag(alloc: Global, tag: &LanguageTag) -> Result<Option<String>, AllocError>
    ensures { IfOk result (λ found.
        option_map string_bytes found ≡ named_type tag.now.subtags.items) }
{
    match tag.collation_type(alloc)? {
        Some(name) => {
            let named = String::from_str(alloc, type_named(name.as_str()))?;
            Ok(Some(named))
        }
        None => Ok(None),
    }
}

impl CollationName {
    /// The collation that an imported tag names.
    pub fn of_tag(alloc: Global, tag: &LanguageTag) -> Result<CollationName, AllocError>
        ensures { IfOk result (NamesCollation tag.now.subtags.items) }
    {
        let written = tag.locale(alloc, "_")?;
        let locale = String::from_str(alloc, file_name_of(written.as_str()))?;
        let collation_type = type_of_tag(alloc, tag)?;
        Ok(CollationName {
            locale,
            collation_type,
        })
    }

    /// The type that rules import by this name: `standard` where it has none.
    pub fn type_or_standard(&self) -> &str
        ensures { result.now ≡ type_or_standard self.now }
    {
        match &self.collation_type {
            Some(name) => name.as_str(),
            None => "standard",
        }
    }
}
