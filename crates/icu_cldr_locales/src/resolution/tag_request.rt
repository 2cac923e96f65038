//! What a tag asks for.
ghost use Rattle.std.specs.Prelude.{◌≡◌, IfOk};
ghost use Rattle.icu_cldr_locales.specs.resolution.Resolutions.{asked_parts, request_parts};

use crate::LanguageTag;
use crate::locale_rules::collation_name::type_of_tag;
use crate::resolution::canonical_locale::canonical_parts;
use crate::resolution::locale_data::LocaleData;
use crate::resolution::named_files::file_names;
use std::alloc::{AllocError, Global};

/// What a tag asks for: the files in which its collation may be, and a type.
#[derive(Drop)]
pub struct TagRequest {
    /// The names of the files, without `.xml`, in turn: that of the locale first, as `zh_Hant`, and `root` last.
    pub names: Vec<String>,
    /// The type, as `phonebook`, if the tag has the keyword `co`.
    pub collation_type: Option<String>,
    /// Whether CLDR lists the language.
    pub is_known: bool,
}

impl TagRequest {
    /// What a tag asks for, by CLDR's lists.
    pub fn of_tag(
        alloc: Global,
        lists: &LocaleData,
        tag: &LanguageTag,
    ) -> Result<TagRequest, AllocError>
        ensures { IfOk result (λ r. request_parts r ≡ asked_parts lists.now tag.now.subtags.items) }
    {
        let parts = canonical_parts(lists, tag.subtags.as_slice());
        let names = file_names(alloc, lists, parts)?;
        let collation_type = type_of_tag(alloc, tag)?;
        let is_known = lists.is_known_language(parts.language);
        Ok(TagRequest {
            names,
            collation_type,
            is_known,
        })
    }
}
