//! What a tag of a language resolves to.

use icu_cldr_locales::resolution::Resolution;
use std::alloc::{AllocError, Global};

/// What a tag of a language resolves to.
#[derive(Drop)]
pub struct ResolvedLanguage {
    /// The tag, with hyphens; empty for the root's order.
    pub tag: String,
    /// The locale whose file has the collation, as `zh_Hant`, or `root`.
    pub file: String,
    /// The type of the collation, as `phonebook`; empty where no file has one, for the root's order.
    pub collation_type: String,
    /// Whether it is just what the tag asks for: CLDR lists the language, and has the type that the tag names.
    pub is_exact: bool,
}

impl ResolvedLanguage {
    /// The root's order.
    pub fn of_root(alloc: Global) -> Result<ResolvedLanguage, AllocError> {
        Ok(ResolvedLanguage {
            tag: String::new(alloc),
            file: "root".to_string(alloc)?,
            collation_type: String::new(alloc),
            is_exact: true,
        })
    }

    /// What a tag resolves to by the files of a folder.
    pub fn of_tag(
        alloc: Global,
        tag: &str,
        resolution: Resolution<'_>,
    ) -> Result<ResolvedLanguage, AllocError> {
        let (file, collation_type) = match resolution.found {
            Some(found) => (
                found.file.locale.as_str(),
                found.collation.collation_type.as_str(),
            ),
            None => ("root", ""),
        };
        Ok(ResolvedLanguage {
            tag: tag.to_string(alloc)?,
            file: file.to_string(alloc)?,
            collation_type: collation_type.to_string(alloc)?,
            is_exact: resolution.is_exact,
        })
    }
}
