//! The locale that is asked for, by a tag or by a name that POSIX has for it.

use crate::language_error::{LanguageError, tag_error};
use crate::tag_faults::{keyword_fault, tag_fault};
use icu_cldr_locales::resolution::{LocaleData, TagRequest, tag_text};
use icu_cldr_locales::{LanguageTag, TagError, TagSettings};
use std::alloc::{AllocError, Global};

/// A locale that is asked for.
#[derive(Drop)]
pub struct AskedLocale {
    /// The tag, as it was written, but with hyphens and without what a tag doesn't have.
    pub word: String,
    /// The tag.
    pub tag: LanguageTag,
    /// What its keywords set.
    pub settings: TagSettings,
    /// The files and the type that it asks for.
    pub request: TagRequest,
}

/// The tag that a word is.
fn tag_of(alloc: Global, lists: &LocaleData, word: &str) -> Result<LanguageTag, LanguageError> {
    match LanguageTag::parse(alloc, word) {
        Ok(tag) => Ok(tag),
        Err(TagError::NoMemory) => Err(LanguageError::NoMemory),
        Err(TagError::Refused { place, kind }) => {
            let what = tag_fault(alloc, lists, word, place, kind)?;
            Err(tag_error(alloc, word, what.as_str()))
        }
    }
}

/// What the keywords of a tag set.
fn settings_of(alloc: Global, word: &str, tag: &LanguageTag) -> Result<TagSettings, LanguageError> {
    if let Some(what) = keyword_fault(tag.subtags.as_slice()) {
        return Err(tag_error(alloc, word, what));
    }
    match tag.settings() {
        Ok(settings) => Ok(settings),
        Err(error) => {
            let what = error.to_string(alloc)?;
            Err(tag_error(alloc, word, what.as_str()))
        }
    }
}

/// What the keywords of a tag set that a file has.
///
/// # Errors
///
/// Fails where an allocation does, or with what is wrong with the tag.
pub fn settings_of_word(alloc: Global, word: &str) -> Result<TagSettings, LanguageError> {
    let lists = LocaleData::compiled_in(alloc)?;
    let tag = tag_of(alloc, &lists, word)?;
    settings_of(alloc, word, &tag)
}

/// The locale that a tag asks for.
fn asked_by_tag(
    alloc: Global,
    lists: &LocaleData,
    word: String,
) -> Result<AskedLocale, LanguageError> {
    let tag = tag_of(alloc, lists, word.as_str())?;
    let settings = settings_of(alloc, word.as_str(), &tag)?;
    let request = TagRequest::of_tag(alloc, lists, &tag)?;
    Ok(AskedLocale {
        word,
        tag,
        settings,
        request,
    })
}

/// The locale that a word asks for: a tag, `root`, or the name of a locale as POSIX has it. `None` is the root's order:
/// `C` and `POSIX`.
///
/// # Errors
///
/// Fails where an allocation does, or with what is wrong with the word.
pub fn locale_of_word(alloc: Global, word: &str) -> Result<Option<AskedLocale>, LanguageError> {
    let Some(name) = tag_of_posix(alloc, word)? else {
        return Ok(None);
    };
    let lists = LocaleData::compiled_in(alloc)?;
    let tag = tag_text(alloc, &lists, name.as_str())?;
    Ok(Some(asked_by_tag(alloc, &lists, tag)?))
}

/// The script that a modifier of POSIX names, as it stands in a tag.
fn script_of(modifier: &str) -> &'static str {
    match modifier {
        "latin" => "-Latn",
        "cyrillic" => "-Cyrl",
        "devanagari" => "-Deva",
        _ => "",
    }
}

/// Pushes what stands behind the language of a locale of POSIX.
fn push_region(tag: &mut String, region: &str) -> Result<(), AllocError> {
    tag.push('-')?;
    for c in region.chars() {
        tag.push(if c == '_' { '-' } else { c })?;
    }
    Ok(())
}

/// The tag of a locale without a codeset, with a modifier.
fn tag_with(alloc: Global, locale: &str, modifier: &str) -> Result<String, AllocError> {
    let (language, region) = match locale.split_once("_") {
        Some((language, region)) => (language, Some(region)),
        None => (locale, None),
    };
    let mut tag = language.to_string(alloc)?;
    tag.push_str(script_of(modifier))?;
    if let Some(region) = region {
        push_region(&mut tag, region)?;
    }
    if modifier == "valencia" {
        tag.push_str("-valencia")?;
    }
    Ok(tag)
}

/// The tag of a locale as POSIX names it, `sv_SE.UTF-8@euro`: its language and region, with the script or the variant
/// that a modifier names; the codeset and any other modifier say nothing. `None` for `C` and `POSIX`. A tag is returned
/// as it is.
fn tag_of_posix(alloc: Global, name: &str) -> Result<Option<String>, AllocError> {
    let (main, modifier) = match name.split_once("@") {
        Some((main, modifier)) => (main, modifier),
        None => (name, ""),
    };
    let locale = match main.split_once(".") {
        Some((locale, _)) => locale,
        None => main,
    };
    match locale {
        "C" | "POSIX" => Ok(None),
        _ => {
            let tag = tag_with(alloc, locale, modifier)?;
            Ok(Some(tag))
        }
    }
}
