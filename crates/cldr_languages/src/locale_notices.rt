//! What is said of a locale whose order isn't exactly what its tag asks for, with what to write instead.

use crate::asked_locale::AskedLocale;
use crate::language_error::LanguageError;
use crate::locale_list::listed_types;
use crate::needed_files::add_files_of_request;
use icu_cldr_files::LocaleFile;
use icu_cldr_locales::resolution::{LocaleData, canonical_parts, tag_parts};
use icu_cldr_locales::{SubtagKind, in_case_of};
use std::alloc::{AllocError, Global};
use std::rt::Files;

/// The types of collations, as tags name them, of which a user may write one where a variant or a script stands.
const TYPES: &[&str] = &[
    "big5han", "compat", "dict", "ducet", "emoji", "eor", "gb2312", "phonebk", "phonetic",
    "pinyin", "reformed", "search", "searchjl", "standard", "stroke", "trad", "unihan", "zhuyin",
];

/// Whether CLDR doesn't list the language of a locale.
pub fn is_unknown_language(asked: &AskedLocale) -> bool {
    !asked.request.is_known
}

/// What to write for a language that CLDR doesn't list: the language of a region that has this code, or of which it is
/// the name in English.
fn language_instead(
    alloc: Global,
    lists: &LocaleData,
    language: &str,
) -> Result<Option<String>, AllocError> {
    if let Some(code) = lists.language_named(language) {
        return Ok(Some(format!(in alloc;
            "{language} is the name of a language, whose code is {code}"
        )?));
    }
    let region = in_case_of(alloc, SubtagKind::Region, language)?;
    match lists.language_of_region(region.as_str()) {
        Some(code) => Ok(Some(format!(in alloc;
            "{region} is a region, whose language is {code}"
        )?)),
        None => Ok(None),
    }
}

/// What is said of a language that CLDR doesn't list.
fn unknown_language(
    alloc: Global,
    lists: &LocaleData,
    asked: &AskedLocale,
) -> Result<String, AllocError> {
    let word = asked.word.as_str();
    let language = tag_parts(asked.tag.subtags.as_slice()).language;
    match language_instead(alloc, lists, language)? {
        Some(instead) => format!(in alloc; "locale {word}: no language of CLDR: {instead}"),
        None => format!(in alloc; "locale {word}: no language of CLDR"),
    }
}

/// The type that a part of a tag names, in lower case, if it names one.
fn type_meant(part: &str) -> Option<&'static str> {
    for name in TYPES {
        if *name == part {
            return Some(*name);
        }
    }
    None
}

/// The type that the variant or the script of a tag names.
fn type_in_place(alloc: Global, asked: &AskedLocale) -> Result<Option<&'static str>, AllocError> {
    let parts = tag_parts(asked.tag.subtags.as_slice());
    if let Some(name) = type_meant(parts.variant) {
        return Ok(Some(name));
    }
    let script = in_case_of(alloc, SubtagKind::Language, parts.script)?;
    Ok(type_meant(script.as_str()))
}

/// What is said of a tag in which a type stands as a variant or a script.
fn misplaced_type(
    alloc: Global,
    lists: &LocaleData,
    asked: &AskedLocale,
    name: &str,
) -> Result<String, AllocError> {
    let word = asked.word.as_str();
    let language = canonical_parts(lists, asked.tag.subtags.as_slice()).language;
    format!(in alloc; "locale {word}: {name} is a type; write {language}-u-co-{name}")
}

/// What is said of a type that isn't there, with those of the file in which it was looked for.
fn missing_type(
    alloc: Global,
    asked: &AskedLocale,
    files: &[LocaleFile],
    name: &str,
) -> Result<String, AllocError> {
    let word = asked.word.as_str();
    match asked.request.resolution(files).found {
        Some(found) => {
            let types = listed_types(alloc, files, found.file.locale.as_str())?;
            format!(in alloc; "locale {word}: no collation of the type {name}; there are {types}")
        }
        None => format!(in alloc; "locale {word}: no collation of the type {name}"),
    }
}

/// What is said of the type that a tag asks for, if it isn't there.
fn notice_of_type<R: Files + AllocGlobal>(
    rt: &R,
    folder: &str,
    asked: &AskedLocale,
) -> Result<Option<String>, LanguageError> {
    let Some(name) = asked.tag.collation_type(rt.alloc())? else {
        return Ok(None);
    };
    let mut files = Vec::new(rt.alloc());
    add_files_of_request(rt, folder, &asked.request, &mut files)?;
    if asked.request.resolution(files.as_slice()).is_exact {
        return Ok(None);
    }
    let said = missing_type(rt.alloc(), asked, files.as_slice(), name.as_str())?;
    Ok(Some(said))
}

/// What is said of a locale whose order isn't exactly what its tag asks for, by the files of a folder of CLDR's data.
///
/// # Errors
///
/// Fails where an allocation does, or with what is wrong with a file.
pub fn locale_notice<R: Files + AllocGlobal>(
    rt: &R,
    folder: &str,
    asked: &AskedLocale,
) -> Result<Option<String>, LanguageError> {
    let lists = LocaleData::compiled_in(rt.alloc())?;
    if is_unknown_language(asked) {
        return Ok(Some(unknown_language(rt.alloc(), &lists, asked)?));
    }
    if let Some(name) = type_in_place(rt.alloc(), asked)? {
        return Ok(Some(misplaced_type(rt.alloc(), &lists, asked, name)?));
    }
    notice_of_type(rt, folder, asked)
}
