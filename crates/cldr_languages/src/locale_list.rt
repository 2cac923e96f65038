//! The locales that there are collations of, and their types.

use crate::language_error::{LanguageError, unread};
use crate::needed_files::add_files;
use icu_cldr_files::{Collation, LocaleFile, default_type_of, parent_of};
use std::alloc::{AllocError, Global};
use std::fs;
use std::rt::Files;

/// The locales of the files of a folder, in the order of their bytes.
fn locales_in<R: Files + AllocGlobal + Clone + Drop>(
    rt: &R,
    folder: &str,
) -> Result<Vec<String>, LanguageError> {
    let entries = match fs::read_dir(rt, folder) {
        Ok(entries) => entries,
        Err(e) => return Err(unread(rt.alloc(), folder, e)),
    };
    let mut locales = Vec::new(rt.alloc());
    for entry in entries {
        let entry = match entry {
            Ok(entry) => entry,
            Err(e) => return Err(unread(rt.alloc(), folder, e)),
        };
        if let Some(locale) = entry.file_name().strip_suffix(".xml") {
            let locale = locale.to_string(rt.alloc())?;
            locales.push(locale)?;
        }
    }
    locales.sort()?;
    Ok(locales)
}

/// A type, as a tag names it behind `co`.
fn keyword_of(collation_type: &str) -> &str {
    match collation_type {
        "phonebook" => "phonebk",
        "traditional" => "trad",
        "dictionary" => "dict",
        "gb2312han" => "gb2312",
        _ => collation_type,
    }
}

/// Whether a collation is one that users choose.
fn is_chosen(collation: &Collation) -> bool {
    let is_internal = match &collation.visibility {
        Some(visibility) => visibility.as_str() == "internal",
        None => false,
    };
    let is_private = collation.collation_type.as_str().starts_with("private-");
    collation.alt.is_none() && !is_internal && !is_private
}

/// Pushes a type, unless it is there.
fn push_type<'f>(types: &mut Vec<&'f str>, collation_type: &'f str) -> Result<(), AllocError> {
    for known in types.iter() {
        if *known == collation_type {
            return Ok(());
        }
    }
    types.push(collation_type)?;
    Ok(())
}

/// Pushes the types of a locale's file.
fn push_types_at<'f>(
    files: &'f [LocaleFile],
    locale: &str,
    types: &mut Vec<&'f str>,
) -> Result<(), AllocError> {
    for file in files {
        if file.locale.as_str() == locale {
            for collation in &file.file.collations {
                if is_chosen(collation) {
                    push_type(types, collation.collation_type.as_str())?;
                }
            }
        }
    }
    Ok(())
}

/// The types of a locale, its default type first: those of its file and of its parents' before the root's.
fn types_of<'f>(
    alloc: Global,
    files: &'f [LocaleFile],
    locale: &str,
) -> Result<Vec<&'f str>, AllocError> {
    let mut types = Vec::new(alloc);
    types.push(default_type_of(files, locale))?;
    let mut at = locale;
    for _ in 0..=locale.len() + 2 {
        push_types_at(files, at, &mut types)?;
        match parent_of(at) {
            Some(parent) if parent != "root" => at = parent,
            _ => break,
        }
    }
    Ok(types)
}

/// Pushes the tag of a locale.
fn push_tag(text: &mut String, locale: &str) -> Result<(), AllocError> {
    if locale == "root" {
        text.push_str("und")?;
        return Ok(());
    }
    for c in locale.chars() {
        text.push(if c == '_' { '-' } else { c })?;
    }
    Ok(())
}

/// The types of a locale, as tags name them, with spaces between, its default type first.
pub(crate) fn listed_types(
    alloc: Global,
    files: &[LocaleFile],
    locale: &str,
) -> Result<String, AllocError> {
    let mut text = String::new(alloc);
    for collation_type in types_of(alloc, files, locale)? {
        if !text.is_empty() {
            text.push(' ')?;
        }
        text.push_str(keyword_of(collation_type))?;
    }
    Ok(text)
}

/// Pushes the line of a locale: its tag, a tab, and its types with spaces between.
fn push_line(
    alloc: Global,
    files: &[LocaleFile],
    locale: &str,
    text: &mut String,
) -> Result<(), AllocError> {
    let types = listed_types(alloc, files, locale)?;
    push_tag(text, locale)?;
    text.push('\t')?;
    text.push_str(types.as_str())?;
    text.push('\n')?;
    Ok(())
}

/// The locales of a folder of CLDR's data, a line for each: its tag, a tab, and its types with spaces between, the
/// default one first.
///
/// # Errors
///
/// Fails where an allocation does, or with the file or the folder that isn't read.
pub fn locale_lines<R: Files + AllocGlobal + Clone + Drop>(
    rt: &R,
    folder: &str,
) -> Result<String, LanguageError> {
    let place = format!(in rt.alloc(); "{folder}/common/collation")?;
    let mut text = String::new(rt.alloc());
    let mut files = Vec::new(rt.alloc());
    for locale in locales_in(rt, place.as_str())? {
        add_files(rt, folder, locale.as_str(), &mut files)?;
        push_line(rt.alloc(), files.as_slice(), locale.as_str(), &mut text)?;
    }
    Ok(text)
}
