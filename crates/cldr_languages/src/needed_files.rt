//! The files of collations, as far as they are needed.

use crate::language_error::{LanguageError, data_error, no_data};
use crate::text_files::text_if_there;
use icu_cldr_files::{CollationFile, LdmlError, LocaleFile, collation_of, parent_of};
use icu_cldr_locales::locale_rules::{CollationName, import_tags};
use icu_cldr_locales::resolution::TagRequest;
use icu_cldr_locales::{LanguageTag, TagError};
use std::alloc::{AllocError, Global};
use std::rt::Files;

/// How many texts of rules are read for what they import. `Rules::resolve` allows as many imports.
const IMPORTS: u32 = 256;

/// What a file of collations says, if the file is there.
fn collations_in<R: Files + AllocGlobal>(
    rt: &R,
    file: &str,
) -> Result<Option<CollationFile>, LanguageError> {
    let Some(text) = text_if_there(rt, file)? else {
        return Ok(None);
    };
    match CollationFile::parse(rt.alloc(), text.as_str()) {
        Ok(found) => Ok(Some(found)),
        Err(LdmlError::NoMemory) => Err(LanguageError::NoMemory),
        Err(error) => Err(data_error(rt.alloc(), file, &error)),
    }
}

/// The name of the file of a locale's collations.
pub(crate) fn collation_file(
    alloc: Global,
    folder: &str,
    locale: &str,
) -> Result<String, AllocError> {
    format!(in alloc; "{folder}/common/collation/{locale}.xml")
}

/// Whether the file of a locale was read.
fn has_file(files: &[LocaleFile], locale: &str) -> bool {
    for file in files {
        if file.locale.as_str() == locale {
            return true;
        }
    }
    false
}

/// Reads the file of a locale, if it is there and wasn't read. Each folder has that of the root.
fn add_file<R: Files + AllocGlobal>(
    rt: &R,
    folder: &str,
    locale: &str,
    files: &mut Vec<LocaleFile>,
) -> Result<(), LanguageError> {
    if has_file(files.as_slice(), locale) {
        return Ok(());
    }
    let path = collation_file(rt.alloc(), folder, locale)?;
    match collations_in(rt, path.as_str())? {
        Some(file) => {
            let locale = locale.to_string(rt.alloc())?;
            files.push(LocaleFile { locale, file })?;
            Ok(())
        }
        None if locale == "root" => Err(no_data(rt.alloc(), path.as_str())),
        None => Ok(()),
    }
}

/// Reads the files of a locale and of its parents, up to the root's.
pub(crate) fn add_files<R: Files + AllocGlobal>(
    rt: &R,
    folder: &str,
    locale: &str,
    files: &mut Vec<LocaleFile>,
) -> Result<(), LanguageError> {
    let mut at = Some(locale);
    for _ in 0..=locale.len() + 2 {
        let Some(name) = at else {
            break;
        };
        add_file(rt, folder, name, files)?;
        at = parent_of(name);
    }
    Ok(())
}

/// The collation that a tag of an import names, where it is one.
fn imported_name(alloc: Global, tag: &str) -> Result<Option<CollationName>, LanguageError> {
    match LanguageTag::parse(alloc, tag) {
        Ok(tag) => Ok(Some(CollationName::of_tag(alloc, &tag)?)),
        Err(TagError::NoMemory) => Err(LanguageError::NoMemory),
        Err(_) => Ok(None),
    }
}

/// Pushes the names that a text of rules may import and that weren't pushed before.
fn push_imports(
    alloc: Global,
    rules: &str,
    names: &mut Vec<CollationName>,
) -> Result<(), LanguageError> {
    for tag in import_tags(alloc, rules)? {
        if let Some(name) = imported_name(alloc, tag)? {
            names.push(name)?;
        }
    }
    Ok(())
}

/// Reads the files of the names that a tag asks for, as far as they are there.
pub(crate) fn add_files_of_request<R: Files + AllocGlobal>(
    rt: &R,
    folder: &str,
    request: &TagRequest,
    files: &mut Vec<LocaleFile>,
) -> Result<(), LanguageError> {
    for name in &request.names {
        add_file(rt, folder, name.as_str(), files)?;
    }
    Ok(())
}

/// Reads the files of what a text of rules imports, and of what that imports.
pub(crate) fn add_files_of_imports<R: Files + AllocGlobal>(
    rt: &R,
    folder: &str,
    rules: &str,
    files: &mut Vec<LocaleFile>,
) -> Result<(), LanguageError> {
    let mut names = Vec::new(rt.alloc());
    push_imports(rt.alloc(), rules, &mut names)?;
    for _ in 0..IMPORTS {
        let Some(imported) = names.pop() else {
            break;
        };
        add_imported(rt, folder, &imported, files, &mut names)?;
    }
    Ok(())
}

/// Reads the files of an imported name, and pushes the names that its rules import.
fn add_imported<R: Files + AllocGlobal>(
    rt: &R,
    folder: &str,
    imported: &CollationName,
    files: &mut Vec<LocaleFile>,
    names: &mut Vec<CollationName>,
) -> Result<(), LanguageError> {
    let locale = imported.locale.as_str();
    add_files(rt, folder, locale, files)?;
    match collation_of(files.as_slice(), locale, imported.type_or_standard()) {
        Some(found) => push_imports(rt.alloc(), found.collation.rules.as_str(), names),
        None => Ok(()),
    }
}
