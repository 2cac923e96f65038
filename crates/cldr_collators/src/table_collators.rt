//! Collators by a table file.

ghost use Rattle.std.specs.Prelude.{IfOk};
ghost use Rattle.icu_table_provider.specs.well_formed.WellFormedTables.{IsWellFormedTables};
ghost use Rattle.icu_collator.specs.Collators.{tables_kept};

use crate::file_source::error_of;
use crate::language_collator::LanguageCollator;
use cldr_languages::language_error::{data_error, tag_error, unread};
use cldr_languages::{
    LanguageError, LanguageOptions, ResolvedLanguage, locale_of_word, settings_of_word,
};
use icu_cldr_locales::{SubtagKind, in_case_of};
use icu_collator::Collator;
use icu_table_files::{TableFile, TableFileError};
use std::alloc::{AllocError, Global};
use std::fs;
use std::rt::Files;

/// A table file, as it was read. Its tables are checked for each collator, which keeps them.
#[derive(Drop)]
pub(crate) struct KeptTables {
    file: String,
    bytes: Vec<u8>,
}

/// A collator by the tables of a file, with the chosen settings.
fn collator_of_file(
    alloc: Global,
    found: TableFile,
    file: &str,
    options: LanguageOptions,
) -> Result<Collator, LanguageError>
    ensures { IfOk result (λ c. IsWellFormedTables (tables_kept c)) }
{
    let tables = found.into_tables();
    tables.are_well_formed();
    match Collator::from_checked_tables(
        alloc,
        tables,
        options.preferences(),
        options.options(options.strength_or_tertiary()),
    ) {
        Ok(collator) => Ok(collator),
        Err(error) => Err(error_of(alloc, file, error)),
    }
}

/// Whether two tags are the same, in whatever case.
fn is_same_tag(alloc: Global, left: &str, right: &str) -> Result<bool, AllocError> {
    let left = in_case_of(alloc, SubtagKind::TypePart, left)?;
    let right = in_case_of(alloc, SubtagKind::TypePart, right)?;
    Ok(left.as_str() == right.as_str())
}

/// Whether a tag asks for the language of a file, which another tag names.
fn asks_for(alloc: Global, tag: &str, own: &str) -> Result<bool, LanguageError> {
    if tag.is_empty() {
        return Ok(true);
    }
    match locale_of_word(alloc, tag)? {
        Some(asked) => Ok(is_same_tag(alloc, asked.word.as_str(), own)?),
        None => Ok(own.is_empty()),
    }
}

/// An error that says that a file has the tables of another language.
fn other_language(alloc: Global, tag: &str, file: &str, own: &str) -> LanguageError {
    let said = if own.is_empty() { "the root" } else { own };
    match format!(in alloc; "{file} has the tables of {said}") {
        Ok(fault) => tag_error(alloc, tag, fault.as_str()),
        Err(_) => LanguageError::NoMemory,
    }
}

/// These settings, and if they don't say one, that of a file's tag.
fn with_tag(
    alloc: Global,
    options: LanguageOptions,
    own: &str,
) -> Result<LanguageOptions, LanguageError> {
    let word = if own.is_empty() { "und" } else { own };
    Ok(options.with_tag(settings_of_word(alloc, word)?))
}

impl KeptTables {
    /// Reads a file.
    pub(crate) fn read<R: Files + AllocGlobal>(
        rt: &R,
        file: &str,
    ) -> Result<KeptTables, LanguageError> {
        match fs::read(rt, file) {
            Ok(bytes) => Ok(KeptTables {
                file: file.to_string(rt.alloc())?,
                bytes,
            }),
            Err(error) => Err(unread(rt.alloc(), file, error)),
        }
    }

    /// The tables of the file, checked.
    fn tables(&self, alloc: Global) -> Result<TableFile, LanguageError> {
        match TableFile::read(alloc, self.bytes.as_slice()) {
            Ok(found) => Ok(found),
            Err(TableFileError::NoMemory) => Err(LanguageError::NoMemory),
            Err(error) => Err(data_error(alloc, self.file.as_str(), &error)),
        }
    }

    /// The collator of the language that a tag names, which is to be that of the file.
    pub(crate) fn collator(
        &self,
        alloc: Global,
        tag: &str,
        options: LanguageOptions,
    ) -> Result<LanguageCollator, LanguageError>
        ensures { IfOk result (λ c. IsWellFormedTables (tables_kept c.collator)) }
    {
        let file = self.file.as_str();
        let found = self.tables(alloc)?;
        if !asks_for(alloc, tag, found.tag())? {
            return Err(other_language(alloc, tag, file, found.tag()));
        }
        let options = with_tag(alloc, options, found.tag())?;
        let resolved = ResolvedLanguage {
            tag: found.tag().to_string(alloc)?,
            file: self.file.clone()?,
            collation_type: String::new(alloc),
            is_exact: true,
        };
        let collator = collator_of_file(alloc, found, file, options)?;
        Ok(LanguageCollator { collator, resolved })
    }
}
