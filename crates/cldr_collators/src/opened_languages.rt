//! Collators of languages.

ghost use Rattle.std.specs.Prelude.{IfOk};
ghost use Rattle.icu_collator.specs.Collators.{tables_kept};
ghost use Rattle.icu_table_provider.specs.well_formed.WellFormedTables.{IsWellFormedTables};

use crate::data_folder::DataFolder;
use crate::language_collator::LanguageCollator;
use crate::table_collators::KeptTables;
use cldr_languages::language_error::{tag_error, unread};
use cldr_languages::{LanguageError, LanguageOptions, OwnRules};
use std::alloc::{AllocError, Global};
use std::fs;
use std::rt::Files;

/// Where the root's data are in a folder of CLDR's data.
const ROOT_FILE: &str = "common/uca/FractionalUCA.txt";

/// Where collators come from.
#[derive(Drop)]
enum LanguageSource {
    Folder(DataFolder),
    Tables(KeptTables),
}

/// Collators of languages, by a folder of CLDR's data or by a table file. What was read is kept: a further language of
/// a folder costs its own rules, and not the root's data.
#[derive(Drop)]
pub struct Languages {
    source: LanguageSource,
}

impl Languages {
    /// The languages of a folder of CLDR's data, which has `common/uca` and `common/collation`, or the language of a
    /// table file. Of a folder nothing is read yet.
    ///
    /// # Errors
    ///
    /// Fails where an allocation does, or with the name, if there is nothing by it or a table file isn't read.
    pub fn open<R: Files + AllocGlobal>(rt: &R, place: &str) -> Result<Languages, LanguageError> {
        match fs::metadata(rt, place) {
            Ok(found) if found.is_dir() => {
                let root_file = format!(in rt.alloc(); "{place}/{ROOT_FILE}")?;
                Ok(Languages::in_folder(rt.alloc(), place, root_file.as_str())?)
            }
            Ok(_) => Languages::of_tables(rt, place),
            Err(error) => Err(unread(rt.alloc(), place, error)),
        }
    }

    /// The languages of a folder of CLDR's data, over the root's data of a file. Neither is read yet.
    ///
    /// # Errors
    ///
    /// Fails only where an allocation does.
    pub fn in_folder(
        alloc: Global,
        folder: &str,
        root_file: &str,
    ) -> Result<Languages, AllocError> {
        let folder = DataFolder::new(alloc, folder, root_file)?;
        Ok(Languages {
            source: LanguageSource::Folder(folder),
        })
    }

    /// The language of a table file, which is read.
    ///
    /// # Errors
    ///
    /// Fails where an allocation does, or with the file, if it isn't read.
    pub fn of_tables<R: Files + AllocGlobal>(
        rt: &R,
        file: &str,
    ) -> Result<Languages, LanguageError> {
        let tables = KeptTables::read(rt, file)?;
        Ok(Languages {
            source: LanguageSource::Tables(tables),
        })
    }

    /// The collator of a language, which a tag names as `sv` or `de-u-co-phonebk`, or a name of POSIX as `sv_SE.UTF-8`.
    /// `C` and `POSIX` are the root's order, and over a table file the empty tag is its language. A setting is that of
    /// the options, or else of the tag, or else of the rules.
    ///
    /// # Errors
    ///
    /// Fails where an allocation does, or with what is wrong with the tag, a file or a rule. Over a table file another
    /// language than its own is an error.
    pub fn collator<R: Files + AllocGlobal>(
        &mut self,
        rt: &R,
        tag: &str,
        options: LanguageOptions,
    ) -> Result<LanguageCollator, LanguageError>
        ensures { IfOk result (λ c. IsWellFormedTables (tables_kept c.collator)) }
    {
        match &mut self.source {
            LanguageSource::Folder(folder) => folder.collator(rt, tag, None, options),
            LanguageSource::Tables(tables) => tables.collator(rt.alloc(), tag, options),
        }
    }

    /// The collator of a language with rules of one's own, which stand after its rules as after an import of them.
    ///
    /// # Errors
    ///
    /// Those of `collator`. A table file takes no further rules.
    pub fn collator_with_rules<R: Files + AllocGlobal>(
        &mut self,
        rt: &R,
        tag: &str,
        rules: &OwnRules,
        options: LanguageOptions,
    ) -> Result<LanguageCollator, LanguageError>
        ensures { IfOk result (λ c. IsWellFormedTables (tables_kept c.collator)) }
    {
        match &mut self.source {
            LanguageSource::Folder(folder) => folder.collator(rt, tag, Some(rules), options),
            LanguageSource::Tables(_) => Err(tag_error(
                rt.alloc(),
                tag,
                "a table file takes no further rules",
            )),
        }
    }
}
