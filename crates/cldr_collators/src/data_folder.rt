//! Collators of languages by a folder of CLDR's data.

ghost use Rattle.std.specs.Prelude.{IfOk};
ghost use Rattle.icu_collator.specs.Collators.{tables_kept};
ghost use Rattle.icu_table_provider.specs.well_formed.WellFormedTables.{IsWellFormedTables};

use crate::language_collator::LanguageCollator;
use crate::root_tables::RootTables;
use cldr_languages::{
    LanguageError, LanguageOptions, LocaleRules, OwnRules, RuleRequest, locale_of_word, rules_of,
};
use icu_cldr_files::LocaleFile;
use icu_collator::Collator;
use std::alloc::{AllocError, Global};
use std::rt::Files;

/// A folder of CLDR's data, and what was read of it.
#[derive(Drop)]
pub(crate) struct DataFolder {
    folder: String,
    root_file: String,
    files: Vec<LocaleFile>,
    by_code_points: Option<RootTables>,
    by_radicals: Option<RootTables>,
}

/// The collator by the root's tables, which are read unless they are kept, and are kept then, and by rules over them.
fn collator_over_kept<R: Files + AllocGlobal>(
    rt: &R,
    file: &str,
    by_radicals: bool,
    kept: &mut Option<RootTables>,
    rules: &LocaleRules,
    options: LanguageOptions,
) -> Result<Collator, LanguageError>
    ensures { IfOk result (λ c. IsWellFormedTables (tables_kept c)) }
{
    let mut root = match kept.take() {
        Some(root) => root,
        None => RootTables::read(rt, file, by_radicals)?,
    };
    let collator = root.collator(rt.alloc(), file, rules, options);
    *kept = Some(root);
    collator
}

impl DataFolder {
    /// A folder, of which nothing is read yet, and the file of the root's data.
    pub(crate) fn new(
        alloc: Global,
        folder: &str,
        root_file: &str,
    ) -> Result<DataFolder, AllocError> {
        Ok(DataFolder {
            folder: folder.to_string(alloc)?,
            root_file: root_file.to_string(alloc)?,
            files: Vec::new(alloc),
            by_code_points: None,
            by_radicals: None,
        })
    }

    /// The collator by rules. Without a rule ideographs stand by code points.
    fn collator_by<R: Files + AllocGlobal>(
        &mut self,
        rt: &R,
        rules: &LocaleRules,
        options: LanguageOptions,
    ) -> Result<Collator, LanguageError>
        ensures { IfOk result (λ c. IsWellFormedTables (tables_kept c)) }
    {
        let file = self.root_file.as_str();
        if rules.by_radicals && !rules.rules.statements.is_empty() {
            collator_over_kept(rt, file, true, &mut self.by_radicals, rules, options)
        } else {
            collator_over_kept(rt, file, false, &mut self.by_code_points, rules, options)
        }
    }

    /// The collator of the language that a tag names, with rules of one's own after its rules.
    pub(crate) fn collator<R: Files + AllocGlobal>(
        &mut self,
        rt: &R,
        tag: &str,
        own: Option<&OwnRules>,
        options: LanguageOptions,
    ) -> Result<LanguageCollator, LanguageError>
        ensures { IfOk result (λ c. IsWellFormedTables (tables_kept c.collator)) }
    {
        let locale = locale_of_word(rt.alloc(), tag)?;
        let options = match &locale {
            Some(asked) => options.with_tag(asked.settings),
            None => options,
        };
        let request = RuleRequest {
            locale: locale.as_ref(),
            own,
        };
        let rules = rules_of(rt, self.folder.as_str(), request, &mut self.files)?;
        let collator = self.collator_by(rt, &rules, options)?;
        Ok(LanguageCollator {
            collator,
            resolved: rules.resolved,
        })
    }
}
