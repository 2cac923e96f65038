//! The root's tables, kept for the collators of several languages.

ghost use Rattle.std.specs.Prelude.{◌≡◌, IfOk};
ghost use Rattle.icu_cldr_root.specs.Roots.{IsRoot};
ghost use Rattle.icu_collator.specs.Collators.{tables_kept};
ghost use Rattle.icu_table_provider.specs.OwnedTables.{owned_tables};
ghost use Rattle.icu_table_provider.specs.well_formed.Checked.{checked_tables};
ghost use Rattle.icu_table_provider.specs.well_formed.WellFormedTables.{IsWellFormedTables};

use crate::file_source::{error_of, read_file, root_collator};
use crate::tailored_collator::tailored_collator;
use cldr_languages::{LanguageError, LanguageOptions, LocaleRules};
use icu_collator::Collator;
use icu_table_check::checked_owned;
use icu_table_provider::OwnedTables;
use icu_table_provider::well_formed::CheckedTables;
use std::alloc::Global;
use std::rt::Files;

/// The tables of the root's file, as they were read, and once rules need them checked.
#[derive(Drop)]
pub(crate) struct RootTables {
    tables: OwnedTables,
    checked: Option<CheckedTables>,
    ghost is_root: { IsRoot (owned_tables tables) },
}

impl RootTables {
    /// Reads the tables of a file, in which ideographs stand by radicals and strokes, or by code points.
    pub(crate) fn read<R: Files + AllocGlobal>(
        rt: &R,
        file: &str,
        by_radicals: bool,
    ) -> Result<RootTables, LanguageError> {
        let root = read_file(rt, file, by_radicals)?;
        let tables = root.into_tables();
        Ok(RootTables {
            tables,
            checked: None,
        })
    }

    /// A copy of the tables.
    fn copied(&self, alloc: Global, file: &str) -> Result<OwnedTables, LanguageError>
        ensures { IfOk result (λ t. IsRoot (owned_tables t)) }
    {
        match OwnedTables::copy(alloc, self.tables.as_set()) {
            Ok(tables) => Ok(tables),
            Err(error) => Err(error_of(alloc, file, error)),
        }
    }

    /// The tables, checked.
    fn check(&self, alloc: Global, file: &str) -> Result<CheckedTables, LanguageError>
        ensures { IfOk result (λ t. IsRoot (checked_tables t)) }
    {
        let tables = self.copied(alloc, file)?;
        match checked_owned(alloc, tables) {
            Ok(tables) => Ok(tables),
            Err(error) => Err(error_of(alloc, file, error)),
        }
    }

    /// The collator by these tables, and by rules over them if these say something.
    pub(crate) fn collator(
        &mut self,
        alloc: Global,
        file: &str,
        rules: &LocaleRules,
        options: LanguageOptions,
    ) -> Result<Collator, LanguageError>
        ensures { IfOk result (λ c. IsWellFormedTables (tables_kept c)) }
    {
        let strength = options.strength_or_tertiary();
        if rules.rules.statements.is_empty() {
            let tables = self.copied(alloc, file)?;
            return root_collator(alloc, tables, file, options, strength);
        }
        let checked = match self.checked.take() {
            Some(checked) => checked,
            None => self.check(alloc, file)?,
        };
        let collator = tailored_collator(alloc, &checked, rules, options, strength);
        self.checked = Some(checked);
        collator
    }
}
