//! Mini's tables as a source of collators.
ghost use Rattle.std.specs.Prelude.{◌≡◌, IfOk, IfErr};
ghost use Rattle.icu_table_provider.specs.well_formed.WellFormedTables.{IsWellFormedTables};
ghost use Rattle.icu_collator.specs.Collators.{collation_kept, tables_kept};
ghost use Rattle.program_files.specs.ProgramErrors.{IsCollatorError};
ghost use Rattle.collate.specs.Answers.{mini_compares};
ghost use Rattle.collate.specs.MiniErrors.{IsForCause, mini_refuses};

use collate_commands::CollatorSource;
use icu_collator::Collator;
use icu_options::{CollatorOptions, CollatorPreferences, Strength};
use icu_table_entries::{DataError, DataErrorKind};
use icu_table_mini::mini::Mini;
use program_files::ProgramError;
use std::alloc::Global;

/// Makes collators by Mini's tables.
#[derive(Clone, Copy)]
pub(crate) struct MiniSource;

impl CollatorSource for MiniSource {
    ghost use Rattle.collate.specs.Answers.{mini_compares};
    ghost use Rattle.collate.specs.MiniErrors.{mini_refuses};

    ghost compares = { λ _. mini_compares };

    ghost refuses = { λ _. mini_refuses };

    fn collator(&self, alloc: Global, strength: Strength) -> Result<Collator, ProgramError> {
        mini_collator(alloc, strength)
    }
}

/// The collator by Mini's tables, with a strength.
fn mini_collator(alloc: Global, strength: Strength) -> Result<Collator, ProgramError>
    ensures refused { IfErr result (IsCollatorError (mini_refuses strength)) }
    ensures well_formed { IfOk result (λ c. IsWellFormedTables (tables_kept c)) }
    ensures compares { IfOk result (λ c. mini_compares strength (collation_kept c)) }
{
    let mini = Mini::new(alloc)?;
    let options = CollatorOptions {
        strength: Some(strength),
        ..CollatorOptions::default()
    };
    match Collator::try_new_unstable(
        alloc,
        &mini.provider(),
        CollatorPreferences::default(),
        options,
    ) {
        Ok(collator) => Ok(collator),
        Err(error) => Err(refused(alloc, error)),
    }
}

/// What an error of the tables comes to.
fn refused(alloc: Global, error: DataError) -> ProgramError
    ensures { IsCollatorError (IsForCause error.kind) result }
{
    match error.kind {
        DataErrorKind::NoMemory => ProgramError::NoMemory,
        _ => match "tables refused".to_string(alloc) {
            Ok(text) => ProgramError::Refused(text),
            Err(_) => ProgramError::NoMemory,
        },
    }
}
