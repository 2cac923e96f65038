//! Which tables a collator takes, and which levels its keys have by them.

ghost use Rattle.std.specs.Prelude.{◌≡◌, ◌↔◌, IsOk, IfOk, IfErr};
ghost use Rattle.icu_table_provider.specs.SpecialPrimaries.{IsSpecialPrimaries, FailsSpecial};
ghost use Rattle.icu_table_provider.specs.StoredTables.{special_of};
ghost use Rattle.icu_table_provider.specs.TableSets.{tables_in};
ghost use Rattle.icu_table_provider.specs.well_formed.Checked.{checked_tables};
ghost use Rattle.icu_table_provider.specs.well_formed.WellFormedTables.{IsWellFormedTables, IsTrueError};
ghost use Rattle.icu_order_texts.specs.Forms.{form_by};
ghost use Rattle.icu_order_texts.specs.weighting.CheckedCollations.{collation_of};

use icu_options::CollatorOptionsBitField;
use icu_order_levels::forms::KeyForm;
use icu_order_texts::weighting::key_form;
use icu_table_check::checked_set;
use icu_table_entries::{DataError, DataErrorKind};
use icu_table_provider::well_formed::CheckedTables;
use icu_table_provider::{CollationSpecialPrimaries, TableSet};
use std::alloc::Global;

/// As `checked_set`. A wrong body may check `other` tables.
pub fn checked(
    alloc: Global,
    tables: TableSet<'_>,
    other: TableSet<'_>,
) -> Result<CheckedTables, DataError>
    ensures well_formed { IsOk result → IsWellFormedTables (tables_in tables.entry) }
    ensures error { IfErr result (IsTrueError (tables_in tables.entry)) }
    ensures exact { IfErr result (λ e. (e.kind ≡ DataErrorKind.NoMemory → ⊥)
        → IsWellFormedTables (tables_in tables.entry) → ⊥) }
    ensures keeps { IfOk result (λ t. checked_tables t ≡ tables_in tables.entry) }
{
    let _ = other;
    match checked_set(alloc, tables) {
        Ok(tables) => Ok(tables),
        Err(error) => Err(error),
    }
}

/// As `key_form`.
pub fn form(tables: &CheckedTables, settings: CollatorOptionsBitField) -> KeyForm
    ensures { result ≡ form_by (collation_of tables.now settings) }
{
    key_form(tables, settings)
}

/// As `CollationSpecialPrimaries::new`.
pub fn special<'d>(
    last_primaries: &'d [u16],
    numeric_primary: u8,
) -> Result<CollationSpecialPrimaries<'d>, DataErrorKind>
    ensures accepts { IsOk result
        ↔ IsSpecialPrimaries last_primaries.entry.now numeric_primary }
    ensures kind { IfErr result (FailsSpecial last_primaries.entry.now numeric_primary) }
    ensures keeps { IfOk result (λ s. special_of s
        ≡ record { last = last_primaries.entry.now; numeric = numeric_primary }) }
{
    CollationSpecialPrimaries::new(last_primaries, numeric_primary)
}
