//! Which levels count by a collation (tables and settings together), in which form, and which elements are variable.

ghost use Rattle.std.specs.Prelude.{◌≡◌};
ghost use Rattle.icu_order_texts.specs.weighting.Forms.{direction, secondary_form, case_form, cased_form, tertiary_form, handling_form, quaternary_form, is_identical, form_by, last_variable_by};
ghost use Rattle.icu_order_texts.specs.weighting.CheckedCollations.{collation_of};

use icu_options::{AlternateHandling, CollationCaseFirst, CollatorOptionsBitField, Strength};
use icu_order_levels::forms::{CaseForm, KeyForm, QuaternaryForm, SecondaryForm, TertiaryForm};
use icu_table_provider::well_formed::CheckedTables;

/// Secondaries count from strength `Secondary` on.
fn secondary_form(strength: Strength, is_backward: bool) -> Option<SecondaryForm>
    ensures { result ≡ secondary_form strength (direction is_backward) }
{
    match strength {
        Strength::Primary => None,
        Strength::Secondary | Strength::Tertiary | Strength::Quaternary | Strength::Identical => {
            if is_backward {
                Some(SecondaryForm::Backward)
            } else {
                Some(SecondaryForm::Forward)
            }
        }
    }
}

/// The case level counts at each strength, where it is on.
fn case_form(case_level: bool, case_first: CollationCaseFirst) -> Option<CaseForm>
    ensures { result ≡ case_form case_level case_first }
{
    match (case_level, case_first) {
        (false, _) => None,
        (true, CollationCaseFirst::Upper) => Some(CaseForm::UpperFirst),
        (true, CollationCaseFirst::Lower | CollationCaseFirst::False) => Some(CaseForm::LowerFirst),
    }
}

/// Case bits count among tertiaries where case first is set and there is no case level.
fn cased_form(case_level: bool, case_first: CollationCaseFirst) -> TertiaryForm
    ensures { result ≡ cased_form case_level case_first }
{
    match (case_level, case_first) {
        (true, _) => TertiaryForm::WithoutCase,
        (false, CollationCaseFirst::False) => TertiaryForm::WithoutCase,
        (false, CollationCaseFirst::Lower) => TertiaryForm::LowerFirst,
        (false, CollationCaseFirst::Upper) => TertiaryForm::UpperFirst,
    }
}

/// Tertiaries count from strength `Tertiary` on.
fn tertiary_form(strength: Strength, form: TertiaryForm) -> Option<TertiaryForm>
    ensures { result ≡ tertiary_form strength form }
{
    match strength {
        Strength::Primary | Strength::Secondary => None,
        Strength::Tertiary | Strength::Quaternary | Strength::Identical => Some(form),
    }
}

/// Quaternaries count from strength `Quaternary` on.
fn quaternary_form(strength: Strength, handling: AlternateHandling) -> Option<QuaternaryForm>
    ensures { result ≡ quaternary_form strength (handling_form handling) }
{
    let form = match handling {
        AlternateHandling::NonIgnorable => QuaternaryForm::Unshifted,
        AlternateHandling::Shifted | AlternateHandling::Blanked => QuaternaryForm::MayShift,
    };
    match strength {
        Strength::Quaternary | Strength::Identical => Some(form),
        Strength::Primary | Strength::Secondary | Strength::Tertiary => None,
    }
}

/// Characters count at strength `Identical`.
fn is_identical(strength: Strength) -> bool
    ensures { result ≡ is_identical strength }
{
    match strength {
        Strength::Identical => true,
        Strength::Primary | Strength::Secondary | Strength::Tertiary | Strength::Quaternary => {
            false
        }
    }
}

/// The levels that the keys of a collator have, and their forms (UTS #35 part 5, "Setting Options"). The secondary
/// level is backward where the metadata says so.
pub fn key_form(tables: &CheckedTables, settings: CollatorOptionsBitField) -> KeyForm
    ensures { result ≡ form_by (collation_of tables.now settings) }
{
    let strength = settings.strength();
    let case_level = settings.case_level();
    let case_first = settings.case_first();
    KeyForm {
        secondary: secondary_form(strength, tables.metadata().backward_second_level()),
        cases: case_form(case_level, case_first),
        tertiary: tertiary_form(strength, cased_form(case_level, case_first)),
        quaternary: quaternary_form(strength, settings.alternate_handling()),
        identical: is_identical(strength),
    }
}

/// The last primary weight of the groups that are variable, or 0 where none is.
pub fn last_variable(tables: &CheckedTables, settings: CollatorOptionsBitField) -> u32
    ensures { result ≡ last_variable_by (collation_of tables.now settings) }
{
    match settings.alternate_handling() {
        AlternateHandling::NonIgnorable => 0,
        AlternateHandling::Shifted | AlternateHandling::Blanked => {
            let special = tables.special_primaries();
            special.last_primary_for_group(settings.max_variable())
        }
    }
}
