//! The numbers of settings in a form.

ghost use Rattle.std.specs.Prelude.{◌≡◌};
ghost use Rattle.icu_table_files.specs.fingerprint.FingerprintForms.{bit_word, case_word, group_word, handling_word, strength_word};

use icu_options::{AlternateHandling, CollationCaseFirst, MaxVariable, Strength};

/// The number of a strength.
pub(crate) fn strength_number(strength: Strength) -> u64
    ensures { result ≡ strength_word strength }
{
    match strength {
        Strength::Primary => 1,
        Strength::Secondary => 2,
        Strength::Tertiary => 3,
        Strength::Quaternary => 4,
        Strength::Identical => 5,
    }
}

/// The number of a way to handle variable elements.
pub(crate) fn handling_number(handling: AlternateHandling) -> u64
    ensures { result ≡ handling_word handling }
{
    match handling {
        AlternateHandling::NonIgnorable => 0,
        AlternateHandling::Shifted => 1,
        AlternateHandling::Blanked => 2,
    }
}

/// The number of a variable group.
pub(crate) fn group_number(group: MaxVariable) -> u64
    ensures { result ≡ group_word group }
{
    match group {
        MaxVariable::Space => 0,
        MaxVariable::Punctuation => 1,
        MaxVariable::Symbol => 2,
        MaxVariable::Currency => 3,
    }
}

/// The number of what case comes first.
pub(crate) fn case_number(first: CollationCaseFirst) -> u64
    ensures { result ≡ case_word first }
{
    match first {
        CollationCaseFirst::False => 0,
        CollationCaseFirst::Lower => 1,
        CollationCaseFirst::Upper => 2,
    }
}

/// 1 for what is on.
pub(crate) fn bit_number(on: bool) -> u64
    ensures { result ≡ bit_word on }
{
    if on { 1 } else { 0 }
}
