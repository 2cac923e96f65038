//! Settings, each by its index among those that it may be.
use crate::driver_error::DriverError;
use crate::numbers::{numbers, single, written};
use icu_options::{
    AlternateHandling, CaseLevel, CollationCaseFirst, CollationNumericOrdering, CollatorOptions,
    CollatorOptionsBitField, CollatorPreferences, MaxVariable, MetadataSettings,
    ResolvedCollatorOptions, Strength, merged_options,
};
use std::alloc::{AllocError, Global};

/// Where `numbers` has an index of a list, the list's member; else none, which leaves a setting unnamed.
fn nth<T: Copy>(numbers: &[u64], place: usize, values: &[T]) -> Option<T> {
    let index = usize::try_from(*numbers.get(place)?).ok()?;
    Some(*values.get(index)?)
}

const STRENGTHS: [Strength; 5] = [
    Strength::Primary,
    Strength::Secondary,
    Strength::Tertiary,
    Strength::Quaternary,
    Strength::Identical,
];

const HANDLINGS: [AlternateHandling; 3] = [
    AlternateHandling::NonIgnorable,
    AlternateHandling::Shifted,
    AlternateHandling::Blanked,
];

pub(crate) const GROUPS: [MaxVariable; 4] = [
    MaxVariable::Space,
    MaxVariable::Punctuation,
    MaxVariable::Symbol,
    MaxVariable::Currency,
];

const CASES: [CollationCaseFirst; 3] = [
    CollationCaseFirst::False,
    CollationCaseFirst::Lower,
    CollationCaseFirst::Upper,
];

fn options(numbers: &[u64]) -> CollatorOptions {
    CollatorOptions {
        strength: nth(numbers, 0, &STRENGTHS),
        alternate_handling: nth(numbers, 1, &HANDLINGS),
        max_variable: nth(numbers, 2, &GROUPS),
        case_level: nth(numbers, 3, &[CaseLevel::Off, CaseLevel::On]),
    }
}

fn preferences(numbers: &[u64]) -> CollatorPreferences<'static> {
    CollatorPreferences {
        case_first: nth(numbers, 4, &CASES),
        numeric_ordering: nth(
            numbers,
            5,
            &[
                CollationNumericOrdering::False,
                CollationNumericOrdering::True,
            ],
        ),
        ..CollatorPreferences::default()
    }
}

/// What a question names of the settings.
#[derive(Clone, Copy)]
pub(crate) struct Named {
    pub(crate) options: CollatorOptions,
    pub(crate) preferences: CollatorPreferences<'static>,
}

/// What six numbers name.
pub(crate) fn named_settings(alloc: Global, written: &str) -> Result<Named, DriverError> {
    let numbers = numbers(alloc, written)?;
    match numbers.as_slice() {
        six @ [_, _, _, _, _, _] => Ok(Named {
            options: options(six),
            preferences: preferences(six),
        }),
        _ => Err(DriverError::Unread),
    }
}

/// What is named later, and where it names nothing what is named first.
fn named_over(first: Named, later: Named) -> Named {
    Named {
        options: CollatorOptions {
            strength: later.options.strength.or(first.options.strength),
            alternate_handling: later
                .options
                .alternate_handling
                .or(first.options.alternate_handling),
            max_variable: later.options.max_variable.or(first.options.max_variable),
            case_level: later.options.case_level.or(first.options.case_level),
        },
        preferences: CollatorPreferences {
            case_first: later
                .preferences
                .case_first
                .or(first.preferences.case_first),
            numeric_ordering: later
                .preferences
                .numeric_ordering
                .or(first.preferences.numeric_ordering),
            ..CollatorPreferences::default()
        },
    }
}

/// The settings that metadata and named settings come to. With two sixes of numbers, each with metadata of its own, the
/// first are merged and resolved, and taken as options and preferences again, over which the others are named.
pub(crate) fn merge(alloc: Global, written: &str) -> Result<String, DriverError> {
    let none = Named {
        options: CollatorOptions::default(),
        preferences: CollatorPreferences::default(),
    };
    let merged = match written.split_once('/') {
        Some((first, later)) => {
            let first = merged(alloc, none, first)?;
            merged(alloc, named_again(first), later)?
        }
        None => merged(alloc, none, written)?,
    };
    Ok(print(alloc, merged)?)
}

/// What metadata and six numbers come to, where the numbers are named over other settings.
fn merged(
    alloc: Global,
    before: Named,
    written: &str,
) -> Result<CollatorOptionsBitField, DriverError> {
    let (bits, six) = written.trim().split_once(' ').ok_or(DriverError::Unread)?;
    let metadata = MetadataSettings::from_bits(single(bits)?);
    let named = named_over(before, named_settings(alloc, six)?);
    Ok(merged_options(named.options, named.preferences, metadata))
}

/// Settings that are resolved, as options and preferences.
fn named_again(settings: CollatorOptionsBitField) -> Named {
    let resolved: ResolvedCollatorOptions = settings.into();
    Named {
        options: CollatorOptions::from(resolved),
        preferences: CollatorPreferences::from(resolved),
    }
}

/// The settings as they are printed: each by its name, and what else follows from them.
fn print(alloc: Global, settings: CollatorOptionsBitField) -> Result<String, AllocError> {
    let all: ResolvedCollatorOptions = settings.into();
    let (strength, alternate) = (all.strength, all.alternate_handling);
    let (first, group) = (all.case_first, all.max_variable);
    let (level, numeric) = (all.case_level, all.numeric);
    let mut printed = format!(in alloc; "{strength:?} {alternate:?} {first:?} {group:?}")?;
    write!(printed, " {level:?} {numeric:?}")?;
    if settings.backward_second_level() {
        printed.push_str(" backward")?;
    }
    if settings.upper_first() {
        printed.push_str(" upper first")?;
    }
    if let Some(mask) = settings.tertiary_mask() {
        write!(printed, " {mask:04X}")?;
    }
    Ok(printed)
}

fn strength_index(strength: Strength) -> u8 {
    match strength {
        Strength::Primary => 0,
        Strength::Secondary => 1,
        Strength::Tertiary => 2,
        Strength::Quaternary => 3,
        Strength::Identical => 4,
    }
}

/// Resolved settings as six numbers.
pub(crate) fn indexes(
    alloc: Global,
    settings: ResolvedCollatorOptions,
) -> Result<String, AllocError> {
    written(
        alloc,
        &[
            strength_index(settings.strength),
            settings.alternate_handling as u8,
            settings.max_variable as u8,
            settings.case_level as u8,
            settings.case_first as u8,
            settings.numeric as u8,
        ],
    )
}
