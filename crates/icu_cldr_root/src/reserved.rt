//! The ranges of primary weights that the root leaves free around Latin.
ghost use Rattle.std.specs.Prelude.{◌≡◌, ◌∷◌, [], bytes_eq, IfOk, IfSome, MatchOption, true, false};
ghost use Rattle.icu_cldr_root.specs.Reserved.{reserved_sample, is_sample, HasOnlyWeight};

use crate::expected::{Expected, LineError};
use crate::fractional_element::Primary;
use crate::mapping::Mapping;

/// Which of the two ranges.
#[derive(Debug, Clone, Copy, PartialEq, Eq)]
pub enum ReservedPlace {
    /// The one before the letters of Latin.
    BeforeLatin,
    /// The one behind them.
    AfterLatin,
}

/// A range of primary weights that no text has, from its first one to that of the script or the letters behind it.
/// There is no other room for scripts that a reordering moves around Latin: `FDD0 FF21; [27 02 02, 05, 05]`.
#[derive(Clone, Copy, PartialEq, Eq)]
pub struct ReservedRange {
    /// Which one.
    pub place: ReservedPlace,
    /// The first primary weight, of four bytes, of which those that a shorter one lacks are 00.
    pub first_primary: u32,
}

impl ReservedPlace {
    /// The character that stands for the range behind U+FDD0.
    fn sample(self) -> char
        ensures { result ≡ reserved_sample self }
    {
        match self {
            ReservedPlace::BeforeLatin => '\u{FF21}',
            ReservedPlace::AfterLatin => '\u{FF3A}',
        }
    }

    /// Whether a mapping of U+FDD0 is of the range.
    fn is_of(self, mapping: &Mapping) -> bool
        ensures { result ≡ is_sample (reserved_sample self) mapping.now }
    {
        mapping.suffix.as_slice() == [self.sample()].as_slice()
    }

    /// The range of which a mapping of U+FDD0 is, if it is of one.
    pub(crate) fn of(mapping: &Mapping) -> Option<ReservedPlace>
        ensures { MatchOption result
            ((place : ReservedPlace) → is_sample (reserved_sample place) mapping.now ≡ false)
            (λ place. is_sample (reserved_sample place) mapping.now ≡ true) }
    {
        if ReservedPlace::BeforeLatin.is_of(mapping) {
            return Some(ReservedPlace::BeforeLatin);
        }
        if ReservedPlace::AfterLatin.is_of(mapping) {
            return Some(ReservedPlace::AfterLatin);
        }
        None
    }
}

/// The primary weight of the only element of a mapping.
pub(crate) fn lone_weight(mapping: &Mapping, expected: Expected) -> Result<u32, LineError>
    ensures { IfOk result (HasOnlyWeight mapping.now) }
{
    match mapping.elements.as_slice() {
        [element] => match element.primary {
            Primary::Weight(weight) => Ok(weight),
            Primary::OfIdeograph(_) => Err(LineError::Expected(expected)),
        },
        _ => Err(LineError::Expected(expected)),
    }
}
