//! What the metadata of a collation says of the settings.
ghost use Rattle.std.specs.Prelude.{◌≡◌, ◌<◌};
ghost use Rattle.icu_options.specs.Metadata.{is_bit_set, max_variable_of};
ghost use Rattle.icu_options.specs.Metadata.{alternate_handling_of, case_first_of};

use crate::settings::{AlternateHandling, CollationCaseFirst, MaxVariable};

/// The settings that the metadata of a collation sets: these four always, and no others.
#[derive(Debug, Clone, Copy)]
pub struct MetadataSettings {
    /// The last variable group.
    pub max_variable: MaxVariable,
    /// How variable elements are weighted.
    pub alternate_handling: AlternateHandling,
    /// Which case sorts first.
    pub case_first: CollationCaseFirst,
    /// Whether the secondary level is compared from the end, as in Canadian French.
    pub backward_second_level: bool,
}

impl MetadataSettings {
    ghost use Rattle.icu_options.specs.Metadata.{metadata_settings};

    /// The settings of a metadata number. Bits 0 and 1 are the last variable group, from `Space` as
    /// 0 to `Currency` as 3, bit 7 is the backward second level, and bit 8 `Shifted`. Bit 9 says that
    /// case first is set, and bit 10, which is read only with bit 9, that upper case sorts first. No
    /// other bit counts.
    pub fn from_bits(bits: u32) -> Self
        ensures { result ≡ metadata_settings bits }
    {
        MetadataSettings {
            max_variable: max_variable(bits),
            alternate_handling: alternate_handling(bits),
            case_first: case_first(bits),
            backward_second_level: has_bit(bits, 7),
        }
    }
}

fn has_bit(bits: u32, index: u32) -> bool
    requires { index < 32 }
    ensures { result ≡ is_bit_set bits index }
{
    bits >> index & 1 == 1
}

fn max_variable(bits: u32) -> MaxVariable
    ensures { result ≡ max_variable_of bits }
{
    match bits & 3 {
        0 => MaxVariable::Space,
        1 => MaxVariable::Punctuation,
        2 => MaxVariable::Symbol,
        _ => MaxVariable::Currency,
    }
}

fn alternate_handling(bits: u32) -> AlternateHandling
    ensures { result ≡ alternate_handling_of bits }
{
    if has_bit(bits, 8) {
        AlternateHandling::Shifted
    } else {
        AlternateHandling::NonIgnorable
    }
}

fn case_first(bits: u32) -> CollationCaseFirst
    ensures { result ≡ case_first_of bits }
{
    if !has_bit(bits, 9) {
        CollationCaseFirst::False
    } else if has_bit(bits, 10) {
        CollationCaseFirst::Upper
    } else {
        CollationCaseFirst::Lower
    }
}
