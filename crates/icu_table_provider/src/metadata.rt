//! A collation's metadata.
ghost use Rattle.std.specs.Prelude.{◌≡◌, ◌*◌, ◌^◌, ◌<◌};
ghost use Rattle.icu_options.specs.Metadata.{is_bit_set, max_variable_of, case_first_of, is_backward, metadata_settings};
ghost use Rattle.icu_table_provider.specs.Metadata.{is_tailored, has_tailored_diacritics, has_reordering, is_lithuanian, is_shifted};
ghost use Rattle.icu_table_provider.specs.MetadataFields.{bit_of, bits_of_group, bits_of_case, metadata_bits, plain_fields};

use icu_options::{CollationCaseFirst, MaxVariable, MetadataSettings};

/// What a collation's metadata says: which tables it has, and its settings. Bits that no call reads are ignored.
#[derive(Debug, Clone, Copy, PartialEq)]
pub struct CollationMetadata {
    /// The bits.
    pub bits: u32,
}

/// What a collation's metadata is to say, each fact by its name.
#[derive(Debug, Clone, Copy, PartialEq)]
pub struct MetadataFields {
    /// The last variable group.
    pub max_variable: MaxVariable,
    /// Whether there is a tailoring.
    pub tailored: bool,
    /// Whether the collation has diacritics of its own.
    pub tailored_diacritics: bool,
    /// Whether there is a reordering.
    pub reordering: bool,
    /// Whether U+0307 is left out before U+0300, U+0301 and U+0303, as in Lithuanian.
    pub lithuanian_dot_above: bool,
    /// Whether the secondary level is compared from the end, as in Canadian French.
    pub backward_second_level: bool,
    /// Whether variable elements are shifted.
    pub alternate_shifted: bool,
    /// Which case sorts first.
    pub case_first: CollationCaseFirst,
}

impl MetadataFields {
    /// A root's: the last variable group, and nothing else.
    pub fn new(max_variable: MaxVariable) -> Self
        ensures { result ≡ plain_fields max_variable }
    {
        MetadataFields {
            max_variable,
            tailored: false,
            tailored_diacritics: false,
            reordering: false,
            lithuanian_dot_above: false,
            backward_second_level: false,
            alternate_shifted: false,
            case_first: CollationCaseFirst::False,
        }
    }
}

/// A bit of a number, or 0.
fn bit(is_set: bool, place: u32) -> u32
    requires { place < 2 ^ 12 }
    ensures { result ≡ bit_of is_set * place }
{
    if is_set { place } else { 0 }
}

fn bits_of_group(max_variable: MaxVariable) -> u32
    ensures value { result ≡ bits_of_group max_variable }
    ensures bound { result < 4 }
{
    match max_variable {
        MaxVariable::Space => 0,
        MaxVariable::Punctuation => 1,
        MaxVariable::Symbol => 2,
        MaxVariable::Currency => 3,
    }
}

fn bits_of_case(case_first: CollationCaseFirst) -> u32
    ensures value { result ≡ bits_of_case case_first }
    ensures bound { result < 4 }
{
    match case_first {
        CollationCaseFirst::False => 0,
        CollationCaseFirst::Lower => 1,
        CollationCaseFirst::Upper => 3,
    }
}

fn is_bit_set(bits: u32, index: u32) -> bool
    requires { index < 32 }
    ensures { result ≡ is_bit_set bits index }
{
    bits >> index & 1 == 1
}

impl CollationMetadata {
    /// The metadata that says this: each call below returns what its field says.
    pub fn new(fields: MetadataFields) -> Self
        ensures bits { result.bits ≡ metadata_bits fields }
        ensures max_variable { max_variable_of result.bits ≡ fields.max_variable }
        ensures tailored { is_tailored result.bits ≡ fields.tailored }
        ensures diacritics { has_tailored_diacritics result.bits ≡ fields.tailored_diacritics }
        ensures reordering { has_reordering result.bits ≡ fields.reordering }
        ensures lithuanian { is_lithuanian result.bits ≡ fields.lithuanian_dot_above }
        ensures backward { is_backward result.bits ≡ fields.backward_second_level }
        ensures shifted { is_shifted result.bits ≡ fields.alternate_shifted }
        ensures case_first { case_first_of result.bits ≡ fields.case_first }
    {
        CollationMetadata {
            bits: bits_of_group(fields.max_variable)
                + bit(fields.tailored, 1 << 3)
                + bit(fields.tailored_diacritics, 1 << 4)
                + bit(fields.reordering, 1 << 5)
                + bit(fields.lithuanian_dot_above, 1 << 6)
                + bit(fields.backward_second_level, 1 << 7)
                + bit(fields.alternate_shifted, 1 << 8)
                + (bits_of_case(fields.case_first) << 9),
        }
    }

    /// The settings that it gives.
    pub fn settings(self) -> MetadataSettings
        ensures { result ≡ metadata_settings self.bits }
    {
        MetadataSettings::from_bits(self.bits)
    }

    /// The last variable group: bits 0 and 1, from `Space` as 0 to `Currency` as 3.
    pub fn max_variable(self) -> MaxVariable
        ensures { result ≡ max_variable_of self.bits }
    {
        self.settings().max_variable
    }

    /// Whether there is a tailoring: bit 3.
    pub fn tailored(self) -> bool
        ensures { result ≡ is_tailored self.bits }
    {
        is_bit_set(self.bits, 3)
    }

    /// Whether the collation has diacritics of its own: bit 4.
    pub fn tailored_diacritics(self) -> bool
        ensures { result ≡ has_tailored_diacritics self.bits }
    {
        is_bit_set(self.bits, 4)
    }

    /// Whether there is a reordering: bit 5.
    pub fn reordering(self) -> bool
        ensures { result ≡ has_reordering self.bits }
    {
        is_bit_set(self.bits, 5)
    }

    /// Whether U+0307 is left out before U+0300, U+0301 and U+0303, as in Lithuanian: bit 6.
    pub fn lithuanian_dot_above(self) -> bool
        ensures { result ≡ is_lithuanian self.bits }
    {
        is_bit_set(self.bits, 6)
    }

    /// Whether the secondary level is compared from the end: bit 7.
    pub fn backward_second_level(self) -> bool
        ensures { result ≡ is_backward self.bits }
    {
        self.settings().backward_second_level
    }

    /// Whether variable elements are shifted: bit 8.
    pub fn alternate_shifted(self) -> bool
        ensures { result ≡ is_shifted self.bits }
    {
        is_bit_set(self.bits, 8)
    }

    /// Which case is less: bit 9 says that one is, and bit 10, which is read only then, that it is upper case.
    pub fn case_first(self) -> CollationCaseFirst
        ensures { result ≡ case_first_of self.bits }
    {
        self.settings().case_first
    }
}
