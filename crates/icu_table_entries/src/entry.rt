//! Entries: the 32 bits that a table holds for a character.
ghost use Rattle.std.specs.Prelude.{◌≡◌, ◌==◌, ◌+◌, ◌*◌, ◌<◌, ◌^◌, [], ◌∷◌, ◌↔◌, IsTrue, slice_index};
ghost use Rattle.icu_table_entries.specs.Entries.{fallback_entry, kind_of, tag_of, checked_tag, list_length, entry_index, digit_value, has_bit, is_self_contained, self_contained, simple_element, long_primary_element, long_secondary_element, simple_or_long_primary, self_contained_by_tag, names_list, has_index};

use crate::element::CollationElement;
use std::marker::Model;

/// The entry of a tailoring for which the root's stands.
pub const FALLBACK_CE32: u32 = 0xC0;

/// The entry of a character whose weight follows from its number.
pub const IMPLICIT_CE32: u32 = 0xCF;

/// The least low byte of an entry that isn't simple.
const SPECIAL_CE32_LOW_BYTE: u32 = 0xC0;

/// What an entry is, by its low byte. `Reserved` is every low byte that has no meaning in tables.
#[derive(Clone, Copy, PartialEq, Eq)]
pub enum EntryKind {
    /// `pppp ss tt`: one element, with two bytes of primary weight.
    Simple,
    /// The root's entry stands for it.
    Fallback,
    /// One element, with three bytes of primary weight and common weights below.
    LongPrimary,
    /// One element without a primary weight, with two bytes of secondary weight.
    LongSecondary,
    /// A list of entries.
    Expansion32,
    /// A list of elements.
    Expansion,
    /// A context of the characters before.
    Prefix,
    /// A context of the characters after.
    Contraction,
    /// A digit, and the entry that it has where numbers are compared as text.
    Digit,
    /// An element that is counted from that of another character.
    Offset,
    /// The implicit weight of the character.
    Implicit,
    /// No meaning.
    Reserved,
}

/// The four lowest bits of an entry, under ICU's names.
#[derive(Debug, Clone, Copy, PartialEq, Eq)]
pub enum Tag {
    /// The root's entry stands for it.
    Fallback = 0,
    /// A primary weight of three bytes.
    LongPrimary = 1,
    /// A secondary weight of two bytes.
    LongSecondary = 2,
    /// Not used.
    Reserved3 = 3,
    /// Not used in these tables.
    LatinExpansion = 4,
    /// A list of entries.
    Expansion32 = 5,
    /// A list of elements.
    Expansion = 6,
    /// Not used in these tables.
    BuilderData = 7,
    /// A context of the characters before.
    Prefix = 8,
    /// A context of the characters after.
    Contraction = 9,
    /// A digit.
    Digit = 10,
    /// Not used in these tables.
    U0000 = 11,
    /// Not used in these tables.
    Hangul = 12,
    /// Not used in these tables.
    LeadSurrogate = 13,
    /// An element that is counted from that of another character.
    Offset = 14,
    /// The implicit weight of the character.
    Implicit = 15,
}

/// An entry: the 32 bits that a table holds for a character. Entries with a low byte below C0 are simple, `pppp ss tt`;
/// from C0 on the low byte says what the others mean.
#[derive(Debug, Clone, Copy, PartialEq)]
pub struct CollationElement32 {
    bits: u32,
}

impl Model for CollationElement32 {
    ghost use Rattle.std.specs.Prelude.{ℕ};

    ghost Value = { ℕ };

    ghost view = { λ e. e.bits };

    ghost inverse = { λ bits. record { bits = bits } };
}

impl CollationElement32 {
    /// The entry of 32 bits.
    pub fn new(bits: u32) -> Self
        ensures { result ≡ bits }
    {
        CollationElement32 { bits }
    }

    /// The entry of four bytes, least byte first.
    pub fn new_from_ule(ule: [u8; 4]) -> Self
        ensures { result
            ≡ slice_index ule 0
            + slice_index ule 1 * 256
            + slice_index ule 2 * 256 ^ 2
            + slice_index ule 3 * 256 ^ 3 }
    {
        CollationElement32 {
            bits: u32::from_le_bytes(ule),
        }
    }

    /// The 32 bits.
    pub fn bits(self) -> u32
        ensures { result ≡ self }
    {
        self.bits
    }

    /// What the entry is.
    #[tactic(auto, unfolding(crate::specs::Entries::kind_of))]
    pub fn kind(self) -> EntryKind
        ensures { result ≡ kind_of self }
    {
        match self.bits & 0xff {
            0..=0xBF => EntryKind::Simple,
            0xC0 => EntryKind::Fallback,
            0xC1 => EntryKind::LongPrimary,
            0xC2 => EntryKind::LongSecondary,
            0xC5 => EntryKind::Expansion32,
            0xC6 => EntryKind::Expansion,
            0xC8 => EntryKind::Prefix,
            0xC9 => EntryKind::Contraction,
            0xCA => EntryKind::Digit,
            0xCE => EntryKind::Offset,
            0xCF => EntryKind::Implicit,
            _ => EntryKind::Reserved,
        }
    }

    /// Whether it stands for the implicit weight of its character: what `kind` says, with one test.
    #[tactic(auto, unfolding(crate::specs::Entries::kind_of))]
    pub fn is_implicit(self) -> bool
        ensures { IsTrue result ↔ (kind_of self ≡ EntryKind.Implicit) }
    {
        self.bits & 0xff == 0xCF
    }

    /// Whether it is the entry of a tailoring for which the root's stands.
    pub fn is_fallback(self) -> bool
        ensures { result ≡ (self == fallback_entry) }
    {
        self.bits == FALLBACK_CE32
    }

    /// The tag of an entry that isn't simple.
    pub fn tag_checked(self) -> Option<Tag>
        ensures { result ≡ checked_tag self }
    {
        if self.bits & 0xff < SPECIAL_CE32_LOW_BYTE {
            None
        } else {
            Some(self.tag())
        }
    }

    /// The four lowest bits.
    #[tactic(auto, unfolding(crate::specs::Entries::tag_of))]
    pub fn tag(self) -> Tag
        ensures { result ≡ tag_of self }
    {
        match self.bits & 0xf {
            0 => Tag::Fallback,
            1 => Tag::LongPrimary,
            2 => Tag::LongSecondary,
            3 => Tag::Reserved3,
            4 => Tag::LatinExpansion,
            5 => Tag::Expansion32,
            6 => Tag::Expansion,
            7 => Tag::BuilderData,
            8 => Tag::Prefix,
            9 => Tag::Contraction,
            10 => Tag::Digit,
            11 => Tag::U0000,
            12 => Tag::Hangul,
            13 => Tag::LeadSurrogate,
            14 => Tag::Offset,
            _ => Tag::Implicit,
        }
    }

    /// The element of a simple entry or of one with a long primary weight.
    pub fn to_ce_simple_or_long_primary(self) -> Option<CollationElement>
        ensures { result ≡ simple_or_long_primary self }
    {
        match self.bits & 0xff {
            0..=0xBF => Some(self.simple_element()),
            0xC1 => Some(self.long_primary_element()),
            _ => None,
        }
    }

    /// The element of an entry that spells one itself: the same, and that of each entry that isn't simple and whose tag
    /// is `LongSecondary`.
    pub fn to_ce_self_contained(self) -> Option<CollationElement>
        ensures { result ≡ self_contained_by_tag self }
    {
        match self.bits & 0xff {
            0..=0xBF => Some(self.simple_element()),
            0xC1 => Some(self.long_primary_element()),
            low if low % 16 == 2 => Some(self.long_secondary_element()),
            _ => None,
        }
    }

    /// The element that the entry spells itself.
    #[tactic(auto, unfolding(crate::specs::Entries::is_self_contained, crate::specs::Entries::self_contained))]
    pub fn self_contained(self) -> CollationElement
        requires { IsTrue (is_self_contained self) }
        ensures { self_contained self ≡ result ∷ [] }
    {
        match self.kind() {
            EntryKind::Simple => self.simple_element(),
            EntryKind::LongPrimary => self.long_primary_element(),
            EntryKind::LongSecondary => self.long_secondary_element(),
            _ => unreachable!(),
        }
    }

    /// The length of the list that the entry refers to, at most 31.
    pub fn len(self) -> usize
        requires { IsTrue (names_list (kind_of self)) }
        ensures value { result ≡ list_length self }
        ensures bound { result < 32 }
    {
        (self.bits >> 8 & 0x1f) as usize
    }

    /// The index of what the entry refers to.
    pub fn index(self) -> usize
        requires { IsTrue (has_index (kind_of self)) }
        ensures value { result ≡ entry_index self }
        ensures bound { result < 2 ^ 19 }
    {
        (self.bits >> 13) as usize
    }

    /// The digit that the entry stands for: four bits, of which tables hold 0 to 9.
    pub fn digit(self) -> u8
        requires { kind_of self ≡ EntryKind.Digit }
        ensures value { result ≡ digit_value self }
        ensures bound { result < 16 }
    {
        (self.bits >> 8 & 0xf) as u8
    }

    /// A hint of the table's builder: every suffix begins with a mark.
    pub fn every_suffix_starts_with_combining(self) -> bool
        requires { kind_of self ≡ EntryKind.Contraction }
        ensures { result ≡ has_bit 9 self }
    {
        self.bits >> 9 & 1 == 1
    }

    /// A hint of the table's builder: some suffix has a starter.
    pub fn at_least_one_suffix_contains_starter(self) -> bool
        requires { kind_of self ≡ EntryKind.Contraction }
        ensures { result ≡ has_bit 11 self }
    {
        self.bits >> 11 & 1 == 1
    }

    /// A hint of the table's builder: some suffix ends with a mark.
    pub fn at_least_one_suffix_ends_with_non_starter(self) -> bool
        requires { kind_of self ≡ EntryKind.Contraction }
        ensures { result ≡ has_bit 10 self }
    {
        self.bits >> 10 & 1 == 1
    }

    fn simple_element(self) -> CollationElement
        ensures { result ≡ simple_element self }
    {
        let secondary = (self.bits >> 8 & 0xff) as u16 * 256;
        let lower = (self.bits & 0xff) as u16 * 256;
        CollationElement::from_weights(self.bits & 0xFFFF_0000, secondary, lower)
    }

    fn long_primary_element(self) -> CollationElement
        ensures { result ≡ long_primary_element self }
    {
        CollationElement::new_from_primary(self.bits & 0xFFFF_FF00)
    }

    fn long_secondary_element(self) -> CollationElement
        ensures { result ≡ long_secondary_element self }
    {
        let lower = (self.bits >> 8 & 0xff) as u16 * 256;
        CollationElement::from_weights(0, (self.bits >> 16) as u16, lower)
    }
}

/// The entry that no table holds.
impl Default for CollationElement32 {
    ghost is_default = { λ e. e ≡ 1 };

    fn default() -> Self {
        CollationElement32 { bits: 1 }
    }
}
