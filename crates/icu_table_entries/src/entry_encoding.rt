//! Entries made of what they say: what the calls of `entry.rt` read is what was given here.
ghost use Rattle.std.specs.Prelude.{◌≡◌, ℕ, ◌+◌, ◌*◌, ◌/◌, ◌%◌, ◌^◌, ◌<◌, [], ◌∷◌, ◌↔◌, IfSome, IsSome, IsTrue};
ghost use Rattle.icu_table_entries.specs.Elements.{of_primary};
ghost use Rattle.icu_table_entries.specs.EncodedEntries.{implicit_entry, simple_entry, common_entry, long_primary_entry, long_secondary_entry};
ghost use Rattle.icu_table_entries.specs.EncodedEntries.{entry_list, element_list, prefix_entry, contraction_entry, digit_entry, offset_entry};
ghost use Rattle.icu_table_entries.specs.EncodedEntries.{of_weights, fits_simple, fits_long_primary, fits_long_secondary, fits_entry};
ghost use Rattle.icu_table_entries.specs.Entries.{fallback_entry, kind_of, self_contained, list_length, entry_index, digit_value};
ghost use Rattle.icu_table_entries.specs.declared.entry.EntryKind.{EntryKind};

use crate::element::{COMMON_WEIGHT16, CollationElement};
use crate::entry::{CollationElement32, FALLBACK_CE32, IMPLICIT_CE32};

/// How many indices entries have room for.
pub const INDEX_COUNT: usize = 0x8_0000;

/// The most members that a list has which an entry refers to.
pub const LIST_LENGTH_MAX: usize = 31;

/// The entry with a low byte that refers to something by its index, with more in the bits between.
fn reference(low_byte: u32, index: usize, between: u32) -> CollationElement32
    requires low { low_byte < 256 }
    requires index { index < 2 ^ 19 }
    requires between { between < 32 }
    ensures { result ≡ index * 8192 + low_byte + between * 256 }
{
    CollationElement32::new(index as u32 * 0x2000 + low_byte + between * 0x100)
}

impl CollationElement32 {
    /// The entry of a tailoring for which the root's stands.
    #[tactic(auto, unfolding(crate::specs::Entries::kind_of))]
    pub fn fallback() -> Self
        ensures entry { result ≡ fallback_entry }
        ensures kind { kind_of result ≡ EntryKind.Fallback }
    {
        CollationElement32::new(FALLBACK_CE32)
    }

    /// The entry of a character whose weight follows from its number.
    #[tactic(auto, unfolding(crate::specs::Entries::kind_of))]
    pub fn implicit() -> Self
        ensures entry { result ≡ implicit_entry }
        ensures kind { kind_of result ≡ EntryKind.Implicit }
    {
        CollationElement32::new(IMPLICIT_CE32)
    }

    /// The entry of one element: the two high bytes of its primary weight, the high byte of its secondary weight, and
    /// that of its lower half. All three 0 are a character that is completely ignorable.
    #[tactic(auto, unfolding(crate::specs::Entries::kind_of, crate::specs::Entries::self_contained))]
    pub fn simple(primary: u16, secondary: u8, lower: u8) -> Self
        requires { lower < 0xC0 }
        ensures entry { result ≡ simple_entry primary secondary lower }
        ensures kind { kind_of result ≡ EntryKind.Simple }
        ensures element { self_contained result
            ≡ of_weights (primary * 2 ^ 16) (secondary * 2 ^ 8) (lower * 2 ^ 8) ∷ [] }
    {
        CollationElement32::new(
            u32::from(primary) * 0x1_0000 + u32::from(secondary) * 0x100 + u32::from(lower),
        )
    }

    /// The entry of one element with two bytes of primary weight and common weights below.
    pub fn common(primary: u16) -> Self
        ensures entry { result ≡ common_entry primary }
        ensures kind { kind_of result ≡ EntryKind.Simple }
        ensures element { self_contained result ≡ of_primary (primary * 2 ^ 16) ∷ [] }
    {
        CollationElement32::simple(primary, 0x05, 0x05)
    }

    /// The entry of one element with three bytes of primary weight and common weights below.
    #[tactic(auto, unfolding(crate::specs::Entries::kind_of, crate::specs::Entries::self_contained))]
    pub fn long_primary(primary: u32) -> Self
        requires { primary % 256 ≡ 0 }
        ensures entry { result ≡ long_primary_entry primary }
        ensures kind { kind_of result ≡ EntryKind.LongPrimary }
        ensures element { self_contained result ≡ of_primary primary ∷ [] }
    {
        CollationElement32::new(primary + 0xC1)
    }

    /// The entry of one element without a primary weight: its secondary weight, and the high byte of its lower half.
    #[tactic(auto, unfolding(crate::specs::Entries::kind_of, crate::specs::Entries::self_contained))]
    pub fn long_secondary(secondary: u16, lower: u8) -> Self
        ensures entry { result ≡ long_secondary_entry secondary lower }
        ensures kind { kind_of result ≡ EntryKind.LongSecondary }
        ensures element { self_contained result ≡ of_weights 0 secondary (lower * 2 ^ 8) ∷ [] }
    {
        CollationElement32::new(u32::from(secondary) * 0x1_0000 + u32::from(lower) * 0x100 + 0xC2)
    }

    /// The entry of a list of entries: the index of the first member, and how many there are.
    #[tactic(auto, unfolding(crate::specs::Entries::kind_of))]
    pub fn entry_list(index: usize, count: usize) -> Self
        requires index { index < 2 ^ 19 }
        requires count { count < 32 }
        ensures entry { result ≡ entry_list index count }
        ensures kind { kind_of result ≡ EntryKind.Expansion32 }
        ensures index { entry_index result ≡ index }
        ensures len { list_length result ≡ count }
    {
        reference(0xC5, index, count as u32)
    }

    /// The entry of a list of elements: the index of the first member, and how many there are.
    #[tactic(auto, unfolding(crate::specs::Entries::kind_of))]
    pub fn element_list(index: usize, count: usize) -> Self
        requires index { index < 2 ^ 19 }
        requires count { count < 32 }
        ensures entry { result ≡ element_list index count }
        ensures kind { kind_of result ≡ EntryKind.Expansion }
        ensures index { entry_index result ≡ index }
        ensures len { list_length result ≡ count }
    {
        reference(0xC6, index, count as u32)
    }

    /// The entry of a character that is looked up with those before it, by the index of a context.
    #[tactic(auto, unfolding(crate::specs::Entries::kind_of))]
    pub fn prefix(index: usize) -> Self
        requires { index < 2 ^ 19 }
        ensures entry { result ≡ prefix_entry index }
        ensures kind { kind_of result ≡ EntryKind.Prefix }
        ensures index { entry_index result ≡ index }
    {
        reference(0xC8, index, 0)
    }

    /// The entry of a character that is looked up with those after it, by the index of a context.
    #[tactic(auto, unfolding(crate::specs::Entries::kind_of))]
    pub fn contraction(index: usize) -> Self
        requires { index < 2 ^ 19 }
        ensures entry { result ≡ contraction_entry index }
        ensures kind { kind_of result ≡ EntryKind.Contraction }
        ensures index { entry_index result ≡ index }
    {
        reference(0xC9, index, 0)
    }

    /// The entry of a digit: its value, and the index of its plain entry.
    #[tactic(auto, unfolding(crate::specs::Entries::kind_of))]
    pub fn digit_with_plain(digit: u8, index: usize) -> Self
        requires digit { digit < 10 }
        requires index { index < 2 ^ 19 }
        ensures entry { result ≡ digit_entry digit index }
        ensures kind { kind_of result ≡ EntryKind.Digit }
        ensures index { entry_index result ≡ index }
        ensures digit { digit_value result ≡ digit }
    {
        reference(0xCA, index, u32::from(digit))
    }

    /// The entry of a character whose weight is counted from another one's, by the index of the data.
    #[tactic(auto, unfolding(crate::specs::Entries::kind_of))]
    pub fn offset(index: usize) -> Self
        requires { index < 2 ^ 19 }
        ensures entry { result ≡ offset_entry index }
        ensures kind { kind_of result ≡ EntryKind.Offset }
        ensures index { entry_index result ≡ index }
    {
        reference(0xCE, index, 0)
    }

    /// Whether an entry `pppp ss tt` can spell the element.
    fn fits_simple(element: CollationElement) -> bool
        ensures { result ≡ fits_simple element }
    {
        element.primary() & 0xffff == 0
            && element.secondary() & 0xff == 0
            && element.lower() & 0xff == 0
            && element.lower() >> 8 < 0xC0
    }

    /// Whether an entry `pppppp C1` can spell the element.
    fn fits_long_primary(element: CollationElement) -> bool
        ensures { result ≡ fits_long_primary element }
    {
        element.primary() & 0xff == 0
            && element.secondary() == COMMON_WEIGHT16
            && element.lower() == COMMON_WEIGHT16
    }

    /// Whether an entry `ssss tt C2` can spell the element.
    fn fits_long_secondary(element: CollationElement) -> bool
        ensures { result ≡ fits_long_secondary element }
    {
        element.primary() == 0 && element.lower() & 0xff == 0
    }

    /// The entry that spells an element itself, if one can.
    pub fn from_element(element: CollationElement) -> Option<Self>
        ensures spells { IfSome result (λ e. self_contained e ≡ element ∷ []) }
        ensures fits { IsSome result ↔ IsTrue (fits_entry element) }
    {
        let lower = (element.lower() >> 8) as u8;
        if CollationElement32::fits_simple(element) {
            let primary = (element.primary() >> 16) as u16;
            let secondary = (element.secondary() >> 8) as u8;
            Some(CollationElement32::simple(primary, secondary, lower))
        } else if CollationElement32::fits_long_primary(element) {
            Some(CollationElement32::long_primary(element.primary()))
        } else if CollationElement32::fits_long_secondary(element) {
            Some(CollationElement32::long_secondary(element.secondary(), lower))
        } else {
            None
        }
    }
}
