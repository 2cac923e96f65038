//! Which characters go on what a character begins that has contractions (UTS #10, "Well-Formedness of Collation
//! Element Tables").

ghost use Rattle.std.specs.Prelude.{◌≡◌, ℕ};
ghost use Rattle.icu_table_data.specs.StoredData.{found_context};
ghost use Rattle.icu_element_reading.specs.boundaries.BoundaryTables.{boundary_reading};
ghost use Rattle.icu_element_reading.specs.inner.StepsTaken.{FirstDiffers, NoneBeginsWith};
ghost use Rattle.icu_element_facts.specs.Followers.{AreFollowers, HasNoBit, NoneBeginsWithBoth, DiffersFromPair};

use crate::contractions::{composed_of, plain_contractions_of};
use icu_element_reading::boundaries::Boundaries;
use icu_table_data::FoundContext;
use unicode_normalization::char::canonical_combining_class;

/// The characters that go on what a character begins, each by the bit that its low six bits number, and the class of
/// the last character of its decomposition.
#[derive(Clone, Copy)]
pub(crate) struct Followers {
    pub(crate) class: u8,
    pub(crate) bits: u64,
}

/// All characters may go on what the character begins.
const ALL: Followers = Followers {
    class: 0,
    bits: u64::MAX,
};

/// The bits with that of a character.
fn with_bit(bits: u64, c: char) -> u64
    ensures kept { (d : ℕ) → HasNoBit result d → HasNoBit bits d }
    ensures own { HasNoBit result c → ⊥ }
{
    bits | (1 << (c as u32 % 64))
}

/// The bits with that of the first of these characters, or all where there is none.
fn with_first(bits: u64, chars: &[char]) -> u64
    ensures kept { (d : ℕ) → HasNoBit result d → HasNoBit bits d }
    ensures first { (d : ℕ) → HasNoBit result d → FirstDiffers d chars.now }
{
    match chars {
        [first, ..] => with_bit(bits, *first),
        [] => u64::MAX,
    }
}

/// The bits of the characters that the mappings of a context begin with.
fn first_bits(context: FoundContext<'_>) -> u64
    ensures { (d : ℕ) → HasNoBit result d
        → NoneBeginsWith (found_context context.entry).mappings d }
{
    let mut bits = 0;
    for index in 0..context.len() {
        bits = with_first(bits, context.mapping(index).chars);
    }
    bits
}

/// The bits with that of the second of these characters, where the first is this one.
fn with_second(bits: u64, first: char, chars: &[char]) -> u64
    ensures kept { (d : ℕ) → HasNoBit result d → HasNoBit bits d }
    ensures second { (d : ℕ) → HasNoBit result d → DiffersFromPair first d chars.now }
{
    match chars {
        [one, second, ..] if *one == first => with_bit(bits, *second),
        _ => bits,
    }
}

/// The bits of the characters that the mappings of a context have behind this one.
pub(crate) fn second_bits(context: FoundContext<'_>, first: char) -> u64
    ensures { (d : ℕ) → HasNoBit result d
        → NoneBeginsWithBoth (found_context context.entry).mappings first d }
{
    let mut bits = 0;
    for index in 0..context.len() {
        bits = with_second(bits, first, context.mapping(index).chars);
    }
    bits
}

/// The characters that go on what a character begins. All, where digits are read as numbers.
#[tactic(auto, unfolding(icu_element_reading::specs::boundaries::BoundaryTables::boundary_reading))]
pub(crate) fn followers_of(places: &Boundaries<'_>, c: char) -> Followers
    ensures { AreFollowers (boundary_reading places.now) c result.class result.bits }
{
    if places.reading.numeric_primary.is_some() {
        return ALL;
    }
    if let Some(context) = plain_contractions_of(places, c) {
        return Followers {
            class: 0,
            bits: first_bits(context),
        };
    }
    match composed_of(places, c) {
        Some((context, mark)) => Followers {
            class: canonical_combining_class(mark),
            bits: second_bits(context, mark),
        },
        None => ALL,
    }
}
