//! Which of several ranges has a character first.
ghost use Rattle.std.specs.Prelude.{◌≡◌, ◌+◌, ◌<◌, ◌≤◌, ℕ, length, slice_index_or, IfOk};
ghost use Rattle.icu_cldr_root.specs.inner.RangePlaces.{Finds};

use crate::ideograph_weights::WeightedRange;
use std::alloc::{AllocError, Global};

/// How many codes there are.
const CODE_COUNT: usize = 0x11_0000;

/// Zeros for all codes.
fn zeros(alloc: Global) -> Result<Vec<u32>, AllocError>
    ensures len { IfOk result (λ v. length v.items ≡ 0x110000) }
    ensures zero { IfOk result (λ v. (k : ℕ) → slice_index_or v.items k 0 ≡ 0) }
{
    let mut places = Vec::new(alloc);
    places.resize(CODE_COUNT, 0)?;
    Ok(places)
}

/// Sets the places from one code to another, both included.
fn fill(places: &mut Vec<u32>, first: usize, last: usize, place: u32)
    requires order { first ≤ last }
    requires inside { last < length places.old.items }
    ensures len { length places.new.items ≡ length places.old.items }
    ensures set { (k d : ℕ) → first ≤ k → k ≤ last → slice_index_or places.new.items k d ≡ place }
    ensures below { (k d : ℕ) → k < first
        → slice_index_or places.new.items k d ≡ slice_index_or places.old.items k d }
    ensures above { (k d : ℕ) → last < k
        → slice_index_or places.new.items k d ≡ slice_index_or places.old.items k d }
{
    for index in first..last + 1 {
        places[index] = place;
    }
}

/// Sets the places of the codes of a range.
fn set_range(places: &mut Vec<u32>, weighted: WeightedRange, place: u32)
    requires { length places.old.items ≡ 0x110000 }
    ensures len { length places.new.items ≡ 0x110000 }
    ensures set { (k d : ℕ) → weighted.range.first ≤ k → k ≤ weighted.range.last
        → slice_index_or places.new.items k d ≡ place }
    ensures below { (k d : ℕ) → k < weighted.range.first
        → slice_index_or places.new.items k d ≡ slice_index_or places.old.items k d }
    ensures above { (k d : ℕ) → weighted.range.last < k
        → slice_index_or places.new.items k d ≡ slice_index_or places.old.items k d }
{
    let range = weighted.range;
    fill(places, range.first as usize, range.last as usize, place);
}

/// The number of a range, from 1 on, or 0 where 32 bits have none for it.
fn place_of(index: usize) -> u32
    ensures { (n : ℕ) → result ≡ n + 1 → n ≡ index }
{
    match u32::try_from(index) {
        Ok(index) if index < u32::MAX => index + 1,
        _ => 0,
    }
}

/// Of each code the number of the first range that has it, from 1 on, or 0.
pub(crate) fn places_of(alloc: Global, ranges: &[WeightedRange]) -> Result<Vec<u32>, AllocError>
    ensures { IfOk result (λ v. Finds v.items ranges.now) }
{
    let mut places = zeros(alloc)?;
    for index in (0..ranges.len()).rev() {
        set_range(&mut places, ranges[index], place_of(index));
    }
    Ok(places)
}
