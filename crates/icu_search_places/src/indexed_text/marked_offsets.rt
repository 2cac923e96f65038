//! Which of some offsets are in a set.

ghost use Rattle.std.specs.Prelude.{◌≡◌, IfOk, IsPermutation, IsSorted, map};
ghost use Rattle.std.specs.Ordering.{nat_cmp};
ghost use Rattle.icu_search_places.specs.indexed_text.OffsetSets.{has_offset};

use std::alloc::{AllocError, Global};

/// Some offsets, in ascending order.
fn ascending(alloc: Global, offsets: &[usize]) -> Result<Vec<usize>, AllocError>
    ensures same { IfOk result (λ v. IsPermutation offsets.now v.items) }
    ensures sorted { IfOk result (λ v. IsSorted nat_cmp v.items) }
{
    let mut all = Vec::from_slice(alloc, offsets)?;
    all.sort()?;
    Ok(all)
}

/// Whether an offset is one of these, which ascend.
fn is_among(sorted: &[usize], offset: usize) -> bool
    requires { IsSorted nat_cmp sorted.now }
    ensures { result ≡ has_offset sorted.now offset }
{
    let place = sorted.binary_search(&offset);
    place.is_ok()
}

/// A mark for each of some offsets: whether it is in a set. The set is given as a list, in any order. Fails only where
/// an allocation does.
pub fn offset_marks(
    alloc: Global,
    offsets: &[usize],
    set: &[usize],
) -> Result<Vec<bool>, AllocError>
    ensures { IfOk result (λ marks. marks.items ≡ map (has_offset set.now) offsets.now) }
{
    let sorted = ascending(alloc, set)?;
    let mut marks = Vec::new(alloc);
    for offset in offsets {
        marks.push(is_among(sorted.as_slice(), *offset))?;
    }
    Ok(marks)
}
