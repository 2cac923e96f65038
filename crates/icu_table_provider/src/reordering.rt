//! Reorderings of scripts.
ghost use Rattle.std.specs.Prelude.{◌≡◌, ◌<◌, ◌%◌, ◌^◌, ◌↔◌, ◌==◌, ◌&&◌, IsOk, IfOk, IfErr, length, find, All, nat_eq, slice_get};
ghost use Rattle.std.specs.Option.{ForSome};
ghost use Rattle.std.proofs.Common.{rules};
ghost use Rattle.std.specs.Cmp.Lexicographic.{pointwise};
ghost use Rattle.std.specs.Cmp.Rules.{comparing};
ghost use Rattle.std.specs.List.Sorted.{IsNonDecreasing};
ghost use Rattle.icu_table_provider.specs.Reorderings.{lead_byte, with_lead, lies_below, moved, reordered};
ghost use Rattle.icu_table_provider.specs.inner.ReachedRanges.{reached_ranges};

use icu_table_entries::DataErrorKind;
use std::alloc::{AllocError, Global};

/// How many lead bytes there are.
const LEAD_COUNT: usize = 256;

/// A reordering of scripts: where the lead bytes of primary weights go (UTS #35 part 5, "Collation Reordering").
#[derive(Debug, Clone, Copy)]
pub struct CollationReordering<'d> {
    min_high_no_reorder: u32,
    reorder_table: &'d [u8],
    reorder_ranges: &'d [u32],
    // those of the ranges that move some weight, where they were worked out
    reached: Option<&'d [u32]>,
    ghost whole: { length reorder_table.now ≡ 256 },
    ghost alike: { ForSome reached (λ some. some.now ≡ reached_ranges reorder_ranges.now) },
}

/// Two are equal that say the same, whether or not it was worked out for one of them which ranges move a weight.
impl PartialEq for CollationReordering<'_> {
    ghost eq = { λ a b. (a.min_high_no_reorder == b.min_high_no_reorder)
        && pointwise nat_eq a.reorder_table.now b.reorder_table.now
        && pointwise nat_eq a.reorder_ranges.now b.reorder_ranges.now };

    ghost laws = { Prim.search (comparing, rules) };

    fn eq(&self, other: &Self) -> bool {
        self.min_high_no_reorder == other.min_high_no_reorder
            && self.reorder_table == other.reorder_table
            && self.reorder_ranges == other.reorder_ranges
    }
}

/// The lead byte of a primary weight.
pub fn lead_byte(primary: u32) -> u8
    ensures { result ≡ lead_byte primary }
{
    (primary >> 24) as u8
}

/// The weight with another lead byte.
fn with_lead(lead: u8, primary: u32) -> u32
    ensures value { result ≡ with_lead lead primary }
    ensures lead_alone { result % 2 ^ 24 ≡ primary % 2 ^ 24 }
{
    u32::from(lead) << 24 | primary & 0x00FF_FFFF
}

/// The first range that the weight lies below.
fn range_above(ranges: &[u32], primary: u32) -> Option<u32>
    ensures { result ≡ find (lies_below primary) ranges.now }
{
    ranges
        .iter()
        .copied()
        .find(|range| primary | 0xFFFF < *range)
}

/// The range with an index, if there is one.
fn range_at(ranges: &[u32], index: usize) -> Option<u32>
    ensures { result ≡ slice_get ranges.now index }
{
    ranges.get(index).copied()
}

/// The first range that the weight lies below, of ranges in ascending order.
fn ascending_range_above(ranges: &[u32], primary: u32) -> Option<u32>
    requires { IsNonDecreasing ranges.now }
    ensures { result ≡ find (lies_below primary) ranges.now }
{
    let end = primary | 0xFFFF;
    let index = ranges.partition_point(|range| *range <= end);
    range_at(ranges, index)
}

/// Those of the ranges that move some weight: each ends above all before it.
fn reached_ranges(alloc: Global, ranges: &[u32]) -> Result<Vec<u32>, AllocError>
    ensures { IfOk result (λ reached. reached.items ≡ reached_ranges ranges.now) }
{
    let mut reached = Vec::new(alloc);
    let mut highest = 0u32;
    for range in ranges {
        if highest | 0xFFFF < *range {
            reached.push(*range)?;
            highest = *range;
        }
    }
    Ok(reached)
}

/// The first range that the weight lies below, by halves among those that move some weight, where these are known.
#[tactic(auto, using(crate::proofs::ReachedRangeLemmas::reached_ascend, crate::proofs::ReachedRangeLemmas::found_alike))]
fn found_range(ranges: &[u32], reached: Option<&[u32]>, primary: u32) -> Option<u32>
    requires { ForSome reached (λ some. some.now ≡ reached_ranges ranges.now) }
    ensures { result ≡ find (lies_below primary) ranges.now }
{
    match reached {
        Some(reached) => ascending_range_above(reached, primary),
        None => range_above(ranges, primary),
    }
}

/// The weight, moved by the first range that it lies below.
#[tactic(auto, unfolding(crate::specs::Reorderings::moved))]
fn moved(ranges: &[u32], reached: Option<&[u32]>, primary: u32) -> u32
    requires { ForSome reached (λ some. some.now ≡ reached_ranges ranges.now) }
    ensures value { result ≡ moved ranges.now primary }
    ensures lead_alone { result % 2 ^ 24 ≡ primary % 2 ^ 24 }
{
    match found_range(ranges, reached, primary) {
        Some(range) => {
            let lead = lead_byte(primary);
            with_lead(lead.wrapping_add((range & 0xff) as u8), primary)
        }
        None => primary,
    }
}

fn are_bytes(bytes: &[u8])
    ensures { All (λ b. b < 256) bytes.now }
{
    let _length = bytes.len();
}

impl<'d> CollationReordering<'d> {
    ghost use Rattle.icu_table_provider.specs.Reorderings.{Reordering};
    ghost use Rattle.icu_table_provider.specs.StoredTables.{reordering_of};

    /// Borrows the new lead byte for each lead byte, and the ranges by which weights move whose lead byte has a zero
    /// there; of those, weights from `min_high_no_reorder` on stay. Refuses with `Length` if there are not 256 lead
    /// bytes.
    pub fn new(
        min_high_no_reorder: u32,
        reorder_table: &'d [u8],
        reorder_ranges: &'d [u32],
    ) -> Result<CollationReordering<'d>, DataErrorKind>
        ensures accepts { IsOk result ↔ (length reorder_table.entry.now ≡ 256) }
        ensures kind { IfErr result (λ k. k ≡ DataErrorKind.Length) }
        ensures keeps { IfOk result (λ r. reordering_of r ≡ record {
          limit = min_high_no_reorder;
          leads = reorder_table.entry.now;
          ranges = reorder_ranges.entry.now;
        }) }
    {
        if reorder_table.len() != LEAD_COUNT {
            return Err(DataErrorKind::Length);
        }
        Ok(CollationReordering::from_parts(min_high_no_reorder, reorder_table, reorder_ranges))
    }

    /// The reordering of parts that its caller has shown to fit, 256 lead bytes: nothing is checked again.
    pub fn from_parts(
        min_high_no_reorder: u32,
        reorder_table: &'d [u8],
        reorder_ranges: &'d [u32],
    ) -> CollationReordering<'d>
        requires { length reorder_table.now ≡ 256 }
        ensures { reordering_of result ≡ record {
          limit = min_high_no_reorder;
          leads = reorder_table.entry.now;
          ranges = reorder_ranges.entry.now;
        } }
    {
        CollationReordering {
            min_high_no_reorder,
            reorder_table,
            reorder_ranges,
            reached: None,
        }
    }

    /// The limit from which on weights stay, the 256 new lead bytes, and the ranges, as `new` takes them.
    pub fn parts(self) -> (u32, &'d [u8], &'d [u32])
        ensures value { record { limit = result.0; leads = result.1.now; ranges = result.2.now }
            ≡ reordering_of self.entry }
        ensures whole { length result.1.now ≡ 256 }
    {
        (
            self.min_high_no_reorder,
            self.reorder_table,
            self.reorder_ranges,
        )
    }

    /// The new lead bytes are bytes.
    pub fn has_bytes(self)
        ensures { All (λ b. b < 256) (reordering_of self.entry).leads }
    {
        are_bytes(self.reorder_table);
    }

    /// The primary weight that stands for this one. A nonzero byte of the table replaces the lead byte. Where it is
    /// zero, weights 0 and 1 stay, weights from the limit on stay, and others add the low byte of the first range r
    /// with `primary | FFFF < r` to the lead byte, modulo 256; where there is none they stay.
    #[tactic(auto, unfolding(crate::specs::Reorderings::reordered))]
    pub fn reorder(self, primary: u32) -> u32
        ensures value { result ≡ reordered (reordering_of self.entry) primary }
        ensures lead_alone { result % 2 ^ 24 ≡ primary % 2 ^ 24 }
    {
        let lead = self.reorder_table[(primary >> 24) as usize];
        if lead != 0 {
            with_lead(lead, primary)
        } else if primary <= 1 || primary >= self.min_high_no_reorder {
            primary
        } else {
            moved(self.reorder_ranges, self.reached, primary)
        }
    }
}

/// A reordering in vectors of its own.
#[derive(Debug, Drop)]
pub struct OwnedReordering {
    min_high_no_reorder: u32,
    reorder_table: Vec<u8>,
    reorder_ranges: Vec<u32>,
    reached: Vec<u32>,
    ghost whole: { length reorder_table.items ≡ 256 },
    ghost alike: { reached.items ≡ reached_ranges reorder_ranges.items },
}

impl OwnedReordering {
    ghost use Rattle.icu_table_provider.specs.StoredTables.{reordering_of};
    ghost use Rattle.icu_table_provider.specs.OwnedTables.{owned_reordering};

    /// Copies the lead bytes and the ranges, and works out which of these move a weight, so that a reordering of many
    /// ranges finds the one of a weight by halves.
    #[tactic(auto, unfolding(crate::specs::OwnedTables::owned_reordering))]
    pub fn copy(
        alloc: Global,
        reordering: CollationReordering<'_>,
    ) -> Result<OwnedReordering, AllocError>
        ensures { IfOk result (λ o. owned_reordering o ≡ reordering_of reordering.entry) }
    {
        let (min_high_no_reorder, reorder_table, reorder_ranges) = reordering.parts();
        Ok(OwnedReordering {
            min_high_no_reorder,
            reorder_table: Vec::from_slice(alloc, reorder_table)?,
            reorder_ranges: Vec::from_slice(alloc, reorder_ranges)?,
            reached: reached_ranges(alloc, reorder_ranges)?,
        })
    }

    /// The reordering, without a check.
    #[tactic(auto, unfolding(crate::specs::OwnedTables::owned_reordering))]
    pub fn as_reordering(&self) -> CollationReordering<'_>
        ensures { reordering_of result ≡ owned_reordering self.now }
    {
        CollationReordering {
            min_high_no_reorder: self.min_high_no_reorder,
            reorder_table: self.reorder_table.as_slice(),
            reorder_ranges: self.reorder_ranges.as_slice(),
            reached: Some(self.reached.as_slice()),
        }
    }
}
