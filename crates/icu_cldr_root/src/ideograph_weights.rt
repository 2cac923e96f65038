//! The primary weights of ideographs, which the file leaves to its reader.
ghost use Rattle.std.specs.Prelude.{◌≡◌, ◌+◌, ◌-◌, ◌*◌, ◌%◌, ◌<◌, ◌≤◌, false, Some, IfSome, IfOk};
ghost use Rattle.std.specs.Bool.{OnTrue};
ghost use Rattle.icu_table_entries.specs.Weights.{weight_at};
ghost use Rattle.icu_cldr_root.specs.IdeographOrder.{first_ideograph_lead, first_ordinal, ideograph_count};
ghost use Rattle.icu_cldr_root.specs.inner.RangePlaces.{Finds};

use crate::CharRange;
use crate::error::{LineErrorKind, UnnumberedError};
use crate::range_places::places_of;
use std::alloc::Global;

/// The lead byte of implicit weights.
pub(crate) const IMPLICIT_LEAD: u32 = 0xFE;

/// The least lead byte that ideographs may have.
const LEAST_LEAD: u32 = 0x80;

/// How many weights of three bytes have the same lead byte.
const WEIGHTS_PER_LEAD: u32 = 254 * 254;

/// How many weights of three bytes an ideograph takes: its own, and one that is left for tailorings.
pub(crate) const STEP: u32 = 2;

/// Ideographs that follow one another, and the ordinal of the first one's weight among all weights of three bytes.
#[derive(Clone, Copy, PartialEq)]
pub(crate) struct WeightedRange {
    pub(crate) range: CharRange,
    pub(crate) ordinal: u32,
}

/// The ideographs in the order of their weights. These have three bytes each, and stand just below the implicit
/// weights, in as many lead bytes as that takes.
#[derive(Drop)]
pub(crate) struct IdeographWeights {
    ranges: Vec<WeightedRange>,
    /// Of each code the number of the first range that has it, from 1 on, or 0.
    places: Vec<u32>,
    ghost finds: { Finds places.items ranges.items },
}

/// The weight of three bytes with an ordinal.
#[tactic(auto, unfolding(icu_table_entries::specs::Weights::weight_at))]
pub(crate) fn weight_at(ordinal: u32) -> u32
    requires { ordinal < 0xFE * 64516 }
    ensures value { result ≡ weight_at false ordinal }
    ensures three_bytes { result % 256 ≡ 0 }
    ensures bound { result < 0xFE000000 }
{
    let lead = ordinal / 254 / 254;
    let second = ordinal / 254 % 254 + 2;
    let third = ordinal % 254 + 2;
    lead * 0x100_0000 + second * 0x1_0000 + third * 0x100
}

/// How many characters a range has.
pub(crate) fn char_count(range: CharRange) -> u32
    ensures { result + range.first ≡ range.last + 1 }
{
    range.last as u32 - range.first as u32 + 1
}

/// How many characters ranges have, unless they are too many to be counted.
fn count(ranges: &[CharRange]) -> Option<u32>
    ensures { IfSome result (λ n. n ≡ ideograph_count ranges.now) }
{
    let mut count = 0u32;
    for range in ranges {
        count = count.checked_add(char_count(*range))?;
    }
    Some(count)
}

/// The lead byte of the first ideograph of so many; one weight is left before and after them.
fn first_lead(count: u32) -> Option<u32>
    ensures value { IfSome result (λ lead. lead ≡ first_ideograph_lead count) }
    ensures bounds { IfSome result (λ lead. (0x80 ≤ lead) × (lead < 0xFE)) }
    ensures room { IfSome result (λ lead. 64516 * lead + 2 * count < 0xFE * 64516) }
{
    let weights = count.checked_mul(STEP)?.checked_add(STEP + 2)?;
    let leads = (weights - 1) / WEIGHTS_PER_LEAD + 1;
    if leads > IMPLICIT_LEAD - LEAST_LEAD {
        return None;
    }
    Some(IMPLICIT_LEAD - leads)
}

/// The ordinal of the first weight of ranges, if they fit below the implicit weights.
fn first_ordinal(ranges: &[CharRange]) -> Option<u32>
    ensures value { IfSome result (λ o. o ≡ first_ordinal ranges.now) }
    ensures room { IfSome result (λ o. o + 2 * ideograph_count ranges.now < 0xFE * 64516) }
{
    let lead = first_lead(count(ranges)?)?;
    Some(lead * WEIGHTS_PER_LEAD)
}

impl IdeographWeights {
    ghost use Rattle.icu_cldr_root.specs.Ideographs.{primary_in, HasNoIdeographs};
    ghost use Rattle.icu_cldr_root.specs.inner.WeightedRanges.{HasIdeographs};

    /// No ideographs.
    pub(crate) fn new(alloc: Global) -> IdeographWeights
        ensures { HasNoIdeographs result }
    {
        IdeographWeights {
            ranges: Vec::new(alloc),
            places: Vec::new(alloc),
        }
    }

    /// Whether there are none.
    pub(crate) fn is_empty(&self) -> bool
        ensures { OnTrue result (HasNoIdeographs self.now) }
    {
        self.ranges.is_empty()
    }

    /// Gives the ideographs of ranges their weights, in this order.
    pub(crate) fn assign(
        alloc: Global,
        ranges: &[CharRange],
    ) -> Result<IdeographWeights, UnnumberedError>
        ensures { IfOk result (λ w. HasIdeographs w ranges.now) }
    {
        let Some(mut ordinal) = first_ordinal(ranges) else {
            return Err(UnnumberedError::Refused(LineErrorKind::FewerIdeographs));
        };
        let mut weighted = Vec::new(alloc);
        for range in ranges {
            let range = *range;
            weighted.push(WeightedRange { range, ordinal })?;
            ordinal = ordinal.saturating_add(char_count(range).saturating_mul(STEP));
        }
        let places = places_of(alloc, weighted.as_slice())?;
        Ok(IdeographWeights {
            ranges: weighted,
            places,
        })
    }

    /// The ranges.
    pub(crate) fn ranges(&self) -> &[WeightedRange]
        ensures { result.now ≡ self.now.ranges.items }
    {
        self.ranges.as_slice()
    }

    /// The primary weight of an ideograph, if it is one of these.
    pub(crate) fn primary(&self, c: char) -> Option<u32>
        ensures { IfSome result (λ p. primary_in self.now c ≡ Some p) }
    {
        let place = self.places.get(c as usize).copied()?.checked_sub(1)?;
        self.ranges.get(place as usize)?.primary(c)
    }
}

impl WeightedRange {
    ghost use Rattle.icu_cldr_root.specs.RangeWeights.{ideograph_weight_in};

    /// The primary weight of a character of the range.
    pub(crate) fn primary(self, c: char) -> Option<u32>
        ensures weight { IfSome result (λ p. p ≡ ideograph_weight_in self c) }
        ensures room { IfSome result (λ _.
            self.ordinal + 2 * (c - self.range.first) < 0xFE * 64516) }
        ensures bound { IfSome result (λ p. p < 0xFE000000) }
        ensures three_bytes { IfSome result (λ p. p % 256 ≡ 0) }
    {
        let past = (c as u32).saturating_sub(self.range.first as u32);
        let ordinal = self.ordinal.checked_add(past * STEP)?;
        if ordinal < IMPLICIT_LEAD * WEIGHTS_PER_LEAD {
            Some(weight_at(ordinal))
        } else {
            None
        }
    }
}
