//! Gaps for the tailored primary weights of runs.
ghost use Rattle.std.specs.Prelude.{◌≡◌, ◌↔◌, true, IfOk};
ghost use Rattle.icu_table_provider.specs.StoredTables.{special_of};
ghost use Rattle.icu_rule_weights.specs.PrimaryRuns.{HasCompressible, IsFormFor, IsPrimaryGapOf, ArePrimaryGapsOf};

use crate::primary_gaps::PrimaryGap;
use crate::sibling_run::SiblingRun;
use crate::weight_gaps::{ByteRange, WeightForm, WeightGap};
use icu_table_provider::CollationSpecialPrimaries;
use std::alloc::{AllocError, Global};

/// Whether sort keys write weights shorter that have one of the lead bytes between those of two weights.
fn has_compressible(special: CollationSpecialPrimaries<'_>, low: u32, high: u32) -> bool
    ensures { (result ≡ true) ↔ HasCompressible (special_of special.entry) low high }
{
    let last = high / 0x100_0000;
    for lead in low / 0x100_0000..last + 1 {
        if special.is_compressible(lead as u8) {
            return true;
        }
    }
    false
}

/// How primary weights between two others are written: with two bytes at least, where a lead byte is compressible, and
/// second bytes from 04 to FE, which leaves room for what sort keys write in their place.
pub fn primary_form(special: CollationSpecialPrimaries<'_>, low: u32, high: u32) -> WeightForm
    ensures { IsFormFor (special_of special.entry) low high result }
{
    if has_compressible(special, low, high) {
        WeightForm {
            shortest: 2,
            longest: 4,
            seconds: ByteRange {
                least: 4,
                greatest: 0xFE,
            },
        }
    } else {
        WeightForm {
            shortest: 1,
            longest: 4,
            seconds: ByteRange {
                least: 2,
                greatest: 0xFF,
            },
        }
    }
}

/// The gap for the tailored primary weights of a run. Behind the last weight of the root `limit` is above them.
fn primary_gap_of(
    special: CollationSpecialPrimaries<'_>,
    limit: u32,
    run: SiblingRun<'_>,
) -> PrimaryGap
    ensures { IsPrimaryGapOf (special_of special.entry) limit run.entry result }
{
    let low = run.rooted;
    let high = run.next.unwrap_or(limit);
    PrimaryGap {
        gap: WeightGap {
            low,
            high,
            form: primary_form(special, low, high),
        },
        count: run.tailored.len(),
    }
}

/// The gaps for the tailored primary weights of runs. Behind the last weight of the root `limit` is above them.
pub fn primary_gaps_of_runs(
    alloc: Global,
    special: CollationSpecialPrimaries<'_>,
    limit: u32,
    runs: &[SiblingRun<'_>],
) -> Result<Vec<PrimaryGap>, AllocError>
    ensures { IfOk result (λ gaps.
        ArePrimaryGapsOf (special_of special.entry) limit runs.now gaps.items) }
{
    let mut gaps = Vec::new(alloc);
    for run in runs {
        gaps.push(primary_gap_of(special, limit, *run))?;
    }
    Ok(gaps)
}
