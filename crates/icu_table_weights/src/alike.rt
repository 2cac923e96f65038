ghost use Rattle.std.specs.Prelude.{◌≡◌, ℕ, ◌<◌, ◌↔◌, ◌&&◌, ◌||◌, ◌==◌, true, false, All, IsTrue};
ghost use Rattle.icu_table_provider.specs.StoredTables.{reordering_of, special_of};
ghost use Rattle.icu_table_provider.specs.well_formed.Leads.{reordered_lead};
ghost use Rattle.icu_table_weights.specs.Alike.{CompressAlike, CompressApart, compressed_at, other_at, mark_of, Marks, HaveCommonMark, HaveNoCommonMark};

use crate::leads::reordered_lead;
use icu_table_provider::{CollationReordering, CollationSpecialPrimaries};

/// A mark for each lead byte that weights come to by reordering: for those with compressible leads, and for the others.
#[derive(Drop)]
struct LeadMarks {
    compressed: [bool; 256],
    other: [bool; 256],
}

/// Marks a lead byte if weights come to it.
fn mark(marks: &mut [bool; 256], lead: u8, comes: bool)
    ensures { (l : ℕ) → l < 256 → mark_of marks.new l
        ≡ (mark_of marks.old l || ((lead == l) && comes)) }
{
    if comes {
        marks[usize::from(lead)] = true;
    }
}

/// The lead bytes that the weights come to.
fn lead_marks(
    primaries: &[u32],
    special: CollationSpecialPrimaries<'_>,
    reordering: CollationReordering<'_>,
) -> LeadMarks
    ensures compressed { Marks (compressed_at (special_of special.entry)
        (reordering_of reordering.entry)) primaries.now result.compressed }
    ensures other { Marks (other_at (special_of special.entry) (reordering_of reordering.entry))
        primaries.now result.other }
    ensures bytes { All
        (λ p. reordered_lead (reordering_of reordering.entry) p < 256) primaries.now }
{
    let mut compressed = [false; 256];
    let mut other = [false; 256];
    for primary in primaries {
        let lead = reordered_lead(reordering, *primary);
        let compresses = special.is_compressible((*primary >> 24) as u8);
        mark(&mut compressed, lead, compresses);
        mark(&mut other, lead, !compresses);
    }
    LeadMarks { compressed, other }
}

/// Whether a lead byte has a mark in both tables.
fn have_common_mark(one: &[bool; 256], other: &[bool; 256]) -> bool
    ensures common { result ≡ true → HaveCommonMark one.now other.now }
    ensures apart { result ≡ false → HaveNoCommonMark one.now other.now }
{
    for lead in 0..256usize {
        if one[lead] && other[lead] {
            return true;
        }
    }
    false
}

/// Whether primary weights that share a lead byte after reordering all have compressible leads, or none of them. It
/// doesn't allocate, and its time is linear in the number of weights.
pub fn compress_alike(
    primaries: &[u32],
    special: CollationSpecialPrimaries<'_>,
    reordering: CollationReordering<'_>,
) -> bool
    ensures alike { IsTrue result ↔ CompressAlike primaries.now (special_of special.entry)
        (reordering_of reordering.entry) }
    ensures apart { result ≡ false → CompressApart primaries.now (special_of special.entry)
        (reordering_of reordering.entry) }
{
    let marks = lead_marks(primaries, special, reordering);
    !have_common_mark(&marks.compressed, &marks.other)
}
