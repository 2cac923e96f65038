//! What each level has for an element. Comparisons and keys take each weight by the same function.

ghost use Rattle.std.specs.Prelude.{◌≡◌, ◌≢◌, ◌<◌, ◌^◌, ◌/◌, bit_and, option_map};
ghost use Rattle.icu_table_entries.specs.Elements.{quaternary_mask};
ghost use Rattle.icu_order_levels.specs.Tertiaries.{moved_tertiary};
ghost use Rattle.icu_table_provider.specs.CollatorTables.{reorder_by};
ghost use Rattle.icu_table_provider.specs.StoredTables.{reordering_of};
ghost use Rattle.icu_order_texts.specs.weighting.Levels.{case_reads, case_rank, masked_tertiary, tertiary_in};

use icu_order_levels::forms::{CaseForm, SecondaryForm, TertiaryForm};
use icu_table_entries::CollationElement;
use icu_table_provider::CollationReordering;

/// A lower half with its case bits and without its quaternary.
const CASED_MASK: u16 = 0xFF3F;

/// The case bits.
const CASE_MASK: u16 = 0xC000;

/// The quaternary bits.
const QUATERNARY_MASK: u16 = 0xC0;

/// A primary weight as it is compared: reordered, where there is a reordering (UTS #35 part 5, "Collation Reordering").
#[inline(always)]
pub fn reordered(reordering: Option<CollationReordering<'_>>, primary: u32) -> u32
    ensures { result ≡ reorder_by (option_map reordering_of reordering.entry) primary }
{
    match reordering {
        Some(reordering) => reordering.reorder(primary),
        None => primary,
    }
}

/// What the case level reads of an element: a case counts where the element has a weight of the last level before.
#[inline]
pub fn case_read(before: Option<SecondaryForm>, element: CollationElement) -> u32
    ensures { result ≡ case_reads before element }
{
    match before {
        None => element.primary(),
        Some(_) => u32::from(element.secondary()),
    }
}

/// The case of an element: 0 is lower case or none, 1 mixed, 2 upper.
#[inline]
pub fn case_number(element: CollationElement) -> u16
    ensures { result ≡ element.lower / 0x4000 }
{
    element.non_primary().tertiary_case_quarternary(0xFFFF) >> 14
}

/// Where the case of an element stands among the three (UTS #35 part 5, "Case Parameters").
#[inline]
pub fn case_rank(form: CaseForm, element: CollationElement) -> u64
    ensures { result ≡ case_rank form element }
{
    let number = u64::from(case_number(element));
    match form {
        CaseForm::LowerFirst => number,
        CaseForm::UpperFirst => 2u64.saturating_sub(number),
    }
}

/// What a form of the tertiary level reads of an element.
#[inline(always)]
pub fn masked_tertiary(form: TertiaryForm, element: CollationElement) -> u16
    ensures { result ≡ masked_tertiary form element }
{
    let weights = element.non_primary();
    match form {
        TertiaryForm::WithoutCase => weights.tertiary(),
        TertiaryForm::LowerFirst => weights.tertiary_case_quarternary(CASED_MASK),
        TertiaryForm::UpperFirst => weights.tertiary_case_quarternary(CASED_MASK),
    }
}

/// What a form of the tertiary level has for an element. Upper case first inverts the case bits; an element with a
/// tertiary weight alone comes after all others. Where the case bits aren't 11, the weight fits 16 bits in each form.
#[inline(always)]
pub fn tertiary_weight(form: TertiaryForm, element: CollationElement) -> u32
    ensures value { result ≡ tertiary_in form element }
    ensures some { element.lower < 0xC000 → masked_tertiary form element ≢ 0 → result ≢ 0 }
    ensures short { element.lower < 0xC000 → result < 2 ^ 16 }
    ensures fits { element.lower < 0xC000 → moved_tertiary form result < 2 ^ 16 }
{
    let masked = masked_tertiary(form, element);
    match form {
        TertiaryForm::WithoutCase | TertiaryForm::LowerFirst => u32::from(masked),
        TertiaryForm::UpperFirst => {
            if element.secondary() == 0 {
                u32::from(masked) + 0x4000
            } else {
                u32::from(masked ^ CASE_MASK)
            }
        }
    }
}

/// The quaternary bits of an element, as a number.
#[inline]
pub fn quaternary_number(element: CollationElement) -> u8
    ensures value { result ≡ bit_and element.lower quaternary_mask / 64 }
    ensures bounded { result < 4 }
{
    let bits = element
        .non_primary()
        .tertiary_case_quarternary(QUATERNARY_MASK);
    (bits >> 6) as u8
}
