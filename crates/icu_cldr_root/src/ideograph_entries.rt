//! The entries of ideographs.
ghost use Rattle.std.specs.Prelude.{◌≡◌, ◌==◌, ℕ, false, OnOk};
ghost use Rattle.std.specs.Char.{IsScalar};
ghost use Rattle.icu_table_provider.specs.builder.Building.{built_data};
ghost use Rattle.icu_cldr_root.specs.RangeWeights.{ideograph_weight_in, primary_among};
ghost use Rattle.icu_cldr_root.specs.Unmapped.{GivesWeight};
ghost use Rattle.icu_cldr_root.specs.inner.IdeographValues.{GivesOrKeeps, SetsRange};
ghost use Rattle.icu_table_mappings.specs.GrownLists.{HasMoreLists};

use crate::error::{LineErrorKind, UnnumberedError};
use crate::ideograph_weights::{STEP, WeightedRange, char_count};
use icu_table_entries::{CollationElement, CollationElement32, INDEX_COUNT};
use icu_table_provider::builder::DataBuilder;

/// How many ideographs have entries of their own where there are no more together.
const FEW_IDEOGRAPHS: u32 = 8;

/// Gives an ideograph of a range an entry of its own, if the code is a character's.
#[tactic(auto, using(icu_table_mappings::proofs::GrownListLemmas::lists_itself))]
fn set_one(
    builder: &mut DataBuilder,
    weighted: WeightedRange,
    code: u32,
) -> Result<(), UnnumberedError>
    ensures lists { OnOk result (HasMoreLists (built_data builder.old) (built_data builder.new)) }
    ensures here { OnOk result (IsScalar code → let d = built_data builder.new in
        GivesWeight d (d.value code) code (ideograph_weight_in weighted code)) }
    ensures others { OnOk result ((x : ℕ) → (code == x) ≡ false
        → (built_data builder.new).value x ≡ (built_data builder.old).value x) }
{
    let Some(c) = char::from_u32(code) else {
        return Ok(());
    };
    let Some(primary) = weighted.primary(c) else {
        return Err(UnnumberedError::Refused(LineErrorKind::FewerIdeographs));
    };
    builder.set_entry(c, CollationElement32::long_primary(primary));
    Ok(())
}

/// Gives a range of ideographs entries of their own.
fn set_few(builder: &mut DataBuilder, weighted: WeightedRange) -> Result<(), UnnumberedError>
    ensures lists { OnOk result (HasMoreLists (built_data builder.old) (built_data builder.new)) }
    ensures sets { OnOk result (SetsRange (built_data builder.old) (built_data builder.new)
        weighted) }
{
    let range = weighted.range;
    for code in range.first as u32..range.last as u32 + 1 {
        set_one(builder, weighted, code)?;
    }
    Ok(())
}

/// Gives a range of ideographs one entry, by which each has its weight.
fn set_offset(builder: &mut DataBuilder, weighted: WeightedRange) -> Result<(), UnnumberedError>
    ensures lists { OnOk result (HasMoreLists (built_data builder.old) (built_data builder.new)) }
    ensures sets { OnOk result (SetsRange (built_data builder.old) (built_data builder.new)
        weighted) }
{
    let range = weighted.range;
    let (Some(primary), Some(_)) = (weighted.primary(range.first), weighted.primary(range.last))
    else {
        return Err(UnnumberedError::Refused(LineErrorKind::FewerIdeographs));
    };
    let data = CollationElement::offset_data(primary, range.first, false, STEP as u8);
    let index = builder.add_elements(&[data])?;
    if index >= INDEX_COUNT {
        return Err(UnnumberedError::Refused(LineErrorKind::FullTables));
    }
    builder.set_entries(range.first, range.last, CollationElement32::offset(index));
    Ok(())
}

/// Gives a range of ideographs their entries.
fn set_range(builder: &mut DataBuilder, weighted: WeightedRange) -> Result<(), UnnumberedError>
    ensures lists { OnOk result (HasMoreLists (built_data builder.old) (built_data builder.new)) }
    ensures sets { OnOk result (SetsRange (built_data builder.old) (built_data builder.new)
        weighted) }
{
    if char_count(weighted.range) < FEW_IDEOGRAPHS {
        set_few(builder, weighted)
    } else {
        set_offset(builder, weighted)
    }
}

/// Gives ranges of ideographs their entries, the last range first: an ideograph of two has the weight by the first.
pub(crate) fn set_ideographs(
    builder: &mut DataBuilder,
    ranges: &[WeightedRange],
) -> Result<(), UnnumberedError>
    ensures lists { OnOk result (HasMoreLists (built_data builder.old) (built_data builder.new)) }
    ensures gives { OnOk result ((x : ℕ) → IsScalar x → GivesOrKeeps (built_data builder.old)
        (built_data builder.new) x (primary_among ranges.now x)) }
{
    for index in (0..ranges.len()).rev() {
        set_range(builder, ranges[index])?;
    }
    Ok(())
}
