ghost use Rattle.std.specs.Prelude.{◌≡◌};
ghost use Rattle.icu_table_entries.specs.Elements.{Element};
ghost use Rattle.icu_table_provider.specs.well_formed.Leads.{is_middle};
ghost use Rattle.icu_table_provider.specs.TableSets.{tables_in};
ghost use Rattle.icu_table_provider.specs.well_formed.ElementConditions.{is_tertiary_element, is_high_tertiary_element, has_low_bytes, has_second_byte, primary_meets, reachable_element_meets};

use crate::check::lookups::is_apart;
use icu_table_entries::CollationElement;
use icu_table_entries::element::COMMON_WEIGHT16;
use icu_table_provider::TableSet;
use icu_table_provider::reordering::lead_byte;
use icu_table_provider::well_formed::condition::ReachableElementCondition;
use icu_table_weights::leads::is_middle;

/// The lead byte of implicit weights.
pub(crate) const IMPLICIT_LEAD: u8 = 0xFE;

/// Whether the element has a tertiary weight and no secondary weight.
#[inline(always)]
pub(crate) fn is_tertiary_element(element: CollationElement) -> bool
    ensures { result ≡ is_tertiary_element element }
{
    element.secondary() == 0 && element.non_primary().tertiary() != 0
}

/// Whether it is in upper case, and its tertiary weight greater than the common one.
#[inline(always)]
fn is_high_tertiary_element(element: CollationElement) -> bool
    ensures { result ≡ is_high_tertiary_element element }
{
    element.non_primary().case() == 0x8000 && element.non_primary().tertiary() > COMMON_WEIGHT16
}

#[inline(always)]
fn has_low_bytes(primary: u32) -> bool
    ensures { result ≡ has_low_bytes primary }
{
    primary >> 16 & 0xFF != 0 && primary >> 8 & 0xFF != 0 && primary & 0xFF != 0
}

#[inline(always)]
pub(crate) fn has_second_byte(primary: u32) -> bool
    ensures { result ≡ has_second_byte primary }
{
    let second = primary >> 16 & 0xFF;
    second >= 4 && second <= 0xFE
}

/// Whether a nonzero primary weight meets a condition on one element.
#[tactic(auto, unfolding(icu_table_provider::specs::TableSets::tables_in))]
#[inline(always)]
fn primary_meets(tables: TableSet<'_>, condition: ReachableElementCondition, primary: u32) -> bool
    ensures { result ≡ primary_meets condition (tables_in tables.entry) primary }
{
    let lead = lead_byte(primary);
    match condition {
        ReachableElementCondition::MiddleLead => {
            !is_middle(lead) || is_middle(lead_byte(tables.reorder(primary)))
        }
        ReachableElementCondition::ImplicitLength => lead != IMPLICIT_LEAD
            || has_low_bytes(primary),
        ReachableElementCondition::NumericLead => lead != tables.special.numeric_primary(),
        ReachableElementCondition::SharedLead => {
            is_apart(tables, IMPLICIT_LEAD, primary)
                && is_apart(tables, tables.special.numeric_primary(), primary)
        }
        ReachableElementCondition::SecondByte => {
            !tables.special.is_compressible(lead) || has_second_byte(primary)
        }
        ReachableElementCondition::Width
        | ReachableElementCondition::BackwardLead
        | ReachableElementCondition::TertiaryElement => true,
    }
}

/// Whether the element meets a condition on one.
#[inline(always)]
pub(crate) fn element_meets(
    tables: TableSet<'_>,
    condition: ReachableElementCondition,
    element: CollationElement,
) -> bool
    ensures { result ≡ reachable_element_meets condition (tables_in tables.entry) element }
{
    match condition {
        ReachableElementCondition::Width => true,
        ReachableElementCondition::BackwardLead => {
            tables.is_forward() || element.secondary() >> 8 != 2
        }
        ReachableElementCondition::TertiaryElement => {
            !is_tertiary_element(element) || is_high_tertiary_element(element)
        }
        _ => element.primary() == 0 || primary_meets(tables, condition, element.primary()),
    }
}
