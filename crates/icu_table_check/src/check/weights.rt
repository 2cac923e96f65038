//! The weights of reachable elements, level by level, as they are compared with one another.
ghost use Rattle.std.specs.Prelude.{◌≡◌, option_map};
ghost use Rattle.icu_table_provider.specs.StoredTables.{reordering_of};
ghost use Rattle.icu_table_provider.specs.TableSets.{tables_in};
ghost use Rattle.icu_table_check.specs.inner.ComparedWeights.{left_aligned, nonzero, uncommon};
ghost use Rattle.icu_table_check.specs.inner.ComparedLevels.{list_of, overlap_condition, reordering_at};

use crate::check::element_conditions::is_tertiary_element;
use icu_table_data::reachable_weights::Weigh;
use icu_table_entries::CollationElement;
use icu_table_entries::element::COMMON_WEIGHT16;
use icu_table_provider::well_formed::condition::PairCondition;
use icu_table_provider::{CollationReordering, TableSet};

/// A level of weights, none of which may begin another.
#[derive(Clone, Copy)]
pub enum ComparedLevel {
    /// Primary weights.
    Primary,
    /// Secondary weights.
    Secondary,
    /// Tertiary weights.
    Tertiary,
}

/// Which weights are compared with one another.
#[derive(Clone, Copy)]
pub enum WeightList {
    /// Primary weights.
    Primaries,
    /// Secondary weights, but for the common one, with two zero bytes after them.
    Secondaries,
    /// Tertiary weights, but for the common one, with two zero bytes after them.
    Tertiaries,
    /// Tertiary weights of elements without a secondary weight.
    TertiaryElements,
    /// Tertiary weights of elements with a secondary weight, but for the common one.
    WithSecondary,
}

impl ComparedLevel {
    /// Its weights.
    pub(crate) fn list(self) -> WeightList
        ensures { result ≡ list_of self }
    {
        match self {
            ComparedLevel::Primary => WeightList::Primaries,
            ComparedLevel::Secondary => WeightList::Secondaries,
            ComparedLevel::Tertiary => WeightList::Tertiaries,
        }
    }

    /// That none of its weights begins another.
    pub(crate) fn condition(self) -> PairCondition
        ensures { result ≡ overlap_condition self }
    {
        match self {
            ComparedLevel::Primary => PairCondition::Primaries,
            ComparedLevel::Secondary => PairCondition::Secondaries,
            ComparedLevel::Tertiary => PairCondition::Tertiaries,
        }
    }

    /// The reordering by which its weights are compared.
    #[tactic(auto, unfolding(icu_table_provider::specs::TableSets::tables_in))]
    pub(crate) fn reordering<'d>(self, tables: TableSet<'d>) -> Option<CollationReordering<'d>>
        ensures { option_map reordering_of result ≡ reordering_at self (tables_in tables.entry) }
    {
        match self {
            ComparedLevel::Primary => tables.reordering,
            ComparedLevel::Secondary | ComparedLevel::Tertiary => None,
        }
    }
}

/// A weight of two bytes with two zero bytes after it, if it is neither zero nor the common one.
fn left_aligned(weight: u16) -> Option<u32>
    ensures { result ≡ left_aligned weight }
{
    if weight == 0 || weight == COMMON_WEIGHT16 {
        None
    } else {
        Some(u32::from(weight) << 16)
    }
}

/// A primary weight, if it isn't zero.
fn nonzero(primary: u32) -> Option<u32>
    ensures { result ≡ nonzero primary }
{
    if primary == 0 { None } else { Some(primary) }
}

/// A tertiary weight, if it is neither zero nor the common one.
fn uncommon(tertiary: u16) -> Option<u32>
    ensures { result ≡ uncommon tertiary }
{
    if tertiary == 0 || tertiary == COMMON_WEIGHT16 {
        None
    } else {
        Some(u32::from(tertiary))
    }
}

impl Weigh for WeightList {
    ghost use Rattle.icu_table_check.specs.inner.ComparedWeights.{compared_weight};

    ghost weight = { λ list x. compared_weight list x };

    #[tactic(auto, unfolding(crate::specs::inner::ComparedWeights::compared_weight))]
    fn weight(&self, element: CollationElement) -> Option<u32> {
        let tertiary = element.non_primary().tertiary();
        match self {
            WeightList::Primaries => nonzero(element.primary()),
            WeightList::Secondaries => left_aligned(element.secondary()),
            WeightList::Tertiaries => left_aligned(tertiary),
            WeightList::TertiaryElements => {
                if is_tertiary_element(element) {
                    Some(u32::from(tertiary))
                } else {
                    None
                }
            }
            WeightList::WithSecondary => {
                if element.secondary() == 0 {
                    None
                } else {
                    uncommon(tertiary)
                }
            }
        }
    }

    #[tactic(auto, unfolding(crate::specs::inner::ComparedWeights::compared_weight))]
    fn weighs_primaries(&self) -> bool {
        match self {
            WeightList::Primaries => true,
            _ => false,
        }
    }
}
