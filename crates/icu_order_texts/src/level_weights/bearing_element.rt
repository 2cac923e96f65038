//! The element that bears a weight.

ghost use Rattle.std.specs.Prelude.{◌≡◌};
ghost use Rattle.icu_order_texts.specs.level_weights.Weighings.{elements_with, weighing_of};

use crate::level_weights::level_weighing::LevelWeighing;
use icu_table_entries::CollationElement;

/// How many of some elements it takes for a weight behind so many others: up to the element that bears it, or all where
/// none does.
pub fn elements_with(
    weighing: &LevelWeighing<'_>,
    before: usize,
    elements: &[CollationElement],
) -> usize
    ensures { result ≡ elements_with (weighing_of weighing.now) before elements.now }
{
    let mut handles = weighing.handles();
    let mut left = before;
    let mut passed = 0usize;
    for element in elements {
        passed += 1;
        if weighing.next_weight(&mut handles, *element).is_some() {
            if left == 0 {
                return passed;
            }
            left -= 1;
        }
    }
    passed
}
