//! The weights that a level has for elements.

ghost use Rattle.std.specs.Prelude.{◌≡◌, IfOk};
ghost use Rattle.icu_order_texts.specs.level_weights.Weighings.{element_weights, weighing_of};

use crate::level_weights::level_weighing::LevelWeighing;
use icu_table_entries::CollationElement;
use std::alloc::{AllocError, Global};

/// The weights that a level has for elements, in the order of the elements: none at the identical level, which has
/// characters.
///
/// # Errors
///
/// Fails only where an allocation does.
pub fn element_weights(
    alloc: Global,
    weighing: &LevelWeighing<'_>,
    elements: &[CollationElement],
) -> Result<Vec<u64>, AllocError>
    ensures { IfOk result (λ list. list.items
        ≡ element_weights (weighing_of weighing.now) elements.now) }
{
    let mut list = Vec::new(alloc);
    let mut handles = weighing.handles();
    for element in elements {
        if let Some(weight) = weighing.next_weight(&mut handles, *element) {
            list.push(weight)?;
        }
    }
    Ok(list)
}
