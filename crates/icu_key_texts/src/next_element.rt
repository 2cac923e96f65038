//! Elements for a key, one at a time.

ghost use Rattle.std.specs.Prelude.{◌≡◌, IfOk, IfErr};
ghost use Rattle.icu_order_texts.specs.weighting.HandledSources.{GivesNext};

use icu_key_writers::SortKeyError;
use icu_order_texts::weighting::{Handled, HandledSource};
use std::alloc::AllocError;

/// The next element, with the error of a key.
#[inline(always)]
pub(crate) fn next_element<H: HandledSource<Error = AllocError>, E>(
    elements: &mut H,
) -> Result<Option<Handled>, SortKeyError<E>>
    ensures next { IfOk result
        (λ next. GivesNext (H.handled_left elements.old) next (H.handled_left elements.new)) }
    ensures memory { IfErr result (λ error. error ≡ SortKeyError.NoMemory) }
{
    Ok(elements.next_handled()?)
}
