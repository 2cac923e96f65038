//! What relations do to the elements of a rule.
ghost use Rattle.std.specs.Prelude.{◌≡◌, ◌≤◌, ◌++◌, ◌∷◌, [], length, take, OnOk};
ghost use Rattle.icu_rule_meaning.specs.SymbolicElements.{element_with, to_all_levels};
ghost use Rattle.icu_rule_meaning.specs.Steps.{counting_at, last_element, with_last_element};

use crate::weight_tree::lists::common_weight;
use crate::{SymbolicElement, SymbolicWeight};
use std::alloc::AllocError;

/// The weights of a level and the levels before it, with common ones below.
fn to_four(above: &[SymbolicWeight], w: SymbolicWeight) -> [SymbolicWeight; 4]
    requires { length above.now ≤ 3 }
    ensures { result ≡ to_all_levels (above.now ++ w ∷ []) }
{
    let common = SymbolicWeight::Rooted(0);
    match above {
        [] => {
            let s = common_weight(&[w]);
            [w, s, common_weight(&[w, s]), common]
        }
        [p] => [*p, w, common_weight(&[*p, w]), common],
        [p, s] => [*p, *s, w, common],
        [p, s, t] => [*p, *s, *t, w],
        _ => unreachable!(),
    }
}

/// The element of a weight below others, with common ones below it.
pub(crate) fn make_element(
    above: &[SymbolicWeight],
    w: SymbolicWeight,
    strength: u8,
) -> SymbolicElement
    requires { length above.now ≤ 3 }
    ensures { result ≡ element_with (above.now ++ w ∷ []) strength }
{
    SymbolicElement {
        weights: to_four(above, w),
        strength,
        case_bits: 0,
    }
}

/// The last of the elements; of none, the one that is ignorable.
pub fn last_or_ignorable(elements: &[SymbolicElement]) -> SymbolicElement
    ensures { result ≡ last_element elements.now }
{
    let count = elements.len();
    if count == 0 {
        return make_element(&[], SymbolicWeight::Rooted(0), 5);
    }
    elements[count - 1]
}

/// How many elements there are up to the last one that counts at a level.
fn counting_len(elements: &[SymbolicElement], level: u8) -> usize
    ensures most { result ≤ length elements.now }
    ensures taken { take result elements.now ≡ counting_at level elements.now }
{
    let mut kept = elements.len();
    while 0 < kept && elements[kept - 1].strength > level {
        kept -= 1;
    }
    kept
}

/// The elements up to the last one that counts at a level.
pub fn counting_at(elements: &[SymbolicElement], level: u8) -> &[SymbolicElement]
    ensures { result.now ≡ counting_at level elements.now }
{
    &elements[..counting_len(elements, level)]
}

/// Drops the last elements that don't count at a level.
pub(crate) fn keep_counting(elements: &mut Vec<SymbolicElement>, level: u8)
    ensures { elements.new.items ≡ counting_at level elements.old.items }
{
    elements.truncate(counting_len(elements.as_slice(), level));
}

/// Puts another element in the place of the last.
pub(crate) fn set_last(
    elements: &mut Vec<SymbolicElement>,
    last: SymbolicElement,
) -> Result<(), AllocError>
    ensures { OnOk result (elements.new.items ≡ with_last_element elements.old.items last) }
{
    let _ = elements.pop();
    elements.push(last)?;
    Ok(())
}
