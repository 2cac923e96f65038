//! Two texts of which no element is variable, on the secondary level from the end and on the tertiary one, in one pass:
//! of elements in step the last pair that differs decides first. No text is read anew.

ghost use Rattle.std.specs.Prelude.{◌≡◌, ℕ, List, IfSome};
ghost use Rattle.std.specs.declared.cmp.Ordering.TheVariants.{Equal};
ghost use Rattle.icu_collator.specs.inner.BackwardInStep.{backward_order, AreAsLong, SecondariesStep, StepsBackward};
ghost use Rattle.icu_collator.specs.inner.FactsInStep.{plain_left};

use crate::forward_levels::Level;
use icu_element_cursor::FactsCursor;
use icu_order_levels::forms::TertiaryForm;
use icu_order_texts::weighting::Handled;
use icu_table_entries::CollationElement;
use icu_table_entries::element::MERGE_SEPARATOR_PRIMARY;
use icu_text_encodings::EncodedText;
use std::cmp::Ordering;

/// How many elements of each text are gone through, at most.
const ELEMENTS_IN_STEP: u32 = 256;

/// The order of two elements by their secondary weights, if both have one or neither, and none is a merge separator.
#[inline(always)]
fn order_of_secondaries(one: CollationElement, other: CollationElement) -> Option<Ordering>
    ensures { IfSome result (λ o. SecondariesStep one other o) }
{
    if one.primary() == MERGE_SEPARATOR_PRIMARY || other.primary() == MERGE_SEPARATOR_PRIMARY {
        return None;
    }
    let weight = one.secondary();
    let other_weight = other.secondary();
    if (weight == 0) != (other_weight == 0) {
        return None;
    }
    Some(weight.cmp(&other_weight))
}

/// The orders of two elements on the secondary and the tertiary level, if they go in step on both.
#[inline(always)]
fn step_backward(
    form: TertiaryForm,
    one: CollationElement,
    other: CollationElement,
) -> Option<(Ordering, Ordering)>
    ensures { IfSome result (λ p. StepsBackward form one other p.0 p.1) }
{
    let second = order_of_secondaries(one, other)?;
    let third = Level::Tertiary(form).order_of_weights(
        &Handled::Stayed(one),
        &Handled::Stayed(other),
    )?;
    Some((second, third))
}

/// The order of two texts on the secondary level, backward, and then on the tertiary one, if they are known and their
/// elements go in step to the ends. `None` says nothing.
pub(crate) fn order_backward<L: EncodedText, R: EncodedText>(
    form: TertiaryForm,
    left: &mut FactsCursor<'_, '_, L>,
    right: &mut FactsCursor<'_, '_, R>,
) -> Option<Ordering>
    ensures { (b d : List ℕ) → IfSome result (λ o.
        AreAsLong (plain_left L.text left.old b) (plain_left R.text right.old d)
        × (o ≡ backward_order form Equal Equal
        (plain_left L.text left.old b) (plain_left R.text right.old d))) }
{
    let mut second = Ordering::Equal;
    let mut third = Ordering::Equal;
    'pairs: for _ in 0..ELEMENTS_IN_STEP {
        let one = left.next_or_end()?;
        let other = right.next_or_end()?;
        match (one, other) {
            (Some(one), Some(other)) => {
                let orders = step_backward(form, one, other)?;
                second = orders.0.then(second);
                third = third.then(orders.1);
            }
            (None, None) => return Some(second.then(third)),
            _ => return None,
        }
    }
    None
}
