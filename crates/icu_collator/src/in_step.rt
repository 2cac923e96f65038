//! Two texts gone through in step, and three levels compared in one pass as far as their elements go so.

ghost use Rattle.std.specs.Prelude.{◌≡◌, ◌≤◌, List, length, IfOk, IfSome, MatchOption, None};
ghost use Rattle.std.specs.declared.cmp.Ordering.TheVariants.{Equal};
ghost use Rattle.icu_order_texts.specs.weighting.Handled.{HandledElement};
ghost use Rattle.icu_collator.specs.inner.InStep.{from_first, order_on, order_from, three_order, three_levels, StepsBy, StepBoth};

use crate::forward_levels::Level;
use icu_order_levels::forms::TertiaryForm;
use icu_order_texts::weighting::{Handled, HandledSource};
use std::cmp::Ordering;

/// Elements that two sources gave last: none of a source that has ended.
pub(crate) type Pair = (Option<Handled>, Option<Handled>);

/// Goes past the elements that both sources give, and returns the first that differ, or none where both have ended.
/// Stops where a source does.
#[inline]
pub(crate) fn first_difference<L: HandledSource, R: HandledSource<Error = L::Error>>(
    left: &mut L,
    right: &mut R,
) -> Result<Option<Pair>, L::Error>
    ensures same { IfOk result
        (λ found. found ≡ None → L.handled_left left.old ≡ R.handled_left right.old) }
    ensures rest { IfOk result (λ found. IfSome found (λ p. (level : Level) →
        order_on level (L.handled_left left.old) (R.handled_left right.old)
        ≡ order_from level p.0 p.1 (L.handled_left left.new) (R.handled_left right.new))) }
    ensures smaller { IfOk result (λ found. IfSome found (λ p.
        length (from_first p.0 (L.handled_left left.new)) ≤ length (L.handled_left left.old))) }
{
    'pairs: loop {
        let one = left.next_handled()?;
        let other = right.next_handled()?;
        match (one, other) {
            (Some(element), Some(its_pair)) => {
                if element != its_pair {
                    return Ok(Some((one, other)));
                }
            }
            (None, None) => return Ok(None),
            _ => return Ok(Some((one, other))),
        }
    }
}

/// Compares two sources on one level from their first elements that differ. `Some(Equal)` where the sources have the
/// same elements; `None` where the level ties though elements differ. Stops where a source does.
pub(crate) fn compare_from_difference<L: HandledSource, R: HandledSource<Error = L::Error>>(
    level: Level<'_>,
    left: &mut L,
    right: &mut R,
) -> Result<Option<Ordering>, L::Error>
    ensures same { IfOk result (λ found.
        IfSome found (λ o. o ≡ Equal → L.handled_left left.old ≡ R.handled_left right.old)) }
    ensures order { IfOk result (λ found. MatchOption found
        (order_on level.entry (L.handled_left left.old) (R.handled_left right.old) ≡ Equal)
        (λ o. o ≡ order_on level.entry (L.handled_left left.old) (R.handled_left right.old))) }
{
    match first_difference(left, right)? {
        Some(pair) => {
            let order = level.compare_from(pair.0, pair.1, left, right)?;
            if order == Ordering::Equal {
                Ok(None)
            } else {
                Ok(Some(order))
            }
        }
        None => Ok(Some(Ordering::Equal)),
    }
}

/// The order of two elements on the tertiary level, where they tie on the first and the secondary one, and both have a
/// tertiary weight, or neither has.
#[inline(always)]
pub(crate) fn order_of_pair(
    first: Level<'_>,
    form: TertiaryForm,
    one: &Handled,
    other: &Handled,
) -> Option<Ordering>
    ensures { IfSome result (λ o. StepsBy (three_levels first.entry form) one.now other.now o) }
{
    if !first.ties(one, other) || !Level::Secondary.ties(one, other) {
        return None;
    }
    Level::Tertiary(form).order_of_weights(one, other)
}

/// The order on the tertiary level of what two sources gave, if both gave an element, and those tie on the first and
/// the secondary level.
#[inline(always)]
fn order_of_both(
    first: Level<'_>,
    form: TertiaryForm,
    one: &Option<Handled>,
    other: &Option<Handled>,
) -> Option<Ordering>
    ensures { IfSome result (λ o. StepBoth (three_levels first.entry form) one.now other.now o) }
{
    match (*one, *other) {
        (Some(one), Some(other)) => order_of_pair(first, form, &one, &other),
        _ => None,
    }
}

/// Compares two sources on the first level, then in the same pass on the secondary and the tertiary one. `None` where
/// the first level ties and the others have to be compared by passes of their own. Stops where a source does.
pub(crate) fn compare_in_step<L: HandledSource, R: HandledSource<Error = L::Error>>(
    first: Level<'_>,
    form: TertiaryForm,
    left: &mut L,
    right: &mut R,
) -> Result<Option<Ordering>, L::Error>
    ensures { IfOk result (λ found. MatchOption found
        (order_on first.entry (L.handled_left left.old) (R.handled_left right.old) ≡ Equal)
        (λ o. o ≡ three_order (three_levels first.entry form) Equal (L.handled_left left.old)
        (R.handled_left right.old))) }
{
    let mut third = Ordering::Equal;
    'pairs: loop {
        let Some((one, other)) = first_difference(left, right)? else {
            return Ok(Some(third));
        };
        match order_of_both(first, form, &one, &other) {
            Some(order) => third = third.then(order),
            None => return compare_out_of_step(first, form, (one, other), left, right),
        }
    }
}

/// The order from elements on that aren't in step: the rest of the first level decides, or, where it ties, these
/// elements on the secondary one.
fn compare_out_of_step<L: HandledSource, R: HandledSource<Error = L::Error>>(
    first: Level<'_>,
    form: TertiaryForm,
    pair: Pair,
    left: &mut L,
    right: &mut R,
) -> Result<Option<Ordering>, L::Error>
    ensures { IfOk result (λ found. MatchOption found
        (order_from first.entry pair.0 pair.1 (L.handled_left left.old) (R.handled_left right.old)
        ≡ Equal)
        (λ o. (third : Ordering) → o ≡ three_order (three_levels first.entry form) third
        (from_first pair.0 (L.handled_left left.old))
        (from_first pair.1 (R.handled_left right.old)))) }
{
    let (one, other) = pair;
    let decided = Level::Secondary.decide(&one, &other);
    let order = first.compare_from(one, other, left, right)?;
    if order == Ordering::Equal {
        Ok(decided)
    } else {
        Ok(Some(order))
    }
}
