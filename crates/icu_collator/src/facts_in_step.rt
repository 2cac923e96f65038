//! Two texts gone through in step by what is kept of their characters, where no element is variable: no text is read
//! anew, and no cursor is made that may allocate.

ghost use Rattle.std.specs.Prelude.{◌≡◌, ◌≤◌, ℕ, List, Option, None, IfSome};
ghost use Rattle.std.specs.declared.cmp.Ordering.TheVariants.{Equal};
ghost use Rattle.icu_order_levels.specs.ListOrder.{list_order};
ghost use Rattle.icu_collator.specs.inner.InStep.{from_first, order_from, order_on, three_order, three_levels, StepBoth, StepsBy};
ghost use Rattle.icu_collator.specs.inner.FactsInStep.{AreCut, PassesCommon, StepsOn, WeighsOn, plain_left, weights_from};
ghost use Rattle.icu_element_cursor.specs.FactsCursors.{ReadsText, facts_reading};
ghost use Rattle.icu_table_provider.specs.declared.reordering.CollationReordering.{CollationReordering};
ghost use Rattle.icu_order_texts.specs.declared.weighting.handled_element.Handled.TheVariants.{Stayed};
ghost use Rattle.icu_collator.specs.declared.forward_levels.Level.TheVariants.{Primary};

use crate::forward_levels::Level;
use crate::in_step::Pair;
use icu_element_cursor::FactsCursor;
use icu_order_levels::forms::TertiaryForm;
use icu_order_texts::weighting::Handled;
use icu_table_entries::CollationElement;
use icu_table_provider::CollationReordering;
use icu_text_encodings::{CommonUnits, EncodedText};
use std::cmp::Ordering;

/// How many elements of each text are gone through in step, at most.
const ELEMENTS_IN_STEP: u32 = 256;

/// How many weights are compared out of step, at most, and how many elements are passed over to the next weight.
const ELEMENTS_AHEAD: usize = 64;

/// At most this many common units are read and not passed over, if more follows them. As many weights are read before
/// the next try.
const FEW_UNITS: usize = 8;

/// At most this many common units are read and not passed over, if nothing follows them.
const LITTLE_UNITS: usize = 2;

/// The rests of two texts from a place within their common beginning on, where both may be cut there, as these cursors
/// read.
#[inline(always)]
fn cut_at<L: EncodedText, R: EncodedText>(
    left: &FactsCursor<'_, '_, L>,
    right: &FactsCursor<'_, '_, R>,
    one: L,
    other: R,
    at: usize,
) -> Option<(L, R)>
    requires { L.beginning one at ≡ R.beginning other at }
    ensures { IfSome result (λ p. AreCut L.text R.text left.now right.now one other p.0 p.1) }
{
    let rest = one.split_at(at)?;
    let other_rest = other.split_at(at)?;
    if left.may_be_cut(rest) && right.may_be_cut(other_rest) {
        Some((rest, other_rest))
    } else {
        None
    }
}

/// The rests of two texts from the last place on, within their common beginning of `common` units, where both may be
/// cut, as these cursors read.
fn last_cut<L: EncodedText, R: EncodedText>(
    left: &FactsCursor<'_, '_, L>,
    right: &FactsCursor<'_, '_, R>,
    one: L,
    other: R,
    common: usize,
) -> Option<(L, R)>
    requires { (n : ℕ) → n ≤ common → L.beginning one n ≡ R.beginning other n }
    ensures { IfSome result (λ p. AreCut L.text R.text left.now right.now one other p.0 p.1) }
{
    for at in (1..=common).rev() {
        let rests = cut_at(left, right, one, other, at);
        if rests.is_some() {
            return rests;
        }
    }
    None
}

/// Passes over what two texts have in common from here on, `common` units, up to the last place where both may be cut.
/// False where there is none.
#[inline(never)]
fn pass_beginning<L: EncodedText, R: EncodedText>(
    left: &mut FactsCursor<'_, '_, L>,
    right: &mut FactsCursor<'_, '_, R>,
    one: L,
    other: R,
    common: usize,
) -> bool
    requires reading { facts_reading left.old ≡ facts_reading right.old }
    requires left { ReadsText L.text left.old one }
    requires right { ReadsText R.text right.old other }
    requires beginnings { (n : ℕ) → n ≤ common → L.beginning one n ≡ R.beginning other n }
    ensures reading { facts_reading left.new ≡ facts_reading right.new }
    ensures passes { PassesCommon L.text R.text left.old right.old left.new right.new }
{
    if !left.may_be_cut(one) {
        return true;
    }
    match last_cut(left, right, one, other, common) {
        Some(rests) => {
            left.begin_text(rests.0);
            right.begin_text(rests.1);
            true
        }
        None => false,
    }
}

/// Passes over what two texts have in common from here on, if that is wanted and is more than some units or all that is
/// left of both, up to a place where both may be cut. False where there is none: another try isn't worth it.
#[inline(always)]
fn pass_common<L: CommonUnits<R>, R: EncodedText>(
    wanted: bool,
    few: usize,
    left: &mut FactsCursor<'_, '_, L>,
    right: &mut FactsCursor<'_, '_, R>,
) -> bool
    requires { facts_reading left.old ≡ facts_reading right.old }
    ensures reading { facts_reading left.new ≡ facts_reading right.new }
    ensures passes { PassesCommon L.text R.text left.old right.old left.new right.new }
{
    if !wanted {
        return true;
    }
    let Some(one) = left.unread() else {
        return true;
    };
    let Some(other) = right.unread() else {
        return true;
    };
    let common = one.common_units(other);
    let is_all = common == one.unit_count() && common == other.unit_count();
    let is_worth = common > few || (is_all && common > LITTLE_UNITS);
    if !is_worth {
        return true;
    }
    pass_beginning(left, right, one, other, common)
}

/// The next element of a text, as it is where none is variable: `Some(None)` after the last one. `None` says nothing.
#[inline(always)]
fn next_stayed<T: EncodedText>(text: &mut FactsCursor<'_, '_, T>) -> Option<Option<Handled>>
    ensures next { IfSome result (λ next. StepsOn T.text text.old next text.new) }
    ensures reading { IfSome result (λ next. facts_reading text.new ≡ facts_reading text.old) }
{
    match text.next_or_end()? {
        Some(element) => Some(Some(Handled::Stayed(element))),
        None => Some(None),
    }
}

/// The order of two elements on the tertiary level, where they have the same primary and the same secondary weight, and
/// both have a tertiary weight, or neither has.
#[inline(always)]
fn order_of_elements(
    form: TertiaryForm,
    one: CollationElement,
    other: CollationElement,
) -> Option<Ordering>
    ensures { (reordering : Option CollationReordering) → IfSome result (λ o.
        StepsBy (three_levels (Primary reordering) form) (Stayed one) (Stayed other) o) }
{
    if one == other {
        return Some(Ordering::Equal);
    }
    if one.primary() != other.primary() || one.secondary() != other.secondary() {
        return None;
    }
    Level::Tertiary(form).order_of_weights(&Handled::Stayed(one), &Handled::Stayed(other))
}

/// The order of two handled elements as `order_of_elements` has it, where both stayed.
#[inline(always)]
fn order_of_both(form: TertiaryForm, one: Handled, other: Handled) -> Option<Ordering>
    ensures { (reordering : Option CollationReordering) → IfSome result (λ o.
        StepsBy (three_levels (Primary reordering) form) one other o) }
{
    match one {
        Handled::Stayed(one) => match other {
            Handled::Stayed(other) => order_of_elements(form, one, other),
            Handled::Shifted(_) => None,
        },
        Handled::Shifted(_) => None,
    }
}

/// The order on the tertiary level of the elements that two texts gave, if both gave one, and these have the same
/// primary and the same secondary weight.
#[inline(always)]
fn order_of_step(
    form: TertiaryForm,
    one: &Option<Handled>,
    other: &Option<Handled>,
) -> Option<Ordering>
    ensures { (reordering : Option CollationReordering) → IfSome result (λ o.
        StepBoth (three_levels (Primary reordering) form) one.now other.now o) }
{
    match (*one, *other) {
        (Some(one), Some(other)) => order_of_both(form, one, other),
        _ => None,
    }
}

/// The order of two texts on three levels, as far as their elements are in step and both texts are known: where they
/// are no more, primary weights decide, or else these elements on the secondary level. `None` says nothing.
pub(crate) fn order_in_step<L: CommonUnits<R>, R: EncodedText>(
    reordering: Option<CollationReordering<'_>>,
    form: TertiaryForm,
    left: &mut FactsCursor<'_, '_, L>,
    right: &mut FactsCursor<'_, '_, R>,
) -> Option<Ordering>
    requires { facts_reading left.old ≡ facts_reading right.old }
    ensures { (b d : List ℕ) → IfSome result (λ o.
        o ≡ three_order (three_levels (Primary reordering.entry) form)
        Equal (plain_left L.text left.old b) (plain_left R.text right.old d)) }
{
    let mut third = Ordering::Equal;
    let mut passes = true;
    let mut differed = false;
    'pairs: for _ in 0..ELEMENTS_IN_STEP {
        let one = next_stayed(left)?;
        let other = next_stayed(right)?;
        if one.is_none() && other.is_none() {
            return Some(third);
        }
        match order_of_step(form, &one, &other) {
            Some(order) => {
                third = third.then(order);
                let is_alike = order == Ordering::Equal;
                let wanted = passes && differed && is_alike;
                let worth = pass_common(wanted, FEW_UNITS, left, right);
                passes = passes && worth;
                differed = !is_alike;
            }
            None => return order_apart(reordering, form, (one, other), left, right),
        }
    }
    None
}

/// The order of two texts on the primary level, as far as both texts are known. What they have in common at first is
/// passed over. `None` says nothing.
pub(crate) fn order_on_primaries<L: CommonUnits<R>, R: EncodedText>(
    reordering: Option<CollationReordering<'_>>,
    left: &mut FactsCursor<'_, '_, L>,
    right: &mut FactsCursor<'_, '_, R>,
) -> Option<Ordering>
    requires { facts_reading left.old ≡ facts_reading right.old }
    ensures { (b d : List ℕ) → IfSome result (λ o. o ≡ order_on (Primary reordering.entry)
        (plain_left L.text left.old b) (plain_left R.text right.old d)) }
{
    let _ = pass_common(true, 0, left, right);
    let one = next_stayed(left)?;
    let other = next_stayed(right)?;
    order_on_level(Level::Primary(reordering), (one, other), left, right)
}

/// The order from these elements on, which were read last and aren't in step: by their primary weights, or by what
/// follows.
#[inline(always)]
fn order_apart<L: CommonUnits<R>, R: EncodedText>(
    reordering: Option<CollationReordering<'_>>,
    form: TertiaryForm,
    pair: Pair,
    left: &mut FactsCursor<'_, '_, L>,
    right: &mut FactsCursor<'_, '_, R>,
) -> Option<Ordering>
    requires { facts_reading left.old ≡ facts_reading right.old }
    ensures { (b d : List ℕ) (third : Ordering) → IfSome result (λ o.
        o ≡ three_order (three_levels (Primary reordering.entry) form) third
        (from_first pair.0 (plain_left L.text left.old b))
        (from_first pair.1 (plain_left R.text right.old d))) }
{
    let first = Level::Primary(reordering);
    let decided = first.decide(&pair.0, &pair.1);
    if decided.is_some() {
        return decided;
    }
    order_out_of_step(reordering, form, pair, left, right)
}

/// The order from elements on that aren't in step: the rest of the first level decides, or, where it ties, these
/// elements on the secondary one.
#[inline(never)]
fn order_out_of_step<L: CommonUnits<R>, R: EncodedText>(
    reordering: Option<CollationReordering<'_>>,
    form: TertiaryForm,
    pair: Pair,
    left: &mut FactsCursor<'_, '_, L>,
    right: &mut FactsCursor<'_, '_, R>,
) -> Option<Ordering>
    requires { facts_reading left.old ≡ facts_reading right.old }
    ensures { (b d : List ℕ) (third : Ordering) → IfSome result (λ o.
        o ≡ three_order (three_levels (Primary reordering.entry) form) third
        (from_first pair.0 (plain_left L.text left.old b))
        (from_first pair.1 (plain_left R.text right.old d))) }
{
    let first = Level::Primary(reordering);
    let decided = Level::Secondary.decide(&pair.0, &pair.1);
    let order = order_on_level(first, pair, left, right)?;
    if order == Ordering::Equal {
        decided
    } else {
        Some(order)
    }
}

/// The next weight of a text on a level, or `Some(None)` after the last one.
#[inline(always)]
fn next_weight<T: EncodedText>(
    level: Level<'_>,
    text: &mut FactsCursor<'_, '_, T>,
) -> Option<Option<u64>>
    ensures next { IfSome result (λ next. (before : List ℕ) → (after : List ℕ)
        × WeighsOn level.entry (plain_left T.text text.old before) next
        (plain_left T.text text.new after)) }
    ensures reading { IfSome result (λ next. facts_reading text.new ≡ facts_reading text.old) }
{
    'passing: for _ in 0..ELEMENTS_AHEAD {
        let Some(handled) = next_stayed(text)? else {
            return Some(None);
        };
        if let Some(weight) = level.weight(handled) {
            return Some(Some(weight));
        }
    }
    None
}

/// The next weight of a text on a level from this element on, which was read last.
#[inline(always)]
fn next_weight_from<T: EncodedText>(
    level: Level<'_>,
    first: Option<Handled>,
    text: &mut FactsCursor<'_, '_, T>,
) -> Option<Option<u64>>
    ensures next { IfSome result (λ next. (before : List ℕ) → (after : List ℕ)
        × WeighsOn level.entry (from_first first (plain_left T.text text.old before)) next
        (plain_left T.text text.new after)) }
    ensures reading { IfSome result (λ next. facts_reading text.new ≡ facts_reading text.old) }
{
    let Some(handled) = first else {
        return Some(None);
    };
    match level.weight(handled) {
        Some(weight) => Some(Some(weight)),
        None => next_weight(level, text),
    }
}

/// The order of lists of weights that begin with these, and are empty where there is none: `None` where that is the
/// order of what follows them.
#[inline(always)]
fn order_of_next(one: Option<u64>, other: Option<u64>) -> Option<Ordering>
    ensures some { (ws vs : List ℕ) → IfSome result (λ o.
        o ≡ list_order (weights_from one ws) (weights_from other vs)) }
    ensures none { result ≡ None → (ws vs : List ℕ)
        → list_order (weights_from one ws) (weights_from other vs) ≡ list_order ws vs }
{
    match (one, other) {
        (Some(weight), Some(other_weight)) => {
            if weight == other_weight {
                return None;
            }
            Some(weight.cmp(&other_weight))
        }
        (Some(_), None) => Some(Ordering::Greater),
        (None, Some(_)) => Some(Ordering::Less),
        (None, None) => Some(Ordering::Equal),
    }
}

/// The order of two texts on a level from these elements on, which were read last: none of a text that has ended.
/// `None` says nothing.
#[inline(always)]
fn order_on_level<L: CommonUnits<R>, R: EncodedText>(
    level: Level<'_>,
    pair: Pair,
    left: &mut FactsCursor<'_, '_, L>,
    right: &mut FactsCursor<'_, '_, R>,
) -> Option<Ordering>
    requires { facts_reading left.old ≡ facts_reading right.old }
    ensures { (b d : List ℕ) → IfSome result (λ o. o ≡ order_from level.entry pair.0 pair.1
        (plain_left L.text left.old b) (plain_left R.text right.old d)) }
{
    let mut weight = next_weight_from(level, pair.0, left)?;
    let mut other_weight = next_weight_from(level, pair.1, right)?;
    let mut passes = true;
    'weights: for index in 0..ELEMENTS_AHEAD {
        let order = order_of_next(weight, other_weight);
        if order.is_some() {
            return order;
        }
        let wanted = passes & (index % FEW_UNITS == 0);
        let worth = pass_common(wanted, FEW_UNITS, left, right);
        passes = passes && worth;
        weight = next_weight(level, left)?;
        other_weight = next_weight(level, right)?;
    }
    None
}
