//! The levels that are compared forward, weight by weight.

ghost use Rattle.std.specs.Prelude.{◌≡◌, ◌≤◌, ◌∷◌, ◌+◌, [], List, Some, length, IfOk, IfSome, IsTrue, MatchOption};
ghost use Rattle.std.specs.Ordering.{ordering_then};
ghost use Rattle.icu_order_levels.specs.ListOrder.{list_order};
ghost use Rattle.icu_order_texts.specs.weighting.Levels.{quaternary_weight};
ghost use Rattle.icu_order_texts.specs.weighting.HandledSources.{handled_as};
ghost use Rattle.icu_order_texts.specs.weighting.Handled.{HandledElement};
ghost use Rattle.icu_collator.specs.inner.LevelWeights.{weight_of_stayed, read_as, weight_in, level_weights};
ghost use Rattle.icu_collator.specs.inner.InStep.{from_first, order_on, order_from, DecidesOn, HasWeight};

use icu_order_levels::forms::{CaseForm, SecondaryForm, TertiaryForm};
use icu_order_texts::weighting::element_weights::{
    case_rank, case_read, masked_tertiary, quaternary_number, reordered, tertiary_weight,
};
use icu_order_texts::weighting::{Handled, HandledSource};
use icu_table_entries::CollationElement;
use icu_table_provider::CollationReordering;
use std::cmp::Ordering;
use std::convert::Infallible;

/// A level that is compared forward (UTS #10, "Form Sort Keys").
#[derive(Clone, Copy)]
pub(crate) enum Level<'d> {
    /// Primary weights, reordered.
    Primary(Option<CollationReordering<'d>>),
    /// Secondary weights, forward.
    Secondary,
    /// Cases of the elements that have a weight of the secondary level, if there is one, or else of
    /// the primary level.
    Case(Option<SecondaryForm>, CaseForm),
    /// Tertiary weights.
    Tertiary(TertiaryForm),
    /// Quaternary bits, and the reordered primary weights of shifted elements below them.
    Quaternary(Option<CollationReordering<'d>>),
}

/// The quaternary weight of an element that stayed: its bits, above all primary weights.
fn quaternary_weight(element: CollationElement) -> u64
    ensures { result ≡ quaternary_weight element }
{
    0x1_0000_0000 + u64::from(quaternary_number(element))
}

/// A weight, where the level reads something of the element.
#[inline(always)]
fn read_as(read: u32, weight: u64) -> Option<u64>
    ensures { result ≡ read_as read weight }
{
    if read == 0 { None } else { Some(weight) }
}

impl<'d> Level<'d> {
    /// What the level has for an element, if it reads something of it.
    #[inline(always)]
    fn weight_of_stayed(self, element: CollationElement) -> Option<u64>
        ensures { result ≡ weight_of_stayed self.entry element }
    {
        match self {
            Level::Primary(reordering) => {
                let primary = element.primary();
                read_as(primary, u64::from(reordered(reordering, primary)))
            }
            Level::Secondary => {
                let secondary = element.secondary();
                read_as(u32::from(secondary), u64::from(secondary))
            }
            Level::Case(before, form) => {
                read_as(case_read(before, element), case_rank(form, element))
            }
            Level::Tertiary(form) => {
                let read = masked_tertiary(form, element);
                read_as(u32::from(read), u64::from(tertiary_weight(form, element)))
            }
            Level::Quaternary(_) => {
                let read = element.non_primary().tertiary();
                read_as(u32::from(read), quaternary_weight(element))
            }
        }
    }

    /// What the level has for an element as it was handled: the quaternary level alone has something for a shifted
    /// one.
    #[inline(always)]
    pub(crate) fn weight(self, handled: Handled) -> Option<u64>
        ensures { result ≡ weight_in self.entry (handled_as handled) }
    {
        match handled {
            Handled::Stayed(element) => self.weight_of_stayed(element),
            Handled::Shifted(primary) => match self {
                Level::Quaternary(reordering) => Some(u64::from(reordered(reordering, primary))),
                Level::Primary(_) | Level::Secondary | Level::Case(_, _) | Level::Tertiary(_) =>
                    None,
            },
        }
    }

    /// The order of what two sources give on this level: the first pair of weights that differs
    /// decides, and a prefix comes first. Stops where a source does.
    pub(crate) fn compare<L: HandledSource, R: HandledSource<Error = L::Error>>(
        self,
        left: &mut L,
        right: &mut R,
    ) -> Result<Ordering, L::Error>
        ensures { IfOk result
            (λ o. o ≡ list_order (level_weights self.entry (L.handled_left left.old))
            (level_weights self.entry (R.handled_left right.old))) }
    {
        'pairs: loop {
            match (self.next(left)?, self.next(right)?) {
                (Some(one), Some(other)) => {
                    let order = one.cmp(&other);
                    if order != Ordering::Equal {
                        return Ok(order);
                    }
                }
                (one, other) => return Ok(one.is_some().cmp(&other.is_some())),
            }
        }
    }

    /// The order on this level from these elements on, which the sources gave last: none of a source that has ended.
    #[tactic(auto, unfolding(crate::specs::inner::InStep::order_on))]
    pub(crate) fn compare_from<L: HandledSource, R: HandledSource<Error = L::Error>>(
        self,
        one: Option<Handled>,
        other: Option<Handled>,
        left: &mut L,
        right: &mut R,
    ) -> Result<Ordering, L::Error>
        ensures { IfOk result (λ o. o ≡ order_from self.entry one other (L.handled_left left.old)
            (R.handled_left right.old)) }
    {
        match (self.next_from(one, left)?, self.next_from(other, right)?) {
            (Some(weight), Some(other_weight)) => {
                let order = weight.cmp(&other_weight);
                if order != Ordering::Equal {
                    return Ok(order);
                }
                self.compare(left, right)
            }
            (Some(_), None) => Ok(Ordering::Greater),
            (None, Some(_)) => Ok(Ordering::Less),
            (None, None) => Ok(Ordering::Equal),
        }
    }

    /// The next weight of a text on this level from this element on, which its source gave last.
    #[tactic(auto, unfolding(crate::specs::inner::LevelWeights::level_weights))]
    fn next_from<S: HandledSource>(
        self,
        first: Option<Handled>,
        rest: &mut S,
    ) -> Result<Option<u64>, S::Error>
        ensures { IfOk result (λ next. MatchOption next
            (level_weights self.entry (from_first first (S.handled_left rest.old)) ≡ [])
            (λ w. level_weights self.entry (from_first first (S.handled_left rest.old))
            ≡ w ∷ level_weights self.entry (S.handled_left rest.new))) }
    {
        let Some(handled) = first else {
            return Ok(None);
        };
        match self.weight(handled) {
            Some(weight) => Ok(Some(weight)),
            None => self.next(rest),
        }
    }

    /// Whether the level has the same weight for two elements, or none for either.
    #[inline(always)]
    pub(crate) fn ties(self, one: &Handled, other: &Handled) -> bool
        ensures { IsTrue result → weight_in self.entry (handled_as one.now)
            ≡ weight_in self.entry (handled_as other.now) }
    {
        match (self.weight(*one), self.weight(*other)) {
            (Some(weight), Some(other_weight)) => weight == other_weight,
            (None, None) => true,
            _ => false,
        }
    }

    /// The order of two elements on this level, where it has a weight for both or for neither.
    #[inline(always)]
    pub(crate) fn order_of_weights(self, one: &Handled, other: &Handled) -> Option<Ordering>
        ensures { IfSome result (λ o. (hs ks : List HandledElement) →
            order_on self.entry (handled_as one.now ∷ hs) (handled_as other.now ∷ ks)
            ≡ ordering_then o (order_on self.entry hs ks)) }
    {
        match (self.weight(*one), self.weight(*other)) {
            (Some(weight), Some(other_weight)) => Some(weight.cmp(&other_weight)),
            (None, None) => Some(Ordering::Equal),
            _ => None,
        }
    }

    /// The order on this level of lists that begin with these elements, or have ended, where these decide it.
    #[inline(always)]
    pub(crate) fn decide(self, one: &Option<Handled>, other: &Option<Handled>) -> Option<Ordering>
        ensures { IfSome result (λ o. DecidesOn self.entry one.now other.now o) }
    {
        match (*one, *other) {
            (Some(one), Some(other)) => self.decide_by_weights(one, other),
            (Some(one), None) => self.decide_at_end(one, Ordering::Greater),
            (None, Some(other)) => self.decide_at_end(other, Ordering::Less),
            (None, None) => None,
        }
    }

    /// The order that an element decides where the other list has ended: it does if the level has a weight for it.
    #[inline(always)]
    fn decide_at_end(self, element: Handled, order: Ordering) -> Option<Ordering>
        ensures { IfSome result (λ o. (o ≡ order) × HasWeight self.entry element) }
    {
        match self.weight(element) {
            Some(_) => Some(order),
            None => None,
        }
    }

    /// The order that two elements decide: they do if the level has weights for both that differ.
    #[inline(always)]
    fn decide_by_weights(self, one: Handled, other: Handled) -> Option<Ordering>
        ensures { IfSome result (λ o. DecidesOn self.entry (Some one) (Some other) o) }
    {
        match (self.weight(one), self.weight(other)) {
            (Some(weight), Some(other_weight)) if weight != other_weight => {
                Some(weight.cmp(&other_weight))
            }
            _ => None,
        }
    }

    /// The next weight of a text on this level, or `None` after the last one.
    #[tactic(auto, unfolding(crate::specs::inner::LevelWeights::level_weights))]
    fn next<S: HandledSource>(self, elements: &mut S) -> Result<Option<u64>, S::Error>
        ensures weights { IfOk result
            (λ next. MatchOption next (level_weights self.entry (S.handled_left elements.old) ≡ [])
            (λ w. level_weights self.entry (S.handled_left elements.old)
            ≡ w ∷ level_weights self.entry (S.handled_left elements.new))) }
        ensures smaller { IfOk result (λ w. IfSome w
            (λ x. length (S.handled_left elements.new) + 1
            ≤ length (S.handled_left elements.old))) }
    {
        'passing: while let Some(handled) = elements.next_handled()? {
            if let Some(weight) = self.weight(handled) {
                return Ok(Some(weight));
            }
        }
        Ok(None)
    }

    /// The order of what two sources give on this level, which never fail.
    pub(crate) fn order<L: HandledSource<Error = Infallible>, R: HandledSource<Error = Infallible>>(
        self,
        left: &mut L,
        right: &mut R,
    ) -> Ordering
        ensures { result ≡ list_order (level_weights self.entry (L.handled_left left.old))
            (level_weights self.entry (R.handled_left right.old)) }
    {
        match self.compare(left, right) {
            Ok(order) => order,
            Err(never) => match never {},
        }
    }
}
