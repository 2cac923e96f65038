//! What follows the common beginning of two texts, and the order of two texts by the characters that they begin with.

ghost use Rattle.std.specs.Prelude.{◌≡◌, ◌≢◌, ◌≤◌, ℕ, IfSome};
ghost use Rattle.icu_order_levels.specs.CommonBeginnings.{ReadsForward};
ghost use Rattle.icu_order_texts.specs.weighting.Forms.{form_by, last_variable_by};
ghost use Rattle.icu_order_texts.specs.TextOrder.{reading_by, text_order};
ghost use Rattle.icu_element_cursor.specs.Cursors.{cursor_reading};
ghost use Rattle.icu_collator.specs.inner.ElementOrders.{ReadsElementsAlone};
ghost use Rattle.icu_collator.specs.inner.InStep.{IsThreeLevel};

use crate::collator::CollatorBorrowed;
use crate::facts_in_step::{order_in_step, order_on_primaries};
use crate::first_facts::FirstFacts;
use icu_element_cursor::{CursorTables, FactsCursor};
use icu_order_levels::forms::TertiaryForm;
use icu_order_texts::laws::common_beginnings_do_not_count;
use icu_order_texts::text_beginnings::primary_order_is_of_weights;
use icu_table_entries::element::MERGE_SEPARATOR_PRIMARY;
use icu_text_decomposition::CountedText;
use icu_text_encodings::{CommonUnits, EncodedText};
use std::cmp::Ordering;

/// How many primary weights of two texts are compared by their characters, at most.
const WEIGHTS_AHEAD: u32 = 6;

/// How many elements are passed over to the next primary weight of a text, at most.
const ELEMENTS_AHEAD: u32 = 3;

impl<'a> CollatorBorrowed<'a> {
    ghost use Rattle.icu_collator.specs.Collators.{collation_borrowed};
    ghost use Rattle.icu_collator.specs.inner.FirstPrimaries.{GivesPrimary, LeadsWith};

    /// The rests of two texts from their last common boundary on, within their common beginning of `common` units, and
    /// the order of the texts where the first characters of the rests decide it. `None` where the only such place is at
    /// the start.
    pub(crate) fn last_rests<L: CommonUnits<R> + CountedText, R: CountedText>(
        &self,
        left: L,
        right: R,
        common: usize,
    ) -> Option<(L, R, Option<Ordering>)>
        requires beginnings { (n : ℕ) → n ≤ common → L.beginning left n ≡ R.beginning right n }
        requires forward { ReadsForward (form_by (collation_borrowed self.now)).secondary }
        ensures { let collation = collation_borrowed self.now in
            IfSome result (λ p. (text_order collation (L.text p.0) (R.text p.1)
            ≡ text_order collation (L.text left) (R.text right))
            × IfSome p.2 (λ o. o ≡ text_order collation (L.text left) (R.text right))) }
    {
        for at in (1..=common).rev() {
            let rests = self.rests_at(left, right, at);
            if rests.is_some() {
                return rests;
            }
        }
        None
    }

    /// The rests of two texts from this place on, where both may be cut there, and their order where what they begin
    /// with there decides it. `None` where one may not be cut.
    #[inline(always)]
    fn rests_at<L: CommonUnits<R> + CountedText, R: CountedText>(
        &self,
        left: L,
        right: R,
        at: usize,
    ) -> Option<(L, R, Option<Ordering>)>
        requires beginning { L.beginning left at ≡ R.beginning right at }
        requires forward { ReadsForward (form_by (collation_borrowed self.now)).secondary }
        ensures { let collation = collation_borrowed self.now in
            IfSome result (λ p. (text_order collation (L.text p.0) (R.text p.1)
            ≡ text_order collation (L.text left) (R.text right))
            × IfSome p.2 (λ o. o ≡ text_order collation (L.text left) (R.text right))) }
    {
        let one = left.split_at(at)?;
        let other = right.split_at(at)?;
        let facts = self.first_facts(one);
        if !facts.is_rest {
            return None;
        }
        let other_facts = self.first_facts(other);
        if !other_facts.is_rest {
            return None;
        }
        common_beginnings_do_not_count();
        let order = self.order_by_first_characters(one, other, facts, other_facts);
        Some((one, other, order))
    }

    /// The order of two texts by the first primary weights of what follows their last common boundary, within their
    /// common beginning of `common` units, however secondary weights are read. `None` says nothing.
    pub(crate) fn order_past_beginning<L: CommonUnits<R>, R: EncodedText>(
        &self,
        left: L,
        right: R,
        common: usize,
    ) -> Option<Ordering>
        requires { (n : ℕ) → n ≤ common → L.beginning left n ≡ R.beginning right n }
        ensures { let collation = collation_borrowed self.now in
            IfSome result (λ o. o ≡ text_order collation (L.text left) (R.text right)) }
    {
        for at in (1..=common).rev() {
            if let Some(found) = self.order_cut_at(left, right, at) {
                return found;
            }
        }
        None
    }

    /// The order of two texts by the first primary weights from this place on, where these are known and differ. `None`
    /// where one of the texts may not be cut.
    #[inline(always)]
    fn order_cut_at<L: CommonUnits<R>, R: EncodedText>(
        &self,
        left: L,
        right: R,
        at: usize,
    ) -> Option<Option<Ordering>>
        requires { L.beginning left at ≡ R.beginning right at }
        ensures { let collation = collation_borrowed self.now in IfSome result (λ found.
            IfSome found (λ o. o ≡ text_order collation (L.text left) (R.text right))) }
    {
        let one = left.split_at(at)?;
        let other = right.split_at(at)?;
        let facts = self.first_facts(one);
        if !facts.is_rest {
            return None;
        }
        let other_facts = self.first_facts(other);
        if !other_facts.is_rest {
            return None;
        }
        common_beginnings_do_not_count();
        primary_order_is_of_weights();
        Some(self.order_of_first_primaries(facts, other_facts))
    }

    /// The order of two texts by the facts about their first characters: by their first primary weights where both are
    /// known and differ, else by the primary weights of the characters that both begin with. `None` where these do not
    /// decide.
    #[inline(always)]
    pub(crate) fn order_by_first_characters<L: CommonUnits<R> + CountedText, R: CountedText>(
        &self,
        left: L,
        right: R,
        one: FirstFacts,
        other: FirstFacts,
    ) -> Option<Ordering>
        requires one { IfSome one.primary (λ p. LeadsWith (collation_borrowed self.now)
            (L.text left) p) }
        requires other { IfSome other.primary (λ p. LeadsWith (collation_borrowed self.now)
            (R.text right) p) }
        ensures { let collation = collation_borrowed self.now in
            IfSome result (λ o. o ≡ text_order collation (L.text left) (R.text right)) }
    {
        match self.order_of_first_primaries(one, other) {
            Some(order) => Some(order),
            None => self.order_by_facts(left, right),
        }
    }

    /// The order of two texts by the characters that they begin with, as far as these may be read by themselves. It is
    /// by the first primary weights that differ. If three levels are all and the first few tie, it is on these in step.
    #[inline(never)]
    pub(crate) fn order_by_facts<L: CommonUnits<R> + CountedText, R: CountedText>(
        &self,
        left: L,
        right: R,
    ) -> Option<Ordering>
        ensures { let collation = collation_borrowed self.now in
            IfSome result (λ o. o ≡ text_order collation (L.text left) (R.text right)) }
    {
        let tables = self.cursor_tables();
        match self.plain_form() {
            Some(form) => self.order_on_levels(&tables, form, left, right),
            None if self.last_variable() == 0 => self.order_by_first_level(&tables, left, right),
            None => self.order_by_primaries(&tables, left, right),
        }
    }

    /// The order of two texts by the first primary weights that differ, among a few, of the characters that they begin
    /// with.
    #[inline(always)]
    fn order_by_primaries<L: EncodedText, R: EncodedText>(
        &self,
        tables: &CursorTables<'a>,
        left: L,
        right: R,
    ) -> Option<Ordering>
        requires { cursor_reading tables.now ≡ reading_by (collation_borrowed self.now) }
        ensures { let collation = collation_borrowed self.now in
            IfSome result (λ o. o ≡ text_order collation (L.text left) (R.text right)) }
    {
        let mut one = FactsCursor::new(tables, left);
        let mut other = FactsCursor::new(tables, right);
        'weights: for _ in 0..WEIGHTS_AHEAD {
            let weight = self.next_primary(&mut one)?;
            let other_weight = self.next_primary(&mut other)?;
            if weight != other_weight {
                return self.order_of_primaries(weight, other_weight);
            }
        }
        None
    }

    /// The order of two texts of which no element is variable, by the primary weights of the characters that they begin
    /// with, or by the levels after them if those tie.
    #[inline(never)]
    fn order_by_first_level<L: CommonUnits<R> + CountedText, R: CountedText>(
        &self,
        tables: &CursorTables<'a>,
        left: L,
        right: R,
    ) -> Option<Ordering>
        requires reading { cursor_reading tables.now ≡ reading_by (collation_borrowed self.now) }
        requires plain { last_variable_by (collation_borrowed self.now) ≡ 0 }
        ensures { let collation = collation_borrowed self.now in
            IfSome result (λ o. o ≡ text_order collation (L.text left) (R.text right)) }
    {
        let mut one = FactsCursor::new(tables, left);
        let mut other = FactsCursor::new(tables, right);
        let order = order_on_primaries(self.tables.reordering(), &mut one, &mut other)?;
        Some(self.compare_after_primaries(order, left, right))
    }

    /// The order of two texts on three levels, which are all, by the characters that they begin with.
    #[inline(never)]
    fn order_on_levels<L: CommonUnits<R>, R: EncodedText>(
        &self,
        tables: &CursorTables<'a>,
        form: TertiaryForm,
        left: L,
        right: R,
    ) -> Option<Ordering>
        requires reading { cursor_reading tables.now ≡ reading_by (collation_borrowed self.now) }
        requires form { IsThreeLevel (form_by (collation_borrowed self.now)) form }
        requires plain { ReadsElementsAlone (collation_borrowed self.now) }
        ensures { let collation = collation_borrowed self.now in
            IfSome result (λ o. o ≡ text_order collation (L.text left) (R.text right)) }
    {
        let mut one = FactsCursor::new(tables, left);
        let mut other = FactsCursor::new(tables, right);
        order_in_step(self.tables.reordering(), form, &mut one, &mut other)
    }

    /// The next primary weight of the characters of a text, where elements that have it aren't variable.
    #[inline(always)]
    fn next_primary<T: EncodedText>(&self, characters: &mut FactsCursor<'_, '_, T>) -> Option<u32>
        ensures given { IfSome result (λ p. GivesPrimary (collation_borrowed self.now) T.text
            characters.old p characters.new) }
        ensures some { IfSome result (λ p. p ≢ 0) }
    {
        'elements: for _ in 0..ELEMENTS_AHEAD {
            let primary = characters.next()?.primary();
            if primary > self.last_variable() {
                return Some(primary);
            }
            if primary != 0 && primary <= MERGE_SEPARATOR_PRIMARY {
                return None;
            }
        }
        None
    }
}
