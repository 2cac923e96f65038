//! The order of two texts' elements, level by level.

ghost use Rattle.std.specs.Prelude.{◌≡◌, ℕ, List, IfOk, IfSome, IsTrue, MatchOption};
ghost use Rattle.std.specs.declared.cmp.Ordering.TheVariants.{Equal};
ghost use Rattle.icu_order_levels.specs.ListOrder.{list_order, segments_order};
ghost use Rattle.icu_order_levels.specs.Keys.{secondaries_order, cases_order, tertiaries_order, quaternaries_order};
ghost use Rattle.icu_order_texts.specs.weighting.Forms.{form_by, last_variable_by};
ghost use Rattle.icu_element_reading.specs.TextElements.{elements_of};
ghost use Rattle.icu_order_texts.specs.TextOrder.{handled_by, lists_by, reading_by};
ghost use Rattle.icu_collator.specs.HandledRests.{handled_rest};
ghost use Rattle.icu_collator.specs.inner.ReadElements.{HasRead, held};
ghost use Rattle.icu_collator.specs.inner.LevelWeights.{level_weights};
ghost use Rattle.unicode_normalization.specs.Forms.{nfd};

use crate::backward_in_step::order_backward;
use crate::collator::CollatorBorrowed;
use crate::forward_levels::Level;
use crate::handled::HandledElements;
use crate::in_step::{compare_from_difference, compare_in_step};
use crate::room::Room;
use crate::segments::{TwoReaders, compare_segments};
use icu_element_cursor::{ElementCursor, FactsCursor, LongPiece};
use icu_order_levels::forms::{SecondaryForm, TertiaryForm};
use icu_order_texts::weighting::HandledSource;
use icu_text_decomposition::CountedText;
use icu_text_encodings::EncodedText;
use std::cmp::Ordering;

/// Two texts, with their elements as the collation handles variable ones, if these were read.
#[derive(Drop)]
struct TwoTexts<'r, L, R> {
    left: L,
    right: R,
    read: Option<(HandledElements<'r>, HandledElements<'r>)>,
}

impl<'a> CollatorBorrowed<'a> {
    ghost use Rattle.icu_collator.specs.Collators.{collation_borrowed};
    ghost use Rattle.icu_collator.specs.inner.ElementOrders.{elements_order, leading_order, later_levels_order};
    ghost use Rattle.icu_collator.specs.inner.BackwardInStep.{IsBackward};
    ghost use Rattle.icu_collator.specs.inner.InStep.{order_on, IsThreeLevel};
    ghost use Rattle.icu_collator.specs.inner.ElementOrders.{ReadsElementsAlone};

    /// The order of two texts on a level that is compared forward.
    fn compare_forward_level<L: CountedText, R: CountedText>(
        &self,
        level: Level<'_>,
        texts: &TwoTexts<'_, L, R>,
    ) -> Ordering
        requires { HasRead (collation_borrowed self.now) L.text R.text texts.now }
        ensures { let collation = collation_borrowed self.now in result ≡ list_order
            (level_weights level.entry (handled_by collation (nfd (L.text texts.now.left))))
            (level_weights level.entry (handled_by collation (nfd (R.text texts.now.right)))) }
    {
        match texts.read {
            Some((mut one, mut other)) => level.order(&mut one, &mut other),
            None => self.compare_steady_level(level, texts.left, texts.right),
        }
    }

    /// The order of the secondary weights, backward.
    fn compare_backward_level<L: CountedText, R: CountedText>(
        &self,
        texts: &TwoTexts<'_, L, R>,
    ) -> Ordering
        requires { HasRead (collation_borrowed self.now) L.text R.text texts.now }
        ensures { let collation = collation_borrowed self.now in
            result ≡ segments_order (lists_by collation (nfd (L.text texts.now.left))).segments
            (lists_by collation (nfd (R.text texts.now.right))).segments }
    {
        match texts.read {
            Some((one, other)) => {
                let left = TwoReaders::new(one, one);
                let right = TwoReaders::new(other, other);
                compare_segments(left, right)
            }
            None => self.compare_steady_segments(texts.left, texts.right),
        }
    }

    /// The order of the secondary weights, forward or backward, where they count.
    fn compare_secondaries<L: CountedText, R: CountedText>(
        &self,
        texts: &TwoTexts<'_, L, R>,
    ) -> Ordering
        requires { HasRead (collation_borrowed self.now) L.text R.text texts.now }
        ensures { let collation = collation_borrowed self.now in
            result ≡ secondaries_order (form_by collation).secondary
            (lists_by collation (nfd (L.text texts.now.left)))
            (lists_by collation (nfd (R.text texts.now.right))) }
    {
        match self.key_form().secondary {
            None => Ordering::Equal,
            Some(SecondaryForm::Forward) => self.compare_forward_level(Level::Secondary, texts),
            Some(SecondaryForm::Backward) => self.compare_backward_level(texts),
        }
    }

    /// The order of the cases, where they count by themselves.
    fn compare_cases<L: CountedText, R: CountedText>(&self, texts: &TwoTexts<'_, L, R>) -> Ordering
        requires { HasRead (collation_borrowed self.now) L.text R.text texts.now }
        ensures { let collation = collation_borrowed self.now in
            result ≡ cases_order (form_by collation).cases
            (lists_by collation (nfd (L.text texts.now.left)))
            (lists_by collation (nfd (R.text texts.now.right))) }
    {
        let form = self.key_form();
        match form.cases {
            None => Ordering::Equal,
            Some(cases) => self.compare_forward_level(Level::Case(form.secondary, cases), texts),
        }
    }

    /// The order of the tertiary weights, with case bits where they count among them.
    fn compare_tertiaries<L: CountedText, R: CountedText>(
        &self,
        texts: &TwoTexts<'_, L, R>,
    ) -> Ordering
        requires { HasRead (collation_borrowed self.now) L.text R.text texts.now }
        ensures { let collation = collation_borrowed self.now in
            result ≡ tertiaries_order (form_by collation).tertiary
            (lists_by collation (nfd (L.text texts.now.left)))
            (lists_by collation (nfd (R.text texts.now.right))) }
    {
        match self.key_form().tertiary {
            None => Ordering::Equal,
            Some(form) => self.compare_forward_level(Level::Tertiary(form), texts),
        }
    }

    /// The order of the quaternary weights, where they count.
    fn compare_quaternaries<L: CountedText, R: CountedText>(
        &self,
        texts: &TwoTexts<'_, L, R>,
    ) -> Ordering
        requires { HasRead (collation_borrowed self.now) L.text R.text texts.now }
        ensures { let collation = collation_borrowed self.now in
            result ≡ quaternaries_order (form_by collation).quaternary
            (lists_by collation (nfd (L.text texts.now.left)))
            (lists_by collation (nfd (R.text texts.now.right))) }
    {
        match self.key_form().quaternary {
            None => Ordering::Equal,
            Some(_) => {
                self.compare_forward_level(Level::Quaternary(self.tables.reordering()), texts)
            }
        }
    }

    /// The order of two texts by their elements: all levels but the identical one.
    #[inline(never)]
    pub(crate) fn compare_element_levels<L: CountedText, R: CountedText>(
        &self,
        left: L,
        right: R,
    ) -> Ordering
        ensures { result ≡ elements_order (collation_borrowed self.now)
            (nfd (L.text left)) (nfd (R.text right)) }
    {
        match self.compare_in_one_pass(left, right) {
            Ok(Some(order)) => order,
            Ok(None) => self.compare_later_levels(left, right),
            Err(LongPiece) => self.compare_steady_elements(left, right),
        }
    }

    /// The order of the elements of two texts, where one pass over both shows it. It goes past the elements that both
    /// have, and compares primary weights from the first on that differ; where only secondary and tertiary weights
    /// count after them, it compares these as well, as far as elements are in step. None where the primary weights tie,
    /// and no more is known. Stops where a source does.
    fn compare_in_one_pass<L: CountedText, R: CountedText>(
        &self,
        left: L,
        right: R,
    ) -> Result<Option<Ordering>, LongPiece>
        ensures { let collation = collation_borrowed self.now in
            IfOk result (λ found. MatchOption found
            (leading_order collation (nfd (L.text left)) (nfd (R.text right)) ≡ Equal)
            (λ o. o ≡ elements_order collation (nfd (L.text left)) (nfd (R.text right)))) }
    {
        let tables = self.cursor_tables();
        if self.last_variable() == 0 {
            let mut left = self.plain_text(&tables, left);
            let mut right = self.plain_text(&tables, right);
            return self.compare_sources(&mut left, &mut right);
        }
        let mut left = self.handled_text(&tables, left);
        let mut right = self.handled_text(&tables, right);
        self.compare_sources(&mut left, &mut right)
    }

    /// The order of two texts by the elements that two sources give, in one pass over these. `None` where all of them
    /// are equal, so that the texts tie on each level of elements.
    fn compare_sources<L: HandledSource, R: HandledSource<Error = L::Error>>(
        &self,
        left: &mut L,
        right: &mut R,
    ) -> Result<Option<Ordering>, L::Error>
        ensures { let collation = collation_borrowed self.now in (t u : List ℕ)
            → L.handled_left left.old ≡ handled_by collation t
            → R.handled_left right.old ≡ handled_by collation u
            → IfOk result (λ found. MatchOption found (leading_order collation t u ≡ Equal)
            (λ o. o ≡ elements_order collation t u)) }
    {
        let first = self.primary_level();
        match self.three_level_form() {
            Some(form) => compare_in_step(first, form, left, right),
            None => compare_from_difference(first, left, right),
        }
    }

    /// Whether no element is variable, and characters don't count.
    fn is_plain(&self) -> bool
        ensures { IsTrue result → ReadsElementsAlone (collation_borrowed self.now) }
    {
        self.last_variable() == 0 && !self.key_form().identical
    }

    /// The form of the tertiary level, where that, the primary and the secondary level are all, secondary weights are
    /// compared forward, and no element is variable.
    pub(crate) fn plain_form(&self) -> Option<TertiaryForm>
        ensures form { IfSome result
            (λ form. IsThreeLevel (form_by (collation_borrowed self.now)) form) }
        ensures plain { IfSome result (λ _. ReadsElementsAlone (collation_borrowed self.now)) }
    {
        if self.is_plain() {
            self.three_level_form()
        } else {
            None
        }
    }

    /// The level of the primary weights, reordered.
    pub(crate) fn primary_level(&self) -> Level<'a>
        ensures { let collation = collation_borrowed self.now in (t u : List ℕ) →
            order_on result (handled_by collation t) (handled_by collation u)
            ≡ leading_order collation t u }
    {
        Level::Primary(self.tables.reordering())
    }

    /// The form of the tertiary level, where that, the primary and the secondary level are all before the identical
    /// one, and secondary weights are compared forward.
    fn three_level_form(&self) -> Option<TertiaryForm>
        ensures { IfSome result
            (λ form. IsThreeLevel (form_by (collation_borrowed self.now)) form) }
    {
        let form = self.key_form();
        match (form.secondary, form.cases, form.tertiary, form.quaternary) {
            (Some(SecondaryForm::Forward), None, Some(tertiary), None) => Some(tertiary),
            _ => None,
        }
    }

    /// Reads the elements of a text into a room. False if there is no room for them.
    fn fill_room<T: CountedText>(&self, room: &mut Room, text: T) -> bool
        ensures { IsTrue result → held room.new
            ≡ elements_of (reading_by (collation_borrowed self.now)) (nfd (T.text text)) }
    {
        let tables = self.cursor_tables();
        room.fill(ElementCursor::new(&tables, text))
    }

    /// The elements in a room, as the collation handles variable ones.
    fn handled_in<'r>(&self, room: &'r Room) -> HandledElements<'r>
        ensures { let collation = collation_borrowed self.now in
            (t : List ℕ) → held room.now ≡ elements_of (reading_by collation) t
            → handled_rest result ≡ handled_by collation t }
    {
        let handling = self.settings.alternate_handling();
        HandledElements::new(room.as_slice(), handling, self.last_variable())
    }

    /// The form of the tertiary level, where that and the secondary one, backward, are all between the primary and the
    /// identical one, and no element is variable.
    fn backward_form(&self) -> Option<TertiaryForm>
        ensures form { IfSome result
            (λ form. IsBackward (form_by (collation_borrowed self.now)) form) }
        ensures plain { IfSome result (λ _. last_variable_by (collation_borrowed self.now) ≡ 0) }
    {
        if self.last_variable() != 0 {
            return None;
        }
        let form = self.key_form();
        match (form.secondary, form.cases, form.tertiary, form.quaternary) {
            (Some(SecondaryForm::Backward), None, Some(tertiary), None) => Some(tertiary),
            _ => None,
        }
    }

    /// The order of two texts on the later levels by what is kept of their characters, where secondary weights are read
    /// backward. `None` says nothing.
    fn compare_backward_in_step<L: EncodedText, R: EncodedText>(
        &self,
        left: L,
        right: R,
    ) -> Option<Ordering>
        ensures { let collation = collation_borrowed self.now in IfSome result
            (λ o. o ≡ later_levels_order collation (nfd (L.text left)) (nfd (R.text right))) }
    {
        let form = self.backward_form()?;
        let tables = self.cursor_tables();
        let mut one = FactsCursor::new(&tables, left);
        let mut other = FactsCursor::new(&tables, right);
        order_backward(form, &mut one, &mut other)
    }

    /// The order of two texts on the later levels, those between the primary and the identical one.
    #[inline(never)]
    pub(crate) fn compare_later_levels<L: CountedText, R: CountedText>(
        &self,
        left: L,
        right: R,
    ) -> Ordering
        ensures { result ≡ later_levels_order (collation_borrowed self.now)
            (nfd (L.text left)) (nfd (R.text right)) }
    {
        match self.compare_backward_in_step(left, right) {
            Some(order) => order,
            None => self.compare_read_levels(left, right),
        }
    }

    /// The order of two texts on the later levels. The elements of both are read once, if there is room for them.
    #[inline(never)]
    fn compare_read_levels<L: CountedText, R: CountedText>(&self, left: L, right: R) -> Ordering
        ensures { result ≡ later_levels_order (collation_borrowed self.now)
            (nfd (L.text left)) (nfd (R.text right)) }
    {
        let mut one = Room::new();
        let mut other = Room::new();
        let read = if self.fill_room(&mut one, left) && self.fill_room(&mut other, right) {
            Some((self.handled_in(&one), self.handled_in(&other)))
        } else {
            None
        };
        self.compare_levels_in_turn(&TwoTexts { left, right, read })
    }

    /// The order of two texts on the later levels, those between the primary and the identical one, in turn: the first
    /// that differs decides.
    #[tactic(auto, unfolding(crate::specs::inner::ElementOrders::later_levels_order))]
    fn compare_levels_in_turn<L: CountedText, R: CountedText>(
        &self,
        texts: &TwoTexts<'_, L, R>,
    ) -> Ordering
        requires { HasRead (collation_borrowed self.now) L.text R.text texts.now }
        ensures { result ≡ later_levels_order (collation_borrowed self.now)
            (nfd (L.text texts.now.left)) (nfd (R.text texts.now.right)) }
    {
        let order = self.compare_secondaries(texts);
        if order != Ordering::Equal {
            return order;
        }
        let order = self.compare_cases(texts);
        if order != Ordering::Equal {
            return order;
        }
        let order = self.compare_tertiaries(texts);
        if order != Ordering::Equal {
            return order;
        }
        self.compare_quaternaries(texts)
    }
}
