//! What the first characters of two texts say of their order.

ghost use Rattle.std.specs.Prelude.{◌≡◌, ◌≢◌, ◌<◌, ◌⊎◌, ◌∷◌, ℕ, List, map, IfSome, IsTrue};
ghost use Rattle.icu_element_facts.specs.KeptFacts.{AreFirstFacts};
ghost use Rattle.icu_table_provider.specs.CollatorTables.{reorder};
ghost use Rattle.icu_order_texts.specs.weighting.Forms.{last_variable_by};
ghost use Rattle.icu_order_texts.specs.TextOrder.{reading_by, text_order};
ghost use Rattle.std.specs.declared.cmp.Ordering.TheVariants.{Equal};
ghost use Rattle.unicode_normalization.specs.Forms.{nfd};
ghost use Rattle.icu_collator.specs.inner.ElementOrders.{leading_order};
ghost use Rattle.icu_collator.specs.inner.FirstPrimaries.{unequal_order};

use crate::collator::CollatorBorrowed;
use icu_element_cursor::{CharFacts, FactsKind};
use icu_element_reading::boundaries::laws::first_starters_lead;
use icu_order_texts::weighting::element_weights::reordered;
use icu_text_encodings::EncodedText;
use std::cmp::Ordering;

/// What the first character of a text says of the text: whether it may be the rest of others, and its first primary
/// weight, where that is known and no variable element has it (0 for the empty text).
#[derive(Clone, Copy)]
pub(crate) struct FirstFacts {
    pub(crate) is_rest: bool,
    pub(crate) primary: Option<u32>,
}

impl<'a> CollatorBorrowed<'a> {
    ghost use Rattle.icu_collator.specs.Collators.{tables_borrowed, collation_borrowed};
    ghost use Rattle.icu_collator.specs.inner.FirstPrimaries.{Decides, IsFirst, LeadsWith};
    ghost use Rattle.icu_element_cursor.specs.Cursors.{BeginsWithPrimary};
    ghost use Rattle.icu_order_texts.specs.TextCuts.{IsRest};

    /// What the first character of a text says of the text, by one look-up.
    #[inline(always)]
    pub(crate) fn first_facts<T: EncodedText>(&self, text: T) -> FirstFacts
        ensures rest { IsTrue result.is_rest → IsRest (collation_borrowed self.now) (T.text text) }
        ensures leads { IfSome result.primary (λ p. LeadsWith (collation_borrowed self.now)
            (T.text text) p) }
    {
        match text.split_first_ascii() {
            Some((byte, rest)) => self.first_facts_by(char::from(byte), rest),
            None => self.other_first_facts(text),
        }
    }

    /// What the first character of a text says of the text, where it isn't ASCII.
    #[inline(never)]
    fn other_first_facts<T: EncodedText>(&self, text: T) -> FirstFacts
        ensures rest { IsTrue result.is_rest → IsRest (collation_borrowed self.now) (T.text text) }
        ensures leads { IfSome result.primary (λ p. LeadsWith (collation_borrowed self.now)
            (T.text text) p) }
    {
        match text.split_first_char() {
            Some((first, rest)) => self.first_facts_by(first, rest),
            None => FirstFacts {
                is_rest: true,
                primary: Some(0),
            },
        }
    }

    /// What a character says of the text that it begins, before this rest.
    #[inline(always)]
    fn first_facts_by<T: EncodedText>(&self, c: char, rest: T) -> FirstFacts
        ensures rest { IsTrue result.is_rest
            → IsRest (collation_borrowed self.now) (c ∷ T.text rest) }
        ensures leads { IfSome result.primary (λ p. LeadsWith (collation_borrowed self.now)
            (c ∷ T.text rest) p) }
    {
        match self.kept_facts(c) {
            Some(facts) => self.first_facts_of(facts, rest),
            None => self.first_facts_of(&self.other_facts(c), rest),
        }
    }

    /// What these facts of a character say of the text that it begins, before this rest.
    #[inline(always)]
    fn first_facts_of<T: EncodedText>(&self, facts: &CharFacts, rest: T) -> FirstFacts
        ensures rest { let collation = collation_borrowed self.now in (c : ℕ)
            → AreFirstFacts (reading_by collation) c facts.now
            → IsTrue result.is_rest → IsRest collation (c ∷ T.text rest) }
        ensures leads { let collation = collation_borrowed self.now in (c : ℕ)
            → AreFirstFacts (reading_by collation) c facts.now
            → IfSome result.primary (λ p. LeadsWith collation (c ∷ T.text rest) p) }
    {
        first_starters_lead();
        let is_rest = self.begins_rest(facts);
        let first = self.first_primary(facts, rest);
        let primary = self.known_primary(first);
        FirstFacts { is_rest, primary }
    }

    /// The primary weight that the elements of a text begin with whose first character has these facts, or 0 where
    /// that is not known.
    #[inline(always)]
    fn first_primary<T: EncodedText>(&self, facts: &CharFacts, rest: T) -> u32
        ensures { let reading = reading_by (collation_borrowed self.now) in (c : ℕ)
            → AreFirstFacts reading c facts.now → result ≢ 0
            → BeginsWithPrimary reading (c ∷ T.text rest) result }
    {
        first_starters_lead();
        if facts.leading_primary != 0 || facts.kind != FactsKind::Base {
            facts.leading_primary
        } else {
            self.cursor_tables().first_primary(facts, rest)
        }
    }

    /// Whether a text may be the rest of others, by these facts of its first character: it may be cut off before the
    /// character, and where elements may be variable its first one has a primary weight. False says nothing.
    #[inline(always)]
    fn begins_rest(&self, facts: &CharFacts) -> bool
        ensures { IsTrue result → IsTrue facts.now.has_boundary_before
            × ((facts.now.leading_primary ≢ 0)
            ⊎ (last_variable_by (collation_borrowed self.now) ≡ 0)) }
    {
        facts.has_boundary_before && (facts.leading_primary != 0 || self.last_variable() == 0)
    }

    /// A primary weight, where it is known, which isn't 0, and elements that have it aren't variable.
    #[inline(always)]
    pub(crate) fn known_primary(&self, primary: u32) -> Option<u32>
        ensures { IfSome result (λ p. (p ≡ primary)
            × (last_variable_by (collation_borrowed self.now) < p)) }
    {
        if primary > self.last_variable() {
            Some(primary)
        } else {
            None
        }
    }

    /// The order of texts of whose first characters this is known, where both first primary weights are known and
    /// differ.
    #[inline(always)]
    pub(crate) fn order_of_first_primaries(
        &self,
        one: FirstFacts,
        other: FirstFacts,
    ) -> Option<Ordering>
        ensures order { let collation = collation_borrowed self.now in
            (t u : List ℕ) → IfSome one.primary (λ p. LeadsWith collation t p)
            → IfSome other.primary (λ p. LeadsWith collation u p)
            → IfSome result (λ o. o ≡ text_order collation t u) }
        ensures leads { let collation = collation_borrowed self.now in
            (t u : List ℕ) → IfSome one.primary (λ p. LeadsWith collation t p)
            → IfSome other.primary (λ p. LeadsWith collation u p)
            → IfSome result (λ o. (o ≡ leading_order collation (nfd t) (nfd u)) × (o ≢ Equal)) }
    {
        match (one.primary, other.primary) {
            (Some(primary), Some(other_primary)) => {
                self.order_of_primaries(primary, other_primary)
            }
            _ => None,
        }
    }

    /// The order of lists that begin with these primary weights, 0 of an empty one, where they differ.
    #[inline(always)]
    pub(crate) fn order_of_primaries(&self, one: u32, other: u32) -> Option<Ordering>
        ensures { let reorder = reorder (tables_borrowed self.now) in
            (ps qs : List ℕ) → IsFirst one ps → IsFirst other qs
            → IfSome result (λ o. Decides (map reorder ps) (map reorder qs) o) }
    {
        if one == 0 || other == 0 {
            return unequal(one, other);
        }
        let reordering = self.tables.reordering();
        unequal(reordered(reordering, one), reordered(reordering, other))
    }
}

/// The order of two weights that differ.
fn unequal(one: u32, other: u32) -> Option<Ordering>
    ensures { result ≡ unequal_order one other }
{
    if one == other {
        None
    } else {
        Some(one.cmp(&other))
    }
}
