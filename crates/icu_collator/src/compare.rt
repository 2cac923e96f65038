//! The order of texts. No call fails, and none allocates.

ghost use Rattle.std.specs.Prelude.{◌≡◌, chars};
ghost use Rattle.std.specs.Ordering.{ordering_then};
ghost use Rattle.icu_text_encodings.specs.DecodedTexts.{latin1_text, utf16_text, utf8_text};
ghost use Rattle.icu_order_levels.specs.ListOrder.{list_order};
ghost use Rattle.icu_order_levels.specs.Keys.{characters_order};
ghost use Rattle.icu_order_texts.specs.Forms.{form_by};
ghost use Rattle.icu_order_texts.specs.TextOrder.{lists_by, text_order, text_key};
ghost use Rattle.unicode_normalization.specs.Forms.{nfd};
ghost use Rattle.icu_collator.specs.inner.ElementOrders.{leading_order};

use crate::collator::CollatorBorrowed;
use crate::identical_level::compare_characters;
use crate::texts::str_text;
use icu_order_texts::laws::keys_keep_text_order;
use icu_text_decomposition::CountedText;
use icu_text_encodings::{CommonUnits, EncodedText, Latin1Text, Utf8Text, Utf16Text};
use std::cmp::Ordering;

impl<'a> CollatorBorrowed<'a> {
    ghost use Rattle.icu_collator.specs.Collators.{collation_borrowed};

    /// The order of two texts by the collation (UTS #10, "Compare Sort Keys"), for each collation. The first
    /// level that differs decides: primary weights, reordered, then secondary weights, forward or backward, cases,
    /// tertiary weights, quaternary weights, and the characters of the decomposed texts, as far as the settings name
    /// these levels. It is the dictionary order of the two texts' sort keys.
    ///
    /// The call never fails, and allocates nothing.
    pub fn order(&self, left: &str, right: &str) -> Ordering
        ensures order { result ≡ text_order (collation_borrowed self.now)
            (chars left.now) (chars right.now) }
        ensures keys { result ≡ list_order
            (text_key (collation_borrowed self.now) (chars left.now))
            (text_key (collation_borrowed self.now) (chars right.now)) }
        ensures same { left.now ≡ right.now → result ≡ Ordering.Equal }
    {
        self.order_encoded(str_text(left), str_text(right))
    }

    /// The order of two texts in UTF-8 that may be damaged: each maximal ill-formed part is one U+FFFD (Unicode
    /// Standard, "Unicode Encoding Forms"). Never fails.
    pub fn order_utf8(&self, left: &[u8], right: &[u8]) -> Ordering
        ensures order { result ≡ text_order (collation_borrowed self.now)
            (utf8_text left.now) (utf8_text right.now) }
        ensures keys { result ≡ list_order
            (text_key (collation_borrowed self.now) (utf8_text left.now))
            (text_key (collation_borrowed self.now) (utf8_text right.now)) }
        ensures same { left.now ≡ right.now → result ≡ Ordering.Equal }
    {
        self.order_encoded(Utf8Text(left), Utf8Text(right))
    }

    /// The order of two texts in UTF-16: each unpaired surrogate is U+FFFD (Unicode Standard, "Unicode Encoding
    /// Forms"). Never fails.
    pub fn order_utf16(&self, left: &[u16], right: &[u16]) -> Ordering
        ensures order { result ≡ text_order (collation_borrowed self.now)
            (utf16_text left.now) (utf16_text right.now) }
        ensures keys { result ≡ list_order
            (text_key (collation_borrowed self.now) (utf16_text left.now))
            (text_key (collation_borrowed self.now) (utf16_text right.now)) }
        ensures same { left.now ≡ right.now → result ≡ Ordering.Equal }
    {
        self.order_encoded(Utf16Text(left), Utf16Text(right))
    }

    /// The order of two texts in Latin-1: each byte is the character of its number (Unicode Standard,
    /// "Latin"). Never fails.
    pub fn order_latin1(&self, left: &[u8], right: &[u8]) -> Ordering
        ensures order { result ≡ text_order (collation_borrowed self.now)
            (latin1_text left.now) (latin1_text right.now) }
        ensures keys { result ≡ list_order
            (text_key (collation_borrowed self.now) (latin1_text left.now))
            (text_key (collation_borrowed self.now) (latin1_text right.now)) }
        ensures same { left.now ≡ right.now → result ≡ Ordering.Equal }
    {
        self.order_encoded(Latin1Text(left), Latin1Text(right))
    }

    /// The order of a text in Latin-1 and one in UTF-16. Never fails.
    pub fn order_latin1_utf16(&self, left: &[u8], right: &[u16]) -> Ordering
        ensures order { result ≡ text_order (collation_borrowed self.now)
            (latin1_text left.now) (utf16_text right.now) }
        ensures keys { result ≡ list_order
            (text_key (collation_borrowed self.now) (latin1_text left.now))
            (text_key (collation_borrowed self.now) (utf16_text right.now)) }
        ensures same { left.now ≡ right.now → result ≡ Ordering.Equal }
    {
        self.order_encoded(Latin1Text(left), Utf16Text(right))
    }

    /// The order of two texts, whatever their encodings.
    fn order_encoded<L: CommonUnits<R> + CountedText, R: CountedText>(
        &self,
        left: L,
        right: R,
    ) -> Ordering
        ensures order { result ≡ text_order (collation_borrowed self.now)
            (L.text left) (R.text right) }
        ensures keys { result ≡ list_order (text_key (collation_borrowed self.now) (L.text left))
            (text_key (collation_borrowed self.now) (R.text right)) }
        ensures same { L.units left ≡ R.units right → result ≡ Ordering.Equal }
    {
        keys_keep_text_order();
        self.tables.are_well_formed();
        left.has_scalar_values();
        right.has_scalar_values();
        self.compare_past_beginning(left, right)
    }

    /// The order of two texts by what follows their common beginning, as far as that may be passed over.
    fn compare_past_beginning<L: CommonUnits<R> + CountedText, R: CountedText>(
        &self,
        left: L,
        right: R,
    ) -> Ordering
        ensures order { result ≡ text_order (collation_borrowed self.now)
            (L.text left) (R.text right) }
        ensures same { L.units left ≡ R.units right → result ≡ Ordering.Equal }
    {
        let common = left.common_units(right);
        if common == left.unit_count() && common == right.unit_count() {
            self.is_equal_to_itself(left);
            return Ordering::Equal;
        }
        if self.reads_backward() {
            if let Some(order) = self.order_past_beginning(left, right, common) {
                return order;
            }
        } else if let Some((one, other, order)) = self.last_rests(left, right, common) {
            return match order {
                Some(order) => order,
                None => self.compare_all_levels(one, other),
            };
        }
        if common == 0 {
            self.compare_whole(left, right)
        } else {
            self.compare_by_facts(left, right)
        }
    }

    /// A text is equal to itself.
    fn is_equal_to_itself<T: EncodedText>(&self, text: T)
        ensures { text_order (collation_borrowed self.now)
            (T.text text) (T.text text) ≡ Ordering.Equal }
    {
        keys_keep_text_order();
        self.tables.are_well_formed();
        text.has_scalar_values();
    }

    /// The order of two texts from their first characters on: by these where they decide, or else by all levels.
    fn compare_whole<L: CommonUnits<R> + CountedText, R: CountedText>(
        &self,
        left: L,
        right: R,
    ) -> Ordering
        ensures { result ≡ text_order (collation_borrowed self.now)
            (L.text left) (R.text right) }
    {
        let facts = self.first_facts(left);
        let other_facts = self.first_facts(right);
        match self.order_by_first_characters(left, right, facts, other_facts) {
            Some(order) => order,
            None => self.compare_all_levels(left, right),
        }
    }

    /// The order of two texts by what is kept of the characters that they begin with, or else by all levels.
    fn compare_by_facts<L: CommonUnits<R> + CountedText, R: CountedText>(
        &self,
        left: L,
        right: R,
    ) -> Ordering
        ensures { result ≡ text_order (collation_borrowed self.now)
            (L.text left) (R.text right) }
    {
        match self.order_by_facts(left, right) {
            Some(order) => order,
            None => self.compare_all_levels(left, right),
        }
    }

    /// The order of two texts by all levels in turn.
    fn compare_all_levels<L: CountedText, R: CountedText>(&self, left: L, right: R) -> Ordering
        ensures { result ≡ text_order (collation_borrowed self.now)
            (L.text left) (R.text right) }
    {
        self.then_characters(self.compare_element_levels(left, right), left, right)
    }

    /// The order of two texts that have this order on the primary level: that, or the one on the levels after it.
    pub(crate) fn compare_after_primaries<L: CountedText, R: CountedText>(
        &self,
        order: Ordering,
        left: L,
        right: R,
    ) -> Ordering
        requires { order ≡ leading_order (collation_borrowed self.now)
            (nfd (L.text left)) (nfd (R.text right)) }
        ensures { result ≡ text_order (collation_borrowed self.now)
            (L.text left) (R.text right) }
    {
        if order != Ordering::Equal {
            return order;
        }
        self.then_characters(self.compare_later_levels(left, right), left, right)
    }

    /// The order of two texts whose elements have this order.
    fn then_characters<L: CountedText, R: CountedText>(
        &self,
        order: Ordering,
        left: L,
        right: R,
    ) -> Ordering
        ensures { let collation = collation_borrowed self.now in
            result ≡ ordering_then order (characters_order (form_by collation).identical
            (lists_by collation (nfd (L.text left))) (lists_by collation (nfd (R.text right)))) }
    {
        if order != Ordering::Equal {
            return order;
        }
        self.compare_identical_level(left, right)
    }

    /// The order of two texts on the identical level, by their decomposed characters, where that counts. Nothing is
    /// allocated.
    #[tactic(auto, unfolding(icu_order_texts::specs::TextOrder::lists_by))]
    fn compare_identical_level<L: EncodedText, R: EncodedText>(&self, left: L, right: R) -> Ordering
        ensures { let collation = collation_borrowed self.now in
            result ≡ characters_order (form_by collation).identical
            (lists_by collation (nfd (L.text left))) (lists_by collation (nfd (R.text right))) }
    {
        if self.key_form().identical {
            compare_characters(left, right)
        } else {
            Ordering::Equal
        }
    }
}
