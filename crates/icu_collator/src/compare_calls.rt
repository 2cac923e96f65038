//! The order of texts by the names of icu_collator, as results that are always `Ok`.

ghost use Rattle.std.specs.Prelude.{◌≡◌, IfOk, IsOk, Ok, chars};
ghost use Rattle.icu_text_encodings.specs.DecodedTexts.{latin1_text, utf16_text, utf8_text};
ghost use Rattle.icu_order_levels.specs.ListOrder.{list_order};
ghost use Rattle.icu_order_texts.specs.TextOrder.{text_order, text_key};

use crate::collator::CollatorBorrowed;
use std::alloc::AllocError;
use std::cmp::Ordering;

impl<'a> CollatorBorrowed<'a> {
    ghost use Rattle.icu_collator.specs.Collators.{collation_borrowed};

    /// The order of two texts, as `order` has it. Always `Ok`: the result is there for callers that hand errors on.
    pub fn compare(&self, left: &str, right: &str) -> Result<Ordering, AllocError>
        ensures succeeds { IsOk result }
        ensures order { IfOk result (λ o. o ≡ text_order (collation_borrowed self.now)
            (chars left.now) (chars right.now)) }
        ensures keys { IfOk result (λ o. o ≡ list_order
            (text_key (collation_borrowed self.now) (chars left.now))
            (text_key (collation_borrowed self.now) (chars right.now))) }
        ensures same { left.now ≡ right.now → result ≡ Ok Ordering.Equal }
    {
        Ok(self.order(left, right))
    }

    /// The order of two texts in UTF-8 that may be damaged, as `order_utf8` has it. Always `Ok`.
    pub fn compare_utf8(&self, left: &[u8], right: &[u8]) -> Result<Ordering, AllocError>
        ensures succeeds { IsOk result }
        ensures order { IfOk result (λ o. o ≡ text_order (collation_borrowed self.now)
            (utf8_text left.now) (utf8_text right.now)) }
        ensures keys { IfOk result (λ o. o ≡ list_order
            (text_key (collation_borrowed self.now) (utf8_text left.now))
            (text_key (collation_borrowed self.now) (utf8_text right.now))) }
        ensures same { left.now ≡ right.now → result ≡ Ok Ordering.Equal }
    {
        Ok(self.order_utf8(left, right))
    }

    /// The order of two texts in UTF-16, as `order_utf16` has it. Always `Ok`.
    pub fn compare_utf16(&self, left: &[u16], right: &[u16]) -> Result<Ordering, AllocError>
        ensures succeeds { IsOk result }
        ensures order { IfOk result (λ o. o ≡ text_order (collation_borrowed self.now)
            (utf16_text left.now) (utf16_text right.now)) }
        ensures keys { IfOk result (λ o. o ≡ list_order
            (text_key (collation_borrowed self.now) (utf16_text left.now))
            (text_key (collation_borrowed self.now) (utf16_text right.now))) }
        ensures same { left.now ≡ right.now → result ≡ Ok Ordering.Equal }
    {
        Ok(self.order_utf16(left, right))
    }

    /// The order of two texts in Latin-1, as `order_latin1` has it. Always `Ok`.
    pub fn compare_latin1(&self, left: &[u8], right: &[u8]) -> Result<Ordering, AllocError>
        ensures succeeds { IsOk result }
        ensures order { IfOk result (λ o. o ≡ text_order (collation_borrowed self.now)
            (latin1_text left.now) (latin1_text right.now)) }
        ensures keys { IfOk result (λ o. o ≡ list_order
            (text_key (collation_borrowed self.now) (latin1_text left.now))
            (text_key (collation_borrowed self.now) (latin1_text right.now))) }
        ensures same { left.now ≡ right.now → result ≡ Ok Ordering.Equal }
    {
        Ok(self.order_latin1(left, right))
    }

    /// The order of a text in Latin-1 and one in UTF-16, as `order_latin1_utf16` has it. Always `Ok`.
    pub fn compare_latin1_utf16(&self, left: &[u8], right: &[u16]) -> Result<Ordering, AllocError>
        ensures succeeds { IsOk result }
        ensures order { IfOk result (λ o. o ≡ text_order (collation_borrowed self.now)
            (latin1_text left.now) (utf16_text right.now)) }
        ensures keys { IfOk result (λ o. o ≡ list_order
            (text_key (collation_borrowed self.now) (latin1_text left.now))
            (text_key (collation_borrowed self.now) (utf16_text right.now))) }
        ensures same { left.now ≡ right.now → result ≡ Ok Ordering.Equal }
    {
        Ok(self.order_latin1_utf16(left, right))
    }
}
