//! Texts sorted where they stand.

ghost use Rattle.std.specs.Prelude.{◌≡◌, chars};
ghost use Rattle.std.specs.List.Sorted.{IsPermutation, IsSortedBy};
ghost use Rattle.std.specs.Ordering.{is_lt};
ghost use Rattle.icu_collator.specs.Collators.{collation_borrowed};
ghost use Rattle.icu_text_encodings.specs.DecodedTexts.{utf8_text};
ghost use Rattle.icu_order_texts.specs.TextOrder.{text_order};

use crate::CollatorBorrowed;
use crate::laws::text_order_is_total;
use std::cmp::Ordering;

/// Sorts texts where they stand, by the order of a collator (UTS #10, "Compare Sort Keys"). Those that compare Equal
/// come in any order. Never fails, and does not allocate.
pub fn sort_texts(collator: &CollatorBorrowed<'_>, texts: &mut [&str])
    ensures permutation { IsPermutation texts.old texts.new }
    ensures sorted { let collation = collation_borrowed collator.now in IsSortedBy
        (λ one other. is_lt (text_order collation (chars one.now) (chars other.now))) texts.new }
{
    text_order_is_total();
    texts.sort_unstable_by(
        |one, other| -> Ordering
            ensures { result ≡ text_order (collation_borrowed collator.entry.now)
                (chars one.now.now) (chars other.now.now) }
        { collator.order(*one, *other) },
    );
}

/// Sorts names where they stand, as `sort_texts` does. A name is bytes in UTF-8 that may be damaged: each maximal
/// ill-formed part counts as one U+FFFD (Unicode Standard, "Unicode Encoding Forms"). Never fails, and does not
/// allocate.
pub fn sort_utf8(collator: &CollatorBorrowed<'_>, names: &mut [&[u8]])
    ensures permutation { IsPermutation names.old names.new }
    ensures sorted { let collation = collation_borrowed collator.now in IsSortedBy
        (λ one other. is_lt (text_order collation (utf8_text one.now) (utf8_text other.now)))
        names.new }
{
    text_order_is_total();
    names.sort_unstable_by(
        |one, other| -> Ordering
            ensures { result ≡ text_order (collation_borrowed collator.entry.now)
                (utf8_text one.now.now) (utf8_text other.now.now) }
        { collator.order_utf8(*one, *other) },
    );
}
