//! The identical level: the characters of the decomposed texts.

ghost use Rattle.std.specs.Prelude.{◌≡◌, map};
ghost use Rattle.unicode_normalization.specs.Forms.{nfd};
ghost use Rattle.icu_order_levels.specs.ListOrder.{list_order};
ghost use Rattle.icu_order_levels.specs.Identical.{identical_rank};

use icu_text_decomposition::DecomposedText;
use icu_text_encodings::EncodedText;
use std::cmp::Ordering;

/// Where a character stands: U+FFFE, which parts merged texts, comes first, and then each by its
/// number.
fn identical_rank(character: char) -> u64
    ensures { result ≡ identical_rank character }
{
    if character == '\u{FFFE}' {
        0
    } else {
        u64::from(u32::from(character)) + 1
    }
}

/// The order of two texts by all their decomposed characters (UTS #10, "Form Sort Keys" on the identical level; UTS #35
/// part 5, "Root Collation" on U+FFFE): the first pair that differs decides, and a prefix comes first. The characters
/// are read one by one, and nothing is allocated.
pub(crate) fn compare_characters<L: EncodedText, R: EncodedText>(left: L, right: R) -> Ordering
    ensures { result ≡ list_order (map identical_rank (nfd (L.text left)))
        (map identical_rank (nfd (R.text right))) }
{
    let mut left = DecomposedText::new(left);
    let mut right = DecomposedText::new(right);
    'pairs: loop {
        match (left.next(), right.next()) {
            (Some(one), Some(other)) => {
                let order = identical_rank(one).cmp(&identical_rank(other));
                if order != Ordering::Equal {
                    return order;
                }
            }
            (one, other) => return one.is_some().cmp(&other.is_some()),
        }
    }
}
