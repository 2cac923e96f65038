//! Whether marks stand in canonical order.

ghost use Rattle.std.specs.Prelude.{◌≡◌, ◌∷◌, true, IsTrue};
ghost use Rattle.unicode_normalization.specs.Order.{is_ordered};
ghost use Rattle.icu_text_decomposition.specs.inner.FrontMarks.{front_marks};
ghost use Rattle.icu_text_decomposition.specs.inner.Parts.{parts_left};

use crate::char_parts::Parts;
use icu_text_encodings::EncodedText;
use unicode_normalization::char::canonical_combining_class;

/// Whether a mark and the marks that follow it up to the next starter stand in canonical order.
pub(crate) fn are_in_order<T: EncodedText>(mark: char, after: Parts<T>) -> bool
    ensures { IsTrue result → is_ordered (mark ∷ front_marks (parts_left T.text after)) ≡ true }
{
    let mut class = canonical_combining_class(mark);
    let mut rest = after;
    'marks: while let Some(c) = rest.next() {
        let next = canonical_combining_class(c);
        if next == 0 {
            return true;
        }
        if next < class {
            return false;
        }
        class = next;
    }
    true
}
