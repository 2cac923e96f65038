//! The characters of a text in canonical decomposition.

ghost use Rattle.std.specs.Prelude.{◌≡◌, ℕ, List};
ghost use Rattle.std.specs.Iterator.{YieldsFirst, item_count};
ghost use Rattle.icu_text_encodings.specs.DecodedTexts.{SpellsText};
ghost use Rattle.unicode_normalization.specs.Forms.{nfd};
ghost use Rattle.icu_text_decomposition.specs.inner.OrderedParts.{IsPlace, order_left};

use crate::ordered_parts::OrderedParts;
use icu_text_encodings::EncodedText;
use std::marker::Model;

/// The characters of a text in canonical decomposition, one by one (Unicode Standard, D118). A contract sees it as the
/// list of the characters that are left. It never allocates, however long a run of marks is.
///
/// A character that isn't a mark is decomposed once, and once more where a mark stands before it. Marks that stand in
/// canonical order are decomposed twice. Marks of any other run are read class by class: in one pass over the run for
/// each class that occurs in it, and two more at its beginning.
#[derive(Drop)]
pub struct DecomposedText<T: EncodedText> {
    place: OrderedParts<T>,
}

impl<T: EncodedText> Model for DecomposedText<T> {
    ghost Value = { List ℕ };

    ghost view = { λ it. order_left T.text it.place };

    ghost invariant = { λ it. IsPlace T.text it.place };
}

impl<T: EncodedText> DecomposedText<T> {
    /// All characters of a text.
    #[inline]
    pub fn new(text: T) -> Self
        ensures text { result ≡ nfd (T.text text) }
        ensures spells { SpellsText result (nfd (T.text text)) }
    {
        DecomposedText {
            place: OrderedParts::new(text),
        }
    }
}

impl<T: EncodedText> Iterator for DecomposedText<T> {
    type Item = char;

    ghost next_gives = { YieldsFirst (λ left. left) };

    ghost remaining = { item_count (λ left. left) };

    #[inline]
    fn next(&mut self) -> Option<char> {
        self.place.next()
    }
}
