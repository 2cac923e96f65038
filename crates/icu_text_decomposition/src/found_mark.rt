//! The next mark of a class in a run.

ghost use Rattle.std.specs.Prelude.{◌≡◌, ◌<◌, ◌∷◌, [], None, IfSome};
ghost use Rattle.ucd_normal.specs.CanonicalCombiningClass.{canonical_combining_class as class_of};
ghost use Rattle.icu_text_decomposition.specs.MarkClasses.{of_class};
ghost use Rattle.icu_text_decomposition.specs.inner.FrontMarks.{front_marks};
ghost use Rattle.icu_text_decomposition.specs.inner.Parts.{parts_left};

use crate::char_parts::Parts;
use icu_text_encodings::EncodedText;
use unicode_normalization::char::canonical_combining_class;

/// A mark of a run, with the places where it stands and behind it.
#[derive(Clone, Copy)]
pub(crate) struct FoundMark<T> {
    pub(crate) mark: char,
    pub(crate) class: usize,
    pub(crate) at: Parts<T>,
    pub(crate) after: Parts<T>,
}

/// The next mark of a class in a run, from a place in it on; `None` where the run ends.
pub(crate) fn find_mark<T: EncodedText>(class: usize, from: Parts<T>) -> Option<FoundMark<T>>
    ensures class { IfSome result (λ f. f.class ≡ class) }
    ensures own { IfSome result (λ f. (0 < class_of f.mark) × (class_of f.mark ≡ class)) }
    ensures at { IfSome result (λ f. of_class class (front_marks (parts_left T.text from))
        ≡ of_class class (front_marks (parts_left T.text f.at))) }
    ensures next { IfSome result (λ f. of_class class (front_marks (parts_left T.text from))
        ≡ f.mark ∷ of_class class (front_marks (parts_left T.text f.after))) }
    ensures none { result ≡ None → of_class class (front_marks (parts_left T.text from)) ≡ [] }
{
    let mut at = from;
    'marks: loop {
        let mut after = at;
        let mark = after.next()?;
        let next = usize::from(canonical_combining_class(mark));
        if next == 0 {
            return None;
        }
        if next == class {
            return Some(FoundMark {
                mark,
                class,
                at,
                after,
            });
        }
        at = after;
    }
}
