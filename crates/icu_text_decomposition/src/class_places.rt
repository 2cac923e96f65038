//! The places in a run of marks from which those of each class go on.

ghost use Rattle.std.specs.Prelude.{◌≡◌, ◌≢◌, ◌<◌, ◌≤◌, ◌+◌, ◌∷◌, ◌++◌, [], ℕ, None, Some, IsSome, IfSome};
ghost use Rattle.ucd_normal.specs.CanonicalCombiningClass.{canonical_combining_class as class_of};
ghost use Rattle.icu_text_decomposition.specs.MarkClasses.{of_class};
ghost use Rattle.icu_text_decomposition.specs.inner.ClassNumbers.{IsUsedClass};
ghost use Rattle.icu_text_decomposition.specs.inner.FrontMarks.{front_marks, past_marks};
ghost use Rattle.icu_text_decomposition.specs.inner.Parts.{parts_left};

use crate::char_parts::Parts;
use crate::class_numbers::{CLASS_COUNT, class_number, next_used_class};
use crate::found_mark::{FoundMark, find_mark};
use crate::slot_tree::{Slot, SlotPair, Slots};
use icu_text_encodings::EncodedText;
use unicode_normalization::char::canonical_combining_class;

/// A slot for each number of a class.
type ClassSlots<T> = SlotPair<
    SlotPair<SlotPair<SlotPair<SlotPair<SlotPair<Slot<Option<Parts<T>>>>>>>>,
>;

/// Of each class of a run of marks the place of the next one that is left, where one is.
#[derive(Clone, Copy)]
pub(crate) struct ClassPlaces<T> {
    slots: ClassSlots<T>,
}

impl<T: EncodedText> ClassPlaces<T> {
    ghost use Rattle.icu_text_decomposition.specs.inner.ClassPlaces.{places_of, class_left, marks_from, found_left};

    /// No mark is left.
    pub(crate) fn new() -> ClassPlaces<T>
        ensures { (k : ℕ) → places_of result k ≡ None }
    {
        ClassPlaces {
            slots: ClassSlots::<T>::filled(None),
        }
    }

    /// The place from which the marks of a class go on.
    fn get(&self, class: usize) -> Option<Parts<T>>
        ensures { result ≡ places_of self.now class }
    {
        let number = class_number(class);
        if number < CLASS_COUNT {
            self.slots.get(number)
        } else {
            None
        }
    }

    /// Sets the place from which the marks of a class go on.
    fn set(&mut self, class: usize, place: Option<Parts<T>>)
        requires { IsSome place → IsUsedClass class }
        ensures own { places_of self.new class ≡ place }
        ensures others { (k : ℕ) → k ≢ class → places_of self.new k ≡ places_of self.old k }
    {
        let number = class_number(class);
        if number < CLASS_COUNT {
            self.slots.set(number, place);
        }
    }

    /// Of a class those marks are left that stand from this place on.
    pub(crate) fn go_on(&mut self, class: usize, from: Parts<T>)
        ensures own { class_left T.text self.new class
            ≡ of_class class (front_marks (parts_left T.text from)) }
        ensures others { (k : ℕ) → k ≢ class → places_of self.new k ≡ places_of self.old k }
    {
        match find_mark(class, from) {
            Some(found) => self.set(class, Some(found.at)),
            None => self.set(class, None),
        }
    }

    /// Adds the place of a mark, behind which the run goes on so, where its class is above this one and has none.
    fn add(&mut self, above: usize, mark: char, at: Parts<T>, after: Parts<T>)
        requires at { parts_left T.text at ≡ mark ∷ parts_left T.text after }
        requires is_mark { 0 < class_of mark }
        ensures { (k : ℕ) → above < k
            → found_left T.text k (places_of self.new k) (parts_left T.text after)
            ≡ found_left T.text k (places_of self.old k) (parts_left T.text at) }
    {
        let class = usize::from(canonical_combining_class(mark));
        if class <= above {
            return;
        }
        if self.get(class).is_some() {
            return;
        }
        self.set(class, Some(at));
    }

    /// The first place of each class above this one in the run with which these parts begin, and the place behind the
    /// run.
    pub(crate) fn find(run: Parts<T>, above: usize) -> (ClassPlaces<T>, Parts<T>)
        ensures left { (k : ℕ) → above < k → class_left T.text result.0 k
            ≡ of_class k (front_marks (parts_left T.text run)) }
        ensures past { parts_left T.text result.1 ≡ past_marks (parts_left T.text run) }
        ensures end { front_marks (parts_left T.text result.1) ≡ [] }
    {
        let mut places = ClassPlaces::new();
        let mut at = run;
        'marks: loop {
            let mut after = at;
            let Some(mark) = after.next() else {
                return (places, at);
            };
            if canonical_combining_class(mark) == 0 {
                return (places, at);
            }
            places.add(above, mark, at, after);
            at = after;
        }
    }

    /// The first mark that is left of a class.
    pub(crate) fn first_of(&self, class: usize) -> Option<FoundMark<T>>
        ensures class { IfSome result (λ f. f.class ≡ class) }
        ensures some { IfSome result (λ f. class_left T.text self.now class
            ≡ f.mark ∷ of_class class (front_marks (parts_left T.text f.after))) }
        ensures none { result ≡ None → class_left T.text self.now class ≡ [] }
    {
        find_mark(class, self.get(class)?)
    }

    /// The first mark that is left of this class and those above it.
    pub(crate) fn first_from(&self, from: usize) -> Option<FoundMark<T>>
        requires { from ≤ 256 }
        ensures class { IfSome result (λ f. (from ≤ f.class) × (f.class < 256)) }
        ensures some { IfSome result (λ f. marks_from T.text self.now from
            ≡ f.mark ∷ (of_class f.class (front_marks (parts_left T.text f.after))
            ++ marks_from T.text self.now (f.class + 1))) }
        ensures none { result ≡ None → marks_from T.text self.now from ≡ [] }
    {
        let mut class = from;
        'classes: while class < 256 {
            if let Some(found) = self.first_of(class) {
                return Some(found);
            }
            class = next_used_class(class);
        }
        None
    }
}
