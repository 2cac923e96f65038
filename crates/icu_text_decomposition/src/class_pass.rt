//! Runs of marks that are read class by class.

ghost use Rattle.std.specs.Prelude.{◌≡◌, ◌<◌, ◌++◌, ◌∷◌, [], Some, None, false, IsTrue, IfSome, min, option_to_list};
ghost use Rattle.ucd_normal.specs.CanonicalCombiningClass.{canonical_combining_class as class_of};
ghost use Rattle.unicode_normalization.specs.Order.{canonical_order};
ghost use Rattle.icu_text_decomposition.specs.inner.FrontMarks.{front_marks, past_marks};
ghost use Rattle.icu_text_decomposition.specs.inner.MarksLeft.{class_limit};
ghost use Rattle.icu_text_decomposition.specs.inner.Parts.{parts_left};

use crate::char_parts::Parts;
use icu_text_encodings::EncodedText;
use unicode_normalization::char::canonical_combining_class;

/// A run of marks, of which those of one class after another are read: one pass over the run for each class. A pass
/// also finds the class of the next one.
#[derive(Clone, Copy)]
pub(crate) struct ClassPass<T> {
    /// The place where the run begins.
    pub(crate) run: Parts<T>,
    /// The place up to which the pass came.
    pub(crate) at: Parts<T>,
    /// The class whose marks are read.
    pub(crate) class: u8,
    /// The least class above it that stands before the place, if there is one.
    pub(crate) next: Option<u8>,
}

/// The lesser of a class and the next one, if there is one.
fn lesser(next: Option<u8>, class: u8) -> Option<u8>
    ensures { class_limit result ≡ min (class_limit next) class }
{
    match next {
        Some(least) if least <= class => Some(least),
        _ => Some(class),
    }
}

impl<T: EncodedText> ClassPass<T> {
    ghost use Rattle.icu_text_decomposition.specs.inner.Passes.{IsClassPass, pass_left};

    /// The run with which the parts of a text begin, of which nothing was read. No mark has class 0, so the first pass
    /// finds the least class.
    pub(crate) fn new(run: Parts<T>) -> ClassPass<T>
        ensures pass { IsClassPass T.text result }
        ensures run { result.run ≡ run }
        ensures left { pass_left T.text result ≡ canonical_order (parts_left T.text run) }
    {
        ClassPass {
            run,
            at: run,
            class: 0,
            next: None,
        }
    }

    /// Passes the next mark, after which the parts go on so. Returns whether it is the next of the class that is read.
    fn pass(&mut self, mark: char, class: u8, after: Parts<T>) -> bool
        requires pass { IsClassPass T.text self.old }
        requires at { parts_left T.text self.old.at ≡ mark ∷ parts_left T.text after }
        requires class { class ≡ class_of mark }
        requires is_mark { 0 < class }
        ensures pass { IsClassPass T.text self.new }
        ensures run { self.new.run ≡ self.old.run }
        ensures class { self.new.class ≡ self.old.class }
        ensures at { self.new.at ≡ after }
        ensures given { IsTrue result
            → pass_left T.text self.old ≡ mark ∷ pass_left T.text self.new }
        ensures passed { result ≡ false
            → pass_left T.text self.old ≡ pass_left T.text self.new }
    {
        self.at = after;
        if class == self.class {
            return true;
        }
        if class > self.class {
            self.next = lesser(self.next, class);
        }
        false
    }

    /// The next mark of the class, or `None` where the run ends.
    fn next_of_class(&mut self) -> Option<char>
        requires pass { IsClassPass T.text self.old }
        ensures pass { IsClassPass T.text self.new }
        ensures run { self.new.run ≡ self.old.run }
        ensures class { self.new.class ≡ self.old.class }
        ensures next { pass_left T.text self.old
            ≡ option_to_list result ++ pass_left T.text self.new }
        ensures end { result ≡ None → front_marks (parts_left T.text self.new.at) ≡ [] }
    {
        'marks: loop {
            let mut after = self.at;
            let mark = after.next()?;
            let class = canonical_combining_class(mark);
            if class == 0 {
                return None;
            }
            if self.pass(mark, class, after) {
                return Some(mark);
            }
        }
    }

    /// Begins the pass of the next class.
    fn begin(&mut self, class: u8)
        requires pass { IsClassPass T.text self.old }
        requires end { front_marks (parts_left T.text self.old.at) ≡ [] }
        requires next { self.old.next ≡ Some class }
        ensures pass { IsClassPass T.text self.new }
        ensures run { self.new.run ≡ self.old.run }
        ensures class { self.new.class ≡ class }
        ensures rises { self.old.class < class }
        ensures left { pass_left T.text self.old ≡ pass_left T.text self.new }
    {
        self.at = self.run;
        self.class = class;
        self.next = None;
    }

    /// The next mark of the run, or `None` after the last one.
    pub(crate) fn next(&mut self) -> Option<char>
        requires pass { IsClassPass T.text self.old }
        ensures pass { IsClassPass T.text self.new }
        ensures some { IfSome result (λ mark. pass_left T.text self.old
            ≡ mark ∷ pass_left T.text self.new) }
        ensures none { result ≡ None → pass_left T.text self.old
            ≡ canonical_order (parts_left T.text self.new.at) }
        ensures past { result ≡ None
            → parts_left T.text self.new.at ≡ past_marks (parts_left T.text self.old.run) }
    {
        'classes: loop {
            if let Some(mark) = self.next_of_class() {
                return Some(mark);
            }
            let class = self.next?;
            self.begin(class);
        }
    }
}
