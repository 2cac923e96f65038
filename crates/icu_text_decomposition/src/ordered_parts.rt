//! The parts of the characters of a text, one by one in canonical order.

ghost use Rattle.std.specs.Prelude.{◌≡◌, ◌<◌, ◌∷◌, ◌++◌, [], None, true, false, IsTrue, IsSome, option_to_list};
ghost use Rattle.ucd_normal.specs.CanonicalCombiningClass.{canonical_combining_class as class_of};
ghost use Rattle.unicode_normalization.specs.Forms.{nfd};
ghost use Rattle.unicode_normalization.specs.Order.{is_ordered, canonical_order};
ghost use Rattle.icu_text_decomposition.specs.inner.FrontMarks.{front_marks};
ghost use Rattle.icu_text_decomposition.specs.inner.Parts.{parts_left};

use crate::char_parts::Parts;
use crate::class_pass::ClassPass;
use crate::in_order::are_in_order;
use icu_text_encodings::EncodedText;
use unicode_normalization::char::canonical_combining_class;

/// A place in a decomposed text. Marks that stand in order are read as they stand; those of any other run class by
/// class.
#[derive(Clone, Copy)]
pub(crate) struct OrderedParts<T> {
    /// The place in the text, up to which all was read where no run is read.
    pub(crate) parts: Parts<T>,
    /// Whether the marks that stand there are known to be in order.
    pub(crate) in_order: bool,
    /// The run that is read class by class, which begins at the place.
    pub(crate) pass: Option<ClassPass<T>>,
}

impl<T: EncodedText> OrderedParts<T> {
    ghost use Rattle.icu_text_decomposition.specs.inner.OrderedParts.{IsPlace, order_left};

    /// The beginning of a text.
    pub(crate) fn new(text: T) -> OrderedParts<T>
        ensures place { IsPlace T.text result }
        ensures left { order_left T.text result ≡ nfd (T.text text) }
    {
        OrderedParts {
            parts: Parts::new(text),
            in_order: false,
            pass: None,
        }
    }

    /// The next mark of the run that is read class by class, or `None` where there is no such run, or it ends.
    fn next_of_run(&mut self) -> Option<char>
        requires { IsPlace T.text self.old }
        ensures place { IsPlace T.text self.new }
        ensures next { order_left T.text self.old
            ≡ option_to_list result ++ order_left T.text self.new }
        ensures end { result ≡ None → self.new.pass ≡ None }
    {
        let mut pass = self.pass?;
        if let Some(mark) = pass.next() {
            self.pass = Some(pass);
            return Some(mark);
        }
        self.pass = None;
        self.parts = pass.at;
        self.in_order = false;
        None
    }

    /// The first mark of a run that is read class by class from now on.
    fn begin_run(&mut self, c: char, after: Parts<T>) -> Option<char>
        requires place { IsPlace T.text self.old }
        requires at { parts_left T.text self.old.parts ≡ c ∷ parts_left T.text after }
        requires is_mark { 0 < class_of c }
        ensures place { IsPlace T.text self.new }
        ensures next { canonical_order (parts_left T.text self.old.parts)
            ≡ option_to_list result ++ order_left T.text self.new }
        ensures some { IsSome result }
    {
        let mut pass = ClassPass::new(self.parts);
        let mark = pass.next()?;
        self.pass = Some(pass);
        Some(mark)
    }

    /// Whether a mark and those that follow it are in order.
    fn stays(&self, mark: char, after: Parts<T>) -> bool
        requires place { IsPlace T.text self.now }
        requires at { parts_left T.text self.now.parts ≡ mark ∷ parts_left T.text after }
        requires is_mark { 0 < class_of mark }
        ensures { IsTrue result
            → is_ordered (front_marks (parts_left T.text self.now.parts)) ≡ true }
    {
        self.in_order || are_in_order(mark, after)
    }

    /// The next character where no run is read class by class, or `None` after the last one.
    fn next_in_place(&mut self) -> Option<char>
        requires place { IsPlace T.text self.old }
        requires pass { self.old.pass ≡ None }
        ensures place { IsPlace T.text self.new }
        ensures next { order_left T.text self.old
            ≡ option_to_list result ++ order_left T.text self.new }
        ensures end { result ≡ None → order_left T.text self.old ≡ [] }
    {
        let mut after = self.parts;
        let c = after.next()?;
        if canonical_combining_class(c) == 0 {
            self.parts = after;
            self.in_order = false;
            return Some(c);
        }
        if self.stays(c, after) {
            self.parts = after;
            self.in_order = true;
            return Some(c);
        }
        self.begin_run(c, after)
    }

    /// The next character of the decomposed text, or `None` after the last one.
    pub(crate) fn next(&mut self) -> Option<char>
        requires { IsPlace T.text self.old }
        ensures place { IsPlace T.text self.new }
        ensures next { order_left T.text self.old
            ≡ option_to_list result ++ order_left T.text self.new }
        ensures end { result ≡ None → order_left T.text self.old ≡ [] }
    {
        if let Some(mark) = self.next_of_run() {
            return Some(mark);
        }
        self.next_in_place()
    }
}
