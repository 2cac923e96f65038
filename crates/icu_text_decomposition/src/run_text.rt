//! A text from which marks are taken while it is read.

ghost use Rattle.std.specs.Prelude.{◌≡◌, ◌<◌, ◌≤◌, ◌++◌, [], ℕ, None, drop, nat_lt, option_to_list};
ghost use Rattle.unicode_normalization.specs.Forms.{nfd};
ghost use Rattle.ucd_normal.specs.CanonicalCombiningClass.{canonical_combining_class as class_of};
ghost use Rattle.icu_text_decomposition.specs.UnreadTexts.{IsUnblocked, without_last};
ghost use Rattle.icu_text_decomposition.specs.inner.OrderedParts.{order_left};

use crate::class_pass::ClassPass;
use crate::class_places::ClassPlaces;
use crate::ordered_parts::OrderedParts;
use icu_text_encodings::EncodedText;
use unicode_normalization::char::canonical_combining_class;

/// The number of all combining classes.
const ALL_CLASSES: usize = 256;

/// What is left of a text: of the run of marks that is read by a place for each class, where one is, and then the rest
/// of the text.
#[derive(Clone, Copy)]
pub(crate) struct RunText<T> {
    /// The places from which the marks of each class go on.
    pub(crate) places: ClassPlaces<T>,
    /// The class from which on marks may be left, or `ALL_CLASSES` where no run is read by places.
    pub(crate) class: usize,
    /// The place behind that run.
    pub(crate) rest: OrderedParts<T>,
}

impl<T: EncodedText> RunText<T> {
    ghost use Rattle.icu_text_decomposition.specs.inner.ClassPlaces.{marks_from};
    ghost use Rattle.icu_text_decomposition.specs.inner.Passes.{IsClassPass, pass_left};
    ghost use Rattle.icu_text_decomposition.specs.inner.RunTexts.{IsRunText, run_text_left};

    /// A text of which nothing was read.
    pub(crate) fn new(text: T) -> RunText<T>
        ensures is { IsRunText T.text result }
        ensures left { run_text_left T.text result ≡ nfd (T.text text) }
    {
        RunText {
            places: ClassPlaces::new(),
            class: ALL_CLASSES,
            rest: OrderedParts::new(text),
        }
    }

    /// Reads the next mark of the run that is read by places, or returns `None` where nothing is left of it.
    fn next_of_run(&mut self) -> Option<char>
        requires { IsRunText T.text self.old }
        ensures is { IsRunText T.text self.new }
        ensures next { run_text_left T.text self.old
            ≡ option_to_list result ++ run_text_left T.text self.new }
        ensures end { result ≡ None → self.new.class ≡ 256 }
    {
        let Some(found) = self.places.first_from(self.class) else {
            self.class = ALL_CLASSES;
            return None;
        };
        self.class = found.class;
        self.places.go_on(found.class, found.after);
        Some(found.mark)
    }

    /// Reads the next character.
    pub(crate) fn next(&mut self) -> Option<char>
        requires { IsRunText T.text self.old }
        ensures is { IsRunText T.text self.new }
        ensures next { run_text_left T.text self.old
            ≡ option_to_list result ++ run_text_left T.text self.new }
        ensures end { result ≡ None → run_text_left T.text self.old ≡ [] }
    {
        if let Some(mark) = self.next_of_run() {
            return Some(mark);
        }
        self.rest.next()
    }

    /// The run at the place, whether it is read class by class so far or not.
    fn run(&self) -> ClassPass<T>
        requires is { IsRunText T.text self.now }
        ensures pass { IsClassPass T.text result }
        ensures left { pass_left T.text result ≡ order_left T.text self.now.rest }
    {
        match self.rest.pass {
            Some(pass) => pass,
            None => ClassPass::new(self.rest.parts),
        }
    }

    /// Whether a run is read by places.
    pub(crate) fn has_places(&self) -> bool
        ensures { result ≡ nat_lt self.now.class 256 }
    {
        self.class < ALL_CLASSES
    }

    /// Reads the run at the front by places from now on.
    pub(crate) fn begin_run(&mut self)
        requires { IsRunText T.text self.old }
        ensures is { IsRunText T.text self.new }
        ensures left { run_text_left T.text self.new ≡ run_text_left T.text self.old }
        ensures begun { self.new.class < 256 }
    {
        if self.has_places() {
            return;
        }
        let pass = self.run();
        let class = usize::from(pass.class);
        let (places, end) = ClassPlaces::find(pass.run, class);
        self.places = places;
        self.places.go_on(class, pass.at);
        self.class = class;
        self.rest = OrderedParts {
            parts: end,
            in_order: false,
            pass: None,
        };
    }

    /// Takes the first mark of its class.
    pub(crate) fn take(&mut self, mark: char)
        requires { IsRunText T.text self.old }
        ensures is { IsRunText T.text self.new }
        ensures left { (passed : ℕ) → IsUnblocked (run_text_left T.text self.old) passed mark
            → run_text_left T.text self.new
            ≡ without_last (run_text_left T.text self.old) passed }
        ensures ahead { (passed : ℕ) → IsUnblocked (run_text_left T.text self.old) passed mark
            → marks_from T.text self.new.places (class_of mark) ++ order_left T.text self.new.rest
            ≡ drop passed (run_text_left T.text self.old) }
    {
        self.begin_run();
        let class = usize::from(canonical_combining_class(mark));
        if let Some(found) = self.places.first_of(class) {
            self.places.go_on(class, found.after);
        }
    }
}
