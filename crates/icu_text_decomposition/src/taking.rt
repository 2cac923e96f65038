//! A place ahead of the text that is still to be read, up to which characters were passed over.

ghost use Rattle.std.specs.Prelude.{◌≡◌, ◌≤◌, ◌+◌, ◌∷◌, ◌++◌, [], ℕ, List, None, false, IfSome, take, option_to_list};
ghost use Rattle.unicode_normalization.specs.Forms.{nfd};
ghost use Rattle.icu_text_decomposition.specs.MarkClasses.{AreMarks};
ghost use Rattle.icu_text_decomposition.specs.UnreadTexts.{IsUnblocked, without_last, marks_up_to};
ghost use Rattle.icu_text_decomposition.specs.inner.BeginningMarks.{BeginsAbove};
ghost use Rattle.icu_text_decomposition.specs.declared.run_text.RunText.{RunText};
ghost use Rattle.icu_text_decomposition.specs.inner.OrderedParts.{IsPlace, order_left};
ghost use Rattle.icu_text_decomposition.specs.inner.RunTexts.{IsRunText};
ghost use Rattle.icu_text_decomposition.specs.inner.Taking.{IsTaking, IsLook, unread_of, ahead_of, passed_of, left_behind};

use crate::char_parts::Parts;
use crate::found_mark::find_mark;
use crate::ordered_parts::OrderedParts;
use crate::run_text::RunText;
use icu_text_encodings::EncodedText;
use unicode_normalization::char::canonical_combining_class;

/// A place ahead.
#[derive(Clone, Copy)]
pub(crate) enum Look<T> {
    /// The marks of the run that have classes below this one were passed over.
    Class(usize),
    /// Those marks were passed over, and of this class those up to a place.
    Mark(usize, Parts<T>),
    /// The run was passed over, and what stands up to a place behind it.
    Rest(OrderedParts<T>),
}

/// A text that is still to be read, and a place ahead.
#[derive(Clone, Copy)]
pub(crate) struct Taking<T> {
    pub(crate) text: RunText<T>,
    pub(crate) look: Look<T>,
}

impl<T: EncodedText> Taking<T> {
    /// A text of which nothing was read.
    pub(crate) fn new(text: T) -> Taking<T>
        ensures taking { IsTaking T.text result }
        ensures unread { unread_of T.text result ≡ nfd (T.text text) }
        ensures look { ahead_of T.text result ≡ unread_of T.text result }
    {
        let text = RunText::new(text);
        Taking {
            text,
            look: Look::Class(text.class),
        }
    }

    /// Reads the next character. None is passed over any more.
    pub(crate) fn next(&mut self) -> Option<char>
        requires { IsTaking T.text self.old }
        ensures taking { IsTaking T.text self.new }
        ensures next { unread_of T.text self.old
            ≡ option_to_list result ++ unread_of T.text self.new }
        ensures end { result ≡ None → unread_of T.text self.old ≡ [] }
        ensures look { ahead_of T.text self.new ≡ unread_of T.text self.new }
    {
        let next = self.text.next();
        self.look_back();
        next
    }

    /// Goes back to the next character: none is passed over any more.
    pub(crate) fn look_back(&mut self)
        requires { IsRunText T.text self.old.text }
        ensures taking { IsTaking T.text self.new }
        ensures unread { unread_of T.text self.new ≡ unread_of T.text self.old }
        ensures look { ahead_of T.text self.new ≡ unread_of T.text self.new }
    {
        self.look = Look::Class(self.text.class);
    }

    /// The next character from a class of the run on, and the place behind it.
    fn ahead_of_class(&self, class: usize) -> Option<(char, Look<T>)>
        requires text { IsRunText T.text self.now.text }
        requires class { class ≤ 256 }
        ensures look { IfSome result (λ p. IsLook T.text p.1) }
        ensures next { IfSome result (λ p. left_behind T.text self.now.text (Look.Class class)
            ≡ p.0 ∷ left_behind T.text self.now.text p.1) }
        ensures none { result ≡ None
            → left_behind T.text self.now.text (Look.Class class) ≡ [] }
    {
        match self.text.places.first_from(class) {
            Some(found) => Some((found.mark, Look::Mark(found.class, found.after))),
            None => behind_run(self.text.rest),
        }
    }

    /// The next character that wasn't passed over, and the place behind it.
    fn ahead(&self) -> Option<(char, Look<T>)>
        requires { IsTaking T.text self.now }
        ensures look { IfSome result (λ p. IsLook T.text p.1) }
        ensures next { IfSome result (λ p. ahead_of T.text self.now
            ≡ p.0 ∷ left_behind T.text self.now.text p.1) }
        ensures none { result ≡ None → ahead_of T.text self.now ≡ [] }
    {
        match self.look {
            Look::Class(class) => self.ahead_of_class(class),
            Look::Mark(class, at) => match find_mark(class, at) {
                Some(found) => Some((found.mark, Look::Mark(class, found.after))),
                None => self.ahead_of_class(class + 1),
            },
            Look::Rest(place) => behind_run(place),
        }
    }

    /// Passes over the next character that wasn't passed over, and returns it; `None` after the last one.
    pub(crate) fn pass(&mut self) -> Option<char>
        requires { IsTaking T.text self.old }
        ensures taking { IsTaking T.text self.new }
        ensures unread { unread_of T.text self.new ≡ unread_of T.text self.old }
        ensures next { ahead_of T.text self.old
            ≡ option_to_list result ++ ahead_of T.text self.new }
        ensures end { result ≡ None → ahead_of T.text self.old ≡ [] }
    {
        let (c, look) = self.ahead()?;
        self.look = look;
        Some(c)
    }

    /// Whether a mark of this class or a lower one comes next.
    fn goes_on(&self, class: u8) -> bool
        requires { IsTaking T.text self.now }
        ensures { result ≡ false → BeginsAbove (class + 1) (ahead_of T.text self.now) }
    {
        match self.ahead() {
            Some((c, _)) => is_mark_up_to(c, class),
            None => false,
        }
    }

    /// Passes over the marks that come next and have this class or a lower one. Where there are any, the run is read by
    /// places from now on, so that no mark between is looked at.
    pub(crate) fn pass_up_to(&mut self, class: u8)
        requires taking { IsTaking T.text self.old }
        requires marks { AreMarks (class + 1)
            (take (passed_of T.text self.old) (unread_of T.text self.old)) }
        ensures taking { IsTaking T.text self.new }
        ensures unread { unread_of T.text self.new ≡ unread_of T.text self.old }
        ensures passed { unread_of T.text self.old
            ≡ marks_up_to class (unread_of T.text self.old) ++ ahead_of T.text self.new }
    {
        if self.text.has_places() || self.goes_on(class) {
            self.text.begin_run();
            self.look = Look::Class(self.text.class.max(usize::from(class) + 1));
        }
    }

    /// Takes the mark that was passed over last.
    pub(crate) fn take(&mut self, mark: char)
        requires taking { IsTaking T.text self.old }
        requires unblocked { IsUnblocked (unread_of T.text self.old)
            (passed_of T.text self.old) mark }
        ensures taking { IsTaking T.text self.new }
        ensures unread { unread_of T.text self.new
            ≡ without_last (unread_of T.text self.old) (passed_of T.text self.old) }
        ensures ahead { ahead_of T.text self.new ≡ ahead_of T.text self.old }
    {
        self.text.take(mark);
        self.look = Look::Class(usize::from(canonical_combining_class(mark)));
    }
}

/// Whether a character is a mark of this class or a lower one.
fn is_mark_up_to(c: char, class: u8) -> bool
    ensures { result ≡ false → (cs : List ℕ) → BeginsAbove (class + 1) (c ∷ cs) }
{
    let own = canonical_combining_class(c);
    own != 0 && own <= class
}

/// The next character at a place behind the run, and the place behind it.
fn behind_run<T: EncodedText>(place: OrderedParts<T>) -> Option<(char, Look<T>)>
    requires { IsPlace T.text place }
    ensures look { IfSome result (λ p. IsLook T.text p.1) }
    ensures next { IfSome result (λ p. (t : RunText T)
        → order_left T.text place ≡ p.0 ∷ left_behind T.text t p.1) }
    ensures none { result ≡ None → order_left T.text place ≡ [] }
{
    let mut after = place;
    let c = after.next()?;
    Some((c, Look::Rest(after)))
}
