//! A decomposed text whose first marks stand by their classes.

ghost use Rattle.std.specs.Prelude.{◌≡◌, ◌↔◌, ◌<◌, ◌≤◌, ◌∷◌, ◌++◌, [], length, drop, slice_get, option_to_list, None, true, is_ok, if◌then◌else◌, OnOk, MatchOption};
ghost use Rattle.std.specs.List.{list_any};
ghost use Rattle.ucd_normal.specs.CanonicalCombiningClass.{canonical_combining_class as class_of};
ghost use Rattle.unicode_normalization.specs.Order.{is_starter};
ghost use Rattle.icu_element_matches.specs.MarksAhead.{BeginsWithMark};
ghost use Rattle.icu_element_matches.specs.inner.MarkQueues.{queued_marks, HasNoMark};

use crate::mark_queue::MarkQueue;
use crate::queues::{count_queued, get_queued, push_mark, skip_queued, take_queued};
use crate::text::Text;
use std::alloc::{AllocError, Global};
use unicode_normalization::char::canonical_combining_class;

/// A decomposed text, of which some characters were read: the others are still to be read, in order. The marks with
/// which it goes on stand by their classes once a match has looked at them, so that a match looks at the first of each
/// class, and takes one out without moving the others. In canonical order there are at most 55 classes in a run of
/// marks.
#[derive(Debug, Drop)]
pub struct ClassedText {
    pub(crate) queues: Vec<MarkQueue>,
    pub(crate) rest: Text,
    ghost read: { length (queued_marks queues.items) ≤ rest.next },
}

/// Whether a starter is among the characters.
fn has_starter(text: &[char]) -> bool
    ensures { result ≡ list_any is_starter text.now }
{
    text.iter().any(|c| canonical_combining_class(*c) == 0)
}

impl ClassedText {
    ghost use Rattle.icu_element_matches.specs.Texts.{still_unread, unread};

    /// A text of which nothing was read.
    #[tactic(auto, unfolding(crate::specs::Texts::still_unread, crate::specs::Texts::unread))]
    pub fn new(alloc: Global, chars: Vec<char>) -> ClassedText
        ensures { still_unread result ≡ chars.items }
    {
        ClassedText {
            queues: Vec::new(alloc),
            rest: Text::new(chars),
        }
    }

    /// The character so many after the next one.
    #[tactic(auto, unfolding(crate::specs::Texts::still_unread))]
    pub fn get(&self, index: usize) -> Option<char>
        ensures { result ≡ slice_get (still_unread self.now) index }
    {
        match get_queued(self.queues.as_slice(), index) {
            Ok(c) => Some(c),
            Err(behind) => self.rest.get(behind),
        }
    }

    /// The next character.
    pub fn first(&self) -> Option<char>
        ensures { result ≡ slice_get (still_unread self.now) 0 }
    {
        self.get(0)
    }

    /// Whether none is still to be read.
    pub fn is_empty(&self) -> bool
        ensures { result ≡ true ↔ still_unread self.now ≡ [] }
    {
        self.first().is_none()
    }

    /// How many characters are still to be read.
    #[tactic(auto, unfolding(crate::specs::Texts::still_unread, crate::specs::Texts::unread))]
    pub fn len(&self) -> usize
        ensures { result ≡ length (still_unread self.now) }
    {
        count_queued(self.queues.as_slice(), self.rest.next) + self.rest.len()
    }

    /// The characters that are still to be read, or `None` where they begin with a mark that stands by its class.
    #[tactic(auto, unfolding(crate::specs::Texts::still_unread))]
    pub fn as_slice(&self) -> Option<&[char]>
        ensures { MatchOption result (BeginsWithMark (still_unread self.now))
            (λ chars. chars.now ≡ still_unread self.now) }
    {
        match get_queued(self.queues.as_slice(), 0) {
            Ok(_) => None,
            Err(_) => Some(self.rest.as_slice()),
        }
    }

    /// Reads the next character: `None` where nothing is left.
    #[tactic(auto, unfolding(crate::specs::Texts::still_unread))]
    pub fn take_first(&mut self) -> Option<char>
        ensures taken { still_unread self.old ≡ option_to_list result ++ still_unread self.new }
        ensures ends { result ≡ None ↔ still_unread self.old ≡ [] }
    {
        if let Some(mark) = take_queued(&mut self.queues) {
            return Some(mark);
        }
        self.queues.clear();
        self.rest.take_first()
    }

    /// Reads so many characters, or all where there are fewer.
    pub fn skip(&mut self, count: usize)
        ensures { still_unread self.new ≡ drop count (still_unread self.old) }
    {
        for index in 0..count {
            if self.take_first().is_none() {
                return;
            }
        }
    }

    /// Whether a starter stands behind so many characters.
    #[tactic(auto, unfolding(crate::specs::Texts::still_unread, crate::specs::Texts::unread))]
    pub fn has_starter_from(&self, from: usize) -> bool
        requires { from ≤ length (still_unread self.now) }
        ensures { result ≡ list_any is_starter (drop from (still_unread self.now)) }
    {
        let behind = skip_queued(self.queues.as_slice(), from);
        has_starter(&self.rest.as_slice()[behind..])
    }

    /// One more character comes after those that are still to be read. The room of characters that were read is used
    /// again once they are as many as those to come, and no marks stand by their classes. If an allocation fails, what
    /// is still to be read is as it was.
    #[tactic(auto, unfolding(crate::specs::Texts::still_unread, crate::specs::Texts::unread))]
    pub fn push(&mut self, c: char) -> Result<(), AllocError>
        ensures { still_unread self.new
            ≡ (if is_ok result then still_unread self.old ++ c ∷ [] else still_unread self.old) }
    {
        if self.queues.is_empty() {
            self.rest.push(c)
        } else {
            self.rest.append(c)
        }
    }

    /// The marks up to the next starter stand by their classes.
    #[tactic(auto, unfolding(crate::specs::Texts::still_unread, crate::specs::Texts::unread))]
    pub(crate) fn gather_marks(&mut self, alloc: Global) -> Result<(), AllocError>
        ensures left { OnOk result (still_unread self.new ≡ still_unread self.old) }
        ensures gathered { OnOk result (HasNoMark (unread self.new.rest)) }
    {
        'marks: while let Some(mark) = self.rest.first() {
            let class = canonical_combining_class(mark);
            if class == 0 {
                return Ok(());
            }
            self.rest.read_one();
            push_mark(alloc, &mut self.queues, class, mark)?;
        }
        Ok(())
    }
}
