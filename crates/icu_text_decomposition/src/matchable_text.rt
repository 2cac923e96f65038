//! Texts from which matches take marks.

ghost use Rattle.std.specs.Prelude.{◌≡◌, IfOk};
ghost use Rattle.unicode_normalization.specs.Forms.{nfd};
ghost use Rattle.icu_text_decomposition.specs.inner.Taking.{IsTaking};

use crate::counted_text::CountedText;
use crate::taking::Taking;
use crate::text_for_matches::TextForMatches;
use std::alloc::AllocError;

/// A text in canonical decomposition from which marks are taken while it is read. It never allocates: what is left of a
/// run of marks is in canonical order, so of each combining class those that come first were taken, and a place for
/// each class tells which.
pub struct MatchableText<T: CountedText> {
    taking: Taking<T>,
    ghost places: { IsTaking T.EncodedText.text taking },
}

impl<T: CountedText> MatchableText<T> {
    ghost use Rattle.icu_text_decomposition.specs.MatchableTexts.{unread_text, passed_count};

    /// A text of which nothing was read.
    pub fn new(text: T) -> Self
        ensures unread { unread_text T.EncodedText.text result ≡ nfd (T.EncodedText.text text) }
        ensures passed { passed_count T.EncodedText.text result ≡ 0 }
    {
        MatchableText {
            taking: Taking::new(text),
        }
    }
}

impl<T: CountedText> Copy for MatchableText<T> {}

impl<T: CountedText> Clone for MatchableText<T> {
    /// A text of which just as much is still to be read. A copy, `*text`, is the same and can't fail.
    fn clone(&self) -> Result<Self, AllocError>
        ensures { IfOk result (λ copy. copy ≡ self.now) }
    {
        Ok(*self)
    }
}

impl<T: CountedText> TextForMatches for MatchableText<T> {
    ghost use Rattle.icu_text_decomposition.specs.MatchableTexts.{unread_text, passed_count};

    ghost unread = { unread_text T.EncodedText.text };

    ghost passed = { passed_count T.EncodedText.text };

    fn next(&mut self) -> Option<char> {
        self.taking.next()
    }

    fn look_back(&mut self) {
        self.taking.look_back()
    }

    fn pass(&mut self) -> Option<char> {
        self.taking.pass()
    }

    fn pass_up_to(&mut self, class: u8) {
        self.taking.pass_up_to(class)
    }

    fn take(&mut self, mark: char) {
        self.taking.take(mark)
    }
}
