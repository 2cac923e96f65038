//! What a match asks of the text that it reads.

ghost use Rattle.std.specs.Prelude.{◌≡◌, ◌+◌, ◌-◌, ◌++◌, [], ℕ, List, None, take, drop, length, slice_get, option_to_list};
ghost use Rattle.icu_text_decomposition.specs.MarkClasses.{AreMarks};
ghost use Rattle.icu_text_decomposition.specs.UnreadTexts.{IsUnblocked, without_last, marks_up_to};

/// A decomposed text that is read from its front, as matches ask for it (UTS #10, "Produce Collation Element Arrays"):
/// they look at what follows, and take marks that don't follow directly.
pub trait TextForMatches {
    /// The characters that are still to be read.
    ghost unread: { Self → List ℕ };

    /// How many of them were passed over.
    ghost passed: { Self → ℕ };

    /// Reads the next character, or returns `None` where nothing is left. No character counts as passed over any more.
    fn next(&mut self) -> Option<char>
        ensures next { unread self.old ≡ option_to_list result ++ unread self.new }
        ensures end { result ≡ None → unread self.old ≡ [] }
        ensures passed { passed self.new ≡ 0 };

    /// Goes back to the next character that is to be read: none is passed over.
    fn look_back(&mut self)
        ensures unread { unread self.new ≡ unread self.old }
        ensures passed { passed self.new ≡ 0 };

    /// Passes over the next character that wasn't passed over, and returns it; `None` after the last one.
    fn pass(&mut self) -> Option<char>
        ensures unread { unread self.new ≡ unread self.old }
        ensures next { result ≡ slice_get (unread self.old) (passed self.old) }
        ensures passed { passed self.new ≡ passed self.old + length (option_to_list result) };

    /// Passes over the marks that come next and have this class or a lower one, all at once. What was passed over
    /// before has to be such marks too.
    fn pass_up_to(&mut self, class: u8)
        requires { AreMarks (class + 1) (take (passed self.old) (unread self.old)) }
        ensures unread { unread self.new ≡ unread self.old }
        ensures passed { passed self.new ≡ length (marks_up_to class (unread self.old)) };

    /// Takes the mark that was passed over last, which none of those before it blocks: the others stay in order.
    fn take(&mut self, mark: char)
        requires { IsUnblocked (unread self.old) (passed self.old) mark }
        ensures unread { unread self.new ≡ without_last (unread self.old) (passed self.old) }
        ensures passed { passed self.new ≡ passed self.old - 1 };
}

/// Reads so many characters, or all where there are fewer.
pub fn skip<X: TextForMatches>(text: &mut X, count: usize)
    ensures unread { X.unread text.new ≡ drop count (X.unread text.old) }
    ensures passed { X.passed text.new ≡ 0 }
{
    text.look_back();
    for index in 0..count {
        if text.next().is_none() {
            return;
        }
    }
}
