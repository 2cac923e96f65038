//! Marks of a text that were passed over: they are passed over together where they follow another character too.

ghost use Rattle.std.specs.Prelude.{◌≡◌, ◌+◌, ◌≤◌, ℕ, List, length};
ghost use Rattle.icu_rule_steps.specs.symbolic_mappings.inner.PassedMarks.{AreMarksTo, IsMarkRun};

/// Marks of a text one after another, each of a class up to the same one. How many characters are left of the text says
/// where they are, so they stay the same as characters before them are read.
#[derive(Clone, Copy, Debug)]
pub(crate) struct MarkRun {
    /// So many are left where they begin.
    first: usize,
    /// So many are left where they end.
    last: usize,
    /// No class is greater.
    class: u8,
}

impl MarkRun {
    /// No marks.
    pub(crate) fn none() -> MarkRun
        ensures { (text : List ℕ) → IsMarkRun result text }
    {
        MarkRun {
            first: 0,
            last: 0,
            class: 0,
        }
    }

    /// How many of the characters that are left are marks of the run, one after another, if none of these has a class
    /// above this one.
    pub(crate) fn marks_ahead(self, left: usize, greatest: u8) -> usize
        ensures within { result ≤ left }
        ensures marks { (text : List ℕ) (at : ℕ) → IsMarkRun self text → at + left ≡ length text
            → AreMarksTo greatest text at (at + result) }
    {
        if self.class <= greatest && self.last < left && left <= self.first {
            left - self.last
        } else {
            0
        }
    }

    /// The first characters of a text that has so many, if they are marks, each of a class up to this one. What was
    /// known, if there are none, or if it has the first one.
    pub(crate) fn or_first(self, len: usize, passed: usize, greatest: u8) -> MarkRun
        requires { passed ≤ len }
        ensures { (text : List ℕ) → len ≡ length text → IsMarkRun self text
            → AreMarksTo greatest text 0 passed → IsMarkRun result text }
    {
        let is_known = self.last < len && len <= self.first;
        if is_known || passed == 0 {
            return self;
        }
        MarkRun {
            first: len,
            last: len - passed,
            class: greatest,
        }
    }

    /// The same before a mark of a class above this one. Before another one, what was known.
    pub(crate) fn or_first_before(
        self,
        class: u8,
        len: usize,
        passed: usize,
        greatest: u8,
    ) -> MarkRun
        requires { passed ≤ len }
        ensures { (text : List ℕ) → len ≡ length text → IsMarkRun self text
            → AreMarksTo greatest text 0 passed → IsMarkRun result text }
    {
        if class <= greatest {
            return self;
        }
        self.or_first(len, passed, greatest)
    }
}
