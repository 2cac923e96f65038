//! Marks of one combining class.

ghost use Rattle.std.specs.Prelude.{◌≡◌, ◌<◌, ◌≤◌, ◌+◌, ◌∷◌, ◌++◌, [], None, length, slice_get, option_to_list, IsTrue, IfOk, OnOk};
ghost use Rattle.ucd_normal.specs.CanonicalCombiningClass.{canonical_combining_class as class_of};
ghost use Rattle.icu_element_matches.specs.inner.ClassMarks.{are_of_class};

use std::alloc::{AllocError, Global};
use std::collections::VecDeque;

/// Marks of one combining class, which followed one another in a text, in their order.
#[derive(Debug, Drop)]
pub(crate) struct MarkQueue {
    pub(crate) class: u8,
    pub(crate) marks: VecDeque<char>,
    ghost is_mark: { 0 < class },
    ghost all: { IsTrue (are_of_class class marks.items) },
}

impl MarkQueue {
    /// One mark.
    pub(crate) fn new(alloc: Global, class: u8, mark: char) -> Result<MarkQueue, AllocError>
        requires is_mark { 0 < class }
        requires class { class_of mark ≡ class }
        ensures class { IfOk result (λ q. q.class ≡ class) }
        ensures marks { IfOk result (λ q. q.marks.items ≡ mark ∷ []) }
    {
        let mut marks = VecDeque::new(alloc);
        marks.push_back(mark)?;
        Ok(MarkQueue { class, marks })
    }

    /// One more mark of the class comes last.
    pub(crate) fn push(&mut self, mark: char) -> Result<(), AllocError>
        requires { class_of mark ≡ self.old.class }
        ensures class { self.new.class ≡ self.old.class }
        ensures more { length self.new.marks.items ≤ length self.old.marks.items + 1 }
        ensures marks { OnOk result (self.new.marks.items ≡ self.old.marks.items ++ mark ∷ []) }
    {
        self.marks.push_back(mark)?;
        Ok(())
    }

    /// The mark at an index.
    pub(crate) fn get(&self, index: usize) -> Option<char>
        ensures mark { result ≡ slice_get self.now.marks.items index }
        ensures none { result ≡ None → length self.now.marks.items ≤ index }
    {
        self.marks.get(index).copied()
    }

    /// The first mark.
    pub(crate) fn first(&self) -> Option<char>
        ensures { result ≡ slice_get self.now.marks.items 0 }
    {
        self.get(0)
    }

    /// Takes the first mark.
    pub(crate) fn take_first(&mut self) -> Option<char>
        ensures marks { self.old.marks.items ≡ option_to_list result ++ self.new.marks.items }
        ensures end { result ≡ None → self.old.marks.items ≡ [] }
        ensures class { self.new.class ≡ self.old.class }
    {
        self.marks.pop_front()
    }
}
