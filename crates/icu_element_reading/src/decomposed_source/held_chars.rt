//! Decomposed characters that a source has read and not given yet.

ghost use Rattle.std.specs.Prelude.{◌≡◌, ◌+◌, ◌<◌, ◌≤◌, ◌∷◌, ◌++◌, [], true, false, take, drop, vec_len, IfSome, IfNone, OnSome, OnOk, OnErr, IsTrue};
ghost use Rattle.std.specs.List.{list_all};
ghost use Rattle.unicode_normalization.specs.Decompose.{decompose_canonical};
ghost use Rattle.unicode_normalization.specs.Order.{is_nonstarter, canonical_order};

use std::alloc::{AllocError, Global};
use ucd_normal::{Form, canonical_combining_class};
use unicode_normalization::char::decomposition;

/// Decomposed characters, in three parts: those that were taken, those that are ready in canonical order, and the marks
/// behind the last starter, whose order is still open. Once all that were ready are taken, only those marks are kept.
#[derive(Drop)]
pub(crate) struct HeldChars {
    chars: Vec<char>,
    next: usize,
    ready: usize,
    ghost taken: { next ≤ ready },
    ghost within: { ready ≤ vec_len chars },
    ghost kept: { ready ≤ next → ready ≡ 0 },
    ghost marks: { list_all is_nonstarter (drop ready chars.items) ≡ true },
}

impl HeldChars {
    ghost use Rattle.icu_element_reading.specs.inner.HeldChars.{held_before, held_count, marks_count, PassesOn};

    /// None.
    pub(crate) fn new(alloc: Global) -> HeldChars
        ensures { held_count result ≡ 0 }
    {
        HeldChars {
            chars: Vec::new(alloc),
            next: 0,
            ready: 0,
        }
    }

    /// Whether none is held. False says nothing.
    #[inline(always)]
    pub(crate) fn is_empty(&self) -> bool
        ensures { IsTrue result → held_count self.now ≡ 0 }
    {
        self.chars.is_empty()
    }

    /// Whether one is ready. False says nothing.
    pub(crate) fn has_ready(&self) -> bool
        ensures { IsTrue result → marks_count self.now < held_count self.now }
    {
        self.next < self.ready
    }

    /// Takes the next of those that are ready.
    pub(crate) fn take_ready(&mut self) -> Option<char>
        ensures some { IfSome result (λ c. PassesOn self.old [] (c ∷ []) self.new) }
        ensures none { IfNone result
            ((self.new ≡ self.old) × (held_count self.old ≡ marks_count self.old)) }
        ensures fewer { OnSome result (held_count self.new < held_count self.old) }
        ensures count { held_count self.new ≤ held_count self.old }
    {
        if self.next >= self.ready {
            return None;
        }
        let c = self.chars[self.next];
        let next = self.next + 1;
        if next < self.ready {
            self.next = next;
        } else {
            self.forget_ready();
        }
        Some(c)
    }

    /// Forgets those that were ready, and moves the marks whose order is open to the front.
    fn forget_ready(&mut self)
        ensures chars { self.new.chars.items ≡ drop self.old.ready self.old.chars.items }
        ensures next { self.new.next ≡ 0 }
        ensures ready { self.new.ready ≡ 0 }
    {
        let given = self.ready;
        let left = self.chars.len() - given;
        self.next = 0;
        self.ready = 0;
        self.chars.copy_within(given.., 0);
        self.chars.truncate(left);
    }

    /// Adds the decomposition of a character.
    pub(crate) fn push_decomposed(&mut self, c: char) -> Result<(), AllocError>
        ensures ok { OnOk result (PassesOn self.old (decompose_canonical c) [] self.new) }
        ensures count { OnOk result (held_count self.new ≤ held_count self.old + 18) }
    {
        let mut room = [c; 3];
        for d in decomposition(c, Form::Nfd, &mut room) {
            self.push(*d)?;
        }
        Ok(())
    }

    /// Adds a decomposed character.
    fn push(&mut self, c: char) -> Result<(), AllocError>
        ensures ok { OnOk result (PassesOn self.old (c ∷ []) [] self.new) }
        ensures count { OnOk result (held_count self.new ≤ held_count self.old + 1) }
    {
        if canonical_combining_class(c) == 0 {
            self.settle_marks()?;
            self.chars.push(c)?;
            self.ready = self.chars.len();
        } else {
            self.chars.push(c)?;
        }
        Ok(())
    }

    /// Makes all ready, as they are right before a starter and at the end of the text.
    pub(crate) fn settle_marks(&mut self) -> Result<(), AllocError>
        ensures same { OnOk result (held_before self.new [] ≡ held_before self.old []) }
        ensures ready { OnOk result (marks_count self.new ≡ 0) }
        ensures count { held_count self.new ≡ held_count self.old }
    {
        sort_marks(&mut self.chars, self.ready)?;
        self.ready = self.chars.len();
        Ok(())
    }
}

/// Puts the marks from an index on in canonical order.
fn sort_marks(chars: &mut Vec<char>, from: usize) -> Result<(), AllocError>
    requires within { from ≤ vec_len chars.old }
    requires marks { list_all is_nonstarter (drop from chars.old.items) ≡ true }
    ensures ok { OnOk result (chars.new.items
        ≡ take from chars.old.items ++ canonical_order (drop from chars.old.items)) }
    ensures err { OnErr result (chars.new.items ≡ chars.old.items) }
    ensures len { vec_len chars.new ≡ vec_len chars.old }
{
    if chars.len() - from <= 1 {
        return Ok(());
    }
    let alloc = *chars.allocator();
    sort_slice(alloc, &mut chars[from..])
}

/// Puts marks in canonical order.
#[cold]
fn sort_slice(alloc: Global, marks: &mut [char]) -> Result<(), AllocError>
    requires { list_all is_nonstarter marks.old ≡ true }
    ensures ok { OnOk result (marks.new ≡ canonical_order marks.old) }
    ensures err { OnErr result (marks.new ≡ marks.old) }
{
    marks.sort_by_key(alloc, |c| canonical_combining_class(*c))
}
