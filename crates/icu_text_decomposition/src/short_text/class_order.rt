//! Characters are put in canonical order: each run of marks class by class, in one pass over the run for each class.

ghost use Rattle.std.specs.Prelude.{◌≡◌, ◌≢◌, ◌<◌, ◌≤◌, ◌+◌, ◌++◌, ◌∷◌, [], Some, None, true, IsTrue, IfSome, min, length, drop};
ghost use Rattle.ucd_normal.specs.CanonicalCombiningClass.{canonical_combining_class as class_of};
ghost use Rattle.unicode_normalization.specs.Order.{is_ordered, canonical_order};
ghost use Rattle.icu_text_decomposition.specs.inner.FrontMarks.{front_marks};
ghost use Rattle.icu_text_decomposition.specs.inner.MarksLeft.{IsPass, class_limit, left_of_pass};
ghost use Rattle.icu_text_decomposition.specs.short_text.ArrayTexts.{array_unread};

use crate::short_text::array_text::ArrayText;
use crate::short_text::order_place::is_reorderable;
use unicode_normalization::char::canonical_combining_class;

/// Whether characters stand in canonical order.
pub(crate) fn are_all_in_order(chars: &[char]) -> bool
    ensures { IsTrue result → is_ordered chars.now ≡ true }
{
    let mut at = chars.len();
    'back: while at > 1 {
        if is_reorderable(chars[at - 2], chars[at - 1]) {
            return false;
        }
        at -= 1;
    }
    true
}

/// The lesser of a class and the next one, if there is one.
#[inline]
fn lesser(next: Option<u8>, class: u8) -> Option<u8>
    ensures { class_limit result ≡ min (class_limit next) class }
{
    match next {
        Some(least) if least <= class => Some(least),
        _ => Some(class),
    }
}

/// The least class above the one that is read, where a mark comes that has a class of its own.
#[inline]
fn next_above(next: Option<u8>, class: u8, own: u8) -> Option<u8>
    ensures low { own ≤ class → result ≡ next }
    ensures high { class < own → class_limit result ≡ min (class_limit next) own }
{
    if own <= class {
        return next;
    }
    lesser(next, own)
}

/// Appends a mark that has the class that is read, and no other one. Returns whether there was room for it.
#[inline]
fn push_of_class<const ROOM: usize>(
    text: &mut ArrayText<ROOM>,
    mark: char,
    class: u8,
    own: u8,
) -> bool
    ensures same { IsTrue result → own ≡ class
        → array_unread text.new ≡ array_unread text.old ++ mark ∷ [] }
    ensures other { own ≢ class → array_unread text.new ≡ array_unread text.old }
{
    if own != class {
        return true;
    }
    text.append(mark)
}

/// What a pass over a run of marks came to.
#[derive(Clone, Copy)]
pub(crate) struct PassEnd {
    /// How many marks the run has.
    pub(crate) count: usize,
    /// The least class above the one that was read, if there is one.
    pub(crate) next: Option<u8>,
}

/// Appends the marks of a class, of the run with which the characters begin. `None` where there is no room for them.
fn push_class<const ROOM: usize>(
    text: &mut ArrayText<ROOM>,
    chars: &[char],
    class: u8,
) -> Option<PassEnd>
    ensures pass { IfSome result (λ end.
        IsPass chars.now (drop end.count chars.now) class end.next) }
    ensures end { IfSome result (λ end. front_marks (drop end.count chars.now) ≡ []) }
    ensures inside { IfSome result (λ end. end.count ≤ length chars.now) }
    ensures class { class < 256 }
    ensures left { IfSome result (λ end.
        array_unread text.new ++ left_of_pass chars.now (drop end.count chars.now) class
        ≡ array_unread text.old ++ left_of_pass chars.now chars.now class) }
{
    let mut next = None;
    let mut count = 0usize;
    'marks: while count < chars.len() {
        let mark = chars[count];
        let own = canonical_combining_class(mark);
        if own == 0 {
            return Some(PassEnd { count, next });
        }
        if !push_of_class(text, mark, class, own) {
            return None;
        }
        next = next_above(next, class, own);
        count += 1;
    }
    Some(PassEnd { count, next })
}

/// Appends the run of marks with which the characters begin, class by class, and returns how many it has. `None` where
/// there is no room for them.
fn push_run<const ROOM: usize>(text: &mut ArrayText<ROOM>, chars: &[char]) -> Option<usize>
    ensures left { IfSome result (λ count.
        array_unread text.new ++ canonical_order (drop count chars.now)
        ≡ array_unread text.old ++ canonical_order chars.now) }
    ensures end { IfSome result (λ count. front_marks (drop count chars.now) ≡ []) }
    ensures inside { IfSome result (λ count. count ≤ length chars.now) }
{
    let mut class = 0u8;
    'classes: loop {
        let end = push_class(text, chars, class)?;
        match end.next {
            Some(next) => class = next,
            None => return Some(end.count),
        }
    }
}

/// Appends the starter or the run of marks with which the characters begin, and returns how many characters that is.
/// `None` where there is no room for them.
fn push_part<const ROOM: usize>(text: &mut ArrayText<ROOM>, chars: &[char]) -> Option<usize>
    requires { 0 < length chars.now }
    ensures left { IfSome result (λ count.
        array_unread text.new ++ canonical_order (drop count chars.now)
        ≡ array_unread text.old ++ canonical_order chars.now) }
    ensures some { IfSome result (λ count. (0 < count) × (count ≤ length chars.now)) }
{
    let first = chars[0];
    if canonical_combining_class(first) != 0 {
        let count = push_run(text, chars)?;
        return Some(count);
    }
    if !text.append(first) {
        return None;
    }
    Some(1)
}

/// Appends characters, which go in canonical order. Returns whether there was room for them.
pub(crate) fn push_in_order<const ROOM: usize>(text: &mut ArrayText<ROOM>, chars: &[char]) -> bool
    ensures { IsTrue result
        → array_unread text.new ≡ array_unread text.old ++ canonical_order chars.now }
{
    let mut at = 0usize;
    'parts: while at < chars.len() {
        let Some(count) = push_part(text, &chars[at..]) else {
            return false;
        };
        at += count;
    }
    true
}
