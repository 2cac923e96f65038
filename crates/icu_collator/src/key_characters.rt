//! The characters of a text in canonical decomposition, in a list.

ghost use Rattle.std.specs.Prelude.{◌≡◌, ◌++◌, ◌∷◌, [], None, true, false, flat_map, IfOk, IfSome, IsTrue, OnOk};
ghost use Rattle.std.specs.List.{list_all};
ghost use Rattle.ucd_normal.specs.declared.forms.Form.TheVariants.{Nfd};
ghost use Rattle.unicode_normalization.specs.Decompose.{decompose};
ghost use Rattle.unicode_normalization.specs.Forms.{nfd};
ghost use Rattle.unicode_normalization.specs.Order.{is_reorderable, is_starter};
ghost use Rattle.icu_element_reading.specs.boundaries.Alone.{all_stay};
ghost use Rattle.icu_collator.specs.inner.KeyCharacters.{EndsMarks};

use crate::plain_characters::is_plain;
use icu_text_decomposition::DecomposedText;
use icu_text_encodings::EncodedText;
use std::alloc::{AllocError, Global};
use unicode_normalization::Form;
use unicode_normalization::char::{canonical_combining_class, decomposition};

/// Appends a character to a list that has no room.
#[cold]
#[inline(never)]
fn push_full(list: &mut Vec<char>, c: char) -> Result<(), AllocError>
    ensures { OnOk result (list.new.items ≡ list.old.items ++ c ∷ []) }
{
    list.push(c)?;
    Ok(())
}

/// Appends a character to a list that mostly has room.
#[inline(always)]
fn push(list: &mut Vec<char>, c: char) -> Result<(), AllocError>
    ensures { OnOk result (list.new.items ≡ list.old.items ++ c ∷ []) }
{
    if list.len() < list.capacity() {
        list.push_reserved(c);
        return Ok(());
    }
    push_full(list, c)
}

/// Whether a character has class 0 (Unicode Standard, D107).
#[inline(always)]
fn is_starter(c: char) -> bool
    ensures { result ≡ is_starter c }
{
    canonical_combining_class(c) == 0
}

/// Whether all characters are starters.
fn are_starters(chars: &[char]) -> bool
    ensures { result ≡ list_all is_starter chars.now }
{
    chars.iter().all(|c| is_starter(*c))
}

/// Whether a text ends, or begins with a character whose decomposition begins with a starter, so that it has no mark
/// that goes before one that stands before it. False says nothing.
#[inline(always)]
fn ends_marks<T: EncodedText>(text: T) -> bool
    ensures { IsTrue result → EndsMarks (T.text text) }
{
    let Some((c, _)) = text.split_first_char() else {
        return true;
    };
    if is_plain(c) {
        return true;
    }
    let mut room = [c; 3];
    match decomposition(c, Form::Nfd, &mut room) {
        [first, ..] => is_starter(*first),
        [] => false,
    }
}

/// Whether a character stays where it stands before a text. False says nothing.
#[inline(always)]
#[tactic(auto, using(crate::proofs::KeyCharacterLemmas::starter_stays, crate::proofs::KeyCharacterLemmas::one_stays))]
fn one_stays<T: EncodedText>(only: char, text: T) -> bool
    ensures { IsTrue result → all_stay (only ∷ []) (flat_map (decompose Nfd) (T.text text)) ≡ true }
{
    if is_starter(only) {
        return true;
    }
    ends_marks(text)
}

/// Whether two characters stay where they stand before a text. False says nothing.
#[inline(always)]
#[tactic(auto, using(crate::proofs::KeyCharacterLemmas::two_stay))]
fn two_stay<T: EncodedText>(first: char, second: char, text: T) -> bool
    ensures { IsTrue result
        → all_stay (first ∷ second ∷ []) (flat_map (decompose Nfd) (T.text text)) ≡ true }
{
    if !is_starter(first) {
        return false;
    }
    ends_marks(text)
}

/// Whether a character doesn't go before one that stands before it. False says nothing.
#[inline(always)]
#[tactic(auto, using(crate::proofs::KeyCharacterLemmas::keeps_order))]
fn keep_order(first: char, second: char) -> bool
    ensures { IsTrue result → is_reorderable first second ≡ false }
{
    canonical_combining_class(first) <= canonical_combining_class(second)
}

/// Whether three characters stay where they stand before a text. False says nothing.
#[inline(always)]
#[tactic(auto, using(crate::proofs::KeyCharacterLemmas::three_stay))]
fn three_stay<T: EncodedText>(first: char, second: char, third: char, text: T) -> bool
    ensures { IsTrue result → all_stay (first ∷ second ∷ third ∷ [])
        (flat_map (decompose Nfd) (T.text text)) ≡ true }
{
    if !is_starter(first) || !keep_order(second, third) {
        return false;
    }
    ends_marks(text)
}

/// Whether what a character decomposes to stays as it is before a text. False says nothing.
#[inline(always)]
#[tactic(auto, using(crate::proofs::KeyCharacterLemmas::starters_stay))]
fn stays<T: EncodedText>(parts: &[char], text: T) -> bool
    ensures { IsTrue result → all_stay parts.now (flat_map (decompose Nfd) (T.text text)) ≡ true }
{
    match parts {
        [only] => one_stays(*only, text),
        [first, second] => two_stay(*first, *second, text),
        [first, second, third] if !is_starter(*third) => {
            three_stay(*first, *second, *third, text)
        }
        _ => are_starters(parts),
    }
}

/// Appends what a character decomposes to, mostly a character or two.
#[inline(always)]
fn push_parts(list: &mut Vec<char>, parts: &[char]) -> Result<(), AllocError>
    ensures { OnOk result (list.new.items ≡ list.old.items ++ parts.now) }
{
    match parts {
        [only] => push(list, *only),
        [first, second] => {
            push(list, *first)?;
            push(list, *second)
        }
        _ => list.extend_from_slice(parts),
    }
}

/// Appends what a character decomposes to, where that stays as it is before a text, and returns whether it does:
/// nothing is appended where it doesn't.
#[inline(always)]
fn push_staying<T: EncodedText>(list: &mut Vec<char>, c: char, after: T) -> Result<bool, AllocError>
    ensures stays { IfOk result (λ stays. IsTrue stays →
        list.new.items ++ nfd (T.text after) ≡ list.old.items ++ nfd (c ∷ T.text after)) }
    ensures not { IfOk result (λ stays. stays ≡ false → list.new.items ≡ list.old.items) }
{
    if is_plain(c) {
        push(list, c)?;
        return Ok(true);
    }
    let mut room = [c; 3];
    let parts = decomposition(c, Form::Nfd, &mut room);
    if !stays(parts, after) {
        return Ok(false);
    }
    push_parts(list, parts)?;
    Ok(true)
}

/// Appends what the characters that a text begins with decompose to, as long as that stays as it is, and returns the
/// text after them: `None` where they are all.
fn push_front<T: EncodedText>(list: &mut Vec<char>, text: T) -> Result<Option<T>, AllocError>
    ensures some { IfOk result (λ left. IfSome left (λ rest.
        list.new.items ++ nfd (T.text rest) ≡ list.old.items ++ nfd (T.text text))) }
    ensures none { IfOk result (λ left. left ≡ None →
        list.new.items ≡ list.old.items ++ nfd (T.text text)) }
{
    let mut rest = text;
    'chars: while let Some((c, after)) = rest.split_first_char() {
        if !push_staying(list, c, after)? {
            return Ok(Some(rest));
        }
        rest = after;
    }
    Ok(None)
}

/// Appends the canonical decomposition of a text.
#[inline(never)]
fn push_decomposed<T: EncodedText>(list: &mut Vec<char>, text: T) -> Result<(), AllocError>
    ensures { OnOk result (list.new.items ≡ list.old.items ++ nfd (T.text text)) }
{
    let mut left = DecomposedText::new(text);
    'chars: while let Some(c) = left.next() {
        push(list, c)?;
    }
    Ok(())
}

/// The canonical decomposition of a text (UAX #15), in a list that has room for as many characters as the text has
/// units.
pub(crate) fn decomposed<T: EncodedText>(alloc: Global, text: T) -> Result<Vec<char>, AllocError>
    ensures { IfOk result (λ cs. cs.items ≡ nfd (T.text text)) }
{
    let mut list = Vec::with_capacity(alloc, text.unit_count())?;
    if let Some(rest) = push_front(&mut list, text)? {
        push_decomposed(&mut list, rest)?;
    }
    Ok(list)
}
