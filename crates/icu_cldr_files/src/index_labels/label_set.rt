//! Labels, as a set of characters has them.
ghost use Rattle.std.specs.Prelude.{◌≡◌, ◌<◌, ◌≤◌, ◌++◌, [], ◌∷◌, length, map, chars, encode_utf8, IfOk, IfSome, OnOk, string_bytes};
ghost use Rattle.icu_cldr_files.specs.index_labels.WrittenLabels.{WritesLabels, WritesSet};
ghost use Rattle.icu_cldr_files.specs.index_labels.TakenLabels.{PushesLabel};

use crate::index_labels::written_characters::{read_character, read_characters, split_first};
use std::alloc::{AllocError, Global};

/// What stands before the first closing brace, and what follows it.
fn split_at_brace(text: &[char]) -> Option<(&[char], &[char])>
    ensures { IfSome result (λ r. text.now ≡ r.0.now ++ 125 ∷ r.1.now) }
{
    let end = text.iter().position(|c| *c == '}')?;
    let (inside, behind) = text.split_at(end);
    match behind {
        ['}', rest @ ..] => Some((inside, rest)),
        _ => None,
    }
}

/// Pushes a label.
fn push(labels: &mut Vec<String>, label: String) -> Result<(), AllocError>
    ensures { OnOk result (map string_bytes labels.new.items
        ≡ map string_bytes labels.old.items ++ string_bytes label ∷ []) }
{
    labels.push(label)?;
    Ok(())
}

/// Pushes the label of a character.
fn push_character(alloc: Global, c: char, labels: &mut Vec<String>) -> Result<(), AllocError>
    ensures { OnOk result (map string_bytes labels.new.items
        ≡ map string_bytes labels.old.items ++ encode_utf8 c ∷ []) }
{
    let mut label = String::new(alloc);
    label.push(c)?;
    push(labels, label)
}

/// Pushes the label that stands in braces, behind the opening one, and returns what follows the closing one. `None` if
/// there is none.
#[tactic(auto, using(crate::proofs::index_labels::LabelLemmas::pushes_braced))]
fn push_braced<'t>(
    alloc: Global,
    text: &'t [char],
    labels: &mut Vec<String>,
) -> Result<Option<&'t [char]>, AllocError>
    ensures len { IfOk result (λ o. IfSome o (λ rest. length rest.now ≤ length text.now)) }
    ensures pushed { IfOk result (λ o. IfSome o (λ rest. PushesLabel (123 ∷ text.now) rest.now
        (map string_bytes labels.old.items) (map string_bytes labels.new.items))) }
{
    let Some((inside, rest)) = split_at_brace(text) else {
        return Ok(None);
    };
    let Some(label) = read_characters(alloc, inside)? else {
        return Ok(None);
    };
    push(labels, label)?;
    Ok(Some(rest))
}

/// Pushes the label of the character that a text begins with, and returns what follows it. `None` if it begins with
/// none.
#[tactic(auto, using(crate::proofs::index_labels::LabelLemmas::pushes_one))]
fn push_one<'t>(
    alloc: Global,
    text: &'t [char],
    labels: &mut Vec<String>,
) -> Result<Option<&'t [char]>, AllocError>
    ensures len { IfOk result (λ o. IfSome o (λ rest. length rest.now < length text.now)) }
    ensures pushed { IfOk result (λ o. IfSome o (λ rest. PushesLabel text.now rest.now
        (map string_bytes labels.old.items) (map string_bytes labels.new.items))) }
{
    let Some((c, rest)) = read_character(text) else {
        return Ok(None);
    };
    push_character(alloc, c, labels)?;
    Ok(Some(rest))
}

/// Pushes the label that a text begins with, and returns what follows it. `None` if it begins with none. The text is a
/// first character and what follows it.
fn push_label<'t>(
    alloc: Global,
    text: &'t [char],
    first: char,
    behind: &'t [char],
    labels: &mut Vec<String>,
) -> Result<Option<&'t [char]>, AllocError>
    requires { text.now ≡ first ∷ behind.now }
    ensures len { IfOk result (λ o. IfSome o (λ rest. length rest.now < length text.now)) }
    ensures pushed { IfOk result (λ o. IfSome o (λ rest. PushesLabel text.now rest.now
        (map string_bytes labels.old.items) (map string_bytes labels.new.items))) }
{
    if first == '{' {
        return push_braced(alloc, behind, labels);
    }
    push_one(alloc, text, labels)
}

/// The labels that are all of a text, with spaces around them. `None` if it is something else.
#[tactic(auto, using(crate::proofs::index_labels::LabelLemmas::space_step, crate::proofs::index_labels::LabelLemmas::label_step, crate::proofs::index_labels::LabelLemmas::labels_end))]
fn read_labels(alloc: Global, text: &[char]) -> Result<Option<Vec<String>>, AllocError>
    ensures { IfOk result (λ o. IfSome o (λ labels.
        WritesLabels (map string_bytes labels.items) text.now)) }
{
    let mut labels = Vec::new(alloc);
    let mut unread = text;
    'reading: while let Some((first, behind)) = split_first(unread) {
        if first == ' ' {
            unread = behind;
            continue;
        }
        let Some(rest) = push_label(alloc, unread, first, behind, &mut labels)? else {
            return Ok(None);
        };
        unread = rest;
    }
    Ok(Some(labels))
}

/// What stands in the brackets that are around all of a text.
fn inside_brackets(text: &[char]) -> Option<&[char]>
    ensures { IfSome result (λ inside. text.now ≡ 91 ∷ inside.now ++ 93 ∷ []) }
{
    match text {
        ['[', inside @ .., ']'] => Some(inside),
        _ => None,
    }
}

/// The characters of a text.
fn characters_of(alloc: Global, text: &str) -> Result<Vec<char>, AllocError>
    ensures { IfOk result (λ characters. characters.items ≡ chars text.now) }
{
    text.chars().collect(alloc)
}

/// The labels of a set. `None` if the text is no set of labels.
#[tactic(auto, using(crate::proofs::index_labels::LabelLemmas::set_written))]
pub(crate) fn labels_of_set(alloc: Global, set: &str) -> Result<Option<Vec<String>>, AllocError>
    ensures { IfOk result (λ o. IfSome o (λ labels.
        WritesSet (map string_bytes labels.items) (chars set.now))) }
{
    let characters = characters_of(alloc, set)?;
    let Some(inside) = inside_brackets(characters.as_slice()) else {
        return Ok(None);
    };
    match read_labels(alloc, inside)? {
        Some(labels) => Ok(Some(labels)),
        None => Ok(None),
    }
}
