//! Characters as a set of labels has them.
ghost use Rattle.std.specs.Prelude.{◌≡◌, ◌<◌, [], ◌∷◌, length, MatchOption, IfOk, IfSome, string_bytes};
ghost use Rattle.icu_cldr_files.specs.index_labels.WrittenLabels.{is_sign, WritesCharacter, WritesCharacters};
ghost use Rattle.icu_cldr_files.specs.index_labels.TakenLabels.{TakesCharacter};

use std::alloc::{AllocError, Global};

/// Whether a character means something else than itself in a set.
fn is_sign(c: char) -> bool
    ensures { result ≡ is_sign c }
{
    c == ' '
        || (c == '['
            || (c == ']'
                || (c == '{'
                    || (c == '}'
                        || (c == '\\' || (c == '-' || (c == '&' || (c == '^' || c == '$'))))))))
}

/// The first character of a text, and what follows it.
pub(crate) fn split_first(text: &[char]) -> Option<(char, &[char])>
    ensures { MatchOption result (text.now ≡ []) (λ r. text.now ≡ r.0 ∷ r.1.now) }
{
    match text {
        [] => None,
        [c, rest @ ..] => Some((*c, rest)),
    }
}

/// The character whose number four hexadecimal digits write.
fn numbered(a: char, b: char, c: char, d: char) -> Option<char>
    ensures { IfSome result (λ n. WritesCharacter n (92 ∷ 117 ∷ a ∷ b ∷ c ∷ d ∷ [])) }
{
    let (a, b) = (a.to_digit(16)?, b.to_digit(16)?);
    let (c, d) = (c.to_digit(16)?, d.to_digit(16)?);
    char::from_u32(((a * 16 + b) * 16 + c) * 16 + d)
}

/// The character that stands for itself at the beginning of a text, and what follows it.
#[tactic(auto, using(crate::proofs::index_labels::LabelLemmas::takes_itself))]
fn read_itself(text: &[char]) -> Option<(char, &[char])>
    ensures len { IfSome result (λ r. length r.1.now < length text.now) }
    ensures taken { IfSome result (λ r. TakesCharacter text.now r.0 r.1.now) }
{
    let (c, rest) = split_first(text)?;
    if is_sign(c) {
        return None;
    }
    Some((c, rest))
}

/// The character that a text begins with, and what follows it. `None` if it begins with none.
pub(crate) fn read_character(text: &[char]) -> Option<(char, &[char])>
    ensures len { IfSome result (λ r. length r.1.now < length text.now) }
    ensures taken { IfSome result (λ r. TakesCharacter text.now r.0 r.1.now) }
{
    match text {
        ['\\', 'u', a, b, c, d, rest @ ..] => Some((numbered(*a, *b, *c, *d)?, rest)),
        _ => read_itself(text),
    }
}

/// The characters that are all of a text. `None` if it is something else.
#[tactic(auto, using(crate::proofs::index_labels::LabelLemmas::characters_step, crate::proofs::index_labels::LabelLemmas::characters_end))]
pub(crate) fn read_characters(alloc: Global, text: &[char]) -> Result<Option<String>, AllocError>
    ensures { IfOk result (λ o. IfSome o (λ label.
        WritesCharacters (string_bytes label) text.now)) }
{
    let mut label = String::new(alloc);
    let mut unread = text;
    'reading: while let Some(_) = split_first(unread) {
        let Some((c, rest)) = read_character(unread) else {
            return Ok(None);
        };
        label.push(c)?;
        unread = rest;
    }
    Ok(Some(label))
}
