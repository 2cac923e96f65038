//! Subtags in the case of their kind.
ghost use Rattle.std.specs.Prelude.{◌≡◌, IfOk, string_bytes};
ghost use Rattle.icu_cldr_locales.specs.Subtags.{capitals_of, in_case, in_case_of};

use crate::subtag::SubtagKind;
use std::alloc::{AllocError, Global};

/// How many capitals a subtag of a kind begins with.
#[tactic(auto, unfolding(crate::specs::Subtags::capitals_of))]
fn capitals_of(kind: SubtagKind) -> usize
    ensures { result ≡ capitals_of kind }
{
    match kind {
        SubtagKind::Script => 1,
        SubtagKind::Region => 3,
        _ => 0,
    }
}

/// A character in its case, where so many are capitals.
fn in_case(capitals: usize, index: usize, c: char) -> char
    ensures { result ≡ in_case capitals (index, c) }
{
    if index < capitals {
        c.to_ascii_uppercase()
    } else {
        c.to_ascii_lowercase()
    }
}

/// A subtag in the case of its kind: a script as `Latn`, a region as `DE`, and all others in lower case.
#[tactic(auto, unfolding(crate::specs::Subtags::in_case_of))]
pub fn in_case_of(alloc: Global, kind: SubtagKind, part: &str) -> Result<String, AllocError>
    ensures { IfOk result (λ text. string_bytes text ≡ in_case_of kind part.now) }
{
    let capitals = capitals_of(kind);
    part.chars()
        .enumerate()
        .map(|(i, c)| in_case(capitals, i, c))
        .collect(alloc)
}
