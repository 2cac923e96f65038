//! Of what kind a decomposition is, if each of its characters stands alone.

ghost use Rattle.std.specs.Prelude.{◌≡◌, true, IfSome, IsTrue};
ghost use Rattle.std.specs.List.{list_all};
ghost use Rattle.unicode_normalization.specs.Order.{is_starter};
ghost use Rattle.icu_element_facts.specs.KeptFacts.{rises_to};
ghost use Rattle.icu_element_facts.specs.inner.ReadFacts.{IsShaped};

use crate::char_facts::FactsKind;
use unicode_normalization::char::canonical_combining_class;

/// Whether all of these are starters.
fn are_starters(chars: &[char]) -> bool
    ensures { result ≡ list_all is_starter chars.now }
{
    chars.iter().all(|c| canonical_combining_class(*c) == 0)
}

/// The class of the last of some marks, or 0 where there is none. None where one is a starter, or their classes don't
/// rise.
#[tactic(auto, unfolding(crate::specs::KeptFacts::rises_to))]
fn last_class(marks: &[char]) -> Option<u8>
    ensures { IfSome result (λ class. rises_to 0 marks.now class ≡ true) }
{
    let mut last = 0;
    for m in marks {
        let class = canonical_combining_class(*m);
        if class == 0 || class < last {
            return None;
        }
        last = class;
    }
    Some(last)
}

/// The kind and the class of a character that decomposes to these, its first character and the others.
pub(crate) fn shape_of(c: char, first: char, more: &[char]) -> (FactsKind, u8)
    ensures { IsShaped c first more.now result.0 result.1 }
{
    let class = canonical_combining_class(first);
    if class != 0 {
        return if first == c && more.is_empty() {
            (FactsKind::Mark, class)
        } else {
            (FactsKind::Unknown, 0)
        };
    }
    if are_starters(more) {
        return (FactsKind::Starters, 0);
    }
    match last_class(more) {
        Some(last) => (FactsKind::Marked, last),
        None => (FactsKind::Unknown, 0),
    }
}
