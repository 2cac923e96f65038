//! The strings that a relation relates.
ghost use Rattle.std.specs.Prelude.{◌≡◌, option_map};
ghost use Rattle.icu_rule_steps.specs.held_relations.HeldRelations.{both_strings, plain_at, plain_string, related_at, string_at, string_of};
ghost use Rattle.icu_rule_steps.specs.held_relations.inner.RelatedPairs.{related_pair};

use icu_rule_parser::{Anchor, PlacedStatement, Statement};

/// Two strings, one in a statement and one in that before it.
#[derive(Clone, Copy)]
pub(crate) struct RelatedPair<'s> {
    /// The one before.
    pub other: &'s [char],
    /// The one that is related to it.
    pub string: &'s [char],
}

/// The string of a reset or of a relation.
fn string_of(said: &Statement) -> Option<&[char]>
    ensures { option_map (λ s. s.now) result ≡ string_of said.now }
{
    match said {
        Statement::Reset(reset) => match &reset.anchor {
            Anchor::String(string) => Some(string.as_slice()),
            Anchor::Position(_) => None,
        },
        Statement::Relation(relation) => Some(relation.string.as_slice()),
        _ => None,
    }
}

/// The string of a relation that has no prefix and no extension.
fn plain_string(said: &Statement) -> Option<&[char]>
    ensures { option_map (λ s. s.now) result ≡ plain_string said.now }
{
    match said {
        Statement::Relation(relation) => {
            if relation.prefix.is_empty() && relation.extension.is_empty() {
                Some(relation.string.as_slice())
            } else {
                None
            }
        }
        _ => None,
    }
}

/// The string of a reset or of a relation, if there is a statement.
fn string_at(placed: Option<&PlacedStatement>) -> Option<&[char]>
    ensures { option_map (λ s. s.now) result ≡ string_at (option_map (λ p. p.now) placed.entry) }
{
    match placed {
        Some(placed) => string_of(&placed.statement),
        None => None,
    }
}

/// The string of a relation that has no prefix and no extension, if there is a statement.
fn plain_at(placed: Option<&PlacedStatement>) -> Option<&[char]>
    ensures { option_map (λ s. s.now) result ≡ plain_at (option_map (λ p. p.now) placed.entry) }
{
    match placed {
        Some(placed) => plain_string(&placed.statement),
        None => None,
    }
}

/// Two strings, if both are there.
fn both_strings<'s>(
    string: Option<&'s [char]>,
    other: Option<&'s [char]>,
) -> Option<RelatedPair<'s>>
    ensures { option_map related_pair result ≡ both_strings (option_map (λ s. s.now) string.entry)
        (option_map (λ s. s.now) other.entry) }
{
    match (string, other) {
        (Some(string), Some(other)) => Some(RelatedPair { other, string }),
        _ => None,
    }
}

/// The strings that the relation at an index relates, if it is one of two strings.
#[tactic(auto, unfolding(crate::specs::held_relations::HeldRelations::related_at))]
pub(crate) fn related_at(statements: &[PlacedStatement], index: usize) -> Option<RelatedPair<'_>>
    ensures { option_map related_pair result ≡ related_at statements.now index }
{
    if index == 0 {
        return None;
    }
    let string = plain_at(statements.get(index));
    let other = string_at(statements.get(index - 1));
    both_strings(string, other)
}
