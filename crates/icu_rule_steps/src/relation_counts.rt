//! How many relations rules have in all.
ghost use Rattle.std.specs.Prelude.{◌≡◌, ◌+◌, ◌-◌, ◌<◌, IfErr, IfNone, IfSome, None, OnOk, Some, flat_map, length, min};
ghost use Rattle.icu_rule_meaning.specs.Rules.{characters_of};
ghost use Rattle.icu_rule_steps.specs.RuleFaults.{count_error, relation_count};

use crate::tailoring_error::{TailoringError, TailoringErrorKind};
use icu_rule_parser::{CharacterRange, PlacedStatement, StarredRelation, Statement};

/// How many relations rules may have, with those of imports.
const MOST_RELATIONS: usize = 250_000;

/// How many characters have a lower code.
fn count_below(code: u32) -> u32
    ensures { result ≡ min code 0xD800 + (code - 0xE000) }
{
    code.min(0xD800) + code.saturating_sub(0xE000)
}

/// How many characters a range has.
fn character_count(range: CharacterRange) -> u32
    ensures { result ≡ length (characters_of range) }
{
    let end = u32::from(range.last) + 1;
    count_below(end).saturating_sub(count_below(u32::from(range.first)))
}

/// How many further relations there may be after a starred one. `None` if it has too many.
fn room_after_starred(room: usize, said: &StarredRelation) -> Option<usize>
    ensures left { IfSome result (λ left.
        left + length (flat_map characters_of said.now.ranges.items) ≡ room) }
    ensures none { IfNone result
        (room < length (flat_map characters_of said.now.ranges.items)) }
{
    let mut left = room;
    for range in &said.ranges {
        let count = character_count(*range) as usize;
        if left < count {
            return None;
        }
        left -= count;
    }
    Some(left)
}

/// How many further relations there may be after a statement. `None` if it has too many.
fn room_after(room: usize, said: &Statement) -> Option<usize>
    ensures left { IfSome result (λ left. left + relation_count said.now ≡ room) }
    ensures none { IfNone result (room < relation_count said.now) }
{
    match said {
        Statement::Relation(_) => room.checked_sub(1),
        Statement::Starred(starred) => room_after_starred(room, starred),
        Statement::Reset(_) | Statement::Setting(_) | Statement::Import(_) => Some(room),
    }
}

/// Refuses the statement by which there are too many relations. No relation is read, so it takes a step for each
/// statement, and one for each range of a starred relation.
pub(crate) fn refuse_too_many(statements: &[PlacedStatement]) -> Result<(), TailoringError>
    ensures ok { OnOk result (count_error 0 statements.now ≡ None) }
    ensures err { IfErr result (λ error. count_error 0 statements.now ≡ Some error) }
{
    let mut room = MOST_RELATIONS;
    for placed in statements {
        match room_after(room, &placed.statement) {
            Some(left) => room = left,
            None => {
                return Err(TailoringError::Refused {
                    place: placed.place,
                    import: placed.import,
                    kind: TailoringErrorKind::TooManyRelations,
                });
            }
        }
    }
    Ok(())
}
