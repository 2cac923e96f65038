//! The characters that decide the order of two texts at a level.

ghost use Rattle.std.specs.Prelude.{◌≡◌, IfOk, chars};
ghost use Rattle.icu_collator.specs.Collators.{collation_kept};
ghost use Rattle.text_reasons.specs.order_reasons.OrderLevels.{deciding_part_by};

use crate::deciding_part;
use crate::order_reasons::explained_levels::{characters, reading_of_collator};
use icu_collator::Collator;
use icu_order_texts::level_weights::OrderLevel;
use std::alloc::{AllocError, Global};

/// The characters of two texts that decide.
#[derive(Drop)]
pub(crate) struct DecidingParts {
    /// Those of the one.
    pub(crate) one: Vec<char>,
    /// Those of the other.
    pub(crate) other: Vec<char>,
}

/// The characters of two texts that decide their order at a level (`deciding_part`).
pub(crate) fn deciding_parts(
    alloc: Global,
    collator: &Collator,
    level: OrderLevel,
    one: &str,
    other: &str,
) -> Result<DecidingParts, AllocError>
    ensures one { IfOk result (λ parts. parts.one.items ≡ deciding_part_by
        (collation_kept collator.now) level (chars one.now) (chars other.now)) }
    ensures other { IfOk result (λ parts. parts.other.items ≡ deciding_part_by
        (collation_kept collator.now) level (chars other.now) (chars one.now)) }
{
    let borrowed = collator.as_borrowed();
    let reading = reading_of_collator(&borrowed);
    let weighing = borrowed.level_weighing(level);
    let first = characters(alloc, one)?;
    let second = characters(alloc, other)?;
    Ok(DecidingParts {
        one: deciding_part(
            alloc,
            reading,
            &weighing,
            first.as_slice(),
            second.as_slice(),
        )?,
        other: deciding_part(
            alloc,
            reading,
            &weighing,
            second.as_slice(),
            first.as_slice(),
        )?,
    })
}
