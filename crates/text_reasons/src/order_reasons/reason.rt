//! The level that decides the order of two texts, and the characters.

ghost use Rattle.std.specs.Prelude.{◌≡◌, ◌++◌, IfOk, OnOk, Some, chars};
ghost use Rattle.icu_collator.specs.Collators.{collation_borrowed, collation_kept};
ghost use Rattle.collate_commands.specs.Answers.{sign_of};
ghost use Rattle.text_reasons.specs.order_reasons.OrderLevels.{all_levels, deciding_level, differ_by, first_differing};
ghost use Rattle.text_reasons.specs.order_reasons.Reasons.{decision, level_name, parts_text, reason_text};

use crate::order_reasons::deciding_parts::{DecidingParts, deciding_parts};
use crate::order_reasons::level_collator::{collator_up_to, level_counts};
use crate::push_characters;
use icu_collator::{Collator, CollatorBorrowed};
use icu_order_texts::level_weights::OrderLevel;
use std::alloc::{AllocError, Global};
use std::cmp::Ordering;

/// All levels, in their order.
pub(crate) fn all_levels() -> [OrderLevel; 6]
    ensures { result ≡ all_levels }
{
    [
        OrderLevel::Primary,
        OrderLevel::Secondary,
        OrderLevel::Case,
        OrderLevel::Tertiary,
        OrderLevel::Quaternary,
        OrderLevel::Identical,
    ]
}

/// Whether two texts differ up to a level that counts.
fn differ_by(collator: &CollatorBorrowed<'_>, one: &str, other: &str, level: OrderLevel) -> bool
    ensures { result ≡ differ_by (collation_borrowed collator.now)
        (chars one.now) (chars other.now) level }
{
    if !level_counts(collator, level) {
        return false;
    }
    !collator_up_to(collator, level).order(one, other).is_eq()
}

/// The first of some levels up to which two texts differ.
fn first_differing(
    collator: &CollatorBorrowed<'_>,
    one: &str,
    other: &str,
    levels: &[OrderLevel],
) -> Option<OrderLevel>
    ensures { result ≡ first_differing (collation_borrowed collator.now)
        (chars one.now) (chars other.now) levels.now }
{
    for level in levels {
        if differ_by(collator, one, other, *level) {
            return Some(*level);
        }
    }
    None
}

/// The level that decides the order of two texts: the first that counts up to which they differ, or `None` where they
/// compare equal. Does not allocate.
pub fn deciding_level(collator: &CollatorBorrowed<'_>, one: &str, other: &str) -> Option<OrderLevel>
    ensures { result ≡ deciding_level (collation_borrowed collator.now)
        (chars one.now) (chars other.now) }
{
    let levels = all_levels();
    first_differing(collator, one, other, levels.as_slice())
}

/// The name of a level.
pub(crate) fn level_name(level: OrderLevel) -> &'static [u8]
    ensures { result.now ≡ level_name level }
{
    match level {
        OrderLevel::Primary => b"primary",
        OrderLevel::Secondary => b"secondary",
        OrderLevel::Case => b"case",
        OrderLevel::Tertiary => b"tertiary",
        OrderLevel::Quaternary => b"quaternary",
        OrderLevel::Identical => b"identical",
    }
}

/// Appends the characters of two texts that decide, each behind a tab.
fn push_parts(text: &mut Vec<u8>, parts: &DecidingParts) -> Result<(), AllocError>
    ensures { OnOk result (text.new.items ≡ text.old.items
        ++ parts_text parts.now.one.items parts.now.other.items) }
{
    text.extend_from_slice(b"\t")?;
    push_characters(text, parts.one.as_slice())?;
    text.extend_from_slice(b"\t")?;
    push_characters(text, parts.other.as_slice())?;
    text.extend_from_slice(b"\n")
}

/// Appends which level decides, and by which characters of two texts.
fn push_level(
    alloc: Global,
    text: &mut Vec<u8>,
    collator: &Collator,
    level: OrderLevel,
    one: &str,
    other: &str,
) -> Result<(), AllocError>
    ensures { OnOk result (text.new.items ≡ text.old.items ++ decision
        (collation_kept collator.now) (chars one.now) (chars other.now) (Some level)) }
{
    let parts = deciding_parts(alloc, collator, level, one, other)?;
    text.extend_from_slice(level_name(level))?;
    text.extend_from_slice(b" level")?;
    push_parts(text, &parts)
}

/// Appends that no level decides, or which one does, and by which characters of two texts.
fn push_decision(
    alloc: Global,
    text: &mut Vec<u8>,
    collator: &Collator,
    level: Option<OrderLevel>,
    one: &str,
    other: &str,
) -> Result<(), AllocError>
    ensures { OnOk result (text.new.items ≡ text.old.items ++ decision
        (collation_kept collator.now) (chars one.now) (chars other.now) level) }
{
    match level {
        None => text.extend_from_slice(b"no level differs\n"),
        Some(level) => push_level(alloc, text, collator, level, one, other),
    }
}

/// The sign of an order.
fn sign(order: Ordering) -> &'static [u8]
    ensures { result.now ≡ sign_of order }
{
    match order {
        Ordering::Less => b"<",
        Ordering::Equal => b"=",
        Ordering::Greater => b">",
    }
}

/// The sign of the order of two texts, a tab, the level that decides, a tab, the characters of the one that decide, a
/// tab, and those of the other.
///
/// # Errors
///
/// Fails only where an allocation does.
pub fn reason_text(
    alloc: Global,
    collator: &Collator,
    one: &str,
    other: &str,
) -> Result<Vec<u8>, AllocError>
    ensures { IfOk result (λ text. text.items ≡ reason_text (collation_kept collator.now)
        (chars one.now) (chars other.now)) }
{
    let borrowed = collator.as_borrowed();
    let mut text = Vec::from_slice(alloc, sign(borrowed.order(one, other)))?;
    text.extend_from_slice(b"\t")?;
    let level = deciding_level(&borrowed, one, other);
    push_decision(alloc, &mut text, collator, level, one, other)?;
    Ok(text)
}
