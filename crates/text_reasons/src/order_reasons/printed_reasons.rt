//! What the commands print.

ghost use Rattle.std.specs.Prelude.{◌≡◌, IfErr, IfOk, OnOk, chars};
ghost use Rattle.std.specs.Io.KnownBytes.{Appends};
ghost use Rattle.std.specs.Ordering.{is_eq};
ghost use Rattle.icu_collator.specs.Collators.{collation_kept};
ghost use Rattle.icu_order_texts.specs.TextOrder.{text_order};
ghost use Rattle.line_commands.specs.Printed.{StopsPrinting};
ghost use Rattle.text_reasons.specs.order_reasons.Reasons.{explained_text, reason_text};

use crate::order_reasons::explained_levels::explained_text;
use crate::order_reasons::reason::reason_text;
use icu_collator::Collator;
use line_commands::print_text;
use program_files::ProgramError;
use std::alloc::{AllocError, Global};
use std::io::Write;

/// A text, part by part with its collation elements, and level by level with its sort key.
fn shown_explanation(alloc: Global, collator: &Collator, text: &str) -> Result<Vec<u8>, AllocError>
    ensures { IfOk result (λ shown. shown.items
        ≡ explained_text (collation_kept collator.now) (chars text.now)) }
{
    let shown = explained_text(alloc, &collator.as_borrowed(), text)?;
    Ok(shown)
}

/// Prints a text, part by part with its collation elements, and level by level with its sort key.
///
/// # Errors
///
/// Fails only where an allocation does, and prints nothing, or where a write or the flush does: then a beginning was
/// printed.
pub fn print_explanation<W: Write>(
    alloc: Global,
    collator: &Collator,
    text: &str,
    output: &mut W,
) -> Result<(), ProgramError>
    ensures ok { let shown = explained_text (collation_kept collator.now) (chars text.now) in
        OnOk result (Appends (W.contents output.old) (W.contents output.new) shown) }
    ensures stops { let shown = explained_text (collation_kept collator.now) (chars text.now) in
        IfErr result (StopsPrinting (λ t. t ≡ shown)
        (W.contents output.old) (W.contents output.new)) }
{
    let shown = shown_explanation(alloc, collator, text)?;
    print_text(shown.as_slice(), output)
}

/// Prints the sign of the order of two texts, the level that decides, and the characters of each that do, and returns
/// whether they compare equal.
///
/// # Errors
///
/// Those of `print_explanation`.
pub fn print_reason<W: Write>(
    alloc: Global,
    collator: &Collator,
    one: &str,
    other: &str,
    output: &mut W,
) -> Result<bool, ProgramError>
    ensures ok { let c = collation_kept collator.now in
        let shown = reason_text c (chars one.now) (chars other.now) in
        IfOk result (λ equal. (equal ≡ is_eq (text_order c (chars one.now) (chars other.now)))
        × Appends (W.contents output.old) (W.contents output.new) shown) }
    ensures stops { let shown = reason_text (collation_kept collator.now)
        (chars one.now) (chars other.now) in
        IfErr result (StopsPrinting (λ t. t ≡ shown)
        (W.contents output.old) (W.contents output.new)) }
{
    let borrowed = collator.as_borrowed();
    let shown = reason_text(alloc, collator, one, other)?;
    print_text(shown.as_slice(), output)?;
    Ok(borrowed.order(one, other).is_eq())
}
