//! What the commands print.

ghost use Rattle.std.specs.Prelude.{◌≡◌, ◌++◌, ◌∷◌, [], IfErr, IfOk, OnOk, chars};
ghost use Rattle.std.specs.Io.KnownBytes.{Appends};
ghost use Rattle.std.specs.Ordering.{is_eq};
ghost use Rattle.collate_commands.specs.Answers.{sign_of};
ghost use Rattle.line_sorts.specs.InputLines.{lines_by};
ghost use Rattle.line_sorts.specs.OrderedTexts.{ordered_text};
ghost use Rattle.collate_commands.specs.KeyText.{key_text};
ghost use Rattle.icu_collator.specs.Collators.{collation_kept};
ghost use Rattle.icu_order_texts.specs.TextOrder.{text_key, text_order};
ghost use Rattle.line_commands.specs.LineKeyTexts.{keyed_lines_text};
ghost use Rattle.line_commands.specs.Printed.{Prints, StopsPrinting};
ghost use Rattle.line_commands.specs.SortedInputs.{SortsInput};

use crate::line_keys_text::keys_text;
use crate::sort_by::SortBy;
use collate_commands::key_line::key_line;
use collate_commands::{sign_line, sort_key};
use icu_collator::Collator;
use line_sorts::{OrderedLines, SortRequest, lines_by};
use program_files::{ProgramError, write_text};
use std::alloc::Global;
use std::io::Write;

/// Prints a text, and flushes the output.
///
/// # Errors
///
/// Fails only where a write does, or the flush; then a beginning was printed.
pub fn print_text<W: Write>(text: &[u8], output: &mut W) -> Result<(), ProgramError>
    ensures ok { OnOk result (Appends (W.contents output.old) (W.contents output.new) text.now) }
    ensures stops { IfErr result (StopsPrinting (λ t. t ≡ text.now)
        (W.contents output.old) (W.contents output.new)) }
{
    match write_text(output, text) {
        Ok(()) => Ok(()),
        Err(_) => Err(ProgramError::WriteFailed),
    }
}

/// Prints the sign of the order of two texts, and returns whether they compare equal.
///
/// # Errors
///
/// Fails only where a write does, or the flush; then a beginning was printed.
pub fn print_comparison<W: Write>(
    collator: &Collator,
    left: &str,
    right: &str,
    output: &mut W,
) -> Result<bool, ProgramError>
    ensures ok { let order = text_order (collation_kept collator.now)
        (chars left.now) (chars right.now) in IfOk result (λ equal. (equal ≡ is_eq order)
        × Appends (W.contents output.old) (W.contents output.new) (sign_of order ++ 10 ∷ [])) }
    ensures stops { let order = text_order (collation_kept collator.now)
        (chars left.now) (chars right.now) in IfErr result (StopsPrinting
        (λ t. t ≡ sign_of order ++ 10 ∷ []) (W.contents output.old) (W.contents output.new)) }
{
    let order = collator.as_borrowed().order(left, right);
    print_text(sign_line(order), output)?;
    Ok(order.is_eq())
}

/// Prints the bytes of a text's sort key, as two hexadecimal digits each with spaces between.
///
/// # Errors
///
/// Fails only where an allocation does, and prints nothing, or where a write or the flush does: then a beginning was
/// printed.
pub fn print_key<W: Write>(
    alloc: Global,
    collator: &Collator,
    text: &str,
    output: &mut W,
) -> Result<(), ProgramError>
    ensures ok { let key = text_key (collation_kept collator.now) (chars text.now) in
        OnOk result (Appends (W.contents output.old) (W.contents output.new)
        (key_text key ++ 10 ∷ [])) }
    ensures stops { let key = text_key (collation_kept collator.now) (chars text.now) in
        IfErr result (StopsPrinting (λ t. t ≡ key_text key ++ 10 ∷ [])
        (W.contents output.old) (W.contents output.new)) }
{
    let key = sort_key(alloc, collator, text)?;
    let line = key_line(alloc, key.as_slice())?;
    print_text(line.as_slice(), output)
}

/// Prints the lines of an input, each behind its sort key in hexadecimal digits and a tab.
///
/// # Errors
///
/// Those of `print_key`.
pub fn print_keys<W: Write>(
    alloc: Global,
    collator: &Collator,
    input: &[u8],
    separator: u8,
    output: &mut W,
) -> Result<(), ProgramError>
    ensures ok { let text = keyed_lines_text (collation_kept collator.now) separator
        (lines_by separator input.now) in
        OnOk result (Appends (W.contents output.old) (W.contents output.new) text) }
    ensures stops { let text = keyed_lines_text (collation_kept collator.now) separator
        (lines_by separator input.now) in
        IfErr result (StopsPrinting (λ t. t ≡ text)
        (W.contents output.old) (W.contents output.new)) }
{
    let text = keys_text(alloc, collator, input, separator)?;
    print_text(text.as_slice(), output)
}

/// Prints sorted lines, and flushes the output.
///
/// # Errors
///
/// Fails only where a write does, or the flush; then a beginning was printed.
pub fn print_lines<W: Write>(lines: OrderedLines<'_>, output: &mut W) -> Result<(), ProgramError>
    ensures ok { OnOk result
        (Appends (W.contents output.old) (W.contents output.new) (ordered_text lines.entry)) }
    ensures stops { IfErr result (StopsPrinting (λ t. t ≡ ordered_text lines.entry)
        (W.contents output.old) (W.contents output.new)) }
{
    match lines.write_to(output) {
        Ok(()) => Ok(()),
        Err(_) => Err(ProgramError::WriteFailed),
    }
}

/// Prints the lines of an input in order, chunk by chunk.
///
/// # Errors
///
/// Those of `print_key`. All memory is allocated before anything is printed.
pub fn print_sorted<W: Write>(
    alloc: Global,
    collator: &Collator,
    input: &[u8],
    request: SortRequest,
    output: &mut W,
) -> Result<(), ProgramError>
    ensures ok { OnOk result (Prints (SortsInput (collation_kept collator.now) request input.now)
        (W.contents output.old) (W.contents output.new)) }
    ensures stops { IfErr result (StopsPrinting
        (SortsInput (collation_kept collator.now) request input.now)
        (W.contents output.old) (W.contents output.new)) }
{
    let collator = collator.as_borrowed();
    collator.has_well_formed_tables();
    let lines = lines_by(alloc, input, request.separator)?;
    let by = SortBy::chosen(alloc, &collator, lines.as_slice(), request)?;
    let sorted = by.ordered_lines(alloc, &collator, lines.as_slice(), request)?;
    print_lines(sorted, output)
}
