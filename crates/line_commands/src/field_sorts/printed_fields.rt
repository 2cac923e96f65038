//! What the command prints.

ghost use Rattle.std.specs.Prelude.{IfErr, OnOk};
ghost use Rattle.icu_collator.specs.Collators.{collation_kept};
ghost use Rattle.line_commands.specs.Printed.{Prints, StopsPrinting};
ghost use Rattle.line_commands.specs.field_sorts.FieldSortedInputs.{SortsByFields};

use crate::field_sorts::field_sort::FieldSorts;
use crate::field_sorts::line_key::keys_of_lines;
use crate::print_lines;
use icu_collator::Collator;
use line_sorts::{OrderedLines, SortRequest, lines_by};
use program_files::ProgramError;
use std::alloc::Global;
use std::io::Write;

/// Prints the lines of an input in the order of their fields.
///
/// # Errors
///
/// Fails only where an allocation does, and prints nothing, or where a write or the flush does: then a beginning was
/// printed.
pub fn print_sorted_by_fields<W: Write>(
    alloc: Global,
    collator: &Collator,
    fields: FieldSorts<'_>,
    input: &[u8],
    request: SortRequest,
    output: &mut W,
) -> Result<(), ProgramError>
    ensures ok { OnOk result (Prints (SortsByFields (collation_kept collator.now)
        fields.entry.ends fields.entry.sorts.now request input.now)
        (W.contents output.old) (W.contents output.new)) }
    ensures stops { IfErr result (StopsPrinting (SortsByFields (collation_kept collator.now)
        fields.entry.ends fields.entry.sorts.now request input.now)
        (W.contents output.old) (W.contents output.new)) }
{
    let lines = lines_by(alloc, input, request.separator)?;
    let keys = keys_of_lines(alloc, &collator.as_borrowed(), fields, lines.as_slice())?;
    let sorted = OrderedLines::new(alloc, &keys, lines.as_slice(), request)?;
    print_lines(sorted, output)
}
