//! The answer to a command, by a collator.
ghost use Rattle.std.specs.Prelude.{◌≡◌, ℕ, List, IfOk, IfErr, ◌++◌, ◌∷◌, [], chars, map};
ghost use Rattle.icu_collator.specs.Collators.{collation_kept};
ghost use Rattle.icu_collator.specs.NameOrders.{name_order};
ghost use Rattle.icu_order_texts.specs.TextOrder.{text_key};
ghost use Rattle.collate_commands.specs.Answers.{IsAnswerBy, SortsLines, sign_of};
ghost use Rattle.collate_commands.specs.inner.Asked.{asked};
ghost use Rattle.collate_commands.specs.InputRead.{ReadsFor};
ghost use Rattle.program_files.specs.Inputs.{TakesWhole};
ghost use Rattle.collate_commands.specs.CollatorErrors.{IsUnanswered};
ghost use Rattle.program_files.specs.ProgramErrors.{IsUnread};
ghost use Rattle.collate_commands.specs.inner.Sorting.{all_ascending};

use crate::command::Command;
use crate::key_line::key_line;
use crate::sort_keys::keys_of_lines;
use icu_collator::Collator;
use line_sorts::{Direction, LineOrder, OrderedLines, Repeats, SortRequest, Ties, lines_by};
use program_files::{ProgramError, read_whole};
use std::alloc::{AllocError, Global};
use std::cmp::Ordering;
use std::io::Read;

/// The sign of an order, and a line feed.
pub fn sign_line(order: Ordering) -> &'static [u8]
    ensures { result.now ≡ sign_of order ++ 10 ∷ [] }
{
    match order {
        Ordering::Less => b"<\n",
        Ordering::Equal => b"=\n",
        Ordering::Greater => b">\n",
    }
}

/// The bytes of the sort key of a text.
pub fn sort_key(alloc: Global, collator: &Collator, text: &str) -> Result<Vec<u8>, AllocError>
    ensures { IfOk result (λ key.
        key.items ≡ text_key (collation_kept collator.now) (chars text.now)) }
{
    let mut key = Vec::new(alloc);
    match collator.as_borrowed().write_sort_key_to(text, &mut key) {
        Ok(()) => Ok(key),
        Err(_) => Err(AllocError),
    }
}

/// How lines are sorted: from the least on, all of them, equal ones as they stood.
fn all_ascending() -> SortRequest
    ensures { result ≡ all_ascending }
{
    SortRequest {
        order: LineOrder {
            direction: Direction::Ascending,
            ties: Ties::AsTheyCame,
        },
        repeats: Repeats::All,
        separator: b'\n',
    }
}

/// The lines of a text, sorted.
fn sorted_text(alloc: Global, collator: &Collator, bytes: &[u8]) -> Result<Vec<u8>, AllocError>
    ensures { IfOk result (λ output. SortsLines (name_order (collation_kept collator.now))
        bytes.now output.items) }
{
    let collator = collator.as_borrowed();
    collator.has_well_formed_tables();
    let lines = lines_by(alloc, bytes, b'\n')?;
    let keys = keys_of_lines(alloc, &collator, lines.as_slice())?;
    let sorted = OrderedLines::new(alloc, &keys, lines.as_slice(), all_ascending())?;
    let mut text = Vec::new(alloc);
    match sorted.write_to(&mut text) {
        Ok(()) => Ok(text),
        Err(_) => Err(AllocError),
    }
}

/// The lines of the input, sorted.
fn sort<R: Read>(alloc: Global, collator: &Collator, input: &mut R) -> Result<Vec<u8>, ProgramError>
    ensures error { IfErr result IsUnread }
    ensures answer { IfOk result (λ output. (bytes : List ℕ)
        × TakesWhole (R.remaining input.old) (R.remaining input.new) bytes
        × SortsLines (name_order (collation_kept collator.now)) bytes output.items) }
{
    let bytes = read_whole(alloc, input)?;
    Ok(sorted_text(alloc, collator, bytes.as_slice())?)
}

/// The answer to a command. To sort, the input is read to its end; no other command reads it.
pub(crate) fn answer<R: Read>(
    alloc: Global,
    collator: &Collator,
    command: Command<'_>,
    input: &mut R,
) -> Result<Vec<u8>, ProgramError>
    ensures error { IfErr result (IsUnanswered (asked command.entry)) }
    ensures answer { IfOk result (λ output. (bytes : List ℕ)
        × ReadsFor (asked command.entry) (R.remaining input.old) (R.remaining input.new) bytes
        × IsAnswerBy (collation_kept collator.now) (asked command.entry) bytes output.items) }
{
    match command {
        Command::Compare(texts) => {
            let order = collator.as_borrowed().compare(texts.left, texts.right)?;
            Ok(Vec::from_slice(alloc, sign_line(order))?)
        }
        Command::Key(of) => {
            let key = sort_key(alloc, collator, of.text)?;
            Ok(key_line(alloc, key.as_slice())?)
        }
        Command::Sort(_) => sort(alloc, collator, input),
    }
}
