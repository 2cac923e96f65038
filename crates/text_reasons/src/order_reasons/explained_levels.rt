//! A text, part by part with its collation elements, and level by level with its sort key.

ghost use Rattle.std.specs.Prelude.{◌≡◌, ◌++◌, IfOk, OnOk, chars, drop, length};
ghost use Rattle.icu_collator.specs.Collators.{collation_borrowed};
ghost use Rattle.icu_element_reading.specs.Reading.{reading_of};
ghost use Rattle.icu_order_texts.specs.TextOrder.{reading_by, text_key};
ghost use Rattle.text_reasons.specs.Explanations.{explanation_of};
ghost use Rattle.text_reasons.specs.order_reasons.OrderLevels.{all_levels, up_to};
ghost use Rattle.text_reasons.specs.order_reasons.Reasons.{explained_text, key_level_line, level_lines};

use crate::explanation;
use crate::order_reasons::level_collator::{collator_up_to, level_counts};
use crate::order_reasons::reason::{all_levels, level_name};
use collate_commands::key_line::key_line;
use icu_collator::CollatorBorrowed;
use icu_element_reading::TextReading;
use icu_order_texts::level_weights::OrderLevel;
use std::alloc::{AllocError, Global};

/// The sort key of a text up to a level.
fn key_up_to(
    alloc: Global,
    collator: &CollatorBorrowed<'_>,
    level: OrderLevel,
    text: &str,
) -> Result<Vec<u8>, AllocError>
    ensures { IfOk result (λ key. key.items
        ≡ text_key (up_to level (collation_borrowed collator.now)) (chars text.now)) }
{
    let mut key = Vec::new(alloc);
    match collator_up_to(collator, level).write_sort_key_to(text, &mut key) {
        Ok(()) => Ok(key),
        Err(_) => Err(AllocError),
    }
}

/// The bytes behind the first ones.
fn bytes_behind(bytes: &[u8], count: usize) -> &[u8]
    ensures { result.now ≡ drop count bytes.entry.now }
{
    &bytes[count.min(bytes.len())..]
}

/// Appends the name of a level, a tab, and the bytes of a sort key behind those before the level.
fn push_level_line(
    alloc: Global,
    output: &mut Vec<u8>,
    level: OrderLevel,
    key: &[u8],
    before: usize,
) -> Result<(), AllocError>
    ensures { OnOk result (output.new.items ≡ output.old.items
        ++ key_level_line level (drop before key.now)) }
{
    output.extend_from_slice(level_name(level))?;
    output.extend_from_slice(b"\t")?;
    let line = key_line(alloc, bytes_behind(key, before))?;
    output.extend_from_slice(line.as_slice())
}

/// Appends a line for each of some levels that count.
fn push_level_lines(
    alloc: Global,
    collator: &CollatorBorrowed<'_>,
    output: &mut Vec<u8>,
    text: &str,
    levels: &[OrderLevel],
) -> Result<(), AllocError>
    ensures { OnOk result (output.new.items ≡ output.old.items
        ++ level_lines (collation_borrowed collator.now) (chars text.now) 0 levels.now) }
{
    let mut before = 0usize;
    for level in levels {
        if level_counts(collator, *level) {
            let key = key_up_to(alloc, collator, *level, text)?;
            push_level_line(alloc, output, *level, key.as_slice(), before)?;
            before = key.len();
        }
    }
    Ok(())
}

/// How a collator reads texts.
pub(crate) fn reading_of_collator<'c>(collator: &CollatorBorrowed<'c>) -> TextReading<'c>
    ensures { reading_of result ≡ reading_by (collation_borrowed collator.now) }
{
    collator.cursor_tables().places().reading()
}

/// The characters of a text.
pub(crate) fn characters(alloc: Global, text: &str) -> Result<Vec<char>, AllocError>
    ensures { IfOk result (λ cs. cs.items ≡ chars text.now) }
{
    text.chars().collect(alloc)
}

/// A line for each part of a text whose characters are read together, with their numbers and their collation elements.
/// Then a line for each level that counts: its name, a tab, and its bytes in the sort key, with those that part it from
/// its neighbours.
///
/// # Errors
///
/// Fails only where an allocation does.
pub fn explained_text(
    alloc: Global,
    collator: &CollatorBorrowed<'_>,
    text: &str,
) -> Result<Vec<u8>, AllocError>
    ensures { IfOk result (λ output. output.items
        ≡ explained_text (collation_borrowed collator.now) (chars text.now)) }
{
    let characters = characters(alloc, text)?;
    let mut output = explanation(reading_of_collator(collator), characters.as_slice())?;
    let levels = all_levels();
    push_level_lines(alloc, collator, &mut output, text, levels.as_slice())?;
    Ok(output)
}
