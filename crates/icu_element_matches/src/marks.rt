//! Marks that join a match: those that don't follow it directly too, where nothing blocks them.

ghost use Rattle.std.specs.Prelude.{◌≡◌, ◌<◌, ◌≤◌, ◌++◌, [], ℕ, List, length, IsTrue, IfOk, OnOk};
ghost use Rattle.icu_table_data.specs.Contexts.{has_ascending_mappings};
ghost use Rattle.icu_table_data.specs.StoredData.{found_context};
ghost use Rattle.icu_element_matches.specs.Matches.{with_marks};
ghost use Rattle.icu_element_matches.specs.Texts.{still_unread, match_left};
ghost use Rattle.icu_element_matches.specs.inner.Joining.{greatest_class, Joins, match_behind};
ghost use Rattle.icu_element_matches.specs.inner.MarkQueues.{queued_marks, HasNoMark};

use crate::classed_text::ClassedText;
use crate::mappings::find_mapping;
use crate::mark_queue::MarkQueue;
use crate::matched::Matched;
use icu_table_data::FoundContext;
use std::alloc::{AllocError, Global};

/// A mark joins the match if the suffix with it is a mapping. Returns whether it does.
fn join_mark(
    context: FoundContext<'_>,
    mark: char,
    matched: &mut Matched,
) -> Result<bool, AllocError>
    requires { IsTrue (has_ascending_mappings (found_context context)) }
    ensures { IfOk result
        (Joins (found_context context.entry).mappings mark matched.old matched.new) }
{
    matched.suffix.push(mark)?;
    match find_mapping(context, matched.suffix.as_slice()) {
        Some(joined) => {
            matched.ce32 = joined;
            Ok(true)
        }
        None => {
            matched.suffix.pop();
            Ok(false)
        }
    }
}

/// The marks of a class that is above those of all that were passed over join the match one by one, as long as the
/// suffix with the first of them is a mapping. It blocks the others, where it isn't.
fn join_queue(
    context: FoundContext<'_>,
    queue: &mut MarkQueue,
    matched: &mut Matched,
) -> Result<(), AllocError>
    requires { IsTrue (has_ascending_mappings (found_context context)) }
    ensures marks { (passed left : List ℕ) → greatest_class passed < queue.old.class → OnOk result
        (match_behind (found_context context.entry).mappings matched.new
        (passed ++ queue.new.marks.items) left
        ≡ match_behind (found_context context.entry).mappings matched.old
        passed (queue.old.marks.items ++ left)) }
    ensures class { OnOk result (queue.new.class ≡ queue.old.class) }
    ensures fewer { length queue.new.marks.items ≤ length queue.old.marks.items }
{
    'marks: while let Some(mark) = queue.first() {
        if !join_mark(context, mark, matched)? {
            return Ok(());
        }
        queue.take_first();
    }
    Ok(())
}

/// The marks of a class join the match, where that class is above the greatest of those that were passed over. The
/// others are passed over.
fn pass_queue(
    context: FoundContext<'_>,
    queue: &mut MarkQueue,
    greatest: u8,
    matched: &mut Matched,
) -> Result<u8, AllocError>
    requires { IsTrue (has_ascending_mappings (found_context context)) }
    ensures marks { (passed left : List ℕ) → greatest_class passed ≡ greatest → OnOk result
        (match_behind (found_context context.entry).mappings matched.new
        (passed ++ queue.new.marks.items) left
        ≡ match_behind (found_context context.entry).mappings matched.old
        passed (queue.old.marks.items ++ left)) }
    ensures greatest { (passed : List ℕ) → greatest_class passed ≡ greatest → IfOk result
        (λ g. greatest_class (passed ++ queue.new.marks.items) ≡ g) }
    ensures fewer { length queue.new.marks.items ≤ length queue.old.marks.items }
{
    if queue.class <= greatest {
        return Ok(greatest);
    }
    join_queue(context, queue, matched)?;
    if queue.first().is_some() {
        Ok(queue.class)
    } else {
        Ok(greatest)
    }
}

/// The marks of all queues join the match, or are passed over.
fn pass_queues(
    context: FoundContext<'_>,
    queues: &mut Vec<MarkQueue>,
    matched: &mut Matched,
) -> Result<(), AllocError>
    requires { IsTrue (has_ascending_mappings (found_context context)) }
    ensures marks { (left : List ℕ) → OnOk result
        (match_behind (found_context context.entry).mappings matched.new
        (queued_marks queues.new.items) left
        ≡ match_behind (found_context context.entry).mappings matched.old
        [] (queued_marks queues.old.items ++ left)) }
    ensures fewer { length (queued_marks queues.new.items)
        ≤ length (queued_marks queues.old.items) }
{
    let mut greatest = 0;
    for index in 0..queues.len() {
        greatest = pass_queue(context, &mut queues[index], greatest, matched)?;
    }
    Ok(())
}

/// The marks up to the next starter join the match one by one, and leave the text, where they aren't blocked and the
/// suffix with them is a mapping. A mark is blocked if its class isn't above the greatest class of those that were
/// passed over.
pub(crate) fn join_marks(
    alloc: Global,
    context: FoundContext<'_>,
    text: &mut ClassedText,
    matched: &mut Matched,
) -> Result<(), AllocError>
    requires { IsTrue (has_ascending_mappings (found_context context)) }
    ensures { OnOk result (match_left matched.new text.new
        ≡ match_behind (found_context context.entry).mappings matched.old
        [] (still_unread text.old)) }
{
    text.gather_marks(alloc)?;
    pass_queues(context, &mut text.queues, matched)
}
