//! Queues of marks one behind another.

ghost use Rattle.std.specs.Prelude.{◌≡◌, ◌<◌, ◌≤◌, ◌+◌, ◌-◌, ◌∷◌, ◌++◌, [], None, length, option_to_list, OnOk};
ghost use Rattle.ucd_normal.specs.CanonicalCombiningClass.{canonical_combining_class as class_of};
ghost use Rattle.icu_element_matches.specs.inner.MarkQueues.{queued_marks, FindsQueued};

use crate::mark_queue::MarkQueue;
use std::alloc::{AllocError, Global};

/// The mark at an index, or which character behind the queues is the one at the index.
pub(crate) fn get_queued(queues: &[MarkQueue], index: usize) -> Result<char, usize>
    ensures { FindsQueued (queued_marks queues.now) index result }
{
    let mut behind = index;
    for queue in queues {
        match queue.get(behind) {
            Some(mark) => return Ok(mark),
            None => behind -= queue.marks.len(),
        }
    }
    Err(behind)
}

/// How many marks there are: no more than `most`.
pub(crate) fn count_queued(queues: &[MarkQueue], most: usize) -> usize
    requires { length (queued_marks queues.now) ≤ most }
    ensures { result ≡ length (queued_marks queues.now) }
{
    let mut count = 0;
    for queue in queues {
        count += queue.marks.len();
    }
    count
}

/// Of so many characters those that stand behind the queues.
pub(crate) fn skip_queued(queues: &[MarkQueue], count: usize) -> usize
    ensures { result ≡ count - length (queued_marks queues.now) }
{
    let mut behind = count;
    for queue in queues {
        behind = behind.saturating_sub(queue.marks.len());
    }
    behind
}

/// Takes the first mark.
pub(crate) fn take_queued(queues: &mut Vec<MarkQueue>) -> Option<char>
    ensures marks { queued_marks queues.old.items
        ≡ option_to_list result ++ queued_marks queues.new.items }
    ensures end { result ≡ None → queued_marks queues.old.items ≡ [] }
{
    for index in 0..queues.len() {
        if let Some(mark) = queues[index].take_first() {
            return Some(mark);
        }
    }
    None
}

/// One more mark comes last: in the last queue, if that is of its class, else in one of its own.
pub(crate) fn push_mark(
    alloc: Global,
    queues: &mut Vec<MarkQueue>,
    class: u8,
    mark: char,
) -> Result<(), AllocError>
    requires is_mark { 0 < class }
    requires class { class_of mark ≡ class }
    ensures marks { OnOk result (queued_marks queues.new.items
        ≡ queued_marks queues.old.items ++ mark ∷ []) }
    ensures more { length (queued_marks queues.new.items)
        ≤ length (queued_marks queues.old.items) + 1 }
{
    let count = queues.len();
    if count > 0 && queues[count - 1].class == class {
        return queues[count - 1].push(mark);
    }
    let queue = MarkQueue::new(alloc, class, mark)?;
    queues.push(queue)?;
    Ok(())
}
