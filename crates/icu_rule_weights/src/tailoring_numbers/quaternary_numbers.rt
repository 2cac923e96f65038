//! Numbers of quaternary weights, of which there are three.
ghost use Rattle.std.specs.Prelude.{◌≡◌};

use crate::{GapNumbers, SiblingRun};
use std::alloc::{AllocError, Global};

/// The greatest quaternary weight.
const GREATEST: u32 = 3;

/// The numbers of the tailored weights of a run, if there is room: those that follow the weight of the root.
fn quaternary_numbers(alloc: Global, run: SiblingRun<'_>) -> Result<Option<Vec<u32>>, AllocError> {
    let high = run.next.unwrap_or(GREATEST + 1).min(GREATEST + 1);
    let mut numbers = Vec::new(alloc);
    let mut last = run.rooted;
    for _ in run.tailored {
        if last >= high || last + 1 >= high {
            return Ok(None);
        }
        last += 1;
        numbers.push(last)?;
    }
    Ok(Some(numbers))
}

/// The numbers of the tailored weights of all runs, or the place of one without room.
pub(crate) fn number_quaternaries(
    alloc: Global,
    runs: &[SiblingRun<'_>],
) -> Result<GapNumbers, AllocError> {
    let mut lists = Vec::new(alloc);
    for (place, run) in runs.iter().enumerate() {
        match quaternary_numbers(alloc, *run)? {
            Some(numbers) => lists.push(numbers)?,
            None => return Ok(GapNumbers::NoRoom(place)),
        }
    }
    Ok(GapNumbers::Filled(lists))
}
