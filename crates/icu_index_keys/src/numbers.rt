//! Searches among numbers that rise. Each turn looks at some of them at once, none of which waits for another, and
//! counts those that are below: so no turn goes one way or another, which a processor would have to guess. What they
//! find is looked at before anything rests on it.

ghost use Rattle.std.specs.Prelude.{◌+◌, ◌*◌, ◌<◌, ◌≤◌, length};

use crate::name_entries::Entry;

/// One where the number at an index is below another, else zero.
fn number_below(numbers: &[u64], index: usize, number: u64) -> usize
    requires { index < length numbers.now }
    ensures { result ≤ 1 }
{
    usize::from(numbers[index] < number)
}

/// How much of a range, by the numbers that part it in four, begins below a number.
fn quarters_below(numbers: &[u64], base: usize, part: usize, number: u64) -> usize
    requires { base + 3 * part < length numbers.now }
    ensures { result ≤ 3 * part }
{
    let below = number_below(numbers, base + part, number)
        + number_below(numbers, base + 2 * part, number)
        + number_below(numbers, base + 3 * part, number);
    below * part
}

/// How many numbers are below one, where they rise.
pub(crate) fn numbers_below(numbers: &[u64], number: u64) -> usize {
    let mut base = 0;
    let mut size = numbers.len();
    'narrowing: while 4 <= size {
        let part = size / 4;
        base += quarters_below(numbers, base, part, number);
        size -= 3 * part;
    }
    let mut count = base;
    for index in base..base + size {
        count += number_below(numbers, index, number);
    }
    count
}

/// One where the number of the entry at an index is below another, else zero.
fn entry_below(entries: &[Entry], index: usize, number: u64) -> usize
    requires { index < length entries.now }
    ensures { result ≤ 1 }
{
    usize::from(entries[index].prefix < number)
}

/// How much of a range, by the entries that part it in eight, begins below a number.
fn eighths_below(entries: &[Entry], base: usize, part: usize, number: u64) -> usize
    requires { base + 7 * part < length entries.now }
    ensures { result ≤ 7 * part }
{
    let below = entry_below(entries, base + part, number)
        + entry_below(entries, base + 2 * part, number)
        + entry_below(entries, base + 3 * part, number)
        + entry_below(entries, base + 4 * part, number)
        + entry_below(entries, base + 5 * part, number)
        + entry_below(entries, base + 6 * part, number)
        + entry_below(entries, base + 7 * part, number);
    below * part
}

/// How many entries a leaf has at least that was parted.
const FEW: usize = 64;

/// How many entries an eighth of a leaf has at most, with those that are behind the last of eight.
const EIGHTH: usize = 24;

/// How many entries of a leaf have numbers below one, where these rise. Two turns leave three entries of a leaf.
pub(crate) fn entries_below(entries: &[Entry], number: u64) -> usize {
    let len = entries.len();
    if len < FEW {
        return entries.partition_point(|entry| -> bool { entry.prefix < number });
    }
    let eighth = eighths_below(entries, 0, len / 8, number);
    let base = eighth.min(len - EIGHTH);
    let base = base + eighths_below(entries, base, EIGHTH / 8, number);
    base + entry_below(entries, base, number)
        + entry_below(entries, base + 1, number)
        + entry_below(entries, base + 2, number)
}
