//! The order of two texts.
use crate::driver_error::DriverError;
use crate::texts::{WrittenText, two};
use icu_collator::Collator;
use std::alloc::{AllocError, Global};
use std::cmp::Ordering;

/// The order of two texts, by the call for their encodings, if there is one.
fn order(collator: &Collator, left: &WrittenText, right: &WrittenText) -> Option<Ordering> {
    let borrowed = collator.as_borrowed();
    match (left, right) {
        (WrittenText::Characters(left), WrittenText::Characters(right)) => {
            Some(borrowed.order(left.as_str(), right.as_str()))
        }
        (WrittenText::Utf8(left), WrittenText::Utf8(right)) => {
            Some(borrowed.order_utf8(left.as_slice(), right.as_slice()))
        }
        (WrittenText::Utf16(left), WrittenText::Utf16(right)) => {
            Some(borrowed.order_utf16(left.as_slice(), right.as_slice()))
        }
        (WrittenText::Latin1(left), WrittenText::Latin1(right)) => {
            Some(borrowed.order_latin1(left.as_slice(), right.as_slice()))
        }
        (WrittenText::Latin1(left), WrittenText::Utf16(right)) => {
            Some(borrowed.order_latin1_utf16(left.as_slice(), right.as_slice()))
        }
        _ => None,
    }
}

/// Their order by the call that returns a result, which is never an error.
fn compared(
    collator: &Collator,
    left: &WrittenText,
    right: &WrittenText,
) -> Option<Result<Ordering, AllocError>> {
    let borrowed = collator.as_borrowed();
    match (left, right) {
        (WrittenText::Characters(left), WrittenText::Characters(right)) => {
            Some(borrowed.compare(left.as_str(), right.as_str()))
        }
        (WrittenText::Utf8(left), WrittenText::Utf8(right)) => {
            Some(borrowed.compare_utf8(left.as_slice(), right.as_slice()))
        }
        (WrittenText::Utf16(left), WrittenText::Utf16(right)) => {
            Some(borrowed.compare_utf16(left.as_slice(), right.as_slice()))
        }
        (WrittenText::Latin1(left), WrittenText::Latin1(right)) => {
            Some(borrowed.compare_latin1(left.as_slice(), right.as_slice()))
        }
        (WrittenText::Latin1(left), WrittenText::Utf16(right)) => {
            Some(borrowed.compare_latin1_utf16(left.as_slice(), right.as_slice()))
        }
        _ => None,
    }
}

/// What so many comparisons return, the first by the call that returns a result, if all return the same.
fn order_of_times(
    collator: &Collator,
    left: &WrittenText,
    right: &WrittenText,
    times: u64,
) -> Option<Ordering> {
    let first = compared(collator, left, right)?.ok()?;
    for _ in 1..times {
        if order(collator, left, right)? != first {
            return None;
        }
    }
    Some(first)
}

fn has_call(left: &WrittenText, right: &WrittenText) -> bool {
    match (left, right) {
        (WrittenText::Characters(_), WrittenText::Characters(_))
        | (WrittenText::Utf8(_), WrittenText::Utf8(_))
        | (WrittenText::Utf16(_), WrittenText::Utf16(_))
        | (WrittenText::Latin1(_), WrittenText::Latin1(_) | WrittenText::Utf16(_)) => true,
        _ => false,
    }
}

/// The order of two texts.
pub(crate) fn compare(
    alloc: Global,
    collator: &Collator,
    written: &str,
    times: u64,
) -> Result<String, DriverError> {
    let (left, right) = two(alloc, written)?;
    if !has_call(&left, &right) {
        return Ok(String::from_str(alloc, "no call")?);
    }
    match order_of_times(collator, &left, &right, times) {
        Some(order) => Ok(format!(in alloc; "{order:?}")?),
        None => Ok(String::from_str(alloc, "unlike")?),
    }
}
