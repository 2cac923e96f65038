//! The weights of a run of digits, for collators that order numbers by value.
//!
//! The crate knows no table and no text: a run is a slice of digit values, and what is made of it are primary weights.
//! `icu_order_levels` has the definition and proves that such weights order by value.
ghost use Rattle.std.specs.Prelude.{◌≡◌, ◌<◌, ◌≤◌, ◌++◌, All, IfOk, OnOk, length, take, drop};
ghost use Rattle.icu_order_levels.specs.Numbers.{number_weights, value_of, without_first_zeros, longest_number, run_weights};

use crate::steady_numbers::SteadyNumber;
use std::alloc::{AllocError, Global};

/// How many digits are read as one number at most.
const LONGEST_NUMBER: usize = 254;

/// The digits after the zeros that come first.
fn without_first_zeros(digits: &[u8]) -> &[u8]
    ensures { result.now ≡ without_first_zeros digits.now }
{
    let mut left = digits;
    while let [0, rest @ ..] = left {
        left = rest;
    }
    left
}

/// The digits that are read as one number, and those after them.
fn first_number(digits: &[u8]) -> (&[u8], &[u8])
    ensures number { result.0.now ≡ take longest_number digits.now }
    ensures rest { result.1.now ≡ drop longest_number digits.now }
{
    if digits.len() <= LONGEST_NUMBER {
        (digits, &[])
    } else {
        (&digits[..LONGEST_NUMBER], &digits[LONGEST_NUMBER..])
    }
}

/// Appends the weights of a number, whose first digit is not 0. Of no digits these are the weights of 0.
fn push_number(weights: &mut Vec<u32>, lead: u8, digits: &[u8]) -> Result<(), AllocError>
    requires decimal { All (λ d. d < 10) digits.now }
    requires first { without_first_zeros digits.now ≡ digits.now }
    requires fits { length digits.now ≤ longest_number }
    ensures { OnOk result
        (weights.new.items ≡ weights.old.items ++ number_weights lead (value_of digits.now)) }
{
    let mut number = SteadyNumber::new(lead, digits);
    'weights: while let Some(weight) = number.next() {
        weights.push(weight)?;
    }
    Ok(())
}

/// The primary weights of a run of decimal digits, before reordering (UTS #35 part 5, "Setting Options" on numeric
/// ordering).
///
/// `lead` is the numeric lead byte, with which each weight begins. `digits` are values from 0 to 9, the highest first,
/// not characters. First zeros are dropped, but a run of zeros alone has the weights of 0. A run is read as one number
/// up to 254 digits, and what is left as a run of its own. Of no digits there are no weights.
///
/// # Errors
///
/// `AllocError` if an allocation failed.
pub fn digit_run_weights(alloc: Global, lead: u8, digits: &[u8]) -> Result<Vec<u32>, AllocError>
    requires decimal { All (λ d. d < 10) digits.now }
    ensures weights { IfOk result (λ ws. ws.items ≡ run_weights lead digits.now) }
{
    let mut weights = Vec::new(alloc);
    let mut left = digits;
    while !left.is_empty() {
        let (number, rest) = first_number(without_first_zeros(left));
        push_number(&mut weights, lead, number)?;
        left = rest;
    }
    Ok(weights)
}
