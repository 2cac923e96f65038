//! What calls return to C.

ghost use Rattle.std.specs.Prelude.{◌≡◌, Err, IsOk, Ok};
ghost use Rattle.collate_c.specs.Statuses.{bad_settings, bad_tables, done, handle_closed, no_bound, no_memory, order_sign, too_small};
ghost use Rattle.collate_c.specs.declared.statuses.Failure.TheVariants as failures;

use icu_collator::SortKeyError;
use icu_table_entries::{DataError, DataErrorKind};
use std::alloc::AllocError;
use std::cmp::Ordering;

/// What a comparison returns of a closed handle.
pub(crate) const NO_ORDER: i32 = 2;

/// Why a call didn't do what it was asked for.
#[derive(Debug, Clone, Copy, PartialEq, Eq)]
pub enum Failure {
    /// An allocation failed.
    NoMemory,
    /// The bytes are no table file, or it is damaged, or its tables are refused.
    Tables,
    /// The tag is none, or it asks for something else than settings that are known.
    Settings,
    /// The room for the bytes that were asked for is too small.
    TooSmall,
    /// The handle is closed.
    Closed,
    /// No bytes are above the keys of the texts that begin with this one.
    NoBound,
}

impl From<AllocError> for Failure {
    ghost from_gives = { λ _ failure. failure ≡ failures.NoMemory };

    fn from(_: AllocError) -> Failure {
        Failure::NoMemory
    }
}

impl From<SortKeyError<AllocError>> for Failure {
    ghost from_gives = { λ _ failure. failure ≡ failures.NoMemory };

    fn from(_: SortKeyError<AllocError>) -> Failure {
        Failure::NoMemory
    }
}

impl From<DataError> for Failure {
    fn from(error: DataError) -> Failure {
        match error.kind {
            DataErrorKind::NoMemory => Failure::NoMemory,
            _ => Failure::Tables,
        }
    }
}

/// The status of a call.
pub(crate) fn status(outcome: Result<(), Failure>) -> i32
    ensures succeeds { IsOk outcome → result ≡ done }
    ensures success { result ≡ done → IsOk outcome }
    ensures memory { result ≡ no_memory → outcome ≡ Err failures.NoMemory }
    ensures tables { result ≡ bad_tables → outcome ≡ Err failures.Tables }
    ensures settings { result ≡ bad_settings → outcome ≡ Err failures.Settings }
    ensures room { result ≡ too_small → outcome ≡ Err failures.TooSmall }
    ensures of_closed { outcome ≡ Err failures.Closed → result ≡ handle_closed }
    ensures closed { result ≡ handle_closed → outcome ≡ Err failures.Closed }
    ensures bound { result ≡ no_bound → outcome ≡ Err failures.NoBound }
{
    match outcome {
        Ok(()) => 0,
        Err(Failure::NoMemory) => 1,
        Err(Failure::Tables) => 2,
        Err(Failure::Settings) => 3,
        Err(Failure::TooSmall) => 4,
        Err(Failure::Closed) => 5,
        Err(Failure::NoBound) => 6,
    }
}

/// The sign of an order.
pub(crate) fn sign_of_order(order: Ordering) -> i32
    ensures { result ≡ order_sign order }
{
    match order {
        Ordering::Less => -1,
        Ordering::Equal => 0,
        Ordering::Greater => 1,
    }
}

/// What is said of a status.
pub(crate) fn message(status: i32) -> &'static str {
    match status {
        0 => "done",
        1 => "out of memory",
        2 => "no table file, or a damaged one, or its tables are refused",
        3 => "no language tag, or one that asks for something else than settings that are known",
        4 => "the room is too small",
        5 => "the handle is closed",
        6 => "no bytes are above all texts that begin so",
        _ => "no status of this library",
    }
}
