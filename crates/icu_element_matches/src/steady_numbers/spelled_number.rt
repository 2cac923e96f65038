//! The bytes of a number.

ghost use Rattle.std.specs.Prelude.{◌≡◌, ◌<◌, ◌≤◌, ◌+◌, ◌*◌, ◌/◌, ◌%◌, ◌∷◌, ◌++◌, [], length, All, MatchOption};
ghost use Rattle.icu_order_levels.specs.WeightBytes.{without_last_zeros};
ghost use Rattle.icu_order_levels.specs.Numbers.{number_bytes, pair_bytes, pair_count, great_bytes, value_of, value_after, without_first_zeros, longest_number};
ghost use Rattle.icu_element_matches.specs.numbers.inner.Pairs.{in_twos, IsFirstPair};
ghost use Rattle.icu_element_matches.specs.steady_numbers.inner.Rooms.{room_bytes};

use crate::steady_numbers::number_room::NumberRoom;

/// The value of a few digits.
fn small_value(digits: &[u8]) -> u32
    requires decimal { All (λ d. d < 10) digits.now }
    requires few { length digits.now ≤ 7 }
    ensures { result ≡ value_of digits.now }
{
    let mut value = 0;
    for digit in digits {
        value = 10 * value + u32::from(*digit);
    }
    value
}

/// The value of a number whose first digit is not 0, if the number has three bytes at most.
fn value_of_few(digits: &[u8]) -> Option<u32>
    requires decimal { All (λ d. d < 10) digits.now }
    requires first { without_first_zeros digits.now ≡ digits.now }
    ensures { MatchOption result (1042490 ≤ value_of digits.now)
        (λ v. (v ≡ value_of digits.now) × (v < 1042490)) }
{
    if digits.len() > 7 {
        return None;
    }
    let value = small_value(digits);
    if value < 1042490 { Some(value) } else { None }
}

/// The bytes of a number below 1042490, which are three at most.
pub(crate) fn few_bytes(value: u32) -> NumberRoom
    requires { value < 1042490 }
    ensures { room_bytes result ≡ number_bytes value }
{
    let mut room = NumberRoom::new();
    if value < 74 {
        room.push(2 + value as u8);
        return room;
    }
    if value < 10234 {
        let over = value - 74;
        room.push(76 + (over / 254) as u8);
        room.push(2 + (over % 254) as u8);
        return room;
    }
    let over = value - 10234;
    room.push(116 + (over / 254 / 254) as u8);
    room.push(2 + (over / 254 % 254) as u8);
    room.push(2 + (over % 254) as u8);
    room
}

/// The first pair of a number's digits, and the others, which are even in number. The first pair of an odd number of
/// digits is one digit alone.
fn first_pair(digits: &[u8]) -> (u8, &[u8])
    requires decimal { All (λ d. d < 10) digits.now }
    requires first { without_first_zeros digits.now ≡ digits.now }
    requires some { 0 < length digits.now }
    ensures { IsFirstPair digits.now result.0 result.1.now }
{
    if digits.len() % 2 == 1 {
        (digits[0], &digits[1..])
    } else {
        (10 * digits[0] + digits[1], &digits[2..])
    }
}

/// The digits before the pairs of zeros that come last.
fn without_last_pairs(digits: &[u8]) -> &[u8]
    requires decimal { All (λ d. d < 10) digits.now }
    requires even { length digits.now % 2 ≡ 0 }
    ensures decimal { All (λ d. d < 10) result.now }
    ensures pairs { in_twos result.now ≡ without_last_zeros (in_twos digits.now) }
    ensures fewer { length result.now ≤ length digits.now }
{
    let mut kept = digits;
    while let [front @ .., tens, ones] = kept {
        if 10 * *tens + *ones != 0 {
            return kept;
        }
        kept = front;
    }
    kept
}

/// Appends the bytes of pairs: `first`, and the digits that follow it.
fn push_pairs(room: &mut NumberRoom, first: u8, digits: &[u8])
    requires decimal { All (λ d. d < 10) digits.now }
    requires first { first < 100 }
    requires fits { length (room_bytes room.old) + 1 + length digits.now / 2 ≤ 128 }
    ensures { room_bytes room.new ≡ room_bytes room.old ++ pair_bytes (first ∷ in_twos digits.now) }
{
    let mut pair = first;
    let mut left = digits;
    while let [tens, ones, rest @ ..] = left {
        room.push(11 + 2 * pair);
        pair = 10 * *tens + *ones;
        left = rest;
    }
    room.push(10 + 2 * pair);
}

/// The bytes of a number of more than three bytes: how many pairs it has, and then its pairs.
fn many_bytes(digits: &[u8]) -> NumberRoom
    requires decimal { All (λ d. d < 10) digits.now }
    requires first { without_first_zeros digits.now ≡ digits.now }
    requires some { 0 < length digits.now }
    requires fits { length digits.now ≤ longest_number }
    ensures { room_bytes result
        ≡ great_bytes (pair_count 127 (value_of digits.now)) (value_of digits.now) }
{
    let (first, others) = first_pair(digits);
    let mut room = NumberRoom::new();
    room.push(129 + (others.len() / 2) as u8);
    push_pairs(&mut room, first, without_last_pairs(others));
    room
}

/// The bytes of a number, whose first digit is not 0. Of no digits these are the bytes of 0.
pub(crate) fn spelled_number(digits: &[u8]) -> NumberRoom
    requires decimal { All (λ d. d < 10) digits.now }
    requires first { without_first_zeros digits.now ≡ digits.now }
    requires fits { length digits.now ≤ longest_number }
    ensures { room_bytes result ≡ number_bytes (value_of digits.now) }
{
    match value_of_few(digits) {
        Some(value) => few_bytes(value),
        None => many_bytes(digits),
    }
}
