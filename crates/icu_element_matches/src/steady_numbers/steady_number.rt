//! The weights of a number, one by one.

ghost use Rattle.std.specs.Prelude.{◌≡◌, ◌<◌, ◌≤◌, ◌∷◌, ◌++◌, [], None, length, All, option_to_list};
ghost use Rattle.icu_order_levels.specs.Numbers.{number_weights, value_of, without_first_zeros, longest_number};

use crate::steady_numbers::number_room::NumberRoom;
use crate::steady_numbers::spelled_number::{few_bytes, spelled_number};

/// The primary weights of a number that are still to be given (UTS #35 part 5, "Setting Options" on numeric ordering).
/// It holds the bytes of the number, 128 at most, and allocates nothing.
#[derive(Debug, Clone, Copy)]
pub struct SteadyNumber {
    pub(crate) lead: u8,
    pub(crate) room: NumberRoom,
    pub(crate) next: usize,
}

impl SteadyNumber {
    ghost use Rattle.icu_element_matches.specs.steady_numbers.SteadyNumbers.{weights_left};

    /// All weights of a number, before reordering. `lead` is the numeric lead byte, with which each weight begins.
    /// `digits` are values from 0 to 9, the highest first, without zeros at the front. Of no digits these are the
    /// weights of 0.
    #[tactic(auto, unfolding(crate::specs::steady_numbers::SteadyNumbers::weights_left))]
    pub fn new(lead: u8, digits: &[u8]) -> SteadyNumber
        requires decimal { All (λ d. d < 10) digits.now }
        requires first { without_first_zeros digits.now ≡ digits.now }
        requires fits { length digits.now ≤ longest_number }
        ensures { weights_left result ≡ number_weights lead (value_of digits.now) }
    {
        SteadyNumber {
            lead,
            room: spelled_number(digits),
            next: 0,
        }
    }

    /// All weights of a number below 1042490, by its value: it has one. `lead` is the numeric lead byte.
    #[tactic(auto, unfolding(crate::specs::steady_numbers::SteadyNumbers::weights_left))]
    pub fn of_few(lead: u8, value: u32) -> SteadyNumber
        requires { value < 1042490 }
        ensures { weights_left result ≡ number_weights lead value }
    {
        SteadyNumber {
            lead,
            room: few_bytes(value),
            next: 0,
        }
    }

    /// The next weight, or `None` after the last one.
    #[tactic(auto, unfolding(crate::specs::steady_numbers::SteadyNumbers::weights_left))]
    pub fn next(&mut self) -> Option<u32>
        ensures next { weights_left self.old ≡ option_to_list result ++ weights_left self.new }
        ensures end { result ≡ None → weights_left self.old ≡ [] }
    {
        let bytes = self.room.as_slice();
        if self.next >= bytes.len() {
            return None;
        }
        let (weight, count) = match &bytes[self.next..] {
            [second, third, fourth, ..] => ([self.lead, *second, *third, *fourth], 3),
            [second, third] => ([self.lead, *second, *third, 0], 2),
            [second] => ([self.lead, *second, 0, 0], 1),
            [] => return None,
        };
        self.next += count;
        Some(u32::from_be_bytes(weight))
    }
}

/// The weight of a number below 1042490, which has one, by its value, before reordering. `lead` is the numeric lead
/// byte.
pub fn few_weight(lead: u8, value: u32) -> u32
    requires { value < 1042490 }
    ensures { number_weights lead value ≡ result ∷ [] }
{
    if value < 74 {
        return u32::from_be_bytes([lead, 2 + value as u8, 0, 0]);
    }
    if value < 10234 {
        let over = value - 74;
        return u32::from_be_bytes([lead, 76 + (over / 254) as u8, 2 + (over % 254) as u8, 0]);
    }
    let over = value - 10234;
    let first = 116 + (over / 254 / 254) as u8;
    u32::from_be_bytes([
        lead,
        first,
        2 + (over / 254 % 254) as u8,
        2 + (over % 254) as u8,
    ])
}
