//! Room for the digits of one number.

ghost use Rattle.std.specs.Prelude.{◌≡◌, ◌≤◌, ◌<◌, ◌++◌, ◌∷◌, [], All, MatchBool, length, take};
ghost use Rattle.icu_order_levels.specs.Numbers.{longest_number, without_first_zeros};

/// How many digits are read as one number at most.
const ROOM: usize = 254;

/// The values of the digits of one number, the highest first and without zeros at the front, as many as `len` says.
/// Those past them have no meaning.
#[derive(Clone, Copy)]
pub(crate) struct NumberDigits {
    pub(crate) digits: [u8; 254],
    pub(crate) len: usize,
    ghost inside: { len ≤ 254 },
    ghost decimal: { All (λ d. d < 10) (take len digits) },
    ghost first: { without_first_zeros (take len digits) ≡ take len digits },
}

impl NumberDigits {
    ghost use Rattle.icu_element_reading.specs.steady_elements.inner.RunDigits.{room_digits};

    /// No digit.
    #[tactic(auto, unfolding(crate::specs::steady_elements::inner::RunDigits::room_digits))]
    pub(crate) fn new() -> NumberDigits
        ensures { room_digits result ≡ [] }
    {
        NumberDigits {
            digits: [0; 254],
            len: 0,
        }
    }

    /// Whether it has as many digits as one number has at most.
    #[tactic(auto, unfolding(crate::specs::steady_elements::inner::RunDigits::room_digits))]
    pub(crate) fn is_full(&self) -> bool
        ensures { MatchBool result (length (room_digits self.now) ≡ longest_number)
            (length (room_digits self.now) < longest_number) }
    {
        self.len >= ROOM
    }

    /// One digit more. A zero at the front is dropped.
    #[tactic(auto, unfolding(crate::specs::steady_elements::inner::RunDigits::room_digits))]
    pub(crate) fn push(&mut self, digit: u8)
        requires decimal { digit < 10 }
        requires room { length (room_digits self.old) < longest_number }
        ensures { room_digits self.new ≡ without_first_zeros (room_digits self.old ++ digit ∷ []) }
    {
        let len = self.len;
        if len >= ROOM {
            return;
        }
        if len == 0 && digit == 0 {
            return;
        }
        self.digits[len] = digit;
        self.len = len + 1;
    }

    /// All digits.
    #[tactic(auto, unfolding(crate::specs::steady_elements::inner::RunDigits::room_digits))]
    pub(crate) fn as_slice(&self) -> &[u8]
        ensures value { result.now ≡ room_digits self.now }
        ensures decimal { All (λ d. d < 10) (room_digits self.now) }
        ensures first { without_first_zeros (room_digits self.now) ≡ room_digits self.now }
        ensures fits { length (room_digits self.now) ≤ longest_number }
    {
        &self.digits[..self.len]
    }
}
