//! Room for the digits of a number.

ghost use Rattle.std.specs.Prelude.{◌≡◌, ◌≤◌, ◌<◌, ◌++◌, ◌∷◌, [], All, IsTrue, length, take};

/// How many digits are kept.
const ROOM: usize = 254;

/// The values of the digits of a number, the highest first, as many as `len` says. Those past them have no meaning.
#[derive(Clone, Copy)]
pub(crate) struct FewDigits {
    pub(crate) digits: [u8; 254],
    pub(crate) len: usize,
    ghost inside: { len ≤ 254 },
}

impl FewDigits {
    ghost use Rattle.icu_element_cursor.specs.inner.NumberElements.{few_digits};

    /// One digit.
    #[tactic(auto, unfolding(crate::specs::inner::NumberElements::few_digits))]
    #[inline(always)]
    pub(crate) fn new(digit: u8) -> FewDigits
        ensures { few_digits result ≡ digit ∷ [] }
    {
        let mut digits = [0; 254];
        digits[0] = digit;
        FewDigits { digits, len: 1 }
    }

    /// Appends a digit, where there is room for one more. Returns whether there was.
    #[tactic(auto, unfolding(crate::specs::inner::NumberElements::few_digits))]
    pub(crate) fn push(&mut self, digit: u8) -> bool
        ensures { IsTrue result → few_digits self.new ≡ few_digits self.old ++ digit ∷ [] }
    {
        let len = self.len;
        if len >= ROOM {
            return false;
        }
        self.digits[len] = digit;
        self.len = len + 1;
        true
    }

    /// All digits.
    #[tactic(auto, unfolding(crate::specs::inner::NumberElements::few_digits))]
    pub(crate) fn as_slice(&self) -> &[u8]
        ensures value { result.now ≡ few_digits self.now }
        ensures few { length (few_digits self.now) ≤ 254 }
    {
        &self.digits[..self.len]
    }
}
