//! Nibbles, two to a byte.

ghost use Rattle.std.specs.Option.{ForSome};
ghost use Rattle.std.specs.Prelude.{◌≡◌, ℕ, ◌<◌, List, [], ◌∷◌, ◌++◌, option_to_list};
ghost use Rattle.icu_order_levels.specs.Cases.{packed};

/// Packs nibbles into bytes, the first of two in the high half.
#[derive(Clone, Copy, Drop)]
pub(crate) struct Nibbles {
    /// A nibble that waits for another.
    pub held: Option<u8>,
    ghost half: { ForSome held (λ n. n < 16) },
}

impl Nibbles {
    /// No nibble.
    pub fn new() -> Self
        ensures { option_to_list result.held ≡ [] }
    {
        Nibbles { held: None }
    }

    /// Adds a nibble, and returns the byte that it completes, if it does.
    pub fn add(&mut self, nibble: u8) -> Option<u8>
        requires { nibble < 16 }
        ensures { (ns : List ℕ) →
            packed (option_to_list self.old.held ++ (nibble ∷ ns))
            ≡ option_to_list result ++ packed (option_to_list self.new.held ++ ns) }
    {
        match self.held {
            None => {
                self.held = Some(nibble);
                None
            }
            Some(high) => {
                self.held = None;
                Some(high * 16 + nibble)
            }
        }
    }

    /// Takes a nibble, where there is one, and returns the byte that it completes, if it does.
    pub fn add_optional(&mut self, nibble: Option<u8>) -> Option<u8>
        requires { ForSome nibble (λ n. n < 16) }
        ensures { (ns : List ℕ) →
            packed (option_to_list self.old.held ++ (option_to_list nibble ++ ns))
            ≡ option_to_list result ++ packed (option_to_list self.new.held ++ ns) }
    {
        match nibble {
            None => None,
            Some(nibble) => self.add(nibble),
        }
    }

    /// The byte of a nibble that is left over.
    pub fn last(self) -> Option<u8>
        ensures { option_to_list result ≡ packed (option_to_list self.held) }
    {
        match self.held {
            None => None,
            Some(high) => Some(high * 16),
        }
    }
}
