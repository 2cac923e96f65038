//! Whether a text has quaternary weights of its own.

ghost use Rattle.std.specs.Prelude.{◌≡◌, false, ◌||◌};
ghost use Rattle.icu_key_writers.specs.Accumulated.{has_quaternary_bits};

use icu_table_entries::NonPrimary;
use std::marker::Model;

/// Accumulates the lower halves of collation elements, and says whether any had quaternary bits (bits 7 and 6). It is
/// seen as that.
#[derive(Clone, Copy, Debug, Drop)]
pub struct AnyQuaternaryAccumulator {
    any: bool,
}

impl Model for AnyQuaternaryAccumulator {
    ghost use Rattle.std.specs.Prelude.{Bool};

    ghost Value = { Bool };

    ghost view = { λ a. a.any };

    ghost inverse = { λ any. record { any = any } };
}

impl AnyQuaternaryAccumulator {
    /// Nothing is accumulated.
    pub fn new() -> Self
        ensures { result ≡ false }
    {
        AnyQuaternaryAccumulator { any: false }
    }

    /// Accumulates the weights of an element.
    pub fn accumulate(&mut self, non_primary: NonPrimary)
        ensures { self.new ≡ (self.old || has_quaternary_bits non_primary) }
    {
        let bits = non_primary.tertiary_case_quarternary(0xC0);
        let any = &mut self.any;
        *any = *any || bits != 0;
    }

    /// Whether an accumulated element had quaternary bits.
    pub fn has_quaternary(&self) -> bool
        ensures { result ≡ self.now }
    {
        self.any
    }
}
