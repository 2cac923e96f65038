//! What is known of parts of a text.

ghost use Rattle.std.specs.Prelude.{◌≡◌};

use crate::barren_part::BarrenPart;

/// What is known of a text by the starts that were looked at. Offsets count characters.
#[derive(Clone, Copy, Debug)]
pub struct KnownParts {
    /// A part with whose characters no match begins.
    pub barren: BarrenPart,
    /// Where a part begins whose characters are known one by one.
    pub run_start: usize,
    /// Where it ends.
    pub run_stop: usize,
}

impl KnownParts {
    /// Nothing is known.
    pub fn none() -> KnownParts
        ensures barren { result.barren.stop ≡ 0 }
        ensures run { result.run_stop ≡ 0 }
    {
        KnownParts {
            barren: BarrenPart::none(),
            run_start: 0,
            run_stop: 0,
        }
    }
}
