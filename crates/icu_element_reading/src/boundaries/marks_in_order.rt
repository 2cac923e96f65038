//! Marks in order.

ghost use Rattle.std.specs.Prelude.{◌≡◌};
ghost use Rattle.icu_element_reading.specs.boundaries.Alone.{rises_from};

use unicode_normalization::char::canonical_combining_class;

/// Whether the classes of the marks up to the next starter rise from this one.
#[tactic(auto, unfolding(crate::specs::boundaries::Alone::rises_from))]
pub fn rises_from(class: u8, text: &[char]) -> bool
    ensures { result ≡ rises_from class text.now }
{
    let mut last = class;
    for c in text {
        let next = canonical_combining_class(*c);
        if next == 0 {
            return true;
        }
        if next < last {
            return false;
        }
        last = next;
    }
    true
}
