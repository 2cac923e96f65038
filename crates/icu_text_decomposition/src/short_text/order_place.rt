//! Which characters go before others in canonical order.

ghost use Rattle.std.specs.Prelude.{◌≡◌, ℕ};
ghost use Rattle.ucd_normal.specs.CanonicalCombiningClass.{canonical_combining_class as class_of};
ghost use Rattle.unicode_normalization.specs.Order.{is_reorderable};

use unicode_normalization::char::canonical_combining_class;

/// Whether a character of this class goes before another that stands before it (Unicode Standard, D108).
#[inline]
#[tactic(auto, unfolding(unicode_normalization::specs::Order::is_reorderable))]
fn goes_before(a: char, class: u8) -> bool
    ensures { (b : ℕ) → class ≡ class_of b → result ≡ is_reorderable a b }
{
    class > 0 && class < canonical_combining_class(a)
}

/// Whether a character goes before another that stands before it.
#[inline]
pub(crate) fn is_reorderable(a: char, b: char) -> bool
    ensures { result ≡ is_reorderable a b }
{
    goes_before(a, canonical_combining_class(b))
}
