//! That texts may be sorted by their order.

ghost use Rattle.std.specs.Cmp.{IsTotalOrder};
ghost use Rattle.icu_order_texts.specs.TextOrder.{text_order};
ghost use Rattle.icu_order_texts.specs.weighting.Collations.{Collation};

/// The order of texts is a total order with ties, for every collation (tables and settings together) and all texts:
/// what the library's sorts ask of a comparison.
pub fn text_order_is_total()
    ensures { (c : Collation) → IsTotalOrder (text_order c) }
{}
