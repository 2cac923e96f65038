//! Lists of weights in ascending order.

ghost use Rattle.std.specs.Prelude.{◌≡◌, ◌≤◌, ◌↔◌, [], All, Contains, IfSome, IsNone, IsTrue};

/// Whether a weight is in the list.
pub fn contains(weights: &[u32], weight: u32) -> bool
    ensures { IsTrue result ↔ Contains weights.now weight }
{
    weights.contains(&weight)
}

/// The greatest of the weights, `None` where there is none.
pub fn greatest(weights: &[u32]) -> Option<u32>
    ensures empty { IsNone result ↔ (weights.now ≡ []) }
    ensures member { IfSome result (Contains weights.now) }
    ensures greatest { IfSome result (λ most. All (λ w. w ≤ most) weights.now) }
{
    weights.iter().copied().max()
}

/// The least of the weights, `None` where there is none.
pub fn least(weights: &[u32]) -> Option<u32>
    ensures empty { IsNone result ↔ (weights.now ≡ []) }
    ensures member { IfSome result (Contains weights.now) }
    ensures least { IfSome result (λ least. All (λ w. least ≤ w) weights.now) }
{
    weights.iter().copied().min()
}
