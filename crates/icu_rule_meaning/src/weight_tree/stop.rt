//! Places of a linked list.
ghost use Rattle.std.specs.Prelude.{◌≡◌, ◌<◌, ◌≤◌, ◌^◌, IfSome, IfNone};
ghost use Rattle.icu_rule_meaning.specs.weight_tree.inner.LinkStops.{stop_at, stop_weight, is_stop, rooted_or_end};
ghost use Rattle.icu_rule_meaning.specs.weight_tree.inner.SiblingPlaces.{number_in};
ghost use Rattle.icu_rule_meaning.specs.declared.weight_tree.stop.Stop.TheVariants as stops;

use crate::SymbolicWeight;

/// A place of a linked list: that of a weight, or its end, which is behind the last weight and before the first.
#[derive(Clone, Copy, PartialEq, Eq, PartialOrd, Ord)]
pub(crate) enum Stop {
    /// Behind the last weight, and before the first.
    End,
    /// That of a weight of the root.
    Rooted(u32),
    /// That of a tailored weight, by how many were made before it.
    Tailored(u32),
}

/// The place of a weight, unless 2^32 or more were made before it.
pub(crate) fn stop_at(w: SymbolicWeight) -> Option<Stop>
    ensures some { IfSome result (λ stop. (stop ≡ stop_at w) × (number_in w < 2 ^ 32)) }
    ensures none { IfNone result (2 ^ 32 ≤ number_in w) }
{
    match w {
        SymbolicWeight::Rooted(w) => Some(Stop::Rooted(w)),
        SymbolicWeight::Tailored(k) => match u32::try_from(k) {
            Ok(k) => Some(Stop::Tailored(k)),
            Err(_) => None,
        },
    }
}

/// The weight of a place; the end has none.
pub(crate) fn stop_weight(stop: Stop) -> Option<SymbolicWeight>
    ensures { result ≡ stop_weight stop }
{
    match stop {
        Stop::End => None,
        Stop::Rooted(w) => Some(SymbolicWeight::Rooted(w)),
        Stop::Tailored(k) => Some(SymbolicWeight::Tailored(k as usize)),
    }
}

/// Whether a place is the end.
pub(crate) fn is_end(stop: Stop) -> bool
    ensures { result ≡ is_stop stop stops.End }
{
    match stop {
        Stop::End => true,
        Stop::Rooted(_) | Stop::Tailored(_) => false,
    }
}

/// A place of a weight of the root, or else the end.
pub(crate) fn rooted_or_end(stop: Stop) -> Stop
    ensures { result ≡ rooted_or_end stop }
{
    match stop {
        Stop::Rooted(_) => stop,
        Stop::End | Stop::Tailored(_) => Stop::End,
    }
}
