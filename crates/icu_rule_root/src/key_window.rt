//! Keys, which stand for the first three weights of elements, and look-ups among ascending ones.

ghost use Rattle.std.specs.Prelude.{◌≡◌, ◌+◌, ◌∷◌, [], None, IfSome};
ghost use Rattle.std.specs.List.Sorted.{IsStrictlyIncreasing};
ghost use Rattle.icu_rule_meaning.specs.TailoredRoots.{first_above, last_below};
ghost use Rattle.icu_rule_meaning.specs.RootPositions.{last_number};
ghost use Rattle.icu_rule_root.specs.inner.KeyWindows.{element_key, key_to, secondary_window, tertiary_window, tertiary_window_below, symbolic_window, window_weight, weights_in_window, window_below};
ghost use Rattle.icu_rule_root.specs.inner.KeyPlaces.{IsKeyCount, IsWindow};

use icu_rule_meaning::SymbolicWeight;
use icu_table_entries::CollationElement;

/// How many weights of a key count.
#[derive(Clone, Copy, PartialEq)]
pub(crate) enum KeyLevel {
    /// The primary one.
    Primary,
    /// The secondary one as well.
    Secondary,
    /// All three.
    Tertiary,
}

/// The keys that have certain weights on the levels before one.
#[derive(Clone, Copy, PartialEq)]
pub(crate) struct KeyWindow {
    /// The level.
    pub(crate) level: KeyLevel,
    /// What a key, without the weights below the level, has more than its weight of the level.
    pub(crate) base: u64,
    /// A number below all of those keys.
    pub(crate) low: u64,
    /// The last number that such a key may be.
    pub(crate) last: u64,
}

/// The primary weights.
pub(crate) const PRIMARIES: KeyWindow = KeyWindow {
    level: KeyLevel::Primary,
    base: 0,
    low: 0x0200_0000,
    last: 0xFDFF_FFFF,
};

/// The key of an element.
pub(crate) fn element_key(element: CollationElement) -> u64
    ensures { result ≡ element_key element }
{
    let above = (u64::from(element.primary()) << 32) + (u64::from(element.secondary()) << 16);
    above + u64::from(element.non_primary().tertiary())
}

/// A key without the weights below a level.
pub(crate) fn key_to(level: KeyLevel, key: u64) -> u64
    ensures { result ≡ key_to level key }
{
    match level {
        KeyLevel::Primary => key >> 32,
        KeyLevel::Secondary => key >> 16,
        KeyLevel::Tertiary => key,
    }
}

/// The window of the weights below a primary one.
fn secondary_window(p: u32) -> KeyWindow
    ensures value { result ≡ secondary_window p }
    ensures window { IsWindow result }
{
    let base = u64::from(p) << 16;
    KeyWindow {
        level: KeyLevel::Secondary,
        base,
        low: base,
        last: base + 0xFFFF,
    }
}

/// The window of the weights below a primary and a secondary one, which has two bytes.
fn tertiary_window(p: u32, s: u16) -> KeyWindow
    ensures value { result ≡ tertiary_window p s }
    ensures window { IsWindow result }
{
    let base = (u64::from(p) << 32) + (u64::from(s) << 16);
    KeyWindow {
        level: KeyLevel::Tertiary,
        base,
        low: base,
        last: base + 0xFFFF,
    }
}

/// The window of the weights below a primary and a secondary one, if there may be some.
fn tertiary_window_below(p: u32, s: u32) -> Option<KeyWindow>
    ensures value { result ≡ tertiary_window_below p s }
    ensures window { IfSome result IsWindow }
{
    if s < 0x10000 {
        Some(tertiary_window(p, s as u16))
    } else {
        None
    }
}

/// The window of the weights below others, if there may be some.
#[tactic(auto, unfolding(crate::specs::inner::KeyWindows::window_below))]
pub(crate) fn window_below(above: &[u32]) -> Option<KeyWindow>
    ensures value { result ≡ window_below above.now }
    ensures window { IfSome result IsWindow }
{
    match above {
        [] => Some(PRIMARIES),
        [p] => Some(secondary_window(*p)),
        [p, s] => tertiary_window_below(*p, *s),
        _ => None,
    }
}

/// The window below weights of the root.
#[tactic(auto, unfolding(crate::specs::inner::KeyWindows::symbolic_window))]
fn rooted_window(p: SymbolicWeight) -> Option<KeyWindow>
    ensures value { result ≡ symbolic_window (p ∷ []) }
    ensures window { IfSome result IsWindow }
{
    match p {
        SymbolicWeight::Rooted(p) => window_below(&[p]),
        SymbolicWeight::Tailored(_) => None,
    }
}

/// The window below two weights of the root.
#[tactic(auto, unfolding(crate::specs::inner::KeyWindows::symbolic_window))]
fn rooted_window_of_two(p: SymbolicWeight, s: SymbolicWeight) -> Option<KeyWindow>
    ensures value { result ≡ symbolic_window (p ∷ s ∷ []) }
    ensures window { IfSome result IsWindow }
{
    match p {
        SymbolicWeight::Rooted(p) => match s {
            SymbolicWeight::Rooted(s) => window_below(&[p, s]),
            SymbolicWeight::Tailored(_) => None,
        },
        SymbolicWeight::Tailored(_) => None,
    }
}

/// The window below weights of which none is tailored, if there may be some.
#[tactic(auto, unfolding(crate::specs::inner::KeyWindows::symbolic_window))]
pub(crate) fn symbolic_window(above: &[SymbolicWeight]) -> Option<KeyWindow>
    ensures value { result ≡ symbolic_window above.now }
    ensures window { IfSome result IsWindow }
{
    match above {
        [] => window_below(&[]),
        [p] => rooted_window(*p),
        [p, s] => rooted_window_of_two(*p, *s),
        _ => None,
    }
}

/// How many of ascending keys come to no more than a number.
fn count_up_to(keys: &[u64], level: KeyLevel, most: u64) -> usize
    requires { IsStrictlyIncreasing keys.now }
    ensures { IsKeyCount level keys.now most result }
{
    keys.partition_point(|key| key_to(level, *key) <= most)
}

/// The weight of a key in a window, if it lies there.
fn window_weight(window: KeyWindow, key: u64) -> Option<u32>
    requires { IsWindow window }
    ensures { result ≡ window_weight window key }
{
    let v = key_to(window.level, key);
    if window.low < v && v <= window.last {
        Some((v - window.base) as u32)
    } else {
        None
    }
}

/// The least weight of a window that is greater.
pub(crate) fn least_above(keys: &[u64], window: KeyWindow, w: u32) -> Option<u32>
    requires ascending { IsStrictlyIncreasing keys.now }
    requires window { IsWindow window }
    ensures { result ≡ first_above (weights_in_window window keys.now) w }
{
    if u64::from(w) >= window.last - window.base {
        return None;
    }
    let most = window.low.max(window.base + u64::from(w));
    let place = count_up_to(keys, window.level, most);
    match keys.get(place) {
        Some(key) => window_weight(window, *key),
        None => None,
    }
}

/// The greatest weight of a window that isn't greater.
pub(crate) fn greatest_up_to(keys: &[u64], window: KeyWindow, w: u32) -> Option<u32>
    requires ascending { IsStrictlyIncreasing keys.now }
    requires window { IsWindow window }
    ensures { result ≡ last_below None (weights_in_window window keys.now) (w + 1) }
{
    let most = window.base + u64::from(w).min(window.last - window.base);
    let place = count_up_to(keys, window.level, most);
    if place == 0 {
        return None;
    }
    window_weight(window, keys[place - 1])
}

/// The greatest weight of a window that is less.
pub(crate) fn greatest_below(keys: &[u64], window: KeyWindow, w: u32) -> Option<u32>
    requires ascending { IsStrictlyIncreasing keys.now }
    requires window { IsWindow window }
    ensures { result ≡ last_below None (weights_in_window window keys.now) w }
{
    if w == 0 {
        return None;
    }
    greatest_up_to(keys, window, w - 1)
}

/// The last weight of a window; 0 if there is none.
pub(crate) fn last_in_window(keys: &[u64], window: KeyWindow) -> u32
    requires ascending { IsStrictlyIncreasing keys.now }
    requires window { IsWindow window }
    ensures { result ≡ last_number 0 (weights_in_window window keys.now) }
{
    let last = (window.last - window.base) as u32;
    greatest_up_to(keys, window, last).unwrap_or(0)
}
