//! Links between places.
ghost use Rattle.std.specs.Prelude.{◌≡◌, true, false, OnOk, OnErr};
ghost use Rattle.icu_rule_meaning.specs.weight_tree.inner.LinkStops.{rooted_above};
ghost use Rattle.icu_rule_meaning.specs.weight_tree.inner.LinkedOrders.{next_in, prev_in, is_linked, SetsNext, SetsPrev, LinksBetween};

use crate::weight_tree::stop::Stop;
use std::alloc::AllocError;
use std::collections::BTreeMap;

/// The places before and behind a place.
#[derive(Clone, Copy)]
pub(crate) struct Links {
    pub(crate) prev: Stop,
    pub(crate) next: Stop,
}

/// The links of each place.
pub(crate) type LinkMap = BTreeMap<Stop, Links>;

/// The place behind another; the end where that one isn't linked.
pub(crate) fn next_in(links: &LinkMap, at: Stop) -> Stop
    ensures { result ≡ next_in links.now.entries at }
{
    match links.get(&at) {
        Some(found) => found.next,
        None => Stop::End,
    }
}

/// The place before another; the end where that one isn't linked.
pub(crate) fn prev_in(links: &LinkMap, at: Stop) -> Stop
    ensures { result ≡ prev_in links.now.entries at }
{
    match links.get(&at) {
        Some(found) => found.prev,
        None => Stop::End,
    }
}

/// Whether a place is linked.
pub(crate) fn is_linked(links: &LinkMap, at: Stop) -> bool
    ensures { result ≡ is_linked links.now.entries at }
{
    links.contains_key(&at)
}

/// Sets the place behind another.
fn set_next(links: &mut LinkMap, at: Stop, next: Stop)
    requires { is_linked links.old.entries at ≡ true }
    ensures { SetsNext links.old.entries links.new.entries at next }
{
    if let Some(found) = links.get_mut(&at) {
        found.next = next;
    }
}

/// Sets the place before another.
fn set_prev(links: &mut LinkMap, at: Stop, prev: Stop)
    requires { is_linked links.old.entries at ≡ true }
    ensures { SetsPrev links.old.entries links.new.entries at prev }
{
    if let Some(found) = links.get_mut(&at) {
        found.prev = prev;
    }
}

/// Links a new place between two others. Out of memory, the links stay as they were.
pub(crate) fn join(links: &mut LinkMap, prev: Stop, new: Stop, next: Stop) -> Result<(), AllocError>
    requires new { is_linked links.old.entries new ≡ false }
    requires prev { is_linked links.old.entries prev ≡ true }
    requires next { is_linked links.old.entries next ≡ true }
    ensures ok { OnOk result (LinksBetween links.old.entries links.new.entries prev new next) }
    ensures err { OnErr result (links.new.entries ≡ links.old.entries) }
{
    links.insert(new, Links { prev, next })?;
    set_next(links, prev, new);
    set_prev(links, next, new);
    Ok(())
}
