//! Weights in a row, for lists that are short.
ghost use Rattle.std.specs.Prelude.{◌≡◌, slice_index_or, OnOk, take_while};
ghost use Rattle.icu_rule_meaning.specs.SymbolicElements.{is_same_weight, has_tailored_weight};
ghost use Rattle.icu_rule_meaning.specs.WeightTrees.{with_rooted, with_behind, directly_before, put_behind};
ghost use Rattle.icu_rule_meaning.specs.declared.symbolic.SymbolicWeight.TheVariants as symbolic;
ghost use Rattle.icu_rule_meaning.specs.RootPositions.{last_weight};
ghost use Rattle.icu_rule_meaning.specs.weight_tree.inner.SiblingChanges.{changed};
ghost use Rattle.icu_rule_meaning.specs.weight_tree.inner.SiblingPlaces.{ends_search, place_among, first_place};
ghost use Rattle.icu_rule_meaning.specs.weight_tree.inner.TailoredSiblings.{first_of_tailored};

use crate::SymbolicWeight;
use crate::weight_tree::change::Change;
use std::alloc::AllocError;

/// Whether two weights are the same.
pub(crate) fn is_same(v: SymbolicWeight, w: SymbolicWeight) -> bool
    ensures { result ≡ is_same_weight v w }
{
    v == w
}

/// Whether a weight is tailored.
pub(crate) fn is_tailored(w: SymbolicWeight) -> bool
    ensures { result ≡ has_tailored_weight w }
{
    match w {
        SymbolicWeight::Rooted(_) => false,
        SymbolicWeight::Tailored(_) => true,
    }
}

/// Whether a weight of the root has its place before this one, or a tailored one is this one.
fn ends(w: SymbolicWeight, v: SymbolicWeight) -> bool
    ensures { result ≡ ends_search w v }
{
    match (w, v) {
        (SymbolicWeight::Rooted(w), SymbolicWeight::Rooted(v)) => w <= v,
        (SymbolicWeight::Rooted(_), SymbolicWeight::Tailored(_)) => false,
        (SymbolicWeight::Tailored(_), _) => v == w,
    }
}

/// Where a weight stands or would be put.
fn search_place(weights: &[SymbolicWeight], w: SymbolicWeight) -> usize
    ensures { result ≡ place_among w weights.now }
{
    for (i, v) in weights.iter().enumerate() {
        if ends(w, *v) {
            return i;
        }
    }
    weights.len()
}

/// Where a weight stands first.
fn search_first(weights: &[SymbolicWeight], w: SymbolicWeight) -> usize
    ensures { result ≡ first_place w weights.now }
{
    for (i, v) in weights.iter().enumerate() {
        if is_same(*v, w) {
            return i;
        }
    }
    weights.len()
}

/// Whether a weight of the root stands at a place.
fn stands_at(weights: &[SymbolicWeight], place: usize, w: u32) -> bool
    ensures { result ≡ is_same_weight
        (slice_index_or weights.now place (symbolic.Tailored 0)) (symbolic.Rooted w) }
{
    match weights.get(place) {
        Some(v) => is_same(*v, SymbolicWeight::Rooted(w)),
        None => false,
    }
}

/// Puts a weight of the root in its place, where it doesn't stand there.
fn put_rooted(weights: &mut Vec<SymbolicWeight>, w: u32) -> Result<(), AllocError>
    ensures { OnOk result (weights.new.items ≡ with_rooted w weights.old.items) }
{
    let rooted = SymbolicWeight::Rooted(w);
    let place = search_place(weights.as_slice(), rooted);
    if stands_at(weights.as_slice(), place, w) {
        return Ok(());
    }
    weights.insert(place, rooted)?;
    Ok(())
}

/// Puts a new tailored weight directly behind another; both at the end where that one doesn't stand here.
fn put_behind(
    weights: &mut Vec<SymbolicWeight>,
    w: SymbolicWeight,
    new: usize,
) -> Result<(), AllocError>
    ensures { OnOk result (weights.new.items
        ≡ with_behind w (symbolic.Tailored new) weights.old.items) }
{
    let new = SymbolicWeight::Tailored(new);
    let place = search_first(weights.as_slice(), w);
    if place < weights.len() {
        weights.insert(place + 1, new)?;
        return Ok(());
    }
    weights.extend_from_slice(&[w, new])?;
    Ok(())
}

/// Makes a change of weights in a row.
pub(crate) fn change_row(
    weights: &mut Vec<SymbolicWeight>,
    change: Change,
) -> Result<(), AllocError>
    ensures { OnOk result (weights.new.items ≡ changed change weights.old.items) }
{
    match change {
        Change::PutRooted(w) => put_rooted(weights, w),
        Change::PutBehind(w, new) => put_behind(weights, w, new),
    }
}

/// The weight directly before another in a row.
pub(crate) fn before_in_row(weights: &[SymbolicWeight], w: SymbolicWeight) -> Option<SymbolicWeight>
    ensures { result ≡ directly_before w weights.now }
{
    let place = search_first(weights, w);
    if place == 0 || weights.len() <= place {
        return None;
    }
    Some(weights[place - 1])
}

/// The weights behind one of a row.
pub(crate) fn behind(weights: &[SymbolicWeight], w: SymbolicWeight) -> &[SymbolicWeight]
    ensures { result.now ≡ put_behind w weights.now }
{
    let place = search_first(weights, w);
    if place < weights.len() {
        return &weights[place + 1..];
    }
    &[]
}

/// The last of the tailored weights that a row begins with, or another weight.
pub(crate) fn last_tailored(found: SymbolicWeight, weights: &[SymbolicWeight]) -> SymbolicWeight
    ensures { result ≡ last_weight found (take_while has_tailored_weight weights.now) }
{
    let mut last = found;
    for w in weights {
        if !is_tailored(*w) {
            return last;
        }
        last = *w;
    }
    last
}

/// The first tailored one of a row before a weight, or that weight.
pub(crate) fn first_tailored(weights: &[SymbolicWeight], common: SymbolicWeight) -> SymbolicWeight
    ensures { result ≡ first_of_tailored common weights.now }
{
    for w in weights {
        if is_tailored(*w) || is_same(*w, common) {
            return *w;
        }
    }
    common
}

/// The last weight of a row, or another one where there is none.
pub(crate) fn last_in_row(weights: &[SymbolicWeight], other: SymbolicWeight) -> SymbolicWeight
    ensures { result ≡ last_weight other weights.now }
{
    match weights.last() {
        Some(w) => *w,
        None => other,
    }
}
