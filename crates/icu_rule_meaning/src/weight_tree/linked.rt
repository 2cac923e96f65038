//! Weights that are linked, for lists that are long.
ghost use Rattle.std.specs.Prelude.{List, ◌≡◌, ◌<◌, ◌^◌, ◌++◌, ◌∷◌, [], true, false, if◌then◌else◌, take_while, OnOk, IfOk, IfSome};
ghost use Rattle.std.specs.Bool.{OnTrue};
ghost use Rattle.icu_rule_meaning.specs.declared.symbolic.SymbolicWeight.{SymbolicWeight};
ghost use Rattle.icu_rule_meaning.specs.declared.symbolic.SymbolicWeight.TheVariants as symbolic;
ghost use Rattle.icu_rule_meaning.specs.SymbolicElements.{has_tailored_weight};
ghost use Rattle.icu_rule_meaning.specs.WeightTrees.{with_rooted, with_behind, directly_before, put_behind};
ghost use Rattle.icu_rule_meaning.specs.RootPositions.{last_weight};
ghost use Rattle.icu_rule_meaning.specs.declared.weight_tree.stop.Stop.TheVariants as stops;
ghost use Rattle.icu_rule_meaning.specs.weight_tree.inner.LinkStops.{is_stop, standing_weight, stands, in_front, rooted_above};
ghost use Rattle.icu_rule_meaning.specs.weight_tree.inner.SiblingPlaces.{number_in};
ghost use Rattle.icu_rule_meaning.specs.weight_tree.inner.LinkedOrders.{linked_weights, IsChain, RootedAscend};
ghost use Rattle.icu_rule_meaning.specs.weight_tree.inner.SiblingChanges.{changed};
ghost use Rattle.icu_rule_meaning.specs.weight_tree.inner.TailoredSiblings.{first_weight, first_of_tailored};

use crate::SymbolicWeight;
use crate::weight_tree::change::Change;
use crate::weight_tree::links::{LinkMap, Links, is_linked, join, next_in, prev_in};
use crate::weight_tree::listed::{is_same, is_tailored};
use crate::weight_tree::stop::{Stop, is_end, rooted_or_end, stop_at, stop_weight};
use std::alloc::{AllocError, Global};
use std::marker::Model;
use std::ops::Bound;

/// Weights below the same ones, ascending, of which none stands twice. Each is linked to the one before it and the one
/// behind it, so another one is put in without a search, whatever their number.
#[derive(Drop)]
pub(crate) struct LinkedWeights {
    links: LinkMap,
}

impl Model for LinkedWeights {
    ghost Value = { List SymbolicWeight };

    ghost view = { λ a. linked_weights a.links.entries };

    ghost invariant = { λ a. IsChain a.links.entries };
}

impl LinkedWeights {
    /// No weights.
    pub(crate) fn new(alloc: Global) -> Result<Self, AllocError>
        ensures { IfOk result (λ made. made ≡ []) }
    {
        let mut links = LinkMap::new(alloc);
        let alone = Links {
            prev: Stop::End,
            next: Stop::End,
        };
        links.insert(Stop::End, alone)?;
        Ok(LinkedWeights { links })
    }

    /// Whether a place is that of one of the weights, or the end.
    fn has(&self, stop: Stop) -> bool
        ensures value { result ≡ stands stop self.now }
        ensures ascends { RootedAscend self.now }
    {
        is_linked(&self.links, stop)
    }

    /// The place of the first weight of the root that is greater, or the end.
    fn rooted_above(&self, w: u32) -> Stop
        ensures { result ≡ rooted_above w self.now }
    {
        let greater = (Bound::Excluded(Stop::Rooted(w)), Bound::Unbounded);
        match self.links.range(greater).next() {
            Some((stop, _)) => rooted_or_end(*stop),
            None => Stop::End,
        }
    }

    /// Puts a weight directly before a place.
    fn put(&mut self, next: Stop, new: Stop) -> Result<(), AllocError>
        requires next { stands next self.old ≡ true }
        requires new { stands new self.old ≡ false }
        requires ascends { RootedAscend (in_front next (standing_weight new) self.old) }
        requires small { number_in (standing_weight new) < 2 ^ 32 }
        ensures { OnOk result (self.new ≡ in_front next (standing_weight new) self.old) }
    {
        let prev = prev_in(&self.links, next);
        join(&mut self.links, prev, new, next)?;
        Ok(())
    }

    /// Puts a weight of the root in its place, where it doesn't stand there.
    fn put_rooted(&mut self, w: u32) -> Result<(), AllocError>
        ensures { OnOk result (self.new ≡ with_rooted w self.old) }
    {
        let rooted = Stop::Rooted(w);
        if self.has(rooted) {
            return Ok(());
        }
        let next = self.rooted_above(w);
        self.put(next, rooted)
    }

    /// Puts a tailored weight directly behind another, if that one is linked and the new one isn't. Returns whether it
    /// did.
    fn put_behind(&mut self, at: Stop, new: u32) -> Result<bool, AllocError>
        requires { is_stop at stops.End ≡ false }
        ensures { IfOk result (λ done. self.new ≡ (if done
            then with_behind (standing_weight at) (symbolic.Tailored new) self.old else self.old)) }
    {
        if !self.has(at) {
            return Ok(false);
        }
        if self.has(Stop::Tailored(new)) {
            return Ok(false);
        }
        let next = next_in(&self.links, at);
        self.put(next, Stop::Tailored(new))?;
        Ok(true)
    }

    /// Puts a tailored weight directly behind another, if that one is linked and the new one can be. Returns whether it
    /// did.
    fn try_behind(&mut self, w: SymbolicWeight, new: usize) -> Result<bool, AllocError>
        ensures { IfOk result (λ done. self.new ≡ (if done
            then with_behind w (symbolic.Tailored new) self.old else self.old)) }
    {
        match stop_at(w) {
            Some(at) => match u32::try_from(new) {
                Ok(small) => self.put_behind(at, small),
                Err(_) => Ok(false),
            },
            None => Ok(false),
        }
    }

    /// Makes a change, if all weights can be linked then. Returns whether it did.
    pub(crate) fn try_change(&mut self, change: Change) -> Result<bool, AllocError>
        ensures { IfOk result (λ done. self.new ≡ (if done then changed change self.old
            else self.old)) }
    {
        match change {
            Change::PutRooted(w) => {
                self.put_rooted(w)?;
                Ok(true)
            }
            Change::PutBehind(w, new) => self.try_behind(w, new),
        }
    }

    /// Whether all weights can be linked if this one stands behind them.
    fn may_push(&self, stop: Stop) -> bool
        ensures { OnTrue result ((stands stop self.now ≡ false)
            × RootedAscend (in_front stops.End (standing_weight stop) self.now)) }
    {
        if self.has(stop) {
            return false;
        }
        match stop {
            Stop::End => false,
            Stop::Rooted(w) => is_end(self.rooted_above(w)),
            Stop::Tailored(_) => true,
        }
    }

    /// Puts a weight behind all others, if all can be linked then. Returns whether it did.
    fn try_push(&mut self, w: SymbolicWeight) -> Result<bool, AllocError>
        ensures { IfOk result (λ done. OnTrue done (self.new ≡ self.old ++ w ∷ [])) }
    {
        match stop_at(w) {
            Some(stop) => {
                if !self.may_push(stop) {
                    return Ok(false);
                }
                self.put(Stop::End, stop)?;
                Ok(true)
            }
            None => Ok(false),
        }
    }

    /// The weight directly before another.
    pub(crate) fn before(&self, w: SymbolicWeight) -> Option<SymbolicWeight>
        ensures { result ≡ directly_before w self.now }
    {
        match stop_at(w) {
            Some(at) => stop_weight(prev_in(&self.links, at)),
            None => None,
        }
    }

    /// The weight directly behind another.
    pub(crate) fn behind(&self, w: SymbolicWeight) -> Option<SymbolicWeight>
        ensures { result ≡ first_weight (put_behind w self.now) }
    {
        match stop_at(w) {
            Some(at) => stop_weight(next_in(&self.links, at)),
            None => None,
        }
    }

    /// The last of what was tailored behind a weight of the root, or that weight.
    pub(crate) fn last_behind(&self, w: u32) -> SymbolicWeight
        ensures { result ≡ last_weight (symbolic.Rooted w) (take_while has_tailored_weight
            (put_behind (symbolic.Rooted w) self.now)) }
    {
        let rooted = SymbolicWeight::Rooted(w);
        if !self.has(Stop::Rooted(w)) {
            return rooted;
        }
        let next = self.rooted_above(w);
        stop_weight(prev_in(&self.links, next)).unwrap_or(rooted)
    }

    /// The last weight, or another one where there is none.
    pub(crate) fn last_or(&self, other: SymbolicWeight) -> SymbolicWeight
        ensures { result ≡ last_weight other self.now }
    {
        stop_weight(prev_in(&self.links, Stop::End)).unwrap_or(other)
    }

    /// The first tailored one before a weight, or that weight.
    pub(crate) fn first_tailored(&self, common: SymbolicWeight) -> SymbolicWeight
        ensures { result ≡ first_of_tailored common self.now }
    {
        let mut at = next_in(&self.links, Stop::End);
        let mut left = self.links.len();
        while 0 < left {
            match stop_weight(at) {
                Some(w) => {
                    if is_tailored(w) || is_same(w, common) {
                        return w;
                    }
                }
                None => return common,
            }
            at = next_in(&self.links, at);
            left -= 1;
        }
        common
    }

    /// The weights.
    pub(crate) fn to_vec(&self, alloc: Global) -> Result<Vec<SymbolicWeight>, AllocError>
        ensures { IfOk result (λ weights. weights.items ≡ self.now) }
    {
        let mut weights = Vec::new(alloc);
        let mut at = next_in(&self.links, Stop::End);
        let mut left = self.links.len();
        while 0 < left {
            match stop_weight(at) {
                Some(w) => weights.push(w)?,
                None => return Ok(weights),
            }
            at = next_in(&self.links, at);
            left -= 1;
        }
        Ok(weights)
    }
}

/// Weights of a row as linked ones, if none stands twice and those of the root ascend.
pub(crate) fn linked(
    alloc: Global,
    row: &[SymbolicWeight],
) -> Result<Option<LinkedWeights>, AllocError>
    ensures { IfOk result (λ found. IfSome found (λ made. made ≡ row.now)) }
{
    let mut made = LinkedWeights::new(alloc)?;
    for w in row {
        if !made.try_push(*w)? {
            return Ok(None);
        }
    }
    Ok(Some(made))
}
