//! Tailored weights behind weights of the root, among siblings.
ghost use Rattle.std.specs.Prelude.{ℕ, ◌≡◌, ◌↔◌, ◌≤◌, All, length, take, drop, MatchOption, IfOk};
ghost use Rattle.icu_rule_weights.specs.GapEnds.{IsBelowNext};
ghost use Rattle.icu_rule_weights.specs.SiblingRuns.{AreTailored, IsRootedFirst, AreRunsOf};
ghost use Rattle.icu_rule_weights.specs.inner.FirstRuns.{IsFirstRun, HasNoRun, first_rooted};

use icu_rule_meaning::SymbolicWeight;
use std::alloc::{AllocError, Global};

/// A weight of the root among siblings, and the tailored ones directly behind it.
#[derive(Clone, Copy)]
pub struct SiblingRun<'t> {
    /// Whether the elements have no weight of the level before.
    pub alone: bool,
    /// The weight of the root.
    pub rooted: u32,
    /// A greater weight below which all tailored ones have to stay, if there is one.
    pub next: Option<u32>,
    /// The tailored weights, ascending.
    pub tailored: &'t [SymbolicWeight],
}

impl<'t> SiblingRun<'t> {
    /// The run with its tailored weights below another weight as well, if there is one.
    pub fn limited_by(self, next: Option<u32>) -> SiblingRun<'t>
        ensures next { (x : ℕ) → IsBelowNext result.next x
            ↔ (IsBelowNext self.entry.next x × IsBelowNext next x) }
        ensures others { result ≡ record self.entry { next = result.next } }
    {
        let next = match (self.next, next) {
            (Some(first), Some(second)) => Some(first.min(second)),
            (Some(first), None) => Some(first),
            (None, second) => second,
        };
        SiblingRun {
            alone: self.alone,
            rooted: self.rooted,
            next,
            tailored: self.tailored,
        }
    }
}

/// How many siblings are tailored before the first one of the root.
fn tailored_len(siblings: &[SymbolicWeight]) -> usize
    ensures within { result ≤ length siblings.now }
    ensures tailored { AreTailored (take result siblings.now) }
    ensures ends { IsRootedFirst (drop result siblings.now) }
{
    for (i, w) in siblings.iter().enumerate() {
        match w {
            SymbolicWeight::Rooted(_) => return i,
            SymbolicWeight::Tailored(_) => {}
        }
    }
    siblings.len()
}

/// The first of siblings, if it is of the root.
fn first_rooted(siblings: &[SymbolicWeight]) -> Option<u32>
    ensures { result ≡ first_rooted siblings.now }
{
    match siblings {
        [SymbolicWeight::Rooted(w), ..] => Some(*w),
        _ => None,
    }
}

/// The first weight of the root with the tailored ones behind it, and the siblings that follow.
fn split_run<'t>(
    alone: bool,
    siblings: &'t [SymbolicWeight],
) -> Option<(SiblingRun<'t>, &'t [SymbolicWeight])>
    ensures { MatchOption result (HasNoRun siblings.now)
        (λ p. IsFirstRun alone siblings.now p.0 p.1.now) }
{
    let (first, others) = siblings.split_first()?;
    match first {
        SymbolicWeight::Rooted(rooted) => {
            let (tailored, rest) = others.split_at(tailored_len(others));
            let run = SiblingRun {
                alone,
                rooted: *rooted,
                next: first_rooted(rest),
                tailored,
            };
            Some((run, rest))
        }
        SymbolicWeight::Tailored(_) => None,
    }
}

/// The weights of the root among siblings, each with the tailored ones behind it and the next one of the root.
pub fn sibling_runs<'t>(
    alloc: Global,
    alone: bool,
    siblings: &'t [SymbolicWeight],
) -> Result<Vec<SiblingRun<'t>>, AllocError>
    ensures { IfOk result (λ runs. IsRootedFirst siblings.now
        → AreRunsOf alone siblings.now runs.items) }
{
    let mut runs = Vec::new(alloc);
    let mut rest = siblings;
    'splitting: while let Some((run, others)) = split_run(alone, rest) {
        runs.push(run)?;
        rest = others;
    }
    Ok(runs)
}
