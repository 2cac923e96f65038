//! The numbers of tailored weights.
ghost use Rattle.std.specs.Prelude.{◌≡◌};
ghost use Rattle.icu_rule_weights.specs.tailoring_numbers.Numberings.{number_of};

use crate::SiblingRun;
use icu_rule_meaning::SymbolicWeight;
use std::alloc::{AllocError, Global};

/// A number for each tailored weight.
#[derive(Drop)]
pub struct TailoringNumbers {
    // those of tailored weights, in the order in which these were made
    numbers: Vec<u32>,
}

impl TailoringNumbers {
    /// Numbers for so many tailored weights, none of which has one yet.
    pub(crate) fn unset(alloc: Global, made: usize) -> Result<TailoringNumbers, AllocError> {
        let mut numbers = Vec::new(alloc);
        for _ in 0..made {
            numbers.push(0)?;
        }
        Ok(TailoringNumbers { numbers })
    }

    /// The number of a weight: of one of the root its own, and 0 of one that has none.
    pub fn number(&self, w: SymbolicWeight) -> u32
        ensures { result ≡ number_of self.now w }
    {
        match w {
            SymbolicWeight::Rooted(w) => w,
            SymbolicWeight::Tailored(k) => self.numbers.get(k).copied().unwrap_or(0),
        }
    }

    /// Gives a tailored weight its number.
    fn set(&mut self, w: SymbolicWeight, number: u32) {
        if let SymbolicWeight::Tailored(k) = w {
            if let Some(place) = self.numbers.get_mut(k) {
                *place = number;
            }
        }
    }

    /// Gives the tailored weights of a run their numbers.
    pub(crate) fn set_run(&mut self, run: SiblingRun<'_>, numbers: &[u32]) {
        for (w, number) in run.tailored.iter().zip(numbers) {
            self.set(*w, *number);
        }
    }

    /// Gives the tailored weights of runs their numbers.
    pub(crate) fn set_runs(&mut self, runs: &[SiblingRun<'_>], lists: &[Vec<u32>]) {
        for (run, numbers) in runs.iter().zip(lists) {
            self.set_run(*run, numbers.as_slice());
        }
    }
}
