//! The first violation of the entries that are reachable in a root or a tailoring, by a judge of each.
ghost use Rattle.std.specs.Prelude.{◌≡◌, ◌<◌, ◌↔◌, ◌⊎◌, ℕ, true, false, Option, IfSome, None, Some};
ghost use Rattle.icu_table_entries.specs.Entries.{kind_of};
ghost use Rattle.icu_table_data.specs.Data.{Data};
ghost use Rattle.icu_table_data.specs.Reachable.{reachable_from};
ghost use Rattle.icu_table_data.specs.StoredData.{data_of};
ghost use Rattle.icu_table_data.specs.Violations.{earlier, ComesFirst, JudgesAlike, AreFreeOf, IsFreeOf, IsFirstAmong, IsFirstOfReachable, IsViolationAmong, IsReachableViolation};
ghost use Rattle.icu_table_data.specs.Walks.{EachOfBlock};
ghost use Rattle.icu_table_data.specs.inner.Visitors.{judged};

use crate::block_walk::visit_chars;
use crate::data::CollationData;
use crate::walk::{Visit, visit_from};
use icu_table_entries::{CollationElement32, EntryKind};
use std::convert::Infallible;
use std::marker::PhantomData;

/// A violation that has a rank among all that may be reported.
pub trait Ranked: Copy {
    /// The rank of a violation.
    ghost rank: { Self → ℕ };

    /// The rank of the violation: where several are found, the one with the least rank is reported.
    fn rank(self) -> u32
        ensures { result ≡ rank self };
}

/// What finds the violation of an entry that is reachable with a character.
pub trait Judge {
    /// What it reports.
    type Violation: Ranked;

    /// The violation of an entry, by the entry's home, the character, and the entry.
    ghost violation: { Self → Data → ℕ → ℕ → Option Self.Violation };

    /// The violation of an entry that is reachable with a character in its home, if it has one.
    fn violation(
        &self,
        home: CollationData<'_>,
        c: char,
        entry: CollationElement32,
    ) -> Option<Self::Violation>
        ensures { result ≡ violation self.now (data_of home.entry) c entry };

    /// The violation of an entry that doesn't go by its character is the same with each character.
    fn is_alike(&self)
        ensures { JudgesAlike (violation self.now) };

    /// Whether no entry for an implicit weight (UTS #10, "Implicit Weights") has a violation, so that a walk may pass
    /// over the million characters that have one. `false` leaves that open.
    fn passes_implicit(&self) -> bool
        ensures { result ≡ true → (home : Data) (c e : ℕ) → kind_of e ≡ EntryKind.Implicit
            → violation self.now home c e ≡ None }
    {
        false
    }

    /// Whether an entry has no violation with any of the 64 characters from one on, so that a walk may pass over them.
    /// `false` leaves that open.
    fn passes_run(&self, home: CollationData<'_>, first: char, entry: CollationElement32) -> bool
        ensures { result ≡ true
            → EachOfBlock first (λ c. violation self.now (data_of home.entry) c entry ≡ None) }
    {
        false
    }

    /// Whether an entry has the same violation, or none, with each of the 64 characters from one on, so that a walk may
    /// judge it with the first alone. `false` leaves that open.
    fn is_alike_run(&self, home: CollationData<'_>, first: char, entry: CollationElement32) -> bool
        ensures { result ≡ true
            → EachOfBlock first (λ c. violation self.now (data_of home.entry) c entry
            ≡ violation self.now (data_of home.entry) first entry) }
    {
        false
    }
}

/// The violation with the lesser rank; of two with one rank, the best so far.
#[inline(always)]
#[tactic(auto, unfolding(crate::specs::Violations::earlier))]
pub fn earlier<F: Ranked>(best: Option<F>, found: Option<F>) -> Option<F>
    ensures { result ≡ earlier F.rank best found }
{
    match (best, found) {
        (None, found) => found,
        (Some(best), None) => Some(best),
        (Some(best), Some(found)) => {
            if found.rank() < best.rank() {
                Some(found)
            } else {
                Some(best)
            }
        }
    }
}

/// A visitor that keeps the violation that comes first. It never ends the walk: the error is that of a visitor that one
/// walk serves beside it.
#[derive(Drop)]
pub struct FirstViolation<'j, J: Judge, E> {
    /// What finds the violation of an entry.
    pub judge: &'j J,
    /// The first violation so far.
    pub first: Option<J::Violation>,
    /// Why the other visitor ends the walk.
    pub error: PhantomData<E>,
}

impl<'j, J: Judge, E> Visit for FirstViolation<'j, J, E> {
    type Error = E;

    ghost Seen = { J × Option J.Violation };

    ghost seen = { λ v. (v.judge.now, v.first) };

    ghost after = { judged J.Violation.rank J.violation };

    fn visit(
        &mut self,
        home: CollationData<'_>,
        c: char,
        entry: CollationElement32,
    ) -> Result<(), E> {
        self.first = earlier(self.first, self.judge.violation(home, c, entry));
        Ok(())
    }

    fn passes_implicit(&self) -> bool {
        self.judge.passes_implicit()
    }

    fn passes_run(&self, home: CollationData<'_>, first: char, entry: CollationElement32) -> bool {
        self.judge.passes_run(home, first, entry)
    }

    fn visit_run(
        &mut self,
        home: CollationData<'_>,
        first: char,
        entry: CollationElement32,
    ) -> Result<bool, E> {
        if !self.judge.is_alike_run(home, first, entry) {
            return Ok(false);
        }
        self.first = earlier(self.first, self.judge.violation(home, first, entry));
        Ok(true)
    }
}

/// The violation with the least rank among one found before and those of the entries that are reachable in a root or a
/// tailoring. A tailoring falls back: a fallback entry of its code point table is none.
pub fn first_violation<J: Judge>(
    judge: &J,
    first: Option<J::Violation>,
    home: CollationData<'_>,
    falls_back: bool,
) -> Option<J::Violation>
    ensures none { (result ≡ None)
        ↔ ((first ≡ None) × IsFreeOf (J.violation judge.now) falls_back (data_of home.entry)) }
    ensures some { IfSome result (λ f. (first ≡ Some f)
        ⊎ IsReachableViolation (J.violation judge.now) falls_back (data_of home.entry) f) }
    ensures least { IfSome result (λ f. ComesFirst J.Violation.rank f first
        × IsFirstOfReachable J.Violation.rank (J.violation judge.now) falls_back
        (data_of home.entry) f) }
{
    judge.is_alike();
    let mut visitor: FirstViolation<'_, J, Infallible> = FirstViolation {
        judge,
        first,
        error: PhantomData,
    };
    match visit_chars(&mut visitor, home, falls_back) {
        Ok(()) => visitor.first,
        Err(never) => match never {},
    }
}

/// The violation with the least rank among one found before and those of the entries that are reachable with a
/// character from one entry on.
pub fn first_violation_from<J: Judge>(
    judge: &J,
    first: Option<J::Violation>,
    home: CollationData<'_>,
    c: char,
    entry: CollationElement32,
) -> Option<J::Violation>
    ensures none { (result ≡ None) ↔ ((first ≡ None)
        × AreFreeOf (J.violation judge.now) (data_of home.entry) c
        (reachable_from (data_of home.entry) entry)) }
    ensures some { IfSome result (λ f. (first ≡ Some f)
        ⊎ IsViolationAmong (J.violation judge.now) (data_of home.entry) c
        (reachable_from (data_of home.entry) entry) f) }
    ensures least { IfSome result (λ f. ComesFirst J.Violation.rank f first
        × IsFirstAmong J.Violation.rank (J.violation judge.now) (data_of home.entry) c
        (reachable_from (data_of home.entry) entry) f) }
{
    let mut visitor: FirstViolation<'_, J, Infallible> = FirstViolation {
        judge,
        first,
        error: PhantomData,
    };
    match visit_from(&mut visitor, home, c, entry) {
        Ok(()) => visitor.first,
        Err(never) => match never {},
    }
}
