//! The case level, written as it is fed.

ghost use Rattle.std.specs.Prelude.{◌≡◌, ℕ, ◌<◌, ◌≤◌, List, [], ◌∷◌, ◌++◌, replicate};
ghost use Rattle.icu_order_levels.specs.Cases.{packed, case_runs, case_nibble, case_nibbles};
ghost use Rattle.icu_key_writers.specs.CaseRanks.{rank_of};
ghost use Rattle.icu_key_writers.specs.Writes.{Writes, Feeds};

use crate::nibbles::Nibbles;
use crate::run::Run;
use crate::sink::CollationKeySink;
use crate::writes::{write_both, write_optional};
use icu_order_levels::forms::CaseForm;
use icu_order_levels::run_bytes::{LOWER_FIRST_CASE_RUNS, RunBytes, UPPER_FIRST_CASE_RUNS};

/// The case of a collation element (UTS #35 part 5, "Case Parameters").
#[derive(Clone, Copy, PartialEq, Eq)]
pub enum LetterCase {
    /// Lower case, or none.
    Lower,
    /// Upper and lower case together.
    Mixed,
    /// Upper case.
    Upper,
}

/// How runs of lower case are written, in nibbles.
fn runs_of(form: CaseForm) -> RunBytes
    ensures { result ≡ case_runs form }
{
    match form {
        CaseForm::LowerFirst => LOWER_FIRST_CASE_RUNS,
        CaseForm::UpperFirst => UPPER_FIRST_CASE_RUNS,
    }
}

/// The rank of a case in the order of a form, from 0 to 2.
fn rank(form: CaseForm, case: LetterCase) -> u8
    ensures value { result ≡ rank_of form case }
    ensures bounded { result < 3 }
{
    match (form, case) {
        (CaseForm::LowerFirst, LetterCase::Lower) => 0,
        (CaseForm::LowerFirst, LetterCase::Mixed) => 1,
        (CaseForm::LowerFirst, LetterCase::Upper) => 2,
        (CaseForm::UpperFirst, LetterCase::Lower) => 2,
        (CaseForm::UpperFirst, LetterCase::Mixed) => 1,
        (CaseForm::UpperFirst, LetterCase::Upper) => 0,
    }
}

/// The nibble of a rank other than that of lower case.
fn nibble(form: CaseForm, rank: u8) -> u8
    requires { rank < 3 }
    ensures value { result ∷ [] ≡ case_nibble form rank }
    ensures bounded { result < 16 }
{
    match form {
        CaseForm::LowerFirst => 13 + rank,
        CaseForm::UpperFirst => 1 + rank,
    }
}

/// Writes the nibbles of the case level of a text, two to a byte.
///
/// It is fed the cases one at a time and closed at the end. Lower case is counted. With lower case first the level of a
/// text in lower case alone is written as nothing, which only the end decides: `HeldCases` keeps that rule.
#[derive(Clone, Copy, Drop)]
pub struct CaseWriter {
    form: CaseForm,
    run: Run,
    nibbles: Nibbles,
    ghost bounded: { run.length ≤ (case_runs form).count },
}

impl CaseWriter {
    ghost use Rattle.icu_key_writers.specs.WriterRests.{case_form_of, case_rest};

    /// The writer of a level of this form, with nothing written.
    pub fn new(form: CaseForm) -> Self
        ensures form { case_form_of result ≡ form }
        ensures begins { (ranks : List ℕ) →
            case_rest result ranks ≡ packed (case_nibbles form ranks) }
    {
        CaseWriter {
            form,
            run: Run::new(),
            nibbles: Nibbles::new(),
        }
    }

    /// Writes what the next case decides. An error is the sink's own.
    pub fn push<S: CollationKeySink>(
        &mut self,
        sink: &mut S,
        state: &mut S::State,
        case: LetterCase,
    ) -> Result<(), S::Error>
        requires { S.is_sound sink.old state.old }
        ensures sound { S.is_sound sink.new state.new }
        ensures form { case_form_of self.new ≡ case_form_of self.old }
        ensures bytes { Feeds S.effects sink.old state.old
            (λ ranks. case_rest self.old (rank_of (case_form_of self.old) case ∷ ranks))
            (case_rest self.new) result sink.new state.new }
    {
        let runs = runs_of(self.form);
        let rank = rank(self.form, case);
        let whole = u64::from(rank);
        if whole == runs.common {
            let due = self.run.count(&runs);
            let byte = self.nibbles.add_optional(due);
            write_optional(sink, state, byte)
        } else {
            let last = self.run.end(&runs, whole < runs.common);
            let first = self.nibbles.add_optional(last);
            let second = self.nibbles.add(nibble(self.form, rank));
            write_both(sink, state, first, second)
        }
    }

    /// Writes what `more` lower cases decide. An error is the sink's own.
    #[inline(always)]
    pub fn push_lower<S: CollationKeySink>(
        &mut self,
        sink: &mut S,
        state: &mut S::State,
        more: u32,
    ) -> Result<(), S::Error>
        requires { S.is_sound sink.old state.old }
        ensures sound { S.is_sound sink.new state.new }
        ensures form { case_form_of self.new ≡ case_form_of self.old }
        ensures bytes { Feeds S.effects sink.old state.old
            (λ ranks. case_rest self.old
            (replicate more (case_runs (case_form_of self.old)).common ++ ranks))
            (case_rest self.new) result sink.new state.new }
    {
        let runs = runs_of(self.form);
        let room = runs.count - self.run.length;
        if more <= u32::from(room) {
            self.run.length += more as u8;
            return Ok(());
        }
        self.push_each_lower(sink, state, more)
    }

    /// Writes what `more` lower cases decide, one after another.
    #[cold]
    #[inline(never)]
    fn push_each_lower<S: CollationKeySink>(
        &mut self,
        sink: &mut S,
        state: &mut S::State,
        more: u32,
    ) -> Result<(), S::Error>
        requires { S.is_sound sink.old state.old }
        ensures sound { S.is_sound sink.new state.new }
        ensures form { case_form_of self.new ≡ case_form_of self.old }
        ensures bytes { Feeds S.effects sink.old state.old
            (λ ranks. case_rest self.old
            (replicate more (case_runs (case_form_of self.old)).common ++ ranks))
            (case_rest self.new) result sink.new state.new }
    {
        let mut left = more;
        while left > 0 {
            self.push(sink, state, LetterCase::Lower)?;
            left -= 1;
        }
        Ok(())
    }

    /// Writes what is left at the end of the level. An error is the sink's own.
    pub fn close<S: CollationKeySink>(
        mut self,
        sink: &mut S,
        state: &mut S::State,
    ) -> Result<(), S::Error>
        requires { S.is_sound sink.old state.old }
        ensures sound { S.is_sound sink.new state.new }
        ensures bytes { Writes S.effects sink.old state.old (case_rest self [])
            result sink.new state.new }
    {
        let runs = runs_of(self.form);
        let last = self.run.end(&runs, true);
        let first = self.nibbles.add_optional(last);
        write_both(sink, state, first, self.nibbles.last())
    }
}
