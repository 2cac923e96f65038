//! The tertiary level in its three forms, written as it is fed.

ghost use Rattle.std.specs.Prelude.{◌≡◌, ◌≢◌, ℕ, ◌<◌, ◌≤◌, ◌^◌, List, [], ◌∷◌, ◌++◌, replicate};
ghost use Rattle.icu_order_levels.specs.Tertiaries.{tertiary_runs, moved_tertiary, tertiary_level};
ghost use Rattle.icu_key_writers.specs.Writes.{Writes, Feeds};

use crate::run::Run;
use crate::sink::CollationKeySink;
use icu_order_levels::forms::TertiaryForm;
use icu_order_levels::run_bytes::{
    LOWER_FIRST_TERTIARY_RUNS, RunBytes, TERTIARY_RUNS, UPPER_FIRST_TERTIARY_RUNS,
};

/// How runs of the common weight are written.
fn runs_of(form: TertiaryForm) -> RunBytes
    ensures { result ≡ tertiary_runs form }
{
    match form {
        TertiaryForm::WithoutCase => TERTIARY_RUNS,
        TertiaryForm::LowerFirst => LOWER_FIRST_TERTIARY_RUNS,
        TertiaryForm::UpperFirst => UPPER_FIRST_TERTIARY_RUNS,
    }
}

/// The common weight of a form.
#[inline(always)]
pub(crate) fn common_of(form: TertiaryForm) -> u16
    ensures { result ≡ (tertiary_runs form).common }
{
    match form {
        TertiaryForm::UpperFirst => UPPER_FIRST_TERTIARY_RUNS.common as u16,
        _ => TERTIARY_RUNS.common as u16,
    }
}

/// The weight whose bytes are written for one that isn't common, so that none begins as a run does.
fn moved(form: TertiaryForm, weight: u16) -> u16
    requires { moved_tertiary form weight < 2 ^ 16 }
    ensures { result ≡ moved_tertiary form weight }
{
    let lead = weight >> 8;
    match form {
        TertiaryForm::WithoutCase => { if lead > 0x05 { weight + 0xC000 } else { weight } }
        TertiaryForm::LowerFirst => { if lead > 0x05 { weight + 0x4000 } else { weight } }
        TertiaryForm::UpperFirst => {
            if lead < 0xC5 {
                weight.saturating_sub(0x4000)
            } else {
                weight
            }
        }
    }
}

/// Writes so many common weights of a form at the front of a level, and then one that isn't common. What comes after it
/// is written as a level of its own would be. An error is the sink's own.
#[inline(always)]
pub(crate) fn write_after_commons<S: CollationKeySink>(
    form: TertiaryForm,
    sink: &mut S,
    state: &mut S::State,
    commons: u32,
    weight: u16,
) -> Result<(), S::Error>
    requires sound { S.is_sound sink.old state.old }
    requires other { weight ≢ (tertiary_runs form).common }
    requires fits { moved_tertiary form weight < 2 ^ 16 }
    ensures sound { S.is_sound sink.new state.new }
    ensures bytes { Feeds S.effects sink.old state.old
        (λ ws. tertiary_level form
        (replicate commons (tertiary_runs form).common ++ (weight ∷ ws)))
        (tertiary_level form) result sink.new state.new }
{
    let runs = runs_of(form);
    let mut run = Run::new();
    run.write_commons(&runs, sink, state, commons)?;
    let shifted = moved(form, weight);
    run.write_short(&runs, sink, state, u64::from(weight), shifted)
}

/// Writes the tertiary level of a text.
///
/// It is fed the nonzero tertiary weights one at a time, as the form has them, and closed at the end (UTS #10,
/// "Run-Length Compression" and "Large Weight Values"; UTS #35 part 5, "Case Parameters").
#[derive(Clone, Copy, Drop)]
pub struct TertiaryWriter {
    form: TertiaryForm,
    run: Run,
    ghost bounded: { run.length ≤ (tertiary_runs form).count },
}

impl TertiaryWriter {
    ghost use Rattle.icu_key_writers.specs.WriterRests.{tertiary_rest, tertiary_form_of};

    /// The writer of a level of this form, with nothing written.
    pub fn new(form: TertiaryForm) -> Self
        ensures form { tertiary_form_of result ≡ form }
        ensures begins { (ws : List ℕ) → tertiary_rest result ws ≡ tertiary_level form ws }
    {
        TertiaryWriter {
            form,
            run: Run::new(),
        }
    }

    /// The form of the level.
    pub fn form(&self) -> TertiaryForm
        ensures { result ≡ tertiary_form_of self.now }
    {
        self.form
    }

    /// Writes what the next weight decides. An error is the sink's own.
    ///
    /// Weights of a form fit its moved leads: without case bits they are below 4000, with lower case first below C000.
    #[inline(always)]
    pub fn push<S: CollationKeySink>(
        &mut self,
        sink: &mut S,
        state: &mut S::State,
        weight: u16,
    ) -> Result<(), S::Error>
        requires sound { S.is_sound sink.old state.old }
        requires fits { moved_tertiary (tertiary_form_of self.old) weight < 2 ^ 16 }
        ensures sound { S.is_sound sink.new state.new }
        ensures form { tertiary_form_of self.new ≡ tertiary_form_of self.old }
        ensures bytes { Feeds S.effects sink.old state.old
            (λ ws. tertiary_rest self.old (weight ∷ ws)) (tertiary_rest self.new)
            result sink.new state.new }
    {
        let runs = runs_of(self.form);
        let whole = u64::from(weight);
        if whole == runs.common {
            self.run.write_common(&runs, sink, state)
        } else {
            let spelled = moved(self.form, weight);
            self.run.write_short(&runs, sink, state, whole, spelled)
        }
    }

    /// Writes what `more` common weights of the form decide. An error is the sink's own.
    #[inline(always)]
    pub fn push_commons<S: CollationKeySink>(
        &mut self,
        sink: &mut S,
        state: &mut S::State,
        more: u32,
    ) -> Result<(), S::Error>
        requires { S.is_sound sink.old state.old }
        ensures sound { S.is_sound sink.new state.new }
        ensures form { tertiary_form_of self.new ≡ tertiary_form_of self.old }
        ensures bytes { Feeds S.effects sink.old state.old
            (λ ws. tertiary_rest self.old
            (replicate more (tertiary_runs (tertiary_form_of self.old)).common ++ ws))
            (tertiary_rest self.new) result sink.new state.new }
    {
        let runs = runs_of(self.form);
        self.run.write_commons(&runs, sink, state, more)
    }

    /// How many common weights came last, as far as no byte stands for them yet. A new writer that is fed as many goes
    /// on as this one.
    #[tactic(auto, using(crate::proofs::CommonSteps::commons_counted))]
    pub(crate) fn counted(&self) -> u32
        ensures { let form = tertiary_form_of self.now in (ws : List ℕ) →
            tertiary_level form (replicate result (tertiary_runs form).common ++ ws)
            ≡ tertiary_rest self.now ws }
    {
        u32::from(self.run.length)
    }

    /// Writes what is left at the end of the level. An error is the sink's own.
    #[inline(always)]
    pub fn close<S: CollationKeySink>(
        self,
        sink: &mut S,
        state: &mut S::State,
    ) -> Result<(), S::Error>
        requires { S.is_sound sink.old state.old }
        ensures sound { S.is_sound sink.new state.new }
        ensures bytes { Writes S.effects sink.old state.old (tertiary_rest self [])
            result sink.new state.new }
    {
        let runs = runs_of(self.form);
        self.run.write_end(&runs, sink, state)
    }

    /// Writes what is left at the end of the level, where `more` common weights come last. An error is the sink's own.
    #[inline(always)]
    pub(crate) fn close_after<S: CollationKeySink>(
        mut self,
        sink: &mut S,
        state: &mut S::State,
        more: u32,
    ) -> Result<(), S::Error>
        requires { S.is_sound sink.old state.old }
        ensures sound { S.is_sound sink.new state.new }
        ensures bytes { Writes S.effects sink.old state.old
            (tertiary_rest self
            (replicate more (tertiary_runs (tertiary_form_of self)).common ++ []))
            result sink.new state.new }
    {
        self.push_commons(sink, state, more)?;
        self.close(sink, state)
    }
}
