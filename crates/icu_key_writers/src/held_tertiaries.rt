//! The tertiary level, held until its end.

ghost use Rattle.std.specs.Prelude.{◌≡◌, ◌≢◌, ℕ, ◌<◌, ◌^◌, List, [], ◌∷◌, ◌++◌, replicate, OnOk};
ghost use Rattle.icu_order_levels.specs.Tertiaries.{moved_tertiary, tertiary_level, tertiary_runs};
ghost use Rattle.icu_order_levels.specs.Keys.{part_bytes, opened, closed};
ghost use Rattle.icu_key_writers.specs.Writes.{Writes};

use crate::held_bytes::HeldBytes;
use crate::parts::LEVEL;
use crate::sink::CollationKeySink;
use crate::tertiaries::{TertiaryWriter, common_of, write_after_commons};
use icu_order_levels::forms::TertiaryForm;
use std::alloc::{AllocError, Global};

/// The tertiary level of a text. Common weights are counted, and written with the weight that comes after them.
#[derive(Drop)]
pub struct HeldTertiaries {
    form: TertiaryForm,
    commons: u32,
    bytes: HeldBytes,
}

impl HeldTertiaries {
    ghost use Rattle.icu_key_writers.specs.HeldRests.{held_tertiaries, held_tertiary_form};

    /// A level of this form, with no weight. It allocates nothing.
    pub fn new(alloc: Global, form: TertiaryForm) -> Self
        ensures form { held_tertiary_form result ≡ form }
        ensures begins { (ws : List ℕ) → held_tertiaries result ws ≡ tertiary_level form ws }
    {
        HeldTertiaries {
            form,
            commons: 0,
            bytes: HeldBytes::new(alloc),
        }
    }

    /// The form of the level.
    pub fn form(&self) -> TertiaryForm
        ensures { result ≡ held_tertiary_form self.now }
    {
        self.form
    }

    /// Adds the next weight, as the form has it. After an error, discard the level.
    pub fn push(&mut self, weight: u16) -> Result<(), AllocError>
        requires { moved_tertiary (held_tertiary_form self.old) weight < 2 ^ 16 }
        ensures form { held_tertiary_form self.new ≡ held_tertiary_form self.old }
        ensures bytes { OnOk result ((ws : List ℕ) →
            held_tertiaries self.old (weight ∷ ws) ≡ held_tertiaries self.new ws) }
    {
        let form = self.form();
        self.push_in_form(form, weight)
    }

    /// Adds the next weight, of a caller that knows the form, so that it need not be asked for at each weight.
    #[inline(always)]
    pub(crate) fn push_in_form(&mut self, form: TertiaryForm, weight: u16) -> Result<(), AllocError>
        requires form { held_tertiary_form self.old ≡ form }
        requires fits { moved_tertiary form weight < 2 ^ 16 }
        ensures form { held_tertiary_form self.new ≡ held_tertiary_form self.old }
        ensures bytes { OnOk result ((ws : List ℕ) →
            held_tertiaries self.old (weight ∷ ws) ≡ held_tertiaries self.new ws) }
    {
        if weight != common_of(form) {
            return self.push_other(form, weight);
        }
        self.push_commons(1)
    }

    /// Adds `more` common weights of the form. After an error, discard the level.
    #[inline(always)]
    #[tactic(auto, using(crate::proofs::CommonSteps::commons_joined))]
    pub fn push_commons(&mut self, more: u32) -> Result<(), AllocError>
        ensures form { held_tertiary_form self.new ≡ held_tertiary_form self.old }
        ensures bytes { OnOk result ((ws : List ℕ) →
            held_tertiaries self.old
            (replicate more (tertiary_runs (held_tertiary_form self.old)).common ++ ws)
            ≡ held_tertiaries self.new ws) }
    {
        if more <= u32::MAX - self.commons {
            self.commons += more;
            return Ok(());
        }
        self.push_many(more)
    }

    /// Writes what the counted weights and `more` decide, and counts those that are left.
    #[cold]
    #[inline(never)]
    fn push_many(&mut self, more: u32) -> Result<(), AllocError>
        ensures form { held_tertiary_form self.new ≡ held_tertiary_form self.old }
        ensures bytes { OnOk result ((ws : List ℕ) →
            held_tertiaries self.old
            (replicate more (tertiary_runs (held_tertiary_form self.old)).common ++ ws)
            ≡ held_tertiaries self.new ws) }
    {
        let mut writer = TertiaryWriter::new(self.form);
        writer.push_commons(&mut self.bytes, &mut (), self.commons)?;
        writer.push_commons(&mut self.bytes, &mut (), more)?;
        self.commons = writer.counted();
        Ok(())
    }

    /// Writes the counted weights, and then one that isn't common.
    #[inline(always)]
    fn push_other(&mut self, form: TertiaryForm, weight: u16) -> Result<(), AllocError>
        requires form { held_tertiary_form self.old ≡ form }
        requires other { weight ≢ (tertiary_runs form).common }
        requires fits { moved_tertiary form weight < 2 ^ 16 }
        ensures form { held_tertiary_form self.new ≡ held_tertiary_form self.old }
        ensures bytes { OnOk result ((ws : List ℕ) →
            held_tertiaries self.old (weight ∷ ws) ≡ held_tertiaries self.new ws) }
    {
        write_after_commons(form, &mut self.bytes, &mut (), self.commons, weight)?;
        self.commons = 0;
        Ok(())
    }

    /// Writes the level to a sink, as it ends here.
    #[inline(always)]
    fn write<S: CollationKeySink>(&self, sink: &mut S, state: &mut S::State) -> Result<(), S::Error>
        requires { S.is_sound sink.old state.old }
        ensures sound { S.is_sound sink.new state.new }
        ensures bytes { Writes S.effects sink.old state.old (held_tertiaries self.now [])
            result sink.new state.new }
    {
        self.bytes.write_to(sink, state)?;
        TertiaryWriter::new(self.form).close_after(sink, state, self.commons)
    }

    /// Writes the level, as it ends here, after the byte that opens it.
    #[inline(always)]
    fn write_opened<S: CollationKeySink>(
        &self,
        sink: &mut S,
        state: &mut S::State,
    ) -> Result<(), S::Error>
        requires { S.is_sound sink.old state.old }
        ensures sound { S.is_sound sink.new state.new }
        ensures bytes { Writes S.effects sink.old state.old
            (part_bytes (opened (held_tertiaries self.now []))) result sink.new state.new }
    {
        sink.write_byte(state, LEVEL)?;
        self.write(sink, state)
    }

    /// Writes the level to a sink, as it ends here, between the bytes that open and close it. An error is the sink's
    /// own.
    #[inline(always)]
    pub fn write_closed<S: CollationKeySink>(
        &self,
        sink: &mut S,
        state: &mut S::State,
    ) -> Result<(), S::Error>
        requires { S.is_sound sink.old state.old }
        ensures sound { S.is_sound sink.new state.new }
        ensures bytes { Writes S.effects sink.old state.old
            (part_bytes (closed (held_tertiaries self.now []))) result sink.new state.new }
    {
        self.write_opened(sink, state)?;
        sink.write_byte(state, LEVEL)
    }
}
