//! The steps of reading a text, with all elements that they gave.

ghost use Rattle.std.specs.Prelude.{◌≡◌, ◌-◌, ◌<◌, ◌≤◌, ℕ, List, IfOk, IsSome, MatchOption, OnOk, length};
ghost use Rattle.std.specs.Iterator.{IsFinite};
ghost use Rattle.unicode_normalization.specs.Forms.{nfd};
ghost use Rattle.unicode_normalization.specs.Iter.{Spells};

use icu_element_reading::{CollationElement, StepReader, TextReading};
use std::alloc::AllocError;

/// Reads a text step by step, and keeps all elements (UTS #10, "Produce Collation Element Arrays").
#[derive(Drop)]
pub(crate) struct GatheredSteps<'d, I> {
    steps: StepReader<'d, I>,
    pub(crate) elements: Vec<CollationElement>,
    /// So many characters of the decomposed text were read that weren't asked for.
    pub(crate) ahead: usize,
}

impl<'d, I: Iterator<Item = char> + Drop> GatheredSteps<'d, I> {
    ghost use Rattle.icu_element_reading.specs.Reading.{reading_of};
    ghost use Rattle.icu_element_reading.specs.StepReaders.{CanStep, reading_in, steps_ahead};
    ghost use Rattle.icu_search_places.specs.place_reader.inner.StepsGathered.{HasReadTo, LeavesUnread, ReadsPast, ReadsStep};

    /// Reads the text that `delegate` spells. Does not allocate.
    pub(crate) fn new(delegate: I, reading: TextReading<'d>) -> GatheredSteps<'d, I>
        ensures text { (cs : List ℕ) → Spells I.next_gives delegate cs
            → HasReadTo I.next_gives result (nfd cs) (length (nfd cs)) }
        ensures reading { reading_in result.steps ≡ reading_of reading.entry }
        ensures ready { I.can_next delegate → IsFinite (I.remaining delegate)
            → CanStep I.can_next I.remaining result.steps }
    {
        let alloc = reading.tables.allocator();
        GatheredSteps {
            steps: StepReader::new(delegate, reading),
            elements: Vec::new(alloc),
            ahead: 0,
        }
    }

    /// Takes a step, and returns how many characters it consumed after its first, or `None` where none was left.
    fn take_step(&mut self) -> Result<Option<usize>, AllocError>
        requires { CanStep I.can_next I.remaining self.old.steps }
        ensures step { (text : List ℕ) (n : ℕ) → LeavesUnread I.next_gives self.old text n
            → IfOk result (λ count. MatchOption count (n ≡ 0)
            (λ k. ReadsStep I.next_gives self.new text n k)) }
        ensures reading { reading_in self.new.steps ≡ reading_in self.old.steps }
        ensures again { OnOk result (CanStep I.can_next I.remaining self.new.steps) }
        ensures shorter { IfOk result (λ count. IsSome count
            → steps_ahead I.remaining self.new.steps < steps_ahead I.remaining self.old.steps) }
    {
        let Some(count) = self.steps.next()? else {
            return Ok(None);
        };
        self.elements.extend_from_slice(self.steps.elements())?;
        Ok(Some(count))
    }

    /// Takes steps until so many characters are consumed, or more, and returns how many more.
    fn read_past(&mut self, owed: usize) -> Result<usize, AllocError>
        requires can { CanStep I.can_next I.remaining self.old.steps }
        requires some { 0 < owed }
        ensures past { (text : List ℕ) (n : ℕ) → LeavesUnread I.next_gives self.old text n
            → owed ≤ n → IfOk result (λ more. ReadsPast I.next_gives self.new text n owed more) }
        ensures reading { reading_in self.new.steps ≡ reading_in self.old.steps }
        ensures again { OnOk result (CanStep I.can_next I.remaining self.new.steps) }
    {
        let mut still = owed;
        'steps: while let Some(count) = self.take_step()? {
            if still - 1 <= count {
                return Ok(count - (still - 1));
            }
            still -= count + 1;
        }
        Ok(0)
    }

    /// Reads on until so many more characters of the decomposed text are consumed, or more. Fails only where an
    /// allocation does; discard the steps then.
    pub(crate) fn consume(&mut self, count: usize) -> Result<(), AllocError>
        requires { CanStep I.can_next I.remaining self.old.steps }
        ensures read { (text : List ℕ) (n : ℕ) → HasReadTo I.next_gives self.old text n → count ≤ n
            → OnOk result (HasReadTo I.next_gives self.new text (n - count)) }
        ensures reading { reading_in self.new.steps ≡ reading_in self.old.steps }
        ensures again { OnOk result (CanStep I.can_next I.remaining self.new.steps) }
    {
        if count <= self.ahead {
            self.ahead -= count;
            return Ok(());
        }
        let owed = count - self.ahead;
        let more = self.read_past(owed)?;
        self.ahead = more;
        Ok(())
    }
}
