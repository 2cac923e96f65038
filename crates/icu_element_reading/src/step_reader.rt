//! The steps of reading a text, one by one.

ghost use Rattle.std.specs.Prelude.{◌≡◌, ◌<◌, ◌≤◌, ℕ, List, [], IsSome, IfOk, OnOk, MatchOption, slice_get};
ghost use Rattle.std.specs.Iterator.{IsFinite};
ghost use Rattle.unicode_normalization.specs.Forms.{nfd};
ghost use Rattle.unicode_normalization.specs.Iter.{Spells};

use crate::decomposed_source::DecomposedSource;
use crate::element_list::ElementList;
use crate::reader::ahead::{read_ahead, read_first};
use crate::reader::position::Position;
use crate::reader::step::read_char;
use crate::text_reading::TextReading;
use icu_table_entries::CollationElement;
use std::alloc::AllocError;

/// Reads a text step by step: at each step it takes one character of the decomposed text, with what its contraction or
/// its number takes (UTS #10, "Produce Collation Element Arrays"). The delegate is read no further than the next step
/// asks.
#[derive(Drop)]
pub struct StepReader<'d, I> {
    source: DecomposedSource<I>,
    reading: TextReading<'d>,
    position: Position,
    list: ElementList,
}

impl<'d, I: Iterator<Item = char> + Drop> StepReader<'d, I> {
    ghost use Rattle.icu_element_reading.specs.Reading.{reading_of};
    ghost use Rattle.icu_element_reading.specs.StepReaders.{CanStep, HasLeft, TakesStep, elements_given, reading_in, steps_ahead};

    /// Reads the text that `delegate` spells. Does not allocate.
    pub fn new(delegate: I, reading: TextReading<'d>) -> StepReader<'d, I>
        ensures text { (cs : List ℕ) → Spells I.next_gives delegate cs
            → HasLeft I.next_gives result [] (nfd cs) }
        ensures reading { reading_in result ≡ reading_of reading.entry }
        ensures ready { I.can_next delegate → IsFinite (I.remaining delegate)
            → CanStep I.can_next I.remaining result }
    {
        let alloc = reading.tables.allocator();
        StepReader {
            source: DecomposedSource::new(alloc, delegate),
            reading,
            position: Position::at_start(alloc, Vec::new(alloc)),
            list: ElementList {
                elements: Vec::new(alloc),
            },
        }
    }

    /// Takes the next step, and returns how many characters it consumed after its first, or `None` where no character
    /// was left. Fails only where an allocation does; discard the reader then.
    pub fn next(&mut self) -> Result<Option<usize>, AllocError>
        requires { CanStep I.can_next I.remaining self.old }
        ensures step { (before text : List ℕ) → HasLeft I.next_gives self.old before text
            → IfOk result (λ count. MatchOption count (text ≡ [])
            (λ n. TakesStep I.next_gives self.old before text n self.new)) }
        ensures reading { reading_in self.new ≡ reading_in self.old }
        ensures again { OnOk result (CanStep I.can_next I.remaining self.new) }
        ensures shorter { IfOk result (λ count. IsSome count
            → steps_ahead I.remaining self.new < steps_ahead I.remaining self.old) }
    {
        self.list.elements.clear();
        read_first(&mut self.source, &mut self.position.text)?;
        let Some(c) = self.position.text.take_first() else {
            return Ok(None);
        };
        let recent = self.position.recent;
        read_ahead(
            self.reading,
            recent,
            c,
            &mut self.source,
            &mut self.position.text,
        )?;
        let there = self.position.text.len();
        read_char(self.reading, &mut self.position, c, &mut self.list)?;
        let left = self.position.text.len();
        Ok(Some(there - left))
    }

    /// The first character that is left, or `None` where none is. Fails only where an allocation does; discard the
    /// reader then.
    pub fn peek(&mut self) -> Result<Option<char>, AllocError>
        requires { CanStep I.can_next I.remaining self.old }
        ensures first { (before text : List ℕ) → HasLeft I.next_gives self.old before text
            → IfOk result (λ c. c ≡ slice_get text 0) }
        ensures same { (before text : List ℕ) → HasLeft I.next_gives self.old before text
            → OnOk result (HasLeft I.next_gives self.new before text) }
        ensures reading { reading_in self.new ≡ reading_in self.old }
        ensures elements { elements_given self.new ≡ elements_given self.old }
        ensures again { OnOk result (CanStep I.can_next I.remaining self.new) }
        ensures size { OnOk result
            (steps_ahead I.remaining self.new ≤ steps_ahead I.remaining self.old) }
    {
        read_first(&mut self.source, &mut self.position.text)?;
        Ok(self.position.text.first())
    }

    /// The elements of the last step, none before the first.
    pub fn elements(&self) -> &[CollationElement]
        ensures { result.now ≡ elements_given self.now }
    {
        self.list.elements.as_slice()
    }
}
