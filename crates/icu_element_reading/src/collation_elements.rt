//! The elements of a text, one by one.

ghost use Rattle.std.specs.Prelude.{◌≡◌, ◌≤◌, ◌++◌, ℕ, List, [], None, option_to_list, unwrap_or, IsErr, IfOk, OnOk, OnErr};
ghost use Rattle.std.specs.Iterator.{IsFinite};
ghost use Rattle.icu_table_entries.specs.Elements.{Element, end_element};
ghost use Rattle.icu_element_reading.specs.inner.Iterating.{CanRead};
ghost use Rattle.unicode_normalization.specs.Forms.{nfd};
ghost use Rattle.unicode_normalization.specs.Iter.{Spells};

use crate::decomposed_source::DecomposedSource;
use crate::element_reader::ElementReader;
use crate::reader::lone_step::lone_step;
use crate::reader::stream::{stream_step, take_char};
use crate::text_reading::TextReading;
use icu_table_entries::CollationElement;
use std::alloc::AllocError;

/// How far the reading has come.
#[derive(Clone, Copy, PartialEq, Eq)]
enum Progress {
    Reading,
    Refused,
}

/// The collation elements of a text, one by one (UTS #10, "Produce Collation Element Arrays"). The delegate is read no
/// further than the next element asks: as far as its contraction or its number may go on, and as far as marks may
/// change places by decomposition.
#[derive(Drop)]
pub struct CollationElements<'d, I> {
    source: DecomposedSource<I>,
    reader: ElementReader<'d>,
    progress: Progress,
}

impl<'d, I: Iterator<Item = char> + Drop> CollationElements<'d, I> {
    ghost use Rattle.icu_element_reading.specs.TextElements.{elements_of};
    ghost use Rattle.icu_element_reading.specs.Reading.{reading_of};
    ghost use Rattle.icu_element_reading.specs.CollationElements.{StillGives, CanGive, IsRefused, HasSource};
    ghost use Rattle.icu_element_reading.specs.CollationElements.{first_of, rest_of};
    ghost use Rattle.icu_element_reading.specs.inner.ReadyElements.{ready_elements};
    ghost use Rattle.icu_element_reading.specs.inner.StepsTaken.{HasElementsAt};
    ghost use Rattle.icu_element_reading.specs.inner.Streams.{HasElements, chars_ahead};

    /// Reads the text that `delegate` spells. Does not allocate.
    pub fn new(delegate: I, reading: TextReading<'d>) -> CollationElements<'d, I>
        ensures text { (cs : List ℕ) → Spells I.next_gives delegate cs
            → StillGives I.next_gives result (elements_of (reading_of reading.entry) (nfd cs)) }
        ensures ready { I.can_next delegate → IsFinite (I.remaining delegate)
            → CanGive I.can_next I.remaining result }
    {
        let alloc = reading.tables.allocator();
        CollationElements {
            source: DecomposedSource::new(alloc, delegate),
            reader: ElementReader::at_start(reading, Vec::new(alloc)),
            progress: Progress::Reading,
        }
    }

    /// The next element, and after the last one the end element for ever. Once an allocation failed,
    /// every call fails.
    pub fn next(&mut self) -> Result<CollationElement, AllocError>
        requires { CanGive I.can_next I.remaining self.old }
        ensures gives { (es : List Element) → StillGives I.next_gives self.old es
            → IfOk result (λ e. (e ≡ first_of es)
            × StillGives I.next_gives self.new (rest_of es)) }
        ensures again { CanGive I.can_next I.remaining self.new }
        ensures refused { OnErr result (IsRefused self.new) }
        ensures stays_refused { IsRefused self.old → IsErr result }
    {
        match self.read_next() {
            Err(error) => {
                self.progress = Progress::Refused;
                Err(error)
            }
            Ok(next) => Ok(next.unwrap_or(CollationElement::default())),
        }
    }

    /// The next element, or `None` after the last one. Fails once an allocation failed.
    fn read_next(&mut self) -> Result<Option<CollationElement>, AllocError>
        requires { CanGive I.can_next I.remaining self.old }
        ensures gives { (es : List Element) → StillGives I.next_gives self.old es
            → IfOk result (λ next. (unwrap_or next end_element ≡ first_of es)
            × HasSource I.next_gives self.new (rest_of es)) }
        ensures ready { OnOk result (CanRead I.can_next I.remaining self.new.source) }
        ensures is_reading { OnOk result (self.new.progress ≡ Progress.Reading) }
        ensures refused { IsRefused self.old → IsErr result }
    {
        match self.progress {
            Progress::Refused => Err(AllocError),
            Progress::Reading => self.take_next(),
        }
    }

    /// The next element, one that stands ready, or else the first of the next step that gives any.
    fn take_next(&mut self) -> Result<Option<CollationElement>, AllocError>
        requires { CanRead I.can_next I.remaining self.old.source }
        ensures ready { OnOk result (CanRead I.can_next I.remaining self.new.source) }
        ensures gives { (es : List Element) → HasSource I.next_gives self.old es
            → IfOk result (λ next. (unwrap_or next end_element ≡ first_of es)
            × HasSource I.next_gives self.new (rest_of es)) }
        ensures progress { OnOk result (self.new.progress ≡ self.old.progress) }
    {
        let ready = self.reader.take_ready();
        if ready.is_some() {
            return Ok(ready);
        }
        self.read_on()
    }

    /// Takes a step at a character that was taken off the text, and gives the first of its elements.
    fn step_at(&mut self, c: char) -> Result<Option<CollationElement>, AllocError>
        requires can { CanRead I.can_next I.remaining self.old.source }
        requires none_ready { ready_elements self.old.reader ≡ [] }
        ensures ready { OnOk result (CanRead I.can_next I.remaining self.new.source) }
        ensures gives { (es : List Element)
            → HasElementsAt I.next_gives self.old.reader.reading self.old.source
            self.old.reader.position c es
            → IfOk result (λ next. HasElements I.next_gives self.new.reader.reading
            self.new.source self.new.reader.position
            (option_to_list next ++ ready_elements self.new.reader) es) }
        ensures none { IfOk result (λ next. next ≡ None → ready_elements self.new.reader ≡ []) }
        ensures progress { OnOk result (self.new.progress ≡ self.old.progress) }
        ensures size { OnOk result
            (chars_ahead I.remaining self.new.source self.new.reader.position
            ≤ chars_ahead I.remaining self.old.source self.old.reader.position) }
    {
        let reader = &mut self.reader;
        let lone = lone_step(reader.reading, &mut self.source, &mut reader.position, c)?;
        if lone.is_some() {
            return Ok(lone);
        }
        reader.next = 0;
        reader.ready.elements.clear();
        stream_step(
            reader.reading,
            &mut self.source,
            &mut reader.position,
            c,
            &mut reader.ready,
        )?;
        Ok(self.reader.take_ready())
    }

    /// Reads on, step by step, until an element comes.
    fn read_on(&mut self) -> Result<Option<CollationElement>, AllocError>
        requires can { CanRead I.can_next I.remaining self.old.source }
        requires none_ready { ready_elements self.old.reader ≡ [] }
        ensures ready { OnOk result (CanRead I.can_next I.remaining self.new.source) }
        ensures gives { (es : List Element) → HasSource I.next_gives self.old es
            → IfOk result (λ next. (unwrap_or next end_element ≡ first_of es)
            × HasSource I.next_gives self.new (rest_of es)) }
        ensures progress { OnOk result (self.new.progress ≡ self.old.progress) }
    {
        'steps: while let Some(c) = take_char(&mut self.source, &mut self.reader.position.text)? {
            let next = self.step_at(c)?;
            if next.is_some() {
                return Ok(next);
            }
        }
        Ok(None)
    }
}
