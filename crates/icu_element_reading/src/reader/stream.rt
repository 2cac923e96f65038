//! A text that comes from a source of decomposed characters, which is read no further than each step looks.

ghost use Rattle.std.specs.Prelude.{◌≡◌, ◌≤◌, ◌<◌, ◌+◌, length, is_some, true, IfOk, OnOk};
ghost use Rattle.icu_element_reading.specs.Reading.{reading_of};
ghost use Rattle.icu_element_reading.specs.inner.StepsTaken.{TakesChar, TakesStepAt};
ghost use Rattle.icu_element_reading.specs.inner.Streams.{chars_ahead};
ghost use Rattle.icu_element_matches.specs.Texts.{still_unread};
ghost use Rattle.icu_element_reading.specs.inner.Iterating.{CanRead, chars_in_source};

use crate::decomposed_source::DecomposedSource;
use crate::element_list::ElementList;
use crate::reader::ahead::read_ahead;
use crate::reader::position::Position;
use crate::reader::step::read_char;
use crate::text_reading::TextReading;
use icu_element_matches::ClassedText;
use std::alloc::AllocError;

/// Takes the next character off the text, or, where none is still to be read, the next one of its source: `None` where
/// none is left.
pub(crate) fn take_char<I: Iterator<Item = char> + Drop>(
    source: &mut DecomposedSource<I>,
    text: &mut ClassedText,
) -> Result<Option<char>, AllocError>
    requires { CanRead I.can_next I.remaining source.old }
    ensures ready { OnOk result (CanRead I.can_next I.remaining source.new) }
    ensures text { IfOk result (λ found. TakesChar I.next_gives found
        source.old (still_unread text.old) source.new (still_unread text.new)) }
    ensures size { OnOk result
        (chars_in_source I.remaining source.new + length (still_unread text.new)
        ≤ chars_in_source I.remaining source.old + length (still_unread text.old)) }
    ensures shorter { IfOk result (λ found. is_some found ≡ true
        → chars_in_source I.remaining source.new + length (still_unread text.new)
        < chars_in_source I.remaining source.old + length (still_unread text.old)) }
{
    if let Some(c) = text.take_first() {
        return Ok(Some(c));
    }
    source.next()
}

/// Takes a step at a character that was taken off the text, which appends its elements.
pub(crate) fn stream_step<I: Iterator<Item = char> + Drop>(
    reading: TextReading<'_>,
    source: &mut DecomposedSource<I>,
    at: &mut Position,
    c: char,
    list: &mut ElementList,
) -> Result<(), AllocError>
    requires { CanRead I.can_next I.remaining source.old }
    ensures ready { OnOk result (CanRead I.can_next I.remaining source.new) }
    ensures step { OnOk result (TakesStepAt I.next_gives (reading_of reading.entry) c
        source.old at.old source.new at.new list.old.elements.items list.new.elements.items) }
    ensures size { OnOk result (chars_ahead I.remaining source.new at.new
        ≤ chars_ahead I.remaining source.old at.old) }
{
    read_ahead(reading, at.recent, c, source, &mut at.text)?;
    read_char(reading, at, c, list)
}
