//! The elements of a text that an iterator has read ahead.

ghost use Rattle.std.specs.Prelude.{◌≡◌, [], ◌++◌, None, option_to_list};

use crate::element_list::ElementList;
use crate::reader::position::Position;
use crate::text_reading::TextReading;
use icu_table_entries::CollationElement;

/// How far a decomposed text is read, and the elements of its last step, of which so many were given.
#[derive(Drop)]
pub(crate) struct ElementReader<'d> {
    pub(crate) reading: TextReading<'d>,
    pub(crate) position: Position,
    pub(crate) ready: ElementList,
    pub(crate) next: usize,
}

impl<'d> ElementReader<'d> {
    ghost use Rattle.icu_element_reading.specs.inner.Positions.{consumed_last, unread_at};
    ghost use Rattle.icu_element_reading.specs.inner.ReadyElements.{ready_elements};

    /// A reader that has read nothing yet of a text, with nothing before it.
    pub(crate) fn at_start(reading: TextReading<'d>, text: Vec<char>) -> ElementReader<'d>
        ensures reading { result.reading ≡ reading.entry }
        ensures ready { ready_elements result ≡ [] }
        ensures before { consumed_last result.position ≡ [] }
        ensures unread { unread_at result.position ≡ text.items }
    {
        let alloc = reading.tables.allocator();
        ElementReader {
            reading,
            position: Position::at_start(alloc, text),
            ready: ElementList {
                elements: Vec::new(alloc),
            },
            next: 0,
        }
    }

    /// The first of the elements that stand ready.
    pub(crate) fn take_ready(&mut self) -> Option<CollationElement>
        ensures next { ready_elements self.old ≡ option_to_list result ++ ready_elements self.new }
        ensures end { result ≡ None → ready_elements self.old ≡ [] }
        ensures position { self.new.position ≡ self.old.position }
        ensures reading { self.new.reading ≡ self.old.reading }
    {
        if self.next >= self.ready.elements.len() {
            return None;
        }
        let element = self.ready.elements[self.next];
        self.next += 1;
        Some(element)
    }
}
