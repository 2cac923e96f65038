//! The elements of a text, read once: the levels after the first one are compared by them.

ghost use Rattle.std.specs.Prelude.{◌≡◌, ◌≤◌, ◌++◌, ◌∷◌, [], IsTrue};
ghost use Rattle.icu_element_cursor.specs.Cursors.{cursor_gives};

use icu_element_cursor::ElementCursor;
use icu_table_entries::CollationElement;
use icu_text_decomposition::CountedText;

/// How many elements there is room for. A function clears its rooms each time that it is called.
const ROOM: usize = 48;

/// A list of elements in an array.
#[derive(Clone, Copy)]
pub(crate) struct Room {
    elements: [CollationElement; 48],
    count: usize,
    ghost within: { count ≤ 48 },
}

impl Room {
    ghost use Rattle.icu_collator.specs.inner.ReadElements.{held};

    /// No element.
    #[inline(always)]
    #[tactic(auto, unfolding(crate::specs::inner::ReadElements::held))]
    pub(crate) fn new() -> Room
        ensures { held result ≡ [] }
    {
        Room {
            elements: [CollationElement::default(); ROOM],
            count: 0,
        }
    }

    /// Appends an element. False if there is no room.
    #[inline(always)]
    #[tactic(auto, unfolding(crate::specs::inner::ReadElements::held))]
    fn push(&mut self, element: CollationElement) -> bool
        ensures { IsTrue result → held self.new ≡ held self.old ++ element ∷ [] }
    {
        let count = self.count;
        if count >= ROOM {
            return false;
        }
        self.elements[count] = element;
        self.count = count + 1;
        true
    }

    /// The elements.
    #[inline(always)]
    #[tactic(auto, unfolding(crate::specs::inner::ReadElements::held))]
    pub(crate) fn as_slice(&self) -> &[CollationElement]
        ensures { result.now ≡ held self.now }
    {
        &self.elements[..self.count]
    }

    /// Takes all elements that a cursor still gives, in place of those here. False if there is no room for them, or the
    /// cursor stops.
    #[inline(never)]
    #[tactic(auto, unfolding(crate::specs::inner::ReadElements::held))]
    pub(crate) fn fill<T: CountedText>(&mut self, elements: ElementCursor<'_, '_, T>) -> bool
        ensures { IsTrue result → held self.new ≡ cursor_gives T.text elements.entry }
    {
        let mut elements = elements;
        self.count = 0;
        'elements: loop {
            match elements.next() {
                Ok(Some(element)) => {
                    if !self.push(element) {
                        return false;
                    }
                }
                Ok(None) => return true,
                Err(_) => return false,
            }
        }
    }
}
