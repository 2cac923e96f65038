//! The elements of a character, one by one.

ghost use Rattle.std.specs.Prelude.{◌≡◌, ◌≤◌, [], ◌++◌, None, IsTrue, drop, option_to_list};
ghost use Rattle.icu_element_facts.specs.FewElements.{few_elements};
ghost use Rattle.icu_element_facts.specs.KeptFacts.{char_elements};

use crate::CharFacts;
use crate::ready_place::ReadyPlace;
use icu_element_facts::FewElements;
use icu_table_entries::CollationElement;

/// The elements of a character that were not given yet.
#[derive(Debug, Clone, Copy)]
pub struct CharElements {
    elements: [CollationElement; 3],
    count: u8,
    next: u8,
    ghost at_most_three: { count ≤ 3 },
}

impl CharElements {
    ghost use Rattle.icu_element_cursor.specs.inner.Ready.{elements_ready};

    /// None.
    #[tactic(auto, unfolding(crate::specs::inner::Ready::elements_ready))]
    pub(crate) fn none() -> CharElements
        ensures { elements_ready result ≡ [] }
    {
        CharElements {
            elements: [CollationElement::default(); 3],
            count: 0,
            next: 0,
        }
    }

    /// Those of a character after its first.
    #[inline(always)]
    #[tactic(auto, unfolding(crate::specs::inner::Ready::elements_ready))]
    fn after_first(facts: &CharFacts) -> CharElements
        ensures { elements_ready result ≡ drop 1 (char_elements facts.now) }
    {
        CharElements {
            elements: facts.elements,
            count: facts.count,
            next: 1,
        }
    }

    /// All those of a character.
    #[inline(always)]
    #[tactic(auto, unfolding(crate::specs::inner::Ready::elements_ready))]
    pub(crate) fn of_facts(facts: &CharFacts) -> CharElements
        ensures { elements_ready result ≡ char_elements facts.now }
    {
        CharElements {
            elements: facts.elements,
            count: facts.count,
            next: 0,
        }
    }

    /// A few elements.
    #[inline(always)]
    #[tactic(auto, unfolding(crate::specs::inner::Ready::elements_ready, icu_element_facts::specs::FewElements::few_elements))]
    fn of_few(few: &FewElements) -> CharElements
        ensures { elements_ready result ≡ few_elements few.now }
    {
        CharElements {
            elements: few.elements,
            count: few.count,
            next: 0,
        }
    }
}

impl ReadyPlace for CharElements {
    ghost use Rattle.icu_element_cursor.specs.inner.Ready.{elements_ready};

    ghost ready = { elements_ready };

    #[inline(always)]
    fn is_empty(&self) -> bool {
        self.next >= self.count
    }

    #[inline(always)]
    fn begin(&mut self, facts: &CharFacts) -> Option<CollationElement> {
        if facts.count == 0 {
            return None;
        }
        let elements = &facts.elements[..];
        let first = elements[0];
        if facts.count == 1 {
            return Some(first);
        }
        *self = CharElements::after_first(facts);
        Some(first)
    }

    #[inline(always)]
    fn keep(&mut self, facts: &CharFacts) {
        *self = CharElements::of_facts(facts);
    }

    #[inline]
    fn begin_few(&mut self, few: &FewElements) -> Option<CollationElement> {
        *self = CharElements::of_few(few);
        self.take_first()
    }

    #[inline(always)]
    fn take_first(&mut self) -> Option<CollationElement> {
        if self.next >= self.count {
            return None;
        }
        let elements = &self.elements[..];
        let element = elements[self.next as usize];
        self.next += 1;
        Some(element)
    }
}
