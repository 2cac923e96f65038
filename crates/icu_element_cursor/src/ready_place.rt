//! Where the elements stand that were read and not given yet.

ghost use Rattle.std.specs.Prelude.{◌≡◌, ◌++◌, List, [], None, IsTrue, option_to_list};
ghost use Rattle.icu_table_entries.specs.Elements.{Element};
ghost use Rattle.icu_element_facts.specs.FewElements.{few_elements};
ghost use Rattle.icu_element_facts.specs.KeptFacts.{char_elements};
ghost use Rattle.icu_element_cursor.specs.inner.AllReady.{all_ready};
ghost use Rattle.icu_element_cursor.specs.inner.Ready.{elements_ready};

use crate::CharFacts;
use crate::char_elements::CharElements;
use crate::ready_elements::ReadyElements;
use icu_element_facts::FewElements;
use icu_table_entries::CollationElement;

/// Where the elements of a character stand that were not given yet.
pub trait ReadyPlace {
    /// The elements.
    ghost ready: { Self → List Element };

    /// Whether none is left. `false` says nothing.
    fn is_empty(&self) -> bool
        ensures { IsTrue result → ready self.now ≡ [] };

    /// The first element of a character, where none is left. The others are kept.
    fn begin(&mut self, facts: &CharFacts) -> Option<CollationElement>
        requires { ready self.old ≡ [] }
        ensures { char_elements facts.now ≡ option_to_list result ++ ready self.new };

    /// All elements of a character are kept, where none is left.
    fn keep(&mut self, facts: &CharFacts)
        requires { ready self.old ≡ [] }
        ensures { ready self.new ≡ char_elements facts.now };

    /// The first of a few elements, where none is left. The others of them are kept.
    fn begin_few(&mut self, few: &FewElements) -> Option<CollationElement>
        requires { ready self.old ≡ [] }
        ensures { few_elements few.now ≡ option_to_list result ++ ready self.new };

    /// The first of them, which is given.
    fn take_first(&mut self) -> Option<CollationElement>
        ensures next { ready self.old ≡ option_to_list result ++ ready self.new }
        ensures end { result ≡ None → ready self.new ≡ [] };
}
