//! Lists of three elements at most.

ghost use Rattle.std.specs.Prelude.{◌≡◌, ◌≤◌, ◌++◌, ◌∷◌, [], List, IfSome};
ghost use Rattle.std.specs.List.{push};
ghost use Rattle.icu_table_data.specs.Data.{homed};
ghost use Rattle.icu_table_data.specs.DataConditions.{is_readable};
ghost use Rattle.icu_table_data.specs.Final.{final_elements};
ghost use Rattle.icu_table_data.specs.StoredData.{data_of};
ghost use Rattle.icu_table_entries.specs.Elements.{Element};

use icu_table_data::CollationData;
use icu_table_data::element_walk::{VisitElement, visit_elements};
use icu_table_entries::{CollationElement, CollationElement32};

/// Three elements at most.
#[derive(Debug, Clone, Copy)]
pub struct FewElements {
    /// The elements, as many as `count` says. Those past them have no meaning.
    pub elements: [CollationElement; 3],
    /// How many there are.
    pub count: u8,
    ghost at_most_three: { count ≤ 3 },
}

/// There is a fourth element.
pub struct TooMany;

impl VisitElement for FewElements {
    ghost use Rattle.icu_element_facts.specs.FewElements.{few_elements};

    type Error = TooMany;

    ghost Seen = { List Element };

    ghost seen = { few_elements };

    ghost after = { push };

    #[tactic(auto, unfolding(crate::specs::FewElements::few_elements))]
    fn visit(&mut self, element: CollationElement) -> Result<(), TooMany> {
        let count = self.count as usize;
        if count >= 3 {
            return Err(TooMany);
        }
        self.elements[count] = element;
        self.count += 1;
        Ok(())
    }
}

impl FewElements {
    ghost use Rattle.std.specs.Prelude.{IsTrue};
    ghost use Rattle.icu_element_facts.specs.FewElements.{few_elements};

    /// No element.
    #[tactic(auto, unfolding(crate::specs::FewElements::few_elements))]
    pub(crate) fn new() -> FewElements
        ensures { few_elements result ≡ [] }
    {
        FewElements {
            elements: [CollationElement::default(); 3],
            count: 0,
        }
    }

    /// These and one more, or none where that is a fourth.
    pub(crate) fn with_element(self, element: CollationElement) -> Option<FewElements>
        ensures { IfSome result (λ more. few_elements more ≡ few_elements self ++ element ∷ []) }
    {
        let mut few = self;
        match few.visit(element) {
            Ok(()) => Some(few),
            Err(TooMany) => None,
        }
    }

    /// These and those that a final entry gives with a character, or none where there is a fourth.
    pub(crate) fn with_final(
        self,
        home: CollationData<'_>,
        c: char,
        ce32: CollationElement32,
    ) -> Option<FewElements>
        requires { IsTrue (is_readable (data_of home) c ce32) }
        ensures { IfSome result (λ more. few_elements more ≡ few_elements self
            ++ final_elements (homed (data_of home.entry) ce32) c) }
    {
        let mut few = self;
        match visit_elements(&mut few, home, c, ce32) {
            Ok(()) => Some(few),
            Err(TooMany) => None,
        }
    }
}
