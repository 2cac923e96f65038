//! Laws of the entries of mappings.
ghost use Rattle.icu_table_mappings.specs.SpeltElements.{SpeltElementsAreFinal};

/// An entry that spells elements has these wherever it stands.
pub fn spelt_elements_are_final()
    ensures { SpeltElementsAreFinal }
{}
