//! Texts are read by tables as the mappings of their characters say: a law that joins what rules mean, as
//! `icu_rule_meaning` defines it, with what tables give, as `icu_element_reading` does.
ghost use Rattle.icu_rule_laws.specs.mapped_texts.MappedTexts.{TextsAreReadByMappings, TextsOfSomeAreReadByMappings};
ghost use Rattle.icu_rule_laws.specs.mapped_texts.RootTexts.{RootsAreReadByMappings};

/// Where the entry of each character comes to the elements of its mappings, behind each context and before each suffix,
/// each text has by the tables the elements that it has by the mappings, but for elements without weights. Digits are
/// read as letters are.
pub fn texts_are_read_by_mappings()
    ensures { TextsAreReadByMappings }
{}

/// Where that is so of the characters of a text alone, the text has by the tables the elements that it has by the
/// mappings: nothing is asked of the entries of others.
pub fn texts_of_some_are_read_by_mappings()
    ensures { TextsOfSomeAreReadByMappings }
{}

/// By the tables of a root each text has the elements that it has by the root's mappings, which rules start from, but
/// for elements without weights.
pub fn roots_are_read_by_mappings()
    ensures { RootsAreReadByMappings }
{}
