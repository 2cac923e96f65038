//! Texts are read by the tables of a tailoring as by the mappings that rules give their characters: laws that join what
//! `icu_rule_tables` makes with what `icu_element_reading` reads.
ghost use Rattle.icu_rule_laws.specs.tailored_texts.SaidMappings.{GivenMappingsAreSaid, RootsHaveMappingsAlone, RulesKeepMappingsAlone};
ghost use Rattle.icu_rule_laws.specs.tailored_texts.TailoredTexts.{DiacriticsOfOneLengthArePlain, TextsAreReadByTailorings};

use icu_rule_steps::symbolic_mappings::RootMappings;
use icu_rule_weights::tailoring_numbers::elements_of_the_root_stay;

/// In a table whose contexts ascend, an entry that gives mappings says just these: behind each context and before each
/// suffix it comes to the elements of the mapping that counts there, and to nothing where none does.
pub fn given_mappings_are_said()
    ensures { GivenMappingsAreSaid }
{}

/// The root of tables has a mapping of each character alone.
pub fn roots_have_mappings_alone()
    ensures { RootsHaveMappingsAlone }
{}

/// Where a root has a mapping of each character alone, so do rules over it.
pub fn rules_keep_mappings_alone()
    ensures { RulesKeepMappingsAlone }
{}

/// By the tables of a tailoring each text has the elements that it has by its mappings, with numbers, but for elements
/// without weights. Digits are read as letters are.
pub fn texts_are_read_by_tailorings<R: RootMappings>()
    ensures { TextsAreReadByTailorings R.mappings_of }
{
    elements_of_the_root_stay();
}

/// A table of diacritics that is as long as the root's has each mark that the root's has, so nothing is asked of the
/// entries of such marks.
pub fn diacritics_of_one_length_are_plain()
    ensures { DiacriticsOfOneLengthArePlain }
{}
