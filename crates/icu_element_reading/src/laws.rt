//! The theorems on the elements of all texts, each as a function that makes no call.

ghost use Rattle.icu_element_reading.specs.TextElementLaws.{TextsDecompose, PartsMakeTexts, ElementsPass, ElementsHaveSources};
ghost use Rattle.icu_element_reading.specs.ReachableTexts.{WellFormedTablesGiveReachableElements};

/// Canonical decomposition of a text of scalar values gives scalar values, and none of U+0340, U+0341, U+0343 and
/// U+0344 (UAX #15).
pub fn texts_decompose()
    ensures { TextsDecompose }
{}

/// A property that holds of each part of a text's elements, and of two lists together where it holds of both, holds of
/// the elements of each decomposed text. The parts are the elements of each reachable entry, of each diacritic, and of
/// each number (UTS #10, "Produce Collation Element Arrays").
pub fn parts_make_texts()
    ensures lists { PartsMakeTexts }
    ensures elements { ElementsPass }
{}

/// Where each reachable digit entry's digit is at most 9, each element of each text is one of a reachable entry, of a
/// diacritic or of a number (UTS #10, "Produce Collation Element Arrays").
pub fn elements_have_sources()
    ensures { ElementsHaveSources }
{}

/// By tables that meet the conditions, each element of each text is reachable by one of them, or is that of one of a
/// number's weights (UTS #10, "Produce Collation Element Arrays"; numbers by UTS #35 part 5).
pub fn well_formed_tables_give_reachable_elements()
    ensures { WellFormedTablesGiveReachableElements }
{}
