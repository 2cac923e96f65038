//! The laws of search, each the contract of a function that makes no call.

ghost use Rattle.icu_search_places.specs.EquivalentTextLaws.{EquivalentTextsCorrespond};
ghost use Rattle.icu_search_places.specs.LeastMatchLaws.{FoundMatchesStandApart, LeastMatchesHoldNoOther};
ghost use Rattle.icu_search_places.specs.PartLaws.{ListsBeginWithThoseOfParts, PartsAreReadAsInTheWhole, PartsHaveTheirPlaces};
ghost use Rattle.icu_search_places.specs.PieceLaws.{PatternsMatchWhereTheyStand, SearchIsLocal};
ghost use Rattle.icu_search_places.specs.SearchLaws.{EqualPatternsFindTheSame, EquivalentPatternsFindTheSame, EveryMatchIsMet, FoundPartsHaveThePatternsKey, FoundPartsMatch};
ghost use Rattle.icu_search_places.specs.SearchLaws.{FoundPartsStandApart, LowerStrengthsKeepMatches, NothingFoundMeansNoMatch, TextsMatchThemselves};

/// Whichever parts of a text match: the list of least matches is that of the matches that hold no other, from left to
/// right, and each match holds one of them (UTS #10, "Searching and Matching").
pub fn least_matches_hold_no_other()
    ensures { LeastMatchesHoldNoOther }
{}

/// Whichever parts of a text match: those that are found stand apart, from left to right. Each least match that isn't
/// found begins inside of one that is found.
pub fn found_matches_stand_apart()
    ensures { FoundMatchesStandApart }
{}

/// What is found are parts of the text that are equal to the pattern, between places of the text.
pub fn found_parts_match()
    ensures equal { FoundPartsMatch }

    // By tables that meet the conditions each of them has the pattern's sort key.
    ensures key { FoundPartsHaveThePatternsKey }
    ensures apart { FoundPartsStandApart }
{}

/// No match is missed: each holds a least one, and each least one is found, or begins inside of one that is found.
pub fn every_match_is_met()
    ensures met { EveryMatchIsMet }
    ensures nothing { NothingFoundMeansNoMatch }
{}

/// A text as a whole is a match of itself, by tables that meet the conditions.
pub fn texts_match_themselves()
    ensures whole { TextsMatchThemselves }

    // So is a pattern that stands in a text as it is written, if pieces begin with it and with what follows it.
    ensures part { PatternsMatchWhereTheyStand }
{}

/// Patterns that are equal find the same, by tables that meet the conditions.
pub fn equal_patterns_find_the_same()
    ensures equal { EqualPatternsFindTheSame }

    // Canonically equivalent ones do by any tables.
    ensures equivalent { EquivalentPatternsFindTheSame }
{}

/// Without a case level a match is one at each lower strength (UTS #35 part 5, "Setting Options" on strength).
pub fn lower_strengths_keep_matches()
    ensures { LowerStrengthsKeepMatches }
{}

/// Up to a place of a text, what stands before it is read by itself as it is read in the whole (UTS #10, "Produce
/// Collation Element Arrays").
pub fn parts_are_read_as_in_the_whole()
    ensures elements { PartsAreReadAsInTheWhole }

    // The places of that part are those of the whole up to there.
    ensures places { PartsHaveTheirPlaces }

    // On each level, but for a backward secondary one, the weights of the whole begin with those of the part.
    ensures lists { ListsBeginWithThoseOfParts }
{}

/// A text may be searched in pieces. It is cut before a character whose decomposition begins with a boundary that
/// leads: up to there the matches of the whole are those of the first piece, from there on those of the second.
pub fn search_is_local()
    ensures { SearchIsLocal }
{}

/// The matches of canonically equivalent texts correspond, one to one: they stand for the same parts of the decomposed
/// text (UTS #10, "Searching and Matching"; UAX #15). It holds by any tables.
pub fn equivalent_texts_correspond()
    ensures { EquivalentTextsCorrespond }
{}
