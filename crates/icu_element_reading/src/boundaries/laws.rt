//! The laws, each the contract of a function that makes no call.

ghost use Rattle.icu_element_reading.specs.boundaries.ReadingLaws.{ElementsComeStepByStep, NothingGivesNothing, MoreTextKeepsWholeSteps, BoundariesAreEnough};
ghost use Rattle.icu_element_reading.specs.boundaries.ReadingLaws.{LoneStartersAreReadAlone, LowLettersAreReadAlone, LowTextsStay, JamoAreReadAlone, SyllablesAreReadAlone};
ghost use Rattle.icu_element_reading.specs.boundaries.ReadingLaws.{UnmovedLettersAreReadAlone, ComposedLettersAreReadAlone, LoneMarksAreReadAlone, FirstStartersLead};
ghost use Rattle.icu_element_reading.specs.boundaries.ReadingLaws.{DigitRunsAreNumbers, BasesBeforeUnnamedStarters, TextsCutAtBoundaries, TextsStartAnew, PiecesStandAlone};

/// The elements of a text are those of one step, and of what it leaves; a text without characters has none (UTS #10,
/// "Produce Collation Element Arrays").
pub fn elements_come_step_by_step()
    ensures turns { ElementsComeStepByStep }
    ensures nothing { NothingGivesNothing }
{}

/// A starter that stands for itself and alone is read by itself, whatever follows: so is a character below U+00C0 and a
/// conjoining jamo, where it stands alone, and a Hangul syllable whose jamo do (UAX #15).
pub fn lone_starters_are_read_alone()
    ensures starters { LoneStartersAreReadAlone }
    ensures low { LowLettersAreReadAlone }
    ensures low_texts { LowTextsStay }
    ensures jamo { JamoAreReadAlone }
    ensures syllables { SyllablesAreReadAlone }
{}

/// A character whose decomposition stays where it is and stands alone is read by itself (UAX #15). It is a letter and
/// its marks before marks that go after them or before a starter, or a mark that none of its run goes before.
pub fn unmoved_letters_are_read_alone()
    ensures all { UnmovedLettersAreReadAlone }
    ensures composed { ComposedLettersAreReadAlone }
    ensures marks { LoneMarksAreReadAlone }
{}

/// The elements of a text begin with those of the starter that its first character decomposes to first, where that
/// stands alone.
pub fn first_starters_lead()
    ensures { FirstStartersLead }
{}

/// A run of digits is one number, where digits are read as numbers (UTS #35 part 5, "Setting Options").
pub fn digit_runs_are_numbers()
    ensures { DigitRunsAreNumbers }
{}

/// A base of contractions gives what it gives at the end of a text, before a starter that none of its mappings names
/// (UTS #10, "Produce Collation Element Arrays").
pub fn bases_before_unnamed_starters()
    ensures { BasesBeforeUnnamedStarters }
{}

/// A text is cut before a character whose decomposition begins with a boundary: its elements are those of its two
/// parts, and what follows is the same whatever stood before.
pub fn texts_cut_at_boundaries()
    ensures cut { TextsCutAtBoundaries }
    ensures start { TextsStartAnew }
    ensures pieces { PiecesStandAlone }
{}

/// Where a text is enough for a step, reading on changes nothing; a text with a boundary in it is.
pub fn more_text_keeps_whole_steps()
    ensures steps { MoreTextKeepsWholeSteps }
    ensures boundary { BoundariesAreEnough }
{}
