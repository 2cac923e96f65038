//! Before which characters a text may be cut.

ghost use Rattle.std.specs.Prelude.{◌≡◌, ◌<◌, ◌&&◌, false, is_some, IsTrue};
ghost use Rattle.icu_element_reading.specs.Reading.{element_tables, reading_of};
ghost use Rattle.icu_element_reading.specs.TextElements.{continues_number};
ghost use Rattle.icu_element_reading.specs.boundaries.Cuts.{IsBoundary, has_prefix};

use crate::text_reading::TextReading;
use icu_table_entries::EntryKind;
use unicode_normalization::Form;
use unicode_normalization::char::{canonical_combining_class, decomposition};

/// What says before which characters a text may be cut, so that what follows is read as if it stood alone.
#[derive(Debug, Clone, Copy)]
pub struct Boundaries<'d> {
    /// How the texts are read.
    pub reading: TextReading<'d>,
}

impl<'d> Boundaries<'d> {
    ghost use Rattle.icu_element_reading.specs.boundaries.BoundaryTables.{HasBoundaryBefore, boundary_reading};
    ghost use Rattle.icu_element_reading.specs.boundaries.Cuts.{IsUnnamedBlock, IsUnnamedStarter};

    /// The boundaries of texts that are read so. Does not allocate.
    #[inline(always)]
    #[tactic(auto, unfolding(crate::specs::boundaries::BoundaryTables::boundary_reading))]
    pub fn new(reading: TextReading<'d>) -> Boundaries<'d>
        ensures { boundary_reading result ≡ reading_of reading.entry }
    {
        Boundaries { reading }
    }

    /// How the texts are read.
    #[inline(always)]
    #[tactic(auto, unfolding(crate::specs::boundaries::BoundaryTables::boundary_reading))]
    pub fn reading(&self) -> TextReading<'d>
        ensures { reading_of result ≡ boundary_reading self.now }
    {
        self.reading
    }

    /// Whether a text may be cut before this character. It may where the first character of its canonical decomposition
    /// is a starter that no mapping names, and has no prefixes and goes on no number. False says nothing.
    pub fn has_boundary_before(&self, c: char) -> bool
        ensures { IsTrue result → HasBoundaryBefore (boundary_reading self.now) c }
    {
        let mut room = [c; 3];
        match decomposition(c, Form::Nfd, &mut room) {
            [first, ..] => self.is_boundary(*first),
            [] => false,
        }
    }

    /// Whether a decomposed text may be cut before this character. False says nothing.
    #[tactic(auto, unfolding(crate::specs::boundaries::BoundaryTables::boundary_reading))]
    pub fn is_boundary(&self, c: char) -> bool
        ensures { IsTrue result → IsBoundary (boundary_reading self.now) c }
    {
        self.is_unnamed_starter(c) && !self.looks_around(c)
    }

    /// Whether a character is a starter that no mapping names. False says nothing.
    #[tactic(auto, unfolding(crate::specs::boundaries::BoundaryTables::boundary_reading))]
    pub fn is_unnamed_starter(&self, c: char) -> bool
        ensures { IsTrue result → IsUnnamedStarter (boundary_reading self.now) c }
    {
        canonical_combining_class(c) == 0 && !self.reading.tables.may_name(c)
    }

    /// Whether a mapping may name one of the 64 characters from `64 * index` on. Where this is false, none does.
    #[tactic(auto, unfolding(crate::specs::boundaries::BoundaryTables::boundary_reading))]
    pub fn may_name_in_block(&self, index: u32) -> bool
        requires { index < 17408 }
        ensures { result ≡ false → IsUnnamedBlock (boundary_reading self.now) index }
    {
        self.reading.tables.may_name_in_block(index)
    }

    /// Whether a character goes on a number, where digits are read as numbers.
    #[tactic(auto, unfolding(crate::specs::boundaries::BoundaryTables::boundary_reading))]
    fn goes_on_number(&self, c: char) -> bool
        ensures { let reading = boundary_reading self.now in
            result ≡ (is_some reading.numeric && continues_number reading.tables c) }
    {
        self.reading.numeric_primary.is_some() && self.reading.tables.digit(c).is_some()
    }

    /// Whether a character's entry looks at what stands before, or may go on a number.
    #[tactic(auto, unfolding(crate::specs::boundaries::BoundaryTables::boundary_reading))]
    fn looks_around(&self, c: char) -> bool
        ensures prefix { result ≡ false → has_prefix (boundary_reading self.now).tables c ≡ false }
        ensures number { let reading = boundary_reading self.now in result ≡ false
            → (is_some reading.numeric && continues_number reading.tables c) ≡ false }
    {
        match self.reading.tables.kind(c) {
            EntryKind::Prefix => true,
            EntryKind::Digit | EntryKind::Contraction => self.goes_on_number(c),
            _ => false,
        }
    }
}
