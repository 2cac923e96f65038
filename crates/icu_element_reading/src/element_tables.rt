//! The tables that elements are read from.

ghost use Rattle.std.specs.Prelude.{◌≡◌, ◌<◌, ◌+◌, ◌*◌, ℕ, false, if◌then◌else◌, IfSome, Some, None};
ghost use Rattle.icu_table_provider.specs.Tables.{entry_of, diacritic_of};
ghost use Rattle.icu_table_data.specs.Data.{homed};
ghost use Rattle.icu_table_entries.specs.Entries.{kind_of};
ghost use Rattle.icu_table_data.specs.StoredData.{data_of};
ghost use Rattle.icu_table_provider.specs.well_formed.Checked.{checked_tables};
ghost use Rattle.icu_table_provider.specs.well_formed.MappingCharacters.{is_named, is_named_by_tailoring};
ghost use Rattle.icu_element_matches.specs.WellFormedEntries.{IsWellFormedFrom};

use crate::matched_alone::matched_alone;
use icu_table_data::CollationData;
use icu_table_entries::{CollationElement32, EntryKind};
use icu_table_provider::jamo::{JAMO_BASE, JAMO_COUNT};
use icu_table_provider::well_formed::CheckedTables;
use std::alloc::Global;

/// The tables that elements are read from: root, tailoring, jamo and diacritics, checked together.
#[derive(Debug, Clone, Copy)]
pub struct ElementTables<'d> {
    tables: &'d CheckedTables,
}

/// An entry with its home, the table whose lists and contexts it refers to.
#[derive(Clone, Copy)]
pub(crate) struct HomedEntry<'d> {
    pub(crate) home: CollationData<'d>,
    pub(crate) ce32: CollationElement32,
}

impl<'d> ElementTables<'d> {
    ghost use Rattle.icu_element_reading.specs.Reading.{element_tables};
    ghost use Rattle.icu_element_reading.specs.TextElements.{continues_number, digit_of_char};

    /// The tables of a collator, borrowed without a second check. Does not allocate.
    #[inline(always)]
    pub fn new(tables: &'d CheckedTables) -> ElementTables<'d>
        ensures { element_tables result ≡ (checked_tables tables.entry.now).tables }
    {
        ElementTables { tables }
    }

    /// The allocator that the tables were made with.
    pub fn allocator(self) -> Global {
        self.tables.allocator()
    }

    /// Whether a mapping may name a character. Where this is false, none does.
    pub fn may_name(self, c: char) -> bool
        ensures root { result ≡ false → is_named c (element_tables self.entry).root ≡ false }
        ensures tailoring { result ≡ false
            → is_named_by_tailoring c (element_tables self.entry).tailoring ≡ false }
    {
        self.tables.named().has(c)
    }

    /// Whether a mapping may name one of the 64 characters from `64 * index` on. Where this is false, none does.
    #[inline(always)]
    pub fn may_name_in_block(self, index: u32) -> bool
        requires { index < 17408 }
        ensures root { result ≡ false → (k : ℕ) → k < 64
            → is_named (64 * index + k) (element_tables self.entry).root ≡ false }
        ensures tailoring { result ≡ false → (k : ℕ) → k < 64
            → is_named_by_tailoring (64 * index + k) (element_tables self.entry).tailoring ≡ false }
    {
        self.tables.named().has_in_block(index)
    }

    /// The secondary weight of a combining diacritic.
    #[tactic(auto, unfolding(icu_table_provider::specs::Tables::diacritic_of))]
    pub(crate) fn diacritic(self, c: char) -> Option<u16>
        ensures { result ≡ diacritic_of (element_tables self.entry) c }
    {
        let diacritics = self.tables.diacritics();
        let secondaries = diacritics.secondaries();
        let code = c as usize;
        if code >= 0x300 && code - 0x300 < secondaries.len() {
            Some(secondaries[code - 0x300])
        } else {
            None
        }
    }

    /// The entry of a character, with its home. That of a conjoining jamo is by the table of jamo, whose home is the
    /// root. Else it is the tailoring's, and if there is none or it is fallback, the root's (UTS #35 part 5, "Collation
    /// Tailorings").
    pub(crate) fn entry(self, c: char) -> HomedEntry<'d>
        ensures value { entry_of (element_tables self.entry) c
            ≡ homed (data_of result.home) result.ce32 }
        ensures well_formed { IsWellFormedFrom (data_of result.home) c result.ce32 }
    {
        self.found(c)
    }

    /// The kind of the entry of a character (UTS #35 part 5, "Collation Tailorings").
    pub fn kind(self, c: char) -> EntryKind
        ensures { result ≡ kind_of (entry_of (element_tables self.entry) c).entry }
    {
        self.entry(c).ce32.kind()
    }

    /// The digit of a character that goes on a number: no diacritic, and alone it comes to a digit's entry.
    #[tactic(auto, using(crate::proofs::TakenDigitLemmas::other_kind))]
    pub fn digit(self, c: char) -> Option<u8>
        ensures value { let tables = element_tables self.entry in
            result ≡ (if continues_number tables c then Some (digit_of_char tables c) else None) }
        ensures decimal { IfSome result (λ d. d < 10) }
    {
        if self.diacritic(c).is_some() {
            return None;
        }
        let own = self.entry(c);
        let ce32 = matched_alone(own.home, c, own.ce32);
        match ce32.kind() {
            EntryKind::Digit => Some(ce32.digit()),
            _ => None,
        }
    }

    #[tactic(auto, unfolding(icu_table_provider::specs::Tables::entry_of))]
    fn found(self, c: char) -> HomedEntry<'d>
        ensures { entry_of (element_tables self.entry) c ≡ homed (data_of result.home) result.ce32 }
    {
        let code = c as usize;
        if code >= JAMO_BASE as usize && code < JAMO_BASE as usize + JAMO_COUNT {
            let jamo = self.tables.jamo();
            return HomedEntry {
                home: self.tables.root(),
                ce32: CollationElement32::new(jamo.ce32s()[code - JAMO_BASE as usize]),
            };
        }
        if let Some(tailoring) = self.tables.tailoring() {
            let tailored = tailoring.ce32_for_char(c);
            if !tailored.is_fallback() {
                return HomedEntry {
                    home: tailoring,
                    ce32: tailored,
                };
            }
        }
        let root = self.tables.root();
        HomedEntry {
            home: root,
            ce32: root.ce32_for_char(c),
        }
    }
}
