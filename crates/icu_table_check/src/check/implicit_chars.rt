//! Which characters have an implicit weight (UTS #10, "Implicit Weights") that is reachable, as they are looked up
//! where weights are compared with these.
ghost use Rattle.std.specs.Prelude.{ℕ, ◌<◌, ◌^◌, ⊤};

use crate::check::lookups::jamo_char;
use icu_table_data::CollationData;
use icu_table_data::block_walk::visit_chars;
use icu_table_data::walk::{Visit, visit_from};
use icu_table_entries::{CollationElement, CollationElement32, DataTable};
use icu_table_provider::TableSet;
use std::alloc::{AllocError, Global};
use std::convert::Infallible;

/// How many characters a word of marks is for.
const WORD_LEN: usize = 64;

/// How many words there are for all characters.
const WORD_COUNT: usize = 0x110000 / 64;

/// How many implicit weights have two bytes in common, and how many have three.
const WITH_SECOND: u32 = 254 * 18;

const WITH_THIRD: u32 = 18;

/// Code points from the first up to the end, which isn't one of them.
#[derive(Drop)]
pub(crate) struct CodePoints {
    pub(crate) first: u32,
    pub(crate) end: u32,
}

/// The implicit weights with some second and third bytes, as many in a row: those of `count` characters from `first` -
/// 1 on.
fn code_points(first: u32, count: u32) -> CodePoints
    requires first { first < 2 ^ 24 }
    requires count { count < 2 ^ 24 }
{
    CodePoints {
        first: first.saturating_sub(1),
        end: (first + count).saturating_sub(1).min(0x110000),
    }
}

/// The second byte of a primary weight.
pub(crate) fn second_byte(primary: u32) -> u8 {
    primary.to_be_bytes()[1]
}

/// The characters whose implicit weights have this second byte, and the last two bytes of a weight as far as these
/// aren't zero. The third byte has 254 values, the fourth 18.
pub(crate) fn chars_beside(second: u8, primary: u32) -> CodePoints {
    let bytes = primary.to_be_bytes();
    let first = u32::from(second).saturating_sub(4) * WITH_SECOND;
    let third = u32::from(bytes[2]).saturating_sub(2) * WITH_THIRD;
    let fourth = u32::from(bytes[3]).saturating_sub(2) / 14;
    match (bytes[2], bytes[3]) {
        (0, 0) => code_points(first, WITH_SECOND),
        (0, _) => code_points(first, 0),
        (_, 0) => code_points(first + third, WITH_THIRD),
        _ => code_points(first + third + fourth, 1),
    }
}

/// The characters with an implicit weight that is reachable by some tables, and the second bytes of these weights.
/// Where it wasn't looked up which these are, each character counts as one.
#[derive(Drop)]
pub(crate) struct ImplicitChars {
    words: Vec<u64>,
    seconds: [bool; 256],
}

impl Visit for ImplicitChars {
    type Error = Infallible;

    ghost Seen = { ⊤ };

    ghost seen = { λ v. tt };

    ghost after = { λ seen home c e. tt };

    fn visit(
        &mut self,
        _home: CollationData<'_>,
        c: char,
        entry: CollationElement32,
    ) -> Result<(), Infallible> {
        if entry.is_implicit() {
            self.mark(c);
        }
        Ok(())
    }
}

impl ImplicitChars {
    /// Those that are reachable by some tables.
    pub(crate) fn new(
        alloc: Global,
        tables: TableSet<'_>,
        by: &[DataTable],
    ) -> Result<ImplicitChars, AllocError> {
        let mut chars = ImplicitChars {
            words: vec![in alloc; 0u64; WORD_COUNT]?,
            seconds: [false; 256],
        };
        for table in by {
            chars.add(tables, *table);
        }
        Ok(chars)
    }

    /// Each character, as it isn't looked up which are reachable. It allocates nothing.
    pub(crate) fn not_looked_up(alloc: Global) -> ImplicitChars {
        ImplicitChars {
            words: Vec::new(alloc),
            seconds: [true; 256],
        }
    }

    fn mark(&mut self, c: char) {
        if let Some(word) = self.words.get_mut(c as usize / WORD_LEN) {
            *word |= 1 << (c as u32 % 64);
        }
        let implicit = CollationElement::new_implicit_from_char(c).primary();
        self.seconds[usize::from(second_byte(implicit))] = true;
    }

    /// Adds those that are reachable by a table.
    fn add(&mut self, tables: TableSet<'_>, table: DataTable) {
        match table {
            DataTable::Root => self.add_data(tables.root, false),
            DataTable::Jamo => self.add_jamo(tables),
            DataTable::Tailoring => {
                if let Some(tailoring) = tables.tailoring {
                    self.add_data(tailoring, true);
                }
            }
            _ => {}
        }
    }

    fn add_data(&mut self, home: CollationData<'_>, falls_back: bool) {
        match visit_chars(self, home, falls_back) {
            Ok(()) => {}
            Err(never) => match never {},
        }
    }

    fn add_jamo(&mut self, tables: TableSet<'_>) {
        for (place, entry) in tables.jamo.ce32s().iter().enumerate() {
            self.add_jamo_at(tables, place, CollationElement32::new(*entry));
        }
    }

    fn add_jamo_at(&mut self, tables: TableSet<'_>, place: usize, entry: CollationElement32)
        requires { place < 256 }
    {
        if let Some(c) = jamo_char(place) {
            match visit_from(self, tables.root, c, entry) {
                Ok(()) => {}
                Err(never) => match never {},
            }
        }
    }

    /// Whether a character is one of them.
    pub(crate) fn has(&self, c: char) -> bool {
        match self.words.get(c as usize / WORD_LEN) {
            Some(word) => word >> (c as u32 % 64) & 1 == 1,
            None => true,
        }
    }

    /// Whether one of them has an implicit weight with this second byte.
    pub(crate) fn has_second(&self, second: u8) -> bool {
        self.seconds[usize::from(second)]
    }
}
