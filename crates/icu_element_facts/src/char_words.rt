//! What is kept of each character, by words in blocks.

ghost use Rattle.std.specs.Prelude.{◌≡◌, ◌<◌, ℕ, length, slice_index_or, IfOk};
ghost use Rattle.icu_table_data.specs.CodePointTables.{IsCodePointTable};
ghost use Rattle.icu_table_provider.specs.well_formed.Checked.{checked_tables};
ghost use Rattle.icu_element_reading.specs.TextElements.{Reading};
ghost use Rattle.icu_element_reading.specs.boundaries.BoundaryTables.{boundary_reading};

use crate::char_facts::CharFacts;
use crate::lone_blocks::LoneBlocks;
use crate::word_blocks::{BLOCK_LEN, WordBlocks};
use icu_element_reading::boundaries::Boundaries;
use icu_table_provider::well_formed::CheckedTables;
use std::alloc::{AllocError, Global};

/// What is kept of a character.
#[derive(Clone, Copy)]
pub enum Kept<'f> {
    /// It decomposes to itself, a text may be cut before it, and it gives the elements of its entry wherever it stands:
    /// so it is with ideographs, and with most letters of most scripts.
    Own,
    /// These facts.
    Facts(&'f CharFacts),
    /// Nothing, as of a Hangul syllable, of which all is known by its jamo.
    Nothing,
}

/// What is kept of each character: a word, in blocks of 64 that many share, and facts that words name.
#[derive(Debug, Drop)]
pub(crate) struct CharWords {
    blocks: Vec<u16>,
    words: Vec<u16>,
    pub(crate) facts: Vec<CharFacts>,
    ghost is_table: { IsCodePointTable blocks.items words.items },
}

impl CharWords {
    ghost use Rattle.icu_element_facts.specs.CharWords.{AreWords, IsKept, word_of_code};

    /// The words of all characters, as texts are read whose boundaries these are.
    pub(crate) fn new(
        alloc: Global,
        tables: &CheckedTables,
        places: &Boundaries<'_>,
    ) -> Result<CharWords, AllocError>
        requires { (boundary_reading places.now).tables ≡ (checked_tables tables.now).tables }
        ensures { IfOk result (λ t. AreWords (boundary_reading places.now) t) }
    {
        let lone = LoneBlocks::new(alloc, tables)?;
        let mut made = WordBlocks::new(alloc)?;
        for index in 0..17408u32 {
            made.add_block(alloc, places, &lone, index)?;
        }
        let WordBlocks {
            blocks,
            words,
            facts,
        } = made;
        Ok(CharWords {
            blocks,
            words,
            facts,
        })
    }

    /// The word of a character.
    #[inline(always)]
    fn word(&self, c: char) -> u16
        ensures { result ≡ word_of_code self.now c }
    {
        let code = c as usize;
        let block = self.blocks[code / BLOCK_LEN] as usize;
        self.words[block * BLOCK_LEN + code % BLOCK_LEN]
    }

    /// What is kept of a character.
    #[inline(always)]
    pub(crate) fn get(&self, c: char) -> Kept<'_>
        ensures { (reading : Reading) → AreWords reading self.now → IsKept reading c result }
    {
        let word = self.word(c);
        let index = (word as usize).wrapping_sub(2);
        if index < self.facts.len() {
            Kept::Facts(&self.facts[index])
        } else if word == 0 {
            Kept::Own
        } else {
            Kept::Nothing
        }
    }
}
