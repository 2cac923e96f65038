//! The case level, held until its end.

ghost use Rattle.std.specs.Prelude.{◌≡◌, ℕ, List, [], ◌∷◌, ◌++◌, replicate, OnOk};
ghost use Rattle.icu_order_levels.specs.Cases.{case_level, case_runs};
ghost use Rattle.icu_key_writers.specs.CaseRanks.{rank_of};

use crate::cases::{CaseWriter, LetterCase};
use crate::held::INLINE;
use icu_order_levels::forms::CaseForm;
use smallvec::SmallVec;
use std::alloc::{AllocError, Global};

/// The case level of a text. With lower case first nothing is written for lower case alone, which only the end
/// decides (UTS #35 part 5, "Case Parameters").
#[derive(Drop)]
pub struct HeldCases {
    writer: CaseWriter,
    bytes: SmallVec<u8, INLINE>,
    vanishes: bool,
}

impl HeldCases {
    ghost use Rattle.icu_key_writers.specs.HeldRests.{held_cases, held_case_bytes, held_case_form};

    /// A level of this form, with no case. It allocates nothing.
    pub fn new(alloc: Global, form: CaseForm) -> Self
        ensures form { held_case_form result ≡ form }
        ensures begins { (ranks : List ℕ) → held_cases result ranks ≡ case_level form ranks }
    {
        HeldCases {
            writer: CaseWriter::new(form),
            bytes: SmallVec::new(alloc),
            vanishes: form == CaseForm::LowerFirst,
        }
    }

    /// Adds the next case. After an error, discard the level.
    pub fn push(&mut self, case: LetterCase) -> Result<(), AllocError>
        ensures form { held_case_form self.new ≡ held_case_form self.old }
        ensures bytes { OnOk result ((ranks : List ℕ) →
            held_cases self.old (rank_of (held_case_form self.old) case ∷ ranks)
            ≡ held_cases self.new ranks) }
    {
        self.vanishes = self.vanishes && case == LetterCase::Lower;
        self.writer.push(&mut self.bytes, &mut (), case)
    }

    /// Adds `more` lower cases. After an error, discard the level.
    #[inline(always)]
    pub fn push_lower(&mut self, more: u32) -> Result<(), AllocError>
        ensures form { held_case_form self.new ≡ held_case_form self.old }
        ensures bytes { OnOk result ((ranks : List ℕ) →
            held_cases self.old
            (replicate more (case_runs (held_case_form self.old)).common ++ ranks)
            ≡ held_cases self.new ranks) }
    {
        self.writer.push_lower(&mut self.bytes, &mut (), more)
    }

    /// Ends the level, whose bytes are held then. Push nothing after it.
    pub fn finish(&mut self) -> Result<(), AllocError>
        ensures { OnOk result (held_case_bytes self.new ≡ held_cases self.old []) }
    {
        if self.vanishes {
            self.bytes.clear();
            return Ok(());
        }
        self.writer.close(&mut self.bytes, &mut ())
    }

    /// The bytes that are held.
    #[inline]
    pub fn bytes(&self) -> &[u8]
        ensures { result.now ≡ held_case_bytes self.now }
    {
        self.bytes.as_slice()
    }
}
