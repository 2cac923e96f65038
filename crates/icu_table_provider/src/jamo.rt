//! The table of conjoining jamo.
ghost use Rattle.std.specs.Prelude.{◌≡◌, ◌↔◌, IsOk, IfOk, IfErr};
ghost use Rattle.icu_table_provider.specs.Jamo.{IsJamo, FailsJamo};

use icu_table_entries::{CollationElement32, DataErrorKind};
use std::alloc::{AllocError, Global};

/// The first conjoining jamo.
pub const JAMO_BASE: u32 = 0x1100;

/// How many conjoining jamo there are.
pub const JAMO_COUNT: usize = 256;

/// The entries of the 256 characters from U+1100 on, the conjoining jamo. They refer to lists and contexts of the root.
#[derive(Debug, Clone, Copy, PartialEq)]
pub struct CollationJamo<'d> {
    ce32s: &'d [u32],
    ghost is_jamo: { IsJamo ce32s.now },
}

impl<'d> CollationJamo<'d> {
    ghost use Rattle.icu_table_provider.specs.StoredTables.{jamo_of};

    /// Borrows the entries. Refuses with `Length` if there are not 256, with `Digit` if a digit entry holds a digit
    /// above 9, and with `Tag` if the low byte of an entry has no meaning, or is that of fallback.
    pub fn new(ce32s: &'d [u32]) -> Result<CollationJamo<'d>, DataErrorKind>
        ensures accepts { IsOk result ↔ IsJamo ce32s.entry.now }
        ensures kind { IfErr result (FailsJamo ce32s.entry.now) }
        ensures keeps { IfOk result (λ j. jamo_of j ≡ ce32s.entry.now) }
    {
        if ce32s.len() != JAMO_COUNT {
            return Err(DataErrorKind::Length);
        }
        if !ce32s
            .iter()
            .all(|entry| CollationElement32::new(*entry).has_digit())
        {
            return Err(DataErrorKind::Digit);
        }
        if !ce32s
            .iter()
            .all(|entry| CollationElement32::new(*entry).has_known_byte())
        {
            return Err(DataErrorKind::Tag);
        }
        Ok(CollationJamo::from_parts(ce32s))
    }

    /// The table of entries that its caller has shown to meet the conditions: nothing is checked again.
    pub fn from_parts(ce32s: &'d [u32]) -> CollationJamo<'d>
        requires { IsJamo ce32s.now }
        ensures { jamo_of result ≡ ce32s.entry.now }
    {
        CollationJamo { ce32s }
    }

    /// The entries, from that of U+1100 on.
    pub fn ce32s(self) -> &'d [u32]
        ensures value { result.now ≡ jamo_of self.entry }
        ensures jamo { IsJamo (jamo_of self.entry) }
    {
        self.ce32s
    }
}

/// The entries of the conjoining jamo in a vector of their own.
#[derive(Debug, Drop)]
pub struct OwnedJamo {
    ce32s: Vec<u32>,
    ghost is_jamo: { IsJamo ce32s.items },
}

impl OwnedJamo {
    ghost use Rattle.icu_table_provider.specs.StoredTables.{jamo_of};
    ghost use Rattle.icu_table_provider.specs.OwnedTables.{owned_jamo};

    /// Takes the entries, or refuses them with the kind of a condition that they fail, as `CollationJamo::new` does.
    /// What is refused is dropped.
    #[tactic(auto, unfolding(crate::specs::OwnedTables::owned_jamo))]
    pub fn new(ce32s: Vec<u32>) -> Result<OwnedJamo, DataErrorKind>
        ensures accepts { IsOk result ↔ IsJamo ce32s.items }
        ensures kind { IfErr result (FailsJamo ce32s.items) }
        ensures keeps { IfOk result (λ o. owned_jamo o ≡ ce32s.items) }
    {
        match CollationJamo::new(ce32s.as_slice()) {
            Ok(_) => Ok(OwnedJamo { ce32s }),
            Err(kind) => Err(kind),
        }
    }

    /// Copies the entries.
    #[tactic(auto, unfolding(crate::specs::OwnedTables::owned_jamo))]
    pub fn copy(alloc: Global, jamo: CollationJamo<'_>) -> Result<OwnedJamo, AllocError>
        ensures { IfOk result (λ o. owned_jamo o ≡ jamo_of jamo.entry) }
    {
        Ok(OwnedJamo {
            ce32s: Vec::from_slice(alloc, jamo.ce32s())?,
        })
    }

    /// The table, without a check.
    #[tactic(auto, unfolding(crate::specs::OwnedTables::owned_jamo))]
    pub fn as_jamo(&self) -> CollationJamo<'_>
        ensures { jamo_of result ≡ owned_jamo self.now }
    {
        CollationJamo::from_parts(self.ce32s.as_slice())
    }
}
