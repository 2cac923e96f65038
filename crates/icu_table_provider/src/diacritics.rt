//! The table of diacritics.
ghost use Rattle.std.specs.Prelude.{◌≡◌, ◌↔◌, true, IsOk, IfOk, IfErr};
ghost use Rattle.icu_table_provider.specs.Diacritics.{is_replaced_index, is_diacritic_weight, IsDiacritics, FailsDiacritics};

use icu_table_entries::{CollationElement, DataErrorKind};
use std::alloc::{AllocError, Global};

/// The greatest number of diacritics that have a table of their own.
pub const OPTIMIZED_DIACRITICS_MAX_COUNT: usize = 79;

/// The secondary weights of combining diacritics: of U+0300 and the characters after it, at most 79.
#[derive(Debug, Clone, Copy, PartialEq)]
pub struct CollationDiacritics<'d> {
    secondaries: &'d [u16],
    ghost is_diacritics: { IsDiacritics secondaries.now },
}

/// Whether the index, from U+0300 on, is that of U+0340, U+0341, U+0343 or U+0344, which no canonical decomposition
/// has.
pub fn is_replaced_index(index: usize) -> bool
    ensures { result ≡ is_replaced_index index }
{
    index == 0x40 || index == 0x41 || index == 0x43 || index == 0x44
}

#[tactic(auto, unfolding(crate::specs::Diacritics::is_diacritic_weight))]
fn is_diacritic_weight(secondary: u16) -> bool
    ensures { result ≡ is_diacritic_weight true secondary }
{
    let element = CollationElement::new_from_secondary(secondary);
    secondary != 0 && element.has_shape() && element.has_leads(true)
}

impl<'d> CollationDiacritics<'d> {
    ghost use Rattle.icu_table_provider.specs.StoredTables.{diacritics_of};

    /// Borrows the secondary weights. They are refused:
    ///
    /// - `Length`: there are more than 79.
    /// - `Element`: a weight is 0, has a nonzero byte after a zero byte, or has a lead byte that secondary weights may
    ///   not have (they may have 02 to 04, 46 to FF, and 05 in 0500).
    ///
    /// The weights of U+0340, U+0341, U+0343 and U+0344 are free, since no canonical decomposition has these
    /// characters.
    pub fn new(secondaries: &'d [u16]) -> Result<CollationDiacritics<'d>, DataErrorKind>
        ensures accepts { IsOk result ↔ IsDiacritics secondaries.entry.now }
        ensures kind { IfErr result (FailsDiacritics secondaries.entry.now) }
        ensures keeps { IfOk result (λ d. diacritics_of d ≡ secondaries.entry.now) }
    {
        if secondaries.len() > OPTIMIZED_DIACRITICS_MAX_COUNT {
            return Err(DataErrorKind::Length);
        }
        for (index, secondary) in secondaries.iter().enumerate() {
            if !is_replaced_index(index) && !is_diacritic_weight(*secondary) {
                return Err(DataErrorKind::Element);
            }
        }
        Ok(CollationDiacritics::from_parts(secondaries))
    }

    /// The table of weights that its caller has shown to meet the conditions: nothing is checked again.
    pub fn from_parts(secondaries: &'d [u16]) -> CollationDiacritics<'d>
        requires { IsDiacritics secondaries.now }
        ensures { diacritics_of result ≡ secondaries.entry.now }
    {
        CollationDiacritics { secondaries }
    }

    /// The secondary weights, from that of U+0300 on.
    pub fn secondaries(self) -> &'d [u16]
        ensures value { result.now ≡ diacritics_of self.entry }
        ensures diacritics { IsDiacritics (diacritics_of self.entry) }
    {
        self.secondaries
    }
}

/// The secondary weights of diacritics in a vector of their own.
#[derive(Debug, Drop)]
pub struct OwnedDiacritics {
    secondaries: Vec<u16>,
    ghost is_diacritics: { IsDiacritics secondaries.items },
}

impl OwnedDiacritics {
    ghost use Rattle.icu_table_provider.specs.StoredTables.{diacritics_of};
    ghost use Rattle.icu_table_provider.specs.OwnedTables.{owned_diacritics};

    /// Takes the weights, or refuses them with the kind of a condition that they fail, as `CollationDiacritics::new`
    /// does. What is refused is dropped.
    #[tactic(auto, unfolding(crate::specs::OwnedTables::owned_diacritics))]
    pub fn new(secondaries: Vec<u16>) -> Result<OwnedDiacritics, DataErrorKind>
        ensures accepts { IsOk result ↔ IsDiacritics secondaries.items }
        ensures kind { IfErr result (FailsDiacritics secondaries.items) }
        ensures keeps { IfOk result (λ o. owned_diacritics o ≡ secondaries.items) }
    {
        match CollationDiacritics::new(secondaries.as_slice()) {
            Ok(_) => Ok(OwnedDiacritics { secondaries }),
            Err(kind) => Err(kind),
        }
    }

    /// Copies the weights.
    #[tactic(auto, unfolding(crate::specs::OwnedTables::owned_diacritics))]
    pub fn copy(
        alloc: Global,
        diacritics: CollationDiacritics<'_>,
    ) -> Result<OwnedDiacritics, AllocError>
        ensures { IfOk result (λ o. owned_diacritics o ≡ diacritics_of diacritics.entry) }
    {
        Ok(OwnedDiacritics {
            secondaries: Vec::from_slice(alloc, diacritics.secondaries())?,
        })
    }

    /// The table, without a check.
    #[tactic(auto, unfolding(crate::specs::OwnedTables::owned_diacritics))]
    pub fn as_diacritics(&self) -> CollationDiacritics<'_>
        ensures { diacritics_of result ≡ owned_diacritics self.now }
    {
        CollationDiacritics::from_parts(self.secondaries.as_slice())
    }
}
