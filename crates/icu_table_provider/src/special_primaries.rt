//! Primary weights that mean more than an order.
ghost use Rattle.std.specs.Prelude.{◌≡◌, ◌≤◌, ◌↔◌, IsOk, IfOk, IfErr, IsTrue, All, length};
ghost use Rattle.icu_table_provider.specs.SpecialPrimaries.{group_index, last_primary, is_compressible, is_numeric_lead, ends_below, HasGroupEnds, IsSpecialPrimaries, FailsSpecial};

use icu_options::MaxVariable;
use icu_table_entries::DataErrorKind;
use std::alloc::{AllocError, Global};

/// Primary weights that mean more than an order: where the variable groups end, the lead byte of numbers, and the lead
/// bytes whose weights are written shorter in sort keys.
#[derive(Debug, Clone, Copy, PartialEq)]
pub struct CollationSpecialPrimaries<'d> {
    last_primaries: &'d [u16],
    numeric_primary: u8,
    ghost is_special: { IsSpecialPrimaries last_primaries.now numeric_primary },
}

/// The index of a group's number.
fn group_index(group: MaxVariable) -> usize
    ensures value { result ≡ group_index group }
    ensures bound { result ≤ 3 }
{
    match group {
        MaxVariable::Space => 0,
        MaxVariable::Punctuation => 1,
        MaxVariable::Symbol => 2,
        MaxVariable::Currency => 3,
    }
}

fn ends_below(numeric: u8, last: u16) -> bool
    ensures { result ≡ ends_below numeric last }
{
    last >= 1 && u32::from(last) <= 256 * u32::from(numeric)
}

fn all_end_below(numbers: &[u16], numeric: u8) -> bool
    ensures { IsTrue result ↔ All (λ p. IsTrue (ends_below numeric p)) numbers.now }
{
    numbers.iter().all(|last| ends_below(numeric, *last))
}

fn is_numeric_lead(numeric: u8) -> bool
    ensures { result ≡ is_numeric_lead numeric }
{
    numeric >= 3 && numeric <= 0xFD
}

/// Whether the numeric lead is in its range, and the groups end below it.
fn has_group_ends(last_primaries: &[u16], numeric: u8) -> bool
    requires { 4 ≤ length last_primaries.now }
    ensures { IsTrue result ↔ HasGroupEnds last_primaries.now numeric }
{
    is_numeric_lead(numeric) && all_end_below(&last_primaries[..4], numeric)
}

impl<'d> CollationSpecialPrimaries<'d> {
    ghost use Rattle.icu_table_provider.specs.StoredTables.{special_of};

    /// Borrows the numbers: the two highest bytes of the first primary weight after each of the four variable groups,
    /// and then, if there are 20 in all, bits for the compressible lead bytes. They are refused:
    ///
    /// - `Length`: there are fewer than four.
    /// - `SpecialPrimary`: the numeric lead is not 03 to FD, or one of the first four numbers is 0 or above 256 times
    ///   it.
    pub fn new(
        last_primaries: &'d [u16],
        numeric_primary: u8,
    ) -> Result<CollationSpecialPrimaries<'d>, DataErrorKind>
        ensures accepts { IsOk result
            ↔ IsSpecialPrimaries last_primaries.entry.now numeric_primary }
        ensures kind { IfErr result (FailsSpecial last_primaries.entry.now numeric_primary) }
        ensures keeps { IfOk result (λ s. special_of s
            ≡ record { last = last_primaries.entry.now; numeric = numeric_primary }) }
    {
        if last_primaries.len() < 4 {
            return Err(DataErrorKind::Length);
        }
        if !has_group_ends(last_primaries, numeric_primary) {
            return Err(DataErrorKind::SpecialPrimary);
        }
        Ok(CollationSpecialPrimaries::from_parts(last_primaries, numeric_primary))
    }

    /// Numbers that their caller has shown to meet the conditions: nothing is checked again.
    pub fn from_parts(
        last_primaries: &'d [u16],
        numeric_primary: u8,
    ) -> CollationSpecialPrimaries<'d>
        requires { IsSpecialPrimaries last_primaries.now numeric_primary }
        ensures { special_of result
            ≡ record { last = last_primaries.entry.now; numeric = numeric_primary } }
    {
        CollationSpecialPrimaries {
            last_primaries,
            numeric_primary,
        }
    }

    /// The numbers of the four variable groups, and bits for the compressible lead bytes if there are 20 in all, as
    /// `new` takes them.
    pub fn last_primaries(self) -> &'d [u16]
        ensures value { result.now ≡ (special_of self.entry).last }
        ensures special { let s = special_of self.entry in IsSpecialPrimaries s.last s.numeric }
    {
        self.last_primaries
    }

    /// The lead byte of the primary weights of numbers, 03 to FD.
    pub fn numeric_primary(self) -> u8
        ensures value { result ≡ (special_of self.entry).numeric }
        ensures bound { (3 ≤ result) × (result ≤ 0xFD) }
    {
        self.numeric_primary
    }

    /// The last primary weight of a variable group.
    pub fn last_primary_for_group(self, group: MaxVariable) -> u32
        ensures { result ≡ last_primary (special_of self.entry) group }
    {
        let end = self.last_primaries[group_index(group)];
        u32::from(end) * 0x10000 - 1
    }

    /// Whether weights with this lead byte are written shorter in sort keys where they follow one another: with 20
    /// numbers, if bit `lead % 16` of number `4 + lead / 16` is set; else for leads 61 to 80 and FE.
    #[tactic(auto, unfolding(crate::specs::SpecialPrimaries::is_compressible))]
    pub fn is_compressible(self, lead: u8) -> bool
        ensures { result ≡ is_compressible (special_of self.entry) lead }
    {
        if self.last_primaries.len() == 20 {
            let bits = self.last_primaries[4 + usize::from(lead / 16)];
            bits >> (lead % 16) & 1 == 1
        } else {
            lead >= 0x61 && lead <= 0x80 || lead == 0xFE
        }
    }
}

/// The special primary weights in a vector of their own.
#[derive(Debug, Drop)]
pub struct OwnedSpecialPrimaries {
    last_primaries: Vec<u16>,
    numeric_primary: u8,
    ghost is_special: { IsSpecialPrimaries last_primaries.items numeric_primary },
}

impl OwnedSpecialPrimaries {
    ghost use Rattle.icu_table_provider.specs.StoredTables.{special_of};
    ghost use Rattle.icu_table_provider.specs.OwnedTables.{owned_special};

    /// Takes the numbers, or refuses them with the kind of a condition that they fail, as
    /// `CollationSpecialPrimaries::new` does. What is refused is dropped.
    #[tactic(auto, unfolding(crate::specs::OwnedTables::owned_special))]
    pub fn new(
        last_primaries: Vec<u16>,
        numeric_primary: u8,
    ) -> Result<OwnedSpecialPrimaries, DataErrorKind>
        ensures accepts { IsOk result ↔ IsSpecialPrimaries last_primaries.items numeric_primary }
        ensures kind { IfErr result (FailsSpecial last_primaries.items numeric_primary) }
        ensures keeps { IfOk result (λ o.
            owned_special o ≡ record { last = last_primaries.items; numeric = numeric_primary }) }
    {
        match CollationSpecialPrimaries::new(last_primaries.as_slice(), numeric_primary) {
            Ok(_) => Ok(OwnedSpecialPrimaries {
                last_primaries,
                numeric_primary,
            }),
            Err(kind) => Err(kind),
        }
    }

    /// Copies the numbers.
    #[tactic(auto, unfolding(crate::specs::OwnedTables::owned_special))]
    pub fn copy(
        alloc: Global,
        special: CollationSpecialPrimaries<'_>,
    ) -> Result<OwnedSpecialPrimaries, AllocError>
        ensures { IfOk result (λ o. owned_special o ≡ special_of special.entry) }
    {
        Ok(OwnedSpecialPrimaries {
            last_primaries: Vec::from_slice(alloc, special.last_primaries())?,
            numeric_primary: special.numeric_primary(),
        })
    }

    /// The weights, without a check.
    #[tactic(auto, unfolding(crate::specs::OwnedTables::owned_special))]
    pub fn as_special_primaries(&self) -> CollationSpecialPrimaries<'_>
        ensures { special_of result ≡ owned_special self.now }
    {
        CollationSpecialPrimaries::from_parts(self.last_primaries.as_slice(), self.numeric_primary)
    }
}
