//! Where groups of variable elements end, the lead byte of numbers, and the lead bytes whose weights compress.
ghost use Rattle.std.specs.Prelude.{◌≡◌, ◌==◌, ◌&&◌, ◌∷◌, [], bytes_eq, true, None, Some, length, slice_index, IfOk, IfErr, IsTrue, OnOk};
ghost use Rattle.icu_table_entries.specs.Entries.{has_bit};
ghost use Rattle.icu_table_provider.specs.SpecialPrimaries.{is_compressible};
ghost use Rattle.icu_table_provider.specs.OwnedTables.{owned_special};
ghost use Rattle.icu_cldr_root.specs.Errors.{IsOtherError};
ghost use Rattle.icu_cldr_root.specs.SaidSpecials.{group_end, group_end_in, end_by_elements};

use crate::compressible_leads::CompressibleLeads;
use crate::error::{LineErrorKind, Missing, ReadError, UnnumberedError, named};
use crate::line_elements::respelt;
use crate::{FractionalElement, Line, Mapping, Primary};
use icu_table_entries::DataTable;
use icu_table_provider::OwnedSpecialPrimaries;
use std::alloc::Global;

/// A character of no text, with which the first primary weights of scripts and groups begin.
const BOUNDARY: char = '\u{FDD1}';

/// Where the groups of variable elements end, as far as lines said it.
#[derive(Clone, Copy, PartialEq)]
pub(crate) struct GroupEnds {
    space: Option<u16>,
    punctuation: Option<u16>,
    symbol: Option<u16>,
    currency: Option<u16>,
}

/// What the lines said so far of special primary weights.
#[derive(Clone, Copy, PartialEq)]
pub(crate) struct Special {
    ends: GroupEnds,
    numeric_lead: Option<u8>,
    compressible: CompressibleLeads,
}

/// The two highest bytes of the first primary weight after a group. Only such a first weight has the second byte 02, so
/// 00 stands for it.
fn group_end(first_primary: u32) -> u16
    ensures { result ≡ group_end first_primary }
{
    let end = (first_primary >> 16) as u16;
    if end % 0x100 <= 2 {
        end / 0x100 * 0x100
    } else {
        end
    }
}

/// The end of a group by the elements of what follows it: one.
fn end_by_elements(elements: &[FractionalElement]) -> Option<u16>
    ensures { result ≡ end_by_elements elements.now }
{
    match elements {
        [element] => match element.primary {
            Primary::Weight(weight) => Some(group_end(respelt(weight))),
            Primary::OfIdeograph(_) => None,
        },
        _ => None,
    }
}

/// Whether a character is mapped with the one that first primary weights begin with before it.
fn is_boundary(mapping: &Mapping, sample: char) -> bool
    ensures { result ≡ (mapping.now.first == 0xFDD1
        && bytes_eq mapping.now.suffix.items (sample ∷ [])) }
{
    mapping.first == BOUNDARY && mapping.suffix.as_slice() == [sample].as_slice()
}

/// The end of the group before what a character stands for, if a mapping says it.
fn group_end_in(mapping: &Mapping, sample: char) -> Option<u16>
    ensures { result ≡ group_end_in sample mapping.now }
{
    if is_boundary(mapping, sample) {
        end_by_elements(mapping.elements.as_slice())
    } else {
        None
    }
}

impl GroupEnds {
    ghost use Rattle.icu_cldr_root.specs.inner.SpecialParts.{no_ends, ends_with};

    /// No end is known.
    fn new() -> GroupEnds
        ensures { result ≡ no_ends }
    {
        GroupEnds {
            space: None,
            punctuation: None,
            symbol: None,
            currency: None,
        }
    }

    /// With the end that a mapping says, if it does.
    fn with(self, mapping: &Mapping) -> GroupEnds
        ensures { result ≡ ends_with self mapping.now }
    {
        GroupEnds {
            space: group_end_in(mapping, '\u{201C}').or(self.space),
            punctuation: group_end_in(mapping, '\u{263A}').or(self.punctuation),
            symbol: group_end_in(mapping, '\u{20AC}').or(self.symbol),
            currency: group_end_in(mapping, '4').or(self.currency),
        }
    }
}

/// Takes in the lead byte of numbers, which no line had.
fn set_numeric_lead(numeric_lead: &mut Option<u8>, lead: u8) -> Result<(), UnnumberedError>
    ensures once { OnOk result (numeric_lead.old ≡ None) }
    ensures set { OnOk result (numeric_lead.new ≡ Some lead) }
{
    if numeric_lead.is_some() {
        return Err(UnnumberedError::Refused(LineErrorKind::Repeated));
    }
    *numeric_lead = Some(lead);
    Ok(())
}

impl Special {
    ghost use Rattle.icu_cldr_root.specs.inner.SpecialParts.{AddsSpecial, HasNumbers, HasSpecials, MakesSpecials};

    /// Special primary weights with no group's end set; only the lead byte of implicit weights compresses.
    pub(crate) fn new() -> Special
        ensures { HasSpecials result [] }
    {
        Special {
            ends: GroupEnds::new(),
            numeric_lead: None,
            compressible: CompressibleLeads::new(),
        }
    }

    /// Takes in what a line says.
    pub(crate) fn take_in(&mut self, said: &Line) -> Result<(), UnnumberedError>
        ensures { OnOk result (AddsSpecial self.old self.new said.now) }
    {
        match said {
            Line::Mapping(mapping) => {
                self.ends = self.ends.with(mapping);
                Ok(())
            }
            Line::NumericLead(lead) => set_numeric_lead(&mut self.numeric_lead, *lead),
            Line::LeadByte(lead) => {
                self.compressible.take_in(*lead);
                Ok(())
            }
            Line::Nothing
            | Line::Version(_)
            | Line::Fixed(_)
            | Line::Reserved(_)
            | Line::Ideographs(_) => Ok(()),
        }
    }

    /// Four ends of groups, and bits for the compressible lead bytes.
    fn last_primaries(&self, alloc: Global) -> Result<Vec<u16>, ReadError>
        ensures count { IfOk result (λ v. length v.items ≡ 20) }
        ensures implicit { IfOk result (λ v. has_bit 14 (slice_index v.items 19) ≡ true) }
        ensures numbers { IfOk result (λ v. HasNumbers self.now v.items) }
        ensures errors { IfErr result IsOtherError }
    {
        let ends = [
            self.ends.space.ok_or(Missing::Punctuation)?,
            self.ends.punctuation.ok_or(Missing::Symbols)?,
            self.ends.symbol.ok_or(Missing::Currencies)?,
            self.ends.currency.ok_or(Missing::Digits)?,
        ];
        let mut numbers = Vec::from_slice(alloc, &ends)?;
        numbers.extend_from_slice(self.compressible.words())?;
        Ok(numbers)
    }

    /// The table.
    #[tactic(auto, unfolding(icu_table_provider::specs::SpecialPrimaries::is_compressible))]
    pub(crate) fn table(&self, alloc: Global) -> Result<OwnedSpecialPrimaries, ReadError>
        ensures count { IfOk result (λ o. length (owned_special o).last ≡ 20) }
        ensures implicit { IfOk result (λ o. IsTrue (is_compressible (owned_special o) 0xFE)) }
        ensures made { IfOk result (λ o. MakesSpecials self.now (owned_special o)) }
        ensures errors { IfErr result IsOtherError }
    {
        let numbers = self.last_primaries(alloc)?;
        let lead = self.numeric_lead.ok_or(Missing::NumericLead)?;
        named(
            DataTable::SpecialPrimaries,
            OwnedSpecialPrimaries::new(numbers, lead),
        )
    }
}
