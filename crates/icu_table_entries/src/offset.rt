//! Weights of three bytes that are counted from another one.
ghost use Rattle.std.specs.Prelude.{◌≡◌, ◌<◌, IsTrue};
ghost use Rattle.icu_table_entries.specs.Weights.{second_bytes, least_second_byte, lead_at, weight_at, offset_base, offset_compressible, offset_step, ordinal_of_weight, offset_ordinal, offset_weight, offset_element};
ghost use Rattle.icu_table_entries.specs.EncodedEntries.{offset_of};
ghost use Rattle.icu_table_entries.specs.EntryConditions.{is_three_byte_weight, has_offset_weight};

use crate::element::CollationElement;

fn second_bytes(compressible: bool) -> u32
    ensures value { result ≡ second_bytes compressible }
    ensures positive { 0 < result }
    ensures bound { result < 256 }
{
    if compressible { 251 } else { 254 }
}

fn least_second_byte(compressible: bool) -> u32
    ensures value { result ≡ least_second_byte compressible }
    ensures bound { result < 5 }
{
    if compressible { 4 } else { 2 }
}

/// The ordinal of a weight of three bytes among all of them.
#[tactic(auto, unfolding(crate::specs::Weights::ordinal_of))]
fn ordinal_of_weight(compressible: bool, weight: u32) -> u32
    ensures value { result ≡ ordinal_of_weight compressible weight }
    ensures bound { result < 0x2000000 }
{
    let lead = weight >> 24;
    let second = weight >> 16 & 0xff;
    let third = weight >> 8 & 0xff;
    let least = least_second_byte(compressible);
    let seconds = (lead * second_bytes(compressible) + second).saturating_sub(least);
    (seconds * 254 + third).saturating_sub(2)
}

fn is_three_byte_weight(compressible: bool, weight: u32) -> bool
    ensures { result ≡ is_three_byte_weight compressible weight }
{
    let second = weight >> 16 & 0xff;
    let least = least_second_byte(compressible);
    second >= least
        && second < least + second_bytes(compressible)
        && weight >> 8 & 0xff >= 2
        && weight & 0xff == 0
}

/// The weight of three bytes with an ordinal.
#[tactic(auto, unfolding(crate::specs::Weights::weight_at))]
fn weight_at(compressible: bool, ordinal: u32) -> u32
    requires { lead_at compressible ordinal < 256 }
    ensures { result ≡ weight_at compressible ordinal }
{
    let lead = ordinal / 254 / second_bytes(compressible);
    let second = ordinal / 254 % second_bytes(compressible) + least_second_byte(compressible);
    let third = ordinal % 254 + 2;
    lead * 0x1000000 + second * 0x10000 + third * 0x100
}

impl CollationElement {
    /// The data of an offset: a primary weight of three bytes, the character that has it, whether its lead byte
    /// compresses, and how many weights it is from one character's to the next one's.
    pub fn offset_data(primary: u32, base: char, compressible: bool, step: u8) -> Self
        requires { step < 128 }
        ensures value { result ≡ offset_of primary base compressible step }
        ensures primary { result.primary ≡ primary }
        ensures base { offset_base result ≡ base }
        ensures compressible { offset_compressible result ≡ compressible }
        ensures step { offset_step result ≡ step }
    {
        let compresses = if compressible { 0x80 } else { 0 };
        let data = base as u32 * 0x100 + compresses + u32::from(step);
        CollationElement::from_weights(primary, (data >> 16) as u16, (data & 0xffff) as u16)
    }

    /// The character that offset data count from.
    fn offset_base(self) -> u32
        ensures { result ≡ offset_base self }
    {
        self.non_primary().bits() >> 8
    }

    fn offset_compressible(self) -> bool
        ensures { result ≡ offset_compressible self }
    {
        self.non_primary().bits() >> 7 & 1 == 1
    }

    fn offset_step(self) -> u32
        ensures value { result ≡ offset_step self }
        ensures bound { result < 128 }
    {
        self.non_primary().bits() & 0x7f
    }

    /// The ordinal of a character's weight by offset data.
    #[tactic(auto, unfolding(crate::specs::Weights::offset_ordinal))]
    fn offset_ordinal(self, c: char) -> u32
        ensures { result ≡ offset_ordinal self c }
    {
        let start = ordinal_of_weight(self.offset_compressible(), self.primary());
        start + (c as u32).saturating_sub(self.offset_base()) * self.offset_step()
    }

    /// Whether a character has a weight by offset data.
    #[tactic(auto, unfolding(crate::specs::EntryConditions::has_offset_weight))]
    pub fn has_offset_weight(self, c: char) -> bool
        ensures { result ≡ has_offset_weight self c }
    {
        let compressible = self.offset_compressible();
        c as u32 >= self.offset_base()
            && is_three_byte_weight(compressible, self.primary())
            && self.offset_ordinal(c) / 254 / second_bytes(compressible) < 256
    }

    /// The element of a character by offset data.
    #[tactic(auto, using(crate::proofs::OffsetLemmas::ordinal_of_weight_at), unfolding(crate::specs::Weights::offset_weight, crate::specs::EntryConditions::has_offset_weight))]
    pub fn offset_element(self, c: char) -> CollationElement
        requires { IsTrue (has_offset_weight self c) }
        ensures value { result ≡ offset_element self c }
        ensures place { ordinal_of_weight (offset_compressible self) result.primary
            ≡ offset_ordinal self c }
    {
        let compressible = self.offset_compressible();
        CollationElement::new_from_primary(weight_at(compressible, self.offset_ordinal(c)))
    }
}
