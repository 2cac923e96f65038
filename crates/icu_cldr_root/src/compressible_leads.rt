//! The lead bytes whose weights are written shorter in sort keys.
ghost use Rattle.std.specs.Prelude.{◌≡◌, ◌==◌, ◌||◌, ◌<◌, ℕ, true, length};
ghost use Rattle.icu_cldr_root.specs.inner.CompressedLeads.{has_lead};

use crate::LeadByte;

/// A bit for each lead byte whose weights are written shorter where they follow one another: among them that of
/// implicit weights, FE.
#[derive(Clone, Copy, PartialEq)]
pub(crate) struct CompressibleLeads {
    words: [u16; 16],
    ghost implicit: { has_lead words 0xFE ≡ true },
}

impl CompressibleLeads {
    ghost use Rattle.icu_cldr_root.specs.inner.LeadWords.{lead_words};
    ghost use Rattle.icu_cldr_root.specs.inner.SpecialParts.{AddsLead};

    /// Only the lead byte of implicit weights.
    pub(crate) fn new() -> CompressibleLeads
        ensures { (b : ℕ) → b < 256 → has_lead (lead_words result) b ≡ (b == 0xFE) }
    {
        CompressibleLeads {
            words: [0, 0, 0, 0, 0, 0, 0, 0, 0, 0, 0, 0, 0, 0, 0, 0x4000],
        }
    }

    /// Adds a lead byte that is said to compress.
    pub(crate) fn take_in(&mut self, lead: LeadByte)
        ensures { AddsLead self.old self.new lead }
    {
        if lead.is_compressible {
            self.add(lead.lead);
        }
    }

    /// Adds a lead byte.
    fn add(&mut self, lead: u8)
        ensures { (b : ℕ) → b < 256 → has_lead (lead_words self.new) b
            ≡ (b == lead || has_lead (lead_words self.old) b) }
    {
        let index = usize::from(lead / 16);
        self.words[index] |= 1 << (lead % 16);
    }

    /// The bits, 16 in a word.
    pub(crate) fn words(&self) -> &[u16]
        ensures words { result.now ≡ lead_words self.now }
        ensures count { length result.now ≡ 16 }
        ensures implicit { has_lead result.now 0xFE ≡ true }
    {
        &self.words
    }
}
