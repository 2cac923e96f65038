//! What the lines said so far.
ghost use Rattle.std.specs.Prelude.{◌≡◌, ◌+◌, ◌<◌, ◌++◌, [], IfSome, IfOk, OnOk};
ghost use Rattle.icu_cldr_root.specs.inner.Diacritics.{SaysOfMark};

use crate::character_entries::{CharacterContexts, CharacterEntries, add_entry};
use crate::error::{LineErrorKind, UnnumberedError};
use crate::file_facts::FileFacts;
use crate::ideograph_entries::set_ideographs;
use crate::ideograph_weights::IdeographWeights;
use crate::line_elements::elements_said;
use crate::special::Special;
use crate::{CharRange, Line, Mapping};
use icu_table_entries::element::COMMON_WEIGHT16;
use icu_table_entries::{CollationElement, CollationElement32};
use icu_table_mappings::entry_of_elements;
use icu_table_provider::builder::DataBuilder;
use icu_table_provider::diacritics::{OPTIMIZED_DIACRITICS_MAX_COUNT, is_replaced_index};
use std::alloc::{AllocError, Global};
use std::collections::BTreeMap;

/// The first of the combining marks whose secondary weights have a table of their own.
const FIRST_DIACRITIC: u32 = 0x300;

/// What the lines said so far: the tables' parts.
#[derive(Drop)]
pub(crate) struct Collected {
    pub(crate) alloc: Global,
    pub(crate) builder: DataBuilder,
    /// The entries of characters, where nothing around them counts.
    pub(crate) entries: CharacterEntries,
    /// The entries of characters by what stands around them.
    pub(crate) contexts: CharacterContexts,
    pub(crate) diacritics: [u16; OPTIMIZED_DIACRITICS_MAX_COUNT],
    pub(crate) special: Special,
    pub(crate) ideographs: IdeographWeights,
    pub(crate) facts: FileFacts,
}

/// The index of a combining mark in the table of such marks.
fn diacritic_index(c: char) -> Option<usize>
    ensures index { IfSome result (λ index. index + 0x300 ≡ c) }
    ensures bound { IfSome result (λ index. index < 79) }
{
    let index = (c as u32).checked_sub(FIRST_DIACRITIC)? as usize;
    if index < OPTIMIZED_DIACRITICS_MAX_COUNT {
        Some(index)
    } else {
        None
    }
}

/// The secondary weight of a combining mark. One that has a decomposition is in no text that is compared, and its
/// weight isn't read.
fn secondary_of_diacritic(
    index: usize,
    elements: &[CollationElement],
) -> Result<u16, UnnumberedError>
    ensures { IfOk result (SaysOfMark index elements.now) }
{
    match elements {
        [element, ..] if is_replaced_index(index) => Ok(element.secondary()),
        [element] if element.primary() == 0 && element.lower() == COMMON_WEIGHT16 => {
            Ok(element.secondary())
        }
        _ => Err(UnnumberedError::Refused(LineErrorKind::Diacritic)),
    }
}

/// Takes in the secondary weight of a combining mark, where a mapping is of one that has a table of its own.
fn set_diacritic(
    diacritics: &mut [u16; OPTIMIZED_DIACRITICS_MAX_COUNT],
    mapping: &Mapping,
    elements: &[CollationElement],
) -> Result<(), UnnumberedError> {
    let Some(index) = diacritic_index(mapping.first) else {
        return Ok(());
    };
    if !mapping.prefix.is_empty() || !mapping.suffix.is_empty() {
        return Err(UnnumberedError::Refused(LineErrorKind::Diacritic));
    }
    diacritics[index] = secondary_of_diacritic(index, elements)?;
    Ok(())
}

/// Ranges and others behind them.
fn joined(
    alloc: Global,
    first: &[CharRange],
    ranges: &[CharRange],
) -> Result<Vec<CharRange>, AllocError>
    ensures { IfOk result (λ all. all.items ≡ first.now ++ ranges.now) }
{
    let mut all = Vec::new(alloc);
    all.extend_from_slice(first)?;
    all.extend_from_slice(ranges)?;
    Ok(all)
}

impl Collected {
    ghost use Rattle.icu_cldr_root.specs.FileFacts.{SaysFacts};
    ghost use Rattle.icu_cldr_root.specs.Ideographs.{HasNoIdeographs};
    ghost use Rattle.icu_cldr_root.specs.inner.Taken.{AddsFacts, HasMapping, HasSaid, Grows, IsTaken, HasNothing};
    ghost use Rattle.icu_cldr_root.specs.inner.WeightedRanges.{AddsIdeographs, HasIdeographs};
    ghost use Rattle.icu_cldr_root.specs.inner.SpecialParts.{AddsSpecial, HasSpecials};
    ghost use Rattle.icu_cldr_root.specs.inner.TakenCharacters.{HasUnmapped, KeepsOthers, KeepsUnmapped, MapsOnly};

    /// Nothing is said.
    #[tactic(auto, using(crate::proofs::IdeographValueLemmas::unmapped_first))]
    pub(crate) fn new(alloc: Global) -> Result<Collected, AllocError>
        ensures nothing { IfOk result HasNothing }
        ensures none { IfOk result (λ c. HasNoIdeographs c.ideographs) }
        ensures specials { IfOk result (λ c. HasSpecials c.special []) }
        ensures facts { IfOk result (λ c. SaysFacts c.facts []) }
        ensures no_entry { IfOk result (λ c. MapsOnly c []) }
        ensures unmapped { IfOk result HasUnmapped }
    {
        Ok(Collected {
            alloc,
            builder: DataBuilder::new(alloc, CollationElement32::implicit())?,
            entries: BTreeMap::new(alloc),
            contexts: BTreeMap::new(alloc),
            diacritics: [0; OPTIMIZED_DIACRITICS_MAX_COUNT],
            special: Special::new(),
            ideographs: IdeographWeights::new(alloc),
            facts: FileFacts::new(alloc),
        })
    }

    /// Takes in what a line says. These ideographs stand before those of a line.
    pub(crate) fn read_line(
        &mut self,
        first: &[CharRange],
        line: &str,
    ) -> Result<(), UnnumberedError>
        ensures taken { OnOk result (IsTaken first.now self.old self.new line.now) }
        ensures grows { OnOk result (Grows self.old self.new) }
        ensures unmapped { OnOk result (HasUnmapped self.old → HasUnmapped self.new) }
    {
        let said = Line::parse(self.alloc, line)?;
        self.take_in(first, said)?;
        Ok(())
    }

    /// Takes in what a line said.
    fn take_in(&mut self, first: &[CharRange], said: Line) -> Result<(), UnnumberedError>
        ensures has { OnOk result (HasSaid self.new said) }
        ensures ideographs { OnOk result
            (AddsIdeographs first.now self.old.ideographs self.new.ideographs said) }
        ensures special { OnOk result (AddsSpecial self.old.special self.new.special said) }
        ensures facts { OnOk result (AddsFacts self.old.facts self.new.facts said) }
        ensures others { OnOk result (KeepsUnmapped self.old self.new said) }
        ensures grows { OnOk result (Grows self.old self.new) }
        ensures unmapped { OnOk result (HasUnmapped self.old → HasUnmapped self.new) }
    {
        self.special.take_in(&said)?;
        match said {
            Line::Nothing => Ok(()),
            Line::Version(version) => {
                self.facts.version = Some(version);
                Ok(())
            }
            Line::Fixed(fixed) => {
                self.facts.fixed.push(fixed)?;
                Ok(())
            }
            Line::Reserved(range) => {
                self.facts.reserved.push(range)?;
                Ok(())
            }
            Line::LeadByte(_) => Ok(()),
            Line::NumericLead(_) => Ok(()),
            Line::Ideographs(ranges) => self.add_ideographs(first, ranges.as_slice()),
            Line::Mapping(mapping) => self.add_mapping(mapping),
        }
    }

    /// Takes in the ideographs of a line, behind the first ones.
    fn add_ideographs(
        &mut self,
        first: &[CharRange],
        ranges: &[CharRange],
    ) -> Result<(), UnnumberedError>
        ensures none { OnOk result (HasNoIdeographs self.old.ideographs) }
        ensures has { OnOk result (HasIdeographs self.new.ideographs (first.now ++ ranges.now)) }
        ensures special { OnOk result (self.new.special ≡ self.old.special) }
        ensures facts { OnOk result (self.new.facts ≡ self.old.facts) }
        ensures kept { OnOk result ((self.new.entries ≡ self.old.entries)
            × (self.new.contexts ≡ self.old.contexts)) }
        ensures grows { OnOk result (Grows self.old self.new) }
        ensures unmapped { OnOk result (HasUnmapped self.old → HasUnmapped self.new) }
    {
        if !self.ideographs.is_empty() {
            return Err(UnnumberedError::Refused(LineErrorKind::Repeated));
        }
        let all = joined(self.alloc, first, ranges)?;
        let ideographs = IdeographWeights::assign(self.alloc, all.as_slice())?;
        set_ideographs(&mut self.builder, ideographs.ranges())?;
        self.ideographs = ideographs;
        Ok(())
    }

    /// Takes in a mapping.
    fn add_mapping(&mut self, mapping: Mapping) -> Result<(), UnnumberedError>
        ensures has { OnOk result (HasMapping self.new mapping) }
        ensures ideographs { OnOk result (self.new.ideographs ≡ self.old.ideographs) }
        ensures special { OnOk result (self.new.special ≡ self.old.special) }
        ensures facts { OnOk result (self.new.facts ≡ self.old.facts) }
        ensures others { OnOk result (KeepsOthers self.old.entries self.old.contexts
            self.new.entries self.new.contexts mapping.first) }
        ensures grows { OnOk result (Grows self.old self.new) }
        ensures unmapped { OnOk result (HasUnmapped self.old → HasUnmapped self.new) }
    {
        let elements = elements_said(self.alloc, &self.ideographs, mapping.elements.as_slice())?;
        set_diacritic(&mut self.diacritics, &mapping, elements.as_slice())?;
        let entry = entry_of_elements(self.alloc, &mut self.builder, elements.as_slice())?;
        add_entry(
            self.alloc,
            &mut self.entries,
            &mut self.contexts,
            mapping,
            entry,
        )
    }
}
