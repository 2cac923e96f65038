//! The mappings of characters as they are while rules are read.

ghost use Rattle.std.specs.Prelude.{◌≡◌, ◌==◌, ◌||◌, ◌++◌, ℕ, [], All, IfOk, IfSome, OnOk, filter, length, true, false};
ghost use Rattle.icu_rule_meaning.specs.Rules.{have_character};
ghost use Rattle.icu_rule_meaning.specs.Steps.{mapping_step, suppression_step};
ghost use Rattle.icu_rule_meaning.specs.TailoredMappings.{has_no_context, is_mapping_of, with_mapping};
ghost use Rattle.icu_element_matches.specs.Texts.{unread};
ghost use Rattle.icu_rule_steps.specs.symbolic_mappings.StoredMappings.{mapping_between, suppressed_at, symbolic_mapping, symbolic_mappings};
ghost use Rattle.icu_rule_steps.specs.symbolic_mappings.inner.PassedMarks.{IsMarkRun};
ghost use Rattle.icu_rule_steps.specs.symbolic_mappings.inner.ReadByMappings.{ReadsCharacter};

use crate::symbolic_mappings::character_mapping::{
    CharacterMapping, SymbolicMapping, TouchedCharacter,
};
use crate::symbolic_mappings::mark_runs::MarkRun;
use crate::symbolic_mappings::reading::read_character;
use crate::symbolic_mappings::roots::{RootMappings, have_context, mappings_of_root};
use icu_element_matches::Text;
use icu_rule_meaning::SymbolicElement;
use icu_rule_parser::CharacterRange;
use std::alloc::{AllocError, Global};
use std::collections::BTreeMap;

/// The mappings of characters: those of a root, but for the characters that rules touched (UTS #35 part 5, "Collation
/// Tailorings").
#[derive(Drop)]
pub struct Mappings<'r, R> {
    root: &'r R,
    suppressed: Vec<CharacterRange>,
    touched: BTreeMap<char, Vec<SymbolicMapping>>,
}

/// Whether the mapping is of this prefix and this suffix.
fn is_mapping_of(mapping: &SymbolicMapping, prefix: &[char], suffix: &[char]) -> bool
    ensures { result ≡ is_mapping_of prefix.now suffix.now (symbolic_mapping mapping.now) }
{
    mapping.prefix.as_slice() == prefix && mapping.suffix.as_slice() == suffix
}

/// One of the ranges has the character.
fn have_character(ranges: &[CharacterRange], c: char) -> bool
    ensures { result ≡ have_character ranges.now c }
{
    for range in ranges {
        if range.first <= c && c <= range.last {
            return true;
        }
    }
    false
}

/// Puts a mapping in the place of that of its prefix and suffix. Returns how many mappings there are then.
fn put_mapping(
    mappings: &mut Vec<SymbolicMapping>,
    new: SymbolicMapping,
) -> Result<usize, AllocError>
    ensures mappings { OnOk result (symbolic_mappings mappings.new.items
        ≡ with_mapping (symbolic_mapping new) (symbolic_mappings mappings.old.items)) }
    ensures count { IfOk result (λ n. n ≡ length
        (with_mapping (symbolic_mapping new) (symbolic_mappings mappings.old.items))) }
{
    mappings.retain(|m| !is_mapping_of(m, new.prefix.as_slice(), new.suffix.as_slice()));
    mappings.insert(0, new)?;
    Ok(mappings.len())
}

/// Keeps the mappings without a context alone.
fn keep_plain(mappings: &mut Vec<SymbolicMapping>)
    ensures { symbolic_mappings mappings.new.items
        ≡ filter has_no_context (symbolic_mappings mappings.old.items) }
{
    mappings.retain(|m| is_mapping_of(m, &[], &[]));
}

/// Keeps the mappings of a character without a context alone, where one of the ranges has it. Returns `true`.
fn suppress(ranges: &[CharacterRange], c: char, mappings: &mut Vec<SymbolicMapping>) -> bool
    ensures kept { result ≡ true }
    ensures left { symbolic_mappings mappings.new.items
        ≡ suppressed_at ranges.now c (symbolic_mappings mappings.old.items) }
{
    if have_character(ranges, c) {
        keep_plain(mappings);
    }
    true
}

/// A mapping of a character with this suffix, behind a prefix.
fn new_mapping(
    alloc: Global,
    prefix: &[char],
    suffix: &[char],
    elements: Vec<SymbolicElement>,
) -> Result<SymbolicMapping, AllocError>
    ensures { IfOk result (λ m.
        symbolic_mapping m ≡ mapping_between prefix.now suffix.now elements.items) }
{
    let prefix = prefix.iter().rev().copied().collect(alloc)?;
    let suffix = Vec::from_slice(alloc, suffix)?;
    Ok(CharacterMapping {
        prefix,
        suffix,
        elements,
    })
}

impl<'r, R: RootMappings> Mappings<'r, R> {
    ghost use Rattle.icu_rule_meaning.specs.TailoredMappings.{root_mappings, symbolic_elements, with_mappings};
    ghost use Rattle.icu_rule_meaning.specs.TailoredRoots.{Root};
    ghost use Rattle.std.specs.Option.{is_some};
    ghost use Rattle.icu_rule_meaning.specs.RootLaws.{string_begins};
    ghost use Rattle.icu_rule_steps.specs.symbolic_mappings.KeptMappings.{MakesMappings, count_with, mappings_in, untouched_mappings};
    ghost use Rattle.icu_rule_steps.specs.symbolic_mappings.TouchedCharacters.{HasTouched, TouchesMore, has_root_context, have_touched, suppressed_in, touched_in};

    /// The mappings of a root.
    #[tactic(auto, unfolding(crate::specs::symbolic_mappings::KeptMappings::mappings_in, crate::specs::symbolic_mappings::TouchedCharacters::touched_in))]
    pub fn new(alloc: Global, root: &'r R) -> Self
        ensures mappings { (r : Root) → r.mappings ≡ R.mappings_of root.now
            → mappings_in R.mappings_of result ≡ root_mappings r }
        ensures touched { HasTouched root.now [] result }
    {
        Mappings {
            root,
            suppressed: Vec::new(alloc),
            touched: BTreeMap::new(alloc),
        }
    }

    /// A character with its mappings, if a relation touched it.
    #[tactic(auto, unfolding(crate::specs::symbolic_mappings::TouchedCharacters::touched_in))]
    fn touched_character(&self, c: char) -> Option<TouchedCharacter<'_>>
        ensures found { is_some result ≡ touched_in self.now c }
        ensures character { IfSome result (λ t. t.character ≡ c) }
        ensures mappings { IfSome result (λ t. mappings_in R.mappings_of self.now t.character
            ≡ symbolic_mappings t.mappings.now) }
    {
        match self.touched.get(&c) {
            Some(own) => Some(TouchedCharacter {
                character: c,
                mappings: own.as_slice(),
            }),
            None => None,
        }
    }

    /// The characters that relations touched, ascending, each with its mappings.
    pub fn touched_characters(&self, alloc: Global) -> Result<Vec<TouchedCharacter<'_>>, AllocError>
        ensures mappings { IfOk result (λ found. All (λ t.
            mappings_in R.mappings_of self.now t.character
            ≡ symbolic_mappings t.mappings.now) found.items) }
        ensures all { IfOk result (λ found.
            (c : ℕ) → touched_in self.now c ≡ have_touched found.items c) }
    {
        let mut found = Vec::new(alloc);
        for c in self.touched.keys() {
            if let Some(touched) = self.touched_character(*c) {
                found.push(touched)?;
            }
        }
        Ok(found)
    }

    /// Whether a relation touched the character.
    #[tactic(auto, unfolding(crate::specs::symbolic_mappings::TouchedCharacters::touched_in))]
    pub fn is_touched(&self, c: char) -> bool
        ensures { result ≡ touched_in self.now c }
    {
        self.touched.contains_key(&c)
    }

    /// The ranges of characters that were to keep their mappings without a context alone.
    pub fn suppressed(&self) -> &[CharacterRange]
        ensures { result.now ≡ suppressed_in self.now }
    {
        self.suppressed.as_slice()
    }

    /// Whether the root has mappings of the character that depend on what stands around it.
    pub fn has_root_context(&self, alloc: Global, c: char) -> Result<bool, AllocError>
        ensures { IfOk result (λ b. b ≡ has_root_context R.mappings_of self.now c) }
    {
        let mappings = self.root.mappings(alloc, c)?;
        Ok(have_context(mappings.as_slice()))
    }

    /// The mappings of a character that no relation touched: those of the root, without those that have a context where
    /// these were suppressed.
    pub fn untouched(&self, alloc: Global, c: char) -> Result<Vec<SymbolicMapping>, AllocError>
        ensures { IfOk result (λ found.
            symbolic_mappings found.items ≡ untouched_mappings R.mappings_of self.now c) }
    {
        let mut found = mappings_of_root(alloc, self.root.mappings(alloc, c)?)?;
        if have_character(self.suppressed.as_slice(), c) {
            keep_plain(&mut found);
        }
        Ok(found)
    }

    /// Puts a mapping of a character in the place of that of its prefix and suffix. Returns how many mappings the
    /// character has then.
    fn put(&mut self, alloc: Global, c: char, new: SymbolicMapping) -> Result<usize, AllocError>
        ensures mappings { OnOk result (mappings_in R.mappings_of self.new
            ≡ with_mappings (mappings_in R.mappings_of self.old) c
            (with_mapping (symbolic_mapping new) (mappings_in R.mappings_of self.old c))) }
        ensures touched { OnOk result
            (TouchesMore (λ other. other == c) [] self.old self.new) }
        ensures count { IfOk result (λ n. n ≡ length
            (with_mapping (symbolic_mapping new) (mappings_in R.mappings_of self.old c))) }
    {
        let mut own = match self.touched.remove(&c) {
            Some(own) => own,
            None => self.untouched(alloc, c)?,
        };
        let count = put_mapping(&mut own, new)?;
        self.touched.insert(c, own)?;
        Ok(count)
    }

    /// A decomposed string behind a decomposed prefix has these elements from here on. Returns how many mappings the
    /// first character of the string has then, 0 where there is none. If an allocation fails, nothing is said of the
    /// mappings.
    pub fn mapping_step(
        &mut self,
        alloc: Global,
        prefix: &[char],
        string: &[char],
        elements: Vec<SymbolicElement>,
    ) -> Result<usize, AllocError>
        ensures mappings { OnOk result (MakesMappings
            (mapping_step prefix.now string.now elements.items)
            (mappings_in R.mappings_of self.old) (mappings_in R.mappings_of self.new)) }
        ensures touched { OnOk result
            (TouchesMore (λ c. string_begins c string.now) [] self.old self.new) }
        ensures count { IfOk result (λ n. n ≡ count_with prefix.now string.now
            (mappings_in R.mappings_of self.old)) }
    {
        match string.split_first() {
            Some((first, suffix)) => {
                let new = new_mapping(alloc, prefix, suffix, elements)?;
                self.put(alloc, *first, new)
            }
            None => Ok(0),
        }
    }

    /// Characters of the ranges keep their mappings without a context alone. If an allocation fails, nothing is said of
    /// the mappings.
    pub fn suppression_step(&mut self, ranges: &[CharacterRange]) -> Result<(), AllocError>
        ensures mappings { OnOk result (MakesMappings (suppression_step ranges.now)
            (mappings_in R.mappings_of self.old) (mappings_in R.mappings_of self.new)) }
        ensures touched { OnOk result (TouchesMore (λ _. false) ranges.now self.old self.new) }
    {
        self.suppressed.extend_from_slice(ranges)?;
        self.touched.retain(|c, own| suppress(ranges, *c, own));
        Ok(())
    }

    /// Reads a character by its mappings. Marks that were passed over are handed on.
    fn read(
        &self,
        alloc: Global,
        c: char,
        before: &mut Vec<char>,
        text: &mut Text,
        elements: &mut Vec<SymbolicElement>,
        run: &mut MarkRun,
    ) -> Result<(), AllocError>
        requires run { IsMarkRun run.old (unread text.old) }
        ensures read { OnOk result (ReadsCharacter (mappings_in R.mappings_of self.now c) c
            before.old.items before.new.items (unread text.old) (unread text.new)
            elements.old.items elements.new.items) }
        ensures run { OnOk result (IsMarkRun run.new (unread text.new)) }
    {
        match self.touched.get(&c) {
            Some(own) => read_character(alloc, own.as_slice(), c, before, text, run, elements),
            None => {
                let own = self.untouched(alloc, c)?;
                read_character(alloc, own.as_slice(), c, before, text, run, elements)
            }
        }
    }

    /// The elements of a decomposed text.
    pub fn symbolic_elements(
        &self,
        alloc: Global,
        text: Vec<char>,
    ) -> Result<Vec<SymbolicElement>, AllocError>
        ensures { IfOk result (λ es.
            es.items ≡ symbolic_elements (mappings_in R.mappings_of self.now) text.items) }
    {
        let mut left = Text::new(text);
        let mut run = MarkRun::none();
        let mut before = Vec::new(alloc);
        let mut elements = Vec::new(alloc);
        'reading: while let Some(c) = left.take_first() {
            self.read(alloc, c, &mut before, &mut left, &mut elements, &mut run)?;
        }
        Ok(elements)
    }
}
