//! Roots and tailorings.
ghost use Rattle.std.specs.Prelude.{◌≡◌, ◌+◌, ◌<◌, ◌≤◌, length, slice_index, take, drop, map, IsTrue, All, IsOk, IfOk, IfErr, true, ◌↔◌, ◌∷◌, []};
ghost use Rattle.icu_table_data.specs.Contexts.{has_ascending_mappings};
ghost use Rattle.icu_table_entries.specs.Elements.{element_of};
ghost use Rattle.std.specs.List.{list_all};
ghost use Rattle.icu_table_entries.specs.Entries.{kind_of, is_self_contained, has_index, entry_index};
ghost use Rattle.icu_table_entries.specs.Weights.{ordinal_of_weight, offset_compressible, offset_ordinal};
ghost use Rattle.icu_table_data.specs.Final.{listed, final_elements};
ghost use Rattle.icu_table_data.specs.DataConditions.{is_inside, fits_offset};
ghost use Rattle.icu_table_data.specs.ReachableConditions.{IsWellFormedData, FailsData};
ghost use Rattle.icu_table_data.specs.Data.{homed, context_in, context_of, data_element, plain_of};

use crate::code_point_table::CodePointTable;
use crate::context::{ContextTable, FoundContext};
use crate::reachable_condition::EntryJudge;
use crate::violation::first_violation;
use icu_table_entries::{CollationElement, CollationElement32, DataErrorKind, EntryKind};

/// A root or a tailoring: a table of entries by character, and the lists and contexts that entries name.
#[derive(Debug, Clone, Copy, PartialEq)]
pub struct CollationData<'d> {
    trie: CodePointTable<'d>,
    ces: &'d [u64],
    ce32s: &'d [u32],
    contexts: ContextTable<'d>,
}

impl<'d> CollationData<'d> {
    ghost use Rattle.icu_table_data.specs.StoredData.{data_of, data_by, found_context, block_in};

    /// Borrows a root or a tailoring whose entries nothing has checked. Its look-ups ask their callers for what they
    /// need, so that it does no harm; `new` checks the entries.
    #[tactic(auto, unfolding(crate::specs::StoredData::data_of))]
    pub fn from_unverified_parts(
        trie: CodePointTable<'d>,
        ces: &'d [u64],
        ce32s: &'d [u32],
        contexts: ContextTable<'d>,
    ) -> CollationData<'d>
        ensures { data_of result ≡ data_by trie.entry ces.entry.now ce32s.entry.now contexts.entry }
    {
        CollationData {
            trie,
            ces,
            ce32s,
            contexts,
        }
    }

    /// Borrows a root or a tailoring, which may have fallback entries in its code point table. It is refused where an
    /// entry that a text may come to fails a condition:
    ///
    /// - `Index`: what it refers to is not there, or a list has no member.
    /// - `Context`: a mapping of a prefix has not one character or two.
    /// - `Chain`: it leads to an entry that it may not lead to.
    /// - `Digit`: a digit is above 9.
    /// - `Tag`: its low byte, or that of a list's member, has no meaning where it stands.
    /// - `Element`: no weight by its offset data, a malformed element, or a lead byte that no weight may have.
    ///
    /// The kind is that of the first condition that fails, in this order: `Element` comes only where each entry that is
    /// reachable can be read. Secondary weights may lead with 02.
    pub fn new(
        trie: CodePointTable<'d>,
        ces: &'d [u64],
        ce32s: &'d [u32],
        contexts: ContextTable<'d>,
    ) -> Result<CollationData<'d>, DataErrorKind>
        ensures accepts { IsOk result
            ↔ IsWellFormedData true
            (data_by trie.entry ces.entry.now ce32s.entry.now contexts.entry) }
        ensures kind { IfErr result
            (FailsData true (data_by trie.entry ces.entry.now ce32s.entry.now contexts.entry)) }
        ensures keeps { IfOk result
            (λ d. data_of d ≡ data_by trie.entry ces.entry.now ce32s.entry.now contexts.entry) }
    {
        let data = CollationData::from_unverified_parts(trie, ces, ce32s, contexts);
        data.check()?;
        Ok(data)
    }

    /// Whether each entry that a text may come to meets each condition.
    fn check(self) -> Result<(), DataErrorKind>
        ensures accepts { IsOk result ↔ IsWellFormedData true (data_of self.entry) }
        ensures kind { IfErr result (FailsData true (data_of self.entry)) }
    {
        match first_violation(&EntryJudge, None, self, true) {
            None => Ok(()),
            Some(condition) => Err(condition.kind()),
        }
    }

    /// The code point table, the bits of the elements, the entries, and the contexts, as `new` takes them. In each
    /// context the mappings ascend by the numbers of their characters.
    #[tactic(auto, using(crate::proofs::ContextLemmas::ascending_mappings), unfolding(crate::specs::StoredData::data_of))]
    pub fn parts(self) -> (CodePointTable<'d>, &'d [u64], &'d [u32], ContextTable<'d>)
        ensures value { data_by result.0 result.1.now result.2.now result.3 ≡ data_of self.entry }
        ensures ascending { All (λ x.
            IsTrue (has_ascending_mappings x)) (data_of self.entry).contexts }
    {
        (self.trie, self.ces, self.ce32s, self.contexts)
    }

    /// The number of the block that 64 code points share, from `64 * index` on.
    pub(crate) fn block(self, index: usize) -> u16
        requires { index < 17408 }
        ensures { result ≡ block_in self.entry index }
    {
        self.trie.block(index)
    }

    /// The entry of a character.
    #[tactic(auto, unfolding(crate::specs::StoredData::data_of))]
    pub fn ce32_for_char(self, c: char) -> CollationElement32
        ensures { result ≡ (data_of self.entry).value c }
    {
        CollationElement32::new(self.trie.get(c))
    }

    /// The 32 bits of a character's entry.
    #[tactic(auto, unfolding(crate::specs::StoredData::data_of))]
    pub(crate) fn bits_for_char(self, c: char) -> u32
        ensures { result ≡ (data_of self.entry).value c }
    {
        self.trie.get(c)
    }

    /// The entry at an index of the list of entries.
    #[tactic(auto, unfolding(crate::specs::StoredData::data_of))]
    pub fn get_ce32(self, index: usize) -> CollationElement32
        requires { index < length (data_of self).entries }
        ensures { result ≡ slice_index (data_of self.entry).entries index }
    {
        CollationElement32::new(self.ce32s[index])
    }

    /// `len` entries from an index on.
    #[tactic(auto, unfolding(crate::specs::StoredData::data_of))]
    pub fn get_ce32s(self, index: usize, len: usize) -> &'d [u32]
        requires { index + len ≤ length (data_of self).entries }
        ensures { result.now ≡ take len (drop index (data_of self.entry).entries) }
    {
        &self.ce32s[index..index + len]
    }

    /// The bits of `len` elements from an index on.
    #[tactic(auto, using(crate::proofs::ListLemmas::map_taken), unfolding(crate::specs::StoredData::data_of))]
    pub fn get_ces(self, index: usize, len: usize) -> &'d [u64]
        requires { index + len ≤ length (data_of self).elements }
        ensures { map element_of result.now ≡ take len (drop index (data_of self.entry).elements) }
    {
        &self.ces[index..index + len]
    }

    /// The entry for all texts of the context at an index, but those of its mappings.
    #[tactic(auto, unfolding(crate::specs::StoredData::data_of))]
    pub fn get_default(self, index: usize) -> CollationElement32
        requires { index < length (data_of self).contexts }
        ensures { result ≡ (context_in (data_of self.entry).contexts index).default }
    {
        self.get_context(index).default()
    }

    /// The context at an index, its entry for all texts and its mappings, which ascend by the numbers of their
    /// characters.
    #[tactic(auto, unfolding(crate::specs::StoredData::data_of))]
    pub fn get_context(self, index: usize) -> FoundContext<'d>
        requires { index < length (data_of self).contexts }
        ensures value { found_context result ≡ context_in (data_of self.entry).contexts index }
        ensures ascending { IsTrue (has_ascending_mappings (found_context result)) }
    {
        self.contexts.get(index)
    }

    /// The context that an entry refers to, or an empty one where there is none at that index.
    #[tactic(auto, unfolding(crate::specs::StoredData::data_of))]
    pub(crate) fn context_of(self, entry: CollationElement32) -> FoundContext<'d>
        requires { IsTrue (has_index (kind_of entry)) }
        ensures { found_context result ≡ context_of (homed (data_of self.entry) entry) }
    {
        self.contexts.get_or_empty(entry.index())
    }

    /// The data that an offset entry refers to.
    #[tactic(auto, unfolding(crate::specs::StoredData::data_of, crate::specs::DataConditions::is_inside))]
    pub(crate) fn offset_data(self, entry: CollationElement32) -> CollationElement
        requires offset { kind_of entry ≡ EntryKind.Offset }
        requires inside { IsTrue (is_inside (data_of self) entry) }
        ensures taken { take 1 (drop (entry_index entry) (data_of self.entry).elements)
            ≡ result ∷ [] }
        ensures value { result ≡ data_element (data_of self.entry) entry }
    {
        CollationElement::new(self.ces[entry.index()])
    }

    /// The element of a character by an offset entry. Its primary weight, of three bytes, comes as many weights after
    /// that of the entry's data as the step says for each character from the base on.
    #[tactic(auto, unfolding(crate::specs::Final::final_elements, crate::specs::DataConditions::fits_offset))]
    pub fn ce_from_offset_ce32(self, c: char, entry: CollationElement32) -> CollationElement
        requires offset { kind_of entry ≡ EntryKind.Offset }
        requires inside { IsTrue (is_inside (data_of self) entry) }
        requires fits { IsTrue (fits_offset (data_of self) c entry) }
        ensures value { final_elements (homed (data_of self.entry) entry) c ≡ result ∷ [] }
        ensures place { let d = data_element (data_of self.entry) entry in
            ordinal_of_weight (offset_compressible d) result.primary ≡ offset_ordinal d c }
    {
        self.offset_data(entry).offset_element(c)
    }

    /// Whether what the entry refers to is there.
    #[tactic(auto, unfolding(crate::specs::StoredData::data_of, crate::specs::DataConditions::is_inside))]
    pub(crate) fn is_inside(self, entry: CollationElement32) -> bool
        ensures { result ≡ is_inside (data_of self.entry) entry }
    {
        match entry.kind() {
            EntryKind::Expansion32 => entry.is_listed(self.ce32s.len()),
            EntryKind::Expansion => entry.is_listed(self.ces.len()),
            EntryKind::Prefix | EntryKind::Contraction => entry.index() < self.contexts.len(),
            EntryKind::Digit => entry.index() < self.ce32s.len(),
            EntryKind::Offset => entry.index() < self.ces.len(),
            _ => true,
        }
    }

    /// Whether the members of the list that an entry refers to have one element each.
    #[tactic(auto, unfolding(crate::specs::DataConditions::is_inside))]
    pub(crate) fn members_are_self_contained(self, entry: CollationElement32) -> bool
        requires list { kind_of entry ≡ EntryKind.Expansion32 }
        requires inside { IsTrue (is_inside (data_of self) entry) }
        ensures { result ≡ list_all is_self_contained (listed entry (data_of self.entry).entries) }
    {
        let members = self.get_ce32s(entry.index(), entry.len());
        members.iter().all(|member| CollationElement32::new(*member).is_self_contained())
    }

    /// The plain entry of a digit entry, or 0 where the list of entries is too short.
    #[tactic(auto, unfolding(crate::specs::StoredData::data_of))]
    pub(crate) fn non_numeric_entry(self, entry: CollationElement32) -> CollationElement32
        requires { kind_of entry ≡ EntryKind.Digit }
        ensures { result ≡ plain_of (data_of self.entry) entry }
    {
        match self.ce32s.get(entry.index()) {
            Some(plain) => CollationElement32::new(*plain),
            None => CollationElement32::new(0),
        }
    }
}
