//! The contexts of prefixes and contractions.
ghost use Rattle.std.specs.Prelude.{◌≡◌, ◌↔◌, ◌<◌, ◌≤◌, ℕ, IsOk, IfOk, IfErr, IsTrue, All, length, take, drop, slice_get, Some, []};
ghost use Rattle.icu_table_data.specs.Data.{context_in};
ghost use Rattle.icu_table_data.specs.Contexts.{mapping_of, mappings_of, stored_contexts, HasMappingsInside, HasCharsInside, HasRangesInside, is_before, ascend_from, has_ascending_mappings, HasAscendingMappings, IsContextTable, FailsContexts};

use icu_table_entries::{CollationElement32, DataErrorKind};

/// A context as it is stored: an entry for all texts but those of its mappings, and the range of the mappings.
#[derive(Debug, Clone, Copy, PartialEq)]
pub struct Context {
    /// The entry for all other texts.
    pub default: u32,
    /// The index of the first mapping.
    pub mappings_start: u32,
    /// The number of mappings.
    pub mappings_len: u32,
}

/// A mapping of a context as it is stored: the range of its characters, and their entry.
#[derive(Debug, Clone, Copy, PartialEq)]
pub struct ContextMapping {
    /// The index of the first character.
    pub chars_start: u32,
    /// The number of characters.
    pub chars_len: u32,
    /// The entry of the mapping.
    pub entry: u32,
}

/// What prefix and contraction entries name: an entry for each of some lists of characters, and one for all else. The
/// characters of a contraction's mappings come after the entry's own; those of a prefix's come before it, the nearest
/// first (UTS #35 part 5, "Context-Sensitive Mappings").
#[derive(Debug, Clone, Copy, PartialEq)]
pub struct ContextTable<'d> {
    contexts: &'d [Context],
    mappings: &'d [ContextMapping],
    chars: &'d [char],
    ghost is_table: { IsContextTable contexts.now mappings.now chars.now },
}

/// A context that was looked up.
#[derive(Clone, Copy, PartialEq)]
pub struct FoundContext<'d> {
    pub(crate) default: u32,
    pub(crate) mappings: &'d [ContextMapping],
    pub(crate) chars: &'d [char],
    ghost inside: { All (HasCharsInside (length chars.now)) mappings.now },
}

/// A mapping of a context that was looked up: its characters, and their entry.
#[derive(Clone, Copy, PartialEq)]
pub struct FoundMapping<'d> {
    /// The characters.
    pub chars: &'d [char],
    /// Their entry.
    pub entry: CollationElement32,
}

fn has_mappings_inside(context: Context, len: usize) -> bool
    ensures { IsTrue result ↔ HasMappingsInside len context }
{
    context.mappings_start as usize + context.mappings_len as usize <= len
}

fn has_chars_inside(mapping: ContextMapping, len: usize) -> bool
    ensures { IsTrue result ↔ HasCharsInside len mapping }
{
    mapping.chars_start as usize + mapping.chars_len as usize <= len
}

fn has_ranges_inside(contexts: &[Context], mappings: &[ContextMapping], chars: &[char]) -> bool
    ensures { IsTrue result ↔ HasRangesInside contexts.now mappings.now chars.now }
{
    contexts
        .iter()
        .all(|context| has_mappings_inside(*context, mappings.len()))
        && mappings
            .iter()
            .all(|mapping| has_chars_inside(*mapping, chars.len()))
}

pub(crate) fn chars_of(mapping: ContextMapping, chars: &[char]) -> &[char]
    requires { HasCharsInside (length chars.now) mapping }
    ensures { result.now ≡ (mapping_of chars.entry.now mapping).chars }
{
    let start = mapping.chars_start as usize;
    &chars[start..start + mapping.chars_len as usize]
}

#[tactic(auto, using(std::proofs::lemmas::Grind::common_steps))]
fn mappings_of_context(context: Context, mappings: &[ContextMapping]) -> &[ContextMapping]
    requires { HasMappingsInside (length mappings.now) context }
    ensures value { result.now
        ≡ take context.mappings_len (drop context.mappings_start mappings.entry.now) }
    ensures inside { (n : ℕ) → All (HasCharsInside n) mappings.entry.now
        → All (HasCharsInside n) result.now }
{
    let start = context.mappings_start as usize;
    &mappings[start..start + context.mappings_len as usize]
}

fn is_before(list: &[char], next: &[char]) -> bool
    ensures { result ≡ is_before list.now next.now }
{
    list.cmp(next).is_lt()
}

/// Whether the mappings come after one another and after the empty list, so that none is empty.
#[tactic(auto, unfolding(crate::specs::Contexts::ascend_from))]
fn are_ascending(mappings: &[ContextMapping], chars: &[char]) -> bool
    requires { All (HasCharsInside (length chars.now)) mappings.now }
    ensures { result ≡ ascend_from [] (mappings_of chars.now mappings.now) }
{
    let mut last: &[char] = &chars[0..0];
    for mapping in mappings {
        let next = chars_of(*mapping, chars);
        if !is_before(last, next) {
            return false;
        }
        last = next;
    }
    true
}

fn have_ascending_mappings(
    contexts: &[Context],
    mappings: &[ContextMapping],
    chars: &[char],
) -> bool
    requires { HasRangesInside contexts.now mappings.now chars.now }
    ensures { IsTrue result ↔ HasAscendingMappings contexts.now mappings.now chars.now }
{
    contexts.iter().all(|context| are_ascending(mappings_of_context(*context, mappings), chars))
}

impl<'d> ContextTable<'d> {
    ghost use Rattle.icu_table_data.specs.StoredData.{contexts_of, found_context};

    /// Borrows contexts, their mappings, and the mappings' characters. They are refused:
    ///
    /// - `Index`: a range lies outside its list.
    /// - `Context`: in a context a mapping has no character, or the mappings do not ascend by the numbers of their
    ///   characters, a
    ///   prefix of a list before the list.
    pub fn new(
        contexts: &'d [Context],
        mappings: &'d [ContextMapping],
        chars: &'d [char],
    ) -> Result<ContextTable<'d>, DataErrorKind>
        ensures accepts { IsOk result
            ↔ IsContextTable contexts.entry.now mappings.entry.now chars.entry.now }
        ensures kind { IfErr result
            (FailsContexts contexts.entry.now mappings.entry.now chars.entry.now) }
        ensures keeps { IfOk result (λ t.
            contexts_of t ≡ stored_contexts contexts.entry.now mappings.entry.now chars.entry.now) }
    {
        if !has_ranges_inside(contexts, mappings, chars) {
            return Err(DataErrorKind::Index);
        }
        if !have_ascending_mappings(contexts, mappings, chars) {
            return Err(DataErrorKind::Context);
        }
        Ok(ContextTable::from_parts(contexts, mappings, chars))
    }

    /// The contexts, their mappings, and the mappings' characters, as `new` takes them. In each context the mappings
    /// ascend by the numbers of their characters.
    #[tactic(auto, using(crate::proofs::ContextLemmas::ascending_mappings))]
    pub fn parts(self) -> (&'d [Context], &'d [ContextMapping], &'d [char])
        ensures value { stored_contexts result.0.now result.1.now result.2.now
            ≡ contexts_of self.entry }
        ensures table { IsContextTable result.0.now result.1.now result.2.now }
        ensures ascending { All (λ x. IsTrue (has_ascending_mappings x)) (contexts_of self.entry) }
    {
        (self.contexts, self.mappings, self.chars)
    }

    /// The table of parts that its caller has shown to fit, as those that `parts` returns do: nothing is checked again.
    pub fn from_parts(
        contexts: &'d [Context],
        mappings: &'d [ContextMapping],
        chars: &'d [char],
    ) -> ContextTable<'d>
        requires { IsContextTable contexts.now mappings.now chars.now }
        ensures { contexts_of result
            ≡ stored_contexts contexts.entry.now mappings.entry.now chars.entry.now }
    {
        ContextTable {
            contexts,
            mappings,
            chars,
        }
    }

    /// The table without contexts.
    pub fn empty() -> ContextTable<'d>
        ensures { contexts_of result ≡ [] }
    {
        ContextTable {
            contexts: &[],
            mappings: &[],
            chars: &[],
        }
    }

    /// How many contexts there are.
    pub fn len(self) -> usize
        ensures { result ≡ length (contexts_of self.entry) }
    {
        self.contexts.len()
    }

    /// The context at an index. Its mappings ascend by the numbers of their characters.
    #[tactic(auto, using(crate::proofs::ContextLemmas::ascending_mappings))]
    pub fn get(self, index: usize) -> FoundContext<'d>
        requires { index < length (contexts_of self) }
        ensures value { found_context result ≡ context_in (contexts_of self.entry) index }
        ensures ascending { IsTrue (has_ascending_mappings (found_context result)) }
    {
        let context = self.contexts[index];
        FoundContext {
            default: context.default,
            mappings: mappings_of_context(context, self.mappings),
            chars: self.chars,
        }
    }

    /// The context at an index, or an empty one where there is none.
    pub(crate) fn get_or_empty(self, index: usize) -> FoundContext<'d>
        ensures { found_context result ≡ context_in (contexts_of self.entry) index }
    {
        if index < self.contexts.len() {
            self.get(index)
        } else {
            FoundContext {
                default: 0,
                mappings: &[],
                chars: &[],
            }
        }
    }
}

impl<'d> FoundContext<'d> {
    ghost use Rattle.icu_table_data.specs.StoredData.{found_context, found_mapping};

    /// The entry for all else.
    pub fn default(self) -> CollationElement32
        ensures { result ≡ (found_context self.entry).default }
    {
        CollationElement32::new(self.default)
    }

    /// How many mappings there are.
    pub fn len(self) -> usize
        ensures { result ≡ length (found_context self.entry).mappings }
    {
        self.mappings.len()
    }

    /// The mapping at an index; mappings ascend by the numbers of their characters.
    pub fn mapping(self, index: usize) -> FoundMapping<'d>
        requires { index < length (found_context self).mappings }
        ensures { slice_get (found_context self.entry).mappings index
            ≡ Some (found_mapping result) }
    {
        let mapping = self.mappings[index];
        FoundMapping {
            chars: chars_of(mapping, self.chars),
            entry: CollationElement32::new(mapping.entry),
        }
    }
}
