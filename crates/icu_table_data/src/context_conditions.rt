//! The conditions on one context.
ghost use Rattle.std.specs.Prelude.{◌≡◌, ◌<◌, length, All};
ghost use Rattle.std.specs.List.{list_all};
ghost use Rattle.icu_table_data.specs.declared.context.ContextMapping.{ContextMapping};
ghost use Rattle.icu_table_entries.specs.Entries.{kind_of};
ghost use Rattle.icu_table_data.specs.Reachable.{context_entries};
ghost use Rattle.icu_table_data.specs.Contexts.{mapping_of, mappings_of, HasCharsInside};
ghost use Rattle.icu_table_data.specs.DataConditions.{is_short, all_may_follow_prefix, all_may_follow_contraction};
ghost use Rattle.icu_table_entries.specs.EntryConditions.{may_follow_prefix, may_follow_contraction};

use crate::context::{ContextMapping, FoundContext, chars_of};
use icu_table_entries::CollationElement32;

fn is_short(mapping: ContextMapping, chars: &[char]) -> bool
    requires { HasCharsInside (length chars.now) mapping }
    ensures { result ≡ is_short (mapping_of chars.now mapping) }
{
    let len = chars_of(mapping, chars).len();
    len >= 1 && len <= 2
}

fn all_short(mappings: &[ContextMapping], chars: &[char]) -> bool
    requires { All (HasCharsInside (length chars.now)) mappings.now }
    ensures { result ≡ list_all (λ mapping. is_short (mapping_of chars.now mapping)) mappings.now }
{
    mappings.iter().all(|mapping| is_short(*mapping, chars))
}

fn may_follow_prefix(entry: u32) -> bool
    ensures { result ≡ may_follow_prefix (kind_of entry) }
{
    CollationElement32::new(entry).kind().may_follow_prefix()
}

fn all_may_follow_prefix(mappings: &[ContextMapping]) -> bool
    ensures { result
        ≡ list_all (λ (mapping : ContextMapping). may_follow_prefix (kind_of mapping.entry))
        mappings.now }
{
    mappings
        .iter()
        .all(|mapping| may_follow_prefix(mapping.entry))
}

fn may_follow_contraction(entry: u32) -> bool
    ensures { result ≡ may_follow_contraction (kind_of entry) }
{
    CollationElement32::new(entry)
        .kind()
        .may_follow_contraction()
}

fn all_may_follow_contraction(mappings: &[ContextMapping]) -> bool
    ensures { result
        ≡ list_all (λ (mapping : ContextMapping). may_follow_contraction (kind_of mapping.entry))
        mappings.now }
{
    mappings
        .iter()
        .all(|mapping| may_follow_contraction(mapping.entry))
}

impl<'d> FoundContext<'d> {
    ghost use Rattle.icu_table_data.specs.StoredData.{found_context};

    /// Whether each mapping has one character or two.
    #[tactic(auto, using(crate::proofs::ContextLemmas::all_mappings))]
    pub(crate) fn has_short_mappings(self) -> bool
        ensures { result ≡ list_all is_short (found_context self.entry).mappings }
    {
        all_short(self.mappings, self.chars)
    }

    /// Whether a prefix may lead to each of the entries.
    pub(crate) fn may_follow_prefix(self) -> bool
        ensures { result ≡ all_may_follow_prefix (context_entries (found_context self.entry)) }
    {
        may_follow_prefix(self.default) && all_may_follow_prefix(self.mappings)
    }

    /// Whether a contraction may lead to each of the entries.
    pub(crate) fn may_follow_contraction(self) -> bool
        ensures { result ≡ all_may_follow_contraction (context_entries (found_context self.entry)) }
    {
        may_follow_contraction(self.default) && all_may_follow_contraction(self.mappings)
    }
}
