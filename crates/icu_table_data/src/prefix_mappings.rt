//! Whether the mappings of prefixes have diacritics.
ghost use Rattle.std.specs.Prelude.{◌≡◌, ◌+◌, length, All, not};
ghost use Rattle.std.specs.List.{list_all};
ghost use Rattle.icu_table_data.specs.Data.{Mapping};
ghost use Rattle.icu_table_data.specs.Contexts.{mapping_of, HasCharsInside};
ghost use Rattle.icu_table_data.specs.DataConditions.{is_diacritic, mapping_avoids, avoids_diacritics};

use crate::context::{ContextMapping, FoundContext, chars_of};
use crate::data::CollationData;
use icu_table_entries::{CollationElement32, EntryKind};

/// The first diacritic.
const COMBINING_DIACRITICS_BASE: usize = 0x0300;

fn is_diacritic(count: usize, c: char) -> bool
    ensures { result ≡ is_diacritic count c }
{
    let code = c as usize;
    code >= COMBINING_DIACRITICS_BASE && code - COMBINING_DIACRITICS_BASE < count
}

fn mapping_avoids(mapping: ContextMapping, chars: &[char], count: usize) -> bool
    requires { HasCharsInside (length chars.now) mapping }
    ensures { result ≡ mapping_avoids count (mapping_of chars.now mapping) }
{
    chars_of(mapping, chars)
        .iter()
        .all(|c| !is_diacritic(count, *c))
}

fn all_avoid(mappings: &[ContextMapping], chars: &[char], count: usize) -> bool
    requires { All (HasCharsInside (length chars.now)) mappings.now }
    ensures { result ≡ list_all (λ mapping.
        mapping_avoids count (mapping_of chars.now mapping)) mappings.now }
{
    mappings
        .iter()
        .all(|mapping| mapping_avoids(*mapping, chars, count))
}

impl<'d> FoundContext<'d> {
    ghost use Rattle.icu_table_data.specs.StoredData.{found_context};

    /// Whether no mapping has one of the first `count` diacritics from U+0300 on.
    #[tactic(auto, using(crate::proofs::ContextLemmas::all_mappings))]
    fn avoids_diacritics(self, count: usize) -> bool
        ensures { result ≡ list_all (mapping_avoids count) (found_context self.entry).mappings }
    {
        all_avoid(self.mappings, self.chars, count)
    }
}

impl<'d> CollationData<'d> {
    ghost use Rattle.icu_table_data.specs.StoredData.{data_of};

    /// Whether no mapping of a prefix has one of the first `count` diacritics from U+0300 on.
    #[tactic(auto, unfolding(crate::specs::DataConditions::avoids_diacritics))]
    pub fn avoids_diacritics(self, count: usize, entry: CollationElement32) -> bool
        ensures { result ≡ avoids_diacritics count (data_of self.entry) entry }
    {
        match entry.kind() {
            EntryKind::Prefix => self.context_of(entry).avoids_diacritics(count),
            _ => true,
        }
    }
}
