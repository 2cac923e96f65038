//! Mappings of a context, found by bisection: they ascend by the numbers of their characters, a list before those that
//! it begins.

ghost use Rattle.std.specs.Prelude.{◌≡◌, ◌<◌, ◌≤◌, IsTrue, IfSome, length, not, take};
ghost use Rattle.icu_table_data.specs.Contexts.{has_ascending_mappings, is_before};
ghost use Rattle.icu_table_data.specs.Data.{mapping_entry, longest_mapping};
ghost use Rattle.icu_table_data.specs.StoredData.{found_context};
ghost use Rattle.icu_element_matches.specs.MatchesAhead.{are_decided};
ghost use Rattle.icu_element_matches.specs.inner.Beginnings.{common_beginning};
ghost use Rattle.icu_element_matches.specs.inner.Mappings.{SplitsMappings, mapping_at};

use icu_table_data::FoundContext;
use icu_table_entries::CollationElement32;

fn comes_after(mapping: &[char], text: &[char]) -> bool
    ensures { result ≡ is_before text.now mapping.now }
{
    text.cmp(mapping).is_lt()
}

/// How many mappings don't come after the text.
fn mappings_up_to(context: FoundContext<'_>, text: &[char]) -> usize
    requires { IsTrue (has_ascending_mappings (found_context context)) }
    ensures { SplitsMappings (found_context context.entry).mappings text.now result }
{
    let mut low = 0;
    let mut high = context.len();
    while low < high {
        let middle = low + (high - low) / 2;
        if comes_after(context.mapping(middle).chars, text) {
            high = middle;
        } else {
            low = middle + 1;
        }
    }
    low
}

/// The entry of the mapping with these characters.
pub(crate) fn find_mapping(context: FoundContext<'_>, wanted: &[char]) -> Option<CollationElement32>
    requires { IsTrue (has_ascending_mappings (found_context context)) }
    ensures { result ≡ mapping_entry (found_context context.entry).mappings wanted.now }
{
    let count = mappings_up_to(context, wanted);
    if count == 0 {
        return None;
    }
    let mapping = context.mapping(count - 1);
    if mapping.chars == wanted {
        Some(mapping.entry)
    } else {
        None
    }
}

/// How many characters a mapping and a text have in common at their beginnings.
fn common_len(mapping: &[char], text: &[char]) -> usize
    ensures inside { result ≤ length text.now }
    ensures common { take result text.now ≡ common_beginning mapping.now text.now }
{
    let end = mapping.len().min(text.len());
    for index in 0..end {
        if mapping[index] != text[index] {
            return index;
        }
    }
    end
}

/// The index of the longest mapping that begins the text. Say the last mapping that does not come after the text does
/// not begin it. Then each mapping that begins the text begins that mapping too, so it begins the common prefix of the
/// two.
pub fn find_longest(context: FoundContext<'_>, text: &[char]) -> Option<usize>
    requires { IsTrue (has_ascending_mappings (found_context context)) }
    ensures value { longest_mapping (found_context context.entry).mappings text.now
        ≡ mapping_at (found_context context.entry).mappings result }
    ensures inside { IfSome result (λ i. i < length (found_context context.entry).mappings) }
{
    let mut cut = text;
    'cutting: loop {
        let count = mappings_up_to(context, cut);
        if count == 0 {
            return None;
        }
        let mapping = context.mapping(count - 1);
        if cut.starts_with(mapping.chars) {
            return Some(count - 1);
        }
        cut = &cut[..common_len(mapping.chars, cut)];
    }
}

/// Whether a mapping of a context goes on where the text ends, so that more of the text decides which mapping begins
/// it. The first mapping after the text does, where any does.
pub fn mapping_goes_on(context: FoundContext<'_>, text: &[char]) -> bool
    requires { IsTrue (has_ascending_mappings (found_context context)) }
    ensures { result ≡ not (are_decided (found_context context.entry).mappings text.now) }
{
    let next = mappings_up_to(context, text);
    if next >= context.len() {
        return false;
    }
    context.mapping(next).chars.starts_with(text)
}
