//! Mappings that begin with some characters and one more, found by bisection: mappings ascend by the numbers of their
//! characters, a list before those that it begins.

ghost use Rattle.std.specs.Prelude.{◌≡◌, ◌∷◌, ◌++◌, [], true, None, IsTrue, IfSome, bytes_eq, nat_eq, option_map, slice_get};
ghost use Rattle.std.specs.List.{starts_with};
ghost use Rattle.icu_table_data.specs.Contexts.{has_ascending_mappings, is_before};
ghost use Rattle.icu_table_data.specs.Data.{mapping_entry};
ghost use Rattle.icu_table_data.specs.StoredData.{found_context};
ghost use Rattle.icu_element_matches.specs.MatchesAhead.{are_decided};
ghost use Rattle.icu_element_matches.specs.inner.Mappings.{SplitsMappings};

use icu_table_data::{FoundContext, FoundMapping};

/// Whether a mapping comes after these characters with one more.
fn comes_after(mapping: &[char], front: &[char], last: char) -> bool
    ensures { result ≡ is_before (front.now ++ last ∷ []) mapping.now }
{
    let cut = front.len().min(mapping.len());
    let (begin, rest) = mapping.split_at(cut);
    front.cmp(begin).then([last].as_slice().cmp(rest)).is_lt()
}

/// The character at an index.
fn char_at(chars: &[char], index: usize) -> Option<char>
    ensures { result ≡ slice_get chars.now index }
{
    chars.get(index).copied()
}

/// Whether a mapping begins with these characters and one more.
fn begins_with(mapping: &[char], front: &[char], last: char) -> bool
    ensures { result ≡ starts_with nat_eq mapping.now (front.now ++ last ∷ []) }
{
    let Some(next) = char_at(mapping, front.len()) else {
        return false;
    };
    if next != last {
        return false;
    }
    mapping.starts_with(front)
}

/// Whether a mapping is these characters and one more.
fn is_joined(mapping: &[char], front: &[char], last: char) -> bool
    ensures { result ≡ bytes_eq mapping.now (front.now ++ last ∷ []) }
{
    if mapping.len() != front.len() + 1 {
        return false;
    }
    begins_with(mapping, front, last)
}

/// How many mappings don't come after these characters with one more.
fn mappings_up_to(context: FoundContext<'_>, front: &[char], last: char) -> usize
    requires { IsTrue (has_ascending_mappings (found_context context)) }
    ensures { SplitsMappings (found_context context.entry).mappings
        (front.now ++ last ∷ []) result }
{
    let mut low = 0;
    let mut high = context.len();
    while low < high {
        let middle = low + (high - low) / 2;
        if comes_after(context.mapping(middle).chars, front, last) {
            high = middle;
        } else {
            low = middle + 1;
        }
    }
    low
}

/// The mapping with these characters and one more.
pub(crate) fn find_joined<'d>(
    context: FoundContext<'d>,
    front: &[char],
    last: char,
) -> Option<FoundMapping<'d>>
    requires { IsTrue (has_ascending_mappings (found_context context)) }
    ensures entry { mapping_entry (found_context context.entry).mappings (front.now ++ last ∷ [])
        ≡ option_map (λ m. m.entry) result }
    ensures chars { IfSome result (λ m. m.chars.now ≡ front.now ++ last ∷ []) }
{
    let count = mappings_up_to(context, front, last);
    if count == 0 {
        return None;
    }
    let mapping = context.mapping(count - 1);
    if is_joined(mapping.chars, front, last) {
        Some(mapping)
    } else {
        None
    }
}

/// The first characters of a mapping that goes on after these characters and one more.
fn find_longer<'d>(context: FoundContext<'d>, front: &[char], last: char) -> Option<&'d [char]>
    requires { IsTrue (has_ascending_mappings (found_context context)) }
    ensures some { IfSome result (λ chars. chars.now ≡ front.now ++ last ∷ []) }
    ensures none { result ≡ None
        → are_decided (found_context context.entry).mappings (front.now ++ last ∷ []) ≡ true }
{
    let next = mappings_up_to(context, front, last);
    if next >= context.len() {
        return None;
    }
    let chars = context.mapping(next).chars;
    if begins_with(chars, front, last) {
        Some(&chars[..front.len() + 1])
    } else {
        None
    }
}

/// These characters and one more, where a mapping begins with them.
pub(crate) fn find_begun<'d>(
    context: FoundContext<'d>,
    front: &[char],
    last: char,
) -> Option<&'d [char]>
    requires { IsTrue (has_ascending_mappings (found_context context)) }
    ensures some { IfSome result (λ chars. chars.now ≡ front.now ++ last ∷ []) }
    ensures no_longer { result ≡ None
        → are_decided (found_context context.entry).mappings (front.now ++ last ∷ []) ≡ true }
    ensures none { result ≡ None
        → mapping_entry (found_context context.entry).mappings (front.now ++ last ∷ []) ≡ None }
{
    if let Some(mapping) = find_joined(context, front, last) {
        return Some(mapping.chars);
    }
    find_longer(context, front, last)
}
