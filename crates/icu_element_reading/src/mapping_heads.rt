//! Mappings of a context, by the characters that they begin with.

ghost use Rattle.std.specs.Prelude.{◌≡◌, IsTrue};
ghost use Rattle.icu_table_data.specs.Contexts.{has_ascending_mappings};
ghost use Rattle.icu_table_data.specs.StoredData.{found_context};
ghost use Rattle.icu_element_reading.specs.inner.StepsTaken.{FirstIsEarlier, FirstIsLater, NoneBeginsWith};

use icu_table_data::FoundContext;

/// Whether characters begin with a later one.
#[inline(always)]
fn begins_above(chars: &[char], d: char) -> bool
    ensures { IsTrue result → FirstIsLater d chars.now }
{
    match chars.first().copied() {
        Some(first) => d < first,
        None => false,
    }
}

/// Whether characters begin with an earlier one.
#[inline(always)]
fn begins_below(chars: &[char], d: char) -> bool
    ensures { IsTrue result → FirstIsEarlier d chars.now }
{
    match chars.first().copied() {
        Some(first) => first < d,
        None => false,
    }
}

/// Whether no mapping of a context begins with a character, since all begin with later ones, or all with earlier ones.
/// False says nothing.
#[inline(always)]
pub fn none_begins_with(context: FoundContext<'_>, d: char) -> bool
    requires { IsTrue (has_ascending_mappings (found_context context)) }
    ensures { IsTrue result → NoneBeginsWith (found_context context.entry).mappings d }
{
    let count = context.len();
    if count == 0 {
        return true;
    }
    let first = context.mapping(0);
    if begins_above(first.chars, d) {
        return true;
    }
    let last = context.mapping(count - 1);
    begins_below(last.chars, d)
}
