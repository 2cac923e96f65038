//! Lists of words, alone or in rows of three.
ghost use Rattle.std.specs.Prelude.{◌≡◌, ℕ, ◌<◌, List, [], ◌∷◌, ◌&&◌, MatchOption, IfSome, Some, None, length, bytes_eq};
ghost use Rattle.std.specs.Option.{option_copied};
ghost use Rattle.icu_cldr_locales.specs.resolution.ListedWords.{words_of, value_in_rows, value_listed, value_or, is_word_of};
ghost use Rattle.icu_cldr_locales.specs.resolution.WordsLeft.{words_left, bytes_unread};

/// The word before the first space, and what stands behind that.
fn first_word(text: &str) -> (&str, Option<&str>)
    ensures parts { MatchOption result.1
        (words_of text.now ≡ result.0.now ∷ [])
        (λ rest. words_of text.now ≡ result.0.now ∷ words_of rest.now) }
    ensures shorter { IfSome result.1 (λ rest. length rest.now < length text.now) }
{
    match text.split_once(' ') {
        Some((word, rest)) => (word, Some(rest)),
        None => (text, None),
    }
}

/// The next word of what is left of a list, and what is left behind it.
fn next_word<'d>(left: Option<&'d str>) -> Option<(&'d str, Option<&'d str>)>
    ensures words { MatchOption result (words_left left.entry ≡ [])
        (λ next. words_left left.entry ≡ next.0.now ∷ words_left next.1) }
    ensures shorter { IfSome result (λ next. bytes_unread next.1 < bytes_unread left.entry) }
{
    match left {
        Some(text) => Some(first_word(text)),
        None => None,
    }
}

/// A row of a list.
#[derive(Clone, Copy)]
struct ListRow<'d> {
    /// What the row is about.
    first: &'d str,
    /// What stands with that, or nothing.
    second: &'d str,
    /// What the list has for it.
    value: &'d str,
}

/// The next row of what is left of a list, and what is left behind it.
fn next_row<'d>(left: Option<&'d str>) -> Option<(ListRow<'d>, Option<&'d str>)>
    ensures rows { MatchOption result
        ((first second : List ℕ) → value_in_rows first second (words_left left.entry) ≡ None)
        (λ next. words_left left.entry
        ≡ next.0.first.now ∷ next.0.second.now ∷ next.0.value.now ∷ words_left next.1) }
    ensures shorter { IfSome result (λ next. bytes_unread next.1 < bytes_unread left.entry) }
{
    let (first, rest) = next_word(left)?;
    let (second, rest) = next_word(rest)?;
    let (value, rest) = next_word(rest)?;
    let row = ListRow {
        first,
        second,
        value,
    };
    Some((row, rest))
}

/// Whether a row is about a subtag and another one that stands with it.
fn is_row_of(row: ListRow<'_>, first: &str, second: &str) -> bool
    ensures { result ≡ (bytes_eq row.entry.first.now first.now
        && bytes_eq row.entry.second.now second.now) }
{
    row.first == first && row.second == second
}

/// What a list has for a subtag and another one that stands with it, which may be empty.
pub(crate) fn value_listed<'d>(list: &'d str, first: &str, second: &str) -> Option<&'d str>
    ensures { option_copied result ≡ value_listed list.now first.now second.now }
{
    let mut left = Some(list);
    'reading: while let Some((row, rest)) = next_row(left) {
        if is_row_of(row, first, second) {
            return Some(row.value);
        }
        left = rest;
    }
    None
}

/// What a list has for a subtag and another one that stands with it, or else another value.
pub(crate) fn value_or<'d>(list: &'d str, first: &str, second: &str, other: &'d str) -> &'d str
    ensures { result.now ≡ value_or list.now first.now second.now other.now }
{
    match value_listed(list, first, second) {
        Some(value) => value,
        None => other,
    }
}

/// Whether a word is one of a list.
pub(crate) fn is_word_of(list: &str, word: &str) -> bool
    ensures { result ≡ is_word_of list.now word.now }
{
    let mut left = Some(list);
    'reading: while let Some((next, rest)) = next_word(left) {
        if next == word {
            return true;
        }
        left = rest;
    }
    false
}
