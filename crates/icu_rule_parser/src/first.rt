//! The first character of a text, and what follows it.
ghost use Rattle.std.specs.Prelude.{◌≡◌, ◌≢◌, ℕ, List, [], ◌∷◌, MatchOption};

/// The first character and what follows it.
pub(crate) fn split_first(text: &[char]) -> Option<(char, &[char])>
    ensures { MatchOption result (text.now ≡ []) (λ r. text.now ≡ r.0 ∷ r.1.now) }
{
    match text {
        [] => None,
        [c, after @ ..] => Some((*c, after)),
    }
}

/// What follows this character, if the text begins with it.
pub(crate) fn behind(text: &[char], sign: char) -> Option<&[char]>
    ensures { MatchOption result
        ((rest : List ℕ) → text.now ≢ sign ∷ rest)
        (λ rest. text.now ≡ sign ∷ rest.now) }
{
    let (c, after) = split_first(text)?;
    if c == sign { Some(after) } else { None }
}
