//! Names with which texts begin.
ghost use Rattle.std.specs.Prelude.{◌≡◌, ◌≢◌, ◌++◌, ℕ, List, MatchOption};

/// What stands behind a name with which a text begins.
pub(crate) fn behind_name<'a>(text: &'a str, name: &str) -> Option<&'a str>
    ensures { MatchOption result
        ((behind : List ℕ) → text.now ≢ name.now ++ behind)
        (λ behind. text.now ≡ name.now ++ behind.now) }
{
    text.strip_prefix(name)
}
