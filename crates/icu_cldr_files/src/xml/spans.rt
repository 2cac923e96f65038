//! Where a text begins with a mark or a run of characters of a class, and where a mark occurs in it.
ghost use Rattle.std.specs.Prelude.{◌≡◌, ◌≢◌, ℕ, ◌<◌, ◌≤◌, ◌++◌, List, length, slice_index, take, IsTrue, MatchOption};
ghost use Rattle.icu_cldr_files.specs.xml.SpelledParts.{IsCutBefore, IsCutAround, LacksText};
ghost use Rattle.icu_cldr_files.specs.xml.XmlCharacters.{is_of, is_space, is_name_start, is_name_byte, EachIs};

/// A class of characters of ASCII.
#[derive(Clone, Copy)]
pub(crate) enum Class {
    /// White space.
    Space,
    /// The characters of names.
    Name,
}

fn is_space(byte: u8) -> bool
    ensures { result ≡ is_space byte }
{
    byte == b' ' || byte == b'\t' || byte == b'\n'
}

/// Whether a name begins with a character.
pub(crate) fn is_name_start(byte: u8) -> bool
    ensures { result ≡ is_name_start byte }
{
    matches!(byte, b'a'..=b'z' | b'A'..=b'Z' | b'_' | b':')
}

fn is_name_byte(byte: u8) -> bool
    ensures { result ≡ is_name_byte byte }
{
    is_name_start(byte) || matches!(byte, b'0'..=b'9' | b'-' | b'.')
}

fn is_of(class: Class, byte: u8) -> bool
    ensures value { result ≡ is_of class byte }
    ensures ascii { IsTrue result → byte < 128 }
{
    match class {
        Class::Space => is_space(byte),
        Class::Name => is_name_byte(byte),
    }
}

/// How many bytes of a class a text begins with.
fn run_len(bytes: &[u8], class: Class) -> usize
    ensures bound { result ≤ length bytes.now }
    ensures each { (k : ℕ) → k < result → IsTrue (is_of class (slice_index bytes.now k)) }
    ensures ascii { (k : ℕ) → k < result → slice_index bytes.now k < 128 }
{
    for (i, byte) in bytes.iter().enumerate() {
        if !is_of(class, *byte) {
            return i;
        }
    }
    bytes.len()
}

/// The characters of a class that a text begins with, and the rest.
pub(crate) fn run(text: &str, class: Class) -> (&str, &str)
    ensures whole { text.now ≡ result.0.now ++ result.1.now }
    ensures each { EachIs class result.0.now }
{
    let count = run_len(text.as_bytes(), class);
    text.split_at(count)
}

/// What stands behind a mark with which a text begins.
pub(crate) fn behind<'t>(text: &'t str, mark: &str) -> Option<&'t str>
    ensures { MatchOption result
        ((rest : List ℕ) → text.now ≢ mark.now ++ rest)
        (λ rest. text.now ≡ mark.now ++ rest.now) }
{
    text.strip_prefix(mark)
}

/// A text up to a mark, and from it on, where it occurs for the first time.
pub(crate) fn cut_before<'t>(text: &'t str, mark: &str) -> Option<(&'t str, &'t str)>
    requires { 0 < length mark.now }
    ensures { MatchOption result
        (LacksText mark.now text.now)
        (λ parts. IsCutBefore mark.now text.now parts.0.now parts.1.now) }
{
    match text.find(mark) {
        Some(at) => Some(text.split_at(at)),
        None => None,
    }
}

/// A text up to a mark, and behind it, where it occurs for the first time.
pub(crate) fn cut_around<'t>(text: &'t str, mark: &str) -> Option<(&'t str, &'t str)>
    requires { 0 < length mark.now }
    ensures { MatchOption result
        (LacksText mark.now text.now)
        (λ parts. IsCutAround mark.now text.now parts.0.now parts.1.now) }
{
    text.split_once(mark)
}
