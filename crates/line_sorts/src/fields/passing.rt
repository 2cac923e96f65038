//! A line without what stands at its beginning.

ghost use Rattle.std.specs.Prelude.{◌≡◌, ◌==◌, not, drop};
ghost use Rattle.line_sorts.specs.fields.LineFields.{drop_while, continues_char, is_blank_byte, is_no_blank, past_char};

/// Whether a byte is a space, a tab or a line feed.
pub(crate) fn is_blank_byte(byte: u8) -> bool
    ensures { result ≡ is_blank_byte byte }
{
    byte == b' ' || byte == b'\t' || byte == b'\n'
}

/// A line without the blanks at its beginning.
pub(crate) fn past_blanks(line: &[u8]) -> &[u8]
    ensures { result.now ≡ drop_while is_blank_byte line.entry.now }
{
    let mut left = line;
    'passing: while let [first, rest @ ..] = left {
        if !is_blank_byte(*first) {
            return left;
        }
        left = rest;
    }
    left
}

/// A line from its first blank on.
pub(crate) fn from_blank(line: &[u8]) -> &[u8]
    ensures { result.now ≡ drop_while is_no_blank line.entry.now }
{
    let mut left = line;
    'passing: while let [first, rest @ ..] = left {
        if is_blank_byte(*first) {
            return left;
        }
        left = rest;
    }
    left
}

/// A line from the first of these bytes on.
pub(crate) fn from_byte(line: &[u8], byte: u8) -> &[u8]
    ensures { result.now ≡ drop_while (λ b. not (b == byte)) line.entry.now }
{
    let mut left = line;
    'passing: while let [first, rest @ ..] = left {
        if *first == byte {
            return left;
        }
        left = rest;
    }
    left
}

/// A line without its first byte.
pub(crate) fn past_byte(line: &[u8]) -> &[u8]
    ensures { result.now ≡ drop 1 line.entry.now }
{
    match line {
        [_, rest @ ..] => rest,
        [] => line,
    }
}

/// Whether a byte goes on a character.
fn continues_char(byte: u8) -> bool
    ensures { result ≡ continues_char byte }
{
    128 <= byte && byte <= 191
}

/// A line from the first byte on that goes on no character.
fn past_going_on(line: &[u8]) -> &[u8]
    ensures { result.now ≡ drop_while continues_char line.entry.now }
{
    let mut left = line;
    'passing: while let [first, rest @ ..] = left {
        if !continues_char(*first) {
            return left;
        }
        left = rest;
    }
    left
}

/// A line without its first character.
pub(crate) fn past_char(line: &[u8]) -> &[u8]
    ensures { result.now ≡ past_char line.entry.now }
{
    match line {
        [_, rest @ ..] => past_going_on(rest),
        [] => line,
    }
}
