//! White space and comments.
ghost use Rattle.std.specs.Prelude.{◌≡◌, ◌≤◌, length, [], IfOk};
ghost use Rattle.icu_rule_parser.specs.RuleCharacters.{is_white, is_line_end, is_syntax, is_plain, is_word_character, BeginsNoBlank};
ghost use Rattle.icu_rule_parser.specs.TakenText.{SkipsWhite, SkipsLine, Takes};

use crate::first::split_first;

/// Whether a character is white space.
#[tactic(auto, unfolding(crate::specs::RuleCharacters::is_white))]
pub(crate) fn is_white(c: char) -> bool
    ensures { result ≡ is_white c }
{
    ('\t'..='\r').contains(&c)
        || c == ' '
        || c == '\u{85}'
        || c == '\u{200E}'
        || c == '\u{200F}'
        || c == '\u{2028}'
        || c == '\u{2029}'
}

/// Whether a character ends a line.
#[tactic(auto, unfolding(crate::specs::RuleCharacters::is_line_end))]
fn is_line_end(c: char) -> bool
    ensures { result ≡ is_line_end c }
{
    c == '\n' || c == '\u{C}' || c == '\r' || c == '\u{85}' || c == '\u{2028}' || c == '\u{2029}'
}

/// Whether a character stands for itself only if it is quoted.
#[tactic(auto, unfolding(crate::specs::RuleCharacters::is_syntax))]
fn is_syntax(c: char) -> bool
    ensures { result ≡ is_syntax c }
{
    ('!' <= c && c <= '/')
        || (':' <= c && c <= '@')
        || ('[' <= c && c <= '`')
        || ('{' <= c && c <= '~')
}

/// Whether a character stands for itself in a string.
#[tactic(auto, unfolding(crate::specs::RuleCharacters::is_plain))]
pub(crate) fn is_plain(c: char) -> bool
    ensures { result ≡ is_plain c }
{
    !is_white(c) && !is_syntax(c)
}

/// Whether a character may stand in a word in brackets.
#[tactic(auto, unfolding(crate::specs::RuleCharacters::is_word_character))]
pub(crate) fn is_word_character(c: char) -> bool
    ensures { result ≡ is_word_character c }
{
    is_plain(c) || c == '-' || c == '_'
}

/// What follows the white space that a text begins with.
pub(crate) fn skip_white(text: &[char]) -> &[char]
    ensures skips { SkipsWhite text.now result.now }
    ensures len { length result.now ≤ length text.now }
{
    let mut rest = text;
    while let Some((c, after)) = split_first(rest) {
        if !is_white(c) {
            return rest;
        }
        rest = after;
    }
    rest
}

/// What follows the line that a comment stands in.
fn skip_line(text: &[char]) -> &[char]
    ensures skips { SkipsLine text.now result.now }
    ensures len { length result.now ≤ length text.now }
{
    let mut rest = text;
    while let Some((c, after)) = split_first(rest) {
        rest = after;
        if is_line_end(c) {
            return rest;
        }
    }
    rest
}

/// What follows the white space and the comments that a text begins with.
pub(crate) fn skip_blanks(text: &[char]) -> &[char]
    ensures takes { Takes text.now [] result.now }
    ensures ends { BeginsNoBlank result.now }
    ensures len { length result.now ≤ length text.now }
{
    let mut rest = text;
    while let Some((c, after)) = split_first(rest) {
        if c == '#' {
            rest = skip_line(after);
        } else if is_white(c) {
            rest = after;
        } else {
            return rest;
        }
    }
    rest
}
