//! The form of each kind of subtag, and which may stand behind which.
ghost use Rattle.std.specs.Prelude.{◌≡◌};
ghost use Rattle.std.specs.List.{list_all, find};
ghost use Rattle.icu_cldr_locales.specs.Subtags.{is_letter, is_digit, is_alphanumeric, has_length};
ghost use Rattle.icu_cldr_locales.specs.Subtags.{is_subtag, is_the_letter, consists_of, kinds_behind};
ghost use Rattle.icu_cldr_locales.specs.Subtags.{kind_behind, may_end_behind, stands_once};

use crate::subtag::SubtagKind;

fn is_letter(byte: u8) -> bool
    ensures { result ≡ is_letter byte }
{
    matches!(byte, b'a'..=b'z' | b'A'..=b'Z')
}

fn is_digit(byte: u8) -> bool
    ensures { result ≡ is_digit byte }
{
    matches!(byte, b'0'..=b'9')
}

fn is_alphanumeric(byte: u8) -> bool
    ensures { result ≡ is_alphanumeric byte }
{
    is_letter(byte) || is_digit(byte)
}

/// Whether a subtag has so many bytes.
fn has_length(subtag: &[u8], low: usize, high: usize) -> bool
    ensures { result ≡ has_length low high subtag.now }
{
    low <= subtag.len() && subtag.len() <= high
}

fn has_letters(subtag: &[u8]) -> bool
    ensures { result ≡ list_all is_letter subtag.now }
{
    subtag.iter().all(|byte| is_letter(*byte))
}

fn has_digits(subtag: &[u8]) -> bool
    ensures { result ≡ list_all is_digit subtag.now }
{
    subtag.iter().all(|byte| is_digit(*byte))
}

fn has_letters_and_digits(subtag: &[u8]) -> bool
    ensures { result ≡ list_all is_alphanumeric subtag.now }
{
    subtag.iter().all(|byte| is_alphanumeric(*byte))
}

/// Whether this is one to eight letters and digits.
#[tactic(auto, unfolding(crate::specs::Subtags::is_subtag))]
fn is_subtag(part: &[u8]) -> bool
    ensures { result ≡ is_subtag part.now }
{
    has_length(part, 1, 8) && has_letters_and_digits(part)
}

/// Whether a subtag is one letter, given in lower case.
fn is_the_letter(subtag: &[u8], letter: u8) -> bool
    ensures { result ≡ is_the_letter letter subtag.now }
{
    match subtag {
        [byte] => byte.to_ascii_lowercase() == letter,
        _ => false,
    }
}

/// Whether a subtag has the form of a kind.
#[tactic(auto, unfolding(crate::specs::Subtags::consists_of))]
fn is_of(kind: SubtagKind, subtag: &[u8]) -> bool
    ensures { result ≡ consists_of kind subtag.now }
{
    match kind {
        SubtagKind::Language => {
            (has_length(subtag, 2, 3) || has_length(subtag, 5, 8)) && has_letters(subtag)
        }
        SubtagKind::Script => has_length(subtag, 4, 4) && has_letters(subtag),
        SubtagKind::Region => {
            has_length(subtag, 2, 2) && has_letters(subtag)
                || has_length(subtag, 3, 3) && has_digits(subtag)
        }
        SubtagKind::Variant => {
            has_length(subtag, 5, 8) || has_length(subtag, 4, 4) && is_digit(subtag[0])
        }
        SubtagKind::UnicodeExtension => is_the_letter(subtag, b'u'),
        SubtagKind::Attribute | SubtagKind::TypePart => has_length(subtag, 3, 8),
        SubtagKind::Key => has_length(subtag, 2, 2) && is_letter(subtag[1]),
        SubtagKind::OtherExtension => {
            has_length(subtag, 1, 1)
                && !(is_the_letter(subtag, b'u') || is_the_letter(subtag, b'x'))
        }
        SubtagKind::ExtensionPart => has_length(subtag, 2, 8),
        SubtagKind::PrivateUse => is_the_letter(subtag, b'x'),
        SubtagKind::PrivatePart => has_length(subtag, 1, 8),
    }
}

/// The kinds of subtags that may stand behind one, or at the beginning.
#[tactic(auto, unfolding(crate::specs::Subtags::kinds_behind))]
fn kinds_behind(last: Option<SubtagKind>) -> &'static [SubtagKind]
    ensures { result.now ≡ kinds_behind last }
{
    use crate::subtag::SubtagKind::*;

    match last {
        None => &[Language],
        Some(Language) => &[
            Script,
            Region,
            Variant,
            UnicodeExtension,
            OtherExtension,
            PrivateUse,
        ],
        Some(Script) => &[
            Region,
            Variant,
            UnicodeExtension,
            OtherExtension,
            PrivateUse,
        ],
        Some(Region | Variant) => &[Variant, UnicodeExtension, OtherExtension, PrivateUse],
        Some(UnicodeExtension) => &[Attribute, Key],
        Some(Attribute) => &[Attribute, Key, UnicodeExtension, OtherExtension, PrivateUse],
        Some(Key | TypePart) => &[TypePart, Key, UnicodeExtension, OtherExtension, PrivateUse],
        Some(OtherExtension) => &[ExtensionPart],
        Some(ExtensionPart) => &[ExtensionPart, UnicodeExtension, OtherExtension, PrivateUse],
        Some(PrivateUse | PrivatePart) => &[PrivatePart],
    }
}

/// The first of some kinds that a subtag has the form of.
fn first_form(kinds: &[SubtagKind], subtag: &[u8]) -> Option<SubtagKind>
    ensures { result ≡ find (λ kind. consists_of kind subtag.now) kinds.now }
{
    kinds.iter().copied().find(|kind| is_of(*kind, subtag))
}

/// The kind of a subtag behind one of a kind, or at the beginning: none where no subtag of that form may stand.
#[tactic(auto, unfolding(crate::specs::Subtags::kind_behind))]
pub(crate) fn kind_behind(last: Option<SubtagKind>, part: &[u8]) -> Option<SubtagKind>
    ensures { result ≡ kind_behind last part.now }
{
    if is_subtag(part) {
        first_form(kinds_behind(last), part)
    } else {
        None
    }
}

/// Whether a tag may end behind a subtag of a kind.
#[tactic(auto, unfolding(crate::specs::Subtags::may_end_behind))]
pub(crate) fn may_end_behind(last: Option<SubtagKind>) -> bool
    ensures { result ≡ may_end_behind last }
{
    !matches!(
        last,
        None | Some(
            SubtagKind::UnicodeExtension | SubtagKind::OtherExtension | SubtagKind::PrivateUse
        )
    )
}

/// Whether a subtag may stand in a tag once.
#[tactic(auto, unfolding(crate::specs::Subtags::stands_once))]
pub(crate) fn stands_once(kind: SubtagKind) -> bool
    ensures { result ≡ stands_once kind }
{
    matches!(
        kind,
        SubtagKind::Variant | SubtagKind::UnicodeExtension | SubtagKind::OtherExtension
    )
}
