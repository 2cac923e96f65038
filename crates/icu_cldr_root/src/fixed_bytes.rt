//! The bytes that a file fixes.
ghost use Rattle.std.specs.Prelude.{◌≡◌, ◌++◌, IfOk, MatchOption};
ghost use Rattle.icu_cldr_root.specs.FixedBytes.{fixed_name, is_last_name, NamesNoByte, WritesByte};

use crate::expected::Expected;
use crate::hexadecimal::byte;
use crate::names::behind_name;

/// Which byte a line fixes: a lead byte of primary weights, or a byte of secondary or tertiary weights.
#[derive(Debug, Clone, Copy, PartialEq, Eq)]
pub enum FixedName {
    /// The first lead byte of unassigned characters' weights, as the file has them.
    FirstImplicit,
    /// The last of these.
    LastImplicit,
    /// The first lead byte of the weights behind them.
    FirstTrail,
    /// The last of these.
    LastTrail,
    /// The first lead byte that is kept from weights of texts.
    FirstSpecial,
    /// The last of these.
    LastSpecial,
    /// The common secondary weight.
    SecondaryCommon,
    /// The last byte that stands for runs of it in sort keys, of which it is the first.
    LastSecondaryCommon,
    /// The first byte of secondary weights beside which no primary weight stands.
    FirstIgnorableSecondary,
    /// The common tertiary weight.
    TertiaryCommon,
    /// The first byte of tertiary weights beside which no other weight stands. The line that says it is the last of a
    /// file.
    FirstIgnorableTertiary,
}

/// All names.
const FIXED_NAMES: [FixedName; 11] = [
    FixedName::FirstImplicit,
    FixedName::LastImplicit,
    FixedName::FirstTrail,
    FixedName::LastTrail,
    FixedName::FirstSpecial,
    FixedName::LastSpecial,
    FixedName::SecondaryCommon,
    FixedName::LastSecondaryCommon,
    FixedName::FirstIgnorableSecondary,
    FixedName::TertiaryCommon,
    FixedName::FirstIgnorableTertiary,
];

/// A byte that a line fixes: `[fixed first implicit byte E0]`.
#[derive(Clone, Copy, PartialEq, Eq)]
pub struct FixedByte {
    /// Which one.
    pub name: FixedName,
    /// The byte.
    pub byte: u8,
}

impl FixedName {
    /// What a line begins with, in brackets, that fixes the byte.
    fn text(self) -> &'static str
        ensures { result.now ≡ fixed_name self }
    {
        match self {
            FixedName::FirstImplicit => "fixed first implicit byte ",
            FixedName::LastImplicit => "fixed last implicit byte ",
            FixedName::FirstTrail => "fixed first trail byte ",
            FixedName::LastTrail => "fixed last trail byte ",
            FixedName::FirstSpecial => "fixed first special byte ",
            FixedName::LastSpecial => "fixed last special byte ",
            FixedName::SecondaryCommon => "fixed secondary common byte ",
            FixedName::LastSecondaryCommon => "fixed last secondary common byte ",
            FixedName::FirstIgnorableSecondary => "fixed first ignorable secondary byte ",
            FixedName::TertiaryCommon => "fixed tertiary common byte ",
            FixedName::FirstIgnorableTertiary => "fixed first ignorable tertiary byte ",
        }
    }

    /// Whether the file's last line fixes it.
    pub(crate) fn is_last(self) -> bool
        ensures { result ≡ is_last_name self }
    {
        matches!(self, FixedName::FirstIgnorableTertiary)
    }
}

/// The byte that a text names at its beginning, and what stands behind the name.
fn named_byte(text: &str) -> Option<(FixedName, &str)>
    ensures { MatchOption result (NamesNoByte text.now)
        (λ named. text.now ≡ fixed_name named.0 ++ named.1.now) }
{
    for name in FIXED_NAMES {
        if let Some(word) = behind_name(text, name.text()) {
            return Some((name, word));
        }
    }
    None
}

impl FixedByte {
    /// Reads what stands in the brackets of a line, if it names a byte; one that isn't written is refused.
    pub(crate) fn parse(text: &str) -> Result<Option<FixedByte>, Expected>
        ensures { IfOk result (λ read.
            MatchOption read (NamesNoByte text.now) (WritesByte text.now)) }
    {
        let Some((name, word)) = named_byte(text) else {
            return Ok(None);
        };
        match byte(word) {
            Some(byte) => Ok(Some(FixedByte { name, byte })),
            None => Err(Expected::Byte),
        }
    }
}
