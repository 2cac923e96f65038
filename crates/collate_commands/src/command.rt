//! What the words of a command line ask for.
ghost use Rattle.std.specs.Prelude.{◌≡◌, map, string_bytes, option_map};
ghost use Rattle.collate_commands.specs.Commands.{command_of, strength_named};

use icu_options::Strength;

/// The order of two texts at a strength.
#[derive(Clone, Copy)]
pub(crate) struct Comparison<'a> {
    pub(crate) strength: Strength,
    pub(crate) left: &'a str,
    pub(crate) right: &'a str,
}

/// The sort key of a text at a strength.
#[derive(Clone, Copy)]
pub(crate) struct KeyOf<'a> {
    pub(crate) strength: Strength,
    pub(crate) text: &'a str,
}

/// What the words of a command line ask for.
#[derive(Clone, Copy)]
pub(crate) enum Command<'a> {
    Compare(Comparison<'a>),
    Key(KeyOf<'a>),
    /// The lines of the input, sorted at this strength.
    Sort(Strength),
}

/// The strength that a word names.
pub fn strength_named(word: &str) -> Option<Strength>
    ensures { result ≡ strength_named word.now }
{
    match word {
        "1" => Some(Strength::Primary),
        "2" => Some(Strength::Secondary),
        "3" => Some(Strength::Tertiary),
        "4" => Some(Strength::Quaternary),
        "i" => Some(Strength::Identical),
        _ => None,
    }
}

impl<'a> Command<'a> {
    ghost use Rattle.collate_commands.specs.inner.Asked.{asked};
    ghost use Rattle.collate_commands.specs.Commands.{strength_of};

    /// The strength that is asked for.
    pub(crate) fn strength(self) -> Strength
        ensures { result ≡ strength_of (asked self.entry) }
    {
        match self {
            Command::Compare(texts) => texts.strength,
            Command::Key(of) => of.strength,
            Command::Sort(strength) => strength,
        }
    }

    /// What the words ask for, if they are right.
    pub(crate) fn parse(words: &'a [String]) -> Option<Command<'a>>
        ensures { option_map asked result ≡ command_of (map string_bytes words.entry.now) }
    {
        match words {
            [name, strength, left, right] if name.as_str() == "compare" => {
                let strength = strength_named(strength.as_str())?;
                Some(Command::Compare(Comparison {
                    strength,
                    left: left.as_str(),
                    right: right.as_str(),
                }))
            }
            [name, strength, text] if name.as_str() == "key" => {
                let strength = strength_named(strength.as_str())?;
                Some(Command::Key(KeyOf {
                    strength,
                    text: text.as_str(),
                }))
            }
            [name, strength] if name.as_str() == "sort" => {
                let strength = strength_named(strength.as_str())?;
                Some(Command::Sort(strength))
            }
            _ => None,
        }
    }
}
