//! Texts that are read already.

ghost use Rattle.std.specs.Prelude.{take};
ghost use Rattle.std.specs.Char.{IsScalar};
ghost use Rattle.std.specs.List.{AllByRecursion};

use crate::EncodedText;

/// The characters of a text, each of which is one unit.
#[derive(Clone, Copy)]
pub struct CharsText<'a>(pub &'a [char]);

/// Each character is a scalar value.
fn are_scalar_values(characters: &[char])
    ensures { AllByRecursion IsScalar characters.now }
{
    let mut rest = characters;
    'characters: while let [first, others @ ..] = rest {
        is_scalar_value(*first);
        rest = others;
    }
}

/// A character is a scalar value.
fn is_scalar_value(c: char)
    ensures { IsScalar c }
{}

impl<'a> EncodedText for CharsText<'a> {
    ghost text = { λ t. t.0.now };

    ghost units = { λ t. t.0.now };

    ghost beginning = { λ t n. take n t.0.now };

    #[inline(always)]
    fn split_first_char(self) -> Option<(char, Self)> {
        let (first, rest) = self.0.split_first()?;
        Some((*first, CharsText(rest)))
    }

    #[inline(always)]
    fn split_first_ascii(self) -> Option<(u8, Self)> {
        match self.0 {
            [first, rest @ ..] if *first < '\u{80}' => Some((*first as u8, CharsText(rest))),
            _ => None,
        }
    }

    fn has_scalar_values(self) {
        are_scalar_values(self.0);
    }

    #[inline]
    fn unit_count(self) -> usize {
        self.0.len()
    }

    #[inline]
    fn split_at(self, at: usize) -> Option<Self> {
        let (_, rest) = self.0.split_at_checked(at)?;
        Some(CharsText(rest))
    }
}
