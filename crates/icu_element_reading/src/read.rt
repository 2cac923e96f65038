//! The decomposition of a text, read whole.

ghost use Rattle.std.specs.Prelude.{◌≡◌, ℕ, List, IfOk};
ghost use Rattle.std.specs.Iterator.{IsFinite};
ghost use Rattle.unicode_normalization.specs.Decompositions.{CanDecompose, DecomposesTo};
ghost use Rattle.unicode_normalization.specs.Forms.{nfd};
ghost use Rattle.unicode_normalization.specs.Iter.{Spells};

use std::alloc::{AllocError, Global};
use unicode_normalization::Decompositions;

/// The canonical decomposition of the text that an iterator spells (UAX #15, "Normalization Forms"). Fails only where
/// an allocation does.
pub fn decomposed_text<I: Iterator<Item = char> + Drop>(
    alloc: Global,
    delegate: I,
) -> Result<Vec<char>, AllocError>
    requires can { I.can_next delegate }
    requires ends { IsFinite (I.remaining delegate) }
    ensures { (cs : List ℕ) → Spells I.next_gives delegate cs
        → IfOk result (λ text. text.items ≡ nfd cs) }
{
    let mut source = Decompositions::new_canonical(alloc, delegate);
    whole_text(alloc, &mut source)
}

/// The whole text that a source has left.
pub(crate) fn whole_text<I: Iterator<Item = char> + Drop>(
    alloc: Global,
    source: &mut Decompositions<I>,
) -> Result<Vec<char>, AllocError>
    requires { CanDecompose I.can_next I.remaining source.old }
    ensures { (cs : List ℕ) → DecomposesTo I.next_gives source.old cs
        → IfOk result (λ text. text.items ≡ cs) }
{
    let mut text = Vec::new(alloc);
    while let Some(item) = source.next() {
        text.push(item?)?;
    }
    Ok(text)
}
