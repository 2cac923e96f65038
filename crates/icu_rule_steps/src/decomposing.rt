//! Strings of rules, decomposed.
ghost use Rattle.std.specs.Prelude.{◌≡◌, IfOk};
ghost use Rattle.unicode_normalization.specs.Forms.{nfd};

use std::alloc::{AllocError, Global};
use unicode_normalization::slice::extend_nfd;

/// The canonical decomposition of a string (UAX #15, "Normalization Forms").
pub(crate) fn decomposed(alloc: Global, string: &[char]) -> Result<Vec<char>, AllocError>
    ensures { IfOk result (λ found. found.items ≡ nfd string.now) }
{
    let mut found = Vec::new(alloc);
    extend_nfd(&mut found, string)?;
    Ok(found)
}
