//! A collator at the primary level alone.

ghost use Rattle.std.specs.Prelude.{◌≡◌};
ghost use Rattle.icu_collator.specs.Collators.{collation_borrowed};
ghost use Rattle.icu_order_texts.specs.text_beginnings.TextBeginnings.{primary_collation};

use crate::CollatorBorrowed;
use crate::options::{CaseLevel, CollatorOptions, CollatorPreferences, Strength};

/// The collator of the same tables and settings at the primary level alone: with the strength Primary, and without a
/// case level. Copies nothing of the tables, and does not allocate.
pub fn primary_collator<'a>(collator: &CollatorBorrowed<'a>) -> CollatorBorrowed<'a>
    ensures { collation_borrowed result ≡ primary_collation (collation_borrowed collator.now) }
{
    let resolved = collator.resolved_options();
    let options = CollatorOptions {
        strength: Some(Strength::Primary),
        case_level: Some(CaseLevel::Off),
        ..CollatorOptions::from(resolved)
    };
    match collator.with_options(CollatorPreferences::from(resolved), options) {
        Some(primary) => primary,
        None => unreachable!(),
    }
}
