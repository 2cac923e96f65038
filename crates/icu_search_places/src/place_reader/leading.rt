//! Characters that lead.

ghost use Rattle.std.specs.Prelude.{◌≡◌};
ghost use Rattle.ucd_normal.specs.declared.forms.Form.TheVariants.{Nfd};
ghost use Rattle.unicode_normalization.specs.Decompose.{decompose};
ghost use Rattle.icu_search_places.specs.SearchPlaces.{first_leads, is_follower, leads};

use ucd_normal::quick_check;
use unicode_normalization::char::{canonical_combining_class, decomposition};
use unicode_normalization::{Form, QuickCheck};

/// Whether a character may stand behind the first one of a canonical decomposition.
fn is_follower(c: char) -> bool
    ensures { result ≡ is_follower c }
{
    let may_compose = match quick_check(c, Form::Nfc) {
        QuickCheck::Maybe => true,
        _ => false,
    };
    may_compose || c == '\u{FB5}' || c == '\u{FB7}'
}

/// Whether a character leads: it is a starter and no follower (UTS #10, "Searching and Matching"; UAX #15,
/// "Normalization Forms").
pub fn leads(c: char) -> bool
    ensures { result ≡ leads c }
{
    canonical_combining_class(c) == 0 && !is_follower(c)
}

/// Whether the canonical decomposition of a character begins with one that leads.
pub fn begins_letter(c: char) -> bool
    ensures { result ≡ first_leads (decompose Nfd c) }
{
    let mut room = [c; 3];
    match decomposition(c, Form::Nfd, &mut room) {
        [first, ..] => leads(*first),
        [] => false,
    }
}
