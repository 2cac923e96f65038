//! The elements of a file of collations, and which may stand in which, in turn.
ghost use Rattle.std.specs.Prelude.{◌≡◌, Some, None, if◌then◌else◌};
ghost use Rattle.icu_cldr_files.specs.CollationPlaces.{is_part_of_identity, special_at, collation_or_special, place_behind, place_inside, place_outside, holds_text};

/// How deep elements may be nested within a `<special>`.
const DEEPEST: u8 = 64;

/// In which element a `<special>` stands.
#[derive(Clone, Copy)]
pub(crate) enum SpecialPlace {
    /// In `<identity>`.
    Identity,
    /// In `<ldml>`.
    Ldml,
    /// In `<collations>`.
    Collations,
    /// In `<collation>`.
    Collation,
}

/// How far a file is read: in which element, and behind which ones in it.
#[derive(Clone, Copy)]
pub(crate) enum CollationPlace {
    /// Outside of the root element.
    Outside,
    /// In `<ldml>`, before anything else.
    Ldml,
    /// In `<identity>`.
    Identity,
    /// In an element of `<identity>`.
    IdentityPart,
    /// In `<ldml>`, behind `<identity>`.
    BehindIdentity,
    /// In `<collations>`, before anything else.
    Collations,
    /// In `<defaultCollation>`.
    DefaultType,
    /// In `<collations>`, behind an element.
    NextCollation,
    /// In `<collation>`, before any `<special>`.
    Collation,
    /// In `<cr>`.
    Rules,
    /// In `<collation>`, behind `<special>`.
    BehindSpecial,
    /// In `<ldml>`, behind `<collations>` or `<special>`.
    BehindCollations,
    /// In a `<special>`, or so many elements within it.
    Special(SpecialPlace, u8),
}

fn is_part_of_identity(name: &str) -> bool
    ensures { result ≡ is_part_of_identity name.now }
{
    matches!(
        name,
        "version" | "generation" | "language" | "script" | "territory" | "variant"
    )
}

/// A place, where a test holds.
fn where_true(test: bool, place: CollationPlace) -> Option<CollationPlace>
    ensures { result ≡ (if test then Some place else None) }
{
    if test { Some(place) } else { None }
}

/// The place in a `<special>`, if the name is that.
fn special_at(name: &str, stands: SpecialPlace) -> Option<CollationPlace>
    ensures { result ≡ special_at name.now stands }
{
    where_true(name == "special", CollationPlace::Special(stands, 0))
}

/// The place in a `<collation>` or a `<special>` of `<collations>`, if the name is one of these.
fn collation_or_special(name: &str) -> Option<CollationPlace>
    ensures { result ≡ collation_or_special name.now }
{
    if name == "collation" {
        return Some(CollationPlace::Collation);
    }
    special_at(name, SpecialPlace::Collations)
}

/// The place behind a `<special>`.
fn place_behind(stands: SpecialPlace) -> CollationPlace
    ensures { result ≡ place_behind stands }
{
    match stands {
        SpecialPlace::Identity => CollationPlace::Identity,
        SpecialPlace::Ldml => CollationPlace::BehindCollations,
        SpecialPlace::Collations => CollationPlace::NextCollation,
        SpecialPlace::Collation => CollationPlace::BehindSpecial,
    }
}

/// The place in an element of this name, which starts at a place; `None` where it may not.
#[tactic(auto, unfolding(crate::specs::CollationPlaces::place_inside))]
pub(crate) fn place_inside(place: CollationPlace, name: &str) -> Option<CollationPlace>
    ensures { result ≡ place_inside place name.now }
{
    match place {
        CollationPlace::Outside => where_true(name == "ldml", CollationPlace::Ldml),
        CollationPlace::Ldml => where_true(name == "identity", CollationPlace::Identity),
        CollationPlace::Identity => {
            if is_part_of_identity(name) {
                return Some(CollationPlace::IdentityPart);
            }
            special_at(name, SpecialPlace::Identity)
        }
        CollationPlace::BehindIdentity => {
            if name == "collations" {
                return Some(CollationPlace::Collations);
            }
            special_at(name, SpecialPlace::Ldml)
        }
        CollationPlace::Collations => {
            if name == "defaultCollation" {
                return Some(CollationPlace::DefaultType);
            }
            collation_or_special(name)
        }
        CollationPlace::NextCollation => collation_or_special(name),
        CollationPlace::Collation => {
            if name == "cr" {
                return Some(CollationPlace::Rules);
            }
            special_at(name, SpecialPlace::Collation)
        }
        CollationPlace::BehindSpecial => special_at(name, SpecialPlace::Collation),
        CollationPlace::BehindCollations => special_at(name, SpecialPlace::Ldml),
        CollationPlace::Special(stands, depth) => {
            if depth < DEEPEST {
                Some(CollationPlace::Special(stands, depth + 1))
            } else {
                None
            }
        }
        _ => None,
    }
}

/// The place behind an element that ends at a place.
#[tactic(auto, unfolding(crate::specs::CollationPlaces::place_outside))]
pub(crate) fn place_outside(place: CollationPlace) -> CollationPlace
    ensures { result ≡ place_outside place }
{
    match place {
        CollationPlace::Identity => CollationPlace::BehindIdentity,
        CollationPlace::IdentityPart => CollationPlace::Identity,
        CollationPlace::Collations | CollationPlace::NextCollation => {
            CollationPlace::BehindCollations
        }
        CollationPlace::DefaultType | CollationPlace::Collation | CollationPlace::BehindSpecial =>
            CollationPlace::NextCollation,
        CollationPlace::Rules => CollationPlace::Collation,
        CollationPlace::Special(stands, depth) => {
            if depth == 0 {
                place_behind(stands)
            } else {
                CollationPlace::Special(stands, depth - 1)
            }
        }
        _ => CollationPlace::Outside,
    }
}

/// Whether the text at a place says something.
#[tactic(auto, unfolding(crate::specs::CollationPlaces::holds_text))]
pub(crate) fn holds_text(place: CollationPlace) -> bool
    ensures { result ≡ holds_text place }
{
    matches!(
        place,
        CollationPlace::DefaultType | CollationPlace::Rules | CollationPlace::Special(_, _)
    )
}
