//! What a character comes to with nothing before it and nothing after it.

ghost use Rattle.std.specs.Prelude.{◌≡◌, [], IsTrue};
ghost use Rattle.icu_table_data.specs.Contexts.{has_ascending_mappings};
ghost use Rattle.icu_table_data.specs.Data.{homed};
ghost use Rattle.icu_table_data.specs.StoredData.{data_of, found_context};
ghost use Rattle.icu_element_matches.specs.Matches.{contracted, match_of};
ghost use Rattle.icu_element_matches.specs.WellFormedEntries.{IsWellFormedFrom};

use icu_element_matches::{after_prefix, find_longest};
use icu_table_data::{CollationData, FoundContext};
use icu_table_entries::{CollationElement32, EntryKind};

/// The entry of a contraction with nothing after it.
fn contracted_alone(context: FoundContext<'_>) -> CollationElement32
    requires { IsTrue (has_ascending_mappings (found_context context)) }
    ensures { result ≡ (contracted (found_context context.entry) []).entry }
{
    match find_longest(context, &[]) {
        Some(index) => context.mapping(index).entry,
        None => context.default(),
    }
}

/// The entry that a character's entry comes to with nothing before the character and nothing after it.
#[tactic(auto, unfolding(icu_element_matches::specs::Matches::match_from))]
pub(crate) fn matched_alone(
    home: CollationData<'_>,
    c: char,
    ce32: CollationElement32,
) -> CollationElement32
    requires { IsWellFormedFrom (data_of home) c ce32 }
    ensures { result ≡ (match_of (homed (data_of home.entry) ce32) [] []).entry }
{
    let behind = after_prefix(home, ce32, &[]);
    match behind.kind() {
        EntryKind::Contraction => contracted_alone(home.get_context(behind.index())),
        _ => behind,
    }
}
