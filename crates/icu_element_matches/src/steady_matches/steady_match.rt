//! The match of an entry.

ghost use Rattle.std.specs.Prelude.{◌≡◌};
ghost use Rattle.icu_table_data.specs.Data.{homed};
ghost use Rattle.icu_table_data.specs.StoredData.{data_of};
ghost use Rattle.icu_table_entries.specs.Entries.{kind_of};
ghost use Rattle.icu_element_matches.specs.Matches.{match_from, match_of};
ghost use Rattle.icu_element_matches.specs.WellFormedEntries.{HasContext, IsWellFormedFrom, IsWellFormedMatch};
ghost use Rattle.icu_element_matches.specs.steady_matches.SteadyMatches.{steady_match};

use crate::after_prefix;
use crate::steady_matches::steady_contexts::contract;
use icu_table_data::CollationData;
use icu_table_entries::{CollationElement32, EntryKind};
use icu_text_decomposition::TextForMatches;

/// What an entry matched: the entry that it came to, and the characters that it consumed after its first.
#[derive(Clone, Copy)]
pub struct SteadyMatch<'d> {
    /// The entry that the match came to, which refers to the lists of the same table.
    pub ce32: CollationElement32,
    /// The characters that the match consumed after its first, in the order in which they were consumed: those of a
    /// mapping of the table, or none.
    pub suffix: &'d [char],
}

/// The match of an entry before a text, once its prefix is decided.
#[tactic(auto, unfolding(crate::specs::Matches::match_from))]
fn found<'d, X: TextForMatches>(
    home: CollationData<'d>,
    ce32: CollationElement32,
    text: &mut X,
) -> SteadyMatch<'d>
    requires { kind_of ce32 ≡ EntryKind.Contraction → HasContext (data_of home) ce32 }
    ensures { steady_match result (X.unread text.new)
        ≡ match_from (data_of home.entry) ce32 (X.unread text.old) }
{
    match ce32.kind() {
        EntryKind::Contraction => contract(home.get_context(ce32.index()), text),
        _ => SteadyMatch { ce32, suffix: &[] },
    }
}

/// The match of a character's entry, after the characters that were consumed, nearest first, and before a decomposed
/// text, from which the characters that the match consumes are taken out.
///
/// A prefix comes first (UTS #35 part 5, "Context-Sensitive Mappings"): its entry becomes that of its longest mapping
/// that begins what was consumed, or its default. Then a contraction takes its longest mapping that begins the text, or
/// none. Then each mark up to the next starter joins, if it isn't blocked and makes a mapping of what was taken (UTS
/// #10, "Produce Collation Element Arrays"). Hint bits of the entry decide nothing.
pub fn find_steady_match<'d, X: TextForMatches>(
    home: CollationData<'d>,
    c: char,
    ce32: CollationElement32,
    before: &[char],
    text: &mut X,
) -> SteadyMatch<'d>
    requires { IsWellFormedFrom (data_of home) c ce32 }
    ensures value { steady_match result (X.unread text.new)
        ≡ match_of (homed (data_of home.entry) ce32) before.now (X.unread text.old) }
    ensures well_formed { IsWellFormedMatch (data_of home.entry) c result.ce32 }
{
    found(home, after_prefix(home, ce32, before), text)
}
