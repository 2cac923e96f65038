//! The match of an entry.

ghost use Rattle.std.specs.Prelude.{◌≡◌, IfOk};
ghost use Rattle.icu_table_data.specs.Data.{homed};
ghost use Rattle.icu_table_data.specs.StoredData.{data_of};
ghost use Rattle.icu_element_matches.specs.WellFormedEntries.{HasContext, IsWellFormedFrom, IsWellFormedMatch};
ghost use Rattle.icu_table_entries.specs.Entries.{kind_of};
ghost use Rattle.icu_element_matches.specs.Matches.{match_from, match_of};
ghost use Rattle.icu_element_matches.specs.Texts.{still_unread, match_left};

use crate::classed_text::ClassedText;
use crate::contexts::{after_prefix, contract};
use icu_table_data::CollationData;
use icu_table_entries::{CollationElement32, EntryKind};
use std::alloc::{AllocError, Global};

/// What an entry matched: the entry that it came to, and the characters that it consumed after its first.
#[derive(Drop)]
pub struct Matched {
    /// The entry that the match came to, which refers to the lists of the same table.
    pub ce32: CollationElement32,
    /// The characters that the match consumed after its first, in the order in which they were consumed.
    pub suffix: Vec<char>,
}

/// The match of an entry before a text, once its prefix is decided.
#[tactic(auto, unfolding(crate::specs::Matches::match_from))]
fn found(
    alloc: Global,
    home: CollationData<'_>,
    ce32: CollationElement32,
    text: &mut ClassedText,
) -> Result<Matched, AllocError>
    requires { kind_of ce32 ≡ EntryKind.Contraction → HasContext (data_of home) ce32 }
    ensures { IfOk result (λ m.
        match_left m text.new ≡ match_from (data_of home.entry) ce32 (still_unread text.old)) }
{
    match ce32.kind() {
        EntryKind::Contraction => contract(alloc, home.get_context(ce32.index()), text),
        _ => Ok(Matched {
            ce32,
            suffix: Vec::new(alloc),
        }),
    }
}

/// The match of a character's entry, after the characters that were consumed, nearest first, and before a decomposed
/// text, from which the characters that the match consumes are taken out.
///
/// A prefix comes first (UTS #35 part 5, "Context-Sensitive Mappings"): its entry becomes that of its longest mapping
/// that begins what was consumed, or its default. Then a contraction takes its longest mapping that begins the text, or
/// none. Then each mark up to the next starter joins, if it isn't blocked and makes a mapping of what was taken (UTS
/// #10, "Produce Collation Element Arrays"). Hint bits of the entry decide nothing. If an allocation fails, nothing is
/// said of the text.
pub fn find_match(
    alloc: Global,
    home: CollationData<'_>,
    c: char,
    ce32: CollationElement32,
    before: &[char],
    text: &mut ClassedText,
) -> Result<Matched, AllocError>
    requires { IsWellFormedFrom (data_of home) c ce32 }
    ensures value { IfOk result (λ m. match_left m text.new
        ≡ match_of (homed (data_of home.entry) ce32) before.now (still_unread text.old)) }
    ensures well_formed { IfOk result (λ m. IsWellFormedMatch (data_of home.entry) c m.ce32) }
{
    found(alloc, home, after_prefix(home, ce32, before), text)
}
