//! Prefixes and contractions.

ghost use Rattle.std.specs.Prelude.{◌≡◌, [], IsTrue, IfOk};
ghost use Rattle.icu_table_data.specs.Contexts.{has_ascending_mappings};
ghost use Rattle.icu_table_data.specs.Data.{homed};
ghost use Rattle.icu_table_data.specs.StoredData.{data_of, found_context};
ghost use Rattle.icu_table_entries.specs.Entries.{kind_of};
ghost use Rattle.icu_element_matches.specs.WellFormedEntries.{HasContext};
ghost use Rattle.icu_element_matches.specs.Matches.{after_prefix, contracted};
ghost use Rattle.icu_element_matches.specs.Texts.{still_unread, match_left};
ghost use Rattle.icu_element_matches.specs.inner.Joining.{match_behind};

use crate::classed_text::ClassedText;
use crate::mappings::find_longest;
use crate::marks::join_marks;
use crate::matched::Matched;
use crate::text_front::decided_front;
use icu_table_data::{CollationData, FoundContext};
use icu_table_entries::{CollationElement32, EntryKind};
use std::alloc::{AllocError, Global};

/// The entry that a prefix entry becomes after the characters that were consumed, nearest first; any other entry as it
/// is (UTS #35 part 5, "Context-Sensitive Mappings").
#[tactic(auto, unfolding(crate::specs::Matches::after_prefix))]
pub fn after_prefix(
    home: CollationData<'_>,
    ce32: CollationElement32,
    before: &[char],
) -> CollationElement32
    requires { kind_of ce32 ≡ EntryKind.Prefix → HasContext (data_of home) ce32 }
    ensures { result ≡ after_prefix (homed (data_of home.entry) ce32) before.now }
{
    match ce32.kind() {
        EntryKind::Prefix => {
            let context = home.get_context(ce32.index());
            match find_longest(context, before) {
                Some(index) => context.mapping(index).entry,
                None => context.default(),
            }
        }
        _ => ce32,
    }
}

/// What a contraction matches of the text directly: the longest mapping that begins it, or nothing.
#[tactic(auto, unfolding(crate::specs::Matches::contracted))]
fn begin_match(
    alloc: Global,
    context: FoundContext<'_>,
    text: &mut ClassedText,
) -> Result<Matched, AllocError>
    requires { IsTrue (has_ascending_mappings (found_context context)) }
    ensures { IfOk result (λ m.
        match_behind (found_context context.entry).mappings m [] (still_unread text.new)
        ≡ contracted (found_context context.entry) (still_unread text.old)) }
{
    let front = decided_front(alloc, context, text)?;
    match find_longest(context, front.as_slice()) {
        Some(index) => {
            let mapping = context.mapping(index);
            let suffix = Vec::from_slice(alloc, mapping.chars)?;
            text.skip(mapping.chars.len());
            Ok(Matched {
                ce32: mapping.entry,
                suffix,
            })
        }
        None => Ok(Matched {
            ce32: context.default(),
            suffix: Vec::new(alloc),
        }),
    }
}

/// The match of a contraction: its longest mapping that begins the text, or none, and then the marks that join it.
pub(crate) fn contract(
    alloc: Global,
    context: FoundContext<'_>,
    text: &mut ClassedText,
) -> Result<Matched, AllocError>
    requires { IsTrue (has_ascending_mappings (found_context context)) }
    ensures { IfOk result (λ m.
        match_left m text.new ≡ contracted (found_context context.entry) (still_unread text.old)) }
{
    let mut matched = begin_match(alloc, context, text)?;
    join_marks(alloc, context, text, &mut matched)?;
    Ok(matched)
}
