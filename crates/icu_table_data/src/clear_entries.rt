//! Entries that lead to none of a part. Those that lead to contexts are remembered, so that a context is looked through
//! once, also where many mappings of a prefix lead to it.
ghost use Rattle.std.specs.Prelude.{◌≡◌, true, false};
ghost use Rattle.icu_table_entries.specs.Entries.{kind_of};
ghost use Rattle.icu_table_data.specs.Reachable.{reachable_contraction};
ghost use Rattle.icu_table_data.specs.StoredData.{data_of};
ghost use Rattle.icu_table_data.specs.inner.BlockWalks.{leads_to, contraction_entries, AreClear, AreUnwanted};

use crate::block_walk::remember;
use crate::character_walk::{Part, is_wanted, leads_further, leads_to};
use crate::context::ContextMapping;
use crate::data::CollationData;
use crate::visited_entries::VisitedEntries;
use icu_table_entries::{CollationElement32, EntryKind};

/// Whether an entry leads to none of the part, with one look at all that it leads to.
fn is_plainly_clear(
    part: Part,
    home: CollationData<'_>,
    bits: u32,
    clear: &mut VisitedEntries,
) -> bool
    requires { AreClear part (data_of home) clear.old }
    ensures clear { AreClear part (data_of home.entry) clear.new }
    ensures none { result ≡ true → leads_to part (data_of home.entry) bits ≡ false }
{
    let entry = CollationElement32::new(bits);
    if !leads_further(entry) {
        return !is_wanted(part, entry);
    }
    if clear.has(bits) {
        return true;
    }
    if leads_to(part, home, entry) {
        return false;
    }
    remember(bits, clear);
    true
}

/// Whether an entry that a prefix leads to leads to none of the part.
fn is_clear_contraction(
    part: Part,
    home: CollationData<'_>,
    bits: u32,
    clear: &mut VisitedEntries,
) -> bool
    requires { AreClear part (data_of home) clear.old }
    ensures clear { AreClear part (data_of home.entry) clear.new }
    ensures none { result ≡ true
        → AreUnwanted part (reachable_contraction (data_of home.entry) bits) }
{
    // a prefix that another one leads to opens nothing
    if CollationElement32::new(bits).kind() == EntryKind::Prefix {
        return true;
    }
    is_plainly_clear(part, home, bits, clear)
}

/// Whether the mappings of a prefix lead to no entry of the part.
fn are_clear_mappings(
    part: Part,
    home: CollationData<'_>,
    mappings: &[ContextMapping],
    clear: &mut VisitedEntries,
) -> bool
    requires { AreClear part (data_of home) clear.old }
    ensures clear { AreClear part (data_of home.entry) clear.new }
    ensures none { result ≡ true
        → AreUnwanted part (contraction_entries (data_of home.entry) mappings.now) }
{
    for mapping in mappings {
        if !is_clear_contraction(part, home, mapping.entry, clear) {
            return false;
        }
    }
    true
}

/// Whether a prefix leads to no entry of the part: each contraction that it leads to is looked through once.
fn is_clear_prefix(
    part: Part,
    home: CollationData<'_>,
    bits: u32,
    clear: &mut VisitedEntries,
) -> bool
    requires prefix { kind_of bits ≡ EntryKind.Prefix }
    requires clear { AreClear part (data_of home) clear.old }
    ensures clear { AreClear part (data_of home.entry) clear.new }
    ensures none { result ≡ true → leads_to part (data_of home.entry) bits ≡ false }
{
    if clear.has(bits) {
        return true;
    }
    let context = home.context_of(CollationElement32::new(bits));
    if !is_clear_contraction(part, home, context.default, clear) {
        return false;
    }
    if !are_clear_mappings(part, home, context.mappings, clear) {
        return false;
    }
    remember(bits, clear);
    true
}

/// Whether an entry leads to none of the part.
fn is_clear_entry(
    part: Part,
    home: CollationData<'_>,
    bits: u32,
    clear: &mut VisitedEntries,
) -> bool
    requires { AreClear part (data_of home) clear.old }
    ensures clear { AreClear part (data_of home.entry) clear.new }
    ensures none { result ≡ true → leads_to part (data_of home.entry) bits ≡ false }
{
    if CollationElement32::new(bits).kind() == EntryKind::Prefix {
        return is_clear_prefix(part, home, bits, clear);
    }
    is_plainly_clear(part, home, bits, clear)
}

/// Whether a character leads to no entry of the part. `false` leaves that open. Contexts that lead to none are
/// remembered.
#[inline(always)]
#[tactic(auto, using(crate::proofs::SpelledLemmas::spelled_clear))]
pub(crate) fn is_clear(
    part: Part,
    home: CollationData<'_>,
    c: char,
    clear: &mut VisitedEntries,
) -> bool
    requires { AreClear part (data_of home) clear.old }
    ensures clear { AreClear part (data_of home.entry) clear.new }
    ensures none { result ≡ true
        → leads_to part (data_of home.entry) ((data_of home.entry).value c) ≡ false }
{
    let bits = home.bits_for_char(c);
    if CollationElement32::new(bits).is_self_contained() {
        return true;
    }
    is_clear_entry(part, home, bits, clear)
}
