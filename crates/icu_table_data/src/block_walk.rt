//! A walk over all characters, block by block: what is stored once is visited once, as far as it doesn't go by the
//! character.
ghost use Rattle.std.specs.Prelude.{◌≡◌, ◌+◌, ◌*◌, ◌<◌, ◌⊎◌, ℕ, OnOk};
ghost use Rattle.std.specs.Char.{IsScalar};
ghost use Rattle.std.specs.List.{Contains};
ghost use Rattle.icu_table_entries.specs.Entries.{kind_of};
ghost use Rattle.icu_table_data.specs.Reachable.{goes_by_character, reachable_contraction, reachable_from, ReferAlike};
ghost use Rattle.icu_table_data.specs.StoredData.{data_of, block_in};
ghost use Rattle.icu_table_data.specs.Walks.{Walked, after_char};
ghost use Rattle.icu_table_data.specs.inner.VisitedEntries.{IsRemembered};
ghost use Rattle.icu_table_data.specs.inner.BlockWalks.{is_prefix, contraction_entries, AreLedTo, IsReachableIn, Spends, WalksOn, WalkedOnce, AreStates};

use crate::character_walk::{Part, visit_by_character};
use crate::context::ContextMapping;
use crate::data::CollationData;
use crate::visited_entries::VisitedEntries;
use crate::walk::{Visit, visit_alone, visit_contraction, visit_from};
use icu_table_entries::{CollationElement32, EntryKind};

/// What is known of the values of a block.
#[derive(Clone, Copy)]
pub(crate) enum BlockState {
    /// No character read it so far.
    Unread,
    /// The values were read, and some may lead to entries that are looked for.
    Visited,
    /// The values were read, and none leads to an entry that is looked for.
    Shared,
}

/// Whether what an entry gives goes by its character: a weight that is counted from that of another character, or an
/// implicit one.
#[tactic(auto, unfolding(crate::specs::Reachable::goes_by_character))]
pub(crate) fn goes_by_character(entry: CollationElement32) -> bool
    ensures { result ≡ goes_by_character entry }
{
    match entry.kind() {
        EntryKind::Offset | EntryKind::Implicit => true,
        _ => false,
    }
}

/// Visits each entry that is reachable with a character of the code point table. With `falls_back`, as in a tailoring,
/// fallback entries are passed over.
pub(crate) fn visit_char<V: Visit>(
    visitor: &mut V,
    home: CollationData<'_>,
    c: char,
    entry: CollationElement32,
    falls_back: bool,
) -> Result<(), V::Error>
    requires { entry ≡ (data_of home).value c }
    ensures { OnOk result (V.seen visitor.new
        ≡ after_char V.after falls_back (data_of home.entry) c (V.seen visitor.old)) }
{
    if falls_back && entry.is_fallback() {
        return Ok(());
    }
    visit_from(visitor, home, c, entry)
}

/// Remembers an entry, if it leads to a list or a context, so that it is worth it.
pub(crate) fn remember(bits: u32, seen: &mut VisitedEntries)
    ensures { (e : ℕ) → IsRemembered seen.new e
        → IsRemembered seen.old e ⊎ ReferAlike bits e }
{
    let entry = CollationElement32::new(bits);
    let long = matches!(
        entry.kind(),
        EntryKind::Expansion32 | EntryKind::Expansion | EntryKind::Prefix | EntryKind::Contraction
    );
    if long {
        seen.remember(bits);
    }
}

/// Whether an entry is a prefix.
fn is_prefix(entry: CollationElement32) -> bool
    ensures { result ≡ is_prefix (kind_of entry) }
{
    match entry.kind() {
        EntryKind::Prefix => true,
        _ => false,
    }
}

/// Visits what is reachable from an entry that a prefix leads to, unless the entry is remembered.
fn visit_new_contraction<V: Visit>(
    visitor: &mut V,
    home: CollationData<'_>,
    c: char,
    bits: u32,
    falls_back: bool,
    seen: &mut VisitedEntries,
) -> Result<(), V::Error>
    requires { AreLedTo falls_back (data_of home) c (reachable_contraction (data_of home) bits) }
    ensures { OnOk result (Spends V.after falls_back (data_of home.entry) seen.old seen.new
        (V.seen visitor.old) (V.seen visitor.new)
        (Contains (reachable_contraction (data_of home.entry) bits))) }
{
    if seen.has(bits) {
        return Ok(());
    }
    let entry = CollationElement32::new(bits);
    if is_prefix(entry) {
        // a prefix that another one leads to opens nothing, so it is no news of its context
        return visit_contraction(visitor, home, c, entry);
    }
    visit_contraction(visitor, home, c, entry)?;
    remember(bits, seen);
    Ok(())
}

/// Visits what is reachable from the entries of a prefix's mappings, as far as they aren't remembered.
fn visit_new_mappings<V: Visit>(
    visitor: &mut V,
    home: CollationData<'_>,
    c: char,
    mappings: &[ContextMapping],
    falls_back: bool,
    seen: &mut VisitedEntries,
) -> Result<(), V::Error>
    requires { AreLedTo falls_back (data_of home) c
        (contraction_entries (data_of home) mappings.now) }
    ensures { OnOk result (Spends V.after falls_back (data_of home.entry) seen.old seen.new
        (V.seen visitor.old) (V.seen visitor.new)
        (Contains (contraction_entries (data_of home.entry) mappings.now))) }
{
    for mapping in mappings {
        visit_new_contraction(visitor, home, c, mapping.entry, falls_back, seen)?;
    }
    Ok(())
}

/// Visits what is reachable from a prefix: each contraction that it leads to once.
fn visit_new_prefix<V: Visit>(
    visitor: &mut V,
    home: CollationData<'_>,
    c: char,
    bits: u32,
    falls_back: bool,
    seen: &mut VisitedEntries,
) -> Result<(), V::Error>
    requires prefix { kind_of bits ≡ EntryKind.Prefix }
    requires led { AreLedTo falls_back (data_of home) c (reachable_from (data_of home) bits) }
    ensures { OnOk result (Spends V.after falls_back (data_of home.entry) seen.old seen.new
        (V.seen visitor.old) (V.seen visitor.new)
        (Contains (reachable_from (data_of home.entry) bits))) }
{
    let entry = CollationElement32::new(bits);
    visitor.visit(home, c, entry)?;
    let context = home.context_of(entry);
    visit_new_contraction(visitor, home, c, context.default, falls_back, seen)?;
    visit_new_mappings(visitor, home, c, context.mappings, falls_back, seen)?;
    remember(bits, seen);
    Ok(())
}

/// Visits what is reachable from an entry, unless the entry is remembered. One that spells its element isn't worth it.
#[tactic(auto, using(crate::proofs::SpelledLemmas::spelled_leads))]
fn visit_new<V: Visit>(
    visitor: &mut V,
    home: CollationData<'_>,
    c: char,
    bits: u32,
    falls_back: bool,
    seen: &mut VisitedEntries,
) -> Result<(), V::Error>
    requires { AreLedTo falls_back (data_of home) c (reachable_from (data_of home) bits) }
    ensures { OnOk result (Spends V.after falls_back (data_of home.entry) seen.old seen.new
        (V.seen visitor.old) (V.seen visitor.new)
        (Contains (reachable_from (data_of home.entry) bits))) }
{
    let entry = CollationElement32::new(bits);
    if entry.is_self_contained() {
        return visit_alone(visitor, home, c, entry);
    }
    if seen.has(bits) {
        return Ok(());
    }
    if entry.kind() == EntryKind::Prefix {
        return visit_new_prefix(visitor, home, c, bits, falls_back, seen);
    }
    visit_from(visitor, home, c, entry)?;
    remember(bits, seen);
    Ok(())
}

/// Visits a character for the first time, unless its entry is remembered, or is all that it leads to and goes by it.
fn visit_new_code<V: Visit>(
    visitor: &mut V,
    home: CollationData<'_>,
    code: u32,
    falls_back: bool,
    seen: &mut VisitedEntries,
) -> Result<(), V::Error>
    ensures { OnOk result (Spends V.after falls_back (data_of home.entry) seen.old seen.new
        (V.seen visitor.old) (V.seen visitor.new)
        (IsReachableIn falls_back (data_of home.entry) code (code + 1))) }
{
    let Some(c) = char::from_u32(code) else {
        return Ok(());
    };
    let bits = home.bits_for_char(c);
    let entry = CollationElement32::new(bits);
    if goes_by_character(entry) {
        return Ok(());
    }
    if falls_back && entry.is_fallback() {
        return Ok(());
    }
    visit_new(visitor, home, c, bits, falls_back, seen)
}

/// Visits the 64 characters from this one on for the first time.
fn visit_new_codes<V: Visit>(
    visitor: &mut V,
    home: CollationData<'_>,
    first: u32,
    falls_back: bool,
    seen: &mut VisitedEntries,
) -> Result<(), V::Error>
    requires { first < 0x110000 }
    ensures { OnOk result (Spends V.after falls_back (data_of home.entry) seen.old seen.new
        (V.seen visitor.old) (V.seen visitor.new)
        (IsReachableIn falls_back (data_of home.entry) first (first + 64))) }
{
    for code in first..first + 64 {
        visit_new_code(visitor, home, code, falls_back, seen)?;
    }
    Ok(())
}

/// Visits the 64 characters of a block, unless its number was read.
fn visit_block<V: Visit>(
    visitor: &mut V,
    home: CollationData<'_>,
    index: u32,
    falls_back: bool,
    seen: &mut VisitedEntries,
    states: &mut [BlockState; 0x10000],
) -> Result<(), V::Error>
    requires index { index < 17408 }
    requires scalar { IsScalar (64 * index) }
    requires states { AreStates Part.Counted home index states.old }
    ensures visits { OnOk result (WalksOn V.after falls_back (data_of home.entry) seen.old seen.new
        (V.seen visitor.old) (V.seen visitor.new) (64 * index) (64 * index + 64)) }
    ensures states { OnOk result (AreStates Part.Counted home.entry (index + 1) states.new) }
{
    let block = usize::from(home.block(index as usize));
    match states[block] {
        BlockState::Unread => {
            visit_new_codes(visitor, home, 64 * index, falls_back, seen)?;
            states[block] = BlockState::Visited;
            Ok(())
        }
        BlockState::Visited => Ok(()),
        BlockState::Shared => Ok(()),
    }
}

/// Visits the 64 characters of a block, unless its number was read, if its code points are characters': those from
/// D800 to DFFF aren't, and aren't taken as read.
fn visit_index<V: Visit>(
    visitor: &mut V,
    home: CollationData<'_>,
    index: u32,
    falls_back: bool,
    seen: &mut VisitedEntries,
    states: &mut [BlockState; 0x10000],
) -> Result<(), V::Error>
    requires index { index < 17408 }
    requires states { AreStates Part.Counted home index states.old }
    ensures visits { OnOk result (WalksOn V.after falls_back (data_of home.entry) seen.old seen.new
        (V.seen visitor.old) (V.seen visitor.new) (64 * index) (64 * index + 64)) }
    ensures states { OnOk result (AreStates Part.Counted home.entry (index + 1) states.new) }
{
    match char::from_u32(64 * index) {
        Some(_) => visit_block(visitor, home, index, falls_back, seen, states),
        None => Ok(()),
    }
}

/// Visits each entry that is reachable with a character and doesn't go by it, or one that says the same.
fn visit_shared<V: Visit>(
    visitor: &mut V,
    home: CollationData<'_>,
    falls_back: bool,
) -> Result<(), V::Error>
    ensures { OnOk result (WalkedOnce V.after falls_back (data_of home.entry)
        (V.seen visitor.old) (V.seen visitor.new)) }
{
    let mut seen = VisitedEntries::new();
    let mut states = [BlockState::Unread; 0x10000];
    for index in 0..17408u32 {
        visit_index(visitor, home, index, falls_back, &mut seen, &mut states)?;
    }
    Ok(())
}

/// Visits entries that are reachable with characters: one that goes by its character with each character, any other at
/// least once. With `falls_back`, as in a tailoring, fallback entries of the code point table are passed over; entries
/// for implicit weights are, where the visitor says that they change nothing. A block of the code point table that
/// several indices name is visited once, as far as its entries don't go by their characters.
pub fn visit_chars<V: Visit>(
    visitor: &mut V,
    home: CollationData<'_>,
    falls_back: bool,
) -> Result<(), V::Error>
    ensures { OnOk result (Walked V.after falls_back (data_of home.entry)
        (V.seen visitor.old) (V.seen visitor.new)) }
{
    visit_shared(visitor, home, falls_back)?;
    visit_by_character(visitor, home, falls_back, Part::Counted)?;
    if visitor.passes_implicit() {
        return Ok(());
    }
    visit_by_character(visitor, home, falls_back, Part::Implicit)
}
