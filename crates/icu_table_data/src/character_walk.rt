//! A walk over the entries that go by their character: each is visited with each character.
ghost use Rattle.std.specs.Prelude.{◌≡◌, ◌+◌, ◌*◌, ◌<◌, ◌==◌, ◌||◌, Bool, true, false, take, IfSome, OnOk};
ghost use Rattle.std.specs.Char.{IsScalar};
ghost use Rattle.icu_table_entries.specs.Entries.{kind_of};
ghost use Rattle.icu_table_data.specs.Data.{Data};
ghost use Rattle.icu_table_data.specs.StoredData.{data_of};
ghost use Rattle.icu_table_data.specs.Walks.{after_all, after_run, EachOfBlock};
ghost use Rattle.icu_table_data.specs.inner.BlockWalks.{is_wanted, leads_to, leads_further, AreSought, AreKept, after_runs, WalkedTo, AreClear, IsRun, IsState, AreStates};

use crate::block_walk::{BlockState, visit_char};
use crate::clear_entries::is_clear;
use crate::data::CollationData;
use crate::sought_entries::SoughtEntries;
use crate::sought_lists::SoughtLists;
use crate::visited_entries::VisitedEntries;
use crate::walk::{Visit, visit_from};
use crate::wanted_walk::visit_wanted_from;
use icu_table_entries::{CollationElement32, EntryKind};
use std::convert::Infallible;

/// Which entries are visited with each character.
#[derive(Clone, Copy)]
pub(crate) enum Part {
    /// Those that count a weight from that of another character.
    Counted,
    /// Those for implicit weights (UTS #10, "Implicit Weights").
    Implicit,
}

/// Whether an entry is one of the part.
#[tactic(auto, unfolding(crate::specs::inner::BlockWalks::is_wanted))]
pub(crate) fn is_wanted(part: Part, entry: CollationElement32) -> bool
    ensures { result ≡ is_wanted part entry }
{
    match part {
        Part::Counted => match entry.kind() {
            EntryKind::Offset => true,
            _ => false,
        },
        Part::Implicit => match entry.kind() {
            EntryKind::Implicit => true,
            _ => false,
        },
    }
}

/// Whether an entry may lead to others.
pub(crate) fn leads_further(entry: CollationElement32) -> bool
    ensures { result ≡ leads_further (kind_of entry) }
{
    match entry.kind() {
        EntryKind::Prefix | EntryKind::Contraction | EntryKind::Digit => true,
        _ => false,
    }
}

/// A visitor that looks for an entry of a part.
#[derive(Drop)]
struct PartSearch {
    part: Part,
    found: bool,
}

impl Visit for PartSearch {
    ghost use Rattle.icu_table_data.specs.declared.character_walk.Part.{Part};

    type Error = Infallible;

    ghost Seen = { Part × Bool };

    ghost seen = { λ v. (v.part, v.found) };

    ghost after = { λ s home c e. (s.0, s.1 || is_wanted s.0 e) };

    fn visit(
        &mut self,
        _home: CollationData<'_>,
        _c: char,
        entry: CollationElement32,
    ) -> Result<(), Infallible> {
        self.found = self.found || is_wanted(self.part, entry);
        Ok(())
    }
}

/// Whether an entry of the part is reachable from this one.
#[tactic(auto, using(crate::proofs::ReachLemmas::leaf_leads))]
pub(crate) fn leads_to(part: Part, home: CollationData<'_>, entry: CollationElement32) -> bool
    ensures { result ≡ leads_to part (data_of home.entry) entry }
{
    if !leads_further(entry) {
        return is_wanted(part, entry);
    }
    let mut search = PartSearch { part, found: false };
    match visit_from(&mut search, home, '\0', entry) {
        Ok(()) => search.found,
        Err(never) => match never {},
    }
}

/// The entry that the 64 characters from this one on have, if they all have one.
fn run_entry(home: CollationData<'_>, first: char) -> Option<CollationElement32>
    ensures { IfSome result (IsRun (data_of home.entry) first) }
{
    let bits = home.bits_for_char(first);
    let start = first as u32;
    for code in start..start + 64 {
        if let Some(c) = char::from_u32(code) {
            if home.bits_for_char(c) != bits {
                return None;
            }
        }
    }
    Some(CollationElement32::new(bits))
}

/// Visits an entry with the character at a code point.
fn visit_with<V: Visit>(
    visitor: &mut V,
    home: CollationData<'_>,
    code: u32,
    entry: CollationElement32,
) -> Result<(), V::Error>
    requires { IsScalar code }
    ensures { OnOk result (V.seen visitor.new
        ≡ V.after (V.seen visitor.old) (data_of home.entry) code entry) }
{
    match char::from_u32(code) {
        Some(c) => visitor.visit(home, c, entry),
        None => Ok(()),
    }
}

/// Visits an entry with each of the 64 characters from one on: at once, where the visitor can do so, and not at all
/// where that changes nothing.
pub(crate) fn visit_run<V: Visit>(
    visitor: &mut V,
    home: CollationData<'_>,
    first: char,
    entry: CollationElement32,
) -> Result<(), V::Error>
    requires { EachOfBlock first IsScalar }
    ensures { OnOk result (V.seen visitor.new
        ≡ after_run V.after (V.seen visitor.old) (data_of home.entry) first entry 64) }
{
    if visitor.passes_run(home, first, entry) {
        return Ok(());
    }
    if visitor.visit_run(home, first, entry)? {
        return Ok(());
    }
    let start = first as u32;
    for code in start..start + 64 {
        visit_with(visitor, home, code, entry)?;
    }
    Ok(())
}

/// Visits entries, each with each of the 64 characters from one on.
fn visit_runs<V: Visit>(
    visitor: &mut V,
    home: CollationData<'_>,
    first: char,
    sought: &SoughtEntries,
) -> Result<(), V::Error>
    requires { EachOfBlock first IsScalar }
    ensures { OnOk result (V.seen visitor.new
        ≡ after_runs V.after (V.seen visitor.old) (data_of home.entry) first
        (take sought.now.count sought.now.entries)) }
{
    for place in 0..sought.count {
        visit_run(visitor, home, first, sought.entry(place))?;
    }
    Ok(())
}

/// Visits entries, each with one character.
fn visit_each<V: Visit>(
    visitor: &mut V,
    home: CollationData<'_>,
    c: char,
    sought: &SoughtEntries,
) -> Result<(), V::Error>
    ensures { OnOk result (V.seen visitor.new
        ≡ after_all V.after (V.seen visitor.old) (data_of home.entry) c
        (take sought.now.count sought.now.entries)) }
{
    for place in 0..sought.count {
        visitor.visit(home, c, sought.entry(place))?;
    }
    Ok(())
}

/// Visits the entries of the part that are reachable with a character: those that were sought, if all were found.
fn visit_sought_code<V: Visit>(
    visitor: &mut V,
    home: CollationData<'_>,
    c: char,
    falls_back: bool,
    part: Part,
    sought: &SoughtEntries,
) -> Result<(), V::Error>
    requires { AreSought part (data_of home) ((data_of home).value c)
        (take sought.now.count sought.now.entries) sought.now.whole }
    ensures { OnOk result (WalkedTo V.after falls_back part (data_of home.entry)
        (V.seen visitor.old) (V.seen visitor.new) c (c + 1)) }
{
    let entry = home.ce32_for_char(c);
    if sought.whole && !entry.is_fallback() {
        return visit_each(visitor, home, c, sought);
    }
    visit_char(visitor, home, c, entry, falls_back)
}

/// Whether a character leads to no entry of the part. `false` leaves that open, as where it is known what it leads to.
fn passes_over(
    part: Part,
    home: CollationData<'_>,
    c: char,
    clear: &mut VisitedEntries,
    known: &SoughtLists,
) -> bool
    requires { AreClear part (data_of home) clear.old }
    ensures clear { AreClear part (data_of home.entry) clear.new }
    ensures none { result ≡ true
        → leads_to part (data_of home.entry) ((data_of home.entry).value c) ≡ false }
{
    if known.has(home.ce32_for_char(c)) {
        return false;
    }
    is_clear(part, home, c, clear)
}

/// Visits the character at a code point, if it leads to an entry of the part.
fn visit_code<V: Visit>(
    visitor: &mut V,
    home: CollationData<'_>,
    code: u32,
    falls_back: bool,
    part: Part,
    clear: &mut VisitedEntries,
    known: &mut SoughtLists,
) -> Result<(), V::Error>
    requires clear { AreClear part (data_of home) clear.old }
    requires known { AreKept part (data_of home) known.old.places }
    ensures clear { OnOk result (AreClear part (data_of home.entry) clear.new) }
    ensures known { OnOk result (AreKept part (data_of home.entry) known.new.places) }
    ensures visits { OnOk result (WalkedTo V.after falls_back part (data_of home.entry)
        (V.seen visitor.old) (V.seen visitor.new) code (code + 1)) }
{
    let Some(c) = char::from_u32(code) else {
        return Ok(());
    };
    if passes_over(part, home, c, clear, known) {
        return Ok(());
    }
    let sought = known.seek(part, home, home.ce32_for_char(c));
    visit_sought_code(visitor, home, c, falls_back, part, &sought)
}

/// Visits the 64 characters from this one on, as far as they lead to entries of the part.
fn visit_codes<V: Visit>(
    visitor: &mut V,
    home: CollationData<'_>,
    first: u32,
    falls_back: bool,
    part: Part,
    clear: &mut VisitedEntries,
    known: &mut SoughtLists,
) -> Result<(), V::Error>
    requires first { first < 0x110000 }
    requires clear { AreClear part (data_of home) clear.old }
    requires known { AreKept part (data_of home) known.old.places }
    ensures clear { OnOk result (AreClear part (data_of home.entry) clear.new) }
    ensures known { OnOk result (AreKept part (data_of home.entry) known.new.places) }
    ensures visits { OnOk result (WalkedTo V.after falls_back part (data_of home.entry)
        (V.seen visitor.old) (V.seen visitor.new) first (first + 64)) }
{
    for code in first..first + 64 {
        visit_code(visitor, home, code, falls_back, part, clear, known)?;
    }
    Ok(())
}

/// Visits the entries of the part that are reachable with the 64 characters from this one on, which all have one entry:
/// each at once with all of them. Those that were sought are visited, if all were found; else it goes through all that
/// the entry leads to.
fn visit_sought<V: Visit>(
    visitor: &mut V,
    home: CollationData<'_>,
    first: char,
    falls_back: bool,
    part: Part,
    entry: CollationElement32,
    sought: &SoughtEntries,
) -> Result<(), V::Error>
    requires scalars { EachOfBlock first IsScalar }
    requires run { IsRun (data_of home) first entry }
    requires fallback { (entry == 0xC0) ≡ false }
    requires sought { AreSought part (data_of home) entry
        (take sought.now.count sought.now.entries) sought.now.whole }
    ensures { OnOk result (WalkedTo V.after falls_back part (data_of home.entry)
        (V.seen visitor.old) (V.seen visitor.new) first (first + 64)) }
{
    if sought.whole {
        return visit_runs(visitor, home, first, sought);
    }
    visit_wanted_from(visitor, home, first, part, entry)
}

/// Visits the entries of the part that are reachable with the 64 characters from this one on: where they all have one
/// entry, each at once with all of them.
fn visit_marked<V: Visit>(
    visitor: &mut V,
    home: CollationData<'_>,
    first: char,
    falls_back: bool,
    part: Part,
    clear: &mut VisitedEntries,
    known: &mut SoughtLists,
) -> Result<(), V::Error>
    requires scalars { EachOfBlock first IsScalar }
    requires clear { AreClear part (data_of home) clear.old }
    requires known { AreKept part (data_of home) known.old.places }
    ensures clear { OnOk result (AreClear part (data_of home.entry) clear.new) }
    ensures known { OnOk result (AreKept part (data_of home.entry) known.new.places) }
    ensures visits { OnOk result (WalkedTo V.after falls_back part (data_of home.entry)
        (V.seen visitor.old) (V.seen visitor.new) first (first + 64)) }
{
    if let Some(entry) = run_entry(home, first) {
        if !entry.is_fallback() {
            let sought = known.seek(part, home, entry);
            return visit_sought(visitor, home, first, falls_back, part, entry, &sought);
        }
    }
    visit_codes(visitor, home, first as u32, falls_back, part, clear, known)
}

/// What is to be done with the values of a block: whether a character of it leads to an entry of the part.
fn state_of(
    part: Part,
    home: CollationData<'_>,
    first: u32,
    clear: &mut VisitedEntries,
) -> BlockState
    requires first { first < 0x110000 }
    requires clear { AreClear part (data_of home) clear.old }
    ensures clear { AreClear part (data_of home.entry) clear.new }
    ensures state { IsState part (data_of home.entry) first result }
{
    for code in first..first + 64 {
        if let Some(c) = char::from_u32(code) {
            if !is_clear(part, home, c, clear) {
                return BlockState::Visited;
            }
        }
    }
    BlockState::Shared
}

/// What is to be done with the values of a block, which is found once for each block that is stored.
fn known_state(
    part: Part,
    home: CollationData<'_>,
    index: u32,
    clear: &mut VisitedEntries,
    states: &mut [BlockState; 0x10000],
) -> BlockState
    requires index { index < 17408 }
    requires scalar { IsScalar (64 * index) }
    requires clear { AreClear part (data_of home) clear.old }
    requires states { AreStates part home index states.old }
    ensures clear { AreClear part (data_of home.entry) clear.new }
    ensures states { AreStates part home.entry (index + 1) states.new }
    ensures state { IsState part (data_of home.entry) (64 * index) result }
{
    let block = usize::from(home.block(index as usize));
    match states[block] {
        BlockState::Unread => {
            let state = state_of(part, home, 64 * index, clear);
            states[block] = state;
            state
        }
        BlockState::Visited => BlockState::Visited,
        BlockState::Shared => BlockState::Shared,
    }
}

/// Visits the entries of the part that are reachable with the characters of a block, if its code points are
/// characters'.
fn visit_index<V: Visit>(
    visitor: &mut V,
    home: CollationData<'_>,
    index: u32,
    falls_back: bool,
    part: Part,
    clear: &mut VisitedEntries,
    states: &mut [BlockState; 0x10000],
    known: &mut SoughtLists,
) -> Result<(), V::Error>
    requires index { index < 17408 }
    requires clear { AreClear part (data_of home) clear.old }
    requires states { AreStates part home index states.old }
    requires known { AreKept part (data_of home) known.old.places }
    ensures clear { OnOk result (AreClear part (data_of home.entry) clear.new) }
    ensures states { OnOk result (AreStates part home.entry (index + 1) states.new) }
    ensures known { OnOk result (AreKept part (data_of home.entry) known.new.places) }
    ensures visits { OnOk result (WalkedTo V.after falls_back part (data_of home.entry)
        (V.seen visitor.old) (V.seen visitor.new) (64 * index) (64 * index + 64)) }
{
    let Some(first) = char::from_u32(64 * index) else {
        return Ok(());
    };
    match known_state(part, home, index, clear, states) {
        BlockState::Shared => Ok(()),
        _ => visit_marked(visitor, home, first, falls_back, part, clear, known),
    }
}

/// Visits the entries of the part that are reachable with characters, with each character.
pub(crate) fn visit_by_character<V: Visit>(
    visitor: &mut V,
    home: CollationData<'_>,
    falls_back: bool,
    part: Part,
) -> Result<(), V::Error>
    ensures { OnOk result (WalkedTo V.after falls_back part (data_of home.entry)
        (V.seen visitor.old) (V.seen visitor.new) 0 0x110000) }
{
    let mut clear = VisitedEntries::new();
    let mut states = [BlockState::Unread; 0x10000];
    let mut known = SoughtLists::new(part);
    for index in 0..17408u32 {
        visit_index(
            visitor,
            home,
            index,
            falls_back,
            part,
            &mut clear,
            &mut states,
            &mut known,
        )?;
    }
    Ok(())
}
