//! The keys of all elements of a root.

ghost use Rattle.std.specs.Prelude.{◌≡◌, ◌<◌, ◌+◌, ◌↔◌, ℕ, true, List, Some, IfOk, OnOk, IsTrue, length, slice_index};
ghost use Rattle.std.specs.List.{Contains};
ghost use Rattle.std.specs.List.Sorted.{IsStrictlyIncreasing};
ghost use Rattle.icu_table_data.specs.CollectedWeights.{Adds, is_stated};
ghost use Rattle.icu_table_data.specs.DataConditions.{is_readable};
ghost use Rattle.icu_table_data.specs.StoredData.{data_of};
ghost use Rattle.icu_table_provider.specs.Tables.{jamo_base};
ghost use Rattle.icu_table_provider.specs.well_formed.Checked.{checked_tables};
ghost use Rattle.icu_rule_root.specs.RootElements.{IsStatedInRoot};
ghost use Rattle.icu_rule_root.specs.inner.KeyCollections.{HoldsBelow, IsDiacriticKey, IsJamoKey, IsKeyOf, IsRootKey, with_key, with_keys};

use crate::key_window::element_key;
use icu_table_data::CollationData;
use icu_table_data::block_walk::visit_chars;
use icu_table_data::element_walk::{VisitElement, visit_elements};
use icu_table_data::walk::{Visit, visit_from};
use icu_table_entries::{CollationElement, CollationElement32, EntryKind};
use icu_table_provider::diacritics::is_replaced_index;
use icu_table_provider::jamo::JAMO_BASE;
use icu_table_provider::well_formed::CheckedTables;
use std::alloc::{AllocError, Global};

/// A visitor that collects keys.
#[derive(Drop)]
struct KeyCollector {
    keys: Vec<u64>,
}

/// Whether a table states the elements of an entry: they can be read, and aren't for an implicit weight.
#[tactic(auto, unfolding(icu_table_data::specs::CollectedWeights::is_stated))]
fn is_stated(home: CollationData<'_>, c: char, entry: CollationElement32) -> bool
    ensures value { result ≡ is_stated (data_of home.entry) c entry }
    ensures readable { result ≡ true → IsTrue (is_readable (data_of home.entry) c entry) }
{
    match entry.kind() {
        EntryKind::Implicit => false,
        _ => home.is_readable(c, entry),
    }
}

impl VisitElement for KeyCollector {
    type Error = AllocError;

    ghost Seen = { List ℕ };

    ghost seen = { λ v. v.keys.items };

    ghost after = { with_key };

    fn visit(&mut self, element: CollationElement) -> Result<(), AllocError> {
        self.keys.push(element_key(element))?;
        Ok(())
    }
}

impl Visit for KeyCollector {
    type Error = AllocError;

    ghost Seen = { List ℕ };

    ghost seen = { λ v. v.keys.items };

    ghost after = { with_keys };

    #[tactic(auto, unfolding(crate::specs::inner::KeyCollections::stated_elements))]
    fn visit(
        &mut self,
        home: CollationData<'_>,
        c: char,
        entry: CollationElement32,
    ) -> Result<(), AllocError> {
        if is_stated(home, c, entry) {
            visit_elements(self, home, c, entry)
        } else {
            Ok(())
        }
    }

    fn passes_implicit(&self) -> bool {
        true
    }
}

/// Adds the keys of what is reachable in the root.
fn collect_root(tables: &CheckedTables, collector: &mut KeyCollector) -> Result<(), AllocError>
    ensures { OnOk result (Adds (IsKeyOf (IsStatedInRoot (checked_tables tables.now).tables))
        collector.old.keys.items collector.new.keys.items) }
{
    visit_chars(collector, tables.root(), false)
}

/// The conjoining jamo at a place of their table.
fn jamo_char(place: usize) -> Option<char>
    requires { place < 256 }
    ensures { result ≡ Some (jamo_base + place) }
{
    char::from_u32(JAMO_BASE + place as u32)
}

/// Adds the keys of what is reachable with one of the conjoining jamo.
fn collect_one_jamo(
    tables: &CheckedTables,
    place: usize,
    entry: CollationElement32,
    collector: &mut KeyCollector,
) -> Result<(), AllocError>
    requires inside { place < 256 }
    requires entry { entry ≡ slice_index (checked_tables tables.now).tables.jamo place }
    ensures { OnOk result (Adds (IsJamoKey (checked_tables tables.now).tables place)
        collector.old.keys.items collector.new.keys.items) }
{
    match jamo_char(place) {
        Some(c) => visit_from(collector, tables.root(), c, entry),
        None => Ok(()),
    }
}

/// Adds the keys of what is reachable with the conjoining jamo.
fn collect_jamo(tables: &CheckedTables, collector: &mut KeyCollector) -> Result<(), AllocError>
    ensures { OnOk result (Adds (HoldsBelow (IsJamoKey (checked_tables tables.now).tables) 256)
        collector.old.keys.items collector.new.keys.items) }
{
    let jamo = tables.jamo();
    for (place, entry) in jamo.ce32s().iter().enumerate() {
        collect_one_jamo(tables, place, CollationElement32::new(*entry), collector)?;
    }
    Ok(())
}

/// Adds the key of a diacritic, if decomposed texts have it.
fn collect_one_diacritic(
    place: usize,
    secondary: u16,
    secondaries: &[u16],
    collector: &mut KeyCollector,
) -> Result<(), AllocError>
    requires { secondary ≡ slice_index secondaries.now place }
    ensures { OnOk result (Adds (IsDiacriticKey secondaries.now place)
        collector.old.keys.items collector.new.keys.items) }
{
    if is_replaced_index(place) {
        return Ok(());
    }
    let element = CollationElement::new_from_secondary(secondary);
    VisitElement::visit(collector, element)
}

/// Adds the keys of diacritics.
fn collect_diacritics(secondaries: &[u16], collector: &mut KeyCollector) -> Result<(), AllocError>
    ensures { OnOk result (Adds
        (HoldsBelow (IsDiacriticKey secondaries.now) (length secondaries.now))
        collector.old.keys.items collector.new.keys.items) }
{
    for (place, secondary) in secondaries.iter().enumerate() {
        collect_one_diacritic(place, *secondary, secondaries, collector)?;
    }
    Ok(())
}

/// Puts keys in ascending order, each once.
fn sort_and_dedup(keys: &mut Vec<u64>) -> Result<(), AllocError>
    ensures ascending { OnOk result (IsStrictlyIncreasing keys.new.items) }
    ensures members { OnOk result ((k : ℕ)
        → Contains keys.new.items k ↔ Contains keys.old.items k) }
{
    // most of them stand in order, which the stable sort makes use of
    keys.sort()?;
    keys.dedup();
    Ok(())
}

/// The keys of all elements of the root, in any order.
fn all_keys(alloc: Global, tables: &CheckedTables) -> Result<Vec<u64>, AllocError>
    ensures { IfOk result (λ keys. (k : ℕ)
        → Contains keys.items k ↔ IsRootKey (checked_tables tables.now).tables k) }
{
    let mut collector = KeyCollector {
        keys: Vec::new(alloc),
    };
    let diacritics = tables.diacritics();
    collect_root(tables, &mut collector)?;
    collect_jamo(tables, &mut collector)?;
    collect_diacritics(diacritics.secondaries(), &mut collector)?;
    Ok(collector.keys)
}

/// The keys of all elements of the root, ascending, each once.
pub(crate) fn collect_keys(alloc: Global, tables: &CheckedTables) -> Result<Vec<u64>, AllocError>
    ensures ascending { IfOk result (λ keys. IsStrictlyIncreasing keys.items) }
    ensures members { IfOk result (λ keys. (k : ℕ)
        → Contains keys.items k ↔ IsRootKey (checked_tables tables.now).tables k) }
{
    let mut keys = all_keys(alloc, tables)?;
    sort_and_dedup(&mut keys)?;
    Ok(keys)
}
