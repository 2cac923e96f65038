//! A root over checked tables.
ghost use Rattle.std.specs.Prelude.{◌≡◌, [], IfOk, map};
ghost use Rattle.std.specs.List.Sorted.{IsStrictlyIncreasing};
ghost use Rattle.icu_table_provider.specs.well_formed.Checked.{checked_tables};
ghost use Rattle.icu_rule_steps.specs.symbolic_mappings.StoredMappings.{root_mapping};
ghost use Rattle.icu_rule_meaning.specs.declared.symbolic.SymbolicWeight.TheVariants.{Rooted};
ghost use Rattle.icu_rule_meaning.specs.SymbolicElements.{ends_with_zero, is_same_weight};
ghost use Rattle.icu_rule_meaning.specs.TailoredRoots.{first_above, lowest_below};
ghost use Rattle.icu_rule_meaning.specs.RootPositions.{first_number, last_number};
ghost use Rattle.icu_rule_root.specs.RootEntries.{root_mappings_of};
ghost use Rattle.icu_rule_root.specs.CheckedRoots.{below_or_zero, elements_of_suffix, first_implicit_of, has_suffix_alone, last_regular_of, last_variable_of, leading_or, leading_primary};
ghost use Rattle.icu_rule_root.specs.declared.key_window.KeyLevel.TheVariants.{Secondary, Tertiary};
ghost use Rattle.icu_rule_root.specs.inner.KeyWindows.{lesser_by_keys, weights_by_keys};
ghost use Rattle.icu_rule_root.specs.inner.LevelLists.{HasLevelWeights};

use crate::entry_mappings::RootMapping;
use crate::key_collector::collect_keys;
use crate::key_window::{
    KeyLevel, PRIMARIES, greatest_below, greatest_up_to, last_in_window, least_above,
    symbolic_window, window_below,
};
use crate::level_weights::level_weights;
use crate::root_mappings::root_mappings;
use icu_rule_meaning::SymbolicWeight;
use icu_rule_meaning::weight_tree::RootWeights;
use icu_rule_steps::symbolic_mappings::{CharacterMapping, RootMappings};
use icu_rule_weights::tailoring_numbers::RootLevels;
use icu_table_entries::CollationElement;
use icu_table_provider::well_formed::CheckedTables;
use std::alloc::{AllocError, Global};

/// A primary weight that is below those of all characters without one of their own, and above all others.
const LEAST_WITHOUT_OWN: u32 = 0xFE04_0202;

/// The root of checked tables: the mappings of characters that they have without their tailoring, and the weights of
/// its elements, level by level.
#[derive(Drop)]
pub struct CheckedRoot<'t> {
    tables: &'t CheckedTables,
    keys: Vec<u64>,
    secondaries: Vec<u16>,
    tertiaries: Vec<u16>,
    last_variable: u32,
    last_regular: u32,
    first_implicit: u32,
    ghost ascending: { IsStrictlyIncreasing keys.items },
    ghost secondary_level: { HasLevelWeights Secondary keys.items secondaries.items },
    ghost tertiary_level: { HasLevelWeights Tertiary keys.items tertiaries.items },
}

/// The next lesser weight below weights of which none is tailored, if there is one.
#[tactic(auto, unfolding(crate::specs::inner::KeyWindows::symbolic_window))]
fn lesser_by_keys(keys: &[u64], above: &[SymbolicWeight], w: u32) -> Option<u32>
    requires { IsStrictlyIncreasing keys.now }
    ensures { result ≡ lesser_by_keys keys.now above.now w }
{
    match symbolic_window(above) {
        Some(window) => greatest_below(keys, window, w),
        None => None,
    }
}

/// The next greater weight below others, if there is one.
#[tactic(auto, unfolding(crate::specs::inner::KeyWindows::weights_by_keys, icu_rule_meaning::specs::TailoredRoots::first_above))]
fn greater_by_keys(keys: &[u64], above: &[u32], w: u32) -> Option<u32>
    requires { IsStrictlyIncreasing keys.now }
    ensures { result ≡ first_above (weights_by_keys keys.now above.now) w }
{
    match window_below(above) {
        Some(window) => least_above(keys, window, w),
        None => None,
    }
}

/// The last weight below others; 0 if there is none.
#[tactic(auto, unfolding(crate::specs::inner::KeyWindows::weights_by_keys))]
fn last_by_keys(keys: &[u64], above: &[u32]) -> u32
    requires { IsStrictlyIncreasing keys.now }
    ensures { result ≡ last_number 0 (weights_by_keys keys.now above.now) }
{
    match window_below(above) {
        Some(window) => last_in_window(keys, window),
        None => 0,
    }
}

/// The first primary weight; 0 if there is none.
fn first_by_keys(keys: &[u64]) -> u32
    requires { IsStrictlyIncreasing keys.now }
    ensures { result ≡ first_number (weights_by_keys keys.now []) }
{
    least_above(keys, PRIMARIES, 0).unwrap_or(0)
}

/// Whether a weight is 0.
fn is_zero(w: SymbolicWeight) -> bool
    ensures { result ≡ is_same_weight w (Rooted 0) }
{
    match w {
        SymbolicWeight::Rooted(w) => w == 0,
        SymbolicWeight::Tailored(_) => false,
    }
}

/// Whether the last weight is 0.
fn ends_with_zero(above: &[SymbolicWeight]) -> bool
    ensures { result ≡ ends_with_zero above.now }
{
    match above.last() {
        Some(w) => is_zero(*w),
        None => false,
    }
}

/// What stands below all weights below others.
fn lowest_below(above: &[SymbolicWeight]) -> u32
    ensures { result ≡ lowest_below above.now }
{
    if ends_with_zero(above) { 0 } else { 0x100 }
}

/// The primary weight of the first of elements; 0 where there is none.
fn leading_primary(elements: &[CollationElement]) -> u32
    ensures { result ≡ leading_primary elements.now }
{
    match elements.first() {
        Some(element) => element.primary(),
        None => 0,
    }
}

/// Whether a mapping has this suffix, and no prefix.
fn has_suffix_alone(mapping: &RootMapping, suffix: &[char]) -> bool
    ensures { result ≡ has_suffix_alone suffix.now (root_mapping mapping.now) }
{
    mapping.prefix.is_empty() && mapping.suffix.as_slice() == suffix
}

/// The leading primary weight of the mapping with a suffix and no prefix, or another weight where there is none.
fn leading_of_suffix(mappings: &[RootMapping], suffix: &[char], other: u32) -> u32
    ensures { result
        ≡ leading_or other (elements_of_suffix suffix.now (map root_mapping mappings.now)) }
{
    for mapping in mappings {
        if has_suffix_alone(mapping, suffix) {
            return leading_primary(mapping.elements.as_slice());
        }
    }
    other
}

/// The primary weight of `[first implicit]`.
fn first_implicit(alloc: Global, tables: &CheckedTables) -> Result<u32, AllocError>
    ensures { IfOk result (λ w.
        w ≡ first_implicit_of (root_mappings_of (checked_tables tables.now).tables)) }
{
    let mappings = root_mappings(alloc, tables, '\u{4E00}')?;
    Ok(leading_of_suffix(mappings.as_slice(), &[], 0))
}

/// The greatest primary weight that is less; 0 where there is none.
#[tactic(auto, unfolding(crate::specs::inner::KeyWindows::weights_by_keys, crate::specs::inner::KeyWindows::window_below))]
fn primary_below(keys: &[u64], w: u32) -> u32
    requires { IsStrictlyIncreasing keys.now }
    ensures { result ≡ below_or_zero (weights_by_keys keys.now []) w }
{
    greatest_below(keys, PRIMARIES, w).unwrap_or(0)
}

/// The primary weight of `[last regular]`, where that of `[first implicit]` is known.
fn last_regular(
    alloc: Global,
    tables: &CheckedTables,
    keys: &[u64],
    first_implicit: u32,
) -> Result<u32, AllocError>
    requires ascending { IsStrictlyIncreasing keys.now }
    requires implicit { first_implicit
        ≡ first_implicit_of (root_mappings_of (checked_tables tables.now).tables) }
    ensures { IfOk result (λ w.
        w ≡ last_regular_of (root_mappings_of (checked_tables tables.now).tables)
        (weights_by_keys keys.now [])) }
{
    let mappings = root_mappings(alloc, tables, '\u{FDD1}')?;
    let other = primary_below(keys, first_implicit);
    Ok(leading_of_suffix(mappings.as_slice(), &['\u{5B57}'], other))
}

/// The last primary weight of the groups that may be variable.
#[tactic(auto, unfolding(crate::specs::inner::KeyWindows::weights_by_keys, crate::specs::inner::KeyWindows::window_below))]
fn last_variable(tables: &CheckedTables, keys: &[u64]) -> u32
    requires { IsStrictlyIncreasing keys.now }
    ensures { result
        ≡ last_variable_of (checked_tables tables.now) (weights_by_keys keys.now []) }
{
    let group = tables.metadata().max_variable();
    let last = tables.special_primaries().last_primary_for_group(group);
    greatest_up_to(keys, PRIMARIES, last).unwrap_or(0)
}

impl<'t> CheckedRoot<'t> {
    ghost use Rattle.icu_table_provider.specs.StoredTables.{special_of};
    ghost use Rattle.icu_rule_root.specs.CheckedRoots.{AreAll, IsRootOf, IsSecondaryOfRoot, IsTertiaryOfRoot, least_without_own};
    ghost use Rattle.icu_rule_root.specs.StoredRoots.{stored_root, tables_beside};

    /// The root of checked tables. Allocates its weights, 8 bytes for each element that the tables state at most, and
    /// twice as much while they are collected.
    pub fn new(alloc: Global, tables: &'t CheckedTables) -> Result<CheckedRoot<'t>, AllocError>
        ensures { IfOk result (λ root.
            IsRootOf (checked_tables tables.entry.now) (stored_root root)) }
    {
        tables.are_well_formed();
        let keys = collect_keys(alloc, tables)?;
        let first_implicit = first_implicit(alloc, tables)?;
        let last_regular = last_regular(alloc, tables, keys.as_slice(), first_implicit)?;
        let last_variable = last_variable(tables, keys.as_slice());
        let secondaries = level_weights(alloc, KeyLevel::Secondary, keys.as_slice())?;
        let tertiaries = level_weights(alloc, KeyLevel::Tertiary, keys.as_slice())?;
        Ok(CheckedRoot {
            tables,
            keys,
            secondaries,
            tertiaries,
            last_variable,
            last_regular,
            first_implicit,
        })
    }

    /// The tables.
    pub fn tables(&self) -> &'t CheckedTables
        ensures { result.now ≡ tables_beside self.now }
    {
        self.tables
    }

    /// What the numbers of tailored weights have to fit: the special primary weights, a primary weight above all
    /// tailored ones, and all secondary and tertiary weights, without case.
    pub fn levels(&self) -> RootLevels<'_>
        ensures special { special_of result.special
            ≡ (checked_tables (tables_beside self.now)).special }
        ensures limit { result.limit ≡ least_without_own }
        ensures secondaries { AreAll (IsSecondaryOfRoot (stored_root self.now))
            result.secondaries.now }
        ensures tertiaries { AreAll (IsTertiaryOfRoot (stored_root self.now))
            result.tertiaries.now }
    {
        RootLevels {
            special: self.tables.special_primaries(),
            limit: LEAST_WITHOUT_OWN,
            secondaries: self.secondaries.as_slice(),
            tertiaries: self.tertiaries.as_slice(),
        }
    }
}

impl<'t> RootWeights for CheckedRoot<'t> {
    ghost root = { stored_root };

    ghost use Rattle.icu_rule_root.specs.StoredRoots.{stored_root};

    fn lesser_weight(&self, above: &[SymbolicWeight], w: u32) -> u32 {
        lesser_by_keys(self.keys.as_slice(), above, w).unwrap_or(lowest_below(above))
    }

    fn greater_weight(&self, above: &[u32], w: u32) -> Option<u32> {
        greater_by_keys(self.keys.as_slice(), above, w)
    }

    fn last_weight(&self, above: &[u32]) -> u32 {
        last_by_keys(self.keys.as_slice(), above)
    }

    fn first_primary(&self) -> u32 {
        first_by_keys(self.keys.as_slice())
    }

    fn last_variable(&self) -> u32 {
        self.last_variable
    }

    fn last_regular(&self) -> u32 {
        self.last_regular
    }

    fn first_implicit(&self) -> u32 {
        self.first_implicit
    }
}

impl<'t> RootMappings for CheckedRoot<'t> {
    ghost mappings_of = { λ r. root_mappings_of (checked_tables r.tables.now).tables };

    ghost use Rattle.icu_table_provider.specs.well_formed.Checked.{checked_tables};
    ghost use Rattle.icu_rule_root.specs.RootEntries.{root_mappings_of};

    fn mappings(
        &self,
        alloc: Global,
        c: char,
    ) -> Result<Vec<CharacterMapping<CollationElement>>, AllocError> {
        root_mappings(alloc, self.tables, c)
    }
}
