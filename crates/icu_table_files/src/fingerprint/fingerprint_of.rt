//! The fingerprint of tables and settings.

ghost use Rattle.icu_table_provider.specs.well_formed.Checked.{checked_tables};
ghost use Rattle.icu_table_files.specs.fingerprint.FormLaws.{HasFingerprint};
ghost use Rattle.icu_table_files.specs.fingerprint.FingerprintForms.{collation_made, setting_words, version_words};
ghost use Rattle.icu_table_files.specs.fingerprint.inner.HandedWords.{HandsWords, HandsTables};
ghost use Rattle.icu_options.specs.FlaggedSettings.{values_of};
ghost use Rattle.icu_order_texts.specs.weighting.CheckedCollations.{collation_of};

use crate::fingerprint::data_form::{put_data, put_reordering, put_tailoring};
use crate::fingerprint::form_words::{put, put_u16s, put_u32s};
use crate::fingerprint::setting_numbers::{
    bit_number, case_number, group_number, handling_number, strength_number,
};
use icu_options::{CollatorOptions, CollatorOptionsBitField, CollatorPreferences, merged_options};
use icu_table_provider::well_formed::CheckedTables;
use sha2::{Digest, Sha256};

/// The versions that keys depend on: that of the form and of the bytes of keys, which rises with each change of either,
/// and that of Unicode by which texts are decomposed.
fn put_versions(hasher: &mut Sha256)
    ensures { HandsWords hasher.old hasher.new version_words }
{
    put(hasher, 1);
    put(hasher, 18);
    put(hasher, 0);
    put(hasher, 0);
}

/// The settings.
fn put_settings(hasher: &mut Sha256, settings: CollatorOptionsBitField)
    ensures { HandsWords hasher.old hasher.new (setting_words (values_of settings)) }
{
    put(hasher, strength_number(settings.strength()));
    put(hasher, handling_number(settings.alternate_handling()));
    put(hasher, group_number(settings.max_variable()));
    put(hasher, case_number(settings.case_first()));
    put(hasher, bit_number(settings.case_level()));
    put(hasher, bit_number(settings.numeric()));
    put(hasher, bit_number(settings.backward_second_level()));
}

/// The tables.
fn put_tables(hasher: &mut Sha256, tables: &CheckedTables)
    ensures { HandsTables hasher.old hasher.new (checked_tables tables.now) }
{
    let special = tables.special_primaries();
    put_data(hasher, tables.root());
    put_tailoring(hasher, tables.tailoring());
    put_u32s(hasher, tables.jamo().ce32s());
    put_u16s(hasher, tables.diacritics().secondaries());
    put_u16s(hasher, special.last_primaries());
    put(hasher, u64::from(special.numeric_primary()));
    put(hasher, u64::from(tables.metadata().bits));
    put_reordering(hasher, tables.reordering());
}

/// The fingerprint of a collator with these tables and settings: the SHA-256 of its form, which is that of the tables
/// as they are stored, of the settings, and of the versions that keys depend on. Does not allocate.
///
/// Where a fingerprint that was stored beside keys differs, make the keys anew: by other tables or settings they may be
/// in another order. Tables that say the same but are stored otherwise have another fingerprint.
pub fn fingerprint_by(tables: &CheckedTables, settings: CollatorOptionsBitField) -> [u8; 32]
    ensures { HasFingerprint (collation_of tables.now settings) result }
{
    let mut hasher = Sha256::new();
    put_versions(&mut hasher);
    put_settings(&mut hasher, settings);
    put_tables(&mut hasher, tables);
    hasher.finalize()
}

/// The fingerprint of the collator that these tables, preferences and options make
/// (`Collator::from_checked_tables`), as `fingerprint_by` makes it. The locale and the type of `preferences` aren't
/// read. Does not allocate.
pub fn fingerprint(
    tables: &CheckedTables,
    preferences: CollatorPreferences<'_>,
    options: CollatorOptions,
) -> [u8; 32]
    ensures { HasFingerprint
        (collation_made (checked_tables tables.now) options preferences.entry) result }
{
    let settings = merged_options(options, preferences, tables.metadata().settings());
    fingerprint_by(tables, settings)
}
