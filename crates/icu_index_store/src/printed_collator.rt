//! A collator together with its fingerprint.

ghost use Rattle.std.specs.Prelude.{◌≡◌, IfErr, IfOk};
ghost use Rattle.icu_table_provider.specs.well_formed.Checked.{checked_tables};
ghost use Rattle.icu_collator.specs.Collators.{collation_kept};
ghost use Rattle.icu_table_entries.specs.declared.error.DataErrorKind.TheVariants.{NoMemory};
ghost use Rattle.icu_table_files.specs.fingerprint.FingerprintForms.{collation_made};
ghost use Rattle.icu_table_files.specs.fingerprint.FormLaws.{HasFingerprint};
ghost use Rattle.icu_index_store.specs.Stores.{printed_collation};

use icu_collator::Collator;
use icu_options::{CollatorOptions, CollatorPreferences};
use icu_table_entries::DataError;
use icu_table_files::fingerprint::fingerprint_by;
use icu_table_provider::well_formed::CheckedTables;
use std::alloc::Global;

/// A collator, and the fingerprint of its tables and settings.
#[derive(Drop)]
pub struct PrintedCollator {
    pub(crate) collator: Collator,
    pub(crate) print: [u8; 32],
}

impl PrintedCollator {
    /// A collator with its fingerprint. Does not allocate.
    pub fn new(collator: Collator) -> PrintedCollator
        ensures collation { printed_collation result ≡ collation_kept collator }
        ensures fingerprint { HasFingerprint (printed_collation result) result.print }
    {
        let print = fingerprint_by(collator.checked_tables(), collator.settings());
        PrintedCollator { collator, print }
    }

    /// The collator of tables that were checked together, with its fingerprint: `Collator::from_checked_tables` and
    /// `PrintedCollator::new` in one call. `NoMemory` says that an allocation failed.
    pub fn from_checked_tables(
        alloc: Global,
        tables: CheckedTables,
        preferences: CollatorPreferences<'_>,
        options: CollatorOptions,
    ) -> Result<PrintedCollator, DataError>
        ensures collation { IfOk result (λ p. printed_collation p
            ≡ collation_made (checked_tables tables) options preferences.entry) }
        ensures fingerprint { IfOk result (λ p. HasFingerprint (printed_collation p) p.print) }
        ensures memory { IfErr result (λ e. e.kind ≡ NoMemory) }
    {
        let collator = Collator::from_checked_tables(alloc, tables, preferences, options)?;
        Ok(PrintedCollator::new(collator))
    }

    /// The collator.
    pub fn collator(&self) -> &Collator
        ensures { collation_kept result.now ≡ printed_collation self.now }
    {
        &self.collator
    }

    /// The fingerprint of the collator's tables and settings.
    pub fn fingerprint(&self) -> &[u8]
        ensures { result.now ≡ self.now.print }
    {
        self.print.as_slice()
    }
}
