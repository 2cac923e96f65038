//! Where the tables of collators come from.
ghost use Rattle.std.specs.Prelude.{◌≡◌};
ghost use Rattle.icu_table_provider.specs.Loads.{Loads, answer};
ghost use Rattle.icu_table_provider.specs.Requests.{request_of};
ghost use Rattle.icu_table_provider.specs.StoredTables.{diacritics_of, jamo_of, reordering_of, special_of};
ghost use Rattle.icu_table_data.specs.StoredData.{data_of};

use crate::diacritics::CollationDiacritics;
use crate::jamo::CollationJamo;
use crate::metadata::CollationMetadata;
use crate::reordering::CollationReordering;
use crate::request::DataRequest;
use crate::special_primaries::CollationSpecialPrimaries;
use icu_table_data::CollationData;
use icu_table_entries::DataError;

/// What gives the tables that collators are made from (UTS #35 part 5).
///
/// Three tables serve all collations, and are asked for without a request: the root, the conjoining jamo and the
/// special primary weights. The others are asked for by locale and type. A load returns its table, or a `DataError` for
/// the table that says why not: `Absent` where the provider has none, or the kind that the table's constructor
/// returned. What a load returns is settled by the provider and the request, so that a second time it is the same.
///
/// Nobody relies on what is returned: tables are checked, by themselves and together, before a collator reads them.
pub trait CollationProvider {
    /// What each load returns.
    ghost loads: { Self → Loads };

    /// The root: the entries of all characters. None of them is the entry of fallback, which sends a tailoring's reader
    /// here.
    fn load_root(&self) -> Result<CollationData<'_>, DataError>
        ensures { answer data_of result ≡ (loads self.now).root };

    /// The entries of the 256 characters from U+1100 on, which refer to lists and contexts of the root.
    fn load_jamo(&self) -> Result<CollationJamo<'_>, DataError>
        ensures { answer jamo_of result ≡ (loads self.now).jamo };

    /// The primary weights at which the variable groups end, the lead byte of numbers, 03 to FD, and the lead bytes
    /// that are written shorter in sort keys.
    fn load_special_primaries(&self) -> Result<CollationSpecialPrimaries<'_>, DataError>
        ensures { answer special_of result ≡ (loads self.now).special };

    /// The metadata of a collation: which of the following tables it has, and its settings. It is asked for by locale
    /// and type, and, where a type is refused, by the locale alone.
    fn load_metadata(&self, request: DataRequest<'_>) -> Result<CollationMetadata, DataError>
        ensures { answer (λ m. m.bits) result
            ≡ (loads self.now).metadata (request_of request.entry) };

    /// The tailoring of a collation: the entries of the characters that differ from the root's, and the entry of
    /// fallback for the others. It is asked for only where the metadata says that there is one, by locale and type,
    /// and, where a type is refused, by the locale alone.
    fn load_tailoring(&self, request: DataRequest<'_>) -> Result<CollationData<'_>, DataError>
        ensures { answer data_of result ≡ (loads self.now).tailoring (request_of request.entry) };

    /// The reordering of a collation: a new lead byte for each of the 256 lead bytes of primary weights. It is asked
    /// for only where the metadata says that there is one, by locale and type, and, where a type is refused, by the
    /// locale alone.
    fn load_reordering(
        &self,
        request: DataRequest<'_>,
    ) -> Result<CollationReordering<'_>, DataError>
        ensures { answer reordering_of result
            ≡ (loads self.now).reordering (request_of request.entry) };

    /// The secondary weights of U+0300 and the characters after it, one for each: 79, or fewer where the collation has
    /// diacritics of its own. These are asked for by locale and type, once; where the metadata says that there are
    /// none, the root's are asked for by the empty request.
    fn load_diacritics(
        &self,
        request: DataRequest<'_>,
    ) -> Result<CollationDiacritics<'_>, DataError>
        ensures { answer diacritics_of result
            ≡ (loads self.now).diacritics (request_of request.entry) };
}
