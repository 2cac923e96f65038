//! The tables of a collation, as a provider returns them.
ghost use Rattle.std.specs.Prelude.{◌≡◌, Some, option_map};
ghost use Rattle.icu_table_provider.specs.Loads.{answer};
ghost use Rattle.icu_table_provider.specs.Metadata.{has_reordering, is_tailored};
ghost use Rattle.icu_table_provider.specs.Requests.{request_of, without_type};
ghost use Rattle.icu_table_provider.specs.StoredTables.{diacritics_of, reordering_of};
ghost use Rattle.icu_table_data.specs.StoredData.{data_of};
ghost use Rattle.icu_table_provider.specs.LoadedTables.{diacritics_request, if_named, loaded_tables, typed_first};
ghost use Rattle.icu_table_provider.specs.TableSets.{tables_in};

use crate::diacritics::CollationDiacritics;
use crate::metadata::CollationMetadata;
use crate::provider::CollationProvider;
use crate::reordering::CollationReordering;
use crate::request::DataRequest;
use crate::table_set::TableSet;
use icu_table_data::CollationData;
use icu_table_entries::DataError;

/// The request for the locale alone.
fn without_type(request: DataRequest<'_>) -> DataRequest<'_>
    ensures { request_of result ≡ without_type (request_of request.entry) }
{
    DataRequest {
        locale: request.locale,
        collation_type: None,
    }
}

/// The metadata: with the type, or else without.
fn load_metadata<P: CollationProvider>(
    provider: &P,
    request: DataRequest<'_>,
) -> Result<CollationMetadata, DataError>
    ensures { answer (λ m. m.bits) result
        ≡ typed_first (P.loads provider.now).metadata (request_of request.entry) }
{
    match provider.load_metadata(request) {
        Err(_) if request.collation_type.is_some() => {
            provider.load_metadata(without_type(request))
        }
        answer => answer,
    }
}

/// The tailoring: with the type, or else without.
fn load_tailoring<'p, P: CollationProvider>(
    provider: &'p P,
    request: DataRequest<'_>,
) -> Result<CollationData<'p>, DataError>
    ensures { answer data_of result
        ≡ typed_first (P.loads provider.now).tailoring (request_of request.entry) }
{
    match provider.load_tailoring(request) {
        Err(_) if request.collation_type.is_some() => {
            provider.load_tailoring(without_type(request))
        }
        answer => answer,
    }
}

/// The reordering: with the type, or else without.
fn load_reordering<'p, P: CollationProvider>(
    provider: &'p P,
    request: DataRequest<'_>,
) -> Result<CollationReordering<'p>, DataError>
    ensures { answer reordering_of result
        ≡ typed_first (P.loads provider.now).reordering (request_of request.entry) }
{
    match provider.load_reordering(request) {
        Err(_) if request.collation_type.is_some() => {
            provider.load_reordering(without_type(request))
        }
        answer => answer,
    }
}

/// The tailoring that the metadata names.
fn named_tailoring<'p, P: CollationProvider>(
    provider: &'p P,
    request: DataRequest<'_>,
    metadata: CollationMetadata,
) -> Result<Option<CollationData<'p>>, DataError>
    ensures { answer (option_map data_of) result ≡ if_named (is_tailored metadata.bits)
        (typed_first (P.loads provider.now).tailoring (request_of request.entry)) }
{
    if !metadata.tailored() {
        return Ok(None);
    }
    Ok(Some(load_tailoring(provider, request)?))
}

/// The reordering that the metadata names.
fn named_reordering<'p, P: CollationProvider>(
    provider: &'p P,
    request: DataRequest<'_>,
    metadata: CollationMetadata,
) -> Result<Option<CollationReordering<'p>>, DataError>
    ensures { answer (option_map reordering_of) result ≡ if_named (has_reordering metadata.bits)
        (typed_first (P.loads provider.now).reordering (request_of request.entry)) }
{
    if !metadata.reordering() {
        return Ok(None);
    }
    Ok(Some(load_reordering(provider, request)?))
}

/// The diacritics of the collation's own, or the root's.
fn load_diacritics<'p, P: CollationProvider>(
    provider: &'p P,
    request: DataRequest<'_>,
    metadata: CollationMetadata,
) -> Result<CollationDiacritics<'p>, DataError>
    ensures { answer diacritics_of result ≡ (P.loads provider.now).diacritics
        (diacritics_request metadata.bits (request_of request.entry)) }
{
    if metadata.tailored_diacritics() {
        provider.load_diacritics(request)
    } else {
        provider.load_diacritics(DataRequest::default())
    }
}

/// Asks a provider for the tables of a locale's collation, in the order root, jamo, special primary weights, metadata,
/// tailoring, reordering, diacritics. `locale` and `collation_type` are handed on as they are.
///
/// Metadata, tailoring and reordering are asked for with locale and type, and after an error with the locale alone;
/// where no type is given they are asked for once. A tailoring or a reordering is asked for only where the metadata
/// says that there is one. Diacritics of the collation's own are asked for with locale and type, once, and others by
/// the empty request. The last error of the first table that isn't returned is returned as it is. The tables aren't
/// checked.
#[tactic(auto, unfolding(crate::specs::TableSets::tables_in, crate::specs::LoadedTables::loaded_tables))]
pub fn load_tables<'p, P: CollationProvider>(
    provider: &'p P,
    locale: &str,
    collation_type: Option<&str>,
) -> Result<TableSet<'p>, DataError>
    ensures { answer tables_in result ≡ loaded_tables (P.loads provider.now) (record {
      locale = locale.now;
      collation_type = option_map (λ t. t.now) collation_type.entry;
    }) }
{
    let request = DataRequest {
        locale,
        collation_type,
    };
    let root = provider.load_root()?;
    let jamo = provider.load_jamo()?;
    let special = provider.load_special_primaries()?;
    let metadata = load_metadata(provider, request)?;
    let tailoring = named_tailoring(provider, request, metadata)?;
    let reordering = named_reordering(provider, request, metadata)?;
    let diacritics = load_diacritics(provider, request, metadata)?;
    Ok(TableSet {
        root,
        jamo,
        special,
        metadata,
        tailoring,
        reordering,
        diacritics,
    })
}
