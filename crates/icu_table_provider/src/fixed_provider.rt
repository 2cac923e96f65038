//! Providers that return the same tables to each request.
ghost use Rattle.std.specs.Prelude.{◌≡◌};
ghost use Rattle.icu_table_provider.specs.FixedLoads.{AreLoads, fixed_loads};
ghost use Rattle.icu_table_provider.specs.Loads.{Loads};

use crate::diacritics::CollationDiacritics;
use crate::jamo::CollationJamo;
use crate::metadata::CollationMetadata;
use crate::provider::CollationProvider;
use crate::reordering::CollationReordering;
use crate::request::DataRequest;
use crate::special_primaries::CollationSpecialPrimaries;
use icu_table_data::CollationData;
use icu_table_entries::DataError;

/// What each load returns, whatever the request: tables, or errors. The fields are public, so that a test may have it
/// refuse a table, or return another one.
#[derive(Debug, Clone, Copy)]
pub struct FixedLoads<'d> {
    /// The root.
    pub root: Result<CollationData<'d>, DataError>,
    /// The entries of the jamo.
    pub jamo: Result<CollationJamo<'d>, DataError>,
    /// The special primary weights.
    pub special: Result<CollationSpecialPrimaries<'d>, DataError>,
    /// Which tables there are, and the settings.
    pub metadata: Result<CollationMetadata, DataError>,
    /// The tailoring.
    pub tailoring: Result<CollationData<'d>, DataError>,
    /// The reordering.
    pub reordering: Result<CollationReordering<'d>, DataError>,
    /// The secondary weights of the diacritics.
    pub diacritics: Result<CollationDiacritics<'d>, DataError>,
}

/// What returns the same tables for every locale and type. It is a `CollationProvider` by this one call.
pub trait FixedProvider {
    /// What each load returns.
    ghost fixed: { Self → Loads };

    /// What each load returns.
    fn loads(&self) -> FixedLoads<'_>
        ensures { AreLoads (fixed self.now) result };
}

impl<'d> FixedProvider for FixedLoads<'d> {
    ghost fixed = { fixed_loads };

    fn loads(&self) -> FixedLoads<'_> {
        *self
    }
}

impl<P: FixedProvider> CollationProvider for P {
    ghost loads = { P.fixed };

    fn load_root(&self) -> Result<CollationData<'_>, DataError> {
        self.loads().root
    }

    fn load_jamo(&self) -> Result<CollationJamo<'_>, DataError> {
        self.loads().jamo
    }

    fn load_special_primaries(&self) -> Result<CollationSpecialPrimaries<'_>, DataError> {
        self.loads().special
    }

    fn load_metadata(&self, _: DataRequest<'_>) -> Result<CollationMetadata, DataError> {
        self.loads().metadata
    }

    fn load_tailoring(&self, _: DataRequest<'_>) -> Result<CollationData<'_>, DataError> {
        self.loads().tailoring
    }

    fn load_reordering(&self, _: DataRequest<'_>) -> Result<CollationReordering<'_>, DataError> {
        self.loads().reordering
    }

    fn load_diacritics(&self, _: DataRequest<'_>) -> Result<CollationDiacritics<'_>, DataError> {
        self.loads().diacritics
    }
}
