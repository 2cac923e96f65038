//! What a provider is asked for.
ghost use Rattle.std.specs.Prelude.{◌≡◌, None, []};

/// What a provider is asked for: the tables of a locale's collation. It is text alone; what it means is the provider's
/// matter.
#[derive(Debug, Clone, Copy, PartialEq)]
pub struct DataRequest<'a> {
    /// The locale, as the provider names it; "" for the root.
    pub locale: &'a str,
    /// The type of the collation in that locale, such as "trad".
    pub collation_type: Option<&'a str>,
}

impl<'a> Default for DataRequest<'a> {
    ghost use Rattle.icu_table_provider.specs.Requests.{IsEmptyRequest};

    ghost is_default = { IsEmptyRequest };

    /// The empty request: the root, and no type.
    fn default() -> Self {
        DataRequest {
            locale: "",
            collation_type: None,
        }
    }
}
