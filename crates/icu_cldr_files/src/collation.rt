//! A collation, as its file has it.

/// A collation of a file: `<collation>`.
#[derive(Drop)]
pub struct Collation {
    /// Its type, as `phonebook`: the attribute `type`.
    pub collation_type: String,
    /// Which variant of the type it is, if it isn't the usual one, as `short` or `proposed`: the attribute `alt`.
    pub alt: Option<String>,
    /// How far it is agreed upon, if it isn't yet, as `provisional`: the attribute `draft`.
    pub draft: Option<String>,
    /// Whether users choose it, `external`, or only imports, `internal`: the attribute `visibility`.
    pub visibility: Option<String>,
    /// Its rules: the text of `<cr>`. Empty where it has none, so that the root's order stands.
    pub rules: String,
}
