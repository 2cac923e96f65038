//! Table files of CLDR's collations: the tables of a root or a locale as the bytes of a file.
pub mod compiled;

pub use compiled::{TablesRequest, compiled_tables};
