//! Names with payloads under keys, in a database of the toolchain's `sqlite`, for keys that some other code makes.
pub mod fingerprints;
pub mod name_statements;
pub mod ranges;
pub mod stored_name;

pub use fingerprints::{KeptFingerprint, keep_fingerprint, kept_fingerprint, replace_fingerprint};
pub use name_statements::{insert, insert_within, make_tables, rekey, remove, remove_named};
pub use ranges::{all_names, names_after, names_behind, names_between, names_within};
pub use stored_name::StoredName;
