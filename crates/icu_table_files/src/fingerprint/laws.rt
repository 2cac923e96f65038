//! The law of forms, as a function that makes no call.

ghost use Rattle.icu_table_files.specs.fingerprint.FormLaws.{FormsDetermineKeys};

/// Two collations (tables and settings together) of one form give each text the same key, and any two texts the same
/// order. So keys that were made by the one serve the other. That two forms with one fingerprint are the same is
/// SHA-256's, and isn't proved.
pub fn forms_determine_keys()
    ensures { FormsDetermineKeys }
{}
