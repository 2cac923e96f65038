//! A fingerprint of what sort keys depend on: tables, settings and versions, as 32 bytes (SHA-256, FIPS 180-4). It is
//! stored beside keys, which are made anew where it differs.
mod data_form;
mod fingerprint_of;
mod form_words;
pub mod laws;
mod setting_numbers;

pub use fingerprint_of::{fingerprint, fingerprint_by};
