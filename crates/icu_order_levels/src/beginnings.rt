//! Which sort keys begin with the primary level of another, as mathematics over lists of numbers, and between which
//! bounds they stand (UTS #10, "Compare Sort Keys").
pub mod bytes_above;
pub mod laws;

pub use bytes_above::raise;
