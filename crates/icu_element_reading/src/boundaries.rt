//! Laws of reading a text: a character at a time, in pieces, or as far as a step looks (UTS #10, "Produce Collation
//! Element Arrays"). Beside them the scan of a run of marks.
pub mod boundary_tables;
pub mod laws;
pub mod marks_in_order;

pub use boundary_tables::Boundaries;
pub use marks_in_order::rises_from;
