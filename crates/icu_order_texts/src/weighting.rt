//! Variable weighting, and what each level has for an element, for comparisons and keys alike (UTS #10, "Variable
//! Weighting" and "Form Sort Keys").
//!
//! The definitions are those of `specs/`. The code takes one element at a time: how elements are read, compared or
//! written, it doesn't know.
pub mod element_weights;
pub mod form;
pub mod handled_element;
pub mod weighting;

pub use form::{key_form, last_variable};
pub use handled_element::{Handled, HandledSource};
pub use weighting::VariableWeighting;
