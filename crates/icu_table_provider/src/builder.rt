//! Roots and tailorings that own their lists, and the builder that puts them together.
mod added_context;
mod blocks;
pub mod data_builder;
pub mod data_vectors;

pub use data_builder::DataBuilder;
pub use data_vectors::{DataVectors, OwnedData};
