//! The order theorem of sort keys, as mathematics over lists of numbers.
//!
//! A sort key writes the weight lists of a text one level after another and saves bytes where it can. Runs of the
//! common weight are counted, leads of primaries are dropped, case bits are packed in nibbles, and characters are
//! written as differences. This crate defines those bytes and proves that they order as the lists do. It knows no table
//! and no text.
//!
//! Each theorem is the contract of a function with an empty body, which a caller cites by calling it. Where a theorem
//! speaks of the weights that may occur, they are a type parameter's: it holds whatever predicate they are. The lemma
//! behind each is public and takes the predicate as an argument.
#![tactic(auto)]

pub mod beginnings;
pub mod forms;
pub mod keys;
pub mod levels;
pub mod numbers;
pub mod run_bytes;
pub mod weights;
