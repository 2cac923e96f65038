//! The order of weights while rules are read.
mod change;
pub mod counting_elements;
mod linked;
mod links;
mod listed;
mod lists;
pub mod parents;
pub mod positions;
pub mod root_weights;
pub mod rule_elements;
mod siblings;
mod stop;
mod tailored_siblings;
pub mod tree;

pub use counting_elements::{counting_at, last_or_ignorable};
pub use parents::Parents;
pub use positions::position_element;
pub use root_weights::RootWeights;
pub use rule_elements::RuleElements;
pub use tree::WeightTreeBuilder;
