//! Which relations of rules hold by all of them (UTS #35 part 5, "Collation Tailorings").
pub mod held_relations;
mod related;

pub use held_relations::relation_holds;
