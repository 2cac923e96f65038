//! Why texts stand in their order: the collation elements of a text, the levels of its sort key, and the level and the
//! characters that decide (UTS #10, "Multi-Level Comparison").
mod deciding_parts;
pub mod explained_levels;
pub mod level_collator;
pub mod printed_reasons;
pub mod reason;

pub use explained_levels::explained_text;
pub use icu_order_texts::level_weights::OrderLevel;
pub use level_collator::{collator_up_to, level_counts};
pub use printed_reasons::{print_explanation, print_reason};
pub use reason::{deciding_level, reason_text};
