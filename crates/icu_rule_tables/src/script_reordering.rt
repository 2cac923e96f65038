//! Reorderings of scripts by the codes of a rule `[reorder ..]` (UTS #35 part 5, "Collation Reordering").
mod code_orders;
mod lead_places;
mod placed_reordering;
mod reorder_codes;
mod reordering_error;
mod script_groups;
mod span_checks;

pub use code_orders::script_order;
pub use placed_reordering::script_reordering;
pub use reorder_codes::{ReorderCode, SpecialGroup};
pub use reordering_error::ReorderingError;
pub use script_groups::{ScriptSpan, ScriptStart};
