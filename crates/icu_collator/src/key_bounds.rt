//! Bounds of sort keys, for those who keep keys: between the two bounds of a text stand exactly the keys of the texts
//! that begin with it at the primary level (ICU's `ucol_getBound`; UTS #10, "Compare Sort Keys").
pub mod key_bounds;
pub mod primary;

pub use icu_order_texts::text_beginnings as laws;
pub use key_bounds::{lower_bound_key, upper_bound_key};
pub use primary::primary_collator;
