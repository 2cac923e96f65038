//! The weights that a level of a collation has for the elements of a text (UTS #10, "Form Sort Keys"), one by one, and
//! which element bears a weight.
pub mod bearing_element;
pub mod common_weights;
pub mod level_weighing;
pub mod order_level;
mod weight_at;
pub mod weights_of_elements;

pub use bearing_element::elements_with;
pub use common_weights::common_length;
pub use level_weighing::LevelWeighing;
pub use order_level::OrderLevel;
pub use weights_of_elements::element_weights;
