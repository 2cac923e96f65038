//! The root collation of CLDR, read from the file in which the Unicode consortium publishes it, FractionalUCA.txt (UTS
//! #35 part 5, "Root Collation Data Files").
#![tactic(auto)]

mod assembly;
mod character_entries;
mod collected;
mod compressible_leads;
mod digits;
pub mod error;
pub mod expected;
pub mod file_facts;
pub mod fixed_bytes;
pub mod fractional_element;
pub mod hexadecimal;
mod ideograph_entries;
pub mod ideograph_order;
mod ideograph_weights;
pub mod ideographs;
pub mod line;
mod line_elements;
mod line_reader;
pub mod mapping;
mod names;
pub mod radical_line;
mod range_places;
pub mod reserved;
pub mod root;
mod special;

pub use error::{LineErrorKind, Missing, ReadError};
pub use expected::{Expected, LineError};
pub use file_facts::FileFacts;
pub use fixed_bytes::{FixedByte, FixedName};
pub use fractional_element::{FractionalElement, Primary};
pub use ideograph_order::IdeographOrder;
pub use ideographs::CharRange;
pub use line::{LeadByte, Line};
pub use mapping::Mapping;
pub use radical_line::RadicalLine;
pub use reserved::{ReservedPlace, ReservedRange};
pub use root::{CldrRoot, read_root, read_root_by};
