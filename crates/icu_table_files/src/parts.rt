//! Lists of numbers as bytes, and parts behind their lengths: what a file of tables is made of. Each reader takes just
//! the bytes that its writer makes.
pub mod counted_parts;
pub mod form_error;
pub mod frame;
pub mod frame_error;
pub mod number_lists;
pub mod number_readers;
pub mod one_reading;

pub use counted_parts::{parts_of, push_part};
pub use form_error::FormError;
pub use frame::{with_frame, without_frame};
pub use frame_error::FrameError;
pub use number_lists::{chars_as_bytes, u16s_as_bytes, u32s_as_bytes, u64s_as_bytes};
pub use number_readers::{
    chars_from_bytes, split_u32, u16s_from_bytes, u32s_from_bytes, u64s_from_bytes,
};
