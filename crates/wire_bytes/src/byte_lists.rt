//! Bytes: owned ones and text, which contracts see as lists; text in UTF-16; fields read one after the other at a
//! place; fields put at the end or into a fixed number of bytes.

mod bytes;
mod cursor;
mod fields;
mod fixed;
mod halves;
mod numbers;
mod out;
mod place;
mod short;
mod text;
mod utf16;

pub use bytes::Bytes;
pub use cursor::Cursor;
pub use fields::fields_fit;
pub use fixed::FixedOut;
pub use halves::{Halves, halves_of};
pub use out::Out;
pub use place::{array_at, u8_at, u16_at, u32_at, u64_at};
pub use short::Short;
pub use spec_wire::TextError;
pub use text::Text;
pub use utf16::{text_of_utf16, utf16_of};
