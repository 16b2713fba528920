// The bytes of an image: a header, and rows of 256 bytes behind it.
#![tactic(auto)]

mod headers;
mod laws;

pub use headers::{HEADER_LENGTH, header};
pub use laws::images_read_back;
