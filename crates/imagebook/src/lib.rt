// The cash book on the caller's bytes: a header, and rows of 256 bytes behind it.
#![tactic(auto)]

mod book;

pub use book::{ImageBook, images_are_exact};
