// Where records come from: a source is a list of slots, cut from the bytes of a file in one of two ways.
#![tactic(auto)]

mod deliver;
mod lines;
mod packed;
mod places;
mod source;

pub use lines::Lines;
pub use packed::Packed;
pub use source::{Damage, NoRecord, Source, TOO_LONG, TOO_SHORT};

#[cfg(test)]
mod tests;
