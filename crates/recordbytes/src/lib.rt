// Bytes of a record: what a byte may be, walks over bytes, parts by their positions, numbers in digits.
#![tactic(auto)]

mod class;
mod numbers;
mod spans;
mod walks;

pub use class::{ByteClass, Digit, Plain, Space};
pub use numbers::{MOST_DIGITS, digits_write_numbers, number, number_at, write_digits};
pub use spans::span;
pub use walks::{all_digits, all_inside, first_forbidden, first_outside};

// The number of bytes in a record.
pub const RECORD_LENGTH: usize = 128;

// The bytes of a record.
pub type RecordBytes = [u8; RECORD_LENGTH];

#[cfg(test)]
mod tests;
