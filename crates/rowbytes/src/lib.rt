// A row as 256 bytes.
#![tactic(auto)]

mod accounts;
mod joins;
mod laws;
mod reads;
#[cfg(test)]
mod tests;
mod writes;

pub use accounts::is_statement_of;
pub use laws::rows_read_back;
pub use reads::read_row;
pub use writes::row_bytes;

// The number of bytes that write a row.
pub const ROW_LENGTH: usize = 256;

// The first byte of a main movement.
const MAIN: u8 = b'M';

// The first byte of a detail of a movement.
const DETAIL: u8 = b'D';

// The first byte of a statement.
const STATEMENT: u8 = b'S';
