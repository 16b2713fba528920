// The rows of a cash book: their fields, and the test that makes fields a row.
#![tactic(auto)]

mod account;
mod fields;
mod formed;
mod laws;
mod row;

pub use account::is_of;
pub use fields::{BLANK, Fields, MovementFields, Rank, StatementFields};
pub use laws::rows_hold;
pub use row::Row;

// The number of bytes of an account: how it is numbered, then the account and its currency.
pub const ACCOUNT_LENGTH: usize = 38;

// The bytes of an account.
pub type Account = [u8; ACCOUNT_LENGTH];

// The most movement rows that a statement row can count.
pub const MOST_MOVEMENTS: u32 = 100_000;
