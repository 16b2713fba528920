// The fields of rows, plainly: nothing is promised of them.
use crate::{ACCOUNT_LENGTH, Account};

// Whether a movement is a main movement or a detail of one.
#[derive(Clone, Copy, Debug, PartialEq, Eq)]
pub enum Rank {
    Main,
    Detail,
}

// The fields of a movement row, as records write them. Sign and flag are bytes and no enums, since a row is read
// before it is tested.
#[derive(Clone, Copy, Debug, PartialEq, Eq)]
pub struct MovementFields {
    pub rank: Rank,
    pub sign: u8,
    // in thousandths
    pub amount: [u8; 15],
    // zeros where it is not known
    pub value_day: [u8; 6],
    pub entry_day: [u8; 6],
    // the transaction code; its first digit is the type
    pub code: [u8; 8],
    pub sequence: [u8; 4],
    pub detail: [u8; 4],
    pub reference: [u8; 21],
    // 1 for a structured communication
    pub structured: u8,
    pub communication: [u8; 53],
    // spaces where no counterparty was told
    pub counterparty_account: [u8; 37],
    pub counterparty_name: [u8; 35],
}

// The fields of a statement row; balances are in thousandths, negative for a debit.
#[derive(Clone, Copy, Debug, PartialEq, Eq)]
pub struct StatementFields {
    // how the account is numbered, then the account and its currency
    pub account: Account,
    pub old_balance: i64,
    pub new_balance: i64,
    pub old_day: [u8; 6],
    pub new_day: [u8; 6],
    // the number of the statement's movement rows
    pub movements: u32,
}

#[derive(Clone, Copy, Debug, PartialEq, Eq)]
pub enum Fields {
    Movement(MovementFields),
    Statement(StatementFields),
}

// The fields of a statement of nothing, to fill memory and places with.
pub const BLANK: Fields = Fields::Statement(StatementFields {
    account: [b' '; ACCOUNT_LENGTH],
    old_balance: 0,
    new_balance: 0,
    old_day: *b"010100",
    new_day: *b"010100",
    movements: 0,
});
