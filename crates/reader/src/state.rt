// Where a file stands behind the records read so far.
ghost use Rattle.std.specs.Prelude.{◌+◌, ◌^◌, ◌≤◌, unsigned_abs};
ghost use Rattle.grammar.specs.Lawful.{largest_sum};

use crate::levels::Levels;
use fields::{ACCOUNT_LENGTH, REFERENCE_LENGTH};
use grammar::Expect;

// The current numbers, the latest reference, and what has come under the latest main movement.
#[derive(Clone, Copy)]
pub(crate) struct Numbers {
    pub(crate) sequence: u64,
    pub(crate) detail: u64,
    pub(crate) reference: [u8; REFERENCE_LENGTH],
    // the type of the main movement: a digit and no enum, since the rules compare it as one; 0 before there is any
    pub(crate) main_type: u64,
    // whether a detail of type 7 has come under it
    pub(crate) seven: bool,
    pub(crate) levels: Levels,
}

// The account of the statement, and its money so far.
#[derive(Clone, Copy)]
pub(crate) struct Sums {
    pub(crate) account: [u8; ACCOUNT_LENGTH],
    pub(crate) balance: i64,
    pub(crate) debits: u64,
    pub(crate) credits: u64,
    ghost debits_bound: { debits ≤ largest_sum },
    ghost credits_bound: { credits ≤ largest_sum },
    ghost balance_bound: { unsigned_abs balance ≤ 2 ^ 55 + debits + credits },
}

// What may come next, and what the records so far come to.
#[derive(Clone, Copy)]
pub(crate) struct Standing {
    pub(crate) expect: Expect,
    pub(crate) numbers: Numbers,
    pub(crate) sums: Sums,
    // how many records of the statement count
    pub(crate) count: u64,
    pub(crate) statements: usize,
    pub(crate) movements: usize,
}

// With the number of records read, which no count passes by more than one.
#[derive(Clone, Copy)]
pub(crate) struct State {
    pub(crate) standing: Standing,
    pub(crate) read: u64,
    ghost count_bound: { standing.count ≤ read + 1 },
    ghost statements_bound: { standing.statements ≤ read },
    ghost movements_bound: { standing.movements ≤ read },
}
