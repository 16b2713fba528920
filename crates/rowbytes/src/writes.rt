// Writing a row.
ghost use Rattle.std.specs.Prelude.{◌≡◌, true};
ghost use Rattle.recordbytes.specs.Numbers.{digits};
ghost use Rattle.values.specs.Money.{is_amount, written};
ghost use Rattle.rows.specs.Held.{fields_of};
ghost use Rattle.rows.specs.Rows.{is_statement};
ghost use Rattle.rowbytes.specs.RowBytes.{padded as padded_of, letter_of, movement_parts, statement_parts, row_bytes};

use crate::joins::padded;
use crate::{DETAIL, MAIN, ROW_LENGTH, STATEMENT};
use recordbytes::write_digits;
use rows::{Fields, MovementFields, Rank, Row, StatementFields};
use values::Money;

// The first byte of a movement. No From: the rank is of crate rows, and which byte means it is decided here.
fn letter(rank: Rank) -> u8
    ensures { result ≡ letter_of rank }
{
    match rank {
        Rank::Main => MAIN,
        Rank::Detail => DETAIL,
    }
}

// The sign byte and the fifteen digits of a balance; zero has the sign of a credit.
fn balance(thousandths: i64) -> [u8; 16]
    requires { is_amount thousandths ≡ true }
    ensures { result ≡ written thousandths }
{
    let mut out = [0; 16];
    Money::new(thousandths).unwrap().write(&mut out);
    out
}

// A number in six digits.
fn six_digits(number: u32) -> [u8; 6]
    ensures { result ≡ digits 6 number }
{
    let mut out = [0; 6];
    write_digits(&mut out, u64::from(number));
    out
}

// The bytes of a movement row.
fn movement_bytes(m: &MovementFields) -> [u8; ROW_LENGTH]
    ensures { result ≡ padded_of (movement_parts m.now) }
{
    padded(&[
        &[letter(m.rank)],
        &[m.sign],
        &m.amount,
        &m.value_day,
        &m.entry_day,
        &m.code,
        &m.sequence,
        &m.detail,
        &m.reference,
        &[m.structured],
        &m.communication,
        &m.counterparty_account,
        &m.counterparty_name,
    ])
}

// The bytes of a statement row.
fn statement_bytes(s: &StatementFields) -> [u8; ROW_LENGTH]
    requires { is_statement s.now ≡ true }
    ensures { result ≡ padded_of (statement_parts s.now) }
{
    padded(&[
        &[STATEMENT],
        &s.account,
        &balance(s.old_balance),
        &balance(s.new_balance),
        &s.old_day,
        &s.new_day,
        &six_digits(s.movements),
    ])
}

// The bytes that write a row.
pub fn row_bytes(row: &Row) -> [u8; ROW_LENGTH]
    ensures { result ≡ row_bytes (fields_of row.now) }
{
    match row.fields() {
        Fields::Movement(m) => movement_bytes(&m),
        Fields::Statement(s) => statement_bytes(&s),
    }
}
