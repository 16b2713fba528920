// Reading a row by its positions, counted from 1.
ghost use Rattle.std.specs.Prelude.{◌≡◌, ◌+◌, ◌-◌, ◌≤◌};
ghost use Rattle.std.specs.Option.{option_map};
ghost use Rattle.std.specs.Bool.{then_some};
ghost use Rattle.recordbytes.specs.Numbers.{value};
ghost use Rattle.recordbytes.specs.Spans.{span as span_of};
ghost use Rattle.rows.specs.Held.{fields_of};
ghost use Rattle.rowbytes.specs.RowBytes.{rank_of, balance_read, movement_read, statement_read, row_read, is_row_bytes};

use crate::writes::row_bytes;
use crate::{DETAIL, ROW_LENGTH, STATEMENT};
use recordbytes::{number, span};
use rows::{Fields, MovementFields, Rank, Row, StatementFields};
use values::signed;

// The part of so many bytes whose first byte is at a position.
fn part<const N: usize>(bytes: &[u8; ROW_LENGTH], first: usize) -> [u8; N]
    requires { (1 ≤ first) × (first + N ≤ 257) }
    ensures { result ≡ span_of bytes.now first (first - 1 + N) }
{
    *span(bytes, first, first - 1 + N).first_chunk().unwrap()
}

// The rank that the first byte of a movement means. No From: the rank is of crate rows, and which byte means it is decided here.
fn rank(byte: u8) -> Rank
    ensures { result ≡ rank_of byte }
{
    if byte == DETAIL {
        Rank::Detail
    } else {
        Rank::Main
    }
}

// The thousandths that a sign byte and fifteen digits mean.
fn balance(bytes: &[u8; 16]) -> i64
    ensures { result ≡ balance_read bytes.now }
{
    signed(bytes[0], &bytes[1..])
}

// The number that six digits write.
fn six_digits(bytes: &[u8; 6]) -> u32
    ensures { result ≡ value bytes.now }
{
    number(bytes) as u32
}

// The fields of a movement row at their positions.
fn read_movement(bytes: &[u8; ROW_LENGTH]) -> MovementFields
    ensures { result ≡ movement_read bytes.now }
{
    MovementFields {
        rank: rank(bytes[0]),
        sign: bytes[1],
        amount: part(bytes, 3),
        value_day: part(bytes, 18),
        entry_day: part(bytes, 24),
        code: part(bytes, 30),
        sequence: part(bytes, 38),
        detail: part(bytes, 42),
        reference: part(bytes, 46),
        structured: bytes[66],
        communication: part(bytes, 68),
        counterparty_account: part(bytes, 121),
        counterparty_name: part(bytes, 158),
    }
}

// The fields of a statement row at their positions.
fn read_statement(bytes: &[u8; ROW_LENGTH]) -> StatementFields
    ensures { result ≡ statement_read bytes.now }
{
    StatementFields {
        account: part(bytes, 2),
        old_balance: balance(&part(bytes, 40)),
        new_balance: balance(&part(bytes, 56)),
        old_day: part(bytes, 72),
        new_day: part(bytes, 78),
        movements: six_digits(&part(bytes, 84)),
    }
}

// The fields of a row, by its first byte.
fn read_fields(bytes: &[u8; ROW_LENGTH]) -> Fields
    ensures { result ≡ row_read bytes.now }
{
    if bytes[0] == STATEMENT {
        return Fields::Statement(read_statement(bytes));
    }
    Fields::Movement(read_movement(bytes))
}

// The row that the bytes write; none where they are not exactly the bytes of a row.
pub fn read_row(bytes: &[u8]) -> Option<Row>
    ensures { option_map fields_of result ≡ then_some (is_row_bytes bytes.now) (row_read bytes.now) }
{
    let bytes = bytes.as_array()?;
    let row = Row::new(read_fields(bytes))?;
    (row_bytes(&row) == *bytes).then_some(row)
}
