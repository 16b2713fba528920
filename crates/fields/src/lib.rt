// What records say, read by position, whatever their bytes are.
#![tactic(auto)]

ghost use Rattle.std.specs.Prelude.{◌≡◌, ◌+◌, ◌^◌, ◌<◌, ◌≤◌, unsigned_abs};
ghost use Rattle.recordbytes.specs.Numbers.{value as value_of};
ghost use Rattle.recordbytes.specs.Spans.{span as span_of};
ghost use Rattle.values.specs.Money.{signed as signed_of};
ghost use Rattle.grammar.specs.Fields.{byte_at, signed_amount, old_amount, new_amount, digit_of, sequence, detail, reference, next, link, is_debit, amount, type, level, old_account, new_account, count, debit_sum, credit_sum, another};

use recordbytes::{RecordBytes, number_at, span};
use values::signed;

// What bounds a number is a clause and no type: all who call these functions go on with a plain number.

// The number of bytes of a bank's reference.
pub const REFERENCE_LENGTH: usize = 21;

// The number of bytes of an account with its currency.
pub const ACCOUNT_LENGTH: usize = 37;

// The thousandths that the sign byte at a position and the fifteen digits behind it mean.
#[tactic(auto, using(recordbytes::proofs::Spanning::length_span, std::proofs::lemmas::Int::ints))]
fn signed_at(bytes: &RecordBytes, sign: usize) -> i64
    requires { (0 < sign) × (sign ≤ 128) }
    ensures value { result ≡ signed_of (byte_at bytes.now sign) (value_of (span_of bytes.now (sign + 1) (sign + 15))) }
    ensures bound { unsigned_abs result < 2 ^ 55 }
{
    signed(bytes[sign - 1], span(bytes, sign + 1, sign + 15))
}

fn digit_of(byte: u8) -> u64
    ensures value { result ≡ digit_of byte }
    ensures bound { result ≤ 9 }
{
    match byte {
        b'0'..=b'9' => u64::from(byte - b'0'),
        _ => 0,
    }
}

pub fn sequence(bytes: &RecordBytes) -> u64
    ensures value { result ≡ sequence bytes.now }
    ensures bound { result < 2 ^ 55 }
{
    number_at(bytes, 3, 6)
}

pub fn detail(bytes: &RecordBytes) -> u64
    ensures value { result ≡ detail bytes.now }
    ensures bound { result < 2 ^ 55 }
{
    number_at(bytes, 7, 10)
}

pub fn reference(bytes: &RecordBytes) -> &[u8; REFERENCE_LENGTH]
    ensures { result.now ≡ reference bytes.now }
{
    bytes[10..31].as_array().unwrap()
}

pub fn next(bytes: &RecordBytes) -> bool
    ensures { result ≡ next bytes.now }
{
    bytes[125] == b'1'
}

pub fn link(bytes: &RecordBytes) -> bool
    ensures { result ≡ link bytes.now }
{
    bytes[127] == b'1'
}

pub fn is_debit(bytes: &RecordBytes) -> bool
    ensures { result ≡ is_debit bytes.now }
{
    bytes[31] == b'1'
}

pub fn amount(bytes: &RecordBytes) -> u64
    ensures value { result ≡ amount bytes.now }
    ensures bound { result < 2 ^ 55 }
{
    number_at(bytes, 33, 47)
}

pub fn signed_amount(bytes: &RecordBytes) -> i64
    ensures value { result ≡ signed_amount bytes.now }
    ensures bound { unsigned_abs result < 2 ^ 55 }
{
    signed_at(bytes, 32)
}

// The type, the first digit of the transaction code.
pub fn type_digit(bytes: &RecordBytes) -> u64
    ensures value { result ≡ type bytes.now }
    ensures bound { result ≤ 9 }
{
    digit_of(bytes[53])
}

pub fn level(bytes: &RecordBytes) -> u64
    ensures value { result ≡ level bytes.now }
    ensures bound { result ≤ 9 }
{
    digit_of(bytes[124])
}

pub fn count(bytes: &RecordBytes) -> u64
    ensures { result ≡ count bytes.now }
{
    number_at(bytes, 17, 22)
}

pub fn debit_sum(bytes: &RecordBytes) -> u64
    ensures { result ≡ debit_sum bytes.now }
{
    number_at(bytes, 23, 37)
}

pub fn credit_sum(bytes: &RecordBytes) -> u64
    ensures { result ≡ credit_sum bytes.now }
{
    number_at(bytes, 38, 52)
}

pub fn another(bytes: &RecordBytes) -> bool
    ensures { result ≡ another bytes.now }
{
    bytes[127] == b'1'
}

pub fn old_account(bytes: &RecordBytes) -> &[u8; ACCOUNT_LENGTH]
    ensures { result.now ≡ old_account bytes.now }
{
    bytes[5..42].as_array().unwrap()
}

pub fn old_amount(bytes: &RecordBytes) -> i64
    ensures value { result ≡ old_amount bytes.now }
    ensures bound { unsigned_abs result < 2 ^ 55 }
{
    signed_at(bytes, 43)
}

pub fn new_account(bytes: &RecordBytes) -> &[u8; ACCOUNT_LENGTH]
    ensures { result.now ≡ new_account bytes.now }
{
    bytes[4..41].as_array().unwrap()
}

pub fn new_amount(bytes: &RecordBytes) -> i64
    ensures { result ≡ new_amount bytes.now }
{
    signed_at(bytes, 42)
}
