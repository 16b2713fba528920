// What a sign byte and digits mean.
ghost use Rattle.std.specs.Prelude.{◌≡◌, ◌^◌, ◌<◌, ◌≤◌, length, take, unsigned_abs};
ghost use Rattle.recordbytes.specs.Numbers.{value as value_of};
ghost use Rattle.values.specs.Money.{signed as signed_of, is_sign};

use recordbytes::number;

// The sign byte of a credit.
pub const CREDIT: u8 = b'0';

// The sign byte of a debit.
pub const DEBIT: u8 = b'1';

// Whether a byte is the sign of a credit or of a debit.
pub fn is_sign(sign: u8) -> bool
    ensures { result ≡ is_sign sign }
{
    sign == CREDIT || sign == DEBIT
}

// The thousandths that a sign byte and the first fifteen digits mean, negative for a debit.
pub fn signed(sign: u8, digits: &[u8]) -> i64
    ensures value { result ≡ signed_of sign (value_of (take 15 digits.now)) }
    ensures whole { length digits.now ≤ 15 → result ≡ signed_of sign (value_of digits.now) }
    ensures bound { unsigned_abs result < 2 ^ 55 }
{
    let thousandths = number(digits) as i64;
    if sign == DEBIT {
        -thousandths
    } else {
        thousandths
    }
}
