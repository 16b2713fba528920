// Numbers written in digits.
ghost use Rattle.std.specs.Prelude.{◌≡◌, ◌+◌, ◌^◌, ◌<◌, ◌≤◌, length, take};
ghost use Rattle.recordbytes.specs.Spans.{span as span_of};
ghost use Rattle.recordbytes.specs.Numbers.{value as value_of, digits as digits_of, DigitsWriteNumbers};

use crate::spans::span;

// The most digits that a field has.
pub const MOST_DIGITS: usize = 15;

// The number in the first fifteen digits, which are all that a field has. Its bound is a clause and no type,
// since all who call this go on with a plain number.
pub fn number(digits: &[u8]) -> u64
    ensures value { result ≡ value_of (take 15 digits.now) }
    ensures whole { length digits.now ≤ 15 → result ≡ value_of digits.now }
    ensures bound { result < 2 ^ 55 }
{
    let width = digits.len().min(MOST_DIGITS);
    number_of_few(&digits[0..width])
}

fn number_of_few(digits: &[u8]) -> u64
    requires { length digits.now ≤ 15 }
    ensures value { result ≡ value_of digits.now }
    ensures bound { result < 2 ^ 55 }
{
    let mut number: u64 = 0;
    for byte in digits {
        number = number * 10 + u64::from(byte.saturating_sub(b'0'));
    }
    number
}

// The number in the digits at the positions `first` to `last`, of which there are at most fifteen.
pub fn number_at(bytes: &[u8], first: usize, last: usize) -> u64
    ensures value { last ≤ first + 14 → result ≡ value_of (span_of bytes.now first last) }
    ensures bound { result < 2 ^ 55 }
{
    number(span(bytes, first, last))
}

// Writes the last digits of a number, as many as there is room for.
pub fn write_digits(out: &mut [u8], number: u64)
    ensures { out.new ≡ digits_of (length out.old) number }
{
    let mut rest = number;
    // by places, since behind `iter_mut().rev()` nothing is known of the elements
    for i in (0..out.len()).rev() {
        out[i] = (rest % 10) as u8 + b'0';
        rest /= 10;
    }
}

// Digits and numbers below a power of ten are the same thing, width by width.
pub fn digits_write_numbers()
    ensures { DigitsWriteNumbers }
{}
