// Making, reading and writing amounts.
ghost use Rattle.std.specs.Prelude.{◌≡◌, ◌^◌, ◌<◌, neg_ℤ, unsigned_abs};
ghost use Rattle.std.specs.Option.{option_map};
ghost use Rattle.values.specs.Held.{in_thousandths};
ghost use Rattle.values.specs.Money.{money_made, money_read, sign_of, written};

use super::Money;
use crate::signs::{CREDIT, DEBIT, is_sign, signed};
use recordbytes::{Digit, MOST_DIGITS, all_inside, write_digits};
use std::ops::Neg;

// The most thousandths that fifteen digits write.
const LARGEST_AMOUNT: u64 = 999_999_999_999_999;

impl Money {
    // The amount of so many thousandths; none where it has more than fifteen digits.
    pub fn new(thousandths: i64) -> Option<Money>
        ensures { option_map in_thousandths result ≡ money_made thousandths }
    {
        if thousandths.unsigned_abs() > LARGEST_AMOUNT {
            return None;
        }
        Some(Money { thousandths })
    }

    // The amount that a sign byte and fifteen digits write; none where the bytes are others.
    pub fn read(sign: u8, digits: &[u8]) -> Option<Money>
        ensures { option_map in_thousandths result ≡ money_read sign digits.now }
    {
        if !is_sign(sign) || digits.len() != MOST_DIGITS || !all_inside::<Digit>(digits) {
            return None;
        }
        Some(Money {
            thousandths: signed(sign, digits),
        })
    }

    // The amount in thousandths, negative for a debit.
    pub fn thousandths(&self) -> i64
        ensures value { result ≡ in_thousandths self.now }
        ensures bound { unsigned_abs result < 10 ^ 15 }
    {
        self.thousandths
    }

    // The sign byte: that of a debit for a negative amount, else that of a credit.
    pub fn sign(&self) -> u8
        ensures { result ≡ sign_of (in_thousandths self.now) }
    {
        if self.thousandths < 0 { DEBIT } else { CREDIT }
    }

    // Writes the sign byte and then fifteen digits.
    pub fn write(&self, out: &mut [u8; 16])
        ensures { out.new ≡ written (in_thousandths self.now) }
    {
        out[0] = self.sign();
        write_digits(&mut out[1..16], self.thousandths.unsigned_abs());
    }
}

impl Neg for Money {
    type Output = Money;

    ghost neg_gives = { λ m r. in_thousandths r ≡ neg_ℤ (in_thousandths m) };

    fn neg(self) -> Money {
        Money {
            thousandths: -self.thousandths,
        }
    }
}
