// Movements: main movements and details.
ghost use Rattle.std.specs.Prelude.{◌≡◌, ◌+◌, ◌==◌, is_some, IfSome};
ghost use Rattle.grammar.specs.Places.{booked};
ghost use Rattle.grammar.specs.Rules.{succeeding, apart, detail_type, has_room, main_rules, detail_rules, under};
ghost use Rattle.grammar.specs.Steps.{led_by_movement, after_main, after_detail, take_movement};
ghost use Rattle.reader.specs.Means.{numbers_of, sums_of, place_of, meant};

use crate::levels::Levels;
use crate::state::{Numbers, Standing, Sums};
use crate::taking::{Taking, rule};
use fields::{
    amount, detail, is_debit, level, link, next, reference, sequence, signed_amount, type_digit,
};
use grammar::Expect;
use grammar::StatementFault::{self, Money, Number};
use grammar::positions::{AMOUNT, CODES, DETAIL, LEVEL, SEQUENCE, TYPE};
use order::{behind, is_opened};
use recordbytes::RecordBytes;

const LARGEST_SUM: u64 = 999_999_999_999_999;

// Whether a number is the successor of one of four digits.
pub(crate) fn succeeds(number: u64, before: u64) -> bool
    ensures { result ≡ (number == succeeding before) }
{
    if before == 9999 {
        number == 0
    } else {
        before.checked_add(1) == Some(number)
    }
}

// Next and link are not both 1.
pub(crate) fn codes_apart(bytes: &RecordBytes) -> bool
    ensures { result ≡ (apart bytes.now).kept }
{
    !(next(bytes) && link(bytes))
}

// The type of a detail fits under that of its main movement.
fn type_fits(main: u64, seven: bool, detail: u64) -> bool
    ensures { result ≡ detail_type main seven detail }
{
    match (main, detail) {
        (1, 5) | (2, 6 | 7) | (3, 8) => true,
        (2, 9) => seven,
        _ => false,
    }
}

impl Taking<'_> {
    // The sums behind a main movement, where both stay within their limit.
    fn booked(&self) -> Option<Sums>
        ensures room { is_some result ≡ has_room (place_of self.now.standing.now).sums self.now.bytes.now }
        ensures booked { IfSome result (λ sums. sums_of sums (self.now.standing.now.count + 1) ≡ booked (place_of self.now.standing.now).sums self.now.bytes.now) }
    {
        let sums = &self.standing.sums;
        let amount = amount(self.bytes);
        let (debits, credits) = if is_debit(self.bytes) {
            (sums.debits + amount, sums.credits)
        } else {
            (sums.debits, sums.credits + amount)
        };
        if debits > LARGEST_SUM || credits > LARGEST_SUM {
            return None;
        }
        Some(Sums {
            account: sums.account,
            balance: sums.balance + signed_amount(self.bytes),
            debits,
            credits,
        })
    }

    // Behind a movement.
    fn led_by_movement(&self, numbers: Numbers, sums: Sums) -> Standing
        ensures { place_of result ≡ led_by_movement (place_of self.now.standing.now) self.now.bytes.now (numbers_of numbers) (sums_of sums (self.now.standing.now.count + 1)) }
    {
        Standing {
            expect: behind(next(self.bytes), link(self.bytes), Expect::Second),
            numbers,
            sums,
            count: self.standing.count + 1,
            movements: self.standing.movements + 1,
            ..*self.standing
        }
    }

    fn take_main(&self) -> Result<Standing, StatementFault>
        ensures { meant result ≡ under (main_rules (place_of self.now.standing.now).numbers (place_of self.now.standing.now).sums self.now.bytes.now) (after_main (place_of self.now.standing.now) self.now.bytes.now) }
    {
        let bytes = self.bytes;
        let numbers = &self.standing.numbers;
        rule(
            succeeds(sequence(bytes), numbers.sequence) && numbers.levels.none_open(),
            Number(SEQUENCE),
        )?;
        rule(detail(bytes) == 0, Number(DETAIL))?;
        let sums = self.booked().ok_or(Money(AMOUNT))?;
        rule(type_digit(bytes) <= 3, Number(TYPE))?;
        rule(type_digit(bytes) != 0 || level(bytes) == 0, Number(LEVEL))?;
        rule(codes_apart(bytes), Number(CODES))?;
        let numbers = Numbers {
            sequence: sequence(bytes),
            detail: detail(bytes),
            reference: *reference(bytes),
            main_type: type_digit(bytes),
            seven: false,
            levels: Levels::first(bytes),
        };
        Ok(self.led_by_movement(numbers, sums))
    }

    fn take_detail(&self) -> Result<Standing, StatementFault>
        ensures { meant result ≡ under (detail_rules (place_of self.now.standing.now).numbers self.now.bytes.now) (after_detail (place_of self.now.standing.now) self.now.bytes.now) }
    {
        let bytes = self.bytes;
        let numbers = &self.standing.numbers;
        rule(numbers.main_type != 0, Number(SEQUENCE))?;
        rule(succeeds(detail(bytes), numbers.detail), Number(DETAIL))?;
        rule(
            type_fits(numbers.main_type, numbers.seven, type_digit(bytes)),
            Number(TYPE),
        )?;
        let levels = numbers.levels.behind(bytes).ok_or(Number(LEVEL))?;
        rule(codes_apart(bytes), Number(CODES))?;
        let numbers = Numbers {
            detail: detail(bytes),
            reference: *reference(bytes),
            seven: numbers.seven || type_digit(bytes) == 7,
            levels,
            ..*numbers
        };
        Ok(self.led_by_movement(numbers, self.standing.sums))
    }

    // The current sequence number makes a movement a detail, unless it is the first of its statement.
    pub(crate) fn take_movement(&self) -> Result<Standing, StatementFault>
        ensures { meant result ≡ take_movement (place_of self.now.standing.now) self.now.bytes.now }
    {
        let first = is_opened(self.standing.expect);
        if sequence(self.bytes) == self.standing.numbers.sequence && !first {
            self.take_detail()
        } else {
            self.take_main()
        }
    }
}
