// New balances, free communications and trailers.
ghost use Rattle.std.specs.Prelude.{◌≡◌};
ghost use Rattle.grammar.specs.Rules.{first_communication_rules, communication_rules, trailer_rules, under};
ghost use Rattle.grammar.specs.Steps.{after_communication, after_trailer, take_new_balance, take_communication};
ghost use Rattle.reader.specs.Means.{numbers_of, place_of, meant};

use crate::movement::succeeds;
use crate::state::{Numbers, Standing};
use crate::taking::{Taking, rule};
use fields::{
    another, count, credit_sum, debit_sum, detail, link, new_account, new_amount, sequence,
};
use grammar::Expect;
use grammar::StatementFault::{self, Misplaced, Money, Number};
use grammar::positions::{
    ACCOUNT, CODES, COUNT, CREDIT_SUM, DEBIT_SUM, DETAIL, NEW_BALANCE, SEQUENCE,
};
use order::{behind_closing, behind_trailer, is_first_communication, is_opened};

impl Taking<'_> {
    pub(crate) fn take_new_balance(&self) -> Result<Standing, StatementFault>
        ensures { meant result ≡ take_new_balance (place_of self.now.standing.now) self.now.bytes.now }
    {
        let bytes = self.bytes;
        let sums = &self.standing.sums;
        rule(self.standing.numbers.levels.none_open(), Misplaced)?;
        rule(*new_account(bytes) == sums.account, Number(ACCOUNT))?;
        rule(new_amount(bytes) == sums.balance, Money(NEW_BALANCE))?;
        rule(
            !is_opened(self.standing.expect) || link(bytes),
            Number(CODES),
        )?;
        Ok(self.behind_counted(behind_closing(link(bytes), Expect::FirstCommunication)))
    }

    // Behind a free communication.
    fn behind_communication(&self) -> Standing
        ensures { place_of result ≡ after_communication (place_of self.now.standing.now) self.now.bytes.now }
    {
        Standing {
            expect: behind_closing(link(self.bytes), Expect::Communication),
            numbers: Numbers {
                sequence: sequence(self.bytes),
                detail: detail(self.bytes),
                ..self.standing.numbers
            },
            ..*self.standing
        }
    }

    fn take_first_communication(&self) -> Result<Standing, StatementFault>
        ensures { meant result ≡ under (first_communication_rules self.now.bytes.now) (after_communication (place_of self.now.standing.now) self.now.bytes.now) }
    {
        rule(sequence(self.bytes) == 1, Number(SEQUENCE))?;
        rule(detail(self.bytes) == 0, Number(DETAIL))?;
        Ok(self.behind_communication())
    }

    fn take_further_communication(&self) -> Result<Standing, StatementFault>
        ensures { meant result ≡ under (communication_rules (numbers_of self.now.standing.now.numbers) self.now.bytes.now) (after_communication (place_of self.now.standing.now) self.now.bytes.now) }
    {
        let numbers = &self.standing.numbers;
        let (number, part) = (sequence(self.bytes), detail(self.bytes));
        let current = number == numbers.sequence;
        let succeeding = succeeds(number, numbers.sequence);
        rule(current || succeeding, Number(SEQUENCE))?;
        rule(
            current && succeeds(part, numbers.detail) || succeeding && part == 0,
            Number(DETAIL),
        )?;
        Ok(self.behind_communication())
    }

    pub(crate) fn take_communication(&self) -> Result<Standing, StatementFault>
        ensures { meant result ≡ take_communication (place_of self.now.standing.now) self.now.bytes.now }
    {
        if is_first_communication(self.standing.expect) {
            self.take_first_communication()
        } else {
            self.take_further_communication()
        }
    }

    pub(crate) fn take_trailer(&self) -> Result<Standing, StatementFault>
        ensures { meant result ≡ under (trailer_rules (place_of self.now.standing.now).sums self.now.bytes.now) (after_trailer (place_of self.now.standing.now) self.now.bytes.now) }
    {
        let bytes = self.bytes;
        let sums = &self.standing.sums;
        rule(count(bytes) == self.standing.count, Number(COUNT))?;
        rule(debit_sum(bytes) == sums.debits, Money(DEBIT_SUM))?;
        rule(credit_sum(bytes) == sums.credits, Money(CREDIT_SUM))?;
        Ok(Standing {
            expect: behind_trailer(another(bytes)),
            ..*self.standing
        })
    }
}
