// Records that continue another, and information records.
ghost use Rattle.std.specs.Prelude.{◌≡◌};
ghost use Rattle.grammar.specs.Rules.{information_rules, under};
ghost use Rattle.grammar.specs.Steps.{after_counted, after_information, take_repeat};
ghost use Rattle.reader.specs.Means.{place_of, meant};

use crate::movement::{codes_apart, succeeds};
use crate::state::{Numbers, Standing};
use crate::taking::{Taking, rule};
use fields::{detail, link, next, reference, sequence};
use grammar::Expect;
use grammar::StatementFault::{self, Number};
use grammar::positions::{CODES, DETAIL, REFERENCE, SEQUENCE};
use order::behind;

impl Taking<'_> {
    // Behind a record that changes only the count.
    pub(crate) fn behind_counted(&self, expect: Expect) -> Standing
        ensures { place_of result ≡ after_counted (place_of self.now.standing.now) expect }
    {
        Standing {
            expect,
            count: self.standing.count + 1,
            ..*self.standing
        }
    }

    // A record that repeats the numbers of the one before, of which `continued` is the next part.
    pub(crate) fn take_repeat(&self, continued: Expect) -> Result<Standing, StatementFault>
        ensures { meant result ≡ take_repeat (place_of self.now.standing.now) self.now.bytes.now continued }
    {
        let bytes = self.bytes;
        let numbers = &self.standing.numbers;
        rule(sequence(bytes) == numbers.sequence, Number(SEQUENCE))?;
        rule(detail(bytes) == numbers.detail, Number(DETAIL))?;
        rule(codes_apart(bytes), Number(CODES))?;
        Ok(self.behind_counted(behind(next(bytes), link(bytes), continued)))
    }

    // Behind an information record.
    fn behind_information(&self) -> Standing
        ensures { place_of result ≡ after_information (place_of self.now.standing.now) self.now.bytes.now }
    {
        let bytes = self.bytes;
        Standing {
            expect: behind(next(bytes), link(bytes), Expect::InformationSecond),
            numbers: Numbers {
                detail: detail(bytes),
                ..self.standing.numbers
            },
            count: self.standing.count + 1,
            ..*self.standing
        }
    }

    pub(crate) fn take_information(&self) -> Result<Standing, StatementFault>
        ensures { meant result ≡ under (information_rules (place_of self.now.standing.now).numbers self.now.bytes.now) (after_information (place_of self.now.standing.now) self.now.bytes.now) }
    {
        let bytes = self.bytes;
        let numbers = &self.standing.numbers;
        rule(sequence(bytes) == numbers.sequence, Number(SEQUENCE))?;
        rule(succeeds(detail(bytes), numbers.detail), Number(DETAIL))?;
        rule(*reference(bytes) == numbers.reference, Number(REFERENCE))?;
        rule(codes_apart(bytes), Number(CODES))?;
        Ok(self.behind_information())
    }
}
