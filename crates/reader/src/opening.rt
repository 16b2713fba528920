// Headers and old balances.
ghost use Rattle.std.specs.Prelude.{◌≡◌};
ghost use Rattle.grammar.specs.Places.{beginning, unnumbered, opened};
ghost use Rattle.grammar.specs.Steps.{after_header, after_old_balance};
ghost use Rattle.reader.specs.Means.{means, numbers_of, sums_of, place_of};

use crate::levels::Levels;
use crate::state::{Numbers, Standing, State, Sums};
use crate::taking::Taking;
use fields::{ACCOUNT_LENGTH, REFERENCE_LENGTH, old_account, old_amount};
use grammar::Expect;
use recordbytes::RecordBytes;

// Before the first movement of a statement.
fn unnumbered() -> Numbers
    ensures { numbers_of result ≡ unnumbered }
{
    Numbers {
        sequence: 0,
        detail: 0,
        reference: [b' '; REFERENCE_LENGTH],
        main_type: 0,
        seven: false,
        levels: Levels::none(),
    }
}

fn opened(bytes: &RecordBytes) -> Sums
    ensures { sums_of result 1 ≡ opened bytes.now }
{
    Sums {
        account: *old_account(bytes),
        balance: old_amount(bytes),
        debits: 0,
        credits: 0,
    }
}

impl State {
    // Before the first record.
    pub(crate) fn new() -> State
        ensures means { means result ≡ beginning }
        ensures read { result.read ≡ 0 }
    {
        State {
            standing: Standing {
                expect: Expect::Start,
                numbers: unnumbered(),
                sums: Sums {
                    account: [b' '; ACCOUNT_LENGTH],
                    balance: 0,
                    debits: 0,
                    credits: 0,
                },
                count: 0,
                statements: 0,
                movements: 0,
            },
            read: 0,
        }
    }
}

impl Taking<'_> {
    // Behind a header.
    pub(crate) fn behind_header(&self) -> Standing
        ensures { place_of result ≡ after_header (place_of self.now.standing.now) }
    {
        Standing {
            expect: Expect::OldBalance,
            ..*self.standing
        }
    }

    // Behind an old balance.
    pub(crate) fn behind_old_balance(&self) -> Standing
        ensures { place_of result ≡ after_old_balance (place_of self.now.standing.now) self.now.bytes.now }
    {
        Standing {
            expect: Expect::Opened,
            numbers: unnumbered(),
            sums: opened(self.bytes),
            count: 1,
            statements: self.standing.statements + 1,
            ..*self.standing
        }
    }
}
