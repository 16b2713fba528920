// The numbers of a fault: its own, its record, its position and its cause; what is not given is 0.
#![tactic(auto)]

ghost use Rattle.std.specs.Prelude.{◌≡◌};
ghost use Rattle.grammar.specs.Faults.{statement_number, statement_position};
ghost use Rattle.refusals.specs.Refusals.{IsRefusalOf};

use grammar::{FileFault, Located, RecordFault, SourceFault, StatementFault};
use std::fmt;

#[derive(Clone, Copy, PartialEq, Eq, Debug, Default)]
pub struct Refusal {
    pub number: usize,
    pub record: usize,
    pub position: usize,
    pub cause: u8,
}

// A match and no From: a bare number would not say which of the four it is.
fn statement_number(fault: StatementFault) -> usize
    ensures { result ≡ statement_number fault }
{
    match fault {
        StatementFault::Record(RecordFault::Forbidden(_)) => 2,
        StatementFault::Record(RecordFault::Unknown) | StatementFault::Misplaced => 3,
        StatementFault::Record(RecordFault::Misformed(_)) => 4,
        StatementFault::Number(_) => 5,
        StatementFault::Money(_) => 6,
    }
}

// A function of its own and no From, since the reader asks for the position alone.
pub fn statement_position(fault: StatementFault) -> usize
    ensures { result ≡ statement_position fault }
{
    match fault {
        StatementFault::Record(RecordFault::Unknown) | StatementFault::Misplaced => 1,
        StatementFault::Record(RecordFault::Forbidden(position))
        | StatementFault::Record(RecordFault::Misformed(position))
        | StatementFault::Number(position)
        | StatementFault::Money(position) => position,
    }
}

impl From<FileFault> for Refusal {
    ghost from_gives = { IsRefusalOf };

    fn from(fault: FileFault) -> Refusal {
        match fault {
            FileFault::Source(SourceFault { slot, damage }) => Refusal {
                number: 1,
                record: slot,
                cause: damage.cause,
                ..Refusal::default()
            },
            FileFault::Statement(Located { slot, fault }) => Refusal {
                number: statement_number(fault),
                record: slot,
                position: statement_position(fault),
                ..Refusal::default()
            },
            FileFault::EndsEarly(end) => Refusal {
                number: 7,
                record: end,
                ..Refusal::default()
            },
            FileFault::TooManySlots => Refusal {
                number: 8,
                ..Refusal::default()
            },
        }
    }
}

impl fmt::Display for Refusal {
    fn fmt<W: fmt::Write>(&self, f: &mut fmt::Formatter<W>) -> fmt::Result {
        let Refusal {
            number,
            record,
            position,
            cause,
        } = *self;
        write!(
            f,
            "{number} at record {record}, position {position}, cause {cause}"
        )
    }
}
