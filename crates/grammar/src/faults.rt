// What can be wrong, layer by layer.
ghost use Rattle.std.specs.Prelude.{◌≡◌};
ghost use Rattle.grammar.specs.declared.faults.StatementFault.TheVariants.{Record};
ghost use Rattle.grammar.specs.declared.faults.FileFault.TheVariants.{Source, Statement};

use crate::positions::{
    ACCOUNT, AMOUNT, COUNT, CREDIT_SUM, DEBIT_SUM, DETAIL, LEVEL, REFERENCE, SEQUENCE, TYPE,
};
use source::Damage;
use std::error::Error;
use std::fmt;

const UNKNOWN_OR_MISPLACED: &str = "the record is none of the eleven kinds, or may not stand here";

// With a record by itself: a byte that stands in no record, none of the eleven kinds, a field not of its form.
#[derive(Clone, Copy, PartialEq, Eq, Debug)]
pub enum RecordFault {
    Forbidden(usize),
    Unknown,
    Misformed(usize),
}

// With a record where it stands: by itself, one that may not come here, a wrong number, wrong money, each at a position.
// A position and no enum of fields: it is what is answered, and it decides which of two faults is further left.
#[derive(Clone, Copy, PartialEq, Eq, Debug)]
pub enum StatementFault {
    Record(RecordFault),
    Misplaced,
    Number(usize),
    Money(usize),
}

// A damaged slot.
#[derive(Clone, Copy, PartialEq, Eq, Debug)]
pub struct SourceFault {
    pub slot: usize,
    pub damage: Damage,
}

// A record's fault with its slot.
#[derive(Clone, Copy, PartialEq, Eq, Debug)]
pub struct Located {
    pub slot: usize,
    pub fault: StatementFault,
}

// With a file: a damaged slot, a record, slots that end before the file, or too many slots.
#[derive(Clone, Copy, PartialEq, Eq, Debug)]
pub enum FileFault {
    Source(SourceFault),
    Statement(Located),
    EndsEarly(usize),
    TooManySlots,
}

// The number of statements and of movement records (2.1) of a file.
#[derive(Clone, Copy, PartialEq, Eq, Debug)]
pub struct Counts {
    pub statements: usize,
    pub movements: usize,
}

impl From<RecordFault> for StatementFault {
    ghost from_gives = { λ f r. r ≡ Record f };

    fn from(fault: RecordFault) -> StatementFault {
        StatementFault::Record(fault)
    }
}

impl From<SourceFault> for FileFault {
    ghost from_gives = { λ f r. r ≡ Source f };

    fn from(fault: SourceFault) -> FileFault {
        FileFault::Source(fault)
    }
}

impl From<Located> for FileFault {
    ghost from_gives = { λ f r. r ≡ Statement f };

    fn from(fault: Located) -> FileFault {
        FileFault::Statement(fault)
    }
}

// What a fault means, in words.
impl fmt::Display for RecordFault {
    fn fmt<W: fmt::Write>(&self, f: &mut fmt::Formatter<W>) -> fmt::Result {
        f.write_str(match self {
            RecordFault::Forbidden(_) => "a byte below 32 or byte 127 stands in the record",
            RecordFault::Unknown => UNKNOWN_OR_MISPLACED,
            RecordFault::Misformed(_) => "a field is not of its form",
        })
    }
}

impl fmt::Display for StatementFault {
    fn fmt<W: fmt::Write>(&self, f: &mut fmt::Formatter<W>) -> fmt::Result {
        let text = match self {
            StatementFault::Record(record) => return record.fmt(f),
            StatementFault::Misplaced => UNKNOWN_OR_MISPLACED,
            StatementFault::Number(SEQUENCE) => "the sequence number is wrong",
            StatementFault::Number(ACCOUNT) => "the account is not that of the old balance",
            StatementFault::Number(DETAIL) => "the detail number is wrong",
            StatementFault::Number(REFERENCE) => "the reference is not that of the movement",
            StatementFault::Number(COUNT) => "the count is not the number of counted records",
            StatementFault::Number(TYPE) => "the type may not stand here",
            StatementFault::Number(LEVEL) => "the globalisation level may not stand here",
            StatementFault::Number(_) => "the next and link codes are wrong",
            StatementFault::Money(DEBIT_SUM) => "the debit sum is not that of the main movements",
            StatementFault::Money(AMOUNT) => "with this amount a sum passes 999,999,999,999.999",
            StatementFault::Money(CREDIT_SUM) => "the credit sum is not that of the main movements",
            StatementFault::Money(_) =>
                "the new balance is not the old one plus the main movements",
        };
        f.write_str(text)
    }
}

impl fmt::Display for FileFault {
    fn fmt<W: fmt::Write>(&self, f: &mut fmt::Formatter<W>) -> fmt::Result {
        match self {
            FileFault::Source(_) => f.write_str("the slot is damaged"),
            FileFault::Statement(located) => located.fault.fmt(f),
            FileFault::EndsEarly(_) => f.write_str("the slots end before the file ends"),
            FileFault::TooManySlots => f.write_str("there are more than 100,000 slots"),
        }
    }
}

impl Error for RecordFault {}

impl Error for StatementFault {}

impl Error for FileFault {}
