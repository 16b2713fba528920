// What a call of a script answers, and how that is printed.
use crate::show::RowText;
use cashbook::{BookFault, fault_number};
use rows::Row;
use std::fmt;

// What a call that the book took answers.
#[derive(Clone, Copy)]
pub enum Answer {
    Done,
    // how many rows the batch had
    Rows(RowCount),
    Truth(bool),
    Number(u32),
    Row(Row),
    // no statement row of the account
    Nothing,
}

// Why there is no answer.
#[derive(Clone, Copy, PartialEq, Eq, Debug)]
pub enum Trouble {
    UnknownCall,
    NoRow,
    NoNumber,
    NoAccount,
    Refused(BookFault),
}

impl From<BookFault> for Trouble {
    fn from(fault: BookFault) -> Trouble {
        Trouble::Refused(fault)
    }
}

// A number of rows.
#[derive(Clone, Copy, PartialEq, Eq, Debug)]
pub struct RowCount(pub u32);

impl fmt::Display for RowCount {
    fn fmt<W: fmt::Write>(&self, f: &mut fmt::Formatter<W>) -> fmt::Result {
        let count = self.0;
        let noun = if count == 1 { "row" } else { "rows" };
        write!(f, "{count} {noun}")
    }
}

impl fmt::Display for Answer {
    fn fmt<W: fmt::Write>(&self, f: &mut fmt::Formatter<W>) -> fmt::Result {
        match self {
            Answer::Done => f.write_str("done"),
            Answer::Rows(rows) => write!(f, "{rows}"),
            Answer::Truth(true) => f.write_str("yes"),
            Answer::Truth(false) => f.write_str("no"),
            Answer::Number(number) => write!(f, "{number}"),
            Answer::Row(row) => write!(f, "{}", RowText(row.fields())),
            Answer::Nothing => f.write_str("none"),
        }
    }
}

impl fmt::Display for Trouble {
    fn fmt<W: fmt::Write>(&self, f: &mut fmt::Formatter<W>) -> fmt::Result {
        match self {
            Trouble::UnknownCall => f.write_str("no such call"),
            Trouble::NoRow => f.write_str("no row"),
            Trouble::NoNumber => f.write_str("no number"),
            Trouble::NoAccount => f.write_str("no account"),
            Trouble::Refused(fault) => {
                let number = fault_number(*fault);
                write!(f, "refused {number}, {fault}")
            }
        }
    }
}
