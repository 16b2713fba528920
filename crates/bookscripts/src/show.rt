// How a row is printed.
use recordbytes::number;
use rows::{Fields, MovementFields, Rank, StatementFields};
use std::fmt;
use values::DEBIT;

// The fields of a row, in one line.
#[derive(Clone, Copy)]
pub struct RowText(pub Fields);

// Bytes as text; one that is no plain character is shown as a question mark.
#[derive(Clone, Copy)]
pub struct Text<'a>(pub &'a [u8]);

// Six bytes DDMMYY, shown as day, month and year.
#[derive(Clone, Copy)]
struct DayText([u8; 6]);

// An amount in thousandths, shown with its sign and three decimals. The flag stands beside the number,
// since a debit of nothing is shown with its sign too.
#[derive(Clone, Copy)]
struct AmountText {
    is_debit: bool,
    thousandths: u64,
}

impl fmt::Display for RowText {
    fn fmt<W: fmt::Write>(&self, f: &mut fmt::Formatter<W>) -> fmt::Result {
        match &self.0 {
            Fields::Movement(movement) => show_movement(movement, f),
            Fields::Statement(statement) => show_statement(statement, f),
        }
    }
}

fn show_movement<W: fmt::Write>(
    movement: &MovementFields,
    f: &mut fmt::Formatter<W>,
) -> fmt::Result {
    let letter = match movement.rank {
        Rank::Main => 'M',
        Rank::Detail => 'D',
    };
    let sequence = Text(&movement.sequence);
    let detail = Text(&movement.detail);
    let day = DayText(movement.entry_day);
    let amount = AmountText {
        is_debit: movement.sign == DEBIT,
        thousandths: number(&movement.amount),
    };
    let communication = Text(movement.communication.trim_ascii_end());
    write!(
        f,
        "{letter} {sequence} {detail}, {day}, {amount}, {communication}"
    )
}

fn show_statement<W: fmt::Write>(
    statement: &StatementFields,
    f: &mut fmt::Formatter<W>,
) -> fmt::Result {
    let account = Text(statement.account.trim_ascii_end());
    let old_balance = balance(statement.old_balance);
    let old_day = DayText(statement.old_day);
    let new_balance = balance(statement.new_balance);
    let new_day = DayText(statement.new_day);
    let movements = statement.movements;
    write!(
        f,
        "S {account}, old {old_balance} on {old_day}, new {new_balance} on {new_day}, movements {movements}"
    )
}

fn balance(thousandths: i64) -> AmountText {
    AmountText {
        is_debit: thousandths < 0,
        thousandths: thousandths.unsigned_abs(),
    }
}

impl fmt::Display for Text<'_> {
    fn fmt<W: fmt::Write>(&self, f: &mut fmt::Formatter<W>) -> fmt::Result {
        for byte in self.0 {
            f.write_char(plain(*byte))?;
        }
        Ok(())
    }
}

fn plain(byte: u8) -> char {
    match byte {
        32..=126 => char::from(byte),
        _ => '?',
    }
}

impl fmt::Display for DayText {
    fn fmt<W: fmt::Write>(&self, f: &mut fmt::Formatter<W>) -> fmt::Result {
        let day = Text(&self.0[0..2]);
        let month = Text(&self.0[2..4]);
        let year = Text(&self.0[4..6]);
        write!(f, "{day}/{month}/{year}")
    }
}

impl fmt::Display for AmountText {
    fn fmt<W: fmt::Write>(&self, f: &mut fmt::Formatter<W>) -> fmt::Result {
        let sign = if self.is_debit { '-' } else { '+' };
        let whole = self.thousandths / 1000;
        let decimals = self.thousandths % 1000;
        write!(f, "{sign}{whole}.{decimals:03}")
    }
}
