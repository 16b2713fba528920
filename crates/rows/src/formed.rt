// Whether fields are those of a row.
ghost use Rattle.std.specs.Prelude.{◌≡◌};
ghost use Rattle.layout.specs.Tables.{form_of};
ghost use Rattle.rows.specs.Rows.{fits as fits_of, are_codes, are_days, are_texts, is_movement, is_balance, is_statement, is_row as is_row_of};

use crate::fields::{Fields, MovementFields, StatementFields};
use crate::{ACCOUNT_LENGTH, MOST_MOVEMENTS};
use layout::{Form, holds};
use values::Money;

// Whether the bytes are so many, and of a form.
#[tactic(auto, unfolding(crate::specs::Rows::fits))]
fn fits(form: Form, width: usize, bytes: &[u8]) -> bool
    ensures { result ≡ fits_of (form_of form) width bytes.now }
{
    bytes.len() == width && holds(form, bytes)
}

fn are_codes(m: &MovementFields) -> bool
    ensures { result ≡ are_codes m.now }
{
    fits(Form::Sign, 1, &[m.sign])
        && fits(Form::Digits, 15, &m.amount)
        && fits(Form::Digits, 8, &m.code)
        && fits(Form::Digits, 4, &m.sequence)
        && fits(Form::Digits, 4, &m.detail)
        && fits(Form::Flag, 1, &[m.structured])
}

fn are_days(m: &MovementFields) -> bool
    ensures { result ≡ are_days m.now }
{
    fits(Form::DayOrZeros, 6, &m.value_day) && fits(Form::Day, 6, &m.entry_day)
}

fn are_texts(m: &MovementFields) -> bool
    ensures { result ≡ are_texts m.now }
{
    fits(Form::Text, 21, &m.reference)
        && fits(Form::Text, 53, &m.communication)
        && fits(Form::Text, 37, &m.counterparty_account)
        && fits(Form::Text, 35, &m.counterparty_name)
}

fn is_movement(m: &MovementFields) -> bool
    ensures { result ≡ is_movement m.now }
{
    are_codes(m) && are_days(m) && are_texts(m)
}

fn is_balance(thousandths: i64) -> bool
    ensures { result ≡ is_balance thousandths }
{
    Money::new(thousandths).is_some()
}

fn is_statement(s: &StatementFields) -> bool
    ensures { result ≡ is_statement s.now }
{
    fits(Form::Text, ACCOUNT_LENGTH, &s.account)
        && is_balance(s.old_balance)
        && is_balance(s.new_balance)
        && fits(Form::Day, 6, &s.old_day)
        && fits(Form::Day, 6, &s.new_day)
        && s.movements <= MOST_MOVEMENTS
}

#[tactic(auto, unfolding(crate::specs::Rows::is_row))]
pub fn is_row(fields: &Fields) -> bool
    ensures { result ≡ is_row_of fields.now }
{
    match fields {
        Fields::Movement(m) => is_movement(m),
        Fields::Statement(s) => is_statement(s),
    }
}
