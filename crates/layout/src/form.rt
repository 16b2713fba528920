// The form of a field, and whether bytes are of it.
ghost use Rattle.std.specs.Prelude.{◌≡◌};
ghost use Rattle.layout.specs.Forms.{among, is_one_of, holds as holds_of};
ghost use Rattle.layout.specs.Tables.{form_of};

use recordbytes::{Plain, Space, all_digits, all_inside};
use values::is_day;

#[derive(Clone, Copy, PartialEq, Eq, Debug)]
pub enum Form {
    Digits,
    Text,
    Spaces,
    Day,
    DayOrZeros,
    Sign,
    Flag,
    Is(&'static [u8]),
    OneOf(&'static [u8]),
}

// Whether a byte stands in a list of bytes.
fn among(choices: &[u8], byte: u8) -> bool
    ensures { result ≡ among choices.now byte }
{
    choices.contains(&byte)
}

// Whether the bytes are one byte, out of a list of bytes.
fn is_one_of(bytes: &[u8], choices: &[u8]) -> bool
    ensures { result ≡ is_one_of choices.now bytes.now }
{
    bytes.len() == 1 && among(choices, bytes[0])
}

// Whether the bytes are of the form.
pub fn holds(form: Form, bytes: &[u8]) -> bool
    ensures { result ≡ holds_of (form_of form) bytes.now }
{
    match form {
        Form::Digits => all_digits(bytes),
        Form::Text => all_inside::<Plain>(bytes),
        Form::Spaces => all_inside::<Space>(bytes),
        Form::Day => is_day(bytes),
        Form::DayOrZeros => is_day(bytes) || bytes == b"000000".as_slice(),
        Form::Sign | Form::Flag => is_one_of(bytes, b"01"),
        Form::Is(text) => bytes == text,
        Form::OneOf(choices) => is_one_of(bytes, choices),
    }
}
