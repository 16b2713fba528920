// The table of fields of each kind of record.
ghost use Rattle.std.specs.Prelude.{◌≡◌, map};
ghost use Rattle.layout.specs.Layouts.{layout, LayoutsTile};
ghost use Rattle.layout.specs.Tables.{field_of};

use crate::form::Form;
use crate::kind::Kind;

// A field: its first and its last position, counted from 1, and its form.
#[derive(Clone, Copy, PartialEq, Eq, Debug)]
pub struct Field(pub usize, pub usize, pub Form);

static HEADER: [Field; 14] = [
    Field(1, 1, Form::Is(b"0")),
    Field(2, 5, Form::Is(b"0000")),
    Field(6, 11, Form::Day),
    Field(12, 14, Form::Digits),
    Field(15, 16, Form::Is(b"05")),
    Field(17, 17, Form::OneOf(b"D ")),
    Field(18, 24, Form::Spaces),
    Field(25, 71, Form::Text),
    Field(72, 82, Form::Digits),
    Field(83, 83, Form::Spaces),
    Field(84, 88, Form::Is(b"00000")),
    Field(89, 120, Form::Text),
    Field(121, 127, Form::Spaces),
    Field(128, 128, Form::Is(b"2")),
];

static OLD_BALANCE: [Field; 9] = [
    Field(1, 1, Form::Is(b"1")),
    Field(2, 2, Form::OneOf(b"0123")),
    Field(3, 5, Form::Digits),
    Field(6, 42, Form::Text),
    Field(43, 43, Form::Sign),
    Field(44, 58, Form::Digits),
    Field(59, 64, Form::Day),
    Field(65, 125, Form::Text),
    Field(126, 128, Form::Digits),
];

static MOVEMENT: [Field; 16] = [
    Field(1, 2, Form::Is(b"21")),
    Field(3, 6, Form::Digits),
    Field(7, 10, Form::Digits),
    Field(11, 31, Form::Text),
    Field(32, 32, Form::Sign),
    Field(33, 47, Form::Digits),
    Field(48, 53, Form::DayOrZeros),
    Field(54, 61, Form::Digits),
    Field(62, 62, Form::Flag),
    Field(63, 115, Form::Text),
    Field(116, 121, Form::Day),
    Field(122, 124, Form::Digits),
    Field(125, 125, Form::Digits),
    Field(126, 126, Form::Flag),
    Field(127, 127, Form::Spaces),
    Field(128, 128, Form::Flag),
];

static MOVEMENT_SECOND: [Field; 9] = [
    Field(1, 2, Form::Is(b"22")),
    Field(3, 6, Form::Digits),
    Field(7, 10, Form::Digits),
    Field(11, 109, Form::Text),
    Field(110, 117, Form::Spaces),
    Field(118, 125, Form::Text),
    Field(126, 126, Form::Flag),
    Field(127, 127, Form::Spaces),
    Field(128, 128, Form::Flag),
];

static COUNTERPARTY: [Field; 9] = [
    Field(1, 2, Form::Is(b"23")),
    Field(3, 6, Form::Digits),
    Field(7, 10, Form::Digits),
    Field(11, 47, Form::Text),
    Field(48, 82, Form::Text),
    Field(83, 125, Form::Text),
    Field(126, 126, Form::Is(b"0")),
    Field(127, 127, Form::Spaces),
    Field(128, 128, Form::Flag),
];

static INFORMATION: [Field; 11] = [
    Field(1, 2, Form::Is(b"31")),
    Field(3, 6, Form::Digits),
    Field(7, 10, Form::Digits),
    Field(11, 31, Form::Text),
    Field(32, 39, Form::Digits),
    Field(40, 40, Form::Flag),
    Field(41, 113, Form::Text),
    Field(114, 125, Form::Spaces),
    Field(126, 126, Form::Flag),
    Field(127, 127, Form::Spaces),
    Field(128, 128, Form::Flag),
];

static INFORMATION_SECOND: [Field; 8] = [
    Field(1, 2, Form::Is(b"32")),
    Field(3, 6, Form::Digits),
    Field(7, 10, Form::Digits),
    Field(11, 115, Form::Text),
    Field(116, 125, Form::Spaces),
    Field(126, 126, Form::Flag),
    Field(127, 127, Form::Spaces),
    Field(128, 128, Form::Flag),
];

static INFORMATION_THIRD: [Field; 8] = [
    Field(1, 2, Form::Is(b"33")),
    Field(3, 6, Form::Digits),
    Field(7, 10, Form::Digits),
    Field(11, 100, Form::Text),
    Field(101, 125, Form::Spaces),
    Field(126, 126, Form::Is(b"0")),
    Field(127, 127, Form::Spaces),
    Field(128, 128, Form::Flag),
];

static NEW_BALANCE: [Field; 8] = [
    Field(1, 1, Form::Is(b"8")),
    Field(2, 4, Form::Digits),
    Field(5, 41, Form::Text),
    Field(42, 42, Form::Sign),
    Field(43, 57, Form::Digits),
    Field(58, 63, Form::Day),
    Field(64, 127, Form::Spaces),
    Field(128, 128, Form::Flag),
];

static FREE_COMMUNICATION: [Field; 8] = [
    Field(1, 1, Form::Is(b"4")),
    Field(2, 2, Form::Spaces),
    Field(3, 6, Form::Digits),
    Field(7, 10, Form::Digits),
    Field(11, 32, Form::Spaces),
    Field(33, 112, Form::Text),
    Field(113, 127, Form::Spaces),
    Field(128, 128, Form::Flag),
];

static TRAILER: [Field; 7] = [
    Field(1, 1, Form::Is(b"9")),
    Field(2, 16, Form::Spaces),
    Field(17, 22, Form::Digits),
    Field(23, 37, Form::Digits),
    Field(38, 52, Form::Digits),
    Field(53, 127, Form::Spaces),
    Field(128, 128, Form::OneOf(b"12")),
];

// The fields of a kind of record, from the left.
pub fn table(kind: Kind) -> &'static [Field]
    ensures { map field_of result.now ≡ layout kind }
{
    match kind {
        Kind::Header => &HEADER,
        Kind::OldBalance => &OLD_BALANCE,
        Kind::Movement => &MOVEMENT,
        Kind::MovementSecond => &MOVEMENT_SECOND,
        Kind::Counterparty => &COUNTERPARTY,
        Kind::Information => &INFORMATION,
        Kind::InformationSecond => &INFORMATION_SECOND,
        Kind::InformationThird => &INFORMATION_THIRD,
        Kind::NewBalance => &NEW_BALANCE,
        Kind::FreeCommunication => &FREE_COMMUNICATION,
        Kind::Trailer => &TRAILER,
    }
}

// The fields of each kind follow on from position 1 to 128 without a gap.
pub fn layouts_tile()
    ensures { LayoutsTile }
{}
