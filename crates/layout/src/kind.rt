// The eleven kinds of record.
ghost use Rattle.std.specs.Prelude.{◌≡◌};
ghost use Rattle.layout.specs.Kinds.{by_article, kind_of};

use recordbytes::RecordBytes;
use std::fmt;

#[derive(Clone, Copy, PartialEq, Eq, Debug)]
pub enum Kind {
    // 0
    Header,
    // 1
    OldBalance,
    // 2.1
    Movement,
    // 2.2
    MovementSecond,
    // 2.3
    Counterparty,
    // 3.1
    Information,
    // 3.2
    InformationSecond,
    // 3.3
    InformationThird,
    // 8
    NewBalance,
    // 4
    FreeCommunication,
    // 9
    Trailer,
}

// The number of kinds.
pub const KIND_COUNT: usize = 11;

pub const KINDS: [Kind; KIND_COUNT] = [
    Kind::Header,
    Kind::OldBalance,
    Kind::Movement,
    Kind::MovementSecond,
    Kind::Counterparty,
    Kind::Information,
    Kind::InformationSecond,
    Kind::InformationThird,
    Kind::NewBalance,
    Kind::FreeCommunication,
    Kind::Trailer,
];

impl fmt::Display for Kind {
    fn fmt<W: fmt::Write>(&self, f: &mut fmt::Formatter<W>) -> fmt::Result {
        f.write_str(match self {
            Kind::Header => "header (0)",
            Kind::OldBalance => "old balance (1)",
            Kind::Movement => "movement (2.1)",
            Kind::MovementSecond => "movement, second part (2.2)",
            Kind::Counterparty => "counterparty (2.3)",
            Kind::Information => "information (3.1)",
            Kind::InformationSecond => "information, second part (3.2)",
            Kind::InformationThird => "information, third part (3.3)",
            Kind::NewBalance => "new balance (8)",
            Kind::FreeCommunication => "free communication (4)",
            Kind::Trailer => "trailer (9)",
        })
    }
}

// One of three kinds, by the article code.
fn by_article(code: u8, one: Kind, two: Kind, three: Kind) -> Option<Kind>
    ensures { result ≡ by_article code one two three }
{
    match code {
        b'1' => Some(one),
        b'2' => Some(two),
        b'3' => Some(three),
        _ => None,
    }
}

// The kind of a record, told from its first two bytes, or none of the eleven.
pub fn kind_of(bytes: &RecordBytes) -> Option<Kind>
    ensures { result ≡ kind_of bytes.now }
{
    match bytes[0] {
        b'0' => Some(Kind::Header),
        b'1' => Some(Kind::OldBalance),
        b'2' => by_article(
            bytes[1],
            Kind::Movement,
            Kind::MovementSecond,
            Kind::Counterparty,
        ),
        b'3' => by_article(
            bytes[1],
            Kind::Information,
            Kind::InformationSecond,
            Kind::InformationThird,
        ),
        b'4' => Some(Kind::FreeCommunication),
        b'8' => Some(Kind::NewBalance),
        b'9' => Some(Kind::Trailer),
        _ => None,
    }
}
