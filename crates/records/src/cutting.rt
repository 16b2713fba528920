// Cutting the bytes of a record into its fields.
ghost use Rattle.std.specs.Prelude.{◌≡◌};
ghost use Rattle.records.specs.Fields.{kind_of_record, fields, free_fields};

use crate::cases::{
    Counterparty, FreeCommunication, Header, Information, InformationSecond, InformationThird,
    Movement, MovementSecond, NewBalance, OldBalance, Record, Trailer,
};
use layout::Kind;
use recordbytes::RecordBytes;

// The fields of a record of a kind.
pub fn cut(kind: Kind, bytes: &RecordBytes) -> Record<'_>
    ensures kind { kind_of_record result ≡ kind }
    ensures fields { fields result ≡ free_fields kind bytes.now }
{
    match kind {
        Kind::Header => Record::Header(Header {
            creation_day: &bytes[5..11],
            bank: &bytes[11..14],
            duplicate: &bytes[16..17],
            addressee: &bytes[24..71],
            holder: &bytes[71..82],
            references: &bytes[88..120],
        }),
        Kind::OldBalance => Record::OldBalance(OldBalance {
            structure: &bytes[1..2],
            paper_number: &bytes[2..5],
            account: &bytes[5..42],
            sign: &bytes[42..43],
            balance: &bytes[43..58],
            day: &bytes[58..64],
            holder: &bytes[64..125],
            statement_number: &bytes[125..128],
        }),
        Kind::Movement => Record::Movement(Movement {
            sequence: &bytes[2..6],
            detail: &bytes[6..10],
            reference: &bytes[10..31],
            sign: &bytes[31..32],
            amount: &bytes[32..47],
            value_day: &bytes[47..53],
            code: &bytes[53..61],
            structured: &bytes[61..62],
            communication: &bytes[62..115],
            entry_day: &bytes[115..121],
            paper_number: &bytes[121..124],
            level: &bytes[124..125],
            next: &bytes[125..126],
            link: &bytes[127..128],
        }),
        Kind::MovementSecond => Record::MovementSecond(MovementSecond {
            sequence: &bytes[2..6],
            detail: &bytes[6..10],
            communication: &bytes[10..109],
            purpose: &bytes[117..125],
            next: &bytes[125..126],
            link: &bytes[127..128],
        }),
        Kind::Counterparty => Record::Counterparty(Counterparty {
            sequence: &bytes[2..6],
            detail: &bytes[6..10],
            account: &bytes[10..47],
            name: &bytes[47..82],
            communication: &bytes[82..125],
            link: &bytes[127..128],
        }),
        Kind::Information => Record::Information(Information {
            sequence: &bytes[2..6],
            detail: &bytes[6..10],
            reference: &bytes[10..31],
            code: &bytes[31..39],
            structured: &bytes[39..40],
            communication: &bytes[40..113],
            next: &bytes[125..126],
            link: &bytes[127..128],
        }),
        Kind::InformationSecond => Record::InformationSecond(InformationSecond {
            sequence: &bytes[2..6],
            detail: &bytes[6..10],
            communication: &bytes[10..115],
            next: &bytes[125..126],
            link: &bytes[127..128],
        }),
        Kind::InformationThird => Record::InformationThird(InformationThird {
            sequence: &bytes[2..6],
            detail: &bytes[6..10],
            communication: &bytes[10..100],
            link: &bytes[127..128],
        }),
        Kind::NewBalance => Record::NewBalance(NewBalance {
            paper_number: &bytes[1..4],
            account: &bytes[4..41],
            sign: &bytes[41..42],
            balance: &bytes[42..57],
            day: &bytes[57..63],
            link: &bytes[127..128],
        }),
        Kind::FreeCommunication => Record::FreeCommunication(FreeCommunication {
            sequence: &bytes[2..6],
            detail: &bytes[6..10],
            text: &bytes[32..112],
            link: &bytes[127..128],
        }),
        Kind::Trailer => Record::Trailer(Trailer {
            count: &bytes[16..22],
            debits: &bytes[22..37],
            credits: &bytes[37..52],
            follows: &bytes[127..128],
        }),
    }
}
