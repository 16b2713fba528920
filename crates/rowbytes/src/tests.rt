// Rows on examples.
use super::*;
use rows::{Fields, MovementFields, Rank, Row, StatementFields};
use std::test::Fail;

fn a_detail() -> Fields {
    Fields::Movement(MovementFields {
        rank: Rank::Detail,
        sign: b'1',
        amount: *b"000000001250500",
        value_day: *b"000000",
        entry_day: *b"290224",
        code: *b"00150000",
        sequence: *b"0002",
        detail: *b"0001",
        reference: [b'R'; 21],
        structured: b'0',
        communication: [b'C'; 53],
        counterparty_account: [b'A'; 37],
        counterparty_name: [b'N'; 35],
    })
}

fn a_statement() -> Fields {
    Fields::Statement(StatementFields {
        account: [b'7'; 38],
        old_balance: 0,
        new_balance: -1_250_500,
        old_day: *b"280224",
        new_day: *b"290224",
        movements: 12,
    })
}

fn made(fields: Fields) -> Result<Row, Fail> {
    Row::new(fields).ok_or_else(|| Fail::new("the fields are those of a row"))
}

#[test]
fn a_movement_is_read_back(rt: HostRuntime) -> Result<(), Fail> {
    let row = made(a_detail())?;
    let bytes = row_bytes(&row);
    assert!(rt; &bytes[0..17] == b"D1000000001250500".as_slice());
    assert!(rt; &bytes[192..256] == [0; 64].as_slice());
    assert!(rt; read_row(&bytes).is_some());
    assert!(rt; !is_statement_of(&bytes, &[b'7'; 38]));
    Ok(())
}

#[test]
fn a_statement_is_read_back(rt: HostRuntime) -> Result<(), Fail> {
    let row = made(a_statement())?;
    let bytes = row_bytes(&row);
    assert!(rt; &bytes[39..71] == b"00000000000000001000000001250500".as_slice());
    assert!(rt; &bytes[83..89] == b"000012".as_slice());
    assert!(rt; read_row(&bytes).is_some());
    assert!(rt; is_statement_of(&bytes, &[b'7'; 38]));
    assert!(rt; !is_statement_of(&bytes, &[b'8'; 38]));
    Ok(())
}

#[test]
fn damaged_bytes_are_refused(rt: HostRuntime) -> Result<(), Fail> {
    let row = made(a_statement())?;
    let mut bytes = row_bytes(&row);
    assert!(rt; read_row(&bytes[0..255]).is_none());
    bytes[255] = b'0';
    assert!(rt; read_row(&bytes).is_none());
    Ok(())
}
