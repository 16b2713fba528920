// Days and amounts on examples.
use super::*;
use std::test::Fail;

#[test]
fn reads_days(rt: HostRuntime) -> Result<(), Fail> {
    let leap = Day::read(b"290224").ok_or_else(|| Fail::new("29 February 2024 is a day"))?;
    let next = Day::read(b"010324").ok_or_else(|| Fail::new("1 March 2024 is a day"))?;
    assert!(rt; leap.is_before(&next) && !next.is_before(&leap));
    assert!(rt; leap.is_same(&leap) && !leap.is_same(&next));
    assert!(rt; leap.bytes() == *b"290224");
    assert!(rt; Day::read(b"290223").is_none());
    Ok(())
}

#[test]
fn reads_money(rt: HostRuntime) -> Result<(), Fail> {
    let debit = Money::read(b'1', b"000000000001500").ok_or_else(|| Fail::new(
        "fifteen digits are an amount",
    ))?;
    assert!(rt; debit.thousandths() == -1500 && debit.sign() == b'1');
    assert!(rt; (-debit).thousandths() == 1500);
    assert!(rt; signed(b'1', b"000000000000000") == 0);
    assert!(rt; Money::read(b'2', b"000000000001500").is_none());
    Ok(())
}

#[test]
fn writes_money(rt: HostRuntime) -> Result<(), Fail> {
    let most = Money::new(-999_999_999_999_999).ok_or_else(|| Fail::new(
        "fifteen digits are an amount",
    ))?;
    let mut out = [0; 16];
    most.write(&mut out);
    assert!(rt; out == *b"1999999999999999");
    assert!(rt; Money::new(1_000_000_000_000_000).is_none());
    Ok(())
}
