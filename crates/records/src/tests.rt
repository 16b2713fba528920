use crate::*;
use layout::{Kind, first_misformed, kind_of};
use recordbytes::RecordBytes;
use std::test::Fail;

const MOVEMENT: RecordBytes =
    *b"2100010000KLV240304000101      0000000000486750040324001500001101000002411862                                      04032404401 0";

#[test]
fn a_movement_is_cut(rt: HostRuntime) -> Result<(), Fail> {
    assert!(rt; kind_of(&MOVEMENT) == Some(Kind::Movement));
    assert_eq!(rt; first_misformed(Kind::Movement, &MOVEMENT), None);
    match cut(Kind::Movement, &MOVEMENT) {
        Record::Movement(movement) => {
            assert!(rt; movement.sequence == b"0001".as_slice());
            assert!(rt; movement.next == b"1".as_slice());
            Ok(())
        }
        _ => Err(Fail::new("no movement")),
    }
}

#[test]
fn the_leftmost_misformed_field_is_named(rt: HostRuntime) {
    let mut bytes = MOVEMENT;
    bytes[127] = b'2';
    assert_eq!(rt; first_misformed(Kind::Movement, &bytes), Some(128));
    bytes[40] = b'x';
    assert_eq!(rt; first_misformed(Kind::Movement, &bytes), Some(33));
}
