use crate::*;

#[test]
fn walks_name_the_first_byte_outside(rt: HostRuntime) {
    assert_eq!(rt; first_outside::<Digit>(b"12x4"), Some(2));
    assert_eq!(rt; first_outside::<Digit>(b""), None);
    assert_eq!(rt; first_outside::<Space>(b"  -"), Some(2));
    assert_eq!(rt; first_outside::<Plain>(b"ab\x7fc"), Some(2));
    assert_eq!(rt; first_outside::<Plain>(b"\x1f"), Some(0));
    assert_eq!(rt; first_outside::<Plain>(b"\x80 ~"), None);
}

#[test]
fn spans_stop_at_the_end(rt: HostRuntime) {
    assert!(rt; span(b"abcdef", 2, 4) == b"bcd".as_slice());
    assert!(rt; span(b"abc", 3, 9) == b"c".as_slice());
    assert!(rt; span(b"abc", 4, 9) == b"".as_slice());
}

#[test]
fn digits_are_numbers(rt: HostRuntime) {
    assert_eq!(rt; number(b"000000001250500"), 1_250_500);
    assert_eq!(rt; number(b""), 0);
    let mut out = [b'-'; 6];
    write_digits(&mut out, 1_000_042);
    assert_eq!(rt; out, *b"000042");
}
