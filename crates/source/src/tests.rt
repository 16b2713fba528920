use crate::*;
use recordbytes::RECORD_LENGTH;
use std::process::Abort;

const RECORD: Result<(), NoRecord> = Ok(());

const SHORT: Result<(), NoRecord> = Err(NoRecord::Damaged(Damage { cause: TOO_SHORT }));

const ABSENT: Result<(), NoRecord> = Err(NoRecord::Absent);

const LONG: Result<(), NoRecord> = Err(NoRecord::Damaged(Damage { cause: TOO_LONG }));

// Checks what fetching slot `n` answers, and that only a record is written, all of whose bytes are `byte`.
fn fetches<S: Source>(
    rt: &impl Abort,
    source: &mut S,
    n: usize,
    expected: Result<(), NoRecord>,
    byte: u8,
) {
    let mut out = [b'-'; RECORD_LENGTH];
    assert_eq!(rt; source.fetch(n, &mut out), expected);
    let left = if expected.is_ok() { byte } else { b'-' };
    assert_eq!(rt; out, [left; RECORD_LENGTH]);
}

// Checks the answers of all slots, in order and backwards, and that there are no others.
fn holds<S: Source>(rt: &impl Abort, source: &mut S, expected: &[Result<(), NoRecord>], byte: u8) {
    assert_eq!(rt; source.count(), expected.len());
    fetches(rt, source, 0, ABSENT, byte);
    for (i, answer) in expected.iter().enumerate() {
        fetches(rt, source, i + 1, *answer, byte);
    }
    fetches(rt, source, expected.len() + 1, ABSENT, byte);
    for (i, answer) in expected.iter().enumerate().rev() {
        fetches(rt, source, i + 1, *answer, byte);
    }
}

#[test]
fn no_bytes(rt: HostRuntime) {
    holds(&rt, &mut Packed::new(b""), &[], b'a');
    holds(&rt, &mut Lines::new(b""), &[], b'a');
}

#[test]
fn packed_rests(rt: HostRuntime) {
    holds(&rt, &mut Packed::new(&[b'a'; 127]), &[SHORT], b'a');
    holds(&rt, &mut Packed::new(&[b'a'; 129]), &[RECORD, SHORT], b'a');
}

// Lines of 128, 129, 0, 1 and 128 bytes, with either ending, the last with none.
fn five_lines() -> [u8; 392] {
    let mut file = [b'a'; 392];
    file[128] = b'\r';
    file[129] = b'\n';
    file[259] = b'\n';
    file[260] = b'\n';
    file[262] = b'\r';
    file[263] = b'\n';
    file
}

#[test]
fn lines_of_all_lengths(rt: HostRuntime) {
    let expected = [RECORD, LONG, SHORT, SHORT, RECORD];
    holds(&rt, &mut Lines::new(&five_lines()), &expected, b'a');
}

// Of carriage returns before a line feed only the last belongs to the ending.
#[test]
fn carriage_returns_before_a_line_feed(rt: HostRuntime) {
    let mut file = [b'\r'; 130];
    file[129] = b'\n';
    holds(&rt, &mut Lines::new(&file), &[RECORD], b'\r');
}

#[test]
fn carriage_returns_at_the_end(rt: HostRuntime) {
    holds(&rt, &mut Lines::new(&[b'\r'; 129]), &[LONG], b'\r');
}
