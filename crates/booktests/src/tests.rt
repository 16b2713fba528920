// The same calls on books of both kinds.
use cashbook::{Book, BookFault, MOST_ROWS, fault_number};
use imagebook::ImageBook;
use images::HEADER_LENGTH;
use rowbytes::ROW_LENGTH;
use rows::{Account, BLANK, Fields, Row, StatementFields};
use std::process::Abort;
use std::test::Fail;
use tablebook::TableBook;

const ACCOUNT: Account = *b"2BE68539007547034                  EUR";

// The number of a refusal, 0 for none: an Option would say no more where each answer is compared with a number.
fn refusal(answer: Result<(), BookFault>) -> usize {
    answer.err().map_or(0, |fault| fault_number(fault))
}

// A statement row that closes with a balance.
fn statement(new_balance: i64) -> Result<Row, Fail> {
    let fields = Fields::Statement(StatementFields {
        account: ACCOUNT,
        old_balance: 0,
        new_balance,
        old_day: *b"010324",
        new_day: *b"020324",
        movements: 1,
    });
    Row::new(fields).ok_or_else(|| Fail::new("the fields are those of a row"))
}

fn closes_with(row: &Row) -> i64 {
    match row.fields() {
        Fields::Movement(_) => 0,
        Fields::Statement(statement) => statement.new_balance,
    }
}

// A book that has no batch and has kept `kept` rows refuses what needs a batch or a row.
fn refuses<B: Book>(rt: &impl Abort, book: &mut B, kept: u32) {
    let mut into = Row::blank();
    assert!(rt; !book.is_open());
    assert_eq!(rt; book.kept(), kept);
    assert_eq!(rt; refusal(book.add(&into)), 25);
    assert_eq!(rt; book.commit().ok(), None);
    assert_eq!(rt; book.cancel().ok(), None);
    assert_eq!(rt; refusal(book.kept_row(0, &mut into)), 26);
    assert_eq!(rt;
        refusal(book.kept_row(kept.saturating_add(1), &mut into)),
        26
    );
}

// Fills a book of a capacity, once for nothing and once for good.
fn fills<B: Book>(rt: &impl Abort, book: &mut B, capacity: u32) -> Result<(), Fail> {
    let first = statement(1)?;
    let last = statement(2)?;
    let mut into = Row::blank();
    refuses(rt, book, 0);
    assert_eq!(rt; book.free(), capacity);
    assert_eq!(rt; refusal(book.open()), 0);
    assert_eq!(rt; refusal(book.open()), 21);
    for _ in 1..capacity {
        assert_eq!(rt; refusal(book.add(&first)), 0);
    }
    assert_eq!(rt; book.cancel().ok(), Some(capacity.saturating_sub(1)));
    refuses(rt, book, 0);
    assert!(rt; !book.latest(&ACCOUNT, &mut into));
    assert_eq!(rt; refusal(book.open()), 0);
    for _ in 1..capacity {
        assert_eq!(rt; refusal(book.add(&first)), 0);
    }
    if capacity > 0 {
        assert_eq!(rt; refusal(book.add(&last)), 0);
        assert!(rt; !book.latest_kept(&ACCOUNT, &mut into));
        assert!(rt; book.latest(&ACCOUNT, &mut into));
        assert_eq!(rt; closes_with(&into), 2);
    }
    assert_eq!(rt; book.free(), 0);
    assert_eq!(rt; refusal(book.add(&last)), 24);
    assert_eq!(rt; book.commit().ok(), Some(capacity));
    refuses(rt, book, capacity);
    assert_eq!(rt; book.latest_kept(&ACCOUNT, &mut into), capacity > 0);
    assert_eq!(rt; closes_with(&into), if capacity > 0 { 2 } else { 0 });
    Ok(())
}

fn fills_a_table(
    rt: &(impl Abort + AllocGlobal),
    length: usize,
    capacity: u32,
) -> Result<(), Fail> {
    let mut rows = vec![in rt.alloc(); BLANK; length]?;
    let mut places = vec![in rt.alloc(); 0u32; length]?;
    let refused = refusal(TableBook::test(rows.as_slice(), places.as_slice()));
    assert_eq!(rt; refused, if capacity > 0 { 0 } else { 27 });
    fills(
        rt,
        &mut TableBook::new(rows.as_mut_slice(), places.as_mut_slice()),
        capacity,
    )
}

fn fills_an_image(
    rt: &(impl Abort + AllocGlobal),
    length: usize,
    capacity: u32,
) -> Result<(), Fail> {
    let mut bytes = vec![in rt.alloc(); 7u8; length]?;
    let refused = refusal(ImageBook::test(bytes.as_slice()));
    assert_eq!(rt; refused, if capacity > 0 { 0 } else { 27 });
    fills(rt, &mut ImageBook::new(bytes.as_mut_slice()), capacity)
}

#[test]
fn no_capacity(rt: HostRuntime) -> Result<(), Fail> {
    fills_a_table(&rt, 0, 0)?;
    fills_an_image(&rt, 0, 0)?;
    fills_an_image(&rt, HEADER_LENGTH - 1, 0)?;
    fills_an_image(&rt, HEADER_LENGTH + ROW_LENGTH - 1, 0)
}

#[test]
fn one_row(rt: HostRuntime) -> Result<(), Fail> {
    fills_a_table(&rt, 1, 1)?;
    fills_an_image(&rt, HEADER_LENGTH + ROW_LENGTH, 1)
}

#[test]
fn more_memory_than_rows(rt: HostRuntime) -> Result<(), Fail> {
    let more = MOST_ROWS as usize + 1;
    fills_a_table(&rt, more, MOST_ROWS)?;
    fills_an_image(&rt, HEADER_LENGTH + more * ROW_LENGTH, MOST_ROWS)
}

#[test]
fn short_bytes_stay_as_they_are(rt: HostRuntime) -> Result<(), Fail> {
    let mut bytes = [7; HEADER_LENGTH - 1];
    let mut book = ImageBook::new(&mut bytes);
    assert_eq!(rt; refusal(book.open()), 0);
    assert_eq!(rt; book.commit().ok(), Some(0));
    let _ = book.close();
    assert_eq!(rt; bytes, [7; HEADER_LENGTH - 1]);
    Ok(())
}
