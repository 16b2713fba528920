// The lines of a script, and what their texts write.
use rowbytes::{ROW_LENGTH, read_row};
use rows::{Account, Row};

// A call of a book, with what is written behind its name.
#[derive(Clone, Copy)]
pub enum Call<'a> {
    Open,
    Add(&'a str),
    Commit,
    Cancel,
    IsOpen,
    Free,
    Kept,
    KeptRow(&'a str),
    LatestKept(&'a str),
    Latest(&'a str),
}

// The call of a name, with what is written behind the space that follows it.
pub fn call_of<'a>(name: &str, rest: &'a str) -> Option<Call<'a>> {
    match (name, rest) {
        ("add", text) => Some(Call::Add(text)),
        ("row", text) => Some(Call::KeptRow(text)),
        ("latest-kept", text) => Some(Call::LatestKept(text)),
        ("latest", text) => Some(Call::Latest(text)),
        ("open", "") => Some(Call::Open),
        ("commit", "") => Some(Call::Commit),
        ("cancel", "") => Some(Call::Cancel),
        ("is-open", "") => Some(Call::IsOpen),
        ("free", "") => Some(Call::Free),
        ("kept", "") => Some(Call::Kept),
        _ => None,
    }
}

// The row that a text writes, where zeros may be missing at its end.
pub fn row_of(text: &str) -> Option<Row> {
    let written = text.as_bytes();
    let mut padded = [0; ROW_LENGTH];
    padded.get_mut(..written.len())?.copy_from_slice(written);
    read_row(&padded)
}

// The account that a text is, where it has the length of one.
pub fn account_of(text: &str) -> Option<&Account> {
    text.as_bytes().as_array()
}
