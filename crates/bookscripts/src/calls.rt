// Running the calls of a script on a book, whatever it is kept on.
use crate::answers::{Answer, RowCount, Trouble};
use crate::script::{Call, account_of, call_of, row_of};
use crate::show::Text;
use cashbook::Book;
use rows::Row;
use std::io;

// Runs the calls of a script, one a line; empty lines and those that begin with # are passed over.
pub fn run_calls<B: Book>(rt: &HostRuntime, book: &mut B, script: &str) -> io::Result<()> {
    for line in script.lines() {
        if !line.is_empty() && !line.starts_with('#') {
            let (name, rest) = line.split_once(' ').unwrap_or((line, ""));
            let call = call_of(name, rest);
            // a kept row is told with its number, and what is no call as it stands
            let told = match call {
                Some(Call::KeptRow(_)) | None => line,
                Some(_) => name,
            };
            print!(rt; "   {}: ", Text(told.as_bytes()))?;
            match answer(book, call) {
                Ok(answer) => println!(rt; "{answer}")?,
                Err(trouble) => println!(rt; "{trouble}")?,
            }
        }
    }
    Ok(())
}

// What the book answers to a call: a match and no table of closures, since each call has an argument of its own.
fn answer<B: Book>(book: &mut B, call: Option<Call<'_>>) -> Result<Answer, Trouble> {
    match call.ok_or(Trouble::UnknownCall)? {
        Call::Open => {
            book.open()?;
            Ok(Answer::Done)
        }
        Call::Add(text) => {
            let row = row_of(text).ok_or(Trouble::NoRow)?;
            book.add(&row)?;
            Ok(Answer::Done)
        }
        Call::Commit => Ok(Answer::Rows(RowCount(book.commit()?))),
        Call::Cancel => Ok(Answer::Rows(RowCount(book.cancel()?))),
        Call::IsOpen => Ok(Answer::Truth(book.is_open())),
        Call::Free => Ok(Answer::Number(book.free())),
        Call::Kept => Ok(Answer::Number(book.kept())),
        Call::KeptRow(text) => {
            let n = text.parse::<u32>().map_err(|_| Trouble::NoNumber)?;
            let mut row = Row::blank();
            book.kept_row(n, &mut row)?;
            Ok(Answer::Row(row))
        }
        Call::LatestKept(text) => {
            let account = account_of(text).ok_or(Trouble::NoAccount)?;
            Ok(found(|row| book.latest_kept(account, row)))
        }
        Call::Latest(text) => {
            let account = account_of(text).ok_or(Trouble::NoAccount)?;
            Ok(found(|row| book.latest(account, row)))
        }
    }
}

// The row that a question puts into the place that it is given, where it finds one.
fn found<Q: FnOnce(&mut Row) -> bool>(question: Q) -> Answer
    requires { Q.IsAlwaysCallable question }
{
    let mut row = Row::blank();
    if question(&mut row) {
        Answer::Row(row)
    } else {
        Answer::Nothing
    }
}
