// The interface of a cash book.
ghost use Rattle.std.specs.Prelude.{◌≡◌, length, is_some};
ghost use Rattle.rows.specs.Held.{fields_of};
ghost use Rattle.cashbook.specs.Meaning.{Meaning, Sound, all_rows, free_rows, is_open};
ghost use Rattle.cashbook.specs.Calls.{answer, after, opening, adding, committing, cancelling};
ghost use Rattle.cashbook.specs.Questions.{Puts, kept_row, row_answer, latest};

use crate::fault::BookFault;
use rows::{Account, Row};

// A capacity, kept rows, and no batch or a batch of rows.
pub trait Book {
    // What the book means.
    ghost means: { Self → Meaning };

    // There is room for the rows, at most 100,000 of them, and each is a row.
    ghost sound: { (s : Self) → Sound (means s) };

    // Starts an empty batch.
    fn open(&mut self) -> Result<(), BookFault>
        ensures answers { result ≡ answer (opening (means self.old)) }
        ensures leaves { means self.new ≡ after (means self.old) (opening (means self.old)) };

    // Puts a row behind those of the batch.
    fn add(&mut self, row: &Row) -> Result<(), BookFault>
        ensures answers { result ≡ answer (adding (means self.old) (fields_of row.now)) }
        ensures leaves { means self.new ≡ after (means self.old) (adding (means self.old) (fields_of row.now)) };

    // Moves the batch behind the kept rows; answers how many rows it had.
    fn commit(&mut self) -> Result<u32, BookFault>
        ensures answers { result ≡ answer (committing (means self.old)) }
        ensures leaves { means self.new ≡ after (means self.old) (committing (means self.old)) };

    // Removes the batch; answers how many rows it had.
    fn cancel(&mut self) -> Result<u32, BookFault>
        ensures answers { result ≡ answer (cancelling (means self.old)) }
        ensures leaves { means self.new ≡ after (means self.old) (cancelling (means self.old)) };

    // Each book tells the next three itself, since a book of another make need not keep `Counts`.

    // Whether a batch is open.
    fn is_open(&self) -> bool
        ensures { result ≡ is_open (means self.now) };

    // How many rows there is room for yet.
    fn free(&self) -> u32
        ensures { result ≡ free_rows (means self.now) };

    // The number of kept rows.
    fn kept(&self) -> u32
        ensures { result ≡ length (means self.now).kept };

    // Puts kept row `n`, counted from 1, into `into`; where there is none, `into` stays as it is.
    fn kept_row(&self, n: u32, into: &mut Row) -> Result<(), BookFault>
        ensures answers { result ≡ row_answer (kept_row (means self.now) n) }
        ensures puts { Puts (kept_row (means self.now) n) into.old into.new };

    // By a rule of the project a question puts its row into the caller's place, so these two answer a `bool` and no row.

    // Puts the latest kept statement row of an account into `into`; false, and nothing written, where there is none.
    fn latest_kept(&self, account: &Account, into: &mut Row) -> bool
        ensures answers { result ≡ is_some (latest account.now (means self.now).kept) }
        ensures puts { Puts (latest account.now (means self.now).kept) into.old into.new };

    // The same among the kept rows and those of the batch.
    fn latest(&self, account: &Account, into: &mut Row) -> bool
        ensures answers { result ≡ is_some (latest account.now (all_rows (means self.now))) }
        ensures puts { Puts (latest account.now (all_rows (means self.now))) into.old into.new };
}
