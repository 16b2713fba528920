// The calls of a book on a table.
ghost use Rattle.std.specs.Prelude.{◌≡◌, ◌<◌, true, length, slice_index_or, IfSome};
ghost use Rattle.std.specs.Option.{option_map};
ghost use Rattle.rows.specs.Held.{fields_of};
ghost use Rattle.rows.specs.Rows.{blank, is_row};
ghost use Rattle.cashbook.specs.Calls.{answer, after, opening, adding, committing, cancelling};
ghost use Rattle.cashbook.specs.Counting.{figures, used};
ghost use Rattle.cashbook.specs.Sounding.{counted_sound};
ghost use Rattle.tablebook.specs.Memory.{means_of, rows_in, places_in, with_row, with_places};

use super::TableBook;
use cashbook::{Book, BookFault, put};
use rows::{Account, Fields, Row};

// The row at a place, counted from 0, where the fields of a row stand.
fn row_at(rows: &[Fields], i: usize) -> Row
    requires { (i < length rows.now) × (is_row (slice_index_or rows.now i blank) ≡ true) }
    ensures { fields_of result ≡ slice_index_or rows.now i blank }
{
    Row::new(rows[i]).unwrap()
}

impl<'a> TableBook<'a> {
    // The row at a place that was found.
    fn found(&self, place: Option<usize>) -> Option<Row>
        requires { IfSome place (λ i. i < used (figures self.now.counts)) }
        ensures { option_map fields_of result ≡ option_map (λ i. slice_index_or (rows_in self.now) i blank) place }
    {
        place.map(|i| row_at(self.memory.rows, i))
    }
}

impl<'a> Book for TableBook<'a> {
    ghost means = { means_of };

    ghost sound = { λ s. counted_sound s.counts.capacity s.counts.kept (rows_in s) s.counts.batch s.counts.small s.counts.room s.backed s.fine };

    fn open(&mut self) -> Result<(), BookFault>
        ensures answers { result ≡ answer (opening (means_of self.old)) }
        ensures leaves { means_of self.new ≡ after (means_of self.old) (opening (means_of self.old)) }
        ensures rows { rows_in self.new ≡ rows_in self.old }
        ensures places { places_in self.new ≡ places_in self.old }
    {
        self.counts = self.counts.opened()?;
        Ok(())
    }

    fn add(&mut self, row: &Row) -> Result<(), BookFault>
        ensures answers { result ≡ answer (adding (means_of self.old) (fields_of row.now)) }
        ensures leaves { means_of self.new ≡ after (means_of self.old) (adding (means_of self.old) (fields_of row.now)) }
        ensures rows { rows_in self.new ≡ with_row (means_of self.old) (fields_of row.now) (rows_in self.old) }
        ensures places { places_in self.new ≡ places_in self.old }
    {
        let counts = self.counts.added()?;
        let at = self.counts.used() as usize;
        self.memory.write(at, row.fields());
        self.counts = counts;
        Ok(())
    }

    fn commit(&mut self) -> Result<u32, BookFault>
        ensures answers { result ≡ answer (committing (means_of self.old)) }
        ensures leaves { means_of self.new ≡ after (means_of self.old) (committing (means_of self.old)) }
        ensures rows { rows_in self.new ≡ rows_in self.old }
        ensures places { places_in self.new ≡ with_places (means_of self.old) (places_in self.old) }
    {
        let counts = self.counts.committed()?;
        let rows = self.counts.batch();
        self.memory.keep(counts.kept());
        self.counts = counts;
        Ok(rows)
    }

    fn cancel(&mut self) -> Result<u32, BookFault>
        ensures answers { result ≡ answer (cancelling (means_of self.old)) }
        ensures leaves { means_of self.new ≡ after (means_of self.old) (cancelling (means_of self.old)) }
        ensures rows { rows_in self.new ≡ rows_in self.old }
        ensures places { places_in self.new ≡ places_in self.old }
    {
        let counts = self.counts.cancelled()?;
        let rows = self.counts.batch();
        self.counts = counts;
        Ok(rows)
    }

    fn is_open(&self) -> bool {
        self.counts.is_open()
    }

    fn free(&self) -> u32 {
        self.counts.free()
    }

    fn kept(&self) -> u32 {
        self.counts.kept()
    }

    fn kept_row(&self, n: u32, into: &mut Row) -> Result<(), BookFault> {
        let place = self.counts.kept_place(n)?;
        *into = row_at(self.memory.rows, place);
        Ok(())
    }

    fn latest_kept(&self, account: &Account, into: &mut Row) -> bool {
        put(self.found(self.memory.latest_kept(account)), into)
    }

    fn latest(&self, account: &Account, into: &mut Row) -> bool {
        let used = self.counts.used() as usize;
        put(self.found(self.memory.latest(used, account)), into)
    }
}
